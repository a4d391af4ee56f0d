//! Blocks as graphs.
use crate::common::{all_registers, insns_of, set_of};
use ci_cut::Source::{Entry, Made};
use ci_cut::{Graph, Node, Source};
use ci_dfg::{are_bundled, graph, sources};
use ci_isa::insn_at;
use ci_lat::Table;
use ci_word::Row;
use std::alloc::{AllocError, Global};
use std::process::Abort;
use std::test::Fail;

// Graphs are let go by calls of `drop`, which a proof does not look into.

/// The sources of a node, the nodes with an arc into it, and whether its value is live.
type Told<'a> = (&'a [Source], &'a [u8], bool);

/// The graph of the block of these words by the usual table, after which these registers are live.
fn graph_before(
    rt: &impl Abort,
    alloc: Global,
    words: &[u32],
    live: Row,
) -> Result<Graph, AllocError> {
    let insns = insns_of(alloc, words)?;
    assert!(rt; insns.len() <= 256);
    assert!(rt; are_bundled(&insns));
    let graph = graph(alloc, &insns, live, &Table::usual());
    drop(insns);
    graph
}

/// The same, where all registers are live.
fn graph_of(rt: &impl Abort, alloc: Global, words: &[u32]) -> Result<Graph, AllocError> {
    graph_before(rt, alloc, words, all_registers())
}

/// Whether a node is as it is told.
fn is_told(node: &Node, told: &Told<'_>) -> bool {
    let (sources, before, live) = *told;
    node.sources.as_slice() == sources && node.before == set_of(before) && node.live == live
}

/// Compares the nodes of a graph.
fn check(rt: &impl Abort, graph: &Graph, told: &[Told<'_>]) {
    assert!(rt; graph.nodes().len() == told.len());
    for (k, (node, told)) in graph.nodes().iter().zip(told).enumerate() {
        assert!(rt; is_told(node, told), "node {k}");
    }
}

/// Compares which nodes may be members, and their latencies and delays.
fn check_costs(rt: &impl Abort, graph: &Graph, told: &[(bool, u32, u32)]) {
    assert!(rt; graph.nodes().len() == told.len());
    for (k, (node, costs)) in graph.nodes().iter().zip(told).enumerate() {
        assert!(rt;
            (node.eligible, node.latency, node.delay) == *costs,
            "costs of {k}"
        );
    }
}

/// Compares the nodes of the graph of the block of these words, where all registers are live.
fn expect_nodes(
    rt: &impl Abort,
    alloc: Global,
    words: &[u32],
    told: &[Told<'_>],
) -> Result<(), AllocError> {
    let graph = graph_of(rt, alloc, words)?;
    check(rt, &graph, told);
    drop(graph);
    Ok(())
}

#[test]
fn no_instruction(rt: HostRuntime) -> Result<(), AllocError> {
    let graph = graph_of(&rt, rt.alloc(), &[])?;
    assert!(rt; graph.nodes().is_empty() && (graph.read(), graph.pad()) == (1, 0));
    drop(graph);
    Ok(())
}

/// addi x17, x0, 93; ecall
#[test]
fn the_operands_of_a_call(rt: HostRuntime) -> Result<(), Fail> {
    let mut insns = Vec::new(rt.alloc());
    for word in [0x05D0_0893, 0x0000_0073] {
        insns.push(insn_at(word))?;
    }
    assert!(rt; insns.len() == 2);
    let call = sources(rt.alloc(), &insns, 1)?;
    let told: &[Source] = &[Entry(10), Entry(11), Entry(12), Made(0)];
    assert!(rt; call.as_slice() == told);
    Ok(())
}

/// Asserts whether the bundles of a block of these words are whole.
fn expect_bundled(
    rt: &impl Abort,
    alloc: Global,
    words: &[u32],
    due: bool,
) -> Result<(), AllocError> {
    let insns = insns_of(alloc, words)?;
    let bundled = are_bundled(&insns);
    drop(insns);
    assert!(rt; bundled == due, "{words:?}");
    Ok(())
}

// Tables are the answers of functions, so that the proof of a test looks at none of them.

/// Blocks, and whether their bundles are whole. The words are cput x13, x14; ci 0, x10, x0, x0, x0; cread x6;
/// cread x7, 1; and addi x0, x0, 0.
fn bundles() -> &'static [(&'static [u32], bool)] {
    &[
        (&[], true),
        (&[0x0000_050B], true),
        (&[0x00E6_902B, 0x0000_050B, 0x0000_032B, 0x0010_03AB], true),
        (&[0x0000_050B, 0x0000_032B, 0x0000_0013], true),
        (&[0x0000_0013, 0x00E6_902B], false),
        (&[0x00E6_902B, 0x0000_0013, 0x0000_050B], false),
        (&[0x0000_032B], false),
        (&[0x0000_050B, 0x0000_0013, 0x0000_032B], false),
        (&[0x0010_03AB], false),
        (&[0x0000_050B, 0x0010_03AB], false),
        (&[0x0000_050B, 0x0000_032B, 0x0000_032B], false),
    ]
}

#[test]
fn tells_whole_bundles(rt: HostRuntime) -> Result<(), AllocError> {
    for (words, due) in bundles() {
        expect_bundled(&rt, rt.alloc(), words, *due)?;
    }
    Ok(())
}

/// addi x5, x10, 1; add x6, x5, x11
#[test]
fn two_values(rt: HostRuntime) -> Result<(), AllocError> {
    expect_nodes(
        &rt,
        rt.alloc(),
        &[0x0015_0293, 0x00B2_8333],
        &[
            (&[Entry(10)], &[], true),
            (&[Made(0), Entry(11)], &[0], true),
        ],
    )
}

/// add x5, x10, x11; add x5, x5, x12
#[test]
fn two_sums(rt: HostRuntime) -> Result<(), AllocError> {
    expect_nodes(
        &rt,
        rt.alloc(),
        &[0x00B5_02B3, 0x00C2_82B3],
        &[
            (&[Entry(10), Entry(11)], &[], false),
            (&[Made(0), Entry(12)], &[0], true),
        ],
    )
}

/// xor x5, x10, x11; lw x6, 0(x5); xor x5, x6, x5; xor x5, x5, x10
#[test]
fn a_load_of_a_value(rt: HostRuntime) -> Result<(), AllocError> {
    expect_nodes(
        &rt,
        rt.alloc(),
        &[0x00B5_42B3, 0x0002_A303, 0x0053_42B3, 0x00A2_C2B3],
        &[
            (&[Entry(10), Entry(11)], &[], false),
            (&[Made(0)], &[0], true),
            (&[Made(1), Made(0)], &[0, 1], false),
            (&[Made(2), Entry(10)], &[0, 1, 2], true),
        ],
    )
}

/// add x5, x10, x11; lw x10, 0(x12); add x5, x5, x10
#[test]
fn a_load_between(rt: HostRuntime) -> Result<(), Fail> {
    let graph = graph_of(&rt, rt.alloc(), &[0x00B5_02B3, 0x0006_2503, 0x00A2_82B3])?;
    check(
        &rt,
        &graph,
        &[
            (&[Entry(10), Entry(11)], &[], false),
            (&[Entry(12)], &[0], true),
            (&[Made(0), Made(1)], &[0, 1], true),
        ],
    );
    check_costs(
        &rt,
        &graph,
        &[(true, 1, 400), (false, 2, 0), (true, 1, 400)],
    );
    drop(graph);
    Ok(())
}

/// lui x5, 0x12345; addi x5, x5, 1656
#[test]
fn a_constant(rt: HostRuntime) -> Result<(), AllocError> {
    expect_nodes(
        &rt,
        rt.alloc(),
        &[0x1234_52B7, 0x6782_8293],
        &[(&[], &[], false), (&[Made(0)], &[0], true)],
    )
}

/// xor x5, x10, x11; xor x6, x5, x12; xor x6, x6, x10; xor x6, x6, x11
#[test]
fn four_logic_operations(rt: HostRuntime) -> Result<(), AllocError> {
    expect_nodes(
        &rt,
        rt.alloc(),
        &[0x00B5_42B3, 0x00C2_C333, 0x00A3_4333, 0x00B3_4333],
        &[
            (&[Entry(10), Entry(11)], &[], true),
            (&[Made(0), Entry(12)], &[0], false),
            (&[Made(1), Entry(10)], &[1], false),
            (&[Made(2), Entry(11)], &[1, 2], true),
        ],
    )
}

/// add x5, x10, x11; add x5, x5, x12; add x6, x13, x14; add x6, x6, x15
#[test]
fn two_pairs(rt: HostRuntime) -> Result<(), AllocError> {
    expect_nodes(
        &rt,
        rt.alloc(),
        &[0x00B5_02B3, 0x00C2_82B3, 0x00E6_8333, 0x00F3_0333],
        &[
            (&[Entry(10), Entry(11)], &[], false),
            (&[Made(0), Entry(12)], &[0], true),
            (&[Entry(13), Entry(14)], &[], false),
            (&[Made(2), Entry(15)], &[2], true),
        ],
    )
}

/// xor x6, x7, x7; unit 0 x5, x10, x11, x12; cread x6; add x8, x5, x5; sw x8, 0(x5); ecall
#[test]
fn a_unit_and_its_cread(rt: HostRuntime) -> Result<(), Fail> {
    let graph = graph_of(
        &rt,
        rt.alloc(),
        &[
            0x0073_C333,
            0x60B5_028B,
            0x0000_032B,
            0x0052_8433,
            0x0082_A023,
            0x73,
        ],
    )?;
    check(
        &rt,
        &graph,
        &[
            (&[Entry(7), Entry(7)], &[], false),
            (&[Entry(10), Entry(11), Entry(12)], &[0], true),
            (&[], &[0, 1], true),
            (&[Made(1), Made(1)], &[1, 2], true),
            (&[Made(1), Made(3)], &[1, 2, 3], false),
            (
                &[Entry(10), Entry(11), Entry(12), Entry(17)],
                &[0, 1, 2, 3, 4],
                true,
            ),
        ],
    );
    let unit_word = (false, 0, 0);
    let costs = [
        (true, 1, 100),
        unit_word,
        unit_word,
        (true, 1, 400),
        (false, 1, 0),
        (false, 1, 0),
    ];
    check_costs(&rt, &graph, &costs);
    drop(graph);
    Ok(())
}

/// add x12, x10, x11; cput x13, x14; unit 0 x5, x10, x11, x12; cread x6; cread x7, 1; add x8, x5, x6; add x10, x14, x14
///
/// The sum before makes the third operand of the unit word. The sums behind read two of the results, and write the
/// register of its first operand.
#[test]
fn a_bundle_of_four_words(rt: HostRuntime) -> Result<(), AllocError> {
    expect_nodes(
        &rt,
        rt.alloc(),
        &[
            0x00B5_0633,
            0x00E6_902B,
            0x60B5_028B,
            0x0000_032B,
            0x0010_03AB,
            0x0062_8433,
            0x00E7_0533,
        ],
        &[
            (&[Entry(10), Entry(11)], &[], true),
            (&[Entry(13), Entry(14)], &[0], false),
            (&[Entry(10), Entry(11), Made(0)], &[0, 1], true),
            (&[], &[2], true),
            (&[], &[3], true),
            (&[Made(2), Made(3)], &[2, 3, 4], true),
            (&[Entry(14), Entry(14)], &[0, 2, 4], true),
        ],
    )
}

/// add x5, x10, x11; lw x6, 0(x0); add x10, x5, x12; addi x17, x0, 93; ecall
#[test]
fn a_block_behind_which_nothing_is_live(rt: HostRuntime) -> Result<(), Fail> {
    let words = &[
        0x00B5_02B3,
        0x0000_2303,
        0x00C2_8533,
        0x05D0_0893,
        0x0000_0073,
    ];
    let graph = graph_before(&rt, rt.alloc(), words, Row::empty())?;
    check(
        &rt,
        &graph,
        &[
            (&[Entry(10), Entry(11)], &[], false),
            (&[], &[], false),
            (&[Made(0), Entry(12)], &[0], false),
            (&[], &[], false),
            (
                &[Made(2), Entry(11), Entry(12), Made(3)],
                &[0, 1, 2, 3],
                false,
            ),
        ],
    );
    drop(graph);
    Ok(())
}

/// addi x0, x0, 0; add x5, x0, x0; add x0, x5, x5; a word that is no instruction
#[test]
fn the_register_that_is_zero(rt: HostRuntime) -> Result<(), AllocError> {
    expect_nodes(
        &rt,
        rt.alloc(),
        &[0x0000_0013, 0x0000_02B3, 0x0052_8033, 0xFFFF_FFFF],
        &[
            (&[], &[], false),
            (&[], &[], true),
            (&[Made(1), Made(1)], &[1], false),
            (&[], &[0, 1, 2], false),
        ],
    )
}

/// lw x5, 0(x10); lw x6, 0(x11); add x28, x29, x30; sw x7, 0(x12); sw x8, 0(x13); lw x9, 0(x14)
// Each two accesses stay in order, loads too. The sum between them is free.
#[test]
fn accesses_in_their_order(rt: HostRuntime) -> Result<(), AllocError> {
    expect_nodes(
        &rt,
        rt.alloc(),
        &[
            0x0005_2283,
            0x0005_A303,
            0x01EE_8E33,
            0x0076_2023,
            0x0086_A023,
            0x0007_2483,
        ],
        &[
            (&[Entry(10)], &[], true),
            (&[Entry(11)], &[0], true),
            (&[Entry(29), Entry(30)], &[], true),
            (&[Entry(12), Entry(7)], &[0, 1], false),
            (&[Entry(13), Entry(8)], &[0, 1, 3], false),
            (&[Entry(14)], &[0, 1, 3, 4], true),
        ],
    )
}

/// beq x14, x15, 8; jal x1, 8; jalr x1, 0(x14); ebreak; fence 255, x0, x0; auipc x28, 1; a word that is no instruction
fn terminators() -> &'static [u32] {
    &[
        0x00F7_0463,
        0x0080_00EF,
        0x0007_00E7,
        0x0010_0073,
        0x0FF0_000F,
        0x0000_1E17,
        0xFFFF_FFFF,
    ]
}

/// Asserts that a sum has an arc into a word behind it, to which nothing else ties it, or that it has none.
fn expect_arc(rt: &impl Abort, alloc: Global, word: u32, before: &[u8]) -> Result<(), AllocError> {
    let graph = graph_of(rt, alloc, &[0x00B5_02B3, word])?;
    assert!(rt; graph.nodes().len() == 2);
    assert!(rt; graph.nodes()[1].before == set_of(before), "{word:08x}");
    drop(graph);
    Ok(())
}

// Not so lui x28, 1; sw x7, 0(x12); and add x28, x29, x30.
#[test]
fn the_terminator_stays_behind(rt: HostRuntime) -> Result<(), AllocError> {
    for word in terminators() {
        expect_arc(&rt, rt.alloc(), *word, &[0])?;
    }
    for word in [0x0000_1E37, 0x0076_2023, 0x01EE_8E33] {
        expect_arc(&rt, rt.alloc(), word, &[])?;
    }
    Ok(())
}
