//! The units of small blocks, whose graphs are built by hand.
ghost use Rattle.std.specs.Prelude.{◌≡◌, ℕ, ◌<◌, ◌≤◌, IsTrue, IfOk, IfSome, All, length};
ghost use Rattle.std.specs.FinSet as set;
ghost use Rattle.std.specs.List.{list_any};
ghost use Rattle.ci_isa.specs.Effects as effects;
ghost use Rattle.ci_isa.specs.Effects.{without_x0};
ghost use Rattle.ci_isa.specs.Table.{IsWellFormed};
ghost use Rattle.ci_cut.specs.declared.graph.Source.TheVariants as sources;
ghost use Rattle.ci_cut.specs.FlowGraph.{is_source};
ghost use Rattle.ci_unit.specs.Operands.{AreOperands};
ghost use Rattle.ci_unit.specs.Uses.{AreRegisters};

use ci_cut::Source::{Entry, Made};
use ci_cut::{Graph, Limits, Node, Source, Sources, fits};
use ci_isa::{Insn, Reg, encode, is_eligible, operands};
use ci_unit::{Unit, UnitTable, apply, encode_use, unit_of};
use ci_word::{Op, Row};
use std::alloc::Global;
use std::process::Abort;
use std::test::Fail;

/// How many operands of the instruction are other registers than x0.
fn kept_operands(insn: &Insn) -> usize
    ensures { result ≡ length (without_x0 (effects.operands insn.now)) }
{
    let registers = operands(insn);
    let mut count = 0;
    for register in &registers {
        if *register != 0 {
            count += 1;
        }
    }
    count
}

/// The set of the numbers below `count`, which is at most 256.
fn all_below(count: usize) -> Row
    requires { count ≤ 256 }
    ensures { (j : ℕ) → IsTrue (set.contains result j) → j < count }
{
    let mut row = Row::empty();
    for k in 0..count {
        row.insert(k as u8);
    }
    row
}

/// These sources, of which each node's number is below `count`.
fn sources_of(
    rt: &impl Abort,
    alloc: Global,
    operands: &[Source],
    count: usize,
) -> Result<Sources, Fail>
    ensures value { IfOk result (λ list. list ≡ operands.now) }
    ensures made { IfOk result (λ list.
        (j : ℕ) → IsTrue (list_any (is_source (sources.Made j)) list) → j < count) }
    ensures registers { IfOk result (λ list.
        (r : ℕ) → IsTrue (list_any (is_source (sources.Entry r)) list) → r < 32) }
{
    let mut list = Sources::new(alloc);
    for source in operands {
        match source {
            Entry(register) => assert!(rt; *register < 32),
            Made(node) => assert!(rt; (*node as usize) < count),
        }
        list.push(*source)?;
    }
    Ok(list)
}

/// A node's sources, and whether its value is live after the block.
type Part<'a> = (&'a [Source], bool);

/// The graph of the instructions, with these parts for its nodes.
fn graph_of(
    rt: &impl Abort,
    alloc: Global,
    insns: &[Insn],
    parts: &[Part<'_>],
) -> Result<Graph, Fail>
    ensures operands { IfOk result (λ graph. AreOperands insns.now graph) }
    ensures registers { IfOk result AreRegisters }
{
    assert!(rt; insns.len() <= 256);
    assert!(rt; parts.len() == insns.len());
    let mut nodes = Vec::new(alloc);
    for (k, part) in parts.iter().enumerate() {
        let (operands, live) = *part;
        let insn = &insns[k];
        assert!(rt; operands.len() == kept_operands(insn));
        let sources = sources_of(rt, alloc, operands, k)?;
        nodes.push(Node {
            eligible: is_eligible(insn),
            latency: 1,
            delay: 600,
            sources,
            before: Row::empty(),
            live,
        })?;
    }
    Ok(Graph::new(nodes, 1, 0))
}

// Graphs, units and tables are let go by calls of `drop`, which a proof does not look into.

/// The unit of all of the instructions.
fn unit_of_all(
    rt: &impl Abort,
    alloc: Global,
    insns: &[Insn],
    parts: &[Part<'_>],
) -> Result<Unit, Fail> {
    let graph = graph_of(rt, alloc, insns, parts)?;
    let cut = all_below(graph.nodes().len());
    let limits = Limits {
        inputs: 5,
        outputs: 3,
    };
    assert!(rt; fits(&graph, &limits, &cut));
    let unit = unit_of(alloc, insns, &graph, &cut);
    drop(graph);
    Ok(unit?)
}

/// The `cput`, the unit word, and the `cread` of the second and of the third output.
type Words = (Option<u32>, u32, Option<u32>, Option<u32>);

/// The words by which a block of the instructions uses the unit of all of them, as unit 0.
fn words_of_use(
    rt: &impl Abort,
    alloc: Global,
    insns: &[Insn],
    parts: &[Part<'_>],
) -> Result<Words, Fail> {
    let graph = graph_of(rt, alloc, insns, parts)?;
    let cut = all_below(graph.nodes().len());
    let limits = Limits {
        inputs: 5,
        outputs: 3,
    };
    assert!(rt; fits(&graph, &limits, &cut));
    let words = encode_use(alloc, insns, &graph, &cut, 0);
    drop(graph);
    let reads = words.reads.as_slice();
    Ok((
        word(words.put),
        encode(&words.unit),
        word_at(reads, 0),
        word_at(reads, 1),
    ))
}

/// The word of an instruction, if there is one.
fn word(insn: Option<Insn>) -> Option<u32>
    requires { IfSome insn IsWellFormed }
{
    match insn {
        Some(insn) => Some(encode(&insn)),
        None => None,
    }
}

/// The word of the instruction at this place, if there is one.
fn word_at(insns: &[Insn], place: usize) -> Option<u32>
    requires { All IsWellFormed insns.now }
{
    match insns.get(place) {
        Some(insn) => Some(encode(insn)),
        None => None,
    }
}

/// The unit's number, after the unit was put into the table where it was not there.
fn number(rt: &impl Abort, table: &mut UnitTable, unit: Unit) -> Result<u8, Fail> {
    if let Some(k) = table.number_of(&unit) {
        drop(unit);
        return Ok(k);
    }
    assert!(rt; table.len() < 32);
    Ok(table.add(unit)?)
}

fn register(rt: &impl Abort, n: u8) -> Reg {
    Reg::new(n).expect(rt, "a register")
}

fn alu(rt: &impl Abort, op: Op, rd: u8, rs1: u8, rs2: u8) -> Insn {
    Insn::Alu {
        op,
        rd: register(rt, rd),
        rs1: register(rt, rs1),
        rs2: register(rt, rs2),
    }
}

// lui x5, 0x12345; addi x5, x5, 1656
#[test]
fn constant_of_two_instructions(rt: HostRuntime) -> Result<(), Fail> {
    let insns = [
        Insn::Lui {
            rd: register(&rt, 5),
            upper: 0x1234_5000,
        },
        Insn::AluImm {
            op: Op::Add,
            rd: register(&rt, 5),
            rs1: register(&rt, 5),
            imm: 1656,
        },
    ];
    let parts = [(&[][..], false), (&[Made(0)][..], true)];
    let words = words_of_use(&rt, rt.alloc(), &insns, &parts)?;
    assert!(rt; words == (None, 0x0000_028b, None, None));
    let unit = unit_of_all(&rt, rt.alloc(), &insns, &parts)?;
    assert!(rt; apply(&unit, 1, 2, 3, 4, 5) == (0x1234_5678, 0, 0));
    assert!(rt; unit.cycles() == 2);
    drop(unit);
    Ok(())
}

/// The two sums add RD, FIRST, SECOND; add RD, RD, THIRD, of which the last is live.
fn sums(rt: &impl Abort, rd: u8, first: u8, second: u8, third: u8) -> [Insn; 2] {
    [
        alu(rt, Op::Add, rd, first, second),
        alu(rt, Op::Add, rd, rd, third),
    ]
}

/// The unit of two sums.
pub(crate) fn unit_of_sums(
    rt: &impl Abort,
    alloc: Global,
    rd: u8,
    operands: (u8, u8, u8),
) -> Result<Unit, Fail> {
    let (first, second, third) = operands;
    let earlier = [Entry(first), Entry(second)];
    let later = [Made(0), Entry(third)];
    let parts = [(earlier.as_slice(), false), (later.as_slice(), true)];
    unit_of_all(rt, alloc, &sums(rt, rd, first, second, third), &parts)
}

/// The words for two sums.
fn words_for_sums(
    rt: &impl Abort,
    alloc: Global,
    rd: u8,
    operands: (u8, u8, u8),
) -> Result<Words, Fail> {
    let (first, second, third) = operands;
    let earlier = [Entry(first), Entry(second)];
    let later = [Made(0), Entry(third)];
    let parts = [(earlier.as_slice(), false), (later.as_slice(), true)];
    words_of_use(rt, alloc, &sums(rt, rd, first, second, third), &parts)
}

/// The unit of sub x5, x11, x10; xor x6, x0, x10, of which both results are live.
fn unit_of_both(rt: &impl Abort, alloc: Global) -> Result<Unit, Fail> {
    let insns = [alu(rt, Op::Sub, 5, 11, 10), alu(rt, Op::Xor, 6, 0, 10)];
    let parts = [
        (&[Entry(11), Entry(10)][..], true),
        (&[Entry(10)][..], true),
    ];
    unit_of_all(rt, alloc, &insns, &parts)
}

/// Puts units into an empty table, and asserts their numbers and some of their values.
fn expect_numbers(rt: &impl Abort, alloc: Global, table: &mut UnitTable) -> Result<(), Fail> {
    let unit = unit_of_sums(rt, alloc, 5, (10, 11, 12))?;
    assert!(rt; apply(&unit, 1, 20, 300, 4, 5) == (321, 0, 0));
    assert!(rt; number(rt, table, unit)? == 0);
    let unit = unit_of_both(rt, alloc)?;
    assert!(rt; apply(&unit, 9, 4, 0, 0, 0) == (5, 4, 0));
    assert!(rt; number(rt, table, unit)? == 1);
    let unit = unit_of_sums(rt, alloc, 8, (20, 21, 22))?;
    assert!(rt; number(rt, table, unit)? == 0);
    assert!(rt; table.len() == 2);
    Ok(())
}

#[test]
fn equal_units_share_a_number(rt: HostRuntime) -> Result<(), Fail> {
    let mut table = UnitTable::new(rt.alloc());
    let outcome = expect_numbers(&rt, rt.alloc(), &mut table);
    drop(table);
    outcome
}

/// The unit of one instruction, whose value is live.
fn unit_of_one(
    rt: &impl Abort,
    alloc: Global,
    insn: Insn,
    operands: &[Source],
) -> Result<Unit, Fail> {
    unit_of_all(rt, alloc, &[insn], &[(operands, true)])
}

/// Puts the units of sll x5, x10, x0; slli x5, x10, 0; lui x5, 0; and add x5, x0, x0 into an empty table, and asserts
/// their numbers.
fn expect_classes(rt: &impl Abort, alloc: Global, table: &mut UnitTable) -> Result<(), Fail> {
    let unit = unit_of_one(rt, alloc, alu(rt, Op::Sll, 5, 10, 0), &[Entry(10)])?;
    assert!(rt; number(rt, table, unit)? == 0);
    let by_constant = Insn::AluImm {
        op: Op::Sll,
        rd: register(rt, 5),
        rs1: register(rt, 10),
        imm: 0,
    };
    let unit = unit_of_one(rt, alloc, by_constant, &[Entry(10)])?;
    assert!(rt; number(rt, table, unit)? == 1);
    let zero = Insn::Lui {
        rd: register(rt, 5),
        upper: 0,
    };
    let unit = unit_of_one(rt, alloc, zero, &[])?;
    assert!(rt; number(rt, table, unit)? == 2);
    let unit = unit_of_one(rt, alloc, alu(rt, Op::Add, 5, 0, 0), &[])?;
    assert!(rt; number(rt, table, unit)? == 3);
    Ok(())
}

#[test]
fn units_of_other_classes_are_others(rt: HostRuntime) -> Result<(), Fail> {
    let mut table = UnitTable::new(rt.alloc());
    let outcome = expect_classes(&rt, rt.alloc(), &mut table);
    drop(table);
    outcome
}

#[test]
fn words_of_sums(rt: HostRuntime) -> Result<(), Fail> {
    let alloc = rt.alloc();
    let words = words_for_sums(&rt, alloc, 5, (10, 11, 12))?;
    assert!(rt; words == (None, 0x60b5_028b, None, None));
    let words = words_for_sums(&rt, alloc, 8, (20, 21, 22))?;
    assert!(rt; words == (None, 0xb15a_040b, None, None));
    Ok(())
}

/// The words for xor FIRST, x10, x11; xor SECOND, FIRST, x12; xor SECOND, SECOND, x10; xor SECOND, SECOND, x11, of
/// which both registers are live.
fn words_of_two_outputs(
    rt: &impl Abort,
    alloc: Global,
    first: u8,
    second: u8,
) -> Result<Words, Fail> {
    let insns = [
        alu(rt, Op::Xor, first, 10, 11),
        alu(rt, Op::Xor, second, first, 12),
        alu(rt, Op::Xor, second, second, 10),
        alu(rt, Op::Xor, second, second, 11),
    ];
    let parts = [
        (&[Entry(10), Entry(11)][..], true),
        (&[Made(0), Entry(12)][..], false),
        (&[Made(1), Entry(10)][..], false),
        (&[Made(2), Entry(11)][..], true),
    ];
    words_of_use(rt, alloc, &insns, &parts)
}

#[test]
fn outputs_in_the_order_of_the_block(rt: HostRuntime) -> Result<(), Fail> {
    let words = words_of_two_outputs(&rt, rt.alloc(), 5, 6)?;
    assert!(rt; words == (None, 0x60b5_028b, Some(0x0000_032b), None));
    let words = words_of_two_outputs(&rt, rt.alloc(), 6, 5)?;
    assert!(rt; words == (None, 0x60b5_030b, Some(0x0000_02ab), None));
    Ok(())
}

/// The sums add x5, x10, x11; add x5, x5, x12; add x5, x5, x13; add x5, x5, x14, of which the last is live.
fn five_sums(rt: &impl Abort) -> [Insn; 4] {
    [
        alu(rt, Op::Add, 5, 10, 11),
        alu(rt, Op::Add, 5, 5, 12),
        alu(rt, Op::Add, 5, 5, 13),
        alu(rt, Op::Add, 5, 5, 14),
    ]
}

#[test]
fn five_inputs(rt: HostRuntime) -> Result<(), Fail> {
    let insns = five_sums(&rt);
    let parts = [
        (&[Entry(10), Entry(11)][..], false),
        (&[Made(0), Entry(12)][..], false),
        (&[Made(1), Entry(13)][..], false),
        (&[Made(2), Entry(14)][..], true),
    ];
    let words = words_of_use(&rt, rt.alloc(), &insns, &parts)?;
    assert!(rt; words == (Some(0x00e6_902b), 0x60b5_028b, None, None));
    let unit = unit_of_all(&rt, rt.alloc(), &insns, &parts)?;
    assert!(rt; apply(&unit, 1, 20, 300, 4000, 50000) == (54321, 0, 0));
    drop(unit);
    Ok(())
}

#[test]
fn three_outputs(rt: HostRuntime) -> Result<(), Fail> {
    let insns = [
        alu(&rt, Op::Sub, 5, 11, 10),
        alu(&rt, Op::Xor, 6, 0, 10),
        alu(&rt, Op::Add, 7, 10, 11),
    ];
    let parts = [
        (&[Entry(11), Entry(10)][..], true),
        (&[Entry(10)][..], true),
        (&[Entry(10), Entry(11)][..], true),
    ];
    let words = words_of_use(&rt, rt.alloc(), &insns, &parts)?;
    assert!(rt; words == (None, 0x00a5_828b, Some(0x0000_032b), Some(0x0010_03ab)));
    let unit = unit_of_all(&rt, rt.alloc(), &insns, &parts)?;
    assert!(rt; apply(&unit, 9, 4, 0, 0, 0) == (5, 4, 13));
    drop(unit);
    Ok(())
}
