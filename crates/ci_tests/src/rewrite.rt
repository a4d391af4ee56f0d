//! Folded blocks of a few instructions, by their words.
ghost use Rattle.std.specs.Prelude.{ℕ, ◌<◌, IsTrue};
ghost use Rattle.std.specs.FinSet as set;

use crate::common::{all_registers, insns_of};
use ci_cut::{Limits, fits};
use ci_dfg::{are_bundled, graph};
use ci_isa::encode;
use ci_lat::Table;
use ci_rewrite::fold;
use ci_word::Row;
use std::alloc::Global;
use std::process::Abort;
use std::test::Fail;

/// The set of these numbers, which are below the count.
fn row(rt: &impl Abort, numbers: &[u8], count: usize) -> Row
    ensures { (k : ℕ) → IsTrue (set.contains result k) → k < count }
{
    let mut row = Row::empty();
    for n in numbers {
        assert!(rt; (*n as usize) < count);
        row.insert(*n);
    }
    row
}

/// Folds the cut of these members as unit 0, where these registers are live after the block, and compares the words.
fn check(
    rt: &impl Abort,
    alloc: Global,
    words: &[u32],
    live: Row,
    members: &[u8],
    folded: &[u32],
) -> Result<(), Fail> {
    let block = insns_of(alloc, words)?;
    let insns = block.as_slice();
    assert!(rt; insns.len() <= 256);
    assert!(rt; are_bundled(insns));
    let graph = graph(alloc, insns, live, &Table::usual())?;
    let cut = row(rt, members, insns.len());
    let limits = Limits {
        inputs: 5,
        outputs: 3,
    };
    assert!(rt; fits(&graph, &limits, &cut));
    let new_block = fold(alloc, insns, &graph, &cut, 0)?;
    assert!(rt; new_block.len() == folded.len());
    for (k, insn) in new_block.iter().enumerate() {
        assert!(rt; encode(insn) == folded[k], "word {k}");
    }
    Ok(())
}

// add x5, x10, x11; add x5, x5, x12
#[test]
fn one_output_of_three_inputs(rt: HostRuntime) -> Result<(), Fail> {
    let words = [0x00B5_02B3, 0x00C2_82B3];
    let folded = [0x60B5_028B, 0x0000_0013];
    check(&rt, rt.alloc(), &words, all_registers(), &[0, 1], &folded)
}

// lui x5, 0x12345; addi x5, x5, 1656
#[test]
fn no_input(rt: HostRuntime) -> Result<(), Fail> {
    let words = [0x1234_52B7, 0x6782_8293];
    let folded = [0x0000_028B, 0x0000_0013];
    check(&rt, rt.alloc(), &words, all_registers(), &[0, 1], &folded)
}

// xor x5, x10, x11; xor x6, x5, x12; xor x6, x6, x10; xor x6, x6, x11
#[test]
fn two_outputs_of_three_inputs(rt: HostRuntime) -> Result<(), Fail> {
    let words = [0x00B5_42B3, 0x00C2_C333, 0x00A3_4333, 0x00B3_4333];
    let folded = [0x60B5_028B, 0x0000_032B, 0x0000_0013, 0x0000_0013];
    check(
        &rt,
        rt.alloc(),
        &words,
        all_registers(),
        &[0, 1, 2, 3],
        &folded,
    )
}

// The same with x5 and x6 exchanged: outputs stand in the order of the block, not of their registers.
#[test]
fn outputs_in_the_order_of_the_block(rt: HostRuntime) -> Result<(), Fail> {
    let words = [0x00B5_4333, 0x00C3_42B3, 0x00A2_C2B3, 0x00B2_C2B3];
    let folded = [0x60B5_030B, 0x0000_02AB, 0x0000_0013, 0x0000_0013];
    check(
        &rt,
        rt.alloc(),
        &words,
        all_registers(),
        &[0, 1, 2, 3],
        &folded,
    )
}

// add x5, x10, x11; lw x6, 0(x0); add x10, x5, x12; addi x17, x0, 93; ecall
#[test]
fn the_end_stays_last(rt: HostRuntime) -> Result<(), Fail> {
    let words = [
        0x00B5_02B3,
        0x0000_2303,
        0x00C2_8533,
        0x05D0_0893,
        0x0000_0073,
    ];
    let folded = [
        0x60B5_050B,
        0x0000_0013,
        0x0000_2303,
        0x05D0_0893,
        0x0000_0073,
    ];
    check(&rt, rt.alloc(), &words, Row::empty(), &[0, 2], &folded)
}

// unit 1 (x5 from x10); cread x6; lw x7, 0(x6); add x8, x7, x11; add x8, x8, x12; sw x9, 0(x5)
// The bundle and the load stay before the unit word, the store behind it.
#[test]
fn bundles_and_loads_stay_before(rt: HostRuntime) -> Result<(), Fail> {
    let words = [
        0x0005_128B,
        0x0000_032B,
        0x0003_2383,
        0x00B3_8433,
        0x00C4_0433,
        0x0092_A023,
    ];
    let folded = [
        0x0005_128B,
        0x0000_032B,
        0x0003_2383,
        0x60B3_840B,
        0x0000_0013,
        0x0092_A023,
    ];
    check(&rt, rt.alloc(), &words, all_registers(), &[3, 4], &folded)
}

// xor x5, x10, x11; xor x5, x5, x12; xor x5, x5, x13; xor x5, x5, x14
#[test]
fn one_output_of_five_inputs(rt: HostRuntime) -> Result<(), Fail> {
    let words = [0x00B5_42B3, 0x00C2_C2B3, 0x00D2_C2B3, 0x00E2_C2B3];
    let folded = [0x00E6_902B, 0x60B5_028B, 0x0000_0013, 0x0000_0013];
    check(
        &rt,
        rt.alloc(),
        &words,
        all_registers(),
        &[0, 1, 2, 3],
        &folded,
    )
}

// The last three of them alone have four inputs, of which the second operand that is passed is x0.
#[test]
fn one_output_of_four_inputs(rt: HostRuntime) -> Result<(), Fail> {
    let words = [0x00B5_42B3, 0x00C2_C2B3, 0x00D2_C2B3, 0x00E2_C2B3];
    let folded = [0x00B5_42B3, 0x0007_102B, 0x68C2_828B, 0x0000_0013];
    check(
        &rt,
        rt.alloc(),
        &words,
        all_registers(),
        &[1, 2, 3],
        &folded,
    )
}

// xor x5, x10, x11; xor x6, x5, x12; xor x7, x6, x10; xor x7, x7, x11; xor x7, x7, x12
#[test]
fn three_outputs_of_three_inputs(rt: HostRuntime) -> Result<(), Fail> {
    let words = [
        0x00B5_42B3,
        0x00C2_C333,
        0x00A3_43B3,
        0x00B3_C3B3,
        0x00C3_C3B3,
    ];
    let folded = [
        0x60B5_028B,
        0x0000_032B,
        0x0010_03AB,
        0x0000_0013,
        0x0000_0013,
    ];
    check(
        &rt,
        rt.alloc(),
        &words,
        all_registers(),
        &[0, 1, 2, 3, 4],
        &folded,
    )
}

// xor x5, x10, x11; add x5, x5, x12; sub x6, x13, x14; xor x7, x5, x6
// The words of five inputs and three outputs take all four places.
#[test]
fn three_outputs_of_five_inputs(rt: HostRuntime) -> Result<(), Fail> {
    let words = [0x00B5_42B3, 0x00C2_82B3, 0x40E6_8333, 0x0062_C3B3];
    let folded = [0x00E6_902B, 0x60B5_028B, 0x0000_032B, 0x0010_03AB];
    check(
        &rt,
        rt.alloc(),
        &words,
        all_registers(),
        &[0, 1, 2, 3],
        &folded,
    )
}

// cput x13, x14; unit 1 (x5 from x10); cread x6; cread x7, 1; lw x9, 0(x7); add x8, x9, x5; add x8, x8, x6;
// sw x9, 0(x5)
// The bundle and the load stay before the unit word, the store behind it.
#[test]
fn bundles_of_four_words_stay_before(rt: HostRuntime) -> Result<(), Fail> {
    let words = [
        0x00E6_902B,
        0x0005_128B,
        0x0000_032B,
        0x0010_03AB,
        0x0003_A483,
        0x0054_8433,
        0x0064_0433,
        0x0092_A023,
    ];
    let folded = [
        0x00E6_902B,
        0x0005_128B,
        0x0000_032B,
        0x0010_03AB,
        0x0003_A483,
        0x3054_840B,
        0x0000_0013,
        0x0092_A023,
    ];
    check(&rt, rt.alloc(), &words, all_registers(), &[5, 6], &folded)
}

// add x5, x10, x11; cput x13, x14; unit 1 (x6 from x10); cread x7; cread x8, 1; add x5, x5, x12
// The bundle stands behind the unit word, as it was.
#[test]
fn bundles_of_four_words_stand_behind(rt: HostRuntime) -> Result<(), Fail> {
    let words = [
        0x00B5_02B3,
        0x00E6_902B,
        0x0005_130B,
        0x0000_03AB,
        0x0010_042B,
        0x00C2_82B3,
    ];
    let folded = [
        0x60B5_028B,
        0x0000_0013,
        0x00E6_902B,
        0x0005_130B,
        0x0000_03AB,
        0x0010_042B,
    ];
    check(&rt, rt.alloc(), &words, all_registers(), &[0, 5], &folded)
}
