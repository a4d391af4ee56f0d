//! Live sets of small programs.
ghost use Rattle.std.specs.Prelude.{◌≡◌};

use crate::common::{calls, image_of, table};
use ci_block::{leaders, split};
use ci_elf::Image;
use ci_live::{Analysis, LiveSets, analysis_of, live};
use ci_word::Row;
use std::alloc::{AllocError, Global};
use std::process::Abort;
use std::test::Fail;

/// The registers that are live at each leader.
fn rows_at(alloc: Global, leaders: &[u32], sets: &LiveSets) -> Result<Vec<Row>, AllocError>
    requires { sets.now.leaders ≡ leaders.now }
{
    let mut rows = Vec::new(alloc);
    for leader in leaders {
        rows.push(sets.at(*leader))?;
    }
    Ok(rows)
}

/// The registers that are live after each block.
fn rows_after(alloc: Global, leaders: &[u32], sets: &LiveSets) -> Result<Vec<Row>, AllocError>
    requires { sets.now.leaders ≡ leaders.now }
{
    let mut rows = Vec::new(alloc);
    for leader in leaders {
        rows.push(sets.after(*leader))?;
    }
    Ok(rows)
}

/// The live sets at these leaders, and after their blocks.
fn rows_by(
    alloc: Global,
    leaders: &[u32],
    sets: &LiveSets,
) -> Result<(Vec<Row>, Vec<Row>), AllocError>
    requires { sets.now.leaders ≡ leaders.now }
{
    let at = rows_at(alloc, leaders, sets)?;
    let after = rows_after(alloc, leaders, sets)?;
    Ok((at, after))
}

// Images, blocks and sets are let go by a call of `drop` before an error is passed on, so that a proof looks into none
// of them.

/// The live sets at the leaders of a file, and after its blocks.
fn rows_of(alloc: Global, image: &Image) -> Result<(Vec<Row>, Vec<Row>), AllocError> {
    let leaders = leaders(alloc, image, &[], &[])?;
    let blocks = split(alloc, image, &leaders)?;
    let sets = live(alloc, &blocks);
    drop(blocks);
    let sets = sets?;
    let rows = rows_by(alloc, leaders.all(), &sets);
    drop(sets);
    rows
}

/// The live sets at the leaders of a program, and after its blocks.
fn live_rows(
    rt: &impl Abort,
    alloc: Global,
    text: &[u32],
    values: &[u32],
) -> Result<(Vec<Row>, Vec<Row>), Fail> {
    let image = image_of(rt, alloc, text, values)?;
    let rows = rows_of(alloc, &image);
    drop(image);
    Ok(rows?)
}

/// Asserts what each row has.
fn expect_rows(rt: &impl Abort, rows: &[Row], wanted: &[&[u8]]) {
    assert!(rt; rows.len() == wanted.len());
    for (number, (row, registers)) in rows.iter().zip(wanted).enumerate() {
        assert!(rt; (row.count() as usize) == registers.len(), "row {number}");
        for register in *registers {
            assert!(rt; row.has(*register), "row {number}: x{register}");
        }
    }
}

#[test]
fn a_table_of_functions(rt: HostRuntime) -> Result<(), Fail> {
    let (at, _after) = live_rows(&rt, rt.alloc(), calls(), table())?;
    let wanted: &[&[u8]] = &[
        &[11, 12],
        &[8, 9, 11, 12, 18],
        &[1, 8, 9, 10, 11, 12],
        &[1, 8, 9, 18],
        &[1, 8, 9, 11, 12, 18],
        &[1, 8, 9, 10, 11, 12, 18],
        &[1, 8, 9, 10, 11, 12, 18],
    ];
    expect_rows(&rt, at.as_slice(), wanted);
    Ok(())
}

/// Each block leads to the one before it: `add x5, x6, x7` and `ebreak`, `addi x6, x0, 1`, `addi x6, x6, 1`.
#[test]
fn a_chain_against_the_order(rt: HostRuntime) -> Result<(), Fail> {
    let text = [
        0x0140006f, 0x007302b3, 0x00100073, 0x00100313, 0xff5ff06f, 0x00130313, 0xff5ff06f,
    ];
    let (at, after) = live_rows(&rt, rt.alloc(), &text, &[])?;
    expect_rows(&rt, at.as_slice(), &[&[6, 7], &[6, 7], &[7], &[6, 7]]);
    expect_rows(&rt, after.as_slice(), &[&[6, 7], &[], &[6, 7], &[7]]);
    Ok(())
}

/// `jalr x0, 0(x1)` leads to itself and to `add x5, x6, x7` with `jalr x0, 0(x5)`.
#[test]
fn jumps_to_any_leader(rt: HostRuntime) -> Result<(), Fail> {
    let (at, after) = live_rows(&rt, rt.alloc(), &[0x00008067, 0x007302b3, 0x00028067], &[])?;
    let all: &[&[u8]] = &[&[1, 6, 7], &[1, 6, 7]];
    expect_rows(&rt, at.as_slice(), all);
    expect_rows(&rt, after.as_slice(), all);
    Ok(())
}

/// The leaders of an analysis.
fn leaders_in(alloc: Global, analysis: &Analysis) -> Result<Vec<u32>, AllocError> {
    let mut leaders = Vec::new(alloc);
    for block in analysis.blocks.all() {
        leaders.push(block.leader)?;
    }
    Ok(leaders)
}

/// Asserts what the leaders of the analysis of four words that do nothing are.
fn expect_leaders(
    rt: &impl Abort,
    alloc: Global,
    targets: &[u32],
    named: &[u32],
    wanted: &[u32],
) -> Result<(), Fail> {
    let image = image_of(rt, alloc, &[0x0000_0013; 4], &[])?;
    let analysis = analysis_of(alloc, &image, targets, named);
    drop(image);
    let analysis = analysis?;
    let leaders = leaders_in(alloc, &analysis);
    drop(analysis);
    assert!(rt; leaders?.as_slice() == wanted);
    Ok(())
}

// What JALR jumps to and what the user names begin blocks.
#[test]
fn blocks_of_an_analysis(rt: HostRuntime) -> Result<(), Fail> {
    let alloc = rt.alloc();
    expect_leaders(&rt, alloc, &[], &[], &[0x10074])?;
    expect_leaders(&rt, alloc, &[0x10078], &[], &[0x10074, 0x10078])?;
    expect_leaders(&rt, alloc, &[], &[0x1007c], &[0x10074, 0x1007c])?;
    let all = [0x10074, 0x10078, 0x1007c];
    expect_leaders(&rt, alloc, &[0x10078], &[0x1007c], &all)
}
