//! Files, their leaders and their blocks.
ghost use Rattle.std.specs.Prelude.{◌+◌, ◌<◌, length};

use crate::common::{calls, changed, image_of, table};
use ci_block::{Blocks, CustomWord, Next, first_custom_word, leaders, split};
use ci_elf::Image;
use std::alloc::{AllocError, Global};
use std::process::Abort;
use std::test::Fail;

/// `addi x0, x0, 0`.
const NOP: u32 = 0x13;

/// A jump over the next word, to the multiple of four behind it.
const JUMP_OVER: u32 = 0x0080_006f;

// Images and blocks are let go by calls of `drop` before an error is passed on, which a proof does not look into.

/// Asserts what the leaders of a file are.
fn expect_leaders(
    rt: &impl Abort,
    alloc: Global,
    image: &Image,
    targets: &[u32],
    given: &[u32],
    wanted: &[u32],
) -> Result<(), Fail> {
    let leaders = leaders(alloc, image, targets, given)?;
    assert!(rt; leaders.all() == wanted, "{wanted:?}");
    Ok(())
}

/// Asserts what the leaders of the smallest file with this text, one constant and these values are, with other words
/// at some offsets.
fn expect_leaders_of_changed(
    rt: &impl Abort,
    alloc: Global,
    text: &[u32],
    constant: u32,
    values: &[u32],
    edits: &[(usize, u32)],
    wanted: &[u32],
) -> Result<(), Fail> {
    let image = changed(rt, alloc, text, &[constant], values, edits)?;
    let outcome = expect_leaders(rt, alloc, &image, &[], &[], wanted);
    drop(image);
    outcome
}

/// Asserts what the leaders of the smallest file with this text and these values are.
fn expect_leaders_of(
    rt: &impl Abort,
    alloc: Global,
    text: &[u32],
    values: &[u32],
    wanted: &[u32],
) -> Result<(), Fail> {
    expect_leaders_of_changed(rt, alloc, text, 1000, values, &[], wanted)
}

/// The same of a text of so many words that do nothing.
fn expect_leaders_of_nops(
    rt: &impl Abort,
    alloc: Global,
    count: usize,
    given: &[u32],
    wanted: &[u32],
) -> Result<(), Fail> {
    let text = vec![in alloc; NOP; count]?;
    let image = image_of(rt, alloc, text.as_slice(), &[])?;
    let outcome = expect_leaders(rt, alloc, &image, &[], given, wanted);
    drop(image);
    outcome
}

/// The blocks of a file.
fn blocks_in(alloc: Global, image: &Image) -> Result<Blocks, AllocError> {
    let leaders = leaders(alloc, image, &[], &[])?;
    split(alloc, image, &leaders)
}

/// How many blocks a file has.
fn count_of_blocks(alloc: Global, image: &Image) -> Result<usize, AllocError> {
    let blocks = blocks_in(alloc, image)?;
    let count = blocks.all().len();
    drop(blocks);
    Ok(count)
}

/// Asserts how many instructions each of some blocks has.
fn expect_lengths(
    rt: &impl Abort,
    alloc: Global,
    blocks: &Blocks,
    wanted: &[usize],
) -> Result<(), AllocError> {
    let mut lengths = Vec::new(alloc);
    for block in blocks.all() {
        lengths.push(block.insns.len())?;
    }
    assert!(rt; lengths.as_slice() == wanted);
    Ok(())
}

/// Asserts what the successors of some blocks are.
fn expect_nexts(
    rt: &impl Abort,
    alloc: Global,
    blocks: &Blocks,
    wanted: &[Next],
) -> Result<(), AllocError> {
    let mut nexts = Vec::new(alloc);
    for block in blocks.all() {
        nexts.push(block.next)?;
    }
    assert!(rt; nexts.as_slice() == wanted, "{wanted:?}");
    Ok(())
}

/// Asserts what the successors of the blocks of the smallest file with this text are.
fn expect_nexts_of(
    rt: &impl Abort,
    alloc: Global,
    text: &[u32],
    wanted: &[Next],
) -> Result<(), Fail> {
    let image = image_of(rt, alloc, text, &[])?;
    let blocks = blocks_in(alloc, &image);
    drop(image);
    let blocks = blocks?;
    let outcome = expect_nexts(rt, alloc, &blocks, wanted);
    drop(blocks);
    outcome?;
    Ok(())
}

// A long table is the answer of a function, so that the proof of a test doesn't look at it.

/// The leaders of the program that calls functions by a table.
fn leaders_of_functions() -> &'static [u32] {
    &[
        0x10074, 0x10080, 0x1008c, 0x1009c, 0x100b8, 0x100c4, 0x100d4,
    ]
}

/// What follows its blocks.
fn nexts_of_functions() -> &'static [Next] {
    &[
        Next::One(0x10080),
        Next::Any,
        Next::Two(0x10080, 0x1009c),
        Next::One(0x100b8),
        Next::One(0x100c4),
        Next::Any,
        Next::Any,
    ]
}

#[test]
fn blocks_of_a_table_of_functions(rt: HostRuntime) -> Result<(), Fail> {
    let alloc = rt.alloc();
    let image = image_of(&rt, alloc, calls(), table())?;
    let leaders = expect_leaders(&rt, alloc, &image, &[], &[], leaders_of_functions());
    let blocks = blocks_in(alloc, &image);
    drop(image);
    leaders?;
    let blocks = blocks?;
    let lengths = expect_lengths(&rt, alloc, &blocks, &[3, 3, 4, 7, 3, 4, 6]);
    let nexts = expect_nexts(&rt, alloc, &blocks, nexts_of_functions());
    drop(blocks);
    lengths?;
    nexts?;
    Ok(())
}

/// Asserts what the leaders of a text of four words that do nothing are, with targets of jumps and given addresses.
fn expect_leaders_beside(
    rt: &impl Abort,
    alloc: Global,
    targets: &[u32],
    given: &[u32],
    wanted: &[u32],
) -> Result<(), Fail> {
    let image = image_of(rt, alloc, &[NOP; 4], &[])?;
    let outcome = expect_leaders(rt, alloc, &image, targets, given, wanted);
    drop(image);
    outcome
}

#[test]
fn addresses_from_outside_count_where_they_are_words_of_the_text(
    rt: HostRuntime,
) -> Result<(), Fail> {
    let alloc = rt.alloc();
    expect_leaders_beside(&rt, alloc, &[], &[], &[0x10074])?;
    let targets = [0x10080, 0x1007a, 0x10084];
    expect_leaders_beside(&rt, alloc, &targets, &[], &[0x10074, 0x10080])?;
    let given = [0x10070, 0x1007c, 0x1007d, u32::MAX];
    expect_leaders_beside(&rt, alloc, &[], &given, &[0x10074, 0x1007c])
}

/// Asserts what the leaders of a file of two ranges are, and how many blocks it has: the constant, which is a no-op, is
/// text too.
fn expect_two_ranges(
    rt: &impl Abort,
    alloc: Global,
    edits: &[(usize, u32)],
    wanted: &[u32],
    blocks: usize,
) -> Result<(), Fail> {
    let image = changed(rt, alloc, &[NOP; 4], &[NOP], &[], edits)?;
    assert!(rt; image.ranges().len() == 2);
    let leaders = expect_leaders(rt, alloc, &image, &[], &[], wanted);
    let count = count_of_blocks(alloc, &image);
    drop(image);
    leaders?;
    assert!(rt; count? == blocks);
    Ok(())
}

#[test]
fn a_range_behind_another_begins_a_block(rt: HostRuntime) -> Result<(), Fail> {
    let alloc = rt.alloc();
    // The flags of section 2 stand 88 bytes behind the table's start.
    let meeting = [(116 + 20 + 88, 6)];
    expect_two_ranges(&rt, alloc, &meeting, &[0x10074, 0x10084], 2)?;
    // The first range is a word shorter: its size stands 60 bytes behind the table's start.
    let apart = [(116 + 20 + 88, 6), (116 + 20 + 60, 12)];
    expect_two_ranges(&rt, alloc, &apart, &[0x10074], 1)?;
    Ok(())
}

#[test]
fn symbols_make_leaders(rt: HostRuntime) -> Result<(), Fail> {
    let alloc = rt.alloc();
    // The values, which no segment loads, are a symbol table: type and size of an entry of section 3.
    let symbols = [0, 0x10078, 0, 0, 0, 0x1007e, 0, 0, 0, 0x10084, 0, 0];
    let entries = [(84, 0), (116 + 68 + 124, 2), (116 + 68 + 156, 16)];
    let image = changed(&rt, alloc, &[NOP; 4], &[1000], &symbols, &entries)?;
    assert!(rt; image.symbols().len() == 3);
    let outcome = expect_leaders(&rt, alloc, &image, &[], &[], &[0x10074, 0x10078]);
    drop(image);
    outcome
}

#[test]
fn jumps_and_terminators_make_leaders(rt: HostRuntime) -> Result<(), Fail> {
    let alloc = rt.alloc();
    let jump = [JUMP_OVER, NOP, NOP, NOP];
    expect_leaders_of(&rt, alloc, &jump, &[], &[0x10074, 0x10078, 0x1007c])?;
    // `beq x0, x0, 2`, whose target is no multiple of four.
    let branch = [0x0000_0163, NOP, NOP];
    expect_leaders_of(&rt, alloc, &branch, &[], &[0x10074, 0x10078])?;
    // FENCE, and the word of a unit.
    let others = [NOP, 0x0000_000f, NOP, 0x0000_000b, NOP];
    expect_leaders_of(&rt, alloc, &others, &[], &[0x10074, 0x1007c, 0x10084])?;
    Ok(())
}

#[test]
fn data_words_make_leaders(rt: HostRuntime) -> Result<(), Fail> {
    let alloc = rt.alloc();
    let text = [NOP, NOP, NOP, NOP];
    let values = [0x1007c, 0x10079];
    expect_leaders_of(&rt, alloc, &text, &values, &[0x10074, 0x1007c])?;
    // The word of the text that has an address as its value is no instruction.
    let text_word = [NOP, 0x10080, NOP, NOP];
    expect_leaders_of(&rt, alloc, &text_word, &[], &[0x10074, 0x1007c])?;
    // The values begin at 20002, or three of their bytes are in the file.
    expect_leaders_of_changed(
        &rt,
        alloc,
        &text,
        1000,
        &[0x1007c, 0],
        &[(92, 0x20002)],
        &[0x10074],
    )?;
    expect_leaders_of_changed(&rt, alloc, &text, 1000, &[0x1007c], &[(100, 3)], &[0x10074])?;
    // The last two bytes of the constant, at 10084, belong to the second segment.
    let parts = [(68, 134), (72, 134), (88, 134), (92, 0x10086)];
    expect_leaders_of_changed(
        &rt,
        alloc,
        &text,
        0x1007c,
        &[0],
        &parts,
        &[0x10074, 0x1007c],
    )?;
    Ok(())
}

#[test]
fn a_block_has_256_instructions_at_most(rt: HostRuntime) -> Result<(), Fail> {
    let alloc = rt.alloc();
    expect_leaders_of_nops(&rt, alloc, 256, &[], &[0x10074])?;
    expect_leaders_of_nops(&rt, alloc, 257, &[], &[0x10074, 0x10474])?;
    expect_leaders_of_nops(
        &rt,
        alloc,
        520,
        &[0x10078],
        &[0x10074, 0x10078, 0x10478, 0x10878],
    )?;
    Ok(())
}

/// Texts, and what follows each of their blocks: a successor counts where it is a word of the text.
fn nexts_of_texts() -> &'static [(&'static [u32], &'static [Next])] {
    &[
        (&[NOP], &[Next::Stop]),
        (&[0x0010_0073, NOP], &[Next::Stop, Next::Stop]),
        (&[0x0000_0073, NOP], &[Next::One(0x10078), Next::Stop]),
        (&[JUMP_OVER, NOP], &[Next::Stop, Next::Stop]),
        // `beq x0, x0, 4` and `beq x0, x0, 2`.
        (&[0x0000_0263, NOP], &[Next::One(0x10078), Next::Stop]),
        (&[0x0000_0163, NOP], &[Next::One(0x10078), Next::Stop]),
    ]
}

#[test]
fn blocks_have_these_successors(rt: HostRuntime) -> Result<(), Fail> {
    for (text, wanted) in nexts_of_texts() {
        expect_nexts_of(&rt, rt.alloc(), text, wanted)?;
    }
    Ok(())
}

/// Asserts what the first custom word of a text is.
fn expect_custom(
    rt: &impl Abort,
    alloc: Global,
    text: &[u32],
    due: Option<CustomWord>,
) -> Result<(), Fail> {
    let image = image_of(rt, alloc, text, &[])?;
    assert!(rt; first_custom_word(&image) == due);
    drop(image);
    Ok(())
}

#[test]
fn the_first_word_of_a_custom_opcode(rt: HostRuntime) -> Result<(), Fail> {
    let alloc = rt.alloc();
    expect_custom(&rt, alloc, &[NOP; 2], None)?;
    // The opcodes custom-2/rv128 and custom-3/rv128 of the same table.
    expect_custom(&rt, alloc, &[0x0000_005b, 0x0000_007b], None)?;
    let first = CustomWord {
        address: 0x10078,
        word: 0x8000_102b,
    };
    expect_custom(&rt, alloc, &[NOP, 0x8000_102b, 0x0000_000b], Some(first))
}
