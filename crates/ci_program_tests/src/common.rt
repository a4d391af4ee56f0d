//! What several modules of tests share: the smallest files with some text, a program, and the counts of runs.
ghost use Rattle.std.specs.Prelude.{◌+◌, ◌<◌};

use byteorder::{ByteOrder, LittleEndian};
use ci_elf::{Image, frame, read};
use ci_emu::{End, Profile};
use ci_machine::State;
use std::alloc::{AllocError, Global};
use std::process::Abort;
use std::test::Fail;

/// Writes words into a file, each at its offset.
pub(crate) fn change(rt: &impl Abort, bytes: &mut [u8], edits: &[(usize, u32)]) {
    for (offset, word) in edits {
        assert!(rt; *offset <= 100_000);
        assert!(rt; *offset + 4 <= bytes.len());
        LittleEndian::write_u32(&mut bytes[*offset..], *word);
    }
}

/// The smallest file with this text, these constants and these values.
pub(crate) fn file_of(
    rt: &impl Abort,
    alloc: Global,
    text: &[u32],
    constants: &[u32],
    values: &[u32],
) -> Result<Vec<u8>, AllocError> {
    assert!(rt; !text.is_empty());
    assert!(rt; text.len() <= 16000);
    assert!(rt; constants.len() <= 1);
    assert!(rt; values.len() <= 1000);
    frame(alloc, text, constants, values)
}

/// The image of the smallest file with this text, these constants and these values, with other words at some offsets.
pub(crate) fn changed(
    rt: &impl Abort,
    alloc: Global,
    text: &[u32],
    constants: &[u32],
    values: &[u32],
    edits: &[(usize, u32)],
) -> Result<Image, Fail> {
    let mut bytes = file_of(rt, alloc, text, constants, values)?;
    change(rt, &mut bytes, edits);
    assert!(rt; bytes.len() <= 268_435_456);
    Ok(read(alloc, &bytes)?)
}

/// The image of the smallest file with this text, one constant and these values.
pub(crate) fn image_of(
    rt: &impl Abort,
    alloc: Global,
    text: &[u32],
    values: &[u32],
) -> Result<Image, Fail> {
    changed(rt, alloc, text, &[1000], values, &[])
}

// Images are let go by calls of `drop`, which a proof does not look into.

/// The opening state of a program of these words on an input, with these constants behind its text and these values.
pub(crate) fn opening(
    rt: &impl Abort,
    alloc: Global,
    text: &[u32],
    constants: &[u32],
    values: &[u32],
    input: &[u8],
) -> Result<State, Fail> {
    let image = changed(rt, alloc, text, constants, values, &[])?;
    let state = State::start(alloc, &image, input);
    drop(image);
    Ok(state?)
}

// Long tables are the answers of functions, so that the proof of a test looks at none of them.

/// Calls one of two functions on each of four numbers, through a table of their addresses, writes the last result and
/// exits. The functions begin at 100c4 and 100d4.
pub(crate) fn calls() -> &'static [u32] {
    &[
        0x00020437, 0x00400493, 0x00000913, 0x00042283, 0x00090513, 0x000280e7, 0x00050913,
        0x00440413, 0xfff48493, 0xfe0494e3, 0x000205b7, 0x0125a823, 0x01058593, 0x00100513,
        0x00400613, 0x04000893, 0x00000073, 0x00000513, 0x05d00893, 0x00000073, 0x00351313,
        0x00a34333, 0x00530513, 0x00008067, 0x000103b7, 0x0ec3a383, 0x00750533, 0x00155313,
        0x00654533, 0x00008067,
    ]
}

/// The values of that program: the table of addresses, and the place of the result.
pub(crate) fn table() -> &'static [u32] {
    &[0x100c4, 0x100d4, 0x100c4, 0x100d4, 0]
}

// What is compared is the answer of a function, which costs a proof less than an assertion does.

/// Whether a run had this end, and these counts.
fn has_counts(profile: &Profile, end: Option<End>, steps: u64, cost: u64) -> bool {
    profile.end == end && profile.steps == steps && profile.cost == cost
}

/// Fails where the run had another end, or other counts.
pub(crate) fn expect_counts(
    rt: &impl Abort,
    profile: &Profile,
    end: Option<End>,
    steps: u64,
    cost: u64,
) {
    assert!(rt; has_counts(profile, end, steps, cost));
}
