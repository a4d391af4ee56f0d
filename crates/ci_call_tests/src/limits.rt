//! Calls over files of one byte less than their limit, of as many bytes as it, and of one more.
use crate::common::{BREAK_AS_F, Step, files_of, words};
use ci_find::run;
use ci_io::{SureShelf, SureSink};
use std::alloc::{AllocError, Global};
use std::collections::BTreeMap;
use std::mem::replace;
use std::process::Abort;

/// A break alone as `F`, an empty table and input, and the files of its choice: as it changes nothing, the new file is
/// a break alone too, there are no units, and the log book has one block and no cut.
fn files_of_break() -> &'static [Step] {
    &[
        BREAK_AS_F,
        Step::File("T", b""),
        Step::File("I", b""),
        Step::Executable("N", &[0x00100073], &[], &[]),
        Step::File("U", b""),
        Step::File("L", b"ci-log 1\nblock 00010074 none\nG\nend none\n"),
    ]
}

/// What is done in turn.
#[derive(Clone, Copy)]
enum Row {
    /// A shelf with the files of the break, of which that of a name is so many newlines.
    Newlines(&'static str, usize),
    /// A call of the program, its status and the bytes that it puts. One that is refused makes no file.
    Call(&'static str, u8, &'static [u8]),
    /// What `dis` puts of so many words, of which each is four newlines.
    Listing(usize),
}

/// So many newlines. They are appended many at a time, since one at a time takes seconds in an unoptimized build.
fn newlines(alloc: Global, length: usize) -> Result<Vec<u8>, AllocError> {
    let some = vec![in alloc; b'\n'; 4096]?;
    let mut bytes = Vec::with_capacity(alloc, length)?;
    for _ in 0..length / 4096 {
        bytes.extend_from_slice(some.as_slice())?;
    }
    drop(some);
    bytes.resize(length, b'\n')?;
    Ok(bytes)
}

/// The shelf of the files of the break, of which that of a name is so many newlines.
fn shelf_of(
    rt: &(impl Abort + AllocGlobal),
    name: &str,
    length: usize,
) -> Result<SureShelf, AllocError> {
    let alloc = rt.alloc();
    let mut files = files_of(rt, files_of_break())?;
    files.insert(String::from_str(alloc, name)?, newlines(alloc, length)?)?;
    Ok(SureShelf::new(files))
}

/// Calls the program over the shelf, and asserts its status and the bytes that it puts, and of a call that is refused
/// that it made no file.
fn expect_answer(
    rt: &(impl Abort + AllocGlobal),
    shelf: &mut SureShelf,
    text: &str,
    status: u8,
    put: &[u8],
) -> Result<(), AllocError> {
    let alloc = rt.alloc();
    let count = shelf.files().len();
    let words = words(alloc, text)?;
    let mut out = SureSink::new(alloc);
    let answer = run(alloc, &words, shelf, &mut out);
    drop(words);
    assert!(rt; answer == status, "the status of {text}");
    assert!(rt; out.taken() == put, "what {text} put");
    drop(out);
    assert!(rt;
        status == 0 || shelf.files().len() == count,
        "the files after {text}"
    );
    Ok(())
}

/// What `dis` puts of so many words, of which each is four newlines.
fn listing(alloc: Global, count: usize) -> Result<Vec<u8>, AllocError> {
    let mut listing = Vec::new(alloc);
    for _ in 0..count {
        listing.extend_from_slice(b"0a0a0a0a .word 0x0a0a0a0a\n")?;
    }
    Ok(listing)
}

/// Does what a row says.
fn take(
    rt: &(impl Abort + AllocGlobal),
    shelf: &mut SureShelf,
    row: &Row,
) -> Result<(), AllocError> {
    match *row {
        Row::Newlines(name, length) => drop(replace(shelf, shelf_of(rt, name, length)?)),
        Row::Call(text, status, put) => expect_answer(rt, shelf, text, status, put)?,
        Row::Listing(count) => {
            let listing = listing(rt.alloc(), count)?;
            let outcome = expect_answer(rt, shelf, "dis F", 0, listing.as_slice());
            drop(listing);
            outcome?;
        }
    }
    Ok(())
}

/// Does what these rows say, one after the other.
fn take_all(
    rt: &(impl Abort + AllocGlobal),
    shelf: &mut SureShelf,
    rows: &[Row],
) -> Result<(), AllocError> {
    for row in rows {
        take(rt, shelf, row)?;
    }
    Ok(())
}

/// The same from a shelf with no files on.
fn expect(rt: &(impl Abort + AllocGlobal), rows: &[Row]) -> Result<(), AllocError> {
    let mut shelf = SureShelf::new(BTreeMap::new(rt.alloc()));
    let outcome = take_all(rt, &mut shelf, rows);
    drop(shelf);
    outcome
}

/// Executables whose blocks are looked at. Newlines are none.
fn executables_with_blocks() -> &'static [Row] {
    &[
        Row::Newlines("F", 16_777_215),
        Row::Call("best F --at 0x10074", 5, b"fault 5 elf 2 0 0\n"),
        Row::Call("pair F --at 0x10074", 5, b"fault 5 elf 2 0 0\n"),
        Row::Call("blocks F", 5, b"fault 5 elf 2 0 0\n"),
        Row::Newlines("F", 16_777_216),
        Row::Call("best F --at 0x10074", 5, b"fault 5 elf 2 0 0\n"),
        Row::Call("pair F --at 0x10074", 5, b"fault 5 elf 2 0 0\n"),
        Row::Call("blocks F", 5, b"fault 5 elf 2 0 0\n"),
        Row::Newlines("F", 16_777_217),
        Row::Call("best F --at 0x10074", 4, b"fault 4 too large F\n"),
        Row::Call("pair F --at 0x10074", 4, b"fault 4 too large F\n"),
        Row::Call("blocks F", 4, b"fault 4 too large F\n"),
    ]
}

/// Executables that are run, or checked.
fn executables_to_run() -> &'static [Row] {
    &[
        Row::Newlines("F", 16_777_215),
        Row::Call("run F", 5, b"fault 5 elf 2 0 0\n"),
        Row::Call("find F N U L R", 5, b"fault 5 elf 2 0 0\n"),
        Row::Call("check F N U L", 5, b"fault 5 elf 2 0 0\n"),
        Row::Newlines("F", 16_777_216),
        Row::Call("run F", 5, b"fault 5 elf 2 0 0\n"),
        Row::Call("find F N U L R", 5, b"fault 5 elf 2 0 0\n"),
        Row::Call("check F N U L", 5, b"fault 5 elf 2 0 0\n"),
        Row::Newlines("F", 16_777_217),
        Row::Call("run F", 4, b"fault 4 too large F\n"),
        Row::Call("find F N U L R", 4, b"fault 4 too large F\n"),
        Row::Call("check F N U L", 4, b"fault 4 too large F\n"),
    ]
}

/// The new file of `check`, and inputs.
fn new_files_and_inputs() -> &'static [Row] {
    &[
        // The new file may hold any bytes, but newlines are another than that of the choice.
        Row::Newlines("N", 16_777_215),
        Row::Call("check F N U L", 11, b"fault 11 rejected 0 00000000 0 12\n"),
        Row::Newlines("N", 16_777_216),
        Row::Call("check F N U L", 11, b"fault 11 rejected 0 00000000 0 12\n"),
        Row::Newlines("N", 16_777_217),
        Row::Call("check F N U L", 4, b"fault 4 too large N\n"),
        // A break alone reads no input.
        Row::Newlines("I", 16_777_215),
        Row::Call("run F --input I", 0, b"end break steps 1 cost 1\n"),
        Row::Call("check F N U L --input I", 0, b"accepted\n"),
        Row::Call(
            "find F N U L R --input I",
            0,
            b"cuts 0 units 0 skipped 0 gain 0\n",
        ),
        Row::Newlines("I", 16_777_216),
        Row::Call("run F --input I", 0, b"end break steps 1 cost 1\n"),
        Row::Call("check F N U L --input I", 0, b"accepted\n"),
        Row::Call(
            "find F N U L R --input I",
            0,
            b"cuts 0 units 0 skipped 0 gain 0\n",
        ),
        Row::Newlines("I", 16_777_217),
        Row::Call("run F --input I", 4, b"fault 4 too large I\n"),
        Row::Call("check F N U L --input I", 4, b"fault 4 too large I\n"),
        Row::Call("find F N U L R --input I", 4, b"fault 4 too large I\n"),
    ]
}

/// Tables and blocks.
fn tables_and_blocks() -> &'static [Row] {
    &[
        // Newlines are a table that changes nothing.
        Row::Newlines("T", 65_535),
        Row::Call("best F --at 0x10074 --table T", 0, b"no cut\n"),
        Row::Call("pair F --at 0x10074 --table T", 0, b"no pair\n"),
        Row::Call("run F --table T", 0, b"end break steps 1 cost 1\n"),
        Row::Call("check F N U L --table T", 0, b"accepted\n"),
        Row::Call(
            "find F N U L R --table T",
            0,
            b"cuts 0 units 0 skipped 0 gain 0\n",
        ),
        Row::Newlines("T", 65_536),
        Row::Call("best F --at 0x10074 --table T", 0, b"no cut\n"),
        Row::Call("pair F --at 0x10074 --table T", 0, b"no pair\n"),
        Row::Call("run F --table T", 0, b"end break steps 1 cost 1\n"),
        Row::Call("check F N U L --table T", 0, b"accepted\n"),
        Row::Call(
            "find F N U L R --table T",
            0,
            b"cuts 0 units 0 skipped 0 gain 0\n",
        ),
        Row::Newlines("T", 65_537),
        Row::Call("best F --at 0x10074 --table T", 4, b"fault 4 too large T\n"),
        Row::Call("pair F --at 0x10074 --table T", 4, b"fault 4 too large T\n"),
        Row::Call("run F --table T", 4, b"fault 4 too large T\n"),
        Row::Call("check F N U L --table T", 4, b"fault 4 too large T\n"),
        Row::Call("find F N U L R --table T", 4, b"fault 4 too large T\n"),
        // Newlines are no block: their number isn't a multiple of four, or a word that is no instruction isn't the
        // last.
        Row::Newlines("F", 1_023),
        Row::Call("best F", 7, b"fault 7 unsupported 000003ff 00000000\n"),
        Row::Newlines("F", 1_024),
        Row::Call("best F", 7, b"fault 7 unsupported 00000000 0a0a0a0a\n"),
        Row::Call("pair F", 7, b"fault 7 unsupported 00000000 0a0a0a0a\n"),
        Row::Newlines("F", 1_025),
        Row::Call("best F", 4, b"fault 4 too large F\n"),
        Row::Call("pair F", 4, b"fault 4 too large F\n"),
    ]
}

/// Units. Newlines spell none.
fn units() -> &'static [Row] {
    &[
        Row::Newlines("U", 4_194_303),
        Row::Call(
            "eval U 0 0x0 0x0 0x0",
            7,
            b"fault 7 unsupported 00000000 00000000\n",
        ),
        Row::Call("run F --units U", 0, b"end break steps 1 cost 1\n"),
        Row::Call("check F N U L", 0, b"accepted\n"),
        Row::Call("gates U OUT", 0, b"modules 0 gates 0\n"),
        Row::Newlines("U", 4_194_304),
        Row::Call(
            "eval U 0 0x0 0x0 0x0",
            7,
            b"fault 7 unsupported 00000000 00000000\n",
        ),
        Row::Call("run F --units U", 0, b"end break steps 1 cost 1\n"),
        Row::Call("check F N U L", 0, b"accepted\n"),
        Row::Call("gates U OUT", 0, b"modules 0 gates 0\n"),
        Row::Newlines("U", 4_194_305),
        Row::Call("eval U 0 0x0 0x0 0x0", 4, b"fault 4 too large U\n"),
        Row::Call("run F --units U", 4, b"fault 4 too large U\n"),
        Row::Call("check F N U L", 4, b"fault 4 too large U\n"),
        Row::Call("gates U OUT", 4, b"fault 4 too large U\n"),
    ]
}

/// Texts. One of empty lines has no words.
fn texts() -> &'static [Row] {
    &[
        Row::Newlines("F", 1_048_575),
        Row::Call("asm F OUT", 0, b""),
        Row::Newlines("F", 1_048_576),
        Row::Call("asm F OUT", 0, b""),
        Row::Newlines("F", 1_048_577),
        Row::Call("asm F OUT", 4, b"fault 4 too large F\n"),
    ]
}

/// Words of one byte less than their limit.
fn words_below() -> &'static [Row] {
    &[Row::Newlines("F", 1_048_575), Row::Listing(262_143)]
}

/// Words of as many bytes as their limit, and of one more.
fn words_at() -> &'static [Row] {
    &[
        Row::Newlines("F", 1_048_576),
        Row::Listing(262_144),
        Row::Newlines("F", 1_048_577),
        Row::Call("dis F", 4, b"fault 4 too large F\n"),
    ]
}

/// Log books and netlists of one byte more than their limit. Lengths up to it are left out, since a text takes 256 MiB,
/// and as much again while it is read.
fn books_and_netlists() -> &'static [Row] {
    &[
        Row::Newlines("L", 268_435_457),
        Row::Call("check F N U L", 4, b"fault 4 too large L\n"),
        Row::Call("relog L OUT", 4, b"fault 4 too large L\n"),
        Row::Call("geval L 0 0x0 0x0 0x0", 4, b"fault 4 too large L\n"),
    ]
}

// A file is made once for all calls over it, and calls that are refused stand before those that write. Few of the files
// of 16 MiB are in one test, since each takes seconds in an unoptimized build, as do units, texts, listings and a book.

#[test]
fn executables_with_blocks_at_their_limit(rt: HostRuntime) -> Result<(), AllocError> {
    expect(&rt, executables_with_blocks())
}

#[test]
fn executables_to_run_at_their_limit(rt: HostRuntime) -> Result<(), AllocError> {
    expect(&rt, executables_to_run())
}

#[test]
fn new_files_and_inputs_at_their_limit(rt: HostRuntime) -> Result<(), AllocError> {
    expect(&rt, new_files_and_inputs())
}

#[test]
fn tables_and_blocks_at_their_limit(rt: HostRuntime) -> Result<(), AllocError> {
    expect(&rt, tables_and_blocks())
}

#[test]
fn units_at_their_limit(rt: HostRuntime) -> Result<(), AllocError> {
    expect(&rt, units())
}

#[test]
fn texts_at_their_limit(rt: HostRuntime) -> Result<(), AllocError> {
    expect(&rt, texts())
}

#[test]
fn words_below_their_limit(rt: HostRuntime) -> Result<(), AllocError> {
    expect(&rt, words_below())
}

#[test]
fn words_at_their_limit(rt: HostRuntime) -> Result<(), AllocError> {
    expect(&rt, words_at())
}

#[test]
fn books_and_netlists_above_their_limit(rt: HostRuntime) -> Result<(), AllocError> {
    expect(&rt, books_and_netlists())
}
