//! What the modules of tests share: tables of steps over files in memory, and what several of them name.
use ci_elf::frame;
use ci_find::run;
use ci_io::{MemShelf, MemSink};
use std::alloc::{AllocError, Global};
use std::collections::BTreeMap;
use std::mem::replace;
use std::process::Abort;

// Tables are the answers of functions, so that the proof of a test looks at none of them, and what owns memory is let
// go by a call of `drop`, which a proof does not look into.

/// The words after the program's name, by blanks: `''` is the empty word.
pub(crate) fn words(alloc: Global, text: &str) -> Result<Vec<String>, AllocError> {
    let mut words = Vec::new(alloc);
    for word in text.split(' ') {
        if word == "''" {
            words.push(String::new(alloc))?;
        } else if !word.is_empty() {
            words.push(String::from_str(alloc, word)?)?;
        }
    }
    Ok(words)
}

/// What is done with files in memory, in turn. At first there are none.
#[derive(Clone, Copy)]
pub(crate) enum Step {
    /// All files go.
    Clear,
    /// A file of these bytes.
    File(&'static str, &'static [u8]),
    /// A file that is the executable of a text, constants and values.
    Executable(&'static str, &'static [u32], &'static [u32], &'static [u32]),
    /// A file of these words alone, the lowest byte of each first.
    Block(&'static str, &'static [u32]),
    /// Words are written into a file from an offset on, the lowest byte of each first.
    Words(&'static str, usize, &'static [u32]),
    /// A file gets this length: it is cut, or zeros come behind it.
    Length(&'static str, usize),
    /// A call of the program, its status and the bytes that it puts. One that is refused leaves all files as they were.
    Call(&'static str, u8, &'static [u8]),
    /// The same where the call of this number of the shelf fails.
    Failing(u64, &'static str, u8, &'static [u8]),
    /// A call whose first put fails, its status and what it puts then. Which files it wrote, steps behind it tell.
    Unheard(&'static str, u8, &'static [u8]),
    /// A call of which no put arrives, that of its fault line neither, and its status.
    Mute(&'static str, u8),
    /// All that a file holds.
    Holds(&'static str, &'static [u8]),
    /// How a file begins, and how it ends.
    Between(&'static str, &'static [u8], &'static [u8]),
    /// Two files hold the same.
    Same(&'static str, &'static str),
}

/// The files of a shelf, by their names.
pub(crate) type Files = BTreeMap<String, Vec<u8>>;

/// Puts a file among the others.
fn put(files: &mut Files, alloc: Global, name: &str, bytes: Vec<u8>) -> Result<(), AllocError> {
    files.insert(String::from_str(alloc, name)?, bytes)?;
    Ok(())
}

/// Puts a file of these bytes among the others.
pub(crate) fn hold(
    files: &mut Files,
    alloc: Global,
    name: &str,
    bytes: &[u8],
) -> Result<(), AllocError> {
    put(files, alloc, name, Vec::from_slice(alloc, bytes)?)
}

/// The executable of a text, with some values behind it.
fn program(
    rt: &(impl Abort + AllocGlobal),
    text: &[u32],
    constants: &[u32],
    values: &[u32],
) -> Result<Vec<u8>, AllocError> {
    assert!(rt; !text.is_empty());
    assert!(rt; text.len() <= 300);
    assert!(rt; constants.len() <= 100);
    assert!(rt; values.len() <= 100);
    frame(rt.alloc(), text, constants, values)
}

/// The bytes of words, the lowest byte of each first.
fn bytes_of(alloc: Global, words: &[u32]) -> Result<Vec<u8>, AllocError> {
    let mut bytes = Vec::new(alloc);
    for word in words {
        bytes.extend_from_slice(&word.to_le_bytes())?;
    }
    Ok(bytes)
}

/// Writes words into a file, the lowest byte of each first.
fn write_words(rt: &impl Abort, bytes: &mut Vec<u8>, offset: usize, words: &[u32]) {
    let mut place = offset;
    for word in words {
        assert!(rt; place <= 1_000);
        assert!(rt; place + 4 <= bytes.len());
        let [first, second, third, fourth] = word.to_le_bytes();
        bytes[place] = first;
        bytes[place + 1] = second;
        bytes[place + 2] = third;
        bytes[place + 3] = fourth;
        place += 4;
    }
}

/// Calls the program over copies of these files, asserts its status and the bytes that it puts, and gives the files
/// after it. The call of the first number of the shelf fails, none has the number 0, and the second number says how
/// many puts of the sink fail, from the first on and two at most.
pub(crate) fn files_after(
    rt: &(impl Abort + AllocGlobal),
    files: &Files,
    failing: (u64, u64),
    text: &str,
    status: u8,
    put: &[u8],
) -> Result<Files, AllocError> {
    let alloc = rt.alloc();
    let (of_shelf, of_sink) = failing;
    let words = words(alloc, text)?;
    let mut shelf = MemShelf::new(files.clone()?, vec![in alloc; of_shelf]?);
    let mut out = MemSink::new(alloc, vec![in alloc; of_sink.min(1), of_sink]?);
    let answer = run(alloc, &words, &mut shelf, &mut out);
    drop(words);
    assert!(rt; answer == status, "the status of {text}");
    assert!(rt; out.taken() == put, "what {text} put");
    drop(out);
    let after: Result<Files, AllocError> = shelf.files().clone();
    drop(shelf);
    after
}

/// Calls the program over the files, and asserts its status and the bytes that it puts, and of a call that is refused
/// that it left all files as they were. A call of which a put fails may have written all its files.
fn expect_call(
    rt: &(impl Abort + AllocGlobal),
    files: &mut Files,
    failing: (u64, u64),
    text: &str,
    status: u8,
    put: &[u8],
) -> Result<(), AllocError> {
    let after = files_after(rt, files, failing, text, status, put)?;
    let (_, of_sink) = failing;
    let may_write = status == 0 || of_sink != 0;
    assert!(rt; may_write || after == *files, "the files after {text}");
    drop(replace(files, after));
    Ok(())
}

/// Whether a file is there that is `front` or, where `back` is given, begins with `front` and ends with `back`.
fn is_between(files: &Files, name: &str, front: &[u8], back: Option<&[u8]>) -> bool {
    match files.get(name) {
        Some(file) => match back {
            Some(back) => file.as_slice().starts_with(front) && file.as_slice().ends_with(back),
            None => file.as_slice() == front,
        },
        None => false,
    }
}

/// Whether both files are there and hold the same.
fn are_same(files: &Files, name: &str, other: &str) -> bool {
    match files.get(other) {
        Some(file) => is_between(files, name, file.as_slice(), None),
        None => false,
    }
}

/// Takes a step.
fn take(rt: &(impl Abort + AllocGlobal), files: &mut Files, step: &Step) -> Result<(), AllocError> {
    match *step {
        Step::Clear => drop(replace(files, BTreeMap::new(rt.alloc()))),
        Step::File(name, bytes) => hold(files, rt.alloc(), name, bytes)?,
        Step::Executable(name, text, constants, values) => {
            put(
                files,
                rt.alloc(),
                name,
                program(rt, text, constants, values)?,
            )?
        }
        Step::Block(name, words) => put(files, rt.alloc(), name, bytes_of(rt.alloc(), words)?)?,
        Step::Words(name, offset, words) => match files.get_mut(name) {
            Some(bytes) => write_words(rt, bytes, offset, words),
            None => assert!(rt; false, "no file {name}"),
        },
        Step::Length(name, length) => match files.get_mut(name) {
            Some(bytes) => bytes.resize(length, 0)?,
            None => assert!(rt; false, "no file {name}"),
        },
        Step::Call(text, status, put) => expect_call(rt, files, (0, 0), text, status, put)?,
        Step::Failing(number, text, status, put) => {
            expect_call(rt, files, (number, 0), text, status, put)?
        }
        Step::Unheard(text, status, put) => expect_call(rt, files, (0, 1), text, status, put)?,
        Step::Mute(text, status) => expect_call(rt, files, (0, 2), text, status, b"")?,
        Step::Holds(name, due) => {
            assert!(rt; is_between(files, name, due, None), "the file {name}")
        }
        Step::Between(name, front, back) => {
            assert!(rt;
                is_between(files, name, front, Some(back)),
                "the file {name}"
            )
        }
        Step::Same(name, other) => {
            assert!(rt;
                are_same(files, name, other),
                "the files {name} and {other}"
            )
        }
    }
    Ok(())
}

/// Takes these steps, one after the other.
fn take_all(
    rt: &(impl Abort + AllocGlobal),
    files: &mut Files,
    steps: &[Step],
) -> Result<(), AllocError> {
    for step in steps {
        take(rt, files, step)?;
    }
    Ok(())
}

/// The files that these steps leave, from no files on.
pub(crate) fn files_of(
    rt: &(impl Abort + AllocGlobal),
    steps: &[Step],
) -> Result<Files, AllocError> {
    let mut files = BTreeMap::new(rt.alloc());
    take_all(rt, &mut files, steps)?;
    Ok(files)
}

/// Takes these steps, from no files on.
pub(crate) fn expect(rt: &(impl Abort + AllocGlobal), steps: &[Step]) -> Result<(), AllocError> {
    let mut files = BTreeMap::new(rt.alloc());
    let outcome = take_all(rt, &mut files, steps);
    drop(files);
    outcome
}

/// Thirty words: calls of two functions through a table, a constant, a word of output, and an exit.
pub(crate) const CALLS: &[u32] = &[
    0x00020437, 0x00400493, 0x00000913, 0x00042283, 0x00090513, 0x000280e7, 0x00050913, 0x00440413,
    0xfff48493, 0xfe0494e3, 0x000205b7, 0x0125a823, 0x01058593, 0x00100513, 0x00400613, 0x04000893,
    0x00000073, 0x00000513, 0x05d00893, 0x00000073, 0x00351313, 0x00a34333, 0x00530513, 0x00008067,
    0x000103b7, 0x0ec3a383, 0x00750533, 0x00155313, 0x00654533, 0x00008067,
];

/// Their executable as the file `F`, with the constant that they load, the table of the functions' addresses, and the
/// word that is put.
pub(crate) const CALLS_AS_F: Step = Step::Executable(
    "F",
    CALLS,
    &[0x000003e8],
    &[0x000100c4, 0x000100d4, 0x000100c4, 0x000100d4, 0],
);

/// The executable of a break alone as the file `F`.
pub(crate) const BREAK_AS_F: Step = Step::Executable("F", &[0x00100073], &[], &[]);

/// The unit of two sums.
pub(crate) const UNIT_OF_SUMS: &[u8] = b"// cycles 1
module ci_0(input [31:0] a, input [31:0] b, input [31:0] c, output [31:0] y, output [31:0] z);
wire [31:0] p0;
assign p0 = a;
wire [31:0] q0;
assign q0 = b;
wire [31:0] t0;
assign t0 = p0 + q0;
wire [31:0] p1;
assign p1 = t0;
wire [31:0] q1;
assign q1 = c;
wire [31:0] t1;
assign t1 = p1 + q1;
assign y = t1;
assign z = 32'h00000000;
endmodule
";

/// The block of two sums, of which the second writes the register of the first: the words 00b502b3 and 00c282b3.
pub(crate) const SUMS: &[u8] = &[0xB3, 0x02, 0xB5, 0x00, 0xB3, 0x82, 0xC2, 0x00];

/// The same as the file `F`.
pub(crate) const SUMS_AS_F: Step = Step::File("F", SUMS);

/// A log book of a choice with one output, whose logs were written by hand.
pub(crate) const BOOK: &[u8] = b"ci-log 1
block 00010074 best 0 2
BBOBOFBBFFG
take 00010074 unit 0
block 00010074 none
G
end none
";

/// The same in version 2, whose trees were packed by hand.
pub(crate) const PACKED_BOOK: &[u8] = b"ci-log 2
block 00010074 best 0 2
\x00\x10\x15\x00\x56\x40
take 00010074 unit 0
block 00010074 none
\x40
end none
";
