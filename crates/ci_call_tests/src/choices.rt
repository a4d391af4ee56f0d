//! Worked calls of `find` and `check`, over several files in memory.
use crate::common::{
    BOOK, CALLS_AS_F, Files, PACKED_BOOK, Step, UNIT_OF_SUMS, expect, files_after, files_of, hold,
};
use std::alloc::{AllocError, Global};
use std::process::Abort;

/// The report of a choice for the calls of two functions.
const CALLS_REPORT: &[u8] = b"ci-report 1
ports 3 2 count 32 budget 65536 pad 0 read 1
profile exit 00000000 steps 61 cost 75
block 00010074 length 3 entries 1
block 00010080 length 3 entries 4
block 0001008c length 4 entries 4
block 0001009c length 7 entries 1
block 000100b8 length 3 entries 1
block 000100c4 length 4 entries 2
block 000100d4 length 6 entries 2
cut 0 block 000100c4 unit 0 gain 2 entries 2 nodes 0 1 2 word 0005050b
cut 1 block 000100d4 unit 1 gain 2 entries 2 nodes 2 3 4 word 0075150b
unit 0 cycles 1 operations 3 uses 1
unit 1 cycles 1 operations 3 uses 1
total 8
";

/// A sum, a load from where no memory is, a sum of the first, and an exit.
const OVER_A_LOAD: &[u32] = &[0x00b502b3, 0x00002303, 0x00c28533, 0x05d00893, 0x00000073];

/// The same with both sums as one unit.
const FOLDED: &[u32] = &[0x60b5050b, 0x00000013, 0x00002303, 0x05d00893, 0x00000073];

/// The first as the file `F`.
const OVER_A_LOAD_AS_F: Step = Step::Executable("F", OVER_A_LOAD, &[], &[]);

/// Five constants, four operations of logic in a block of their own, each on the result of the one before and on one of
/// them, and an exit with what the last makes.
const EXIT_WITH_FIVE: &[u32] = &[
    0x00100513, 0x00200593, 0x00400613, 0x00800693, 0x01000713, 0x0FF0000F, 0x00B542B3, 0x00C2C2B3,
    0x00D2C2B3, 0x00E2C2B3, 0x0FF0000F, 0x00028513, 0x05D00893, 0x00000073,
];

/// The same with the words of a use in the place of the four: `cput` and the unit word, which take a cycle each.
const FIVE_AS_A_UNIT: &[u32] = &[
    0x00100513, 0x00200593, 0x00400613, 0x00800693, 0x01000713, 0x0FF0000F, 0x00E6902B, 0x60B5028B,
    0x00000013, 0x00000013, 0x0FF0000F, 0x00028513, 0x05D00893, 0x00000073,
];

/// Three constants, five operations of logic in a block of their own, which make x5, x6 and x7 of them, stores of these
/// below the stack pointer, their write, and an exit. Before them x7 has another value.
const WRITE_OF_THREE: &[u32] = &[
    0x00100513, 0x00200593, 0x00400613, 0x00000397, 0x00B542B3, 0x00C2C333, 0x00A343B3, 0x00B3C3B3,
    0x00C3C3B3, 0x0FF0000F, 0xFE512823, 0xFE612A23, 0xFE712C23, 0xFF010593, 0x00100513, 0x00C00613,
    0x04000893, 0x00000073, 0x00000513, 0x05D00893, 0x00000073,
];

/// The same with the words of a use in the place of the five: the unit word and two of `cread`.
const THREE_AS_A_UNIT: &[u32] = &[
    0x00100513, 0x00200593, 0x00400613, 0x00000397, 0x60B5028B, 0x0000032B, 0x001003AB, 0x00000013,
    0x00000013, 0x0FF0000F, 0xFE512823, 0xFE612A23, 0xFE712C23, 0xFF010593, 0x00100513, 0x00C00613,
    0x04000893, 0x00000073, 0x00000513, 0x05D00893, 0x00000073,
];

/// Choices, what they write, what the new programs do, and that `check` accepts them.
fn choices() -> &'static [Step] {
    &[
        CALLS_AS_F,
        Step::Call("find F N U L R", 0, b"cuts 2 units 2 skipped 0 gain 8\n"),
        Step::Holds("R", CALLS_REPORT),
        Step::Call(
            "run N --units U",
            0,
            b"\xe8\x1d\x00\x00end exit 00000000 steps 61 cost 67\n",
        ),
        Step::Call("check F N U L", 0, b"accepted\n"),
        // Over a load.
        Step::Clear,
        OVER_A_LOAD_AS_F,
        Step::Call(
            "find F N U L R --out 1",
            0,
            b"cuts 1 units 1 skipped 0 gain 1\n",
        ),
        Step::Holds("U", UNIT_OF_SUMS),
        Step::Call(
            "run N --units U",
            0,
            b"end access 00000000 4 steps 3 cost 3\n",
        ),
        Step::Executable("DUE", FOLDED, &[], &[]),
        Step::Same("N", "DUE"),
        // The same with a packed book. Which logs the book has is free.
        Step::Clear,
        OVER_A_LOAD_AS_F,
        Step::Call(
            "find F N U L R --out 1 --log 2",
            0,
            b"cuts 1 units 1 skipped 0 gain 1\n",
        ),
        Step::Between("L", b"ci-log 2\n", b""),
        Step::Call("check F N U L --out 1", 0, b"accepted\n"),
        // A unit of five inputs: 1 ^ 2 ^ 4 ^ 8 ^ 16 is 31.
        Step::Clear,
        Step::Executable("F", EXIT_WITH_FIVE, &[], &[]),
        Step::Call(
            "find F N U L R --in 5 --out 1",
            0,
            b"cuts 1 units 1 skipped 0 gain 2\n",
        ),
        Step::Executable("DUE", FIVE_AS_A_UNIT, &[], &[]),
        Step::Same("N", "DUE"),
        Step::Call("check F N U L --in 5 --out 1", 0, b"accepted\n"),
        Step::Call("run F", 0, b"end exit 0000001f steps 14 cost 14\n"),
        Step::Call(
            "run N --units U",
            0,
            b"end exit 0000001f steps 14 cost 12\n",
        ),
        // A unit of three outputs. The three values are 1 ^ 2, 3 ^ 4 and 7 ^ 1 ^ 2 ^ 4.
        Step::Clear,
        Step::Executable("F", WRITE_OF_THREE, &[], &[]),
        Step::Call(
            "find F N U L R --in 3 --out 3",
            0,
            b"cuts 1 units 1 skipped 0 gain 2\n",
        ),
        Step::Executable("DUE", THREE_AS_A_UNIT, &[], &[]),
        Step::Same("N", "DUE"),
        Step::Call("check F N U L --in 3 --out 3", 0, b"accepted\n"),
        Step::Call(
            "run F",
            0,
            b"\x03\0\0\0\x07\0\0\0\0\0\0\0end exit 00000000 steps 21 cost 21\n",
        ),
        Step::Call(
            "run N --units U",
            0,
            b"\x03\0\0\0\x07\0\0\0\0\0\0\0end exit 00000000 steps 21 cost 19\n",
        ),
    ]
}

#[test]
fn choices_and_their_checks(rt: HostRuntime) -> Result<(), AllocError> {
    expect(&rt, choices())
}

/// Log books over the executable with the load and the files of its choice, and what `check` says of them.
fn books() -> &'static [Step] {
    &[
        OVER_A_LOAD_AS_F,
        Step::Executable("N", FOLDED, &[], &[]),
        Step::File("U", UNIT_OF_SUMS),
        Step::File("L", BOOK),
        Step::Call("check F N U L --out 1", 0, b"accepted\n"),
        // The first four reads are those of the files of a choice.
        Step::Failing(1, "check F N U L", 2, b"fault 2 read F\n"),
        Step::Failing(2, "check F N U L", 2, b"fault 2 read N\n"),
        Step::Failing(3, "check F N U L", 2, b"fault 2 read U\n"),
        Step::Failing(4, "check F N U L", 2, b"fault 2 read L\n"),
        // The tree ends with FFF, not with FFG.
        Step::File(
            "L",
            b"ci-log 1
block 00010074 best 0 2
BBOBOFBBFFF
take 00010074 unit 0
block 00010074 none
G
end none
",
        ),
        Step::Call(
            "check F N U L --out 1",
            11,
            b"fault 11 rejected 0 00010074 10 5\n",
        ),
        // There is an x behind the end.
        Step::File(
            "L",
            b"ci-log 1
block 00010074 best 0 2
BBOBOFBBFFG
take 00010074 unit 0
block 00010074 none
G
end none
x",
        ),
        Step::Call("check F N U L --out 1", 10, b"fault 10 log 4 97\n"),
        // The newline of the end is left out.
        Step::File(
            "L",
            b"ci-log 1
block 00010074 best 0 2
BBOBOFBBFFG
take 00010074 unit 0
block 00010074 none
G
end none",
        ),
        Step::Call("check F N U L --out 1", 10, b"fault 10 log 3 0\n"),
        Step::File("L", b""),
        Step::Call("check F N U L --out 1", 10, b"fault 10 log 3 0\n"),
        Step::File("L", b"ci-lag 1\n"),
        Step::Call("check F N U L --out 1", 10, b"fault 10 log 1 0\n"),
        Step::File("L", b"ci-log 1\nend nine\n"),
        Step::Call("check F N U L --out 1", 10, b"fault 10 log 2 14\n"),
        Step::File("L", PACKED_BOOK),
        Step::Call("check F N U L --out 1", 0, b"accepted\n"),
        // The first tree ends with 41, not with 40: the filling of its last byte isn't of zeros.
        Step::File(
            "L",
            b"ci-log 2
block 00010074 best 0 2
\x00\x10\x15\x00\x56\x41
take 00010074 unit 0
block 00010074 none
\x40
end none
",
        ),
        Step::Call("check F N U L --out 1", 10, b"fault 10 log 2 38\n"),
    ]
}

#[test]
fn books_that_are_accepted_and_refused(rt: HostRuntime) -> Result<(), AllocError> {
    expect(&rt, books())
}

/// Programs that are not chosen from: with a word of a custom opcode, and one that loads from its own text.
fn programs() -> &'static [Step] {
    &[
        Step::Executable("F", &[0x0000000b], &[], &[]),
        Step::Call(
            "find F N U L R",
            7,
            b"fault 7 unsupported 00010074 0000000b\n",
        ),
        Step::Call("find F F U L R", 1, b"fault 1 usage\n"),
        Step::Executable("F", &[0x00000297, 0x0002a303, 0x00100073], &[], &[]),
        Step::Call(
            "find F N U L R",
            8,
            b"fault 8 text touched 00010078 00010074\n",
        ),
        Step::Call("check F N U L", 2, b"fault 2 read N\n"),
    ]
}

#[test]
fn programs_that_are_not_chosen_from(rt: HostRuntime) -> Result<(), AllocError> {
    expect(&rt, programs())
}

/// A call of `find` that reads three files and then writes four.
const FIND: &str = "find OLD NEW UNITS LOGS REPORT --out 1 --table T --input I";

/// The same for code that is proved, which looks into no answer of a function.
fn find() -> &'static str {
    FIND
}

/// The files that it writes, in their order.
fn written() -> &'static [&'static str] {
    &["UNITS", "LOGS", "REPORT", "NEW"]
}

/// The files that it reads: the executable with the load, and an empty table and input.
const OLD: Step = Step::Executable("OLD", OVER_A_LOAD, &[], &[]);

const NO_TABLE: Step = Step::File("T", b"");

const NO_INPUT: Step = Step::File("I", b"");

/// They alone.
fn new_files() -> &'static [Step] {
    &[OLD, NO_TABLE, NO_INPUT]
}

/// They, and each file that the call writes with other bytes.
fn old_files() -> &'static [Step] {
    &[
        OLD,
        NO_TABLE,
        NO_INPUT,
        Step::File("UNITS", b"before"),
        Step::File("LOGS", b"before"),
        Step::File("REPORT", b"before"),
        Step::File("NEW", b"before"),
    ]
}

/// They, and what the call writes where none of its calls fails.
fn whole_files() -> &'static [Step] {
    &[
        OLD,
        NO_TABLE,
        NO_INPUT,
        Step::Call(FIND, 0, b"cuts 1 units 1 skipped 0 gain 1\n"),
        Step::Holds("UNITS", UNIT_OF_SUMS),
    ]
}

/// Which call of the shelf fails, and which put; the status and the line of the call then, and how many of its writes
/// were made.
type Failure = (u64, u64, u8, &'static [u8], usize);

/// Each call in turn, of the shelf and then of the sink.
fn failures() -> &'static [Failure] {
    &[
        (1, 0, 2, b"fault 2 read OLD\n", 0),
        (2, 0, 2, b"fault 2 read T\n", 0),
        (3, 0, 2, b"fault 2 read I\n", 0),
        (4, 0, 3, b"fault 3 write UNITS\n", 0),
        (5, 0, 3, b"fault 3 write LOGS\n", 1),
        (6, 0, 3, b"fault 3 write REPORT\n", 2),
        (7, 0, 3, b"fault 3 write NEW\n", 3),
        // The summary isn't put.
        (0, 1, 3, b"fault 3 write -\n", 4),
    ]
}

/// The files after so many of its writes, each with the bytes that the file has among these.
fn files_due(
    alloc: Global,
    before: &Files,
    whole: &Files,
    writes: usize,
) -> Result<Files, AllocError> {
    let mut files = before.clone()?;
    for (place, name) in written().iter().enumerate() {
        if place < writes {
            if let Some(bytes) = whole.get(*name) {
                hold(&mut files, alloc, name, bytes.as_slice())?;
            }
        }
    }
    Ok(files)
}

/// Asserts how the call ends where one of its calls fails, and what all files hold then. On a shelf in memory a file
/// whose write fails stays as it was.
fn expect_failure(
    rt: &(impl Abort + AllocGlobal),
    before: &Files,
    whole: &Files,
    failure: &Failure,
) -> Result<(), AllocError> {
    let (of_shelf, of_sink, status, line, writes) = *failure;
    let due = files_due(rt.alloc(), before, whole, writes)?;
    let after = files_after(rt, before, (of_shelf, of_sink), find(), status, line)?;
    assert!(rt; after == due, "the files where a call fails");
    drop(after);
    drop(due);
    Ok(())
}

/// Asserts how the call ends where each of its calls fails in turn, over the files of these steps. What is whole is
/// told by a call where none fails.
fn expect_failures(rt: &(impl Abort + AllocGlobal), steps: &[Step]) -> Result<(), AllocError> {
    let before = files_of(rt, steps)?;
    let whole = files_of(rt, whole_files())?;
    // The three files that it read, and the four that it wrote.
    assert!(rt; whole.len() == 7);
    for failure in failures() {
        expect_failure(rt, &before, &whole, failure)?;
    }
    drop(before);
    drop(whole);
    Ok(())
}

#[test]
fn calls_that_fail_before_new_files_and_over_old_ones(rt: HostRuntime) -> Result<(), AllocError> {
    expect_failures(&rt, new_files())?;
    expect_failures(&rt, old_files())
}
