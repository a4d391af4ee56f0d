//! Choices under several limits: which blocks are taken in which order, which are skipped, and what ends the choice.
//! Reports are those of a plain reading of rounds (`checks/oracles/choices.py` of the repository).
use crate::common::{CALLS_AS_F, Step, expect};
use std::alloc::AllocError;

/// A table in which a sum takes two cycles.
const TABLE: Step = Step::File("T", b"read = 3\n[software]\nadd = 2\n");

/// An input of a byte.
const INPUT: Step = Step::File("I", b"x");

/// Two sums and a fence, twice, with the same unit; three operations of logic and a fence; three stores and a break.
const THREE_BLOCKS_AS_F: Step = Step::Executable(
    "F",
    &[
        0x00b502b3, 0x00c282b3, 0x0ff0000f, 0x00e68333, 0x00f30333, 0x0ff0000f, 0x00b543b3,
        0x00c3c3b3, 0x00a3c3b3, 0x0ff0000f, 0x00512023, 0x00612223, 0x00712423, 0x00100073,
    ],
    &[],
    &[],
);

/// Reads a byte, and ends where there is none; two sums and a fence; a store and a break.
const READING_AS_F: Step = Step::Executable(
    "F",
    &[
        0x00010593, 0x00100613, 0x03f00893, 0x00000073, 0x00051463, 0x00100073, 0x00e68333,
        0x00f30333, 0x0ff0000f, 0x00612223, 0x00100073,
    ],
    &[],
    &[],
);

/// `addi x9, x0, 3`; a loop of two sums, `addi x9, x9, -1` and `bne`; three operations of logic and a fence; two
/// stores and a break.
const LOOP_AND_BLOCK_AS_F: Step = Step::Executable(
    "F",
    &[
        0x00300493, 0x00e68333, 0x00f30333, 0xfff48493, 0xfe049ae3, 0x00b543b3, 0x00c3c3b3,
        0x00a3c3b3, 0x0ff0000f, 0x00612223, 0x00712423, 0x00100073,
    ],
    &[],
    &[],
);

// Each choice: what `find` puts, that `check` accepts it, its report, and the last line of its log book.

/// Choices by the gains of blocks, and under limits of their number and of the search.
fn choices_by_gains() -> &'static [Step] {
    &[
        // The block that gains most comes first, then of those that gain as much the first one. Equal units are one.
        THREE_BLOCKS_AS_F,
        TABLE,
        INPUT,
        Step::Call("find F N U L R", 0, b"cuts 3 units 2 skipped 0 gain 4\n"),
        Step::Call("check F N U L", 0, b"accepted\n"),
        Step::Holds(
            "R",
            b"ci-report 1
ports 3 2 count 32 budget 65536 pad 0 read 1
profile break steps 14 cost 14
block 00010074 length 3 entries 1
block 00010080 length 3 entries 1
block 0001008c length 4 entries 1
block 0001009c length 4 entries 1
cut 0 block 0001008c unit 0 gain 2 entries 1 nodes 0 1 2 word 60b5038b
cut 1 block 00010074 unit 1 gain 1 entries 1 nodes 0 1 word 60b5128b
cut 2 block 00010080 unit 1 gain 1 entries 1 nodes 0 1 word 78e6930b
unit 0 cycles 1 operations 3 uses 1
unit 1 cycles 1 operations 2 uses 2
total 4
",
        ),
        Step::Between("L", b"", b"end none\n"),
        Step::Clear,
        THREE_BLOCKS_AS_F,
        TABLE,
        INPUT,
        Step::Call(
            "find F N U L R --count 1",
            0,
            b"cuts 1 units 1 skipped 0 gain 2\n",
        ),
        Step::Call("check F N U L --count 1", 0, b"accepted\n"),
        Step::Holds(
            "R",
            b"ci-report 1
ports 3 2 count 1 budget 65536 pad 0 read 1
profile break steps 14 cost 14
block 00010074 length 3 entries 1
block 00010080 length 3 entries 1
block 0001008c length 4 entries 1
block 0001009c length 4 entries 1
cut 0 block 0001008c unit 0 gain 2 entries 1 nodes 0 1 2 word 60b5038b
unit 0 cycles 1 operations 3 uses 1
total 2
",
        ),
        Step::Between("L", b"", b"end count\n"),
        Step::Clear,
        THREE_BLOCKS_AS_F,
        TABLE,
        INPUT,
        Step::Call(
            "find F N U L R --budget 2",
            0,
            b"cuts 2 units 1 skipped 1 gain 2\n",
        ),
        Step::Call("check F N U L --budget 2", 0, b"accepted\n"),
        Step::Holds(
            "R",
            b"ci-report 1
ports 3 2 count 32 budget 2 pad 0 read 1
profile break steps 14 cost 14
block 00010074 length 3 entries 1
block 00010080 length 3 entries 1
block 0001008c length 4 entries 1
block 0001009c length 4 entries 1
skip 0 block 0001008c budget 2
cut 0 block 00010074 unit 0 gain 1 entries 1 nodes 0 1 word 60b5028b
cut 1 block 00010080 unit 0 gain 1 entries 1 nodes 0 1 word 78e6830b
unit 0 cycles 1 operations 2 uses 2
total 2
",
        ),
        Step::Between("L", b"", b"end none\n"),
        // All blocks of the calls but one need more than a budget of 1.
        Step::Clear,
        CALLS_AS_F,
        TABLE,
        INPUT,
        Step::Call(
            "find F N U L R --budget 1",
            0,
            b"cuts 0 units 0 skipped 6 gain 0\n",
        ),
        Step::Call("check F N U L --budget 1", 0, b"accepted\n"),
        Step::Holds(
            "R",
            b"ci-report 1
ports 3 2 count 32 budget 1 pad 0 read 1
profile exit 00000000 steps 61 cost 75
block 00010074 length 3 entries 1
block 00010080 length 3 entries 4
block 0001008c length 4 entries 4
block 0001009c length 7 entries 1
block 000100b8 length 3 entries 1
block 000100c4 length 4 entries 2
block 000100d4 length 6 entries 2
skip 0 block 00010074 budget 1
skip 0 block 0001008c budget 1
skip 0 block 0001009c budget 1
skip 0 block 000100b8 budget 1
skip 0 block 000100c4 budget 1
skip 0 block 000100d4 budget 1
total 0
",
        ),
        Step::Between("L", b"", b"end none\n"),
    ]
}

#[test]
fn choices_under_limits(rt: HostRuntime) -> Result<(), AllocError> {
    expect(&rt, choices_by_gains())
}

/// Choices by other options, a loop and an input.
fn choices_by_options() -> &'static [Step] {
    &[
        // The three blocks with limits of a cut, steps, a leader and the file `T`, which has latencies.
        THREE_BLOCKS_AS_F,
        TABLE,
        INPUT,
        Step::Call(
            "find F N U L R --in 2 --out 1",
            0,
            b"cuts 0 units 0 skipped 0 gain 0\n",
        ),
        Step::Call("check F N U L --in 2 --out 1", 0, b"accepted\n"),
        Step::Holds(
            "R",
            b"ci-report 1
ports 2 1 count 32 budget 65536 pad 0 read 1
profile break steps 14 cost 14
block 00010074 length 3 entries 1
block 00010080 length 3 entries 1
block 0001008c length 4 entries 1
block 0001009c length 4 entries 1
total 0
",
        ),
        Step::Between("L", b"", b"end none\n"),
        Step::Clear,
        THREE_BLOCKS_AS_F,
        TABLE,
        INPUT,
        Step::Call(
            "find F N U L R --steps 8",
            0,
            b"cuts 3 units 2 skipped 0 gain 4\n",
        ),
        Step::Call("check F N U L --steps 8", 0, b"accepted\n"),
        Step::Holds(
            "R",
            b"ci-report 1
ports 3 2 count 32 budget 65536 pad 0 read 1
profile limit steps 8 cost 8
block 00010074 length 3 entries 1
block 00010080 length 3 entries 1
block 0001008c length 4 entries 1
cut 0 block 0001008c unit 0 gain 2 entries 1 nodes 0 1 2 word 60b5038b
cut 1 block 00010074 unit 1 gain 1 entries 1 nodes 0 1 word 60b5128b
cut 2 block 00010080 unit 1 gain 1 entries 1 nodes 0 1 word 78e6930b
unit 0 cycles 1 operations 3 uses 1
unit 1 cycles 1 operations 2 uses 2
total 4
",
        ),
        Step::Between("L", b"", b"end none\n"),
        Step::Clear,
        THREE_BLOCKS_AS_F,
        TABLE,
        INPUT,
        Step::Call(
            "find F N U L R --leader 0x10078",
            0,
            b"cuts 2 units 2 skipped 0 gain 3\n",
        ),
        Step::Call("check F N U L --leader 0x10078", 0, b"accepted\n"),
        Step::Holds(
            "R",
            b"ci-report 1
ports 3 2 count 32 budget 65536 pad 0 read 1
profile break steps 14 cost 14
block 00010074 length 1 entries 1
block 00010078 length 2 entries 1
block 00010080 length 3 entries 1
block 0001008c length 4 entries 1
block 0001009c length 4 entries 1
cut 0 block 0001008c unit 0 gain 2 entries 1 nodes 0 1 2 word 60b5038b
cut 1 block 00010080 unit 1 gain 1 entries 1 nodes 0 1 word 78e6930b
unit 0 cycles 1 operations 3 uses 1
unit 1 cycles 1 operations 2 uses 1
total 3
",
        ),
        Step::Between("L", b"", b"end none\n"),
        Step::Clear,
        THREE_BLOCKS_AS_F,
        TABLE,
        INPUT,
        Step::Call(
            "find F N U L R --table T",
            0,
            b"cuts 3 units 2 skipped 0 gain 8\n",
        ),
        Step::Call("check F N U L --table T", 0, b"accepted\n"),
        Step::Holds(
            "R",
            b"ci-report 1
ports 3 2 count 32 budget 65536 pad 0 read 3
profile break steps 14 cost 18
block 00010074 length 3 entries 1
block 00010080 length 3 entries 1
block 0001008c length 4 entries 1
block 0001009c length 4 entries 1
cut 0 block 00010074 unit 0 gain 3 entries 1 nodes 0 1 word 60b5028b
cut 1 block 00010080 unit 0 gain 3 entries 1 nodes 0 1 word 78e6830b
cut 2 block 0001008c unit 1 gain 2 entries 1 nodes 0 1 2 word 60b5138b
unit 0 cycles 1 operations 2 uses 2
unit 1 cycles 1 operations 3 uses 1
total 8
",
        ),
        Step::Between("L", b"", b"end none\n"),
        // What gains less, but is entered three times, comes first.
        Step::Clear,
        LOOP_AND_BLOCK_AS_F,
        TABLE,
        INPUT,
        Step::Call("find F N U L R", 0, b"cuts 2 units 2 skipped 0 gain 5\n"),
        Step::Call("check F N U L", 0, b"accepted\n"),
        Step::Holds(
            "R",
            b"ci-report 1
ports 3 2 count 32 budget 65536 pad 0 read 1
profile break steps 20 cost 20
block 00010074 length 1 entries 1
block 00010078 length 4 entries 3
block 00010088 length 4 entries 1
block 00010098 length 3 entries 1
cut 0 block 00010078 unit 0 gain 1 entries 3 nodes 0 1 word 78e6830b
cut 1 block 00010088 unit 1 gain 2 entries 1 nodes 0 1 2 word 60b5138b
unit 0 cycles 1 operations 2 uses 1
unit 1 cycles 1 operations 3 uses 1
total 5
",
        ),
        Step::Between("L", b"", b"end none\n"),
        // Without input, and with the file `I`, which has a byte.
        Step::Clear,
        READING_AS_F,
        TABLE,
        INPUT,
        Step::Call("find F N U L R", 0, b"cuts 0 units 0 skipped 0 gain 0\n"),
        Step::Call("check F N U L", 0, b"accepted\n"),
        Step::Holds(
            "R",
            b"ci-report 1
ports 3 2 count 32 budget 65536 pad 0 read 1
profile break steps 6 cost 6
block 00010074 length 4 entries 1
block 00010084 length 1 entries 1
block 00010088 length 1 entries 1
total 0
",
        ),
        Step::Between("L", b"", b"end none\n"),
        Step::Clear,
        READING_AS_F,
        TABLE,
        INPUT,
        Step::Call(
            "find F N U L R --input I",
            0,
            b"cuts 1 units 1 skipped 0 gain 1\n",
        ),
        Step::Call("check F N U L --input I", 0, b"accepted\n"),
        Step::Holds(
            "R",
            b"ci-report 1
ports 3 2 count 32 budget 65536 pad 0 read 1
profile break steps 10 cost 10
block 00010074 length 4 entries 1
block 00010084 length 1 entries 1
block 0001008c length 3 entries 1
block 00010098 length 2 entries 1
cut 0 block 0001008c unit 0 gain 1 entries 1 nodes 0 1 word 78e6830b
unit 0 cycles 1 operations 2 uses 1
total 1
",
        ),
        Step::Between("L", b"", b"end none\n"),
    ]
}

#[test]
fn choices_by_their_profiles(rt: HostRuntime) -> Result<(), AllocError> {
    expect(&rt, choices_by_options())
}

/// A load from the text, a break, and a word of a custom opcode.
const TOUCHING_AS_F: Step = Step::Executable(
    "F",
    &[0x00000297, 0x0002a303, 0x00100073, 0x0000000b],
    &[],
    &[],
);

/// A book of no entry.
const NO_ENTRY: Step = Step::File("L", b"ci-log 1\nend none\n");

/// What is refused first: the files in their order, then custom words, then a touched text, then the book. The new
/// file isn't that of any choice.
fn refused_in_order() -> &'static [Step] {
    &[
        TOUCHING_AS_F,
        Step::File("N", b"x"),
        Step::File("U", b"x"),
        Step::File("L", b"x"),
        Step::Call("check F N U L", 9, b"fault 9 units 2 0\n"),
        Step::File("U", b""),
        Step::Call("check F N U L", 10, b"fault 10 log 1 0\n"),
        NO_ENTRY,
        Step::Call(
            "check F N U L",
            7,
            b"fault 7 unsupported 00010080 0000000b\n",
        ),
        Step::Executable("F", &[0x00000297, 0x0002a303, 0x00100073], &[], &[]),
        Step::Call(
            "check F N U L",
            8,
            b"fault 8 text touched 00010078 00010074\n",
        ),
        Step::Executable("F", &[0x00b502b3, 0x00100073], &[], &[]),
        Step::Call("check F N U L", 11, b"fault 11 rejected 0 00010074 0 8\n"),
    ]
}

#[test]
fn refusals_in_their_order(rt: HostRuntime) -> Result<(), AllocError> {
    expect(&rt, refused_in_order())
}

/// Two sums and a break, behind which nothing is live; and the same with a store of the second sum between.
fn dead_and_live() -> &'static [Step] {
    &[
        Step::Executable("F", &[0x00b502b3, 0x00c282b3, 0x00100073], &[], &[]),
        Step::Call("best F --at 0x10074", 0, b"no cut\n"),
        Step::Executable(
            "F",
            &[0x00b502b3, 0x00c282b3, 0x00512023, 0x00100073],
            &[],
            &[],
        ),
        Step::Call("best F --at 0x10074", 0, b"cut 0 1 gain 1\n"),
    ]
}

#[test]
fn a_cut_has_an_output(rt: HostRuntime) -> Result<(), AllocError> {
    expect(&rt, dead_and_live())
}
