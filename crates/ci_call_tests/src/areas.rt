//! Worked calls of `area`, over an executable `F` and a table `T` in memory. Which set is the best is that of a plain
//! reading of all sets (`checks/compare/area.py` of the repository).
use crate::common::{CALLS_AS_F, Step, expect};
use std::alloc::AllocError;

/// Two sums and a fence, twice, with the same unit; three operations of logic and a fence; three stores and a break.
const THREE_BLOCKS: Step = Step::Executable(
    "F",
    &[
        0x00b502b3, 0x00c282b3, 0x0ff0000f, 0x00e68333, 0x00f30333, 0x0ff0000f, 0x00b543b3,
        0x00c3c3b3, 0x00a3c3b3, 0x0ff0000f, 0x00512023, 0x00612223, 0x00712423, 0x00100073,
    ],
    &[],
    &[],
);

/// Two sums, two operations of xor and two of or, each with a fence behind; three stores and a break.
const THREE_UNITS: Step = Step::Executable(
    "F",
    &[
        0x00b502b3, 0x00c282b3, 0x0ff0000f, 0x00b543b3, 0x00c3c3b3, 0x0ff0000f, 0x00b56333,
        0x00c36333, 0x0ff0000f, 0x00512023, 0x00712423, 0x00612223, 0x00100073,
    ],
    &[],
    &[],
);

/// Choices by area.
fn areas() -> &'static [Step] {
    &[
        // Choices for the calls of two functions. Both units need 672 gates and save 4 cycles.
        CALLS_AS_F,
        Step::Call("area F --limit 0", 0, b"area 0 gain 0 units\n"),
        Step::Call("area F --limit 671", 0, b"area 0 gain 0 units\n"),
        Step::Call("area F --limit 672", 0, b"area 672 gain 4 units 1\n"),
        Step::Call("area F --limit 1343", 0, b"area 672 gain 4 units 1\n"),
        Step::Call("area F --limit 1344", 0, b"area 1344 gain 8 units 0 1\n"),
        Step::Call(
            "area --limit=4294967295 F",
            0,
            b"area 1344 gain 8 units 0 1\n",
        ),
        Step::Call(
            "area F --limit 672 --count 1",
            0,
            b"area 672 gain 4 units 0\n",
        ),
        // All searches are given up, so there are no units.
        Step::Call("area F --limit 672 --budget 1", 0, b"area 0 gain 0 units\n"),
        // A unit that is taken twice is one piece, and its cuts gain together. Of sets that gain as much the one with
        // the greatest number that another hasn't comes first.
        THREE_BLOCKS,
        Step::Call("area F --limit 95", 0, b"area 0 gain 0 units\n"),
        Step::Call("area F --limit 96", 0, b"area 96 gain 2 units 0\n"),
        Step::Call("area F --limit 320", 0, b"area 320 gain 2 units 1\n"),
        Step::Call("area F --limit 416", 0, b"area 416 gain 4 units 0 1\n"),
        THREE_UNITS,
        Step::Call("area F --limit 384", 0, b"area 128 gain 2 units 1 2\n"),
        // A search for each cut needs two branches, and one for the best set three.
        Step::Call(
            "area F --limit 448 --budget 3",
            0,
            b"area 448 gain 3 units 0 1 2\n",
        ),
        Step::Call("area F --limit 448 --budget 2", 0, b"skipped budget 2\n"),
    ]
}

#[test]
fn units_by_area(rt: HostRuntime) -> Result<(), AllocError> {
    expect(&rt, areas())
}

/// Words that read as no command, and files that are no executables, or none with a choice.
fn refused() -> &'static [Step] {
    &[
        // Words that read as no command.
        Step::Call("area F", 1, b"fault 1 usage\n"),
        Step::Call("area --limit 1", 1, b"fault 1 usage\n"),
        Step::Call("area F N --limit 1", 1, b"fault 1 usage\n"),
        Step::Call("area F --limit 4294967296", 1, b"fault 1 usage\n"),
        Step::Call("area F --limit 1 --limit 1", 1, b"fault 1 usage\n"),
        Step::Call("area F --limit 1 --log 1", 1, b"fault 1 usage\n"),
        Step::Call("area F --limit 1 --count 33", 1, b"fault 1 usage\n"),
        Step::Call("find F N U L R --limit 1", 1, b"fault 1 usage\n"),
        // No file, one that is no executable, a word of a custom opcode, and a text that is touched.
        Step::Call("area F --limit 1", 2, b"fault 2 read F\n"),
        Step::File("F", b""),
        Step::Call("area F --limit 1", 5, b"fault 5 elf 1 0 0\n"),
        Step::Executable("F", &[0x0000000b], &[], &[]),
        Step::Call(
            "area F --limit 1",
            7,
            b"fault 7 unsupported 00010074 0000000b\n",
        ),
        Step::Executable("F", &[0x00000297, 0x0002a303, 0x00100073], &[], &[]),
        Step::Call(
            "area F --limit 1",
            8,
            b"fault 8 text touched 00010078 00010074\n",
        ),
        // What is refused for its table or its input.
        THREE_BLOCKS,
        Step::Call("area F --limit 1 --table T", 2, b"fault 2 read T\n"),
        Step::Call("area F --limit 1 --input I", 2, b"fault 2 read I\n"),
        Step::File("T", b"reed = 1"),
        Step::Failing(1, "area F --limit 1 --table T", 2, b"fault 2 read F\n"),
    ]
}

#[test]
fn areas_that_are_refused(rt: HostRuntime) -> Result<(), AllocError> {
    expect(&rt, refused())
}
