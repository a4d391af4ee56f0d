//! Worked calls of `rename`, over an executable `F` and an input `I` in memory.
use crate::common::{CALLS_AS_F, Step, expect};
use std::alloc::AllocError;

/// Two sums around a load.
const SUMS: &[u32] = &[0x00b502b3, 0x00062503, 0x00a28533, 0x05d00893, 0x00000073];

/// The same renamed.
const RENAMED_SUMS: &[u32] = &[0x00b502b3, 0x00062083, 0x00128533, 0x05d00893, 0x00000073];

/// Texts of one block or several: a call, the line that it puts, and the renamed text, which is `DUE`.
fn renamings() -> &'static [Step] {
    &[
        // A loaded value moves to x1.
        Step::Executable("F", SUMS, &[], &[]),
        Step::Call("rename F OUT", 0, b"renamed 1 blocks 1\n"),
        Step::Executable("DUE", RENAMED_SUMS, &[], &[]),
        Step::Same("OUT", "DUE"),
        // Nothing is left to move.
        Step::Clear,
        Step::Executable("F", RENAMED_SUMS, &[], &[]),
        Step::Call("rename F OUT", 0, b"renamed 0 blocks 0\n"),
        Step::Executable("DUE", RENAMED_SUMS, &[], &[]),
        Step::Same("OUT", "DUE"),
        // Where a block begins behind the load, the loaded value is live.
        Step::Clear,
        Step::Executable("F", SUMS, &[], &[]),
        Step::Call("rename F OUT --leader 0x1007c", 0, b"renamed 0 blocks 0\n"),
        Step::Executable("DUE", SUMS, &[], &[]),
        Step::Same("OUT", "DUE"),
        // The second value of x5 is live behind its block, and the first one moves.
        Step::Clear,
        Step::Executable(
            "F",
            &[
                0x00900293, 0x3ff28293, 0x00029663, 0x00128313, 0x00100073, 0x00128313, 0x00130313,
                0x00612023, 0x00100073,
            ],
            &[],
            &[],
        ),
        Step::Call("rename F OUT", 0, b"renamed 2 blocks 2\n"),
        Step::Executable(
            "DUE",
            &[
                0x00900093, 0x3ff08293, 0x00029663, 0x00128313, 0x00100073, 0x00128093, 0x00108313,
                0x00612023, 0x00100073,
            ],
            &[],
            &[],
        ),
        Step::Same("OUT", "DUE"),
        // An environment call reads the last values of x10 and x11.
        Step::Clear,
        Step::Executable(
            "F",
            &[
                0x00100593, 0x00300513, 0x00450513, 0x00000593, 0x05d00893, 0x00000073,
            ],
            &[],
            &[],
        ),
        Step::Call("rename F OUT", 0, b"renamed 2 blocks 1\n"),
        Step::Executable(
            "DUE",
            &[
                0x00100093, 0x00300113, 0x00410513, 0x00000593, 0x05d00893, 0x00000073,
            ],
            &[],
            &[],
        ),
        Step::Same("OUT", "DUE"),
        // A block that the run does not enter is renamed too.
        Step::Clear,
        Step::Executable(
            "F",
            &[0x0100006f, 0x00128293, 0x00512023, 0x00100073, 0x00100073],
            &[],
            &[],
        ),
        Step::Call("rename F OUT", 0, b"renamed 1 blocks 1\n"),
        Step::Executable(
            "DUE",
            &[0x0100006f, 0x00128093, 0x00112023, 0x00100073, 0x00100073],
            &[],
            &[],
        ),
        Step::Same("OUT", "DUE"),
        // Calls of two functions through a table, with a word that is put: what moves depends on no step of the run.
        Step::Clear,
        CALLS_AS_F,
        Step::Call("rename F N", 0, b"renamed 4 blocks 3\n"),
        Step::Clear,
        CALLS_AS_F,
        Step::Call("rename --steps=1 F N", 0, b"renamed 4 blocks 3\n"),
        Step::Clear,
        CALLS_AS_F,
        Step::Call("rename F N --leader 0x12", 0, b"renamed 4 blocks 3\n"),
    ]
}

#[test]
fn renamed_texts(rt: HostRuntime) -> Result<(), AllocError> {
    expect(&rt, renamings())
}

/// Both run alike, and the sums can become one instruction where the load is out of their way.
fn calls_of_both() -> &'static [Step] {
    &[
        Step::Executable("F", SUMS, &[], &[]),
        Step::Call(
            "find F N U L R --out 1",
            0,
            b"cuts 0 units 0 skipped 0 gain 0\n",
        ),
        Step::Clear,
        Step::Executable("F", RENAMED_SUMS, &[], &[]),
        Step::Call(
            "find F N U L R --out 1",
            0,
            b"cuts 1 units 1 skipped 0 gain 1\n",
        ),
        Step::Clear,
        Step::Executable("F", SUMS, &[], &[]),
        Step::Call("run F", 0, b"end access 00000000 4 steps 2 cost 3\n"),
        Step::Executable("F", RENAMED_SUMS, &[], &[]),
        Step::Call("run F", 0, b"end access 00000000 4 steps 2 cost 3\n"),
    ]
}

#[test]
fn sums_around_a_load(rt: HostRuntime) -> Result<(), AllocError> {
    expect(&rt, calls_of_both())
}

/// Calls that are refused.
fn refused() -> &'static [Step] {
    &[
        // Words that read as no command, and no file.
        Step::Call("rename F", 1, b"fault 1 usage\n"),
        Step::Call("rename F F", 1, b"fault 1 usage\n"),
        Step::Call("rename F OUT X", 1, b"fault 1 usage\n"),
        Step::Call("rename F OUT --table T", 1, b"fault 1 usage\n"),
        Step::Call("rename F OUT --budget 1", 1, b"fault 1 usage\n"),
        Step::Call("rename F OUT --steps 0", 1, b"fault 1 usage\n"),
        Step::Call("rename F OUT --leader 12", 1, b"fault 1 usage\n"),
        Step::Call("rename F OUT --input", 1, b"fault 1 usage\n"),
        Step::Call("rename F OUT --input OUT", 1, b"fault 1 usage\n"),
        Step::Call("rename F OUT", 2, b"fault 2 read F\n"),
        Step::File("F", b""),
        Step::Call("rename F OUT", 5, b"fault 5 elf 1 0 0\n"),
        // A word of a custom opcode, and a program that loads from its own text.
        Step::Executable("F", &[0x0000000b], &[], &[]),
        Step::Call(
            "rename F OUT",
            7,
            b"fault 7 unsupported 00010074 0000000b\n",
        ),
        Step::Executable("F", &[0x00000297, 0x0002a303, 0x00100073], &[], &[]),
        Step::Call(
            "rename F OUT",
            8,
            b"fault 8 text touched 00010078 00010074\n",
        ),
        // What is refused for its input, or for a read or a write that fails.
        Step::Executable("F", SUMS, &[], &[]),
        Step::Call("rename F OUT --input I", 2, b"fault 2 read I\n"),
        Step::File("I", b"input"),
        Step::Failing(1, "rename F OUT --input I", 2, b"fault 2 read F\n"),
        Step::Failing(3, "rename F OUT --input I", 3, b"fault 3 write OUT\n"),
    ]
}

#[test]
fn renamings_that_are_refused(rt: HostRuntime) -> Result<(), AllocError> {
    expect(&rt, refused())
}
