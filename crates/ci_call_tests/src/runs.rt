//! Worked calls of `run`, and of `best` with a table, over several files in memory.
use crate::common::{BREAK_AS_F, CALLS_AS_F, SUMS_AS_F, Step, expect};
use std::alloc::AllocError;

/// What the calls put, and the end line.
const TEXT_OF_CALLS: &[u8] = b"\xe8\x1d\x00\x00end exit 00000000 steps 61 cost 75\n";

/// The same where a jump costs twelve: there are eight.
const DEAR_TEXT_OF_CALLS: &[u8] = b"\xe8\x1d\x00\x00end exit 00000000 steps 61 cost 155\n";

/// Puts up to sixteen bytes of its input, and ends.
const ECHO: Step = Step::Executable(
    "F",
    &[
        0x00000513, // addi x10, x0, 0
        0x000205b7, // lui x11, 0x20
        0x01000613, // addi x12, x0, 16
        0x03f00893, // addi x17, x0, 63
        0x00000073, // ecall
        0x00050613, // addi x12, x10, 0
        0x00100513, // addi x10, x0, 1
        0x04000893, // addi x17, x0, 64
        0x00000073, // ecall
        0x00100073, // ebreak
    ],
    &[],
    &[0, 0, 0, 0],
);

/// Texts that end in each way, or not at all, and runs with output and with input.
fn ends() -> &'static [Step] {
    &[
        Step::Executable("F", &[0x0000006F], &[], &[]),
        Step::Call("run F --steps 3", 0, b"end limit steps 3 cost 6\n"),
        Step::Executable("F", &[0x00200067], &[], &[]),
        Step::Call("run F", 0, b"end misaligned 00000002 steps 1 cost 2\n"),
        Step::Executable("F", &[0x00000013], &[], &[]),
        Step::Call("run F", 0, b"end fetch 00010078 steps 2 cost 0\n"),
        Step::Executable("F", &[0x0000000B], &[], &[]),
        Step::Call("run F", 0, b"end illegal 0000000b steps 1 cost 0\n"),
        Step::Executable("F", &[0x00000297, 0x0002A303, 0x00100073], &[], &[]),
        Step::Call("run F", 0, b"end break steps 3 cost 4\n"),
        Step::Executable(
            "F",
            &[0x00B502B3, 0x00002303, 0x00C28533, 0x05D00893, 0x00000073],
            &[],
            &[],
        ),
        Step::Call("run F", 0, b"end access 00000000 4 steps 2 cost 3\n"),
        Step::Executable("F", &[0x00100073], &[], &[]),
        Step::Call("run F --steps 1", 0, b"end break steps 1 cost 1\n"),
        // A run with output.
        CALLS_AS_F,
        Step::Call("run F", 0, TEXT_OF_CALLS),
        Step::File("T", b"[software]\njump = 12\n"),
        Step::Call("run F --table T", 0, DEAR_TEXT_OF_CALLS),
        // A run without its input, and with it.
        Step::Clear,
        ECHO,
        Step::Call("run F", 0, b"end break steps 10 cost 10\n"),
        Step::File("I", b"hello\n\xff"),
        Step::Call(
            "run F --input I",
            0,
            b"hello\n\xffend break steps 10 cost 10\n",
        ),
    ]
}

#[test]
fn runs(rt: HostRuntime) -> Result<(), AllocError> {
    expect(&rt, ends())
}

/// Texts that are no tables, and what is said of them, and tables by which a cut gains more or less.
fn tables() -> &'static [Step] {
    &[
        // Texts that are no tables, of a run.
        BREAK_AS_F,
        Step::File("T", b"="),
        Step::Call("run F --table T", 6, b"fault 6 table 1\n"),
        Step::File("T", b"x"),
        Step::Call("run F --table T", 6, b"fault 6 table 1\n"),
        Step::File("T", b"reed = 1"),
        Step::Call("run F --table T", 6, b"fault 6 table 2\n"),
        Step::File("T", b"[hardware]\nload = 1"),
        Step::Call("run F --table T", 6, b"fault 6 table 2\n"),
        Step::File("T", b"read = 0"),
        Step::Call("run F --table T", 6, b"fault 6 table 3 read\n"),
        Step::File("T", b"software = 1"),
        Step::Call("run F --table T", 6, b"fault 6 table 3 software\n"),
        Step::File("T", b"[software]\nadd = 0"),
        Step::Call("run F --table T", 6, b"fault 6 table 3 software.add\n"),
        Step::File("T", b"pad = 2"),
        Step::Call("run F --table T", 6, b"fault 6 table 4 software.add\n"),
        // The same of a block.
        SUMS_AS_F,
        Step::File("T", b"="),
        Step::Call("best F --table T", 6, b"fault 6 table 1\n"),
        Step::File("T", b"x"),
        Step::Call("best F --table T", 6, b"fault 6 table 1\n"),
        Step::File("T", b"reed = 1"),
        Step::Call("best F --table T", 6, b"fault 6 table 2\n"),
        Step::File("T", b"[hardware]\nload = 1"),
        Step::Call("best F --table T", 6, b"fault 6 table 2\n"),
        Step::File("T", b"read = 0"),
        Step::Call("best F --table T", 6, b"fault 6 table 3 read\n"),
        Step::File("T", b"software = 1"),
        Step::Call("best F --table T", 6, b"fault 6 table 3 software\n"),
        Step::File("T", b"[software]\nadd = 0"),
        Step::Call("best F --table T", 6, b"fault 6 table 3 software.add\n"),
        Step::File("T", b"pad = 2"),
        Step::Call("best F --table T", 6, b"fault 6 table 4 software.add\n"),
        // Tables by which the cut of two sums gains more or less.
        Step::File("T", b""),
        Step::Call("best F --out 1 --table T", 0, b"cut 0 1 gain 1\n"),
        Step::File("T", b"[software]\nadd = 3\n"),
        Step::Call("best F --out 1 --table T", 0, b"cut 0 1 gain 5\n"),
        Step::File("T", b"[hardware]\nadd = 501\n"),
        Step::Call("best F --out 1 --table T", 0, b"no cut\n"),
        Step::File("T", b"pad = 1\n"),
        Step::Call("best F --out 1 --table T", 0, b"no cut\n"),
    ]
}

#[test]
fn blocks_and_runs_by_tables(rt: HostRuntime) -> Result<(), AllocError> {
    expect(&rt, tables())
}

/// A run with a table and an input, and one with units too.
const RUN: &str = "run F --input I --table T";

const RUN_OF_ALL: &str = "run F --input I --table T --units U";

/// Each file is read, and its form tested, before the next: the executable, the table and then the input.
fn files_by_their_order() -> &'static [Step] {
    &[
        Step::Call(RUN, 2, b"fault 2 read F\n"),
        Step::File("F", b"x"),
        Step::Call(RUN, 5, b"fault 5 elf 1 0 0\n"),
        BREAK_AS_F,
        Step::File("I", b""),
        Step::Call(RUN, 2, b"fault 2 read T\n"),
        Step::Clear,
        BREAK_AS_F,
        Step::File("T", b"read = 0"),
        Step::Call(RUN, 6, b"fault 6 table 3 read\n"),
        Step::File("T", b""),
        Step::Call(RUN, 2, b"fault 2 read I\n"),
        Step::File("I", b""),
        Step::Call(RUN, 0, b"end break steps 1 cost 1\n"),
        // The form of the block comes after all files.
        Step::Clear,
        Step::File("F", b"\x13\x05"),
        Step::Call("best F --table T", 2, b"fault 2 read T\n"),
        Step::File("T", b"read = 0"),
        Step::Call("best F --table T", 6, b"fault 6 table 3 read\n"),
        Step::File("T", b""),
        Step::Call(
            "best F --table T",
            7,
            b"fault 7 unsupported 00000002 00000000\n",
        ),
        // The reads of the shelf from the second to the fourth are those of the units, of the table and of the input.
        Step::Clear,
        BREAK_AS_F,
        Step::File("T", b""),
        Step::File("I", b""),
        Step::File("U", b""),
        Step::Failing(2, RUN_OF_ALL, 2, b"fault 2 read U\n"),
        Step::Failing(3, RUN_OF_ALL, 2, b"fault 2 read T\n"),
        Step::Failing(4, RUN_OF_ALL, 2, b"fault 2 read I\n"),
    ]
}

#[test]
fn files_in_their_order(rt: HostRuntime) -> Result<(), AllocError> {
    expect(&rt, files_by_their_order())
}
