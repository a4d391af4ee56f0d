//! Each key of a latency table: what it makes of a run and of a cut, and the line of a value out of its range.
use crate::common::{BREAK_AS_F, Step, expect};
use std::alloc::AllocError;

/// A run by a table.
const RUN: &str = "run F --table T";

/// The best cut of a block by a table.
const BEST: &str = "best F --out 1 --table T";

/// For each key of `software`, all instructions of its class and a break, and the end line where the key is 100. By
/// default a break costs 1.
fn costs() -> &'static [Step] {
    &[
        // The classes of operations, which a cut may take in but for divisions.
        // add x5, x0, x0; sub x5, x0, x0; addi x5, x0, 1
        Step::Executable(
            "F",
            &[0x000002b3, 0x400002b3, 0x00100293, 0x00100073],
            &[],
            &[],
        ),
        Step::File("T", b"[software]\nadd = 100\n"),
        Step::Call(RUN, 0, b"end break steps 4 cost 301\n"),
        // and x5, x6, x7; or x5, x6, x7; xor x5, x6, x7; andi x5, x6, 1; ori x5, x6, 1; xori x5, x6, 1
        Step::Executable(
            "F",
            &[
                0x007372b3, 0x007362b3, 0x007342b3, 0x00137293, 0x00136293, 0x00134293, 0x00100073,
            ],
            &[],
            &[],
        ),
        Step::File("T", b"[software]\nlogic = 100\n"),
        Step::Call(RUN, 0, b"end break steps 7 cost 601\n"),
        // sll x5, x6, x7; srl x5, x6, x7; sra x5, x6, x7
        Step::Executable(
            "F",
            &[0x007312b3, 0x007352b3, 0x407352b3, 0x00100073],
            &[],
            &[],
        ),
        Step::File("T", b"[software]\nshift = 100\n"),
        Step::Call(RUN, 0, b"end break steps 4 cost 301\n"),
        // slli x5, x6, 1; srli x5, x6, 1; srai x5, x6, 1
        Step::Executable(
            "F",
            &[0x00131293, 0x00135293, 0x40135293, 0x00100073],
            &[],
            &[],
        ),
        Step::File("T", b"[software]\nshift_const = 100\n"),
        Step::Call(RUN, 0, b"end break steps 4 cost 301\n"),
        // slt x5, x6, x7; sltu x5, x6, x7; slti x5, x6, 1; sltiu x5, x6, 1
        Step::Executable(
            "F",
            &[0x007322b3, 0x007332b3, 0x00132293, 0x00133293, 0x00100073],
            &[],
            &[],
        ),
        Step::File("T", b"[software]\ncompare = 100\n"),
        Step::Call(RUN, 0, b"end break steps 5 cost 401\n"),
        // lui x5, 1
        Step::Executable("F", &[0x000012b7, 0x00100073], &[], &[]),
        Step::File("T", b"[software]\nlui = 100\n"),
        Step::Call(RUN, 0, b"end break steps 2 cost 101\n"),
        // mul x5, x6, x7
        Step::Executable("F", &[0x027302b3, 0x00100073], &[], &[]),
        Step::File("T", b"[software]\nmul = 100\n"),
        Step::Call(RUN, 0, b"end break steps 2 cost 101\n"),
        // mulh x5, x6, x7; mulhsu x5, x6, x7; mulhu x5, x6, x7
        Step::Executable(
            "F",
            &[0x027312b3, 0x027322b3, 0x027332b3, 0x00100073],
            &[],
            &[],
        ),
        Step::File("T", b"[software]\nmulh = 100\n"),
        Step::Call(RUN, 0, b"end break steps 4 cost 301\n"),
        // div x5, x6, x7; divu x5, x6, x7; rem x5, x6, x7; remu x5, x6, x7
        Step::Executable(
            "F",
            &[0x027342b3, 0x027352b3, 0x027362b3, 0x027372b3, 0x00100073],
            &[],
            &[],
        ),
        Step::File("T", b"[software]\ndiv = 100\n"),
        Step::Call(RUN, 0, b"end break steps 5 cost 401\n"),
        // The other classes.
        // lb, lh, lw, lbu, lhu x5, 0(x2)
        Step::Executable(
            "F",
            &[
                0x00010283, 0x00011283, 0x00012283, 0x00014283, 0x00015283, 0x00100073,
            ],
            &[],
            &[],
        ),
        Step::File("T", b"[software]\nload = 100\n"),
        Step::Call(RUN, 0, b"end break steps 6 cost 501\n"),
        // sb, sh, sw x5, 0(x2)
        Step::Executable(
            "F",
            &[0x00510023, 0x00511023, 0x00512023, 0x00100073],
            &[],
            &[],
        ),
        Step::File("T", b"[software]\nstore = 100\n"),
        Step::Call(RUN, 0, b"end break steps 4 cost 301\n"),
        // beq, bne, blt, bge, bltu, bgeu x0, x0, 4
        Step::Executable(
            "F",
            &[
                0x00000263, 0x00001263, 0x00004263, 0x00005263, 0x00006263, 0x00007263, 0x00100073,
            ],
            &[],
            &[],
        ),
        Step::File("T", b"[software]\nbranch = 100\n"),
        Step::Call(RUN, 0, b"end break steps 7 cost 601\n"),
        // jal x1, 4; jalr x0, 4(x1)
        Step::Executable("F", &[0x004000ef, 0x00408067, 0x00100073], &[], &[]),
        Step::File("T", b"[software]\njump = 100\n"),
        Step::Call(RUN, 0, b"end break steps 3 cost 201\n"),
        // auipc x5, 0
        Step::Executable("F", &[0x00000297, 0x00100073], &[], &[]),
        Step::File("T", b"[software]\nauipc = 100\n"),
        Step::Call(RUN, 0, b"end break steps 2 cost 101\n"),
        // fence 255, x0, x0
        Step::Executable("F", &[0x0ff0000f, 0x00100073], &[], &[]),
        Step::File("T", b"[software]\nfence = 100\n"),
        Step::Call(RUN, 0, b"end break steps 2 cost 101\n"),
        // ecall
        Step::Executable("F", &[0x00000073, 0x00100073], &[], &[]),
        Step::File("T", b"[software]\nsystem = 100\n"),
        Step::Call(RUN, 0, b"end break steps 2 cost 200\n"),
        // The no-op 00000013 and a break.
        Step::Executable("F", &[0x00000013, 0x00100073], &[], &[]),
        Step::File("T", b"pad = 1\n"),
        Step::Call(RUN, 0, b"end break steps 2 cost 2\n"),
    ]
}

#[test]
fn latencies_of_each_class(rt: HostRuntime) -> Result<(), AllocError> {
    expect(&rt, costs())
}

/// For each key of `hardware`, a chain of the instructions of its class with a delay, the best cut of the chain by
/// default, and that there is none where the delay is so great that no cut of the chain gains.
fn delays() -> &'static [Step] {
    &[
        // add x5, x10, x11; sub x5, x5, x12; addi x5, x5, 1
        Step::File("F", b"\xb3\x02\xb5\x00\xb3\x82\xc2\x40\x93\x82\x12\x00"),
        Step::File("T", b""),
        Step::Call(BEST, 0, b"cut 0 1 2 gain 1\n"),
        Step::File("T", b"[hardware]\nadd = 1000\n"),
        Step::Call(BEST, 0, b"no cut\n"),
        // and x5, x10, x11; or x5, x5, x12; xor x5, x5, x10; andi x5, x5, 1; ori x5, x5, 1; xori x5, x5, 1
        Step::File(
            "F",
            b"\xb3\x72\xb5\x00\xb3\xe2\xc2\x00\
            \xb3\xc2\xa2\x00\x93\xf2\x12\x00\x93\xe2\x12\x00\x93\xc2\x12\x00",
        ),
        Step::File("T", b""),
        Step::Call(BEST, 0, b"cut 0 1 2 3 4 5 gain 5\n"),
        Step::File("T", b"[hardware]\nlogic = 1000\n"),
        Step::Call(BEST, 0, b"no cut\n"),
        // sll x5, x10, x11; srl x5, x5, x12; sra x5, x5, x10
        Step::File("F", b"\xb3\x12\xb5\x00\xb3\xd2\xc2\x00\xb3\xd2\xa2\x40"),
        Step::File("T", b""),
        Step::Call(BEST, 0, b"cut 0 1 2 gain 2\n"),
        Step::File("T", b"[hardware]\nshift = 1000\n"),
        Step::Call(BEST, 0, b"no cut\n"),
        // slli x5, x10, 1; srli x5, x5, 1; srai x5, x5, 1
        Step::File("F", b"\x93\x12\x15\x00\x93\xd2\x12\x00\x93\xd2\x12\x40"),
        Step::File("T", b""),
        Step::Call(BEST, 0, b"cut 0 1 2 gain 2\n"),
        Step::File("T", b"[hardware]\nshift_const = 1000\n"),
        Step::Call(BEST, 0, b"no cut\n"),
        // slt x5, x10, x11; sltu x5, x5, x12; slti x5, x5, 1; sltiu x5, x5, 1
        Step::File(
            "F",
            b"\xb3\x22\xb5\x00\xb3\xb2\xc2\x00\x93\xa2\x12\x00\x93\xb2\x12\x00",
        ),
        Step::File("T", b""),
        Step::Call(BEST, 0, b"cut 0 1 2 3 gain 2\n"),
        Step::File("T", b"[hardware]\ncompare = 1000\n"),
        Step::Call(BEST, 0, b"no cut\n"),
        // lui x5, 0x12345; addi x5, x5, 1656
        Step::File("F", b"\xb7\x52\x34\x12\x93\x82\x82\x67"),
        Step::File("T", b""),
        Step::Call(BEST, 0, b"cut 0 1 gain 1\n"),
        Step::File("T", b"[hardware]\nlui = 1000\n"),
        Step::Call(BEST, 0, b"no cut\n"),
        // mul x5, x10, x11; mul x5, x5, x12
        Step::File("F", b"\xb3\x02\xb5\x02\xb3\x82\xc2\x02"),
        Step::File("T", b""),
        Step::Call(BEST, 0, b"cut 0 1 gain 1\n"),
        Step::File("T", b"[hardware]\nmul = 3000\n"),
        Step::Call(BEST, 0, b"no cut\n"),
        // mulh x5, x10, x11; mulhsu x5, x5, x12; mulhu x5, x5, x10
        Step::File("F", b"\xb3\x12\xb5\x02\xb3\xa2\xc2\x02\xb3\xb2\xa2\x02"),
        Step::File("T", b""),
        Step::Call(BEST, 0, b"cut 0 1 2 gain 2\n"),
        Step::File("T", b"[hardware]\nmulh = 3000\n"),
        Step::Call(BEST, 0, b"no cut\n"),
        // What a cut with two outputs is charged: xor x5, x10, x11; xor x6, x5, x12; xor x6, x6, x10; xor x6, x6, x11
        Step::File(
            "F",
            b"\xb3\x42\xb5\x00\x33\xc3\xc2\x00\x33\x43\xa3\x00\x33\x43\xb3\x00",
        ),
        Step::File("T", b""),
        Step::Call("best F --table T", 0, b"cut 0 1 2 3 gain 2\n"),
        Step::File("T", b"read = 2\n"),
        Step::Call("best F --table T", 0, b"cut 0 1 2 3 gain 1\n"),
        Step::File("T", b"pad = 1\n"),
        Step::Call("best F --table T", 0, b"no cut\n"),
    ]
}

#[test]
fn delays_of_each_class(rt: HostRuntime) -> Result<(), AllocError> {
    expect(&rt, delays())
}

/// For each key, the line of a value one below its least or one above its greatest.
fn names() -> &'static [Step] {
    &[
        BREAK_AS_F,
        // Keys of `software`: operations, and the others.
        Step::File("T", b"[software]\nadd = 0\n"),
        Step::Call(RUN, 6, b"fault 6 table 3 software.add\n"),
        Step::File("T", b"[software]\nlogic = 0\n"),
        Step::Call(RUN, 6, b"fault 6 table 3 software.logic\n"),
        Step::File("T", b"[software]\nshift = 0\n"),
        Step::Call(RUN, 6, b"fault 6 table 3 software.shift\n"),
        Step::File("T", b"[software]\nshift_const = 0\n"),
        Step::Call(RUN, 6, b"fault 6 table 3 software.shift_const\n"),
        Step::File("T", b"[software]\ncompare = 0\n"),
        Step::Call(RUN, 6, b"fault 6 table 3 software.compare\n"),
        Step::File("T", b"[software]\nlui = 0\n"),
        Step::Call(RUN, 6, b"fault 6 table 3 software.lui\n"),
        Step::File("T", b"[software]\nmul = 0\n"),
        Step::Call(RUN, 6, b"fault 6 table 3 software.mul\n"),
        Step::File("T", b"[software]\nmulh = 0\n"),
        Step::Call(RUN, 6, b"fault 6 table 3 software.mulh\n"),
        Step::File("T", b"[software]\ndiv = 0\n"),
        Step::Call(RUN, 6, b"fault 6 table 3 software.div\n"),
        Step::File("T", b"[software]\nload = 1001\n"),
        Step::Call(RUN, 6, b"fault 6 table 3 software.load\n"),
        Step::File("T", b"[software]\nstore = 1001\n"),
        Step::Call(RUN, 6, b"fault 6 table 3 software.store\n"),
        Step::File("T", b"[software]\nbranch = 1001\n"),
        Step::Call(RUN, 6, b"fault 6 table 3 software.branch\n"),
        Step::File("T", b"[software]\njump = 1001\n"),
        Step::Call(RUN, 6, b"fault 6 table 3 software.jump\n"),
        Step::File("T", b"[software]\nauipc = 1001\n"),
        Step::Call(RUN, 6, b"fault 6 table 3 software.auipc\n"),
        Step::File("T", b"[software]\nfence = 1001\n"),
        Step::Call(RUN, 6, b"fault 6 table 3 software.fence\n"),
        Step::File("T", b"[software]\nsystem = 1001\n"),
        Step::Call(RUN, 6, b"fault 6 table 3 software.system\n"),
        // Keys of `hardware`.
        Step::File("T", b"[hardware]\nadd = 100001\n"),
        Step::Call(RUN, 6, b"fault 6 table 3 hardware.add\n"),
        Step::File("T", b"[hardware]\nlogic = 100001\n"),
        Step::Call(RUN, 6, b"fault 6 table 3 hardware.logic\n"),
        Step::File("T", b"[hardware]\nshift = 100001\n"),
        Step::Call(RUN, 6, b"fault 6 table 3 hardware.shift\n"),
        Step::File("T", b"[hardware]\nshift_const = 100001\n"),
        Step::Call(RUN, 6, b"fault 6 table 3 hardware.shift_const\n"),
        Step::File("T", b"[hardware]\ncompare = 100001\n"),
        Step::Call(RUN, 6, b"fault 6 table 3 hardware.compare\n"),
        Step::File("T", b"[hardware]\nlui = 100001\n"),
        Step::Call(RUN, 6, b"fault 6 table 3 hardware.lui\n"),
        Step::File("T", b"[hardware]\nmul = 100001\n"),
        Step::Call(RUN, 6, b"fault 6 table 3 hardware.mul\n"),
        Step::File("T", b"[hardware]\nmulh = 100001\n"),
        Step::Call(RUN, 6, b"fault 6 table 3 hardware.mulh\n"),
    ]
}

#[test]
fn names_of_keys(rt: HostRuntime) -> Result<(), AllocError> {
    expect(&rt, names())
}
