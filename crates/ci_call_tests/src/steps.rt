//! Runs of a few words: what instructions give, which of them end the run, and where the heap may end. The words are
//! from an assembler of LLVM, and what they do is the standard's.
use crate::common::{Step, expect};
use std::alloc::AllocError;

/// Programs that end with what an instruction gave as their exit code.
fn results() -> &'static [Step] {
    &[
        // lui x5, 0x81828; addi x5, x5, 0x384; sw x5, 0(x2); lb x10, 3(x2); addi x17, x0, 93; ecall
        Step::Executable(
            "F",
            &[
                0x818282b7, 0x38428293, 0x00512023, 0x00310503, 0x05d00893, 0x00000073,
            ],
            &[],
            &[],
        ),
        Step::Call("run F", 0, b"end exit ffffff81 steps 6 cost 7\n"),
        // The same with lbu x10, 3(x2); lh x10, 1(x2); lhu x10, 1(x2); and lw x10, 0(x2).
        Step::Executable(
            "F",
            &[
                0x818282b7, 0x38428293, 0x00512023, 0x00314503, 0x05d00893, 0x00000073,
            ],
            &[],
            &[],
        ),
        Step::Call("run F", 0, b"end exit 00000081 steps 6 cost 7\n"),
        Step::Executable(
            "F",
            &[
                0x818282b7, 0x38428293, 0x00512023, 0x00111503, 0x05d00893, 0x00000073,
            ],
            &[],
            &[],
        ),
        Step::Call("run F", 0, b"end exit ffff8283 steps 6 cost 7\n"),
        Step::Executable(
            "F",
            &[
                0x818282b7, 0x38428293, 0x00512023, 0x00115503, 0x05d00893, 0x00000073,
            ],
            &[],
            &[],
        ),
        Step::Call("run F", 0, b"end exit 00008283 steps 6 cost 7\n"),
        Step::Executable(
            "F",
            &[
                0x818282b7, 0x38428293, 0x00512023, 0x00012503, 0x05d00893, 0x00000073,
            ],
            &[],
            &[],
        ),
        Step::Call("run F", 0, b"end exit 81828384 steps 6 cost 7\n"),
        // addi x5, x0, -1; sw x5, 0(x2); sb x0, 1(x2); lw x10, 0(x2); addi x17, x0, 93; ecall; and the same with sh.
        Step::Executable(
            "F",
            &[
                0xfff00293, 0x00512023, 0x000100a3, 0x00012503, 0x05d00893, 0x00000073,
            ],
            &[],
            &[],
        ),
        Step::Call("run F", 0, b"end exit ffff00ff steps 6 cost 7\n"),
        Step::Executable(
            "F",
            &[
                0xfff00293, 0x00512023, 0x000110a3, 0x00012503, 0x05d00893, 0x00000073,
            ],
            &[],
            &[],
        ),
        Step::Call("run F", 0, b"end exit ff0000ff steps 6 cost 7\n"),
        // jal x10, 8; ebreak; addi x17, x0, 93; ecall
        Step::Executable(
            "F",
            &[0x0080056f, 0x00100073, 0x05d00893, 0x00000073],
            &[],
            &[],
        ),
        Step::Call("run F", 0, b"end exit 00010078 steps 3 cost 4\n"),
        // auipc x5, 0; jalr x5, 13(x5); ebreak; addi x10, x5, 0; addi x17, x0, 93; ecall
        Step::Executable(
            "F",
            &[
                0x00000297, 0x00d282e7, 0x00100073, 0x00028513, 0x05d00893, 0x00000073,
            ],
            &[],
            &[],
        ),
        Step::Call("run F", 0, b"end exit 0001007c steps 5 cost 6\n"),
        // auipc x10, 0xfffff; addi x17, x0, 93; ecall; and the same with lui.
        Step::Executable("F", &[0xfffff517, 0x05d00893, 0x00000073], &[], &[]),
        Step::Call("run F", 0, b"end exit 0000f074 steps 3 cost 3\n"),
        Step::Executable("F", &[0xfffff537, 0x05d00893, 0x00000073], &[], &[]),
        Step::Call("run F", 0, b"end exit fffff000 steps 3 cost 3\n"),
        // addi x0, x0, 5; lui x0, 1; add x10, x0, x0; addi x17, x0, 93; ecall
        Step::Executable(
            "F",
            &[0x00500013, 0x00001037, 0x00000533, 0x05d00893, 0x00000073],
            &[],
            &[],
        ),
        Step::Call("run F", 0, b"end exit 00000000 steps 5 cost 5\n"),
        // addi x10, x2, 0; addi x17, x0, 93; ecall
        Step::Executable("F", &[0x00010513, 0x05d00893, 0x00000073], &[], &[]),
        Step::Call("run F", 0, b"end exit 7ffffff0 steps 3 cost 3\n"),
        // ecall (call 0, which there is not); addi x17, x0, 93; ecall
        Step::Executable("F", &[0x00000073, 0x05d00893, 0x00000073], &[], &[]),
        Step::Call("run F", 0, b"end exit ffffffda steps 3 cost 3\n"),
        // addi x5, x0, -1; addi x6, x0, 1; then beq, bne, blt, bge, bltu, bgeu x5, x6, 8 and the same of x5, x5, each
        // with addi x10, x10, 1 or 2, 4 and so on behind it; addi x17, x0, 93; ecall: bits 0, 3, 4, 7, 8 and 10 are
        // those of the branches that are not taken.
        Step::Executable(
            "F",
            &[
                0xfff00293, 0x00100313, 0x00628463, 0x00150513, 0x00629463, 0x00250513, 0x0062c463,
                0x00450513, 0x0062d463, 0x00850513, 0x0062e463, 0x01050513, 0x0062f463, 0x02050513,
                0x00528463, 0x04050513, 0x00529463, 0x08050513, 0x0052c463, 0x10050513, 0x0052d463,
                0x20050513, 0x0052e463, 0x40050513, 0x0052f463, 0x80050513, 0x05d00893, 0x00000073,
            ],
            &[],
            &[],
        ),
        Step::Call("run F", 0, b"end exit 00000599 steps 22 cost 22\n"),
    ]
}

#[test]
fn results_of_instructions(rt: HostRuntime) -> Result<(), AllocError> {
    expect(&rt, results())
}

/// Words that end the run, beside some that don't.
fn ends() -> &'static [Step] {
    &[
        // Accesses to 0: lb x5, lhu x5, sb x5, sh x5, sw x5.
        Step::Executable("F", &[0x00000283], &[], &[]),
        Step::Call("run F", 0, b"end access 00000000 1 steps 1 cost 2\n"),
        Step::Executable("F", &[0x00005283], &[], &[]),
        Step::Call("run F", 0, b"end access 00000000 2 steps 1 cost 2\n"),
        Step::Executable("F", &[0x00500023], &[], &[]),
        Step::Call("run F", 0, b"end access 00000000 1 steps 1 cost 1\n"),
        Step::Executable("F", &[0x00501023], &[], &[]),
        Step::Call("run F", 0, b"end access 00000000 2 steps 1 cost 1\n"),
        Step::Executable("F", &[0x00502023], &[], &[]),
        Step::Call("run F", 0, b"end access 00000000 4 steps 1 cost 1\n"),
        // lw x5, 14(x2) and sw x5, 14(x2), of which two bytes are mapped; lw x5, -2(x0), which goes on at 0
        Step::Executable("F", &[0x00e12283], &[], &[]),
        Step::Call("run F", 0, b"end access 7ffffffe 4 steps 1 cost 2\n"),
        Step::Executable("F", &[0x00512723], &[], &[]),
        Step::Call("run F", 0, b"end access 7ffffffe 4 steps 1 cost 1\n"),
        Step::Executable("F", &[0xffe02283], &[], &[]),
        Step::Call("run F", 0, b"end access fffffffe 4 steps 1 cost 2\n"),
        // lbu x0, 0(x0); lw x0, -4(x0); and lw x0, 0(x2) before a break
        Step::Executable("F", &[0x00004003], &[], &[]),
        Step::Call("run F", 0, b"end access 00000000 1 steps 1 cost 2\n"),
        Step::Executable("F", &[0xffc02003], &[], &[]),
        Step::Call("run F", 0, b"end access fffffffc 4 steps 1 cost 2\n"),
        Step::Executable("F", &[0x00012003, 0x00100073], &[], &[]),
        Step::Call("run F", 0, b"end break steps 2 cost 3\n"),
        // jal x1, 2; jalr x1, 6(x0); jalr x1, 3(x0); jalr x1, 5(x0)
        Step::Executable("F", &[0x002000ef], &[], &[]),
        Step::Call("run F", 0, b"end misaligned 00010076 steps 1 cost 2\n"),
        Step::Executable("F", &[0x006000e7], &[], &[]),
        Step::Call("run F", 0, b"end misaligned 00000006 steps 1 cost 2\n"),
        Step::Executable("F", &[0x003000e7], &[], &[]),
        Step::Call("run F", 0, b"end misaligned 00000002 steps 1 cost 2\n"),
        Step::Executable("F", &[0x005000e7], &[], &[]),
        Step::Call("run F", 0, b"end fetch 00000004 steps 2 cost 2\n"),
        // beq x0, x0, 2; and bne x0, x0, 2 before a break
        Step::Executable("F", &[0x00000163], &[], &[]),
        Step::Call("run F", 0, b"end misaligned 00010076 steps 1 cost 1\n"),
        Step::Executable("F", &[0x00001163, 0x00100073], &[], &[]),
        Step::Call("run F", 0, b"end break steps 2 cost 2\n"),
        // lui x5, 0x10; jalr x0, 0(x5): what is mapped there is no text.
        Step::Executable("F", &[0x000102b7, 0x00028067], &[], &[]),
        Step::Call("run F", 0, b"end fetch 00010000 steps 3 cost 3\n"),
        // fence 4095, x31, x1 before a break, and a word that is ECALL but for rd
        Step::Executable("F", &[0xffff808f, 0x00100073], &[], &[]),
        Step::Call("run F", 0, b"end break steps 2 cost 2\n"),
        Step::Executable("F", &[0x000000f3], &[], &[]),
        Step::Call("run F", 0, b"end illegal 000000f3 steps 1 cost 0\n"),
        // auipc x5, 0; lw x0, 0(x5); ebreak: a load to x0 touches what it reads.
        Step::Executable("F", &[0x00000297, 0x0002a003, 0x00100073], &[], &[]),
        Step::Call(
            "find F N U L R",
            8,
            b"fault 8 text touched 00010078 00010074\n",
        ),
    ]
}

#[test]
fn instructions_that_end(rt: HostRuntime) -> Result<(), AllocError> {
    expect(&rt, ends())
}

/// auipc x5, 0; lw x10, 24(x5); addi x17, x0, 214; ecall; addi x17, x0, 93; ecall: asks for the end of the heap that
/// the word behind the text says, and exits with the answer.
const ASKING: &[u32] = &[
    0x00000297, 0x0182a503, 0x0d600893, 0x00000073, 0x05d00893, 0x00000073,
];

/// The second segment has four bytes in memory.
const SIZE_OF_SEGMENT: Step = Step::Words("F", 104, &[4]);

/// The end that the heap is to have, as the word behind the text; where a segment of four bytes lies beside that of the
/// text, which ends at 10090, as the word at 92; and which end the heap has then. The heap begins behind the last
/// segment, at a multiple of 16.
fn heaps() -> &'static [Step] {
    &[
        // Below its start, at it and above it.
        Step::Executable("F", ASKING, &[0x2000f], &[]),
        Step::Words("F", 92, &[0x20000]),
        SIZE_OF_SEGMENT,
        Step::Call("run F", 0, b"end exit 00020010 steps 6 cost 7\n"),
        Step::Executable("F", ASKING, &[0x20010], &[]),
        Step::Words("F", 92, &[0x20000]),
        SIZE_OF_SEGMENT,
        Step::Call("run F", 0, b"end exit 00020010 steps 6 cost 7\n"),
        Step::Executable("F", ASKING, &[0x20011], &[]),
        Step::Words("F", 92, &[0x20000]),
        SIZE_OF_SEGMENT,
        Step::Call("run F", 0, b"end exit 00020011 steps 6 cost 7\n"),
        Step::Executable("F", ASKING, &[0x20020], &[]),
        Step::Words("F", 92, &[0x2000d]),
        SIZE_OF_SEGMENT,
        Step::Call("run F", 0, b"end exit 00020020 steps 6 cost 7\n"),
        Step::Executable("F", ASKING, &[0x2001f], &[]),
        Step::Words("F", 92, &[0x2000d]),
        SIZE_OF_SEGMENT,
        Step::Call("run F", 0, b"end exit 00020020 steps 6 cost 7\n"),
        // The segment lies below that of the text: between them there is no heap.
        Step::Executable("F", ASKING, &[0x01010], &[]),
        Step::Words("F", 92, &[0x01000]),
        SIZE_OF_SEGMENT,
        Step::Call("run F", 0, b"end exit 00010090 steps 6 cost 7\n"),
        Step::Executable("F", ASKING, &[0x10091], &[]),
        Step::Words("F", 92, &[0x01000]),
        SIZE_OF_SEGMENT,
        Step::Call("run F", 0, b"end exit 00010091 steps 6 cost 7\n"),
        // Below FFFF0000, at it and above it.
        Step::Executable("F", ASKING, &[0xfffe_ffff], &[]),
        Step::Words("F", 92, &[0xfffe_0000]),
        SIZE_OF_SEGMENT,
        Step::Call("run F", 0, b"end exit fffeffff steps 6 cost 7\n"),
        Step::Executable("F", ASKING, &[0xffff_0000], &[]),
        Step::Words("F", 92, &[0xfffe_0000]),
        SIZE_OF_SEGMENT,
        Step::Call("run F", 0, b"end exit ffff0000 steps 6 cost 7\n"),
        Step::Executable("F", ASKING, &[0xffff_0001], &[]),
        Step::Words("F", 92, &[0xfffe_0000]),
        SIZE_OF_SEGMENT,
        Step::Call("run F", 0, b"end exit fffe0010 steps 6 cost 7\n"),
        Step::Executable("F", ASKING, &[0xffff_ffff], &[]),
        Step::Words("F", 92, &[0xfffe_0000]),
        SIZE_OF_SEGMENT,
        Step::Call("run F", 0, b"end exit fffe0010 steps 6 cost 7\n"),
        // Below the stack, at its front, in it, at its end and above it.
        Step::Executable("F", ASKING, &[0x7fef_ffff], &[]),
        Step::Words("F", 92, &[0x7fef_0000]),
        SIZE_OF_SEGMENT,
        Step::Call("run F", 0, b"end exit 7fefffff steps 6 cost 7\n"),
        Step::Executable("F", ASKING, &[0x7ff0_0000], &[]),
        Step::Words("F", 92, &[0x7fef_0000]),
        SIZE_OF_SEGMENT,
        Step::Call("run F", 0, b"end exit 7ff00000 steps 6 cost 7\n"),
        Step::Executable("F", ASKING, &[0x7ff0_0001], &[]),
        Step::Words("F", 92, &[0x7fef_0000]),
        SIZE_OF_SEGMENT,
        Step::Call("run F", 0, b"end exit 7fef0010 steps 6 cost 7\n"),
        Step::Executable("F", ASKING, &[0x8000_0000], &[]),
        Step::Words("F", 92, &[0x7fef_0000]),
        SIZE_OF_SEGMENT,
        Step::Call("run F", 0, b"end exit 7fef0010 steps 6 cost 7\n"),
        Step::Executable("F", ASKING, &[0x8000_0001], &[]),
        Step::Words("F", 92, &[0x7fef_0000]),
        SIZE_OF_SEGMENT,
        Step::Call("run F", 0, b"end exit 7fef0010 steps 6 cost 7\n"),
        // The heap begins where the stack does.
        Step::Executable("F", ASKING, &[0x7ff0_0000], &[]),
        Step::Words("F", 92, &[0x7fef_fff0]),
        SIZE_OF_SEGMENT,
        Step::Call("run F", 0, b"end exit 7ff00000 steps 6 cost 7\n"),
        Step::Executable("F", ASKING, &[0x7ff0_0001], &[]),
        Step::Words("F", 92, &[0x7fef_fff0]),
        SIZE_OF_SEGMENT,
        Step::Call("run F", 0, b"end exit 7ff00000 steps 6 cost 7\n"),
        Step::Executable("F", ASKING, &[0x8000_0000], &[]),
        Step::Words("F", 92, &[0x7fef_fff0]),
        SIZE_OF_SEGMENT,
        Step::Call("run F", 0, b"end exit 7ff00000 steps 6 cost 7\n"),
        // Behind the stack.
        Step::Executable("F", ASKING, &[0x8000_0011], &[]),
        Step::Words("F", 92, &[0x8000_0000]),
        SIZE_OF_SEGMENT,
        Step::Call("run F", 0, b"end exit 80000011 steps 6 cost 7\n"),
        Step::Executable("F", ASKING, &[0x7ff0_0000], &[]),
        Step::Words("F", 92, &[0x8000_0000]),
        SIZE_OF_SEGMENT,
        Step::Call("run F", 0, b"end exit 80000010 steps 6 cost 7\n"),
    ]
}

#[test]
fn ends_of_the_heap(rt: HostRuntime) -> Result<(), AllocError> {
    expect(&rt, heaps())
}
