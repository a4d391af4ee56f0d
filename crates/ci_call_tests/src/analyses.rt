//! Worked calls of `blocks`, and of `best` on blocks of executables, over a file in memory.
use crate::common::{CALLS_AS_F, Step, expect};
use std::alloc::AllocError;

/// The blocks of the calls of two functions through a table.
const LINES_OF_CALLS: &[u8] = b"block 00010074 length 3 live 11 12
block 00010080 length 3 live 8 9 11 12 18
block 0001008c length 4 live 1 8 9 10 11 12
block 0001009c length 7 live 1 8 9 18
block 000100b8 length 3 live 1 8 9 11 12 18
block 000100c4 length 4 live 1 8 9 10 11 12 18
block 000100d4 length 6 live 1 8 9 10 11 12 18
";

/// The calls' blocks, and their best cuts.
fn of_calls() -> &'static [Step] {
    &[
        CALLS_AS_F,
        Step::Call("blocks F", 0, LINES_OF_CALLS),
        // Addresses that are no words of the text are passed over.
        Step::Call(
            "blocks --leader 0x10076 F --leader=0x100EC --leader 0x0",
            0,
            LINES_OF_CALLS,
        ),
        Step::Call("best F --at 0x100c4", 0, b"cut 0 1 2 gain 2\n"),
        Step::Call(
            "best F --at 0x100c8",
            7,
            b"fault 7 unsupported 000100c8 00000000\n",
        ),
        Step::Call(
            "best F --leader 0x100DC --at 0x100dc",
            0,
            b"cut 0 1 2 gain 2\n",
        ),
        Step::Call("best F --at 0x100d4 --leader 0x100dc", 0, b"no cut\n"),
        Step::Call("best F --at 0x100d4 --in 1", 0, b"cut 3 4 gain 1\n"),
    ]
}

#[test]
fn blocks_of_calls(rt: HostRuntime) -> Result<(), AllocError> {
    expect(&rt, of_calls())
}

/// Four words that do nothing, `addi x0, x0, 0`.
const FOUR: Step = Step::Executable(
    "F",
    &[0x00000013, 0x00000013, 0x00000013, 0x00000013],
    &[],
    &[],
);

/// Two words that do nothing, and two more as constants.
const TWO_AND_TWO: Step = Step::Executable(
    "F",
    &[0x00000013, 0x00000013],
    &[0x00000013, 0x00000013],
    &[],
);

/// Each rule makes some words leaders, and not those beside them. The word 00000013 does nothing.
fn leaders() -> &'static [Step] {
    &[
        // The entry, which is the first word.
        FOUR,
        Step::Call("blocks F", 0, b"block 00010074 length 4 live\n"),
        // The target of a jump, which goes over the next word, and that word. The same of a branch that is taken.
        Step::Executable(
            "F",
            &[0x0080006F, 0x00000013, 0x00000013, 0x00000013],
            &[],
            &[],
        ),
        Step::Call(
            "blocks F",
            0,
            b"block 00010074 length 1 live
block 00010078 length 1 live
block 0001007c length 2 live
",
        ),
        Step::Executable(
            "F",
            &[0x00000463, 0x00000013, 0x00000013, 0x00000013],
            &[],
            &[],
        ),
        Step::Call(
            "blocks F",
            0,
            b"block 00010074 length 1 live
block 00010078 length 1 live
block 0001007c length 2 live
",
        ),
        // The word behind another terminator, `fence 0, x0, x0`.
        Step::Executable(
            "F",
            &[0x00000013, 0x0000000F, 0x00000013, 0x00000013],
            &[],
            &[],
        ),
        Step::Call(
            "blocks F",
            0,
            b"block 00010074 length 2 live\nblock 0001007c length 2 live\n",
        ),
        // A data word, and one that is no multiple of four.
        Step::Executable(
            "F",
            &[0x00000013, 0x00000013, 0x00000013, 0x00000013],
            &[],
            &[0x00010078, 0x0001007E],
        ),
        Step::Call(
            "blocks F",
            0,
            b"block 00010074 length 1 live\nblock 00010078 length 3 live\n",
        ),
        // A word of the text with an address, which is no instruction.
        Step::Executable(
            "F",
            &[0x00000013, 0x00010080, 0x00000013, 0x00000013],
            &[],
            &[],
        ),
        Step::Call(
            "blocks F",
            0,
            b"block 00010074 length 2 live\nblock 0001007c length 2 live\n",
        ),
        // The entry, which is the third word.
        FOUR,
        Step::Words("F", 24, &[0x1007c]),
        Step::Call("blocks F", 0, b"block 0001007c length 2 live\n"),
        // A data word, of which three bytes are loaded.
        Step::Executable(
            "F",
            &[0x00000013, 0x00000013, 0x00000013, 0x00000013],
            &[],
            &[0x10078],
        ),
        Step::Words("F", 100, &[3]),
        Step::Call("blocks F", 0, b"block 00010074 length 4 live\n"),
        // A symbol, and others beside it: the values are a symbol table that no segment loads. The word at 84 makes
        // program header 1 none to load; the section headers begin at 180, and the others are in them at 124 and 156.
        Step::Executable(
            "F",
            &[0x00000013, 0x00000013, 0x00000013, 0x00000013],
            &[],
            &[0, 0x10078, 0, 0, 0, 0x1007e, 0, 0, 0, 0x10084, 0, 0],
        ),
        Step::Words("F", 84, &[0]),
        Step::Words("F", 304, &[2]),
        Step::Words("F", 336, &[16]),
        Step::Call(
            "blocks F",
            0,
            b"block 00010074 length 1 live\nblock 00010078 length 3 live\n",
        ),
        // A range that begins where another ends, and the same with a word between them. The section headers begin at
        // 132, and the edits are in them at 88 and 60.
        TWO_AND_TWO,
        Step::Words("F", 220, &[6]),
        Step::Call(
            "blocks F",
            0,
            b"block 00010074 length 2 live\nblock 0001007c length 2 live\n",
        ),
        Step::Words("F", 192, &[4]),
        Step::Call("blocks F", 0, b"block 00010074 length 1 live\n"),
        // What the user names is a leader, and so is what follows the 256th instruction of a block.
        Step::Executable("F", &[0x00000013; 256], &[], &[]),
        Step::Call("blocks F", 0, b"block 00010074 length 256 live\n"),
        Step::Executable("F", &[0x00000013; 257], &[], &[]),
        Step::Call(
            "blocks F",
            0,
            b"block 00010074 length 256 live\nblock 00010474 length 1 live\n",
        ),
        Step::Executable("F", &[0x00000013; 258], &[], &[]),
        Step::Call(
            "blocks F --leader 0x10078",
            0,
            b"block 00010074 length 1 live
block 00010078 length 256 live
block 00010478 length 1 live
",
        ),
    ]
}

#[test]
fn leaders_by_each_rule(rt: HostRuntime) -> Result<(), AllocError> {
    expect(&rt, leaders())
}

/// Executables that are not taken.
fn refused() -> &'static [Step] {
    &[
        // Texts with a word of a custom opcode, and which of the words is told.
        Step::Executable("F", &[0x00000013, 0x60B5028B, 0x0000002B], &[], &[]),
        Step::Call("blocks F", 7, b"fault 7 unsupported 00010078 60b5028b\n"),
        Step::Executable("F", &[0x00000013, 0x60B5028B], &[], &[]),
        Step::Call(
            "best F --at 0x10074",
            7,
            b"fault 7 unsupported 00010078 60b5028b\n",
        ),
        Step::Executable("F", &[0x8000102B, 0x00000013], &[], &[]),
        Step::Call("blocks F", 7, b"fault 7 unsupported 00010074 8000102b\n"),
        // The word comes before the address that is no leader.
        Step::Executable("F", &[0x00000013, 0x00000013, 0x8000102B], &[], &[]),
        Step::Call(
            "best F --at 0x10078",
            7,
            b"fault 7 unsupported 0001007c 8000102b\n",
        ),
        // What is no executable.
        Step::File("F", b""),
        Step::Call("best F --at 0x10074", 5, b"fault 5 elf 1 0 0\n"),
        // The table is read before the text is looked at.
        Step::Executable("F", &[0x8000102B], &[], &[]),
        Step::File("T", b"reed = 1"),
        Step::Call("best F --at 0x10074 --table T", 6, b"fault 6 table 2\n"),
    ]
}

#[test]
fn executables_that_are_not_taken(rt: HostRuntime) -> Result<(), AllocError> {
    expect(&rt, refused())
}

/// Best cuts of blocks of executables.
fn cuts() -> &'static [Step] {
    &[
        // Twenty loads from the address in their own result, and behind each a sum of both results so far, which the
        // next load reads, and a break behind them.
        Step::Executable(
            "F",
            &[
                0x0002A283, 0x00A282B3, 0x0002A283, 0x00A282B3, 0x0002A283, 0x00A282B3, 0x0002A283,
                0x00A282B3, 0x0002A283, 0x00A282B3, 0x0002A283, 0x00A282B3, 0x0002A283, 0x00A282B3,
                0x0002A283, 0x00A282B3, 0x0002A283, 0x00A282B3, 0x0002A283, 0x00A282B3, 0x0002A283,
                0x00A282B3, 0x0002A283, 0x00A282B3, 0x0002A283, 0x00A282B3, 0x0002A283, 0x00A282B3,
                0x0002A283, 0x00A282B3, 0x0002A283, 0x00A282B3, 0x0002A283, 0x00A282B3, 0x0002A283,
                0x00A282B3, 0x0002A283, 0x00A282B3, 0x0002A283, 0x00A282B3, 0x00100073,
            ],
            &[],
            &[],
        ),
        Step::Call("best F --at 0x10074", 0, b"no cut\n"),
        // Thirteen operations in a row, and the exit of the program, which reads the last result: budgets of such a
        // block.
        Step::Executable(
            "F",
            &[
                0x00B54533, 0x00B54533, 0x00B54533, 0x00B54533, 0x00B54533, 0x00B54533, 0x00B54533,
                0x00B54533, 0x00B54533, 0x00B54533, 0x00B54533, 0x00B54533, 0x00B54533, 0x05D00893,
                0x00000073,
            ],
            &[],
            &[],
        ),
        Step::Call(
            "best F --at 0x10074 --out 1 --budget 26",
            0,
            b"skipped budget 26\n",
        ),
        Step::Call(
            "best --budget 27 --out 1 --at 0x10074 F",
            0,
            b"cut 0 1 2 3 4 5 6 7 8 9 10 11 12 gain 11\n",
        ),
    ]
}

#[test]
fn cuts_of_blocks_of_executables(rt: HostRuntime) -> Result<(), AllocError> {
    expect(&rt, cuts())
}
