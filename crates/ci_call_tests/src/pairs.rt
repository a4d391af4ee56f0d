//! Worked calls of `pair`, over one file `F` and a table `T` in memory. The pairs, and how many branches a search for
//! them needs, are those of a plain reading of the definitions.
use crate::common::{CALLS_AS_F, SUMS, Step, expect};
use std::alloc::AllocError;

/// Two pairs of sums.
const TWO_SUMS: &[u32] = &[0x00B502B3, 0x00C282B3, 0x00E68333, 0x00F30333];

/// xor x5, x10, x11; xor x5, x5, x12; xor x5, x5, x13; xor x5, x5, x14
const CHAIN_OF_FIVE: &[u32] = &[0x00B542B3, 0x00C2C2B3, 0x00D2C2B3, 0x00E2C2B3];

/// xor x5, x10, x5; xor x6, x6, x7; xor x6, x6, x6; xor x6, x11, x11; xor x5, x7, x5
const FIVE_OF_LOGIC: &[u32] = &[0x005542B3, 0x00734333, 0x00634333, 0x00B5C333, 0x0053C2B3];

/// xor x6, x11, x10; xor x7, x5, x11; xor x5, x5, x10; xor x6, x11, x11; xor x7, x10, x10
const CROSSED: &[u32] = &[0x00A5C333, 0x00B2C3B3, 0x00A2C2B3, 0x00B5C333, 0x00A543B3];

/// Blocks with a pair, and blocks with none.
fn blocks_with_pairs() -> &'static [Step] {
    &[
        Step::Block("F", &[]),
        Step::Call("pair F", 0, b"no pair\n"),
        Step::Block("F", &[0x00B502B3]),
        Step::Call("pair F", 0, b"no pair\n"),
        Step::Block("F", &[0x00B502B3, 0x00C282B3]),
        Step::Call("pair F --in 3 --out 1", 0, b"no pair\n"),
        Step::Block("F", TWO_SUMS),
        Step::Call("pair F --in 3 --out 1", 0, b"pair 2 3 and 0 1 gain 2\n"),
        Step::Block("F", TWO_SUMS),
        Step::Call("pair F --in 2 --out 1", 0, b"no pair\n"),
        // The same before a return. Without an address, leaders are passed over.
        Step::Block(
            "F",
            &[0x00B502B3, 0x00C282B3, 0x00E68333, 0x00F30333, 0x00008067],
        ),
        Step::Call(
            "pair F --leader 0x4 --out=1 --in 03",
            0,
            b"pair 2 3 and 0 1 gain 2\n",
        ),
        // The best cut gains 1 where it may have four inputs, and leaves one operation.
        Step::Block("F", CHAIN_OF_FIVE),
        Step::Call("pair F --in 4 --out 1", 0, b"pair 2 3 and 0 1 gain 2\n"),
        // The best cut is 1 2 4, which gains 2, as much as any pair that it is part of.
        Step::Block("F", FIVE_OF_LOGIC),
        Step::Call(
            "pair --in 3 --out 1 -- F",
            0,
            b"pair 0 4 and 1 2 3 gain 3\n",
        ),
        // The cuts 0 3 and 1 4 gain 1 each, and by their registers each has to come before the other.
        Step::Block("F", CROSSED),
        Step::Call("pair F --in 2 --out 1", 0, b"pair 4 and 1 3 gain 1\n"),
        // An operation, a load by its result, and two more of which the first takes the load's.
        Step::Block("F", &[0x00B542B3, 0x0002A303, 0x005342B3, 0x00A2C2B3]),
        Step::Call("pair F", 0, b"pair 2 3 and 0 gain 1\n"),
        // Budgets that are too small, and budgets that suffice.
        Step::Block("F", TWO_SUMS),
        Step::Call("pair F --out 1 --budget 1", 0, b"skipped budget 1\n"),
        Step::Block("F", TWO_SUMS),
        Step::Call("pair F --out 1 --budget 3", 0, b"skipped budget 3\n"),
        Step::Block("F", TWO_SUMS),
        Step::Call("pair F --out 1 --budget 4", 0, b"pair 2 3 and 0 1 gain 2\n"),
        Step::Block("F", TWO_SUMS),
        Step::Call(
            "pair F --out 1 --budget 4194304",
            0,
            b"pair 2 3 and 0 1 gain 2\n",
        ),
        Step::Block("F", &[0x00B502B3, 0x00C282B3]),
        Step::Call("pair F --out 1 --budget 1", 0, b"no pair\n"),
    ]
}

#[test]
fn blocks_and_budgets(rt: HostRuntime) -> Result<(), AllocError> {
    expect(&rt, blocks_with_pairs())
}

/// Blocks of an executable, and a block by tables.
fn pairs_of_calls_and_by_tables() -> &'static [Step] {
    &[
        // Calls on blocks of the calls of two functions through a table.
        CALLS_AS_F,
        Step::Call("pair F --at 0x100c4", 0, b"pair 1 2 and 0 gain 1\n"),
        Step::Call("pair --at=0x100d4 F --in 1", 0, b"pair 3 4 and 0 gain 1\n"),
        Step::Call(
            "pair F --leader 0x100dc --at 0x100dc --budget 1",
            0,
            b"skipped budget 1\n",
        ),
        Step::Call(
            "pair F --at 0x100c8",
            7,
            b"fault 7 unsupported 000100c8 00000000\n",
        ),
        // Tables, and what the call on two sums puts by them.
        Step::File("F", SUMS),
        Step::File("T", b"software.add = 3"),
        Step::Call("pair F --out 1 --table T", 0, b"pair 1 and 0 gain 4\n"),
        Step::File("T", b""),
        Step::Call("pair F --out 1 --table T", 0, b"no pair\n"),
        Step::File("T", b"pad = 2"),
        Step::Call(
            "pair F --out 1 --table T",
            6,
            b"fault 6 table 4 software.add\n",
        ),
        Step::File("T", b"reed = 1"),
        Step::Call("pair F --out 1 --table T", 6, b"fault 6 table 2\n"),
    ]
}

#[test]
fn blocks_of_an_executable_and_pairs_by_a_table(rt: HostRuntime) -> Result<(), AllocError> {
    expect(&rt, pairs_of_calls_and_by_tables())
}

/// Calls that are refused.
fn refused() -> &'static [Step] {
    &[
        // Words that read as no command.
        Step::File("F", SUMS),
        Step::Call("pair", 1, b"fault 1 usage\n"),
        Step::Call("pair F F", 1, b"fault 1 usage\n"),
        Step::Call("pair F --in 6", 1, b"fault 1 usage\n"),
        Step::Call("pair F --out 0", 1, b"fault 1 usage\n"),
        Step::Call("pair F --budget 0", 1, b"fault 1 usage\n"),
        Step::Call("pair F --budget 4194305", 1, b"fault 1 usage\n"),
        Step::Call("pair F --steps 1", 1, b"fault 1 usage\n"),
        Step::Call("pair F --in 2 --in 2", 1, b"fault 1 usage\n"),
        Step::Call("pair F --at 10074", 1, b"fault 1 usage\n"),
        Step::Call("pair -F", 1, b"fault 1 usage\n"),
        // No table.
        Step::Call("pair F --table T", 2, b"fault 2 read T\n"),
        // No file.
        Step::Clear,
        Step::Call("pair F", 2, b"fault 2 read F\n"),
        Step::Call("pair F --at 0x10074", 2, b"fault 2 read F\n"),
        // Half a word.
        Step::File("F", &[0x13, 0x05]),
        Step::Failing(1, "pair F", 2, b"fault 2 read F\n"),
        Step::Call("pair F", 7, b"fault 7 unsupported 00000002 00000000\n"),
        // No bytes.
        Step::File("F", b""),
        Step::Call("pair F --at 0x10074", 5, b"fault 5 elf 1 0 0\n"),
        // Words that are no block.
        Step::Block("F", &[0x00B502B3, 0x60B5028B]),
        Step::Call("pair F", 7, b"fault 7 unsupported 00000004 60b5028b\n"),
        Step::Block("F", &[0x00000073, 0x00B502B3]),
        Step::Call("pair F", 7, b"fault 7 unsupported 00000000 00000073\n"),
        // An executable with a word of a custom opcode.
        Step::Executable("F", &[0x0000_0013, 0x60B5028B], &[], &[]),
        Step::Call(
            "pair F --at 0x10074",
            7,
            b"fault 7 unsupported 00010078 60b5028b\n",
        ),
    ]
}

#[test]
fn calls_that_are_refused(rt: HostRuntime) -> Result<(), AllocError> {
    expect(&rt, refused())
}
