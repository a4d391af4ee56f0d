//! Worked calls, over one file `F` and a sink in memory.
use crate::common::{SUMS_AS_F, Step, expect};
use std::alloc::AllocError;

/// xor x5, x10, x11; xor x5, x5, x12; xor x5, x5, x13; xor x5, x5, x14
const CHAIN_OF_FIVE: Step = Step::Block("F", &[0x00B542B3, 0x00C2C2B3, 0x00D2C2B3, 0x00E2C2B3]);

/// xor x5, x10, x11; xor x6, x5, x12; xor x7, x6, x10; xor x7, x7, x11; xor x7, x7, x12
const FIVE_OF_LOGIC: Step = Step::Block(
    "F",
    &[0x00B542B3, 0x00C2C333, 0x00A343B3, 0x00B3C3B3, 0x00C3C3B3],
);

/// xor x5, x10, x11; xor x6, x5, x12; xor x7, x5, x10; xor x5, x5, x11
const THREE_RESULTS: Step = Step::Block("F", &[0x00B542B3, 0x00C2C333, 0x00A2C3B3, 0x00B2C2B3]);

/// The best cut of a chain of 64 operations is all of them.
const CHAIN_CUT: &[u8] =
    b"cut 0 1 2 3 4 5 6 7 8 9 10 11 12 13 14 15 16 17 18 19 20 21 22 23 24 25 26 27 28 29 30 31 \
    32 33 34 35 36 37 38 39 40 41 42 43 44 45 46 47 48 \
    49 50 51 52 53 54 55 56 57 58 59 60 61 62 63 gain 57\n";

/// Blocks with a cut, and blocks with none.
fn cuts() -> &'static [Step] {
    &[
        Step::Block("F", &[]),
        Step::Call("best F", 0, b"no cut\n"),
        // A sum of a constant, and one of its result.
        Step::Block("F", &[0x00150293, 0x00B28333]),
        Step::Call("best F --in 2 --out 1", 0, b"no cut\n"),
        Step::Call("best F --in 2 --out 2", 0, b"no cut\n"),
        // Four operations of logic with two results.
        Step::Block("F", &[0x00B542B3, 0x00C2C333, 0x00A34333, 0x00B34333]),
        Step::Call("best F --in 3 --out 2", 0, b"cut 0 1 2 3 gain 2\n"),
        // Two pairs of sums.
        Step::Block("F", &[0x00B502B3, 0x00C282B3, 0x00E68333, 0x00F30333]),
        Step::Call("best F --in 3 --out 1", 0, b"cut 2 3 gain 1\n"),
        // An operation, a load by its result, and two more of which the first takes the load's.
        Step::Block("F", &[0x00B542B3, 0x0002A303, 0x005342B3, 0x00A2C2B3]),
        Step::Call("best F --in 3 --out 2", 0, b"cut 2 3 gain 1\n"),
        // A sum, a load into the register of an operand of it, and a sum of both.
        Step::Block("F", &[0x00B502B3, 0x00062503, 0x00A282B3]),
        Step::Call("best F --in 3 --out 1", 0, b"no cut\n"),
        // Four operations of logic with five inputs, each but the first on the result before. The word that passes the
        // fourth input takes a cycle, and passes the fifth one too.
        CHAIN_OF_FIVE,
        Step::Call("best F --in 3 --out 1", 0, b"cut 2 3 gain 1\n"),
        Step::Call("best F --in 4 --out 1", 0, b"cut 1 2 3 gain 1\n"),
        Step::Call("best F --in 5 --out 1", 0, b"cut 0 1 2 3 gain 2\n"),
        // Two products, with four inputs and two results: their use takes three words.
        Step::Block("F", &[0x02B502B3, 0x02D60333]),
        Step::Call("best F --in 4 --out 2", 0, b"no cut\n"),
        // Five operations of logic of three inputs, with three results.
        FIVE_OF_LOGIC,
        Step::Call("best F --out 2", 0, b"cut 3 4 gain 1\n"),
        Step::Call("best F --out 3", 0, b"cut 0 1 2 3 4 gain 2\n"),
        // Three operations of logic on the result of a first one, which the last one's register takes.
        THREE_RESULTS,
        Step::Call("best F --out 2", 0, b"no cut\n"),
        Step::Call("best F --out 3", 0, b"cut 0 1 2 3 gain 1\n"),
        // A constant in two parts.
        Step::Block("F", &[0x123452B7, 0x67828293]),
        Step::Call("best F --in 1 --out 1", 0, b"cut 0 1 gain 1\n"),
        // Two sums, and a return. Without an address, leaders are passed over.
        Step::Block("F", &[0x00B502B3, 0x00C282B3, 0x00008067]),
        Step::Call("best F --leader 0x4 --out 1", 0, b"cut 0 1 gain 1\n"),
        // Two sums with three inputs.
        SUMS_AS_F,
        Step::Call("best F --in 2 --out 1", 0, b"no cut\n"),
        // Calls by which both sums are the best cut. A number may begin with zeros.
        Step::Call("best F --in 3 --out 1", 0, b"cut 0 1 gain 1\n"),
        Step::Call("best --out=1 F --in 3", 0, b"cut 0 1 gain 1\n"),
        Step::Call("best --in=3 -- F", 0, b"cut 0 1 gain 1\n"),
        Step::Call("best F --in 03", 0, b"cut 0 1 gain 1\n"),
        Step::Call("best F --out 1 --budget 2", 0, b"cut 0 1 gain 1\n"),
        Step::Call("best F --out 1 --budget 4194304", 0, b"cut 0 1 gain 1\n"),
        // Blocks at budgets that suffice and at some that don't, at the least budget, and at the default.
        Step::Block("F", &[0x00B502B3, 0x00C282B3]),
        Step::Call("best F --out 1 --budget 1", 0, b"skipped budget 1\n"),
        Step::Block("F", &[0x00B502B3, 0x00C282B3, 0x00E68333, 0x00F30333]),
        Step::Call("best F --out 1 --budget 6", 0, b"skipped budget 6\n"),
        Step::Call("best F --out 1 --budget 7", 0, b"cut 2 3 gain 1\n"),
        Step::Block("F", &[]),
        Step::Call("best F --budget 1", 0, b"no cut\n"),
        // A sum, thirteen times.
        Step::Block("F", &[0x00B502B3; 13]),
        Step::Call("best F", 0, b"cut 0 1 2 3 4 5 6 7 8 9 10 11 12 gain 12\n"),
        // A chain of 64 operations, each on the result of the one before.
        Step::Block("F", &[0x00A2C2B3; 64]),
        Step::Call("best F --out 1", 0, CHAIN_CUT),
        Step::Call("best F --out 1 --budget 568", 0, b"skipped budget 568\n"),
        Step::Call("best F --out 1 --budget 569", 0, CHAIN_CUT),
    ]
}

#[test]
fn blocks(rt: HostRuntime) -> Result<(), AllocError> {
    expect(&rt, cuts())
}

/// Words that read as no command, files that aren't there, and files that are no block.
fn refused() -> &'static [Step] {
    &[
        // A call of each command that reads one file.
        Step::Call("best F", 2, b"fault 2 read F\n"),
        Step::Call("best F --at 0x10074", 2, b"fault 2 read F\n"),
        Step::Call("blocks F", 2, b"fault 2 read F\n"),
        Step::Call("asm F OUT", 2, b"fault 2 read F\n"),
        Step::Call("dis F", 2, b"fault 2 read F\n"),
        Step::Call("relog F OUT", 2, b"fault 2 read F\n"),
        Step::Call("gates F OUT", 2, b"fault 2 read F\n"),
        Step::Call("geval F 0 0x0 0x0 0x0", 2, b"fault 2 read F\n"),
        // Words that read as no command.
        SUMS_AS_F,
        Step::Call("", 1, b"fault 1 usage\n"),
        Step::Call("best", 1, b"fault 1 usage\n"),
        Step::Call("best F --in 6", 1, b"fault 1 usage\n"),
        Step::Call("best F --out 4", 1, b"fault 1 usage\n"),
        Step::Call("best F --in 2 --in 2", 1, b"fault 1 usage\n"),
        Step::Call("best F --budget 0", 1, b"fault 1 usage\n"),
        Step::Call("asm A A", 1, b"fault 1 usage\n"),
        Step::Call("asm A", 1, b"fault 1 usage\n"),
        Step::Call("dis", 1, b"fault 1 usage\n"),
        Step::Call("dis F --in 3", 1, b"fault 1 usage\n"),
        Step::Call("best -F", 1, b"fault 1 usage\n"),
        Step::Call("best F --in ''", 1, b"fault 1 usage\n"),
        Step::Call("best F --at 10074", 1, b"fault 1 usage\n"),
        Step::Call("blocks F --at 0x10074", 1, b"fault 1 usage\n"),
        Step::Call("blocks", 1, b"fault 1 usage\n"),
        // Half a word, and a read of it that fails.
        Step::File("F", b"\x13\x05"),
        Step::Call("best F", 7, b"fault 7 unsupported 00000002 00000000\n"),
        Step::Failing(1, "best F", 2, b"fault 2 read F\n"),
        // A sum, and the word of a unit.
        Step::Block("F", &[0x00B502B3, 0x60B5028B]),
        Step::Call("best F", 7, b"fault 7 unsupported 00000004 60b5028b\n"),
        // A sum, a word of the opcode custom-1 that no table has, and an environment call.
        Step::Block("F", &[0x00B502B3, 0x8000102B, 0x00000073]),
        Step::Call("best F", 7, b"fault 7 unsupported 00000004 8000102b\n"),
        // A sum between two environment calls.
        Step::Block("F", &[0x00000073, 0x00B502B3, 0x00000073]),
        Step::Call("best F", 7, b"fault 7 unsupported 00000000 00000073\n"),
        // The put of the line of success fails, and then that of the fault line too.
        Step::File("F", b""),
        Step::Unheard("best F", 3, b"fault 3 write -\n"),
        Step::Mute("best F", 3),
        Step::Unheard("pair F", 3, b"fault 3 write -\n"),
        Step::Mute("pair F", 3),
    ]
}

#[test]
fn calls_that_are_refused(rt: HostRuntime) -> Result<(), AllocError> {
    expect(&rt, refused())
}

/// Texts and their words, words and their lines.
fn texts_and_listings() -> &'static [Step] {
    &[
        // Texts within the grammar.
        Step::File("F", b"add x5, x10, x11\n"),
        Step::Call("asm F OUT", 0, b""),
        Step::Holds("OUT", b"\xB3\x02\xB5\x00"),
        Step::Clear,
        Step::File("F", b"T: bne x9, x0, T\n"),
        Step::Call("asm F OUT", 0, b""),
        Step::Holds("OUT", b"\x63\x90\x04\x00"),
        Step::Clear,
        Step::File("F", b""),
        Step::Call("asm F OUT", 0, b""),
        Step::Holds("OUT", b""),
        // The second call of the shelf is the write of `OUT`.
        Step::Clear,
        Step::File("F", b"add x5, x10, x11\n"),
        Step::Failing(2, "asm F OUT", 3, b"fault 3 write OUT\n"),
        // Texts outside the grammar, and what is said of them. The first isn't UTF-8.
        Step::File("F", b"\xFF"),
        Step::Call("asm F OUT", 13, b"fault 13 asm 1 1 1\n"),
        Step::File("F", b"foo\n"),
        Step::Call("asm F OUT", 13, b"fault 13 asm 2 1 1\n"),
        Step::File("F", b"add x5, x10\n"),
        Step::Call("asm F OUT", 13, b"fault 13 asm 3 1 12\n"),
        Step::File("F", b"addi x5, x5, 4096\n"),
        Step::Call("asm F OUT", 13, b"fault 13 asm 4 1 14\n"),
        Step::File("F", b"jal x1, T\n"),
        Step::Call("asm F OUT", 13, b"fault 13 asm 5 1 9\n"),
        Step::File("F", b"T:\nT:\n"),
        Step::Call("asm F OUT", 13, b"fault 13 asm 6 2 1\n"),
        // Bytes, and the lines of their words: a unit word, a read of the first hidden result and a word of neither
        // table are in one of them, a word that passes operands and the reads of both results in another.
        Step::File("F", b"\xB3\x02\xB5\x00"),
        Step::Call("dis F", 0, b"00b502b3 add x5, x10, x11\n"),
        Step::File("F", b"\x8B\x02\xB5\x60\x2B\x03\x00\x00\xFF\xFF\xFF\xFF"),
        Step::Call(
            "dis F",
            0,
            b"60b5028b ci 0, x5, x10, x11, x12\n0000032b cread x6\nffffffff .word 0xffffffff\n",
        ),
        Step::File("F", b"\x2B\x90\xE6\x00\x2B\x03\x00\x00\xAB\x03\x10\x00"),
        Step::Call(
            "dis F",
            0,
            b"00e6902b cput x13, x14\n0000032b cread x6\n001003ab cread x7, 1\n",
        ),
        Step::File("F", b"\x13\x05"),
        Step::Call("dis F", 0, b""),
        Step::File("F", b"\xB3\x02\xB5\x00\x13"),
        Step::Call("dis F", 0, b"00b502b3 add x5, x10, x11\n"),
    ]
}

#[test]
fn texts(rt: HostRuntime) -> Result<(), AllocError> {
    expect(&rt, texts_and_listings())
}
