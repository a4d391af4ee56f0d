//! Calls of `run` over damaged executables.
use crate::common::{Step, expect};
use std::alloc::AllocError;

/// The executable of a no-op.
///
/// It begins with the file header; the program headers are at 52 and 84, the text at 116, and the section headers at
/// 120, of which that of the text is at 160.
const NO_OP: Step = Step::Executable("F", &[0x00000013], &[], &[]);

/// Damages, and the rule that is broken then.
fn damages() -> &'static [Step] {
    &[
        // Less than the section headers is left, than the program headers, than the file header, or nothing.
        NO_OP,
        Step::Length("F", 200),
        Step::Call("run F", 5, b"fault 5 elf 1 120 0\n"),
        Step::Length("F", 60),
        Step::Call("run F", 5, b"fault 5 elf 1 52 0\n"),
        Step::Length("F", 51),
        Step::Call("run F", 5, b"fault 5 elf 1 0 0\n"),
        Step::Length("F", 0),
        Step::Call("run F", 5, b"fault 5 elf 1 0 0\n"),
        // The program headers begin past the end.
        NO_OP,
        Step::Words("F", 28, &[0x10000034]),
        Step::Call("run F", 5, b"fault 5 elf 1 268435508 0\n"),
        // Byte 0 is 0.
        NO_OP,
        Step::Words("F", 0, &[0x464C4500]),
        Step::Call("run F", 5, b"fault 5 elf 2 0 0\n"),
        // Byte 4 is 2.
        NO_OP,
        Step::Words("F", 4, &[0x00010102]),
        Step::Call("run F", 5, b"fault 5 elf 3 4 2\n"),
        // The machine is 62. The lower half of the word is the type, 2.
        NO_OP,
        Step::Words("F", 16, &[0x003E0002]),
        Step::Call("run F", 5, b"fault 5 elf 3 18 62\n"),
        // The flags are 1, that of compressed instructions.
        NO_OP,
        Step::Words("F", 36, &[1]),
        Step::Call("run F", 5, b"fault 5 elf 3 36 1\n"),
        // Program header 0 names an interpreter.
        NO_OP,
        Step::Words("F", 52, &[3]),
        Step::Call("run F", 5, b"fault 5 elf 3 52 3\n"),
        // The offset of program header 0 lies past the end.
        NO_OP,
        Step::Words("F", 56, &[0xFFFFFFFF]),
        Step::Call("run F", 5, b"fault 5 elf 1 4294967295 0\n"),
        // Program header 0 has less memory than bytes of the file.
        NO_OP,
        Step::Words("F", 72, &[4]),
        Step::Call("run F", 5, b"fault 5 elf 4 0 0\n"),
        // Program header 1 has memory at the address of program header 0: its addresses and sizes.
        NO_OP,
        Step::Words("F", 92, &[0x00010000, 0x00020000, 0, 4]),
        Step::Call("run F", 5, b"fault 5 elf 5 0 1\n"),
        // Program header 1 maps the text's bytes of the file at another address: its offset, addresses and sizes.
        NO_OP,
        Step::Words("F", 88, &[116, 0x00020000, 0x00020000, 4, 4]),
        Step::Call("run F", 5, b"fault 5 elf 6 0 1\n"),
        // The text section is longer than what is loaded of it.
        NO_OP,
        Step::Words("F", 180, &[8]),
        Step::Call("run F", 5, b"fault 5 elf 7 1 0\n"),
        // The entry is in the midst of a word.
        NO_OP,
        Step::Words("F", 24, &[0x00010076]),
        Step::Call("run F", 5, b"fault 5 elf 8 0 0\n"),
        // Program header 1 has as much memory as may be mapped in all.
        NO_OP,
        Step::Words("F", 104, &[0x04000000]),
        Step::Call("run F", 5, b"fault 5 elf 9 0 0\n"),
    ]
}

#[test]
fn damaged_executables(rt: HostRuntime) -> Result<(), AllocError> {
    expect(&rt, damages())
}

/// An executable whose text is a section behind the table of sections.
fn long_texts() -> &'static [Step] {
    &[
        NO_OP,
        Step::Length("F", 2_000_000),
        // Program header 0 has all bytes, in the file and in memory, and program header 1 is none to load.
        Step::Words("F", 68, &[2_000_000, 2_000_000]),
        Step::Words("F", 84, &[0]),
        // The text begins at byte 1000, and has 262145 words: one too many.
        Step::Words("F", 172, &[0x000103E8, 1000, 1_048_580]),
        Step::Call("run F", 5, b"fault 5 elf 9 0 0\n"),
        // It has 262144 words, as many as may be.
        Step::Words("F", 180, &[1_048_576]),
        Step::Call("run F", 5, b"fault 5 elf 8 0 0\n"),
    ]
}

#[test]
fn a_text_of_too_many_words(rt: HostRuntime) -> Result<(), AllocError> {
    expect(&rt, long_texts())
}
