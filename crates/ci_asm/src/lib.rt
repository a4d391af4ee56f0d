//! Assembler text: from a text to the words of its statements, and from an instruction to the line
//! that assembles to it.
//!
//! A text has lines, each of which ends by a newline that the last may lack. A line has a label
//! (`name:`), a statement and a comment (from `#` on), in this order, each of which may be missing.
//! Blanks are spaces and tabs, and may stand between tokens. A name is a letter or `_`, and then
//! letters, digits and `_`. Each statement is one word of the program:
//!
//! | Statement | Form |
//! |---|---|
//! | operations on registers | `add x5, x10, x11` |
//! | operations with a constant | `addi x5, x5, -1`, `slli x6, x10, 3` |
//! | LUI, AUIPC | `lui x5, 0x12345`, a value from 0 to 0xFFFFF |
//! | loads, JALR | `lw x6, 0(x5)`, `jalr x1, 0(x5)` |
//! | stores | `sw x18, 16(x11)`, first the value |
//! | branches, JAL | `bne x9, x0, T`, `jal x1, T`: T is a label, or an offset in bytes |
//! | others | `ecall`, `ebreak`, `fence 255, x0, x0`: the word's bits from 31 to 20, rs1, rd |
//! | uses of units | `ci 3, x5, x10, x11, x12`: unit, rd, rs1, rs2, rs3 |
//! | further operands and results of units | `cput x13, x14`; `cread x6` the first, `cread x6, 1` the second |
//! | any word | `.word 0x00000013` |
//!
//! Registers are `x0` to `x31`, without leading zeros. Numbers are decimal, with a `-` directly
//! before the first digit or without, or `0x` and hex digits, and have at most ten digits. A token
//! is the longest one that begins at its place.
//!
//! The definitions in `specs` say so exactly, as a relation on whole texts: tokens and where they
//! stand (`Lexicon`, by the words of `ci_reading` for tokens), the forms of statements (`Forms`),
//! lines, programs and faults (`Assembly`), and what is shown (`Shown`). The other files of `specs`
//! say what the private functions compute; `proofs` shows that both agree.
#![tactic(auto)]

pub use assembler::assemble;
pub use disassembler::show;
pub use faults::AsmFault;
pub use laws::{
    a_text_has_one_assembly, a_text_has_one_fault, a_text_has_words_or_a_fault,
    an_assembly_has_no_fault,
};

mod assembler;
mod disassembler;
mod faults;
mod instructions;
mod labels;
mod laws;
mod lines;
mod mnemonics;
mod numbers;
mod registers;
mod scanner;
mod slots;
mod statements;
