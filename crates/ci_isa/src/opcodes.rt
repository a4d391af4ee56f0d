//! The opcodes, bits 6 to 0 of a word (RISC-V Unprivileged ISA 20191213, table 24.1).
ghost use Rattle.std.specs.Prelude.{◌↔◌, IsTrue};
ghost use Rattle.ci_isa.specs.Fields.{HasCustomOpcode};

use crate::fields::bits;

pub const LOAD: u32 = 0x03;

pub const CUSTOM_0: u32 = 0x0b;

pub const MISC_MEM: u32 = 0x0f;

pub const OP_IMM: u32 = 0x13;

pub const AUIPC: u32 = 0x17;

pub const STORE: u32 = 0x23;

pub const CUSTOM_1: u32 = 0x2b;

pub const OP: u32 = 0x33;

pub const LUI: u32 = 0x37;

pub const BRANCH: u32 = 0x63;

pub const JALR: u32 = 0x67;

pub const JAL: u32 = 0x6f;

/// The whole word of ECALL.
pub const ECALL: u32 = 0x0000_0073;
/// The whole word of EBREAK.
pub const EBREAK: u32 = 0x0010_0073;

/// Whether the word has the opcode custom-0 or custom-1, which the standard leaves to custom instructions.
pub fn has_custom_opcode(word: u32) -> bool
    ensures { IsTrue result ↔ HasCustomOpcode word }
{
    matches!(bits(word, 6, 0), CUSTOM_0 | CUSTOM_1)
}
