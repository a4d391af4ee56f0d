//! The instructions of RV32IM and the project's own: what word each has, what it reads and writes, and of
//! what kind it is (RISC-V Unprivileged ISA 20191213, chapters 2, 7 and 24; RV32I without Zifencei and Zicsr).
//!
//! There are two tables of words. The plain table has RV32IM. The extended table adds unit words in the
//! opcode custom-0, which run a unit made from a block's instructions, and `cread` and `cput` in the opcode
//! custom-1, which read its further results and pass its further operands.
#![tactic(auto)]

pub use decoding::{decode, decode_x, insn_at};
pub use effects::{
    destination, operands, reads, reads_register, result_register, writes, writes_register,
};
pub use encoding::encode;
pub use instruction::{Cond, Insn, LoadKind, Width};
pub use kinds::{class, is_access, is_cput, is_cread, is_eligible, is_terminator, is_unit};
pub use laws::{
    latest_writer_is_last, one_insn_at_each_word, register_tests_are_sets, tables_agree,
    well_formed_where_fields_fit,
};
pub use opcodes::has_custom_opcode;
pub use register::Reg;

mod decoding;
mod effects;
mod encoding;
mod fields;
mod immediates;
mod instruction;
mod kinds;
mod laws;
mod opcodes;
mod register;
