//! From a statement to its instruction.
ghost use Rattle.std.specs.Prelude.{◌≡◌, ◌*◌, ◌^◌, ◌<◌, true};
ghost use Rattle.ci_asm.specs.private.Shapes.{fits, field_of};
ghost use Rattle.ci_asm.specs.private.Statements.{signed_value, insn_of};

use crate::mnemonics::Mnemonic;
use crate::numbers::{Number, signed_value};
use crate::statements::Registers;
use ci_isa::Insn;

/// The instruction of a statement with these registers and this number.
#[tactic(auto, using(crate::proofs::ReadOperands::magnitudes))]
pub(crate) fn insn_of(mnemonic: Mnemonic, registers: Registers, number: Number) -> Insn
    requires { fits (field_of mnemonic) number ≡ true }
    ensures { result ≡ insn_of mnemonic registers (signed_value number) }
{
    let Registers { rd, rs1, rs2, rs3 } = registers;
    match mnemonic {
        Mnemonic::RegisterRegister(op) => Insn::Alu { op, rd, rs1, rs2 },
        Mnemonic::RegisterImmediate(op) => Insn::AluImm {
            op,
            rd,
            rs1,
            imm: signed_value(number),
        },
        Mnemonic::Lui => Insn::Lui {
            rd,
            upper: upper(number),
        },
        Mnemonic::Auipc => Insn::Auipc {
            rd,
            upper: upper(number),
        },
        Mnemonic::Jal => Insn::Jal {
            rd,
            offset: signed_value(number),
        },
        Mnemonic::Jalr => Insn::Jalr {
            rd,
            rs1,
            offset: signed_value(number),
        },
        Mnemonic::Branch(cond) => Insn::Branch {
            cond,
            rs1,
            rs2,
            offset: signed_value(number),
        },
        Mnemonic::Load(kind) => Insn::Load {
            kind,
            rd,
            rs1,
            offset: signed_value(number),
        },
        Mnemonic::Store(width) => Insn::Store {
            width,
            rs1,
            rs2,
            offset: signed_value(number),
        },
        Mnemonic::Fence => Insn::Fence {
            bits: number.magnitude as u16,
            rs1,
            rd,
        },
        Mnemonic::Ecall => Insn::Ecall,
        Mnemonic::Ebreak => Insn::Ebreak,
        Mnemonic::Custom => Insn::Unit {
            number: number.magnitude as u8,
            rd,
            rs1,
            rs2,
            rs3,
        },
        Mnemonic::Cput => Insn::Cput { rs1, rs2 },
        Mnemonic::Cread => Insn::Cread {
            rd,
            index: u8::from(number.magnitude == 1),
        },
        Mnemonic::Data => Insn::Illegal {
            word: number.magnitude as u32,
        },
    }
}

/// The word whose upper twenty bits are the number.
fn upper(number: Number) -> u32
    requires { number.magnitude < 2 ^ 20 }
    ensures { result ≡ 4096 * number.magnitude }
{
    4096 * number.magnitude as u32
}
