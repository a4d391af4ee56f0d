//! What kind of instruction an instruction is.
ghost use Rattle.std.specs.Prelude.{◌≡◌};
ghost use Rattle.ci_isa.specs.Effects as terms;
ghost use Rattle.ci_isa.specs.Effects.{ends_block, register_class, constant_class, class_of, is_division, may_join};

use crate::instruction::Insn;
use ci_word::{Class, Op};

/// Whether the instruction ends a block: a branch, JAL, JALR, ECALL, EBREAK, FENCE, AUIPC, or a word that
/// is no instruction.
///
/// A `Unit`, a `Cread` and a `Cput` do not end a block. In a file their words are no instructions, since a file is
/// split into blocks by the plain table.
pub fn is_terminator(insn: &Insn) -> bool
    ensures { result ≡ ends_block insn.now }
{
    match insn {
        Insn::Auipc { .. } | Insn::Jal { .. } | Insn::Jalr { .. } | Insn::Branch { .. } => true,
        Insn::Fence { .. } | Insn::Ecall | Insn::Ebreak | Insn::Illegal { .. } => true,
        _ => false,
    }
}

/// The class whose latency the instruction has. The canonical no-op `addi x0, x0, 0`, unit words, `cread`,
/// `cput` and illegal words are `Free`.
pub fn class(insn: &Insn) -> Class
    ensures { result ≡ class_of insn.now }
{
    match *insn {
        Insn::Alu { op, .. } => register_class(op),
        Insn::AluImm { op, rd, rs1, imm } => {
            if op == Op::Add && rd.number() == 0 && rs1.number() == 0 && imm == 0 {
                Class::Free
            } else {
                constant_class(op)
            }
        }
        Insn::Lui { .. } => Class::Lui,
        Insn::Auipc { .. } => Class::Auipc,
        Insn::Jal { .. } | Insn::Jalr { .. } => Class::Jump,
        Insn::Branch { .. } => Class::Branch,
        Insn::Load { .. } => Class::Load,
        Insn::Store { .. } => Class::Store,
        Insn::Fence { .. } => Class::Fence,
        Insn::Ecall | Insn::Ebreak => Class::System,
        Insn::Unit { .. } | Insn::Cread { .. } | Insn::Cput { .. } | Insn::Illegal { .. } => {
            Class::Free
        }
    }
}

/// Whether the instruction may be part of a unit: LUI, or an operation on registers or on a register and a
/// constant that is no division or remainder, with an `rd` other than x0.
pub fn is_eligible(insn: &Insn) -> bool
    ensures { result ≡ may_join insn.now }
{
    match *insn {
        Insn::Alu { op, rd, .. } => !is_division(op) && rd.number() != 0,
        Insn::AluImm { op, rd, .. } => !is_division(op) && rd.number() != 0,
        Insn::Lui { rd, .. } => rd.number() != 0,
        _ => false,
    }
}

/// Whether the instruction is a load or a store.
pub fn is_access(insn: &Insn) -> bool
    ensures { result ≡ terms.is_access insn.now }
{
    matches!(insn, Insn::Load { .. } | Insn::Store { .. })
}

/// Whether the instruction is a unit word.
pub fn is_unit(insn: &Insn) -> bool
    ensures { result ≡ terms.is_unit insn.now }
{
    matches!(insn, Insn::Unit { .. })
}

/// Whether the instruction is a `cread`.
pub fn is_cread(insn: &Insn) -> bool
    ensures { result ≡ terms.is_cread insn.now }
{
    matches!(insn, Insn::Cread { .. })
}

/// Whether the instruction is a `cput`.
pub fn is_cput(insn: &Insn) -> bool
    ensures { result ≡ terms.is_cput insn.now }
{
    matches!(insn, Insn::Cput { .. })
}

/// The class of an operation on two registers.
fn register_class(op: Op) -> Class
    ensures { result ≡ register_class op }
{
    match op {
        Op::Add | Op::Sub => Class::Add,
        Op::Xor | Op::Or | Op::And => Class::Logic,
        Op::Sll | Op::Srl | Op::Sra => Class::Shift,
        Op::Slt | Op::Sltu => Class::Compare,
        Op::Mul => Class::Mul,
        Op::Mulh | Op::Mulhsu | Op::Mulhu => Class::Mulh,
        Op::Div | Op::Divu | Op::Rem | Op::Remu => Class::Div,
    }
}

/// The class of an operation on a register and a constant.
fn constant_class(op: Op) -> Class
    ensures { result ≡ constant_class op }
{
    match op {
        Op::Sll | Op::Srl | Op::Sra => Class::ShiftConst,
        _ => register_class(op),
    }
}

fn is_division(op: Op) -> bool
    ensures { result ≡ is_division op }
{
    matches!(op, Op::Div | Op::Divu | Op::Rem | Op::Remu)
}
