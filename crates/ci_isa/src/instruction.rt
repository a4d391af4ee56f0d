//! The instructions.
use crate::register::Reg;
use ci_word::Op;

/// How many bytes a load or a store moves: one, two or four.
#[derive(Clone, Copy, PartialEq, Eq)]
pub enum Width {
    Byte,
    Half,
    Word,
}

impl Width {
    ghost use Rattle.std.specs.Prelude.{◌≡◌, ◌≤◌};
    ghost use Rattle.ci_isa.specs.Effects.{width_bytes};

    /// The width in bytes: 1, 2 or 4.
    pub fn bytes(self) -> u32
        ensures value { result ≡ width_bytes self }
        ensures minimum { 1 ≤ result }
        ensures maximum { result ≤ 4 }
    {
        match self {
            Width::Byte => 1,
            Width::Half => 2,
            Width::Word => 4,
        }
    }
}

/// When a branch is taken. `Ltu` and `Geu` compare unsigned numbers, `Lt` and `Ge` signed ones.
#[derive(Clone, Copy, PartialEq, Eq)]
pub enum Cond {
    Eq,
    Ne,
    Lt,
    Ge,
    Ltu,
    Geu,
}

/// What a load reads: a byte, a half or a word. `B` and `H` extend the sign, `Bu` and `Hu` extend with zeros.
#[derive(Clone, Copy, PartialEq, Eq)]
pub enum LoadKind {
    B,
    H,
    W,
    Bu,
    Hu,
}

/// An instruction. Offsets are in bytes, from the instruction's own address or from the register `rs1`.
///
/// It is *well formed* where some word of the extended table reads as it, or where it is `Illegal`.
#[derive(Clone, Copy, PartialEq, Eq)]
pub enum Insn {
    /// An operation on two registers.
    Alu {
        op: Op,
        rd: Reg,
        rs1: Reg,
        rs2: Reg,
    },
    /// An operation on a register and a constant: ADDI, SLTI, SLTIU, XORI, ORI and ANDI, with a constant
    /// from -2048 to 2047, and the shifts SLLI, SRLI and SRAI, with an amount from 0 to 31.
    AluImm {
        op: Op,
        rd: Reg,
        rs1: Reg,
        imm: i32,
    },
    /// LUI. `upper` is the whole word that `rd` takes, whose low twelve bits are 0.
    Lui {
        rd: Reg,
        upper: u32,
    },
    /// AUIPC. `upper` is the word that is added to the address, whose low twelve bits are 0.
    Auipc {
        rd: Reg,
        upper: u32,
    },
    /// JAL.
    Jal {
        rd: Reg,
        offset: i32,
    },
    /// JALR.
    Jalr {
        rd: Reg,
        rs1: Reg,
        offset: i32,
    },
    /// A conditional branch.
    Branch {
        cond: Cond,
        rs1: Reg,
        rs2: Reg,
        offset: i32,
    },
    /// A load, from `offset` past the address in `rs1`.
    Load {
        kind: LoadKind,
        rd: Reg,
        rs1: Reg,
        offset: i32,
    },
    /// A store of `rs2`, to `offset` past the address in `rs1`.
    Store {
        width: Width,
        rs1: Reg,
        rs2: Reg,
        offset: i32,
    },
    /// FENCE. `bits` are the bits 31 to 20 of its word. None of its fields has a meaning here.
    Fence {
        bits: u16,
        rs1: Reg,
        rd: Reg,
    },
    /// ECALL.
    Ecall,
    /// EBREAK.
    Ebreak,
    /// A unit word: the unit of this number, 0 to 31, on `rs1`, `rs2` and `rs3`.
    Unit {
        number: u8,
        rd: Reg,
        rs1: Reg,
        rs2: Reg,
        rs3: Reg,
    },
    /// `cread`: `rd` takes the hidden result of this index, 0 or 1.
    Cread {
        rd: Reg,
        index: u8,
    },
    /// `cput`: the hidden operands take `rs1` and `rs2`.
    Cput {
        rs1: Reg,
        rs2: Reg,
    },
    /// A word that is none of these.
    Illegal {
        word: u32,
    },
}

/// The canonical no-op, the word 00000013. It only fills the unused places of a small vector.
impl Default for Insn {
    fn default() -> Insn {
        Insn::AluImm {
            op: Op::Add,
            rd: Reg::zero(),
            rs1: Reg::zero(),
            imm: 0,
        }
    }
}
