//! Instructions by one look: what a step does is told by the variant alone, where it is frequent.
ghost use Rattle.std.specs.Prelude.{◌≡◌};
ghost use Rattle.ci_isa.specs.declared.instruction.Insn.TheVariants.{Alu, AluImm, Branch, Load, Store};
ghost use Rattle.ci_emu.specs.private.Actions.{insn_of};

use ci_isa::{Cond, Insn, LoadKind, Reg, Width};
use ci_word::Op;

/// What an instruction does. A frequent operation, each condition of a branch, and each kind of load and width of a
/// store has a variant of its own.
#[derive(Clone, Copy)]
pub(crate) enum Action {
    Add {
        rd: Reg,
        rs1: Reg,
        rs2: Reg,
    },
    Sub {
        rd: Reg,
        rs1: Reg,
        rs2: Reg,
    },
    Sll {
        rd: Reg,
        rs1: Reg,
        rs2: Reg,
    },
    Slt {
        rd: Reg,
        rs1: Reg,
        rs2: Reg,
    },
    Sltu {
        rd: Reg,
        rs1: Reg,
        rs2: Reg,
    },
    Xor {
        rd: Reg,
        rs1: Reg,
        rs2: Reg,
    },
    Srl {
        rd: Reg,
        rs1: Reg,
        rs2: Reg,
    },
    Sra {
        rd: Reg,
        rs1: Reg,
        rs2: Reg,
    },
    Or {
        rd: Reg,
        rs1: Reg,
        rs2: Reg,
    },
    And {
        rd: Reg,
        rs1: Reg,
        rs2: Reg,
    },
    Mul {
        rd: Reg,
        rs1: Reg,
        rs2: Reg,
    },
    Addi {
        rd: Reg,
        rs1: Reg,
        imm: i32,
    },
    Slli {
        rd: Reg,
        rs1: Reg,
        imm: i32,
    },
    Slti {
        rd: Reg,
        rs1: Reg,
        imm: i32,
    },
    Sltiu {
        rd: Reg,
        rs1: Reg,
        imm: i32,
    },
    Xori {
        rd: Reg,
        rs1: Reg,
        imm: i32,
    },
    Srli {
        rd: Reg,
        rs1: Reg,
        imm: i32,
    },
    Srai {
        rd: Reg,
        rs1: Reg,
        imm: i32,
    },
    Ori {
        rd: Reg,
        rs1: Reg,
        imm: i32,
    },
    Andi {
        rd: Reg,
        rs1: Reg,
        imm: i32,
    },
    Beq {
        rs1: Reg,
        rs2: Reg,
        offset: i32,
    },
    Bne {
        rs1: Reg,
        rs2: Reg,
        offset: i32,
    },
    Blt {
        rs1: Reg,
        rs2: Reg,
        offset: i32,
    },
    Bge {
        rs1: Reg,
        rs2: Reg,
        offset: i32,
    },
    Bltu {
        rs1: Reg,
        rs2: Reg,
        offset: i32,
    },
    Bgeu {
        rs1: Reg,
        rs2: Reg,
        offset: i32,
    },
    Lui {
        rd: Reg,
        upper: u32,
    },
    Jal {
        rd: Reg,
        offset: i32,
    },
    Lb {
        rd: Reg,
        rs1: Reg,
        offset: i32,
    },
    Lh {
        rd: Reg,
        rs1: Reg,
        offset: i32,
    },
    Lw {
        rd: Reg,
        rs1: Reg,
        offset: i32,
    },
    Lbu {
        rd: Reg,
        rs1: Reg,
        offset: i32,
    },
    Lhu {
        rd: Reg,
        rs1: Reg,
        offset: i32,
    },
    Sb {
        rs1: Reg,
        rs2: Reg,
        offset: i32,
    },
    Sh {
        rs1: Reg,
        rs2: Reg,
        offset: i32,
    },
    Sw {
        rs1: Reg,
        rs2: Reg,
        offset: i32,
    },
    Jalr {
        rd: Reg,
        rs1: Reg,
        offset: i32,
    },
    Auipc {
        rd: Reg,
        upper: u32,
    },
    Registers {
        op: Op,
        rd: Reg,
        rs1: Reg,
        rs2: Reg,
    },
    Constant {
        op: Op,
        rd: Reg,
        rs1: Reg,
        imm: i32,
    },
    Fence {
        bits: u16,
        rs1: Reg,
        rd: Reg,
    },
    Ecall,
    Ebreak,
    Unit {
        number: u8,
        rd: Reg,
        rs1: Reg,
        rs2: Reg,
        rs3: Reg,
    },
    Cread {
        rd: Reg,
        index: u8,
    },
    Cput {
        rs1: Reg,
        rs2: Reg,
    },
    Illegal {
        word: u32,
    },
}

impl Action {
    /// The action of an instruction.
    pub(crate) fn of(insn: Insn) -> Action
        ensures { insn_of result ≡ insn }
    {
        match insn {
            Insn::Alu { op, rd, rs1, rs2 } => by_registers(op, rd, rs1, rs2),
            Insn::AluImm { op, rd, rs1, imm } => by_constant(op, rd, rs1, imm),
            Insn::Branch {
                cond,
                rs1,
                rs2,
                offset,
            } => by_condition(cond, rs1, rs2, offset),
            Insn::Lui { rd, upper } => Action::Lui { rd, upper },
            Insn::Jal { rd, offset } => Action::Jal { rd, offset },
            Insn::Load {
                kind,
                rd,
                rs1,
                offset,
            } => by_kind(kind, rd, rs1, offset),
            Insn::Store {
                width,
                rs1,
                rs2,
                offset,
            } => by_width(width, rs1, rs2, offset),
            Insn::Jalr { rd, rs1, offset } => Action::Jalr { rd, rs1, offset },
            Insn::Auipc { rd, upper } => Action::Auipc { rd, upper },
            Insn::Fence { bits, rs1, rd } => Action::Fence { bits, rs1, rd },
            Insn::Ecall => Action::Ecall,
            Insn::Ebreak => Action::Ebreak,
            Insn::Unit {
                number,
                rd,
                rs1,
                rs2,
                rs3,
            } => Action::Unit {
                number,
                rd,
                rs1,
                rs2,
                rs3,
            },
            Insn::Cread { rd, index } => Action::Cread { rd, index },
            Insn::Cput { rs1, rs2 } => Action::Cput { rs1, rs2 },
            Insn::Illegal { word } => Action::Illegal { word },
        }
    }
}

/// The action of an operation on two registers.
fn by_registers(op: Op, rd: Reg, rs1: Reg, rs2: Reg) -> Action
    ensures { insn_of result ≡ Alu op rd rs1 rs2 }
{
    match op {
        Op::Add => Action::Add { rd, rs1, rs2 },
        Op::Sub => Action::Sub { rd, rs1, rs2 },
        Op::Sll => Action::Sll { rd, rs1, rs2 },
        Op::Slt => Action::Slt { rd, rs1, rs2 },
        Op::Sltu => Action::Sltu { rd, rs1, rs2 },
        Op::Xor => Action::Xor { rd, rs1, rs2 },
        Op::Srl => Action::Srl { rd, rs1, rs2 },
        Op::Sra => Action::Sra { rd, rs1, rs2 },
        Op::Or => Action::Or { rd, rs1, rs2 },
        Op::And => Action::And { rd, rs1, rs2 },
        Op::Mul => Action::Mul { rd, rs1, rs2 },
        op => Action::Registers { op, rd, rs1, rs2 },
    }
}

/// The action of an operation on a register and a constant.
fn by_constant(op: Op, rd: Reg, rs1: Reg, imm: i32) -> Action
    ensures { insn_of result ≡ AluImm op rd rs1 imm }
{
    match op {
        Op::Add => Action::Addi { rd, rs1, imm },
        Op::Sll => Action::Slli { rd, rs1, imm },
        Op::Slt => Action::Slti { rd, rs1, imm },
        Op::Sltu => Action::Sltiu { rd, rs1, imm },
        Op::Xor => Action::Xori { rd, rs1, imm },
        Op::Srl => Action::Srli { rd, rs1, imm },
        Op::Sra => Action::Srai { rd, rs1, imm },
        Op::Or => Action::Ori { rd, rs1, imm },
        Op::And => Action::Andi { rd, rs1, imm },
        op => Action::Constant { op, rd, rs1, imm },
    }
}

/// The action of a branch.
fn by_condition(cond: Cond, rs1: Reg, rs2: Reg, offset: i32) -> Action
    ensures { insn_of result ≡ Branch cond rs1 rs2 offset }
{
    match cond {
        Cond::Eq => Action::Beq { rs1, rs2, offset },
        Cond::Ne => Action::Bne { rs1, rs2, offset },
        Cond::Lt => Action::Blt { rs1, rs2, offset },
        Cond::Ge => Action::Bge { rs1, rs2, offset },
        Cond::Ltu => Action::Bltu { rs1, rs2, offset },
        Cond::Geu => Action::Bgeu { rs1, rs2, offset },
    }
}

/// The action of a load.
fn by_kind(kind: LoadKind, rd: Reg, rs1: Reg, offset: i32) -> Action
    ensures { insn_of result ≡ Load kind rd rs1 offset }
{
    match kind {
        LoadKind::B => Action::Lb { rd, rs1, offset },
        LoadKind::H => Action::Lh { rd, rs1, offset },
        LoadKind::W => Action::Lw { rd, rs1, offset },
        LoadKind::Bu => Action::Lbu { rd, rs1, offset },
        LoadKind::Hu => Action::Lhu { rd, rs1, offset },
    }
}

/// The action of a store.
fn by_width(width: Width, rs1: Reg, rs2: Reg, offset: i32) -> Action
    ensures { insn_of result ≡ Store width rs1 rs2 offset }
{
    match width {
        Width::Byte => Action::Sb { rs1, rs2, offset },
        Width::Half => Action::Sh { rs1, rs2, offset },
        Width::Word => Action::Sw { rs1, rs2, offset },
    }
}
