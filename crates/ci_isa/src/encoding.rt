//! From instructions to words.
ghost use Rattle.std.specs.Prelude.{◌≡◌, ℕ, ◌^◌, ◌<◌, ◌↔◌, IsTrue};
ghost use Rattle.ci_isa.specs.Fields as fields;
ghost use Rattle.ci_isa.specs.Fields.{field, immediate_format, signed_immediate};
ghost use Rattle.ci_isa.specs.declared.instruction.Insn.{Insn};
ghost use Rattle.ci_isa.specs.Table.{operation_codes, constant_form, ShiftAmount, condition_code, load_code};
ghost use Rattle.ci_isa.specs.Table.{store_code, Reads, ReadsX, IsWordOf, IsWellFormed};

use crate::immediates::{
    branch_high_bits, branch_low_bits, immediate_bits, jump_bits, store_high_bits, store_low_bits,
};
use crate::instruction::{Cond, Insn, LoadKind, Width};
use crate::opcodes::{
    AUIPC, BRANCH, CUSTOM_0, CUSTOM_1, EBREAK, ECALL, JAL, JALR, LOAD, LUI, MISC_MEM, OP, OP_IMM,
    STORE,
};
use crate::register::Reg;
use ci_word::Op;

/// The one word that stands for the instruction, which is well formed.
#[tactic(auto, using(crate::proofs::ConstantLaws::passed))]
pub fn encode(insn: &Insn) -> u32
    requires { IsWellFormed insn.now }
    ensures reads_back { IsWordOf result insn.now }
    ensures only { (w : ℕ) → IsWordOf w insn.now → w ≡ result }
{
    match *insn {
        Insn::Alu { op, rd, rs1, rs2 } => operation_word(op, rd, rs1, rs2),
        Insn::AluImm { op, rd, rs1, imm } => constant_word(op, rd, rs1, imm),
        Insn::Lui { rd, upper } => upper_word(LUI, rd, upper >> 12),
        Insn::Auipc { rd, upper } => upper_word(AUIPC, rd, upper >> 12),
        Insn::Jal { rd, offset } => jump_word(rd, offset),
        Insn::Jalr { rd, rs1, offset } => immediate_word(JALR, rd, 0, rs1, offset),
        Insn::Branch {
            cond,
            rs1,
            rs2,
            offset,
        } => branch_word(cond, rs1, rs2, offset),
        Insn::Load {
            kind,
            rd,
            rs1,
            offset,
        } => immediate_word(LOAD, rd, load_code(kind), rs1, offset),
        Insn::Store {
            width,
            rs1,
            rs2,
            offset,
        } => store_word(width, rs1, rs2, offset),
        Insn::Fence { bits, rs1, rd } => fence_word(bits, rs1, rd),
        Insn::Ecall => ECALL,
        Insn::Ebreak => EBREAK,
        Insn::Unit {
            number,
            rd,
            rs1,
            rs2,
            rs3,
        } => unit_word(number, rd, rs1, rs2, rs3),
        Insn::Cread { rd, index } => cread_word(rd, index),
        Insn::Cput { rs1, rs2 } => cput_word(rs1, rs2),
        Insn::Illegal { word } => word,
    }
}

/// The word of an operation on two registers.
fn operation_word(op: Op, rd: Reg, rs1: Reg, rs2: Reg) -> u32
    ensures { (w : ℕ) → Reads w (Insn.Alu op rd rs1 rs2) → w ≡ result }
{
    word_of_fields(
        OP,
        number(rd),
        funct3(op),
        number(rs1),
        number(rs2),
        funct7(op),
    )
}

/// The word of an operation on a register and a constant.
fn constant_word(op: Op, rd: Reg, rs1: Reg, imm: i32) -> u32
    ensures { (w : ℕ) → Reads w (Insn.AluImm op rd rs1 imm) → w ≡ result }
{
    if !is_shift(op) {
        return immediate_word(OP_IMM, rd, funct3(op), rs1, imm);
    }
    let amount = imm.cast_unsigned();
    word_of_fields(
        OP_IMM,
        number(rd),
        funct3(op),
        number(rs1),
        amount,
        funct7(op),
    )
}

/// Whether the constant of a register-immediate form is a shift amount.
fn is_shift(op: Op) -> bool
    ensures { IsTrue result ↔ (constant_form op ≡ ShiftAmount) }
{
    matches!(op, Op::Sll | Op::Srl | Op::Sra)
}

/// The word of JAL.
fn jump_word(rd: Reg, offset: i32) -> u32
    ensures { (w : ℕ) → Reads w (Insn.Jal rd offset) → w ≡ result }
{
    upper_word(JAL, rd, jump_bits(offset))
}

/// The word of a branch.
fn branch_word(cond: Cond, rs1: Reg, rs2: Reg, offset: i32) -> u32
    ensures { (w : ℕ) → Reads w (Insn.Branch cond rs1 rs2 offset) → w ≡ result }
{
    word_of_fields(
        BRANCH,
        branch_low_bits(offset),
        condition_code(cond),
        number(rs1),
        number(rs2),
        branch_high_bits(offset),
    )
}

/// The word of a store.
fn store_word(width: Width, rs1: Reg, rs2: Reg, offset: i32) -> u32
    ensures { (w : ℕ) → Reads w (Insn.Store width rs1 rs2 offset) → w ≡ result }
{
    word_of_fields(
        STORE,
        store_low_bits(offset),
        store_code(width),
        number(rs1),
        number(rs2),
        store_high_bits(offset),
    )
}

/// The word of a unit.
fn unit_word(unit: u8, rd: Reg, rs1: Reg, rs2: Reg, rs3: Reg) -> u32
    ensures { (w : ℕ) → ReadsX w (Insn.Unit unit rd rs1 rs2 rs3) → w ≡ result }
{
    let unit = u32::from(unit);
    let high = number(rs3) << 2 | unit / 8;
    word_of_fields(
        CUSTOM_0,
        number(rd),
        unit % 8,
        number(rs1),
        number(rs2),
        high,
    )
}

/// The word of `cread`.
fn cread_word(rd: Reg, index: u8) -> u32
    ensures { (w : ℕ) → ReadsX w (Insn.Cread rd index) → w ≡ result }
{
    word_of_fields(CUSTOM_1, number(rd), 0, 0, u32::from(index), 0)
}

/// The word of `cput`.
fn cput_word(rs1: Reg, rs2: Reg) -> u32
    ensures { (w : ℕ) → ReadsX w (Insn.Cput rs1 rs2) → w ≡ result }
{
    word_of_fields(CUSTOM_1, 0, 1, number(rs1), number(rs2), 0)
}

/// The word with this opcode and these bits in the places of rd, funct3, rs1, rs2 and funct7.
fn word_of_fields(opcode: u32, rd: u32, funct3: u32, rs1: u32, rs2: u32, funct7: u32) -> u32
    ensures { (w : ℕ) → w < 2 ^ 32 → fields.opcode w ≡ opcode → fields.rd_field w ≡ rd
        → fields.funct3 w ≡ funct3 → fields.rs1_field w ≡ rs1 → fields.rs2_field w ≡ rs2
        → fields.funct7 w ≡ funct7 → w ≡ result }
{
    funct7 << 25 | rs2 << 20 | rs1 << 15 | funct3 << 12 | rd << 7 | opcode
}

/// The word of the format I with this opcode.
fn immediate_word(opcode: u32, rd: Reg, funct3: u32, rs1: Reg, immediate: i32) -> u32
    ensures { (w : ℕ) → w < 2 ^ 32 → fields.opcode w ≡ opcode → fields.rd_field w ≡ rd
        → fields.funct3 w ≡ funct3 → fields.rs1_field w ≡ rs1
        → signed_immediate immediate_format w ≡ immediate → w ≡ result }
{
    let high = immediate_bits(immediate);
    word_of_fields(
        opcode,
        number(rd),
        funct3,
        number(rs1),
        high & 31,
        high >> 5,
    )
}

/// The word of FENCE.
fn fence_word(bits: u16, rs1: Reg, rd: Reg) -> u32
    ensures { (w : ℕ) → Reads w (Insn.Fence bits rs1 rd) → w ≡ result }
{
    let high = u32::from(bits);
    word_of_fields(MISC_MEM, number(rd), 0, number(rs1), high & 31, high >> 5)
}

/// The word with this opcode, rd, and bits from 31 to 12.
fn upper_word(opcode: u32, rd: Reg, upper: u32) -> u32
    ensures { (w : ℕ) → w < 2 ^ 32 → fields.opcode w ≡ opcode → fields.rd_field w ≡ rd
        → field w 31 12 ≡ upper → w ≡ result }
{
    upper << 12 | number(rd) << 7 | opcode
}

fn number(register: Reg) -> u32
    ensures { result ≡ register }
{
    u32::from(register.number())
}

fn condition_code(cond: Cond) -> u32
    ensures { result ≡ condition_code cond }
{
    match cond {
        Cond::Eq => 0,
        Cond::Ne => 1,
        Cond::Lt => 4,
        Cond::Ge => 5,
        Cond::Ltu => 6,
        Cond::Geu => 7,
    }
}

fn load_code(kind: LoadKind) -> u32
    ensures { result ≡ load_code kind }
{
    match kind {
        LoadKind::B => 0,
        LoadKind::H => 1,
        LoadKind::W => 2,
        LoadKind::Bu => 4,
        LoadKind::Hu => 5,
    }
}

fn store_code(width: Width) -> u32
    ensures { result ≡ store_code width }
{
    match width {
        Width::Byte => 0,
        Width::Half => 1,
        Width::Word => 2,
    }
}

fn funct3(op: Op) -> u32
    ensures { result ≡ (operation_codes op).0 }
{
    match op {
        Op::Add | Op::Sub | Op::Mul => 0,
        Op::Sll | Op::Mulh => 1,
        Op::Slt | Op::Mulhsu => 2,
        Op::Sltu | Op::Mulhu => 3,
        Op::Xor | Op::Div => 4,
        Op::Srl | Op::Sra | Op::Divu => 5,
        Op::Or | Op::Rem => 6,
        Op::And | Op::Remu => 7,
    }
}

fn funct7(op: Op) -> u32
    ensures { result ≡ (operation_codes op).1 }
{
    match op {
        Op::Sub | Op::Sra => 0x20,
        Op::Mul | Op::Mulh | Op::Mulhsu | Op::Mulhu => 0x01,
        Op::Div | Op::Divu | Op::Rem | Op::Remu => 0x01,
        _ => 0x00,
    }
}
