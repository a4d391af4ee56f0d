//! From words to instructions.
ghost use Rattle.std.specs.Prelude.{◌≡◌, Some, IfSome, IfNone};
ghost use Rattle.ci_isa.specs.declared.instruction.Insn.{Insn};
ghost use Rattle.ci_isa.specs.Fields as fields;
ghost use Rattle.ci_isa.specs.Table.{Reads, ReadsX, IsWellFormed, IsInsnAt};
ghost use Rattle.ci_isa.specs.private.Decoding as row;

use crate::fields::bits;
use crate::immediates::{
    branch_offset_of, immediate_of, jump_offset_of, store_offset_of, upper_of,
};
use crate::instruction::{Cond, Insn, LoadKind, Width};
use crate::opcodes::{
    AUIPC, BRANCH, CUSTOM_0, CUSTOM_1, EBREAK, ECALL, JAL, JALR, LOAD, LUI, MISC_MEM, OP, OP_IMM,
    STORE,
};
use crate::register::Reg;
use ci_word::Op;

/// The instruction that the word reads as in the plain table, or `None` where the table has no row for it.
pub fn decode(word: u32) -> Option<Insn>
    ensures found { IfSome result (λ insn. Reads word insn) }
    ensures only { (insn : Insn) → Reads word insn → result ≡ Some insn }
    ensures none { IfNone result ((insn : Insn) → ¬ Reads word insn) }
    ensures well_formed { IfSome result IsWellFormed }
{
    plain_row(word)
}

/// The instruction that the word reads as in the extended table, or `None` where the table has no row for
/// it.
pub fn decode_x(word: u32) -> Option<Insn>
    ensures found { IfSome result (λ insn. ReadsX word insn) }
    ensures only { (insn : Insn) → ReadsX word insn → result ≡ Some insn }
    ensures none { IfNone result ((insn : Insn) → ¬ ReadsX word insn) }
    ensures well_formed { IfSome result IsWellFormed }
{
    extended_row(word)
}

/// The instruction that the word reads as in the plain table, or `Illegal` with the word where the table
/// has no row for it.
pub fn insn_at(word: u32) -> Insn
    ensures found { IsInsnAt word result }
    ensures only { (insn : Insn) → Reads word insn → result ≡ insn }
    ensures well_formed { IsWellFormed result }
{
    decode(word).unwrap_or(Insn::Illegal { word })
}

/// What the extended table has for the word.
#[tactic(auto, unfolding(crate::specs::private::Decoding::extended_row))]
fn extended_row(word: u32) -> Option<Insn>
    ensures { result ≡ row.extended_row word }
{
    match bits(word, 6, 0) {
        CUSTOM_0 => Some(unit(word)),
        CUSTOM_1 => cread_or_cput(word),
        _ => plain_row(word),
    }
}

/// What the plain table has for the word.
#[tactic(auto, unfolding(crate::specs::private::Decoding::plain_row))]
fn plain_row(word: u32) -> Option<Insn>
    ensures { result ≡ row.plain_row word }
{
    match bits(word, 6, 0) {
        LUI => Some(Insn::Lui {
            rd: rd(word),
            upper: upper_of(word),
        }),
        AUIPC => Some(Insn::Auipc {
            rd: rd(word),
            upper: upper_of(word),
        }),
        JAL => Some(Insn::Jal {
            rd: rd(word),
            offset: jump_offset_of(word),
        }),
        JALR => jump_to_register(word),
        BRANCH => branch(word),
        LOAD => load(word),
        STORE => store(word),
        OP_IMM => operation_on_constant(word),
        OP => operation(word),
        MISC_MEM => fence(word),
        _ => environment(word),
    }
}

/// A word of the opcode JALR.
#[tactic(auto, unfolding(crate::specs::private::Decoding::jump_row))]
fn jump_to_register(word: u32) -> Option<Insn>
    ensures { result ≡ row.jump_row word }
{
    if bits(word, 14, 12) != 0 {
        return None;
    }
    Some(Insn::Jalr {
        rd: rd(word),
        rs1: rs1(word),
        offset: immediate_of(word),
    })
}

/// A word of the opcode BRANCH.
#[tactic(auto, unfolding(crate::specs::private::Decoding::branch_row))]
fn branch(word: u32) -> Option<Insn>
    ensures { result ≡ row.branch_row word }
{
    let cond = condition_at(bits(word, 14, 12))?;
    Some(Insn::Branch {
        cond,
        rs1: rs1(word),
        rs2: rs2(word),
        offset: branch_offset_of(word),
    })
}

/// A word of the opcode LOAD.
#[tactic(auto, unfolding(crate::specs::private::Decoding::load_row))]
fn load(word: u32) -> Option<Insn>
    ensures { result ≡ row.load_row word }
{
    let kind = load_at(bits(word, 14, 12))?;
    Some(Insn::Load {
        kind,
        rd: rd(word),
        rs1: rs1(word),
        offset: immediate_of(word),
    })
}

/// A word of the opcode STORE.
#[tactic(auto, unfolding(crate::specs::private::Decoding::store_row))]
fn store(word: u32) -> Option<Insn>
    ensures { result ≡ row.store_row word }
{
    let width = width_at(bits(word, 14, 12))?;
    Some(Insn::Store {
        width,
        rs1: rs1(word),
        rs2: rs2(word),
        offset: store_offset_of(word),
    })
}

/// A word of the opcode OP-IMM.
#[tactic(auto, unfolding(crate::specs::private::Decoding::constant_row))]
fn operation_on_constant(word: u32) -> Option<Insn>
    ensures { result ≡ row.constant_row word }
{
    match bits(word, 14, 12) {
        1 | 5 => shift_by_constant(word),
        _ => operation_on_immediate(word),
    }
}

/// A word of the opcode OP-IMM that has an immediate.
#[tactic(auto, unfolding(crate::specs::private::Decoding::immediate_row))]
fn operation_on_immediate(word: u32) -> Option<Insn>
    ensures { result ≡ row.immediate_row word }
{
    let op = immediate_operation_at(bits(word, 14, 12))?;
    Some(Insn::AluImm {
        op,
        rd: rd(word),
        rs1: rs1(word),
        imm: immediate_of(word),
    })
}

/// A word of the opcode OP-IMM that has an amount for a shift.
#[tactic(auto, unfolding(crate::specs::private::Decoding::shift_row))]
fn shift_by_constant(word: u32) -> Option<Insn>
    ensures { result ≡ row.shift_row word }
{
    let op = shift_at(bits(word, 14, 12), bits(word, 31, 25))?;
    Some(Insn::AluImm {
        op,
        rd: rd(word),
        rs1: rs1(word),
        imm: bits(word, 24, 20) as i32,
    })
}

/// A word of the opcode OP.
#[tactic(auto, unfolding(crate::specs::private::Decoding::operation_row))]
fn operation(word: u32) -> Option<Insn>
    ensures { result ≡ row.operation_row word }
{
    let op = operation_at(bits(word, 14, 12), bits(word, 31, 25))?;
    Some(Insn::Alu {
        op,
        rd: rd(word),
        rs1: rs1(word),
        rs2: rs2(word),
    })
}

/// A word of the opcode MISC-MEM.
#[tactic(auto, unfolding(crate::specs::private::Decoding::fence_row))]
fn fence(word: u32) -> Option<Insn>
    ensures { result ≡ row.fence_row word }
{
    if bits(word, 14, 12) != 0 {
        return None;
    }
    Some(Insn::Fence {
        bits: bits(word, 31, 20) as u16,
        rs1: rs1(word),
        rd: rd(word),
    })
}

/// A word of the opcode SYSTEM, or of one without rows.
#[tactic(auto, unfolding(crate::specs::private::Decoding::environment_row))]
fn environment(word: u32) -> Option<Insn>
    ensures { result ≡ row.environment_row word }
{
    match word {
        ECALL => Some(Insn::Ecall),
        EBREAK => Some(Insn::Ebreak),
        _ => None,
    }
}

/// A word of the opcode custom-0.
#[tactic(auto, unfolding(crate::specs::private::Decoding::unit_row))]
fn unit(word: u32) -> Insn
    ensures { Some result ≡ row.unit_row word }
{
    Insn::Unit {
        number: (bits(word, 26, 25) << 3 | bits(word, 14, 12)) as u8,
        rd: rd(word),
        rs1: rs1(word),
        rs2: rs2(word),
        rs3: Reg::at(word, 27),
    }
}

/// A word of the opcode custom-1.
#[tactic(auto, unfolding(crate::specs::private::Decoding::hidden_row))]
fn cread_or_cput(word: u32) -> Option<Insn>
    ensures { result ≡ row.hidden_row word }
{
    if bits(word, 31, 25) != 0 {
        return None;
    }
    match bits(word, 14, 12) {
        0 => cread(word),
        1 => cput(word),
        _ => None,
    }
}

/// A word that reads a hidden result.
#[tactic(auto, unfolding(crate::specs::private::Decoding::cread_row))]
fn cread(word: u32) -> Option<Insn>
    ensures { result ≡ row.cread_row word }
{
    if bits(word, 19, 15) != 0 {
        return None;
    }
    let index = bits(word, 24, 20);
    if index < 2 {
        Some(Insn::Cread {
            rd: rd(word),
            index: index as u8,
        })
    } else {
        None
    }
}

/// A word that writes the hidden operands.
#[tactic(auto, unfolding(crate::specs::private::Decoding::cput_row))]
fn cput(word: u32) -> Option<Insn>
    ensures { result ≡ row.cput_row word }
{
    if bits(word, 11, 7) != 0 {
        return None;
    }
    Some(Insn::Cput {
        rs1: rs1(word),
        rs2: rs2(word),
    })
}

fn rd(word: u32) -> Reg
    ensures { result ≡ fields.rd_field word }
{
    Reg::at(word, 7)
}

fn rs1(word: u32) -> Reg
    ensures { result ≡ fields.rs1_field word }
{
    Reg::at(word, 15)
}

fn rs2(word: u32) -> Reg
    ensures { result ≡ fields.rs2_field word }
{
    Reg::at(word, 20)
}

fn condition_at(code: u32) -> Option<Cond>
    ensures { result ≡ row.condition_at code }
{
    match code {
        0 => Some(Cond::Eq),
        1 => Some(Cond::Ne),
        4 => Some(Cond::Lt),
        5 => Some(Cond::Ge),
        6 => Some(Cond::Ltu),
        7 => Some(Cond::Geu),
        _ => None,
    }
}

fn load_at(code: u32) -> Option<LoadKind>
    ensures { result ≡ row.load_at code }
{
    match code {
        0 => Some(LoadKind::B),
        1 => Some(LoadKind::H),
        2 => Some(LoadKind::W),
        4 => Some(LoadKind::Bu),
        5 => Some(LoadKind::Hu),
        _ => None,
    }
}

fn width_at(code: u32) -> Option<Width>
    ensures { result ≡ row.width_at code }
{
    match code {
        0 => Some(Width::Byte),
        1 => Some(Width::Half),
        2 => Some(Width::Word),
        _ => None,
    }
}

/// The operation on two registers with these codes.
fn operation_at(funct3: u32, funct7: u32) -> Option<Op>
    ensures { result ≡ row.operation_at funct3 funct7 }
{
    match funct7 {
        0x00 => base_operation_at(funct3),
        0x20 => other_operation_at(funct3),
        0x01 => product_at(funct3),
        _ => None,
    }
}

fn base_operation_at(funct3: u32) -> Option<Op>
    ensures { result ≡ row.base_at funct3 }
{
    match funct3 {
        0 => Some(Op::Add),
        1 => Some(Op::Sll),
        2 => Some(Op::Slt),
        3 => Some(Op::Sltu),
        4 => Some(Op::Xor),
        5 => Some(Op::Srl),
        6 => Some(Op::Or),
        7 => Some(Op::And),
        _ => None,
    }
}

fn other_operation_at(funct3: u32) -> Option<Op>
    ensures { result ≡ row.other_at funct3 }
{
    match funct3 {
        0 => Some(Op::Sub),
        5 => Some(Op::Sra),
        _ => None,
    }
}

/// The operation of the extension M with this code.
fn product_at(funct3: u32) -> Option<Op>
    ensures { result ≡ row.product_at funct3 }
{
    match funct3 {
        0 => Some(Op::Mul),
        1 => Some(Op::Mulh),
        2 => Some(Op::Mulhsu),
        3 => Some(Op::Mulhu),
        4 => Some(Op::Div),
        5 => Some(Op::Divu),
        6 => Some(Op::Rem),
        7 => Some(Op::Remu),
        _ => None,
    }
}

fn immediate_operation_at(funct3: u32) -> Option<Op>
    ensures { result ≡ row.immediate_at funct3 }
{
    match funct3 {
        0 => Some(Op::Add),
        2 => Some(Op::Slt),
        3 => Some(Op::Sltu),
        4 => Some(Op::Xor),
        6 => Some(Op::Or),
        7 => Some(Op::And),
        _ => None,
    }
}

/// The shift by a constant with these codes.
fn shift_at(funct3: u32, funct7: u32) -> Option<Op>
    ensures { result ≡ row.shift_at funct3 funct7 }
{
    match (funct7, funct3) {
        (0x00, 1) => Some(Op::Sll),
        (0x00, 5) => Some(Op::Srl),
        (0x20, 5) => Some(Op::Sra),
        _ => None,
    }
}
