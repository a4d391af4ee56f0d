//! From an instruction to its line.
ghost use Rattle.std.specs.Prelude.{◌≡◌, true, [], ◌∷◌, ◌++◌, codes, OnOk, IfOk};
ghost use Rattle.std.specs.Fmt.{decimal, signed_decimal};
ghost use Rattle.std.specs.String.{string_bytes};
ghost use Rattle.ci_reading.specs.Hex.{eight_hex_digits};
ghost use Rattle.ci_isa.specs.Effects.{is_access};
ghost use Rattle.ci_isa.specs.Table.{IsWellFormed};
ghost use Rattle.ci_asm.specs.Shown.{register_name, address, upper_text, listed, statement_line, shown};
ghost use Rattle.ci_asm.specs.Promised.{IsLineOf};

use crate::mnemonics::{branch_name, immediate_name, load_name, operation_name, store_name};
use ci_isa::{Cond, Insn, Reg};
use ci_reading::push_hex;
use ci_word::Op;
use std::alloc::{AllocError, Global};

/// The one line, without its newline, that assembles to the instruction, which is well formed.
///
/// One space stands behind the mnemonic, and `, ` between operands. Numbers are decimal, but for
/// the upper bits of LUI and AUIPC, in hex without leading zeros, and a word that is no
/// instruction, in eight hex digits behind `.word`. The index 0 of `cread` isn't written.
pub fn show(alloc: Global, insn: &Insn) -> Result<String, AllocError>
    requires { IsWellFormed insn.now }
    ensures text { IfOk result (λ text. string_bytes text ≡ shown insn.now) }
    ensures assembles { IfOk result (λ text. IsLineOf (string_bytes text) insn.now) }
{
    let mut text = String::new(alloc);
    push_line(&mut text, insn)?;
    Ok(text)
}

/// Appends the instruction's line.
fn push_line(text: &mut String, insn: &Insn) -> Result<(), AllocError>
    requires { IsWellFormed insn.now }
    ensures { OnOk result (string_bytes text.new ≡ string_bytes text.old ++ shown insn.now) }
{
    match *insn {
        Insn::Alu { op, rd, rs1, rs2 } => push_operation(text, op, rd, rs1, rs2),
        Insn::AluImm { op, rd, rs1, imm } => push_constant(text, op, rd, rs1, imm),
        Insn::Lui { rd, upper } => push_upper(text, "lui", rd, upper),
        Insn::Auipc { rd, upper } => push_upper(text, "auipc", rd, upper),
        Insn::Jal { rd, offset } => push_jump(text, rd, offset),
        Insn::Jalr { rd, rs1, offset } => push_access(text, "jalr", rd, offset, rs1),
        Insn::Branch {
            cond,
            rs1,
            rs2,
            offset,
        } => push_branch(text, cond, rs1, rs2, offset),
        Insn::Load { .. } | Insn::Store { .. } => push_load_or_store(text, insn),
        Insn::Fence { bits, rs1, rd } => push_fence(text, bits, rs1, rd),
        Insn::Ecall => text.push_str("ecall"),
        Insn::Ebreak => text.push_str("ebreak"),
        Insn::Unit {
            number,
            rd,
            rs1,
            rs2,
            rs3,
        } => push_unit(text, number, rd, rs1, rs2, rs3),
        Insn::Cread { rd, index } => push_cread(text, rd, index),
        Insn::Cput { rs1, rs2 } => push_cput(text, rs1, rs2),
        Insn::Illegal { word } => {
            push_mnemonic(text, ".word")?;
            push_word(text, word)
        }
    }
}

/// Appends the line of an operation on two registers.
fn push_operation(text: &mut String, op: Op, rd: Reg, rs1: Reg, rs2: Reg) -> Result<(), AllocError>
    ensures { OnOk result (string_bytes text.new ≡ string_bytes text.old ++ shown (Insn.Alu op rd rs1 rs2)) }
{
    push_mnemonic(text, operation_name(op))?;
    push_registers(text, rd, rs1, rs2)
}

/// Appends the line of an operation on a register and a constant, which has such a form.
fn push_constant(text: &mut String, op: Op, rd: Reg, rs1: Reg, imm: i32) -> Result<(), AllocError>
    requires { IsWellFormed (Insn.AluImm op rd rs1 imm) }
    ensures { OnOk result (string_bytes text.new ≡ string_bytes text.old ++ shown (Insn.AluImm op rd rs1 imm)) }
{
    push_mnemonic(text, immediate_name(op))?;
    push_first(text, rd)?;
    push_first(text, rs1)?;
    push_signed(text, imm)
}

/// Appends the line of JAL.
fn push_jump(text: &mut String, rd: Reg, offset: i32) -> Result<(), AllocError>
    ensures { OnOk result (string_bytes text.new ≡ string_bytes text.old ++ shown (Insn.Jal rd offset)) }
{
    push_mnemonic(text, "jal")?;
    push_first(text, rd)?;
    push_signed(text, offset)
}

/// Appends the line of a branch.
fn push_branch(
    text: &mut String,
    cond: Cond,
    rs1: Reg,
    rs2: Reg,
    offset: i32,
) -> Result<(), AllocError>
    ensures { OnOk result (string_bytes text.new ≡ string_bytes text.old ++ shown (Insn.Branch cond rs1 rs2 offset)) }
{
    push_mnemonic(text, branch_name(cond))?;
    push_first(text, rs1)?;
    push_first(text, rs2)?;
    push_signed(text, offset)
}

/// Appends the line of a load or a store.
fn push_load_or_store(text: &mut String, insn: &Insn) -> Result<(), AllocError>
    requires { is_access insn.now ≡ true }
    ensures { OnOk result (string_bytes text.new ≡ string_bytes text.old ++ shown insn.now) }
{
    match *insn {
        Insn::Load {
            kind,
            rd,
            rs1,
            offset,
        } => push_access(text, load_name(kind), rd, offset, rs1),
        Insn::Store {
            width,
            rs1,
            rs2,
            offset,
        } => push_access(text, store_name(width), rs2, offset, rs1),
        _ => unreachable!(),
    }
}

/// Appends the line of FENCE.
fn push_fence(text: &mut String, bits: u16, rs1: Reg, rd: Reg) -> Result<(), AllocError>
    ensures { OnOk result (string_bytes text.new ≡ string_bytes text.old ++ shown (Insn.Fence bits rs1 rd)) }
{
    push_mnemonic(text, "fence")?;
    push_number(text, u32::from(bits))?;
    push_first(text, rs1)?;
    push_register(text, rd)
}

/// Appends the line of a unit word.
fn push_unit(
    text: &mut String,
    number: u8,
    rd: Reg,
    rs1: Reg,
    rs2: Reg,
    rs3: Reg,
) -> Result<(), AllocError>
    ensures { OnOk result (string_bytes text.new ≡ string_bytes text.old ++ shown (Insn.Unit number rd rs1 rs2 rs3)) }
{
    push_mnemonic(text, "ci")?;
    push_number(text, u32::from(number))?;
    push_first(text, rd)?;
    push_registers(text, rs1, rs2, rs3)
}

/// Appends the line of `cread`. The index 0 isn't written.
fn push_cread(text: &mut String, rd: Reg, index: u8) -> Result<(), AllocError>
    ensures { OnOk result (string_bytes text.new ≡ string_bytes text.old ++ shown (Insn.Cread rd index)) }
{
    push_mnemonic(text, "cread")?;
    push_register(text, rd)?;
    if index == 0 {
        return Ok(());
    }
    write!(text, ", {index}")
}

/// Appends the line of `cput`.
fn push_cput(text: &mut String, rs1: Reg, rs2: Reg) -> Result<(), AllocError>
    ensures { OnOk result (string_bytes text.new ≡ string_bytes text.old ++ shown (Insn.Cput rs1 rs2)) }
{
    push_mnemonic(text, "cput")?;
    push_first(text, rs1)?;
    push_register(text, rs2)
}

/// Appends the mnemonic and a space.
fn push_mnemonic(text: &mut String, name: &str) -> Result<(), AllocError>
    ensures { OnOk result (string_bytes text.new ≡ string_bytes text.old ++ (name.now ++ codes " ")) }
{
    text.push_str(name)?;
    text.push(' ')
}

fn push_register(text: &mut String, register: Reg) -> Result<(), AllocError>
    ensures { OnOk result
        (string_bytes text.new ≡ string_bytes text.old ++ register_name register) }
{
    let number = register.number();
    write!(text, "x{number}")
}

/// Appends an operand that isn't the last.
fn push_first(text: &mut String, register: Reg) -> Result<(), AllocError>
    ensures { OnOk result
        (string_bytes text.new ≡ string_bytes text.old ++ (register_name register ++ codes ", ")) }
{
    push_register(text, register)?;
    text.push_str(", ")
}

/// Appends three operands.
fn push_registers(text: &mut String, a: Reg, b: Reg, c: Reg) -> Result<(), AllocError>
    ensures { OnOk result (string_bytes text.new ≡ string_bytes text.old
        ++ listed (register_name a ∷ register_name b ∷ register_name c ∷ [])) }
{
    push_first(text, a)?;
    push_first(text, b)?;
    push_register(text, c)
}

/// Appends a number that isn't the last operand.
fn push_number(text: &mut String, number: u32) -> Result<(), AllocError>
    ensures { OnOk result
        (string_bytes text.new ≡ string_bytes text.old ++ (decimal number ++ codes ", ")) }
{
    write!(text, "{number}")?;
    text.push_str(", ")
}

fn push_signed(text: &mut String, number: i32) -> Result<(), AllocError>
    ensures { OnOk result (string_bytes text.new ≡ string_bytes text.old ++ signed_decimal number) }
{
    write!(text, "{number}")
}

/// Appends the line of a load, a store or JALR.
fn push_access(
    text: &mut String,
    name: &str,
    first: Reg,
    offset: i32,
    base: Reg,
) -> Result<(), AllocError>
    ensures { OnOk result (string_bytes text.new ≡ string_bytes text.old
        ++ statement_line name.now (register_name first ∷ address offset base ∷ [])) }
{
    push_mnemonic(text, name)?;
    push_first(text, first)?;
    push_address(text, offset, base)
}

/// Appends an offset from a register.
fn push_address(text: &mut String, offset: i32, base: Reg) -> Result<(), AllocError>
    ensures { OnOk result (string_bytes text.new ≡ string_bytes text.old ++ address offset base) }
{
    push_signed(text, offset)?;
    text.push('(')?;
    push_register(text, base)?;
    text.push(')')
}

/// Appends the line of LUI or AUIPC.
fn push_upper(text: &mut String, name: &str, rd: Reg, upper: u32) -> Result<(), AllocError>
    ensures { OnOk result (string_bytes text.new ≡ string_bytes text.old
        ++ statement_line name.now (register_name rd ∷ upper_text upper ∷ [])) }
{
    let bits = upper / 4096;
    push_mnemonic(text, name)?;
    push_first(text, rd)?;
    write!(text, "0x{bits:x}")
}

/// Appends the whole word, in eight hex digits.
fn push_word(text: &mut String, word: u32) -> Result<(), AllocError>
    ensures { OnOk result
        (string_bytes text.new ≡ string_bytes text.old ++ (codes "0x" ++ eight_hex_digits word)) }
{
    text.push_str("0x")?;
    push_hex(text, word)
}
