//! Which registers an instruction reads and writes.
ghost use Rattle.std.specs.Prelude.{◌≡◌, [], ◌∷◌};
ghost use Rattle.ci_isa.specs.Effects as terms;
ghost use Rattle.ci_isa.specs.Effects.{padded};
ghost use Rattle.ci_isa.specs.RegisterSets.{registers_read, registers_written, set_without_x0};

use crate::instruction::Insn;
use crate::register::Reg;
use ci_word::Row;

/// The numbers of the registers that the instruction takes its operands from, in their order, and then 0 for none. An
/// operand x0, which is never read, is a 0 in its place.
///
/// An environment call takes its arguments in x10 to x12, and its number in x17.
pub fn operands(insn: &Insn) -> [u8; 4]
    ensures { result ≡ padded 4 (terms.operands insn.now) }
{
    match *insn {
        Insn::Alu { rs1, rs2, .. } => [rs1.number(), rs2.number(), 0, 0],
        Insn::Branch { rs1, rs2, .. } => [rs1.number(), rs2.number(), 0, 0],
        Insn::Store { rs1, rs2, .. } => [rs1.number(), rs2.number(), 0, 0],
        Insn::Cput { rs1, rs2 } => [rs1.number(), rs2.number(), 0, 0],
        Insn::AluImm { rs1, .. } => [rs1.number(), 0, 0, 0],
        Insn::Jalr { rs1, .. } => [rs1.number(), 0, 0, 0],
        Insn::Load { rs1, .. } => [rs1.number(), 0, 0, 0],
        Insn::Unit { rs1, rs2, rs3, .. } => [rs1.number(), rs2.number(), rs3.number(), 0],
        Insn::Ecall => [10, 11, 12, 17],
        _ => [0; 4],
    }
}

/// The register that takes the instruction's result, and x0, which is never written, where it has none.
///
/// An environment call answers in x10.
pub fn result_register(insn: &Insn) -> Reg
    ensures { result ∷ [] ≡ padded 1 (terms.results insn.now) }
{
    match *insn {
        Insn::Alu { rd, .. } => rd,
        Insn::AluImm { rd, .. } => rd,
        Insn::Lui { rd, .. } => rd,
        Insn::Auipc { rd, .. } => rd,
        Insn::Jal { rd, .. } => rd,
        Insn::Jalr { rd, .. } => rd,
        Insn::Load { rd, .. } => rd,
        Insn::Unit { rd, .. } => rd,
        Insn::Cread { rd, .. } => rd,
        Insn::Ecall => Reg::new(10).unwrap(),
        _ => Reg::zero(),
    }
}

/// The number of the register that takes the instruction's result, and 0 for none or for x0, which is never written.
pub fn destination(insn: &Insn) -> u8
    ensures { result ∷ [] ≡ padded 1 (terms.results insn.now) }
{
    result_register(insn).number()
}

/// Whether an operand of the instruction is this register, other than x0.
pub fn reads_register(insn: &Insn, register: u8) -> bool
    ensures { result ≡ terms.reads_register insn.now register }
{
    register != 0 && operands(insn).contains(&register)
}

/// Whether the instruction writes this register, other than x0.
pub fn writes_register(insn: &Insn, register: u8) -> bool
    ensures { result ≡ terms.writes_register insn.now register }
{
    register != 0 && destination(insn) == register
}

/// The numbers of the registers that the instruction reads, without x0.
pub fn reads(insn: &Insn) -> Row
    ensures { result ≡ registers_read insn.now }
{
    registers(&operands(insn))
}

/// The number of the register that the instruction writes, without x0.
pub fn writes(insn: &Insn) -> Row
    ensures { result ≡ registers_written insn.now }
{
    registers(&[destination(insn)])
}

/// The set of these numbers without 0.
fn registers(numbers: &[u8]) -> Row
    ensures { result ≡ set_without_x0 numbers.now }
{
    let mut row = Row::empty();
    for number in numbers {
        row.insert(*number);
    }
    row.remove(0);
    row
}
