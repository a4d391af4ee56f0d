//! The text of a program: its instructions and their words.
ghost use Rattle.std.specs.Prelude.{◌≡◌, ℕ, ◌+◌, ◌*◌, ◌<◌, [], ◌∷◌, pos, IfOk, OnOk};
ghost use Rattle.ci_isa.specs.declared.instruction.Insn.{Insn};
ghost use Rattle.ci_isa.specs.FieldBounds.{FieldsFit};
ghost use Rattle.ci_gen.specs.Draws.{state_of};
ghost use Rattle.ci_gen.specs.Texts.{add_constant, ending, group, operation, operation_of, text_of};
ghost use Rattle.ci_gen.specs.private.Pushed.{ArePushed, AreOnlyWordsOf};

use crate::generator::Generator;
use ci_isa::{Insn, Reg, Width, encode};
use ci_word::Op;
use std::alloc::{AllocError, Global};

/// How many groups there are.
const GROUPS: u32 = 1800;

/// How many operations a group has.
const OPERATIONS: u32 = 8;

/// Where the one value stands.
const VALUE_ADDRESS: u32 = 0x2_0000;

/// The words of the text of a seed.
pub fn text(alloc: Global, seed: u32) -> Result<Vec<u32>, AllocError>
    ensures { IfOk result (λ text. AreOnlyWordsOf text.items (text_of seed)) }
{
    let mut text = Vec::new(alloc);
    let mut generator = Generator::new(seed);
    for _ in 0..GROUPS {
        push_group(&mut text, &mut generator)?;
    }
    push_ending(&mut text)?;
    Ok(text)
}

/// Appends the next group: eight operations and a jump to the next word.
fn push_group(text: &mut Vec<u32>, generator: &mut Generator) -> Result<(), AllocError>
    ensures words { OnOk result ((seed n : ℕ) → generator.old.state ≡ state_of seed (32 * n)
        → ArePushed text.old.items text.new.items (group seed n)) }
    ensures moves { OnOk result ((seed n : ℕ) → generator.old.state ≡ state_of seed (32 * n)
        → generator.new.state ≡ state_of seed (32 * (n + 1))) }
{
    for _ in 0..OPERATIONS {
        push(text, &next_operation(generator))?;
    }
    let rd = Reg::zero();
    push(text, &Insn::Jal { rd, offset: 4 })?;
    Ok(())
}

/// Appends the word of the instruction.
fn push(text: &mut Vec<u32>, insn: &Insn) -> Result<(), AllocError>
    requires { FieldsFit insn.now }
    ensures { OnOk result (ArePushed text.old.items text.new.items (insn.now ∷ [])) }
{
    text.push(encode(insn))?;
    Ok(())
}

/// The operation that the next four draws say.
fn next_operation(generator: &mut Generator) -> Insn
    ensures value { (seed n : ℕ) → generator.old.state ≡ state_of seed (4 * n) → result ≡ operation seed n }
    ensures moves { (seed n : ℕ) → generator.old.state ≡ state_of seed (4 * n)
        → generator.new.state ≡ state_of seed (4 * (n + 1)) }
    ensures fields { FieldsFit result }
{
    let kind = generator.kind();
    let rd = generator.register();
    let rs1 = generator.register();
    let last = generator.register();
    operation_of(kind, rd, rs1, last)
}

/// The operation of a kind, 0 to 7, whose last operand is a register or, as a constant, that register's number.
#[tactic(auto, unfolding(crate::specs::Texts::operation_of))]
fn operation_of(kind: u32, rd: Reg, rs1: Reg, last: Reg) -> Insn
    requires { kind < 8 }
    ensures value { result ≡ operation_of kind rd rs1 last }
    ensures fields { FieldsFit result }
{
    match kind {
        0 => on_registers(Op::Add, rd, rs1, last),
        1 => on_registers(Op::Sub, rd, rs1, last),
        2 => on_registers(Op::Xor, rd, rs1, last),
        3 => on_registers(Op::Or, rd, rs1, last),
        4 => on_registers(Op::And, rd, rs1, last),
        5 => on_constant(Op::Sll, rd, rs1, last.number()),
        6 => on_constant(Op::Srl, rd, rs1, last.number()),
        _ => on_constant(Op::Add, rd, rs1, last.number()),
    }
}

/// The operation on two registers.
fn on_registers(op: Op, rd: Reg, rs1: Reg, rs2: Reg) -> Insn
    ensures value { result ≡ Insn.Alu op rd rs1 rs2 }
    ensures fields { FieldsFit result }
{
    Insn::Alu { op, rd, rs1, rs2 }
}

/// The operation on a register and a constant.
fn on_constant(op: Op, rd: Reg, rs1: Reg, constant: u8) -> Insn
    ensures { result ≡ Insn.AluImm op rd rs1 (pos constant) }
{
    Insn::AluImm {
        op,
        rd,
        rs1,
        imm: i32::from(constant),
    }
}

/// Appends the instructions that write x5 to the output and end the program.
fn push_ending(text: &mut Vec<u32>) -> Result<(), AllocError>
    ensures { OnOk result (ArePushed text.old.items text.new.items ending) }
{
    for insn in &ending() {
        push(text, insn)?;
    }
    Ok(())
}

/// The instructions that write x5 to the output, behind which the program ends with exit code 0.
#[tactic(auto, unfolding(crate::specs::Texts::ending))]
fn ending() -> [Insn; 10]
    ensures { result ≡ ending }
{
    [
        Insn::Lui {
            rd: register(28),
            upper: VALUE_ADDRESS,
        },
        Insn::Store {
            width: Width::Word,
            rs1: register(28),
            rs2: register(5),
            offset: 0,
        },
        add_constant(11, 28, 0),
        add_constant(10, 0, 1),
        add_constant(12, 0, 4),
        add_constant(17, 0, 64),
        Insn::Ecall,
        add_constant(10, 0, 0),
        add_constant(17, 0, 93),
        Insn::Ecall,
    ]
}

/// The sum of a register and a constant.
fn add_constant(rd: u8, rs1: u8, constant: u8) -> Insn
    requires rd { rd < 32 }
    requires rs1 { rs1 < 32 }
    ensures { result ≡ add_constant rd rs1 constant }
{
    on_constant(Op::Add, register(rd), register(rs1), constant)
}

/// The register of this number.
fn register(number: u8) -> Reg
    requires { number < 32 }
    ensures { result ≡ number }
{
    Reg::new(number).unwrap()
}
