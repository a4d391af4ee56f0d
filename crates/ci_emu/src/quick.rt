//! What a step does where nothing has to be noted of it.
ghost use Rattle.std.specs.Prelude.{◌≡◌, ℕ, true, false, None, Some, find};
ghost use Rattle.ci_isa.specs.Effects.{width_bytes};
ghost use Rattle.ci_machine.specs.Accesses.{addresses, load_width};
ghost use Rattle.ci_machine.specs.Actions.{address_from, loaded, stored};
ghost use Rattle.ci_machine.specs.Cores.{register};
ghost use Rattle.ci_machine.specs.States.{bytes_of, program_of, state_of};
ghost use Rattle.ci_machine.specs.Steps.{execute, then_onward, Meaning};
ghost use Rattle.ci_machine.specs.Programs.{in_text};
ghost use Rattle.ci_machine.specs.Touches.{moved};
ghost use Rattle.ci_emu.specs.declared.steps.Outcome.TheVariants.{Next};
ghost use Rattle.ci_emu.specs.Machines.{standing};
ghost use Rattle.ci_emu.specs.private.Actions.{insn_of};
ghost use Rattle.ci_emu.specs.Steps.{LeadsTo};
ghost use Rattle.ci_emu.specs.private.Counting.{first_touch, target_of, Led};
ghost use Rattle.ci_emu.specs.private.Fetched.{may_change, HasHiddenIndex, IsTextBelow};

use crate::actions::Action;
use crate::execution::{
    address, branch, by_constant, by_registers, even, jump, load, pass_operands, read_hidden,
    store, unit, width_of, word_of, write_back,
};
use crate::machine::Machine;
use crate::touches::Touches;
use ci_isa::{Cond, LoadKind, Reg, Width};
use ci_machine::State;
use ci_word::Op;
use std::collections::BTreeSet;

/// Does what the action does on the machine, where the run goes on behind it and nothing has to be noted: no touch of
/// the text, no change of it, no new target of a JALR. Says whether it did.
///
/// The state stays as it is where it did not.
#[inline(always)]
#[tactic(auto, using(crate::proofs::Touched::laws))]
pub(crate) fn perform<M: Machine>(
    machine: &M,
    state: &mut State,
    action: &Action,
    touches: &Touches,
    targets: &BTreeSet<u32>,
) -> bool
    requires behind { IsTextBelow (in_text (program_of state.old)) touches.now.end }
    requires index { HasHiddenIndex (insn_of action.now) }
    ensures performed { result ≡ true → (word : ℕ) (meaning : Meaning) → M.meanings machine.now meaning
        → LeadsTo (state_of state.old) (execute meaning.units (program_of state.old)
        (standing (M.has_unit machine.now) (M.has_hidden machine.now) word (insn_of action.now)) (state_of state.old))
        (state_of state.new) Next }
    ensures stayed { result ≡ false → state_of state.new ≡ state_of state.old }
    ensures program { program_of state.new ≡ program_of state.old }
    ensures touched { result ≡ true → first_touch touches.now.first (state_of state.old).pc
        (find (in_text (program_of state.old)) (moved (insn_of action.now) (state_of state.old).core))
        ≡ touches.now.first }
    ensures changes { result ≡ true
        → may_change (program_of state.old) touches.now.end (insn_of action.now) (state_of state.old).core ≡ false }
    ensures led { result ≡ true → (address : ℕ)
        → target_of (insn_of action.now) Next (state_of state.new).pc ≡ Some address → Led targets.now address }
{
    match *action {
        Action::Add { rd, rs1, rs2 } => by_registers(state, Op::Add, rd, rs1, rs2),
        Action::Sub { rd, rs1, rs2 } => by_registers(state, Op::Sub, rd, rs1, rs2),
        Action::Sll { rd, rs1, rs2 } => by_registers(state, Op::Sll, rd, rs1, rs2),
        Action::Slt { rd, rs1, rs2 } => by_registers(state, Op::Slt, rd, rs1, rs2),
        Action::Sltu { rd, rs1, rs2 } => by_registers(state, Op::Sltu, rd, rs1, rs2),
        Action::Xor { rd, rs1, rs2 } => by_registers(state, Op::Xor, rd, rs1, rs2),
        Action::Srl { rd, rs1, rs2 } => by_registers(state, Op::Srl, rd, rs1, rs2),
        Action::Sra { rd, rs1, rs2 } => by_registers(state, Op::Sra, rd, rs1, rs2),
        Action::Or { rd, rs1, rs2 } => by_registers(state, Op::Or, rd, rs1, rs2),
        Action::And { rd, rs1, rs2 } => by_registers(state, Op::And, rd, rs1, rs2),
        Action::Mul { rd, rs1, rs2 } => by_registers(state, Op::Mul, rd, rs1, rs2),
        Action::Addi { rd, rs1, imm } => by_constant(state, Op::Add, rd, rs1, imm),
        Action::Slli { rd, rs1, imm } => by_constant(state, Op::Sll, rd, rs1, imm),
        Action::Slti { rd, rs1, imm } => by_constant(state, Op::Slt, rd, rs1, imm),
        Action::Sltiu { rd, rs1, imm } => by_constant(state, Op::Sltu, rd, rs1, imm),
        Action::Xori { rd, rs1, imm } => by_constant(state, Op::Xor, rd, rs1, imm),
        Action::Srli { rd, rs1, imm } => by_constant(state, Op::Srl, rd, rs1, imm),
        Action::Srai { rd, rs1, imm } => by_constant(state, Op::Sra, rd, rs1, imm),
        Action::Ori { rd, rs1, imm } => by_constant(state, Op::Or, rd, rs1, imm),
        Action::Andi { rd, rs1, imm } => by_constant(state, Op::And, rd, rs1, imm),
        Action::Beq { rs1, rs2, offset } => branch(state, Cond::Eq, rs1, rs2, offset),
        Action::Bne { rs1, rs2, offset } => branch(state, Cond::Ne, rs1, rs2, offset),
        Action::Blt { rs1, rs2, offset } => branch(state, Cond::Lt, rs1, rs2, offset),
        Action::Bge { rs1, rs2, offset } => branch(state, Cond::Ge, rs1, rs2, offset),
        Action::Bltu { rs1, rs2, offset } => branch(state, Cond::Ltu, rs1, rs2, offset),
        Action::Bgeu { rs1, rs2, offset } => branch(state, Cond::Geu, rs1, rs2, offset),
        Action::Lui { rd, upper } => {
            write_back(state, rd, upper);
            true
        }
        Action::Jal { rd, offset } => {
            let target = state.pc().wrapping_add(word_of(offset));
            jump(state, rd, target)
        }
        Action::Lb { rd, rs1, offset } => read(state, touches, LoadKind::B, rd, rs1, offset),
        Action::Lh { rd, rs1, offset } => read(state, touches, LoadKind::H, rd, rs1, offset),
        Action::Lw { rd, rs1, offset } => read(state, touches, LoadKind::W, rd, rs1, offset),
        Action::Lbu { rd, rs1, offset } => read(state, touches, LoadKind::Bu, rd, rs1, offset),
        Action::Lhu { rd, rs1, offset } => read(state, touches, LoadKind::Hu, rd, rs1, offset),
        Action::Sb { rs1, rs2, offset } => write(state, touches, Width::Byte, rs1, rs2, offset),
        Action::Sh { rs1, rs2, offset } => write(state, touches, Width::Half, rs1, rs2, offset),
        Action::Sw { rs1, rs2, offset } => write(state, touches, Width::Word, rs1, rs2, offset),
        Action::Jalr { rd, rs1, offset } => {
            let target = even(address(state, rs1, offset));
            targets.contains(&target) && jump(state, rd, target)
        }
        Action::Auipc { rd, upper } => {
            let value = state.pc().wrapping_add(upper);
            write_back(state, rd, value);
            true
        }
        Action::Registers { op, rd, rs1, rs2 } => by_registers(state, op, rd, rs1, rs2),
        Action::Constant { op, rd, rs1, imm } => by_constant(state, op, rd, rs1, imm),
        Action::Unit {
            number,
            rd,
            rs1,
            rs2,
            rs3,
        } => unit(machine, state, number, rd, rs1, rs2, rs3),
        Action::Cread { rd, index } => read_hidden(machine, state, rd, index),
        Action::Cput { rs1, rs2 } => pass_operands(machine, state, rs1, rs2),
        Action::Fence { .. } | Action::Ecall | Action::Ebreak | Action::Illegal { .. } => false,
    }
}

/// A load, unless it is the first step that touches the text. Says whether the run goes on.
#[inline(always)]
#[tactic(auto, using(crate::proofs::Touched::laws))]
fn read(
    state: &mut State,
    touches: &Touches,
    kind: LoadKind,
    rd: Reg,
    rs1: Reg,
    offset: i32,
) -> bool
    requires behind { IsTextBelow (in_text (program_of state.old)) touches.now.end }
    ensures loaded { result ≡ true → LeadsTo (state_of state.old)
        (then_onward (state_of state.old).pc
        (loaded (state_of state.old).core kind rd (address_from (state_of state.old).core rs1 offset)
        (bytes_of (state_of state.old).core (address_from (state_of state.old).core rs1 offset) (load_width kind))))
        (state_of state.new) Next }
    ensures stayed { result ≡ false → state_of state.new ≡ state_of state.old }
    ensures program { program_of state.new ≡ program_of state.old }
    ensures touched { result ≡ true → first_touch touches.now.first (state_of state.old).pc
        (find (in_text (program_of state.old)) (addresses (width_bytes (load_width kind))
        (address_from (state_of state.old).core rs1 offset))) ≡ touches.now.first }
{
    let from = address(state, rs1, offset);
    if touches.is_first(state, from, width_of(kind)) {
        return false;
    }
    load(state, kind, rd, from)
}

/// A store, unless it touches the text. Says whether the run goes on.
#[inline(always)]
fn write(
    state: &mut State,
    touches: &Touches,
    width: Width,
    rs1: Reg,
    rs2: Reg,
    offset: i32,
) -> bool
    requires behind { IsTextBelow (in_text (program_of state.old)) touches.now.end }
    ensures stored { result ≡ true → LeadsTo (state_of state.old)
        (then_onward (state_of state.old).pc
        (stored (state_of state.old).core width (address_from (state_of state.old).core rs1 offset)
        (register (state_of state.old).core rs2)
        (bytes_of (state_of state.old).core (address_from (state_of state.old).core rs1 offset) width)))
        (state_of state.new) Next }
    ensures stayed { result ≡ false → state_of state.new ≡ state_of state.old }
    ensures program { program_of state.new ≡ program_of state.old }
    ensures beside { result ≡ true → find (in_text (program_of state.old)) (addresses (width_bytes width)
        (address_from (state_of state.old).core rs1 offset)) ≡ None }
{
    let to = address(state, rs1, offset);
    if touches.touched(state, to, width).is_some() {
        return false;
    }
    store(state, width, rs2, to)
}
