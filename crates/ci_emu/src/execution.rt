//! What each instruction does.
ghost use Rattle.std.specs.Prelude.{◌≡◌, ℕ, ◌+◌, ◌*◌, ◌<◌, ◌≤◌, ◌^◌, ◌-ℤ◌, pos, nat_lt, if◌then◌else◌, IfOk, OnErr};
ghost use Rattle.std.specs.Prelude.{find};
ghost use Rattle.std.specs.Prelude.{true, false, [], ◌∷◌};
ghost use Rattle.ci_word.specs.Arithmetic.{operation, word_of};
ghost use Rattle.ci_word.specs.declared.arithmetic.Op.TheVariants.{Add};
ghost use Rattle.ci_isa.specs.declared.instruction.Insn.TheVariants.{Branch, Cput, Cread, Unit};
ghost use Rattle.ci_machine.specs.declared.ends.End.TheVariants.{Access, Illegal, Misaligned};
ghost use Rattle.ci_machine.specs.Accesses.{extended, load_width};
ghost use Rattle.ci_machine.specs.Actions.{address_from, loaded, stored};
ghost use Rattle.ci_machine.specs.Calls.{call};
ghost use Rattle.ci_machine.specs.Cores.{hidden, register, with_register, with_registers};
ghost use Rattle.ci_machine.specs.States.{bytes_of, program_of, state_of};
ghost use Rattle.ci_machine.specs.Steps.{control, directed, even, execute, following, is_taken, onward, then_onward};
ghost use Rattle.ci_machine.specs.Steps.{Meaning};
ghost use Rattle.ci_machine.specs.Programs.{in_text};
ghost use Rattle.ci_machine.specs.Touches.{moved};
ghost use Rattle.ci_emu.specs.declared.steps.Outcome.TheVariants.{Next};
ghost use Rattle.ci_emu.specs.Machines.{standing};
ghost use Rattle.ci_emu.specs.Steps.{next_or, LeadsTo};
ghost use Rattle.ci_emu.specs.private.Counting.{first_touch};
ghost use Rattle.ci_emu.specs.private.Fetched.{may_change, HasHiddenIndex, IsTextBelow};

use crate::machine::Machine;
use crate::steps::Outcome;
use crate::touches::Touches;
use ci_isa::{Cond, Insn, LoadKind, Reg, Width};
use ci_machine::{Call, End, State};
use ci_word::{Op, alu};
use std::alloc::AllocError;

/// Does what the instruction of the word does on the machine, and notes how it touches the text. Loads, stores and
/// calls alone move bytes.
///
/// The state stays as it is where that ends the run, and where memory runs out.
#[tactic(auto, using(crate::proofs::Touched::laws))]
pub(crate) fn execute<M: Machine>(
    machine: &M,
    state: &mut State,
    word: u32,
    insn: Insn,
    touches: &mut Touches,
) -> Result<Outcome, AllocError>
    requires few { touches.old.changes ≤ 2 ^ 33 }
    requires behind { IsTextBelow (in_text (program_of state.old)) touches.old.end }
    requires index { HasHiddenIndex insn }
    ensures executed { IfOk result (λ outcome. (meaning : Meaning) → M.meanings machine.now meaning
        → LeadsTo (state_of state.old) (execute meaning.units (program_of state.old)
        (standing (M.has_unit machine.now) (M.has_hidden machine.now) word insn) (state_of state.old))
        (state_of state.new) outcome) }
    ensures refused { OnErr result (state_of state.new ≡ state_of state.old) }
    ensures program { program_of state.new ≡ program_of state.old }
    ensures touched { touches.new.first ≡ first_touch touches.old.first (state_of state.old).pc
        (find (in_text (program_of state.old)) (moved insn (state_of state.old).core)) }
    ensures changes { touches.new.changes ≡ touches.old.changes
        + (if may_change (program_of state.old) touches.old.end insn (state_of state.old).core then 1
        else 0) }
    ensures end { touches.new.end ≡ touches.old.end }
{
    match insn {
        Insn::Alu { op, rd, rs1, rs2 } => {
            by_registers(state, op, rd, rs1, rs2);
            Ok(Outcome::Next)
        }
        Insn::AluImm { op, rd, rs1, imm } => {
            by_constant(state, op, rd, rs1, imm);
            Ok(Outcome::Next)
        }
        Insn::Branch {
            cond,
            rs1,
            rs2,
            offset,
        } => {
            let target = state.pc().wrapping_add(word_of(offset));
            let goes = branch(state, cond, rs1, rs2, offset);
            Ok(next_or(goes, End::Misaligned(target)))
        }
        Insn::Lui { rd, upper } => {
            write_back(state, rd, upper);
            Ok(Outcome::Next)
        }
        Insn::Jal { rd, offset } => {
            let target = state.pc().wrapping_add(word_of(offset));
            Ok(next_or(jump(state, rd, target), End::Misaligned(target)))
        }
        Insn::Load {
            kind,
            rd,
            rs1,
            offset,
        } => {
            let from = address(state, rs1, offset);
            let width = width_of(kind);
            touches.note_load(state, from, width);
            Ok(next_or(load(state, kind, rd, from), End::Access(from, width)))
        }
        Insn::Store {
            width,
            rs1,
            rs2,
            offset,
        } => {
            let to = address(state, rs1, offset);
            touches.note_store(state, to, width);
            Ok(next_or(store(state, width, rs2, to), End::Access(to, width)))
        }
        Insn::Jalr { rd, rs1, offset } => {
            let target = even(address(state, rs1, offset));
            Ok(next_or(jump(state, rd, target), End::Misaligned(target)))
        }
        Insn::Auipc { rd, upper } => {
            let value = state.pc().wrapping_add(upper);
            write_back(state, rd, value);
            Ok(Outcome::Next)
        }
        Insn::Fence { .. } => {
            advance(state);
            Ok(Outcome::Next)
        }
        Insn::Ecall => {
            touches.note_call(state);
            call(state)
        }
        Insn::Ebreak => Ok(Outcome::Ended(End::Break)),
        Insn::Illegal { word } => Ok(Outcome::Ended(End::Illegal(word))),
        Insn::Unit {
            number,
            rd,
            rs1,
            rs2,
            rs3,
        } => {
            let goes = unit(machine, state, number, rd, rs1, rs2, rs3);
            Ok(next_or(goes, End::Illegal(word)))
        }
        Insn::Cread { rd, index } => {
            let goes = read_hidden(machine, state, rd, index);
            Ok(next_or(goes, End::Illegal(word)))
        }
        Insn::Cput { rs1, rs2 } => {
            let goes = pass_operands(machine, state, rs1, rs2);
            Ok(next_or(goes, End::Illegal(word)))
        }
    }
}

/// The run goes on, or else ends so.
fn next_or(goes: bool, end: End) -> Outcome
    ensures { result ≡ next_or goes end }
{
    if goes {
        Outcome::Next
    } else {
        Outcome::Ended(end)
    }
}

/// The word of a constant or an offset.
pub(crate) fn word_of(constant: i32) -> u32
    ensures { result ≡ word_of constant }
{
    constant.cast_unsigned()
}

/// The address that is this offset from the one in the register.
pub(crate) fn address(state: &State, rs1: Reg, offset: i32) -> u32
    ensures { result ≡ address_from (state_of state.now).core rs1 offset }
{
    state.register(rs1).wrapping_add(word_of(offset))
}

/// A target with its lowest bit cleared.
pub(crate) fn even(target: u32) -> u32
    ensures { result ≡ even target }
{
    target - target % 2
}

/// On at the next instruction.
pub(crate) fn advance(state: &mut State)
    ensures outcome { LeadsTo (state_of state.old) (onward (state_of state.old).pc (state_of state.old).core)
        (state_of state.new) Next }
    ensures program { program_of state.new ≡ program_of state.old }
{
    let next = state.pc().wrapping_add(4);
    state.set_pc(next);
}

/// The register takes the value, and on at the next instruction.
pub(crate) fn write_back(state: &mut State, rd: Reg, value: u32)
    ensures outcome { LeadsTo (state_of state.old)
        (onward (state_of state.old).pc (with_register (state_of state.old).core rd value))
        (state_of state.new) Next }
    ensures program { program_of state.new ≡ program_of state.old }
{
    state.set_register(rd, value);
    advance(state);
}

/// An operation on two registers. Says that the run goes on.
#[inline(always)]
pub(crate) fn by_registers(state: &mut State, op: Op, rd: Reg, rs1: Reg, rs2: Reg) -> bool
    ensures outcome { LeadsTo (state_of state.old)
        (onward (state_of state.old).pc (with_register (state_of state.old).core rd
        (operation op (register (state_of state.old).core rs1) (register (state_of state.old).core rs2))))
        (state_of state.new) Next }
    ensures goes { result ≡ true }
    ensures program { program_of state.new ≡ program_of state.old }
{
    let value = alu(op, state.register(rs1), state.register(rs2));
    write_back(state, rd, value);
    true
}

/// An operation on a register and a constant. Says that the run goes on.
#[inline(always)]
pub(crate) fn by_constant(state: &mut State, op: Op, rd: Reg, rs1: Reg, imm: i32) -> bool
    ensures outcome { LeadsTo (state_of state.old)
        (onward (state_of state.old).pc (with_register (state_of state.old).core rd
        (operation op (register (state_of state.old).core rs1) (word_of imm))))
        (state_of state.new) Next }
    ensures goes { result ≡ true }
    ensures program { program_of state.new ≡ program_of state.old }
{
    let value = alu(op, state.register(rs1), word_of(imm));
    write_back(state, rd, value);
    true
}

/// The register and the hidden ones take the results of a unit, and on at the next instruction.
fn write_results(state: &mut State, rd: Reg, first: u32, second: u32, third: u32)
    ensures outcome { LeadsTo (state_of state.old) (onward (state_of state.old).pc
        (with_registers (state_of state.old).core (rd ∷ hidden) (first ∷ second ∷ third ∷ [])))
        (state_of state.new) Next }
    ensures program { program_of state.new ≡ program_of state.old }
{
    state.set_hidden(1, third);
    state.set_hidden(0, second);
    write_back(state, rd, first);
}

/// Runs the unit of a number, where the machine has it. Says whether it has.
pub(crate) fn unit<M: Machine>(
    machine: &M,
    state: &mut State,
    number: u8,
    rd: Reg,
    rs1: Reg,
    rs2: Reg,
    rs3: Reg,
) -> bool
    ensures outcome { (word : ℕ) (meaning : Meaning) → M.meanings machine.now meaning
        → LeadsTo (state_of state.old) (execute meaning.units (program_of state.old)
        (standing (M.has_unit machine.now) (M.has_hidden machine.now) word (Unit number rd rs1 rs2 rs3))
        (state_of state.old)) (state_of state.new) (next_or result (Illegal word)) }
    ensures stayed { result ≡ false → state_of state.new ≡ state_of state.old }
    ensures program { program_of state.new ≡ program_of state.old }
{
    let (a, b, c) = (
        state.register(rs1),
        state.register(rs2),
        state.register(rs3),
    );
    let (d, e) = (state.operand(0), state.operand(1));
    match machine.unit(number, a, b, c, d, e) {
        Some((first, second, third)) => {
            write_results(state, rd, first, second, third);
            true
        }
        None => false,
    }
}

/// The register takes the hidden result of this index, where the machine has `cread`. Says whether it has.
pub(crate) fn read_hidden<M: Machine>(machine: &M, state: &mut State, rd: Reg, index: u8) -> bool
    requires { index < 2 }
    ensures outcome { (word : ℕ) (meaning : Meaning) → M.meanings machine.now meaning
        → LeadsTo (state_of state.old) (execute meaning.units (program_of state.old)
        (standing (M.has_unit machine.now) (M.has_hidden machine.now) word (Cread rd index))
        (state_of state.old)) (state_of state.new) (next_or result (Illegal word)) }
    ensures stayed { result ≡ false → state_of state.new ≡ state_of state.old }
    ensures program { program_of state.new ≡ program_of state.old }
{
    if !machine.has_hidden() {
        return false;
    }
    let value = state.hidden(index);
    write_back(state, rd, value);
    true
}

/// The hidden operands take the registers' values, where the machine has `cput`. Says whether it has.
pub(crate) fn pass_operands<M: Machine>(machine: &M, state: &mut State, rs1: Reg, rs2: Reg) -> bool
    ensures outcome { (word : ℕ) (meaning : Meaning) → M.meanings machine.now meaning
        → LeadsTo (state_of state.old) (execute meaning.units (program_of state.old)
        (standing (M.has_unit machine.now) (M.has_hidden machine.now) word (Cput rs1 rs2))
        (state_of state.old)) (state_of state.new) (next_or result (Illegal word)) }
    ensures stayed { result ≡ false → state_of state.new ≡ state_of state.old }
    ensures program { program_of state.new ≡ program_of state.old }
{
    if !machine.has_hidden() {
        return false;
    }
    let (first, second) = (state.register(rs1), state.register(rs2));
    state.set_operand(1, second);
    state.set_operand(0, first);
    advance(state);
    true
}

/// On at the target, where that is a multiple of four. Says whether it is.
fn go_to(state: &mut State, target: u32) -> bool
    ensures outcome { LeadsTo (state_of state.old) (directed target (state_of state.old).core)
        (state_of state.new) (next_or result (Misaligned target)) }
    ensures stayed { result ≡ false → state_of state.new ≡ state_of state.old }
    ensures program { program_of state.new ≡ program_of state.old }
{
    if target % 4 == 0 {
        state.set_pc(target);
        true
    } else {
        false
    }
}

/// The register takes the address of the next instruction, and on at the target, where that is a multiple of four. Says
/// whether it is.
pub(crate) fn jump(state: &mut State, rd: Reg, target: u32) -> bool
    ensures outcome { LeadsTo (state_of state.old)
        (directed target (with_register (state_of state.old).core rd (following (state_of state.old).pc)))
        (state_of state.new) (next_or result (Misaligned target)) }
    ensures there { result ≡ true → (state_of state.new).pc ≡ target }
    ensures stayed { result ≡ false → state_of state.new ≡ state_of state.old }
    ensures program { program_of state.new ≡ program_of state.old }
{
    if target % 4 != 0 {
        return false;
    }
    let link = state.pc().wrapping_add(4);
    state.set_register(rd, link);
    state.set_pc(target);
    true
}

/// Whether a branch on these values is taken.
fn taken(cond: Cond, a: u32, b: u32) -> bool
    ensures { result ≡ is_taken cond a b }
{
    match cond {
        Cond::Eq => a == b,
        Cond::Ne => a != b,
        Cond::Lt => a.cast_signed() < b.cast_signed(),
        Cond::Ge => a.cast_signed() >= b.cast_signed(),
        Cond::Ltu => a < b,
        Cond::Geu => a >= b,
    }
}

/// A branch. Says whether the run goes on.
#[inline(always)]
pub(crate) fn branch(state: &mut State, cond: Cond, rs1: Reg, rs2: Reg, offset: i32) -> bool
    ensures outcome { LeadsTo (state_of state.old)
        (control (program_of state.old) (Branch cond rs1 rs2 offset) (state_of state.old).pc (state_of state.old).core)
        (state_of state.new) (next_or result (Misaligned (operation Add (state_of state.old).pc (word_of offset)))) }
    ensures stayed { result ≡ false → state_of state.new ≡ state_of state.old }
    ensures program { program_of state.new ≡ program_of state.old }
{
    if taken(cond, state.register(rs1), state.register(rs2)) {
        let target = state.pc().wrapping_add(word_of(offset));
        return go_to(state, target);
    }
    advance(state);
    true
}

/// The word with the sign of a number whose highest bit is this one.
fn with_sign(n: u32, bit: u32) -> u32
    requires { bit < 2 ^ 31 }
    ensures { result ≡ word_of (if nat_lt n bit then pos n else (pos n -ℤ pos (2 * bit))) }
{
    if n < bit { n } else { n.wrapping_sub(2 * bit) }
}

/// The word that a load gives of the number that it reads.
fn extend(kind: LoadKind, n: u32) -> u32
    ensures { result ≡ extended kind n }
{
    match kind {
        LoadKind::B => with_sign(n, 0x80),
        LoadKind::H => with_sign(n, 0x8000),
        LoadKind::W | LoadKind::Bu | LoadKind::Hu => n,
    }
}

/// The width of the access of a load.
pub(crate) fn width_of(kind: LoadKind) -> Width
    ensures { result ≡ load_width kind }
{
    match kind {
        LoadKind::B | LoadKind::Bu => Width::Byte,
        LoadKind::H | LoadKind::Hu => Width::Half,
        LoadKind::W => Width::Word,
    }
}

/// A load from an address. Says whether its bytes are mapped.
#[inline(always)]
pub(crate) fn load(state: &mut State, kind: LoadKind, rd: Reg, address: u32) -> bool
    ensures outcome { LeadsTo (state_of state.old)
        (then_onward (state_of state.old).pc
        (loaded (state_of state.old).core kind rd address
        (bytes_of (state_of state.old).core address (load_width kind))))
        (state_of state.new) (next_or result (Access address (load_width kind))) }
    ensures stayed { result ≡ false → state_of state.new ≡ state_of state.old }
    ensures program { program_of state.new ≡ program_of state.old }
{
    match state.load_near(address, width_of(kind)) {
        Ok(n) => {
            write_back(state, rd, extend(kind, n));
            true
        }
        Err(_) => false,
    }
}

/// A store to an address. Says whether its bytes are mapped.
#[inline(always)]
pub(crate) fn store(state: &mut State, width: Width, rs2: Reg, address: u32) -> bool
    ensures outcome { LeadsTo (state_of state.old)
        (then_onward (state_of state.old).pc
        (stored (state_of state.old).core width address (register (state_of state.old).core rs2)
        (bytes_of (state_of state.old).core address width)))
        (state_of state.new) (next_or result (Access address width)) }
    ensures stayed { result ≡ false → state_of state.new ≡ state_of state.old }
    ensures program { program_of state.new ≡ program_of state.old }
{
    let value = state.register(rs2);
    match state.store(address, width, value) {
        Ok(()) => {
            advance(state);
            true
        }
        Err(_) => false,
    }
}

/// An environment call.
fn call(state: &mut State) -> Result<Outcome, AllocError>
    ensures outcome { IfOk result (LeadsTo (state_of state.old)
        (then_onward (state_of state.old).pc (call (program_of state.old) (state_of state.old).core))
        (state_of state.new)) }
    ensures refused { OnErr result (state_of state.new ≡ state_of state.old) }
    ensures program { program_of state.new ≡ program_of state.old }
{
    match state.environment_call()? {
        Call::Goes => {
            advance(state);
            Ok(Outcome::Next)
        }
        Call::Exit(code) => Ok(Outcome::Ended(End::Exit(code))),
    }
}
