//! One step.
ghost use Rattle.std.specs.Prelude.{◌≡◌, IfOk, OnErr};
ghost use Rattle.ci_machine.specs.States.{program_of, state_of};
ghost use Rattle.ci_machine.specs.Steps.{Meaning, fetched, word_at};
ghost use Rattle.std.specs.Option.{option_map};
ghost use Rattle.ci_emu.specs.Steps.{IsStep, IsPlainStep};

use crate::decode_cache::reading;
use crate::execution::execute;
use crate::machine::{Machine, PlainMachine};
use crate::touches::Touches;
use ci_isa::Width;
use ci_machine::{End, State};
use std::alloc::AllocError;

/// What a step comes to: the run goes on, or ends.
#[derive(Clone, Copy, PartialEq, Eq)]
pub enum Outcome {
    Next,
    Ended(End),
}

/// One step of the plain machine: the instruction at the pc is fetched, and acts.
///
/// The state stays as it is where the step ends the run, and where memory runs out.
pub fn step(state: &mut State) -> Result<Outcome, AllocError>
    ensures stepped { IfOk result (IsPlainStep (program_of state.old) (state_of state.old) (state_of state.new)) }
    ensures refused { OnErr result (state_of state.new ≡ state_of state.old) }
    ensures program { program_of state.new ≡ program_of state.old }
{
    step_on(&PlainMachine, state)
}

/// One step of the machine: the instruction at the pc is fetched, and acts.
///
/// The state stays as it is where the step ends the run, and where memory runs out.
pub fn step_on<M: Machine>(machine: &M, state: &mut State) -> Result<Outcome, AllocError>
    ensures stepped { IfOk result
        (IsStep (M.meanings machine.now) (program_of state.old) (state_of state.old) (state_of state.new)) }
    ensures refused { OnErr result (state_of state.new ≡ state_of state.old) }
    ensures program { program_of state.new ≡ program_of state.old }
{
    match fetch(state) {
        Some(word) => {
            let mut touches = Touches::new(state.text());
            execute(machine, state, word, reading(word), &mut touches)
        }
        None => Ok(Outcome::Ended(End::Fetch(state.pc()))),
    }
}

/// The word at the pc, where that is a multiple of four in the text.
fn fetch(state: &State) -> Option<u32>
    ensures { (meaning : Meaning) → fetched meaning (program_of state.now) (state_of state.now)
        ≡ option_map meaning.insn result }
{
    let pc = state.pc();
    if pc % 4 != 0 || !state.in_text(pc) {
        return None;
    }
    fetch_word(state)
}

/// The word in memory at the pc.
pub(crate) fn fetch_word(state: &State) -> Option<u32>
    ensures { result ≡ word_at (state_of state.now).core.memory (state_of state.now).pc }
{
    state.load(state.pc(), Width::Word).ok()
}
