//! What is noted of the text that steps touch.
ghost use Rattle.std.specs.Prelude.{◌≡◌, false, ◌+◌, ◌≤◌, ◌^◌, None, Some, is_some, if◌then◌else◌, find};
ghost use Rattle.ci_elf.specs.Executables.{end_of, in_text as has_text, IsAscending};
ghost use Rattle.ci_isa.specs.Effects.{width_bytes};
ghost use Rattle.ci_machine.specs.Accesses.{addresses};
ghost use Rattle.ci_machine.specs.Programs.{in_text};
ghost use Rattle.ci_machine.specs.States.{program_of, state_of};
ghost use Rattle.ci_machine.specs.Touches.{may_change_below, moved_by_call};
ghost use Rattle.ci_emu.specs.private.Counting.{first_touch};
ghost use Rattle.ci_emu.specs.private.Fetched.{IsTextBelow};

use ci_elf::Range;
use ci_isa::Width;
use ci_machine::State;

/// The last address at which an access of four bytes doesn't wrap.
const LAST_WORD: u32 = 0xfffffffc;

/// What is noted of the text that steps touch.
#[derive(Clone, Copy)]
pub(crate) struct Touches {
    /// The pc of the first step that touches the text, and the first byte of it that the step moves.
    pub(crate) first: Option<(u32, u32)>,
    /// How often the text may have changed, from 1.
    pub(crate) changes: u64,
    /// Where the text ends.
    pub(crate) end: u64,
}

/// Where a range ends.
fn range_end(range: Range) -> u64
    ensures { result ≡ end_of range }
{
    u64::from(range.start) + 4 * u64::from(range.words)
}

/// Where the text ends: behind its last range.
fn text_end(text: &[Range]) -> u64
    requires { IsAscending text.now }
    ensures { IsTextBelow (has_text text.now) result }
{
    match text.last() {
        Some(range) => range_end(*range),
        None => 0,
    }
}

impl Touches {
    /// Nothing yet, of this text.
    pub(crate) fn new(text: &[Range]) -> Touches
        requires { IsAscending text.now }
        ensures first { result.first ≡ None }
        ensures changes { result.changes ≡ 1 }
        ensures end { IsTextBelow (has_text text.now) result.end }
    {
        Touches {
            first: None,
            changes: 1,
            end: text_end(text),
        }
    }

    /// The first byte of the text that an access moves. One behind the text moves none.
    #[inline(always)]
    #[tactic(auto, using(crate::proofs::TextEnds::nothing_behind))]
    pub(crate) fn touched(&self, state: &State, address: u32, width: Width) -> Option<u32>
        requires { IsTextBelow (in_text (program_of state.now)) self.now.end }
        ensures { result ≡ find (in_text (program_of state.now)) (addresses (width_bytes width) address) }
    {
        if self.end <= u64::from(address) && address <= LAST_WORD {
            return None;
        }
        state.touched_by_access(address, width)
    }

    /// Whether a load by the instruction at the pc touches the text first of a run.
    #[inline(always)]
    #[tactic(auto, using(crate::proofs::Touched::laws))]
    pub(crate) fn is_first(&self, state: &State, address: u32, width: Width) -> bool
        requires { IsTextBelow (in_text (program_of state.now)) self.now.end }
        ensures { result ≡ false → first_touch self.now.first (state_of state.now).pc
            (find (in_text (program_of state.now)) (addresses (width_bytes width) address)) ≡ self.now.first }
    {
        if self.first.is_some() {
            return false;
        }
        self.touched(state, address, width).is_some()
    }

    /// Notes that the instruction at the pc moves this byte of the text first, where it is the first of a run.
    #[tactic(auto, using(crate::proofs::Touched::laws))]
    fn note(&mut self, state: &State, address: u32)
        ensures first { self.new.first ≡ first_touch self.old.first (state_of state.now).pc (Some address) }
        ensures changes { self.new.changes ≡ self.old.changes }
        ensures end { self.new.end ≡ self.old.end }
    {
        if self.first.is_none() {
            self.first = Some((state.pc(), address));
        }
    }

    /// Notes the touch of a load by the instruction at the pc, where it is the first of a run.
    #[inline(always)]
    #[tactic(auto, using(crate::proofs::Touched::laws))]
    pub(crate) fn note_load(&mut self, state: &State, address: u32, width: Width)
        requires { IsTextBelow (in_text (program_of state.now)) self.old.end }
        ensures first { self.new.first ≡ first_touch self.old.first (state_of state.now).pc
            (find (in_text (program_of state.now)) (addresses (width_bytes width) address)) }
        ensures changes { self.new.changes ≡ self.old.changes }
        ensures end { self.new.end ≡ self.old.end }
    {
        if self.first.is_some() {
            return;
        }
        if let Some(first) = self.touched(state, address, width) {
            self.note(state, first);
        }
    }

    /// Notes the touch of a store by the instruction at the pc, where it is the first of a run, and that it changes the
    /// text, where it does.
    #[inline(always)]
    #[tactic(auto, using(crate::proofs::Touched::laws))]
    pub(crate) fn note_store(&mut self, state: &State, address: u32, width: Width)
        requires behind { IsTextBelow (in_text (program_of state.now)) self.old.end }
        requires few { self.old.changes ≤ 2 ^ 33 }
        ensures first { self.new.first ≡ first_touch self.old.first (state_of state.now).pc
            (find (in_text (program_of state.now)) (addresses (width_bytes width) address)) }
        ensures changes { self.new.changes ≡ self.old.changes
            + (if is_some (find (in_text (program_of state.now)) (addresses (width_bytes width) address)) then 1
            else 0) }
        ensures end { self.new.end ≡ self.old.end }
    {
        if let Some(first) = self.touched(state, address, width) {
            self.changes += 1;
            self.note(state, first);
        }
    }

    /// Notes the touch of the environment call that the registers ask for, where it is the first of a run, and counts
    /// the call where it may change the text.
    #[tactic(auto, using(crate::proofs::Touched::laws))]
    pub(crate) fn note_call(&mut self, state: &State)
        requires { self.old.changes ≤ 2 ^ 33 }
        ensures first { self.new.first ≡ first_touch self.old.first (state_of state.now).pc
            (find (in_text (program_of state.now)) (moved_by_call (state_of state.now).core)) }
        ensures changes { self.new.changes ≡ self.old.changes
            + (if may_change_below (program_of state.now) self.old.end (state_of state.now).core then 1 else 0) }
        ensures end { self.new.end ≡ self.old.end }
    {
        if state.may_change_below(self.end) {
            self.changes += 1;
        }
        if self.first.is_some() {
            return;
        }
        if let Some(first) = state.touched_by_call() {
            self.note(state, first);
        }
    }
}
