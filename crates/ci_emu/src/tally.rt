//! What is counted while a run is made.
ghost use Rattle.std.specs.Prelude.{◌≡◌, ◌+◌, ◌<◌, ◌^◌, ◌==◌, ◌⊎◌, ◌↔◌, ℕ, Some};
ghost use Rattle.std.specs.Prelude.{if◌then◌else◌, IfOk, IfSome, OnOk, OnErr, MatchOption, None, true, false};
ghost use Rattle.std.specs.Prelude.{length, slice_index_or};
ghost use Rattle.std.specs.BTreeSet.{IsOrdered};
ghost use Rattle.std.specs.Ordering.{nat_cmp};
ghost use Rattle.ci_emu.specs.private.Actions.{insn_of};
ghost use Rattle.ci_machine.specs.States.{program_of, state_of};
ghost use Rattle.ci_machine.specs.Steps.{Meaning, fetched};
ghost use Rattle.ci_emu.specs.private.Counting.{target_of, Led};
ghost use Rattle.ci_emu.specs.private.CountedSteps.{HasEntered, HasRoom, IsCountedStep};
ghost use Rattle.ci_elf.specs.Executables.{in_text as has_text, IsTextWord};
ghost use Rattle.ci_emu.specs.private.Fetched.{cycles_on, IsTextBelow};
ghost use Rattle.ci_emu.specs.Profiles.{count_at};
ghost use Rattle.ci_emu.specs.TableLatencies.{latencies_on};
ghost use Rattle.ci_emu.specs.private.Lines.{AreKept, AreKnown};
ghost use Rattle.ci_emu.specs.private.PlacedRanges.{ArePlaced};
ghost use Rattle.ci_emu.specs.declared.steps.Outcome.TheVariants.{Next};
ghost use Rattle.ci_emu.specs.Steps.{IsReached};

use crate::actions::Action;
use crate::counts::{Counts, Nearby};
use crate::decode_cache::{DecodeCache, Decoded};
use crate::execution::execute;
use crate::machine::Machine;
use crate::profile::Profile;
use crate::quick::perform;
use crate::steps::Outcome;
use crate::touches::Touches;
use ci_elf::Range;
use ci_lat::Table;
use ci_machine::{End, State};
use std::alloc::{AllocError, Global};
use std::collections::BTreeSet;

/// What was counted so far.
#[derive(Drop)]
pub(crate) struct Tally {
    pub(crate) counts: Counts,
    pub(crate) cost: u64,
    pub(crate) touches: Touches,
    pub(crate) targets: BTreeSet<u32>,
    /// The words that were decoded before.
    pub(crate) cache: DecodeCache,
}

impl Tally {
    ghost use Rattle.ci_elf.specs.Executables.{IsAscending};
    ghost use Rattle.ci_emu.specs.private.Counting.{IsFresh, IsToldBy};
    ghost use Rattle.ci_emu.specs.private.Lines.{AreKept};

    /// Nothing yet. Out of line: behind its tests the compiler would take the loop of the steps for seldom reached, and
    /// not inline loads and stores into it.
    #[inline(never)]
    pub(crate) fn new<M: Machine>(
        alloc: Global,
        machine: &M,
        table: &Table,
        text: &[Range],
    ) -> Result<Tally, AllocError>
        requires { IsAscending text.now }
        ensures text { IfOk result (λ tally. tally.counts.places ≡ text.now) }
        ensures fresh { IfOk result IsFresh }
        ensures kept { IfOk result (λ tally. AreKept (cycles_on (M.has_unit machine.now) (M.has_hidden machine.now)
            (M.unit_cycles machine.now) table.now) 0 tally.cache.words.items) }
        ensures changes { IfOk result (λ tally. tally.touches.changes ≡ 1) }
        ensures behind { IfOk result (λ tally. IsTextBelow (has_text text.now) tally.touches.end) }
        ensures many { IfOk result (λ tally. length tally.cache.words.items ≡ length tally.counts.by_place.items) }
    {
        let counts = Counts::new(alloc, text)?;
        let cache = DecodeCache::new(alloc, machine, table, counts.len())?;
        Ok(Tally {
            counts,
            cost: 0,
            touches: Touches::new(text),
            targets: BTreeSet::new(alloc),
            cache,
        })
    }

    /// The profile of a run of so many steps.
    pub(crate) fn profile(
        self,
        alloc: Global,
        steps: u64,
        end: Option<End>,
    ) -> Result<Profile, AllocError>
        ensures { IfOk result (IsToldBy self steps end) }
    {
        let targets = sorted(alloc, &self.targets)?;
        Ok(Profile {
            steps,
            cost: self.cost,
            end,
            touched: self.touches.first,
            counts: self.counts,
            targets,
        })
    }
}

/// Where the action led, if it is a JALR and did not end.
fn target(state: &State, action: &Action, outcome: Outcome) -> Option<u32>
    ensures { result ≡ target_of (insn_of action.now) outcome (state_of state.now).pc }
{
    match (*action, outcome) {
        (Action::Jalr { .. }, Outcome::Next) => Some(state.pc()),
        _ => None,
    }
}

/// Notes the address to which a JALR led, if one did. They stay as they are where there is no memory.
#[inline(always)]
fn note(targets: &mut BTreeSet<u32>, target: Option<u32>) -> Result<(), AllocError>
    ensures { OnOk result ((address : ℕ)
        → Led targets.new address ↔ (Led targets.old address ⊎ (target ≡ Some address))) }
{
    if let Some(address) = target {
        targets.insert(address)?;
    }
    Ok(())
}

/// Counts the step that begins at the pc, and gives the place of the line of the word that it fetches, if it fetches
/// one.
#[inline(always)]
fn enter<M: Machine>(
    machine: &M,
    table: &Table,
    counts: &mut Counts,
    cache: &mut DecodeCache,
    nearby: &mut Nearby,
    changes: u64,
    state: &State,
) -> Option<usize>
    requires text { counts.old.places ≡ (program_of state.now).text }
    requires room { IsTextWord (program_of state.now).text (state_of state.now).pc
        → count_at counts.old (state_of state.now).pc < 2 ^ 32 }
    requires nearby { ArePlaced counts.old.places nearby.old }
    requires many { length cache.old.words.items ≡ length counts.old.by_place.items }
    requires begun { 0 < changes }
    requires kept { AreKept (cycles_on (M.has_unit machine.now) (M.has_hidden machine.now)
        (M.unit_cycles machine.now) table.now) changes cache.old.words.items }
    ensures fetched { MatchOption result
        ((meaning : Meaning) → fetched meaning (program_of state.now) (state_of state.now) ≡ None)
        (λ line. (d : Decoded) (meaning : Meaning)
        → AreKnown meaning (program_of state.now) (state_of state.now).core.memory changes cache.old.words.items
        → fetched meaning (program_of state.now) (state_of state.now)
        ≡ Some (meaning.insn (slice_index_or cache.new.words.items line d).word)) }
    ensures within { IfSome result (λ line. line < length cache.new.words.items) }
    ensures kept { AreKept (cycles_on (M.has_unit machine.now) (M.has_hidden machine.now)
        (M.unit_cycles machine.now) table.now) changes cache.new.words.items }
    ensures known { (meaning : Meaning)
        → AreKnown meaning (program_of state.now) (state_of state.now).core.memory changes cache.old.words.items
        → AreKnown meaning (program_of state.now) (state_of state.now).core.memory changes cache.new.words.items }
    ensures nearby { ArePlaced counts.old.places nearby.new }
    ensures many { length cache.new.words.items ≡ length counts.new.by_place.items }
    ensures text { counts.new.places ≡ counts.old.places }
    ensures counted { (address : ℕ) → IsTextWord (program_of state.now).text address → count_at counts.new address
        ≡ count_at counts.old address + (if (state_of state.now).pc == address then 1 else 0) }
{
    match counts.place(nearby, state.pc()) {
        Some(place) => {
            counts.add(place);
            cache.line(machine, table, state, place, changes, counts.are_aligned())
        }
        None => None,
    }
}

/// One step, counted, where its line is at hand and nothing else has to be noted. Says whether it was made: nothing
/// changes where it was not.
#[inline(always)]
pub(crate) fn quick_step<M: Machine>(
    machine: &M,
    state: &mut State,
    table: &Table,
    tally: &mut Tally,
    nearby: &Nearby,
) -> bool
    requires room { HasRoom (M.meanings machine.now) (cycles_on (M.has_unit machine.now) (M.has_hidden machine.now)
        (M.unit_cycles machine.now) table.now) (program_of state.old) (state_of state.old) tally.old }
    requires nearby { ArePlaced tally.old.counts.places nearby.now }
    ensures made { result ≡ true → IsCountedStep (M.meanings machine.now)
        (latencies_on table.now (M.unit_cycles machine.now)) (program_of state.old)
        (state_of state.old) tally.old (state_of state.new) tally.new Next }
    ensures entered { result ≡ true → HasEntered (cycles_on (M.has_unit machine.now) (M.has_hidden machine.now)
        (M.unit_cycles machine.now) table.now) (program_of state.old) (state_of state.old) tally.old tally.new }
    ensures stayed { result ≡ false → state_of state.new ≡ state_of state.old }
    ensures uncounted { result ≡ false → tally.new ≡ tally.old }
    ensures program { program_of state.new ≡ program_of state.old }
{
    let Some(place) = tally.counts.at_hand(nearby, state.pc()) else {
        return false;
    };
    if !tally.cache.is_known(place, tally.touches.changes) {
        return false;
    }
    let line = &tally.cache.words[place];
    if !perform(machine, state, &line.action, &tally.touches, &tally.targets) {
        return false;
    }
    tally.cost += u64::from(line.latency);
    tally.counts.add(place);
    true
}

/// One such step, where its word lies in another range of the text than in the one that is near: that range is near
/// from then on. Says whether it was made: nothing else changes where it was not.
#[cold]
#[inline(never)]
pub(crate) fn far_step<M: Machine>(
    machine: &M,
    state: &mut State,
    table: &Table,
    tally: &mut Tally,
    nearby: &mut Nearby,
) -> bool
    requires room { HasRoom (M.meanings machine.now) (cycles_on (M.has_unit machine.now) (M.has_hidden machine.now)
        (M.unit_cycles machine.now) table.now) (program_of state.old) (state_of state.old) tally.old }
    requires nearby { ArePlaced tally.old.counts.places nearby.old }
    ensures made { result ≡ true → IsCountedStep (M.meanings machine.now)
        (latencies_on table.now (M.unit_cycles machine.now)) (program_of state.old)
        (state_of state.old) tally.old (state_of state.new) tally.new Next }
    ensures entered { result ≡ true → HasEntered (cycles_on (M.has_unit machine.now) (M.has_hidden machine.now)
        (M.unit_cycles machine.now) table.now) (program_of state.old) (state_of state.old) tally.old tally.new }
    ensures stayed { result ≡ false → state_of state.new ≡ state_of state.old }
    ensures uncounted { result ≡ false → tally.new ≡ tally.old }
    ensures program { program_of state.new ≡ program_of state.old }
    ensures nearby { ArePlaced tally.old.counts.places nearby.new }
{
    if !tally.counts.come_near(nearby, state.pc()) {
        return false;
    }
    quick_step(machine, state, table, tally, nearby)
}

/// One step, counted, whatever has to be noted of it.
///
/// Where memory runs out, the state is as before the step or behind it.
#[cold]
#[inline(never)]
pub(crate) fn noted_step<M: Machine>(
    machine: &M,
    state: &mut State,
    table: &Table,
    tally: &mut Tally,
    nearby: &mut Nearby,
) -> Result<Outcome, AllocError>
    requires room { HasRoom (M.meanings machine.now) (cycles_on (M.has_unit machine.now) (M.has_hidden machine.now)
        (M.unit_cycles machine.now) table.now) (program_of state.old) (state_of state.old) tally.old }
    requires nearby { ArePlaced tally.old.counts.places nearby.old }
    ensures made { IfOk result (IsCountedStep (M.meanings machine.now)
        (latencies_on table.now (M.unit_cycles machine.now)) (program_of state.old)
        (state_of state.old) tally.old (state_of state.new) tally.new) }
    ensures entered { HasEntered (cycles_on (M.has_unit machine.now) (M.has_hidden machine.now)
        (M.unit_cycles machine.now) table.now) (program_of state.old) (state_of state.old) tally.old tally.new }
    ensures refused { OnErr result
        (IsReached (M.meanings machine.now) (program_of state.old) (state_of state.old) 1 (state_of state.new)) }
    ensures program { program_of state.new ≡ program_of state.old }
    ensures nearby { ArePlaced tally.old.counts.places nearby.new }
{
    let Some(place) = enter(
        machine,
        table,
        &mut tally.counts,
        &mut tally.cache,
        nearby,
        tally.touches.changes,
        state,
    ) else {
        return Ok(Outcome::Ended(End::Fetch(state.pc())));
    };
    let line = &tally.cache.words[place];
    tally.cost += u64::from(line.latency);
    let outcome = execute(machine, state, line.word, line.insn(), &mut tally.touches)?;
    note(&mut tally.targets, target(state, &line.action, outcome))?;
    Ok(outcome)
}

/// The targets in ascending order.
fn sorted(alloc: Global, targets: &BTreeSet<u32>) -> Result<Vec<u32>, AllocError>
    ensures keys { IfOk result (λ list. list.items ≡ targets.now.keys) }
    ensures ordered { IsOrdered nat_cmp targets.now }
{
    targets.iter().copied().collect(alloc)
}
