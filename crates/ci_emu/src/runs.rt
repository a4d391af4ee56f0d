//! Runs of several steps.
ghost use Rattle.std.specs.Prelude.{◌≡◌, ◌≤◌, ◌^◌, IfOk, OnOk, OnErr};
ghost use Rattle.ci_machine.specs.Runs.{after};
ghost use Rattle.ci_machine.specs.States.{program_of, state_of};
ghost use Rattle.ci_machine.specs.Steps.{Meaning, IsPlain};
ghost use Rattle.ci_emu.specs.Profiles.{IsProfileOf};
ghost use Rattle.ci_emu.specs.TableLatencies.{latencies_of, latencies_on};
ghost use Rattle.ci_emu.specs.Steps.{IsReached};

use crate::counts::Nearby;
use crate::machine::{Machine, PlainMachine};
use crate::profile::Profile;
use crate::steps::Outcome;
use crate::tally::{Tally, far_step, noted_step, quick_step};
use ci_lat::Table;
use ci_machine::State;
use std::alloc::{AllocError, Global};

/// Makes `n` steps of the plain machine, or fewer where one of them ends the run, and counts them by a latency table.
///
/// Where memory runs out, the state is one that some of the steps gave.
pub fn run(alloc: Global, state: &mut State, table: &Table, n: u64) -> Result<Profile, AllocError>
    requires { n ≤ 2 ^ 32 }
    ensures state { OnOk result ((meaning : Meaning) → IsPlain meaning
        → state_of state.new ≡ (after meaning (program_of state.old) n (state_of state.old)).state) }
    ensures profile { IfOk result (λ profile. (meaning : Meaning) → IsPlain meaning
        → IsProfileOf meaning (program_of state.old) n (state_of state.old) (latencies_of table.now) profile) }
    ensures refused { OnErr result
        (IsReached IsPlain (program_of state.old) (state_of state.old) n (state_of state.new)) }
    ensures program { program_of state.new ≡ program_of state.old }
{
    run_on(alloc, &PlainMachine, state, table, n)
}

/// Makes `n` steps of the machine, or fewer where one of them ends the run, and counts them by a latency table.
///
/// Where memory runs out, the state is one that some of the steps gave.
pub fn run_on<M: Machine>(
    alloc: Global,
    machine: &M,
    state: &mut State,
    table: &Table,
    n: u64,
) -> Result<Profile, AllocError>
    requires { n ≤ 2 ^ 32 }
    ensures state { OnOk result ((meaning : Meaning) → M.meanings machine.now meaning
        → state_of state.new ≡ (after meaning (program_of state.old) n (state_of state.old)).state) }
    ensures profile { IfOk result (λ profile. (meaning : Meaning) → M.meanings machine.now meaning
        → IsProfileOf meaning (program_of state.old) n (state_of state.old)
        (latencies_on table.now (M.unit_cycles machine.now)) profile) }
    ensures refused { OnErr result
        (IsReached (M.meanings machine.now) (program_of state.old) (state_of state.old) n (state_of state.new)) }
    ensures program { program_of state.new ≡ program_of state.old }
{
    let mut tally = Tally::new(alloc, machine, table, state.text())?;
    let mut nearby = Nearby::new(alloc);
    for i in 0..n {
        if quick_step(machine, state, table, &mut tally, &nearby) {
            continue;
        }
        if far_step(machine, state, table, &mut tally, &mut nearby) {
            continue;
        }
        if let Outcome::Ended(end) = noted_step(machine, state, table, &mut tally, &mut nearby)? {
            return tally.profile(alloc, i + 1, Some(end));
        }
    }
    tally.profile(alloc, n, None)
}
