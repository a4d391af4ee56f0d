//! Steps and runs.
ghost use Rattle.std.specs.Prelude.{◌≡◌, ◌≤◌, ◌^◌, IfOk, OnOk, OnErr};
ghost use Rattle.ci_machine.specs.Extended.{IsExtended, latencies_with};
ghost use Rattle.ci_machine.specs.Runs.{after};
ghost use Rattle.ci_machine.specs.States.{program_of, state_of};
ghost use Rattle.ci_machine.specs.Steps.{Meaning};
ghost use Rattle.ci_emu.specs.Profiles.{IsProfileOf};
ghost use Rattle.ci_emu.specs.Steps.{IsReached, IsStep};
ghost use Rattle.ci_emu.specs.TableLatencies.{latencies_of};

use crate::machine::ExtendedMachine;
use crate::prepared::PreparedMachine;
use ci_emu::{Outcome, Profile, run_on, step_on};
use ci_lat::Table;
use ci_machine::State;
use ci_plan::prepare;
use ci_verilog::Module;
use std::alloc::{AllocError, Global};

/// One step of the machine whose unit words do what the modules compute: the instruction at the pc is fetched, and
/// acts. Module k is the one at place k, from 0.
///
/// The state stays as it is where the step ends the run, and where memory runs out.
pub fn step_x(state: &mut State, modules: &[Module]) -> Result<Outcome, AllocError>
    ensures stepped { IfOk result
        (IsStep (IsExtended modules.now) (program_of state.old) (state_of state.old) (state_of state.new)) }
    ensures refused { OnErr result (state_of state.new ≡ state_of state.old) }
    ensures program { program_of state.new ≡ program_of state.old }
{
    step_on(&ExtendedMachine { modules }, state)
}

/// Makes `n` steps of that machine, or fewer where one of them ends the run, and counts them by a latency table and the
/// modules' cycles.
///
/// Where memory runs out, the state is one that some of the steps gave.
pub fn run_x(
    alloc: Global,
    state: &mut State,
    modules: &[Module],
    table: &Table,
    n: u64,
) -> Result<Profile, AllocError>
    requires { n ≤ 2 ^ 32 }
    ensures state { OnOk result ((meaning : Meaning) → IsExtended modules.now meaning
        → state_of state.new ≡ (after meaning (program_of state.old) n (state_of state.old)).state) }
    ensures profile { IfOk result (λ profile. (meaning : Meaning) → IsExtended modules.now meaning
        → IsProfileOf meaning (program_of state.old) n (state_of state.old)
        (latencies_with (latencies_of table.now) modules.now) profile) }
    ensures refused { OnErr result
        (IsReached (IsExtended modules.now) (program_of state.old) (state_of state.old) n (state_of state.new)) }
    ensures program { program_of state.new ≡ program_of state.old }
{
    let units = prepare(alloc, modules)?;
    run_on(alloc, &PreparedMachine { units: &units }, state, table, n)
}
