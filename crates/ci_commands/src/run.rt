//! The command `run`: the run of an executable file.
ghost use Rattle.std.specs.Prelude.{◌≡◌, ◌≤◌, IfOk, OnOk, IfSome, All};
ghost use Rattle.std.specs.String.{string_bytes};
ghost use Rattle.ci_machine.specs.Runs.{after};
ghost use Rattle.ci_machine.specs.States.{program_of, state_of};
ghost use Rattle.ci_machine.specs.Steps.{Meaning};
ghost use Rattle.ci_emu.specs.Profiles.{IsProfileOf};
ghost use Rattle.ci_verilog.specs.Modules.{IsModule};
ghost use Rattle.ci_calls.specs.Evaluations.{RefusesNothing};
ghost use Rattle.ci_calls.specs.Reads.{IsAnswerOf};
ghost use Rattle.ci_calls.specs.Refused.{name_in, modules_in};
ghost use Rattle.ci_commands.specs.RunCommand.{end_line, run_inputs, IsRunMade, IsRunText};
ghost use Rattle.ci_commands.specs.RunCommand.{IsMachine, latencies_by};

use ci_calls::{Refusal, Success, read_image, read_input, read_optional_units, read_table};
use ci_elf::Image;
use ci_emu::{Profile, end_text};
use ci_io::Shelf;
use ci_lat::Table;
use ci_machine::State;
use ci_verilog::Module;
use std::alloc::{AllocError, Global};

/// How a file is run.
#[derive(Clone, Copy)]
pub struct RunSettings<'a> {
    /// The greatest number of steps, itself at most 4,294,967,296.
    pub steps: u64,
    /// The file with the modules of units. Where there is none, the program runs on the plain machine, and else on the
    /// extended one.
    pub units: Option<&'a str>,
    /// The file with the input of the program, which reads nothing where there is none.
    pub input: Option<&'a str>,
    /// The file with the latency table, which is the usual one where there is none.
    pub table: Option<&'a str>,
}

/// Makes the output and the end line of the run of the executable in the file. The steps of the settings are at most
/// 4,294,967,296.
///
/// # Errors
///
/// The first fault of the executable, then of the units, of the table, and of the input: `Read` where no file has the
/// name, or reading it failed; `TooLarge` where the executable or the input has more than 16,777,216 bytes, the units
/// more than 4,194,304, or the table more than 65,536; `BadElf` where the first is no executable; `BadUnits` where the
/// units spell no modules; `BadTable` where the table is no latency table. `NoMemory`: memory ran out. However the run
/// ends, that is no error.
pub fn evaluate<'a, F: Shelf>(
    alloc: Global,
    file: &'a str,
    settings: &RunSettings<'a>,
    shelf: &mut F,
) -> Result<Success<'a>, Refusal<'a>>
    requires { settings.now.steps ≤ 4294967296 }
    ensures { IsAnswerOf F.read_may_fail F.write_may_fail (F.state shelf.old) (F.state shelf.new)
        (run_inputs file.now (name_in settings.now.units) (name_in settings.now.table) (name_in settings.now.input))
        (IsRunMade settings.now.steps (name_in settings.now.units) (name_in settings.now.table)
        (name_in settings.now.input)) RefusesNothing result }
{
    let image = read_image(alloc, file, shelf)?;
    let modules = read_optional_units(alloc, settings.units, shelf)?;
    let table = read_table(alloc, settings.table, shelf)?;
    let input = read_input(alloc, settings.input, shelf)?;
    let text = run_text(alloc, &image, &modules, &table, input, settings.steps)?;
    Ok(Success {
        writes: Vec::new(alloc),
        text,
    })
}

/// The output of the run, and behind it the end line.
fn run_text(
    alloc: Global,
    image: &Image,
    modules: &Option<Vec<Module>>,
    table: &Table,
    input: Vec<u8>,
    steps: u64,
) -> Result<Vec<u8>, AllocError>
    requires steps { steps ≤ 4294967296 }
    requires modules { IfSome (modules_in modules.now) (All IsModule) }
    ensures { IfOk result (λ text.
        IsRunText (modules_in modules.now) table.now image.now input.items steps text.items) }
{
    let mut state = State::start_on(alloc, image, input)?;
    let profile = run_by(alloc, &mut state, modules, table, steps)?;
    let line = end_line(alloc, &profile)?;
    let mut text = state.into_output();
    text.extend_from_slice(line.as_bytes())?;
    Ok(text)
}

/// Makes the steps by the plain machine, or by the extended one where there are modules, and counts them.
fn run_by(
    alloc: Global,
    state: &mut State,
    modules: &Option<Vec<Module>>,
    table: &Table,
    steps: u64,
) -> Result<Profile, AllocError>
    requires { steps ≤ 4294967296 }
    ensures state { OnOk result ((meaning : Meaning) → IsMachine (modules_in modules.now) meaning
        → state_of state.new ≡ (after meaning (program_of state.old) steps (state_of state.old)).state) }
    ensures profile { IfOk result (λ profile. (meaning : Meaning) → IsMachine (modules_in modules.now) meaning
        → IsProfileOf meaning (program_of state.old) steps (state_of state.old)
        (latencies_by (modules_in modules.now) table.now) profile) }
{
    match modules {
        Some(modules) => ci_xemu::run_x(alloc, state, modules.as_slice(), table, steps),
        None => ci_emu::run(alloc, state, table, steps),
    }
}

/// The end line: how the run ended, its steps, and their cost.
fn end_line(alloc: Global, profile: &Profile) -> Result<String, AllocError>
    ensures { IfOk result (λ text. string_bytes text ≡ end_line profile.now.end profile.now.steps profile.now.cost) }
{
    let end = end_text(alloc, profile.end)?;
    let steps = profile.steps;
    let cost = profile.cost;
    format!(in alloc; "end {end} steps {steps} cost {cost}\n")
}
