//! The run that a choice of cuts is made from, and the basic blocks that it enters.
ghost use Rattle.std.specs.Prelude.{◌≡◌, ◌≤◌, ◌++◌, ℕ, List, Option, IfOk, IfErr};
ghost use Rattle.ci_machine.specs.Programs.{loaded_program, opening};
ghost use Rattle.ci_machine.specs.Steps.{Meaning, IsPlain};
ghost use Rattle.ci_emu.specs.Profiles.{IsProfileOf};
ghost use Rattle.ci_emu.specs.TableLatencies.{latencies_of};
ghost use Rattle.ci_calls.specs.Files.{optional_bytes, AreGiven, AreLatencies, input_bytes};
ghost use Rattle.ci_calls.specs.Reads.{HaveRead, HaveNotRead};
ghost use Rattle.ci_calls.specs.Refused.{name_in};
ghost use Rattle.ci_find.specs.Profiled.{IsProfiled, run_files};
ghost use Rattle.ci_find.specs.private.Unprofiled.{IsUnprofiledCause};

use ci_calls::{Refusal, read_input, read_table};
use ci_commands::refuse_custom_words;
use ci_elf::Image;
use ci_emu::Profile;
use ci_io::Shelf;
use ci_lat::Table;
use ci_live::{Analysis, analysis_of};
use ci_machine::State;
use ci_machine::laws::bytes_are_small;
use ci_select::Plan;
use std::alloc::{AllocError, Global};

/// What a choice is made by.
#[derive(Clone, Copy)]
pub struct ChoiceSettings<'a, 'b> {
    /// The greatest number of steps of the run, itself at most 4,294,967,296.
    pub steps: u64,
    /// Addresses that are named as leaders.
    pub leaders: &'b [u32],
    /// The limits of the choice.
    pub plan: Plan,
    /// The file with the latency table, which is the usual one where there is none.
    pub table: Option<&'a str>,
    /// The file with the input of the program, which reads nothing where there is none.
    pub input: Option<&'a str>,
}

/// The table and the input of a run.
#[derive(Drop)]
pub struct RunFiles {
    pub table: Table,
    pub input: Vec<u8>,
}

/// The profile of a run, with the blocks and what is live around them.
#[derive(Drop)]
pub struct Profiled {
    pub profile: Profile,
    pub analysis: Analysis,
}

/// The latency table and the input in the files of these names.
///
/// # Errors
///
/// The first fault of the table, then of the input: `Read` where no file has the name, or reading it failed; `TooLarge`
/// where the table has more than 65,536 bytes, or the input more than 16,777,216; `BadTable` where the table is no
/// latency table. `NoMemory`: memory ran out.
pub fn read_run_files<'a, F: Shelf>(
    alloc: Global,
    table: Option<&'a str>,
    input: Option<&'a str>,
    shelf: &mut F,
) -> Result<RunFiles, Refusal<'a>>
    ensures read { IfOk result (λ files. (table_bytes : Option (List ℕ)) × (input_bytes_are : Option (List ℕ))
        × AreGiven (name_in table.entry) table_bytes × AreGiven (name_in input.entry) input_bytes_are
        × HaveRead F.read_may_fail F.write_may_fail (F.state shelf.old) (F.state shelf.new)
        (run_files (name_in table.entry) (name_in input.entry))
        (optional_bytes table_bytes ++ optional_bytes input_bytes_are)
        × AreLatencies table_bytes files.table × (files.input.items ≡ input_bytes input_bytes_are)) }
    ensures refused { IfErr result (HaveNotRead F.read_may_fail F.write_may_fail (F.state shelf.old) (F.state shelf.new)
        (run_files (name_in table.entry) (name_in input.entry))) }
{
    let table = read_table(alloc, table, shelf)?;
    let input = read_input(alloc, input, shelf)?;
    Ok(RunFiles { table, input })
}

/// The profile of the run of the executable, and its blocks by the leaders that the file, the run and the call give.
/// The steps are at most 4,294,967,296.
///
/// # Errors
///
/// `Unsupported` where the text has a word of a custom opcode: the first of these, at its address. `TextTouched` where
/// the run touches the text: the first touch. `NoMemory`: memory ran out.
pub fn profiled_run<'a>(
    alloc: Global,
    image: &Image,
    table: &Table,
    input: Vec<u8>,
    steps: u64,
    leaders: &[u32],
) -> Result<Profiled, Refusal<'a>>
    requires { steps ≤ 4294967296 }
    ensures done { IfOk result (λ profiled. IsProfiled image.now table.now input.items steps leaders.now
        profiled.profile profiled.analysis.blocks profiled.analysis.live) }
    ensures cause { IfErr result (IsUnprofiledCause image.now input.items steps) }
{
    refuse_custom_words(image)?;
    bytes_are_small(input.as_slice());
    let profile = profile_of(alloc, image, table, input, steps)?;
    if let Some((pc, address)) = profile.touched {
        return Err(Refusal::TextTouched { pc, address });
    }
    let analysis = analysis_of(alloc, image, profile.targets(), leaders)?;
    Ok(Profiled { profile, analysis })
}

/// The profile of so many steps of the executable on the plain machine, with the input.
fn profile_of(
    alloc: Global,
    image: &Image,
    table: &Table,
    input: Vec<u8>,
    steps: u64,
) -> Result<Profile, AllocError>
    requires { steps ≤ 4294967296 }
    ensures { IfOk result (λ profile. (meaning : Meaning) → IsPlain meaning
        → IsProfileOf meaning (loaded_program image.now) steps (opening image.now input.items)
        (latencies_of table.now) profile) }
{
    let mut state = State::start_on(alloc, image, input)?;
    ci_emu::run(alloc, &mut state, table, steps)
}
