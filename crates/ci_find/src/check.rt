//! The command `check`: whether files are those of a choice of cuts.
ghost use Rattle.std.specs.Prelude.{◌≤◌, ◌∷◌, [], ℕ, List, Ok, IfOk, IfErr};
ghost use Rattle.ci_elf.specs.Rules.{IsReadAs};
ghost use Rattle.ci_log.specs.Books.{Spells};
ghost use Rattle.ci_vread.specs.Spelling.{Spell};
ghost use Rattle.ci_calls.specs.Files.{book_input, new_file_input, units_input};
ghost use Rattle.ci_calls.specs.Inputs.{Input};
ghost use Rattle.ci_calls.specs.Reads.{HaveRead, HaveNotRead, IsAnswerOf};
ghost use Rattle.ci_calls.specs.Refused.{name_in};
ghost use Rattle.ci_find.specs.Profiled.{IsProfiled};
ghost use Rattle.ci_find.specs.CheckCommand.{check_inputs, IsCheckMade, IsCheckRefused};
ghost use Rattle.ci_find.specs.private.Chosen.{check_names_of, instance_from, settings_by};
ghost use Rattle.ci_find.specs.private.Judged.{IsAnswerOn};

use crate::profiling::{ChoiceSettings, Profiled, RunFiles, profiled_run, read_run_files};
use ci_calls::{Refusal, Success, read_book, read_image, read_new_file, read_units};
use ci_elf::Image;
use ci_io::Shelf;
use ci_lat::Table;
use ci_log::LogBook;
use ci_select::{Plan, Verdict, accept};
use ci_verilog::Module;
use std::alloc::Global;

/// The names of the files of a choice.
#[derive(Clone, Copy)]
pub struct CheckNames<'a> {
    pub new: &'a str,
    pub units: &'a str,
    pub logs: &'a str,
}

/// What the files of a choice hold.
#[derive(Drop)]
pub struct ChoiceFiles {
    pub new: Vec<u8>,
    pub modules: Vec<Module>,
    pub book: LogBook,
}

/// Accepts the new file, the units and the log book of a choice for the executable in the file. The steps of the
/// settings are at most 4,294,967,296.
///
/// # Errors
///
/// The first fault of the executable, then of the new file, the units, the log book, the table and the input, as
/// [`ci_calls`] says. Then `Unsupported` where the text has a word of a custom opcode: the first of these, at its
/// address. Then `TextTouched` where the run touches the text: the first touch. Then `Rejected` where the files are
/// those of no choice: the first place that is wrong. `NoMemory`: memory ran out.
pub fn evaluate<'a, F: Shelf>(
    alloc: Global,
    file: &'a str,
    names: &CheckNames<'a>,
    settings: &ChoiceSettings<'a, '_>,
    shelf: &mut F,
) -> Result<Success<'a>, Refusal<'a>>
    requires { settings.now.steps ≤ 4294967296 }
    ensures { IsAnswerOf F.read_may_fail F.write_may_fail (F.state shelf.old) (F.state shelf.new)
        (check_inputs file.now (check_names_of names.now) (name_in settings.now.table) (name_in settings.now.input))
        (IsCheckMade (settings_by settings.now)) (IsCheckRefused (settings_by settings.now)) result }
{
    let image = read_image(alloc, file, shelf)?;
    let choice = read_choice(alloc, names, shelf)?;
    let RunFiles { table, input } = read_run_files(alloc, settings.table, settings.input, shelf)?;
    let (steps, leaders) = (settings.steps, settings.leaders);
    let profiled = profiled_run(alloc, &image, &table, input, steps, leaders)?;
    let answer = judge(alloc, &image, &table, &profiled, &settings.plan, &choice);
    // Values of many parts are let go by calls of `drop`: at the end the proof would walk through all their parts.
    drop(profiled);
    drop(choice);
    drop(image);
    answer
}

/// The new file, the modules and the log book in the files of these names.
///
/// # Errors
///
/// The first fault of the new file, the units and the log book, as [`ci_calls`] says.
fn read_choice<'a, F: Shelf>(
    alloc: Global,
    names: &CheckNames<'a>,
    shelf: &mut F,
) -> Result<ChoiceFiles, Refusal<'a>>
    ensures read { IfOk result (λ choice. (units_text : List ℕ) × (logs_text : List ℕ)
        × HaveRead F.read_may_fail F.write_may_fail (F.state shelf.old) (F.state shelf.new)
        (new_file_input names.now.new.now ∷ units_input names.now.units.now ∷ book_input names.now.logs.now ∷ [])
        (choice.new.items ∷ units_text ∷ logs_text ∷ [])
        × Spell units_text choice.modules.items × Spells logs_text choice.book) }
    ensures refused { IfErr result (λ refusal. (others : List Input) → HaveNotRead F.read_may_fail F.write_may_fail
        (F.state shelf.old) (F.state shelf.new)
        (new_file_input names.now.new.now ∷ units_input names.now.units.now ∷ book_input names.now.logs.now ∷ others)
        refusal) }
{
    let new = read_new_file(alloc, names.new, shelf)?;
    let modules = read_units(alloc, names.units, shelf)?;
    let book = read_book(alloc, names.logs, shelf)?;
    Ok(ChoiceFiles { new, modules, book })
}

/// The verdict on the files of a choice: that they are accepted, or their first wrong place.
fn judge<'a>(
    alloc: Global,
    image: &Image,
    table: &Table,
    profiled: &Profiled,
    plan: &Plan,
    choice: &ChoiceFiles,
) -> Result<Success<'a>, Refusal<'a>>
    requires image { IsReadAs image.now.bytes (Ok image.now) }
    requires profiled { (input : List ℕ) × (steps : ℕ) × (named : List ℕ) × IsProfiled image.now table.now input steps
        named profiled.now.profile profiled.now.analysis.blocks profiled.now.analysis.live }
    ensures { IsAnswerOn (instance_from table.now profiled.now plan.now) image.now choice.now result }
{
    let (profile, analysis) = (&profiled.profile, &profiled.analysis);
    let (blocks, live) = (&analysis.blocks, &analysis.live);
    let (book, modules, new) = (&choice.book, &choice.modules, &choice.new);
    match accept(
        alloc, image, profile, blocks, live, table, plan, book, modules, new,
    )? {
        Verdict::Accepted => Ok(Success {
            writes: Vec::new(alloc),
            text: String::from_str(alloc, "accepted\n")?.into_bytes(),
        }),
        Verdict::Rejected {
            round,
            leader,
            item,
            reason,
        } => Err(Refusal::Rejected {
            round,
            leader,
            item,
            reason,
        }),
    }
}
