//! The command `find`: a whole choice of cuts.
ghost use Rattle.std.specs.Prelude.{◌≡◌, ◌≤◌, ◌∷◌, [], ℕ, List, Ok, IfOk, filter, length, map, reverse};
ghost use Rattle.std.specs.String.{string_bytes};
ghost use Rattle.ci_elf.specs.Rules.{IsReadAs};
ghost use Rattle.ci_log.specs.Books.{SpellsIn};
ghost use Rattle.ci_vemit.specs.Templates.{modules_of};
ghost use Rattle.ci_vemit.specs.Texts.{text_of};
ghost use Rattle.ci_report.specs.Reports.{IsReport};
ghost use Rattle.ci_select.specs.Histories.{is_take};
ghost use Rattle.ci_select.specs.UnitNumbers.{AreUnits};
ghost use Rattle.ci_select.specs.Savings.{IsSaved};
ghost use Rattle.ci_select.specs.Takes.{AreTaken};
ghost use Rattle.ci_calls.specs.Reads.{IsAnswerOf};
ghost use Rattle.ci_calls.specs.Refused.{name_in};
ghost use Rattle.ci_find.specs.Profiled.{IsProfiled};
ghost use Rattle.ci_find.specs.FindCommand.{find_inputs, is_spent, summary, summary_line, written};
ghost use Rattle.ci_find.specs.FindCommand.{IsChoice, IsFindMade, IsFindRefused};
ghost use Rattle.ci_find.specs.private.Chosen.{instance_from, output_of, settings_by};

use crate::profiling::{ChoiceSettings, Profiled, RunFiles, profiled_run, read_run_files};
use ci_calls::{Refusal, Success, Written, read_image};
use ci_elf::Image;
use ci_io::Shelf;
use ci_lat::Table;
use ci_log::{Entry, Version, write_in};
use ci_machine::laws::bytes_are_small;
use ci_report::report;
use ci_select::{Chosen, Plan, choose};
use ci_vemit::emit;
use std::alloc::{AllocError, Global};

/// What `find` writes: the names of the files, and the version of the log book.
#[derive(Clone, Copy)]
pub struct FindOutput<'a> {
    pub new: &'a str,
    pub units: &'a str,
    pub logs: &'a str,
    pub report: &'a str,
    pub version: Version,
}

/// The texts of a choice.
#[derive(Drop)]
struct Texts {
    /// The modules of its units.
    units: Vec<u8>,
    /// Its log book.
    logs: Vec<u8>,
    /// Its report.
    report: Vec<u8>,
    /// The line of its numbers.
    line: Vec<u8>,
}

// Values of many parts are let go by calls of `drop` before a `?`, where the proof would walk through all their parts.

/// Makes the units, the log book, the report and the new file of a choice for the executable in the file. The steps of
/// the settings are at most 4,294,967,296.
///
/// # Errors
///
/// The first fault of the executable, then of the table, and of the input, as [`ci_calls`] says. Then `Unsupported`
/// where the text has a word of a custom opcode: the first of these, at its address. Then `TextTouched` where the run
/// touches the text: the first touch. `NoMemory`: memory ran out.
pub fn evaluate<'a, F: Shelf>(
    alloc: Global,
    file: &'a str,
    output: &FindOutput<'a>,
    settings: &ChoiceSettings<'a, '_>,
    shelf: &mut F,
) -> Result<Success<'a>, Refusal<'a>>
    requires { settings.now.steps ≤ 4294967296 }
    ensures { IsAnswerOf F.read_may_fail F.write_may_fail (F.state shelf.old) (F.state shelf.new)
        (find_inputs file.now (name_in settings.now.table) (name_in settings.now.input))
        (IsFindMade (output_of output.now) (settings_by settings.now))
        (IsFindRefused (settings_by settings.now)) result }
{
    let image = read_image(alloc, file, shelf)?;
    let RunFiles { table, input } = read_run_files(alloc, settings.table, settings.input, shelf)?;
    let (steps, leaders) = (settings.steps, settings.leaders);
    let profiled = profiled_run(alloc, &image, &table, input, steps, leaders)?;
    let outcome = success_of(alloc, &image, &table, &profiled, output, &settings.plan);
    drop(profiled);
    drop(image);
    let success = outcome?;
    Ok(success)
}

/// The files of the choice, and the line of its numbers.
fn success_of<'a>(
    alloc: Global,
    image: &Image,
    table: &Table,
    profiled: &Profiled,
    output: &FindOutput<'a>,
    plan: &Plan,
) -> Result<Success<'a>, AllocError>
    requires image { IsReadAs image.now.bytes (Ok image.now) }
    requires profiled { (input : List ℕ) × (steps : ℕ) × (named : List ℕ) × IsProfiled image.now table.now input steps
        named profiled.now.profile profiled.now.analysis.blocks profiled.now.analysis.live }
    ensures { IfOk result (IsChoice (instance_from table.now profiled.now plan.now)
        profiled.now.profile image.now (output_of output.now)) }
{
    let (profile, analysis) = (&profiled.profile, &profiled.analysis);
    let (blocks, live) = (&analysis.blocks, &analysis.live);
    bytes_are_small(image.bytes());
    let chosen = choose(alloc, image, profile, blocks, live, table, plan)?;
    bytes_are_small(chosen.image.bytes());
    // What a table of units keeps is known where they are read.
    let _units = chosen.units.as_slice();
    let outcome = texts_of(alloc, profiled, table, plan, output.version, &chosen);
    let new = new_bytes(chosen);
    let texts = outcome?;
    let success = success_with(alloc, output, texts, new)?;
    Ok(success)
}

/// The texts of a choice, the log book in this version.
fn texts_of(
    alloc: Global,
    profiled: &Profiled,
    table: &Table,
    plan: &Plan,
    version: Version,
    chosen: &Chosen,
) -> Result<Texts, AllocError>
    requires takes { AreTaken (instance_from table.now profiled.now plan.now)
        (reverse chosen.now.book.entries) (reverse chosen.now.takes.items) }
    requires units { AreUnits (instance_from table.now profiled.now plan.now)
        (reverse chosen.now.book.entries) chosen.now.units }
    requires saved { IsSaved (instance_from table.now profiled.now plan.now)
        (reverse chosen.now.book.entries) chosen.now.saved }
    ensures units { IfOk result (λ texts. texts.units.items ≡ text_of (modules_of chosen.now.units)) }
    ensures logs { IfOk result (λ texts. SpellsIn version texts.logs.items chosen.now.book) }
    ensures report { IfOk result (λ texts. IsReport (instance_from table.now profiled.now plan.now)
        profiled.now.profile chosen.now.book texts.report.items) }
    ensures line { IfOk result (λ texts. texts.line.items
        ≡ summary_line chosen.now.book.entries chosen.now.units chosen.now.saved) }
{
    let (profile, analysis) = (&profiled.profile, &profiled.analysis);
    let report = report(alloc, profile, analysis, table, plan, chosen)?;
    let units = emit(alloc, &chosen.units)?;
    let logs = write_in(alloc, version, &chosen.book)?;
    let mut line = summary(alloc, chosen)?;
    line.push('\n')?;
    Ok(Texts {
        units,
        logs,
        report,
        line: line.into_bytes(),
    })
}

/// The bytes of the new file of a choice.
fn new_bytes(chosen: Chosen) -> Vec<u8>
    ensures { result.items ≡ chosen.image.bytes }
{
    chosen.image.into_bytes()
}

/// The texts of a choice and its new file under their names, and the line of its numbers.
fn success_with<'a>(
    alloc: Global,
    output: &FindOutput<'a>,
    texts: Texts,
    new: Vec<u8>,
) -> Result<Success<'a>, AllocError>
    ensures writes { IfOk result (λ success. map written success.writes.items
        ≡ (output.now.units.now, texts.units.items) ∷ (output.now.logs.now, texts.logs.items)
        ∷ (output.now.report.now, texts.report.items) ∷ (output.now.new.now, new.items) ∷ []) }
    ensures text { IfOk result (λ success. success.text.items ≡ texts.line.items) }
{
    let writes = vec![in alloc;
        Written {
            name: output.units,
            bytes: texts.units,
        },
        Written {
            name: output.logs,
            bytes: texts.logs,
        },
        Written {
            name: output.report,
            bytes: texts.report,
        },
        Written {
            name: output.new,
            bytes: new,
        },
    ]?;
    Ok(Success {
        writes,
        text: texts.line,
    })
}

/// How many cuts were taken, how many units they have, how many searches were given up, and the cycles that are saved.
pub(crate) fn summary(alloc: Global, chosen: &Chosen) -> Result<String, AllocError>
    ensures { IfOk result (λ text. string_bytes text
        ≡ summary chosen.now.book.entries chosen.now.units chosen.now.saved) }
{
    let entries = chosen.book.entries();
    let (cuts, skipped) = (takes(entries), skips(entries));
    let units = chosen.units.len();
    let saved = chosen.saved;
    format!(in alloc; "cuts {cuts} units {units} skipped {skipped} gain {saved}")
}

/// How many of the entries are takes.
fn takes(entries: &[Entry]) -> usize
    ensures { result ≡ length (filter is_take entries.now) }
{
    let mut takes = 0;
    for entry in entries {
        if matches!(entry, Entry::Take { .. }) {
            takes += 1;
        }
    }
    takes
}

/// How many of the entries tell of searches that were given up.
fn skips(entries: &[Entry]) -> usize
    ensures { result ≡ length (filter is_spent entries.now) }
{
    let mut skips = 0;
    for entry in entries {
        if matches!(entry, Entry::Spent { .. }) {
            skips += 1;
        }
    }
    skips
}
