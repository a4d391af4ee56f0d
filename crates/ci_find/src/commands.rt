//! Which command the words mean, and what it makes of its files, or why it makes nothing.
ghost use Rattle.std.specs.Prelude.{◌≡◌, ℕ, ◌≤◌, Bool, List, [], ◌∷◌, IfOk, IfErr, map};
ghost use Rattle.std.specs.String.{string_bytes};
ghost use Rattle.ci_arguments.specs.Ranges.{KeepsRanges, KeepsPlaces};
ghost use Rattle.ci_arguments.specs.Read.{reading_of};
ghost use Rattle.ci_arguments.specs.declared.tables.OptionName.TheVariants as option;
ghost use Rattle.ci_arguments.specs.Words.{number_at, words_set};
ghost use Rattle.ci_find.specs.ChoiceReading.{log_version, settings_of, IsPlanOf};
ghost use Rattle.ci_commands.specs.PairCommand.{IsLineOf};
ghost use Rattle.ci_find.specs.Commands.{arguments_of, search_call, IsAnswerBy, IsAnswerTo};
ghost use Rattle.ci_find.specs.private.Chosen.{settings_by, KeepsChoiceRanges, KeepsSearchRanges};
ghost use Rattle.ci_find.specs.EndsBy.{IsDueBy, IsRefusalBy};
ghost use Rattle.ci_io.specs.CallLists.{Call};
ghost use Rattle.ci_io.specs.MadeCalls.{AreMade};
ghost use Rattle.ci_io.specs.Outcomes.{ShelfState};

use crate::check::{self, CheckNames};
use crate::find::{self, FindOutput};
use crate::profiling::ChoiceSettings;
use crate::rename::{self, RenameSettings};
use crate::{area, load};
use ci_arguments::{CommandName, OptionName, Words, WordsErr, read_words};
use ci_calls::{Refusal, Success};
use ci_commands::best::{BestSettings, Sought};
use ci_commands::run::RunSettings;
use ci_commands::{asm, best, blocks, dis, eval, gates, geval, relog, run};
use ci_cut::Limits;
use ci_io::Shelf;
use ci_log::Version;
use ci_select::Plan;
use std::alloc::Global;

/// The success that is due to the words, over the files of the shelf.
pub fn evaluate<'a, F: Shelf>(
    alloc: Global,
    words: &'a Vec<String>,
    shelf: &mut F,
) -> Result<Success<'a>, Refusal<'a>>
    ensures done { IfOk result (λ success. (reads : List Call)
        × AreMade F.read_may_fail F.write_may_fail (F.state shelf.old) (F.state shelf.new) reads
        × IsDueBy (map string_bytes words.now.items) reads success) }
    ensures refused { IfErr result (λ refusal. (reads : List Call)
        × AreMade F.read_may_fail F.write_may_fail (F.state shelf.old) (F.state shelf.new) reads
        × IsRefusalBy (map string_bytes words.now.items) reads refusal) }
{
    match read_words(alloc, words.as_slice()) {
        Ok(said) => evaluate_command(alloc, said.command(), &said, shelf),
        Err(WordsErr::NoReading) => Err(Refusal::Usage),
        Err(WordsErr::NoMemory) => Err(Refusal::NoMemory),
    }
}

/// What the command makes of its files.
fn evaluate_command<'a, F: Shelf>(
    alloc: Global,
    command: CommandName,
    words: &Words<'a>,
    shelf: &mut F,
) -> Result<Success<'a>, Refusal<'a>>
    requires ranges { KeepsRanges command (reading_of words.now) }
    requires places { KeepsPlaces command (reading_of words.now) }
    ensures { IsAnswerBy F.read_may_fail F.write_may_fail (F.state shelf.old) (F.state shelf.new)
        command (reading_of words.now) result }
{
    let file = words.name_at(0);
    match command {
        CommandName::Best => evaluate_search(alloc, Sought::Cut, words, shelf),
        CommandName::Pair => evaluate_search(alloc, Sought::Pair, words, shelf),
        CommandName::Asm => asm::evaluate(alloc, file, words.name_at(1), shelf),
        CommandName::Dis => dis::evaluate(alloc, file, shelf),
        CommandName::Run => evaluate_run(alloc, words, shelf),
        CommandName::Blocks => {
            let leaders = words.words(alloc, OptionName::Leader)?;
            blocks::evaluate(alloc, file, leaders.as_slice(), shelf)
        }
        CommandName::Eval => evaluate_eval(alloc, words, shelf),
        CommandName::Find => evaluate_find(alloc, words, shelf),
        CommandName::Check => evaluate_check(alloc, words, shelf),
        CommandName::Area => evaluate_area(alloc, words, shelf),
        CommandName::Rename => evaluate_rename(alloc, words, shelf),
        CommandName::Relog => {
            relog::evaluate(alloc, file, words.name_at(1), log_version(words), shelf)
        }
        CommandName::Gates => gates::evaluate(alloc, file, words.name_at(1), shelf),
        CommandName::Geval => evaluate_geval(alloc, words, shelf),
        CommandName::Load => evaluate_load(alloc, words),
    }
}

/// What `best` or `pair` makes of its files, by what is searched for and the settings that the words say.
fn evaluate_search<'a, F: Shelf>(
    alloc: Global,
    sought: Sought,
    words: &Words<'a>,
    shelf: &mut F,
) -> Result<Success<'a>, Refusal<'a>>
    requires { KeepsSearchRanges (reading_of words.now) }
    ensures { IsAnswerTo F.read_may_fail F.write_may_fail (F.state shelf.old) (F.state shelf.new)
        (search_call (IsLineOf sought) (reading_of words.now)) result }
{
    let leaders = words.words(alloc, OptionName::Leader)?;
    let settings = BestSettings {
        at: words.word(OptionName::At),
        leaders: leaders.as_slice(),
        limits: Limits {
            inputs: words.number(OptionName::Inputs) as u8,
            outputs: words.number(OptionName::Outputs) as u8,
        },
        sought,
        budget: words.number(OptionName::Budget) as u32,
        table: words.name(OptionName::Table),
    };
    best::evaluate(alloc, words.name_at(0), &settings, shelf)
}

/// What `run` makes of its files, by the settings that the words say.
fn evaluate_run<'a, F: Shelf>(
    alloc: Global,
    words: &Words<'a>,
    shelf: &mut F,
) -> Result<Success<'a>, Refusal<'a>>
    requires { KeepsRanges CommandName.Run (reading_of words.now) }
    ensures { IsAnswerBy F.read_may_fail F.write_may_fail (F.state shelf.old) (F.state shelf.new)
        CommandName.Run (reading_of words.now) result }
{
    let settings = RunSettings {
        steps: words.number(OptionName::Steps),
        units: words.name(OptionName::Units),
        input: words.name(OptionName::Input),
        table: words.name(OptionName::Table),
    };
    run::evaluate(alloc, words.name_at(0), &settings, shelf)
}

/// What `eval` makes of its file, by the module and the inputs that the words say.
fn evaluate_eval<'a, F: Shelf>(
    alloc: Global,
    words: &Words<'a>,
    shelf: &mut F,
) -> Result<Success<'a>, Refusal<'a>>
    requires { KeepsPlaces CommandName.Eval (reading_of words.now) }
    ensures { IsAnswerBy F.read_may_fail F.write_may_fail (F.state shelf.old) (F.state shelf.new)
        CommandName.Eval (reading_of words.now) result }
{
    let (number, arguments) = number_and_arguments(words);
    eval::evaluate(alloc, words.name_at(0), number, arguments, shelf)
}

/// What `geval` makes of its file, by the netlist and the inputs that the words say.
fn evaluate_geval<'a, F: Shelf>(
    alloc: Global,
    words: &Words<'a>,
    shelf: &mut F,
) -> Result<Success<'a>, Refusal<'a>>
    requires { KeepsPlaces CommandName.Geval (reading_of words.now) }
    ensures { IsAnswerBy F.read_may_fail F.write_may_fail (F.state shelf.old) (F.state shelf.new)
        CommandName.Geval (reading_of words.now) result }
{
    let (number, arguments) = number_and_arguments(words);
    geval::evaluate(alloc, words.name_at(0), number, arguments, shelf)
}

/// The number of a module or of a netlist, and the values of its inputs a, b, c, d and e, that the words say.
fn number_and_arguments(words: &Words) -> (u32, (u32, u32, u32, u32, u32))
    requires { number_at (reading_of words.now) 1 ≤ 31 }
    ensures number { result.0 ≡ number_at (reading_of words.now) 1 }
    ensures arguments { (result.1.0 ∷ result.1.1 ∷ result.1.2 ∷ result.1.3 ∷ result.1.4 ∷ [])
        ≡ arguments_of (reading_of words.now) }
{
    let number = words.number_at(1) as u32;
    let d = words.word(OptionName::ArgumentD).unwrap_or(0);
    let e = words.word(OptionName::ArgumentE).unwrap_or(0);
    let arguments = (words.word_at(2), words.word_at(3), words.word_at(4), d, e);
    (number, arguments)
}

/// What `find` makes of its files, by the output and the settings that the words say.
fn evaluate_find<'a, F: Shelf>(
    alloc: Global,
    words: &Words<'a>,
    shelf: &mut F,
) -> Result<Success<'a>, Refusal<'a>>
    requires ranges { KeepsRanges CommandName.Find (reading_of words.now) }
    requires places { KeepsPlaces CommandName.Find (reading_of words.now) }
    ensures { IsAnswerBy F.read_may_fail F.write_may_fail (F.state shelf.old) (F.state shelf.new)
        CommandName.Find (reading_of words.now) result }
{
    let leaders = words.words(alloc, OptionName::Leader)?;
    let output = FindOutput {
        new: words.name_at(1),
        units: words.name_at(2),
        logs: words.name_at(3),
        report: words.name_at(4),
        version: log_version(words),
    };
    let settings = choice_settings(words, leaders.as_slice());
    find::evaluate(alloc, words.name_at(0), &output, &settings, shelf)
}

/// What `check` makes of its files, by the names and the settings that the words say.
fn evaluate_check<'a, F: Shelf>(
    alloc: Global,
    words: &Words<'a>,
    shelf: &mut F,
) -> Result<Success<'a>, Refusal<'a>>
    requires ranges { KeepsRanges CommandName.Check (reading_of words.now) }
    requires places { KeepsPlaces CommandName.Check (reading_of words.now) }
    ensures { IsAnswerBy F.read_may_fail F.write_may_fail (F.state shelf.old) (F.state shelf.new)
        CommandName.Check (reading_of words.now) result }
{
    let leaders = words.words(alloc, OptionName::Leader)?;
    let names = CheckNames {
        new: words.name_at(1),
        units: words.name_at(2),
        logs: words.name_at(3),
    };
    let settings = choice_settings(words, leaders.as_slice());
    check::evaluate(alloc, words.name_at(0), &names, &settings, shelf)
}

/// What `area` makes of its files, by the limit and the settings that the words say.
fn evaluate_area<'a, F: Shelf>(
    alloc: Global,
    words: &Words<'a>,
    shelf: &mut F,
) -> Result<Success<'a>, Refusal<'a>>
    requires { KeepsRanges CommandName.Area (reading_of words.now) }
    ensures { IsAnswerBy F.read_may_fail F.write_may_fail (F.state shelf.old) (F.state shelf.new)
        CommandName.Area (reading_of words.now) result }
{
    let leaders = words.words(alloc, OptionName::Leader)?;
    let limit = words.number(OptionName::Limit) as u32;
    let settings = choice_settings(words, leaders.as_slice());
    area::evaluate(alloc, words.name_at(0), limit, &settings, shelf)
}

/// What `rename` makes of its files, by the settings that the words say.
fn evaluate_rename<'a, F: Shelf>(
    alloc: Global,
    words: &Words<'a>,
    shelf: &mut F,
) -> Result<Success<'a>, Refusal<'a>>
    requires { KeepsRanges CommandName.Rename (reading_of words.now) }
    ensures { IsAnswerBy F.read_may_fail F.write_may_fail (F.state shelf.old) (F.state shelf.new)
        CommandName.Rename (reading_of words.now) result }
{
    let leaders = words.words(alloc, OptionName::Leader)?;
    let settings = RenameSettings {
        steps: words.number(OptionName::Steps),
        leaders: leaders.as_slice(),
        input: words.name(OptionName::Input),
    };
    rename::evaluate(alloc, words.name_at(0), words.name_at(1), &settings, shelf)
}

/// What `load` makes of the seed that the words say.
fn evaluate_load<'a>(alloc: Global, words: &Words<'a>) -> Result<Success<'a>, Refusal<'a>>
    requires { KeepsPlaces CommandName.Load (reading_of words.now) }
    ensures { (read_may_fail write_may_fail : List ℕ → Bool) (shelf : ShelfState)
        → IsAnswerBy read_may_fail write_may_fail shelf shelf CommandName.Load (reading_of words.now) result }
{
    let seed = words.number_at(0) as u32;
    Ok(load::evaluate(alloc, seed)?)
}

/// The version of the log book that the words name.
fn log_version(words: &Words) -> Version
    ensures { result ≡ log_version (reading_of words.now) }
{
    if words.number(OptionName::LogVersion) == 2 {
        Version::Two
    } else {
        Version::One
    }
}

/// The settings of a choice that the words of `find`, `check` or `area` say.
fn choice_settings<'a, 'b>(words: &Words<'a>, leaders: &'b [u32]) -> ChoiceSettings<'a, 'b>
    requires { KeepsChoiceRanges (reading_of words.now) }
    ensures plan { IsPlanOf (reading_of words.now) result.plan }
    ensures settings { leaders.now ≡ words_set (reading_of words.now) option.Leader
        → settings_by result ≡ settings_of (reading_of words.now) result.plan }
{
    ChoiceSettings {
        steps: words.number(OptionName::Steps),
        leaders,
        plan: Plan {
            limits: Limits {
                inputs: words.number(OptionName::Inputs) as u8,
                outputs: words.number(OptionName::Outputs) as u8,
            },
            count: words.number(OptionName::Count) as u8,
            budget: words.number(OptionName::Budget) as u32,
        },
        table: words.name(OptionName::Table),
        input: words.name(OptionName::Input),
    }
}
