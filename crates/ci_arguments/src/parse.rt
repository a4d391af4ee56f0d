//! The commands as `clap` parses them.
ghost use Rattle.std.specs.Prelude.{◌≡◌, ◌≢◌, ◌++◌, ◌∷◌, [], List, Bool, map, length, true, All, IfOk, IfErr, IfSome};
ghost use Rattle.std.specs.Prelude.{IfNone, Contains, slice_get, Some};
ghost use Rattle.std.specs.String.{string_bytes};
ghost use Rattle.clap.specs.Words.{app_of, is_simple_and_free, fault_of, found_of, rows_of};
ghost use Rattle.ci_arguments.specs.Tables.{CommandRow as Row};
ghost use Rattle.ci_arguments.specs.Words.{Text};
ghost use Rattle.ci_arguments.specs.private.Parses.{Known, app_by, app_for, command_row, is_row, names_in, option_row, values_in};
ghost use Rattle.ci_arguments.specs.private.Parses.{IsParsed};
ghost use Rattle.ci_arguments.specs.private.Parses as parses;

use crate::reader::WordsErr;
use crate::tables::{CommandOption, CommandRow};
use clap::error::ErrorKind;
use clap::{Arg, ArgAction, ArgMatches, Command};
use std::alloc::{AllocError, Global};

/// The argument that takes each positional word.
pub const NAMES: &str = "names";

/// The first row of the command that the first of the words names.
pub fn row_in_front<'a>(rows: &'a [CommandRow<'a>], words: &[String]) -> Option<&'a CommandRow<'a>>
    ensures some { IfSome result (λ row.
        Contains (map command_row rows.entry.now) (command_row row.now)
        × (slice_get (map string_bytes words.now) 0 ≡ Some (command_row row.now).word)) }
    ensures none { IfNone result ((row : Row) → Contains (map command_row rows.entry.now) row
        → slice_get (map string_bytes words.now) 0 ≢ Some row.word) }
{
    row_called(rows, words.first()?.as_str())
}

/// The first row of the command that the word names.
fn row_called<'a>(rows: &'a [CommandRow<'a>], word: &str) -> Option<&'a CommandRow<'a>>
    ensures some { IfSome result (λ row. Contains (map command_row rows.entry.now) (command_row row.now)
        × (word.now ≡ (command_row row.now).word)) }
    ensures none { IfNone result ((row : Row) → Contains (map command_row rows.entry.now) row
        → word.now ≢ row.word) }
{
    for row in rows {
        if word == row.0 {
            return Some(row);
        }
    }
    None
}

/// The `clap` command of the row.
fn clap_command<'a>(alloc: Global, row: &CommandRow<'a>) -> Result<Command<'a>, AllocError>
    requires { is_row (command_row row.now) ≡ true }
    ensures { IfOk result (λ parser. app_of parser ≡ app_by (command_row row.entry.now)) }
{
    let parser = with_names(alloc, row.0)?;
    with_options(alloc, parser, row.3)
}

/// A parser with positional words and no option.
fn with_names<'a>(alloc: Global, word: &'a str) -> Result<Command<'a>, AllocError>
    ensures { IfOk result (λ parser. (repeats : Text → Bool)
        → app_of parser ≡ app_for word.entry.now (record { names = []; repeats = repeats })) }
{
    let names = Arg::new(alloc, NAMES).action(ArgAction::Append);
    Command::new(alloc, word)
        .disable_help_flag(true)
        .disable_version_flag(true)
        .arg(names)
}

/// The parser with these options too.
fn with_options<'a>(
    alloc: Global,
    parser: Command<'a>,
    options: &[CommandOption<'a>],
) -> Result<Command<'a>, AllocError>
    ensures { (word : Text) (repeats : Text → Bool)
        → app_of parser.entry ≡ app_for word (record { names = []; repeats = repeats })
        → All (λ option. option.repeatable ≡ repeats option.name) (map option_row options.entry.now)
        → IfOk result (λ more. app_of more
        ≡ app_for word (record { names = names_in (map option_row options.entry.now); repeats = repeats })) }
{
    let mut parser = parser;
    for option in options {
        parser = with_option(alloc, parser, option.0.0, option.0.1.repeatable)?;
    }
    Ok(parser)
}

/// The parser with one option more, which may stand more than once or not.
fn with_option<'a>(
    alloc: Global,
    parser: Command<'a>,
    name: &'a str,
    repeatable: bool,
) -> Result<Command<'a>, AllocError>
    ensures { (word : Text) (known : Known) → app_of parser.entry ≡ app_for word known
        → repeatable ≡ known.repeats name.entry.now
        → IfOk result (λ more. app_of more
        ≡ app_for word (record known { names = known.names ++ name.entry.now ∷ [] })) }
{
    parser.arg(
        Arg::new(alloc, name)
            .long(name)
            .action(action_for(repeatable)),
    )
}

/// What is done with a value of an option, which may stand more than once or not.
fn action_for(repeatable: bool) -> ArgAction
    ensures { result ≡ parses.action_for repeatable }
{
    if repeatable {
        ArgAction::Append
    } else {
        ArgAction::Set
    }
}

/// The matches of the row's command in the words, of which the first is its name.
pub fn parse<'a>(
    alloc: Global,
    row: &CommandRow<'a>,
    words: &'a [String],
) -> Result<ArgMatches<'a>, WordsErr>
    requires { is_row (command_row row.now) ≡ true }
    ensures ok { IfOk result (λ matches. IsParsed (app_by (command_row row.entry.now))
        (map string_bytes words.entry.now) (rows_of (found_of matches))) }
    ensures none { IfErr result (λ error. error ≡ WordsErr.NoReading
        → fault_of (app_by (command_row row.entry.now)) (map string_bytes words.entry.now) ≢ []) }
{
    match clap_command(alloc, row) {
        Ok(parser) => matches_in(parser, words),
        Err(_) => Err(WordsErr::NoMemory),
    }
}

/// The parser's matches in the words.
fn matches_in<'a>(parser: Command<'a>, words: &'a [String]) -> Result<ArgMatches<'a>, WordsErr>
    requires { is_simple_and_free (app_of parser) ≡ true }
    ensures ok { IfOk result (λ matches. IsParsed (app_of parser.entry)
        (map string_bytes words.now) (rows_of (found_of matches))) }
    ensures none { IfErr result (λ error. error ≡ WordsErr.NoReading
        → fault_of (app_of parser.entry) (map string_bytes words.now) ≢ []) }
{
    match parser.try_get_matches_from(words) {
        Ok(matches) => Ok(matches),
        Err(error) => {
            if error.kind() == ErrorKind::OutOfMemory {
                Err(WordsErr::NoMemory)
            } else {
                Err(WordsErr::NoReading)
            }
        }
    }
}

/// The values that the matches have for an argument.
pub fn words_given<'a>(
    alloc: Global,
    matches: &ArgMatches<'a>,
    id: &str,
) -> Result<Vec<&'a str>, AllocError>
    ensures { IfOk result (λ words. map (λ t. t.now) words.items
        ≡ values_in (rows_of (found_of matches.now)) id.now) }
{
    let mut words = Vec::new(alloc);
    let Some(given) = matches.get_raw(id) else {
        return Ok(words);
    };
    for word in given {
        words.push(*word)?;
    }
    Ok(words)
}
