//! What the matches of a command say, by its row.
ghost use Rattle.std.specs.Prelude.{◌≡◌, ◌≢◌, ◌⊎◌, ◌↔◌, ◌<◌, List, ◌++◌, map, length, AllPairs, IsTrue, IfOk, IfErr};
ghost use Rattle.std.specs.Prelude.{OnOk};
ghost use Rattle.clap.specs.Words.{found_of, rows_of};
ghost use Rattle.ci_arguments.specs.Words.{AreApart, AreSaid, AreSet, IsDefault, Reading, Sets, Value as SaidValue};
ghost use Rattle.ci_arguments.specs.Read.{reading_of, setting_in, value_in};
ghost use Rattle.ci_arguments.specs.private.Parses.{command_row, option_row, values_in, IsApartBefore, MatchesGive};

use crate::parse::{NAMES, words_given};
use crate::reader::{Words, WordsErr};
use crate::tables::{Access, CommandOption, CommandRow, DefaultValue, Kind, OptionName};
use crate::values::{Value, value_of};
use clap::ArgMatches;
use std::alloc::{AllocError, Global};

/// What the matches of the row's command say, if they give a reading.
pub fn reading_by<'a>(
    alloc: Global,
    row: &CommandRow,
    matches: &ArgMatches<'a>,
) -> Result<Words<'a>, WordsErr>
    ensures ok { IfOk result (λ words.
        MatchesGive (command_row row.now) (rows_of (found_of matches.now)) (reading_of words)) }
    ensures none { IfErr result (λ error. error ≡ WordsErr.NoReading → (reading : Reading)
        → MatchesGive (command_row row.now) (rows_of (found_of matches.now)) reading → ⊥) }
{
    let (_, command, kinds, options) = *row;
    let names = words_given(alloc, matches, NAMES)?;
    let values = values_said(alloc, kinds, &names)?;
    let settings = settings_of(alloc, options, matches)?;
    if !are_apart(all_values(alloc, &values, &settings)?.as_slice()) {
        return Err(WordsErr::NoReading);
    }
    Ok(Words {
        command,
        values,
        settings,
    })
}

/// What as many texts of these kinds say, one by one.
fn values_said<'a>(
    alloc: Global,
    kinds: &[Kind],
    texts: &[&'a str],
) -> Result<Vec<Value<'a>>, WordsErr>
    ensures ok { IfOk result (λ values.
        AreSaid kinds.now (map (λ t. t.now) texts.now) (map value_in values.items)) }
    ensures none { IfErr result (λ error. error ≡ WordsErr.NoReading → (values : List SaidValue)
        → AreSaid kinds.now (map (λ t. t.now) texts.now) values → ⊥) }
{
    if texts.len() != kinds.len() {
        return Err(WordsErr::NoReading);
    }
    let mut values = Vec::new(alloc);
    for i in 0..kinds.len() {
        let Some(value) = value_of(kinds[i], texts[i]) else {
            return Err(WordsErr::NoReading);
        };
        values.push(value)?;
    }
    Ok(values)
}

/// What each of the options is set to, in their order.
fn settings_of<'a>(
    alloc: Global,
    options: &[CommandOption],
    matches: &ArgMatches<'a>,
) -> Result<Vec<(OptionName, Value<'a>)>, WordsErr>
    ensures ok { IfOk result (λ settings. AreSet (map option_row options.now)
        (values_in (rows_of (found_of matches.now))) (map setting_in settings.items)) }
    ensures none { IfErr result (λ error. error ≡ WordsErr.NoReading → (set : List (OptionName × SaidValue))
        → AreSet (map option_row options.now) (values_in (rows_of (found_of matches.now))) set → ⊥) }
{
    let mut settings = Vec::new(alloc);
    for option in options {
        let texts = words_given(alloc, matches, option.0.0)?;
        let values = values_set(alloc, option, &texts)?;
        push_settings(option.0.1.option, &values, &mut settings)?;
    }
    Ok(settings)
}

/// What the option is set to by the values that are given to it.
fn values_set<'a>(
    alloc: Global,
    option: &CommandOption,
    texts: &[&'a str],
) -> Result<Vec<Value<'a>>, WordsErr>
    ensures ok { IfOk result (λ values.
        Sets (option_row option.now) (map (λ t. t.now) texts.now) (map value_in values.items)) }
    ensures none { IfErr result (λ error. error ≡ WordsErr.NoReading → (values : List SaidValue)
        → Sets (option_row option.now) (map (λ t. t.now) texts.now) values → ⊥) }
{
    if texts.is_empty() {
        return default_values(alloc, option.1);
    }
    let mut values = Vec::new(alloc);
    for text in texts {
        let Some(value) = value_of(option.0.1.kind, text) else {
            return Err(WordsErr::NoReading);
        };
        values.push(value)?;
    }
    Ok(values)
}

/// What an option with this default is set to where it is not given.
fn default_values<'a>(alloc: Global, default: DefaultValue) -> Result<Vec<Value<'a>>, WordsErr>
    ensures ok { IfOk result (λ values. IsDefault default (map value_in values.items)) }
    ensures none { IfErr result (λ error. error ≡ WordsErr.NoReading → (values : List SaidValue)
        → IsDefault default values → ⊥) }
{
    let mut values = Vec::new(alloc);
    match default {
        DefaultValue::Number(n) => {
            values.push(Value::Number(n))?;
            Ok(values)
        }
        DefaultValue::Nothing => Ok(values),
        DefaultValue::MustStand => Err(WordsErr::NoReading),
    }
}

/// Appends these values of the option.
fn push_settings<'a>(
    option: OptionName,
    values: &[Value<'a>],
    settings: &mut Vec<(OptionName, Value<'a>)>,
) -> Result<(), AllocError>
    ensures { OnOk result (map setting_in settings.new.items
        ≡ map setting_in settings.old.items ++ map (λ value. (option, value_in value)) values.now) }
{
    for value in values {
        settings.push((option, *value))?;
    }
    Ok(())
}

/// The values of the positional words, and then those of the options.
fn all_values<'a>(
    alloc: Global,
    values: &[Value<'a>],
    settings: &[(OptionName, Value<'a>)],
) -> Result<Vec<Value<'a>>, AllocError>
    ensures { IfOk result (λ all. map value_in all.items
        ≡ map value_in values.now ++ map (λ setting. setting.1) (map setting_in settings.now)) }
{
    let mut all = Vec::new(alloc);
    for value in values {
        all.push(*value)?;
    }
    for setting in settings {
        all.push(setting.1)?;
    }
    Ok(all)
}

/// Whether each file that is written is no other file.
fn are_apart(values: &[Value]) -> bool
    ensures { IsTrue result ↔ AllPairs AreApart (map value_in values.now) }
{
    for i in 0..values.len() {
        if !is_apart_before(values, i) {
            return false;
        }
    }
    true
}

/// Whether the value at the place is apart from those before it.
fn is_apart_before(values: &[Value], i: usize) -> bool
    requires { i < length values.now }
    ensures { IsTrue result ↔ IsApartBefore (map value_in values.now) i }
{
    for k in 0..i {
        if !is_apart(values[k], values[i]) {
            return false;
        }
    }
    true
}

/// Whether two values are no files, or files that are both read, or differ.
fn is_apart(one: Value, other: Value) -> bool
    ensures { IsTrue result ↔ AreApart (value_in one.entry) (value_in other.entry) }
{
    match (one, other) {
        (Value::File(access, name), Value::File(other_access, other_name)) => {
            are_names_apart(access, name, other_access, other_name)
        }
        _ => true,
    }
}

/// Whether two files are both read, or differ.
fn are_names_apart(access: Access, name: &str, other_access: Access, other: &str) -> bool
    ensures { IsTrue result ↔
        ((access ≡ Access.Writes) ⊎ (other_access ≡ Access.Writes) → name.now ≢ other.now) }
{
    match (access, other_access) {
        (Access::Reads, Access::Reads) => true,
        (Access::Writes, _) | (_, Access::Writes) => name != other,
    }
}
