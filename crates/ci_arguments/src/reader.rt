//! The words that read as a command of the program.
ghost use Rattle.std.specs.Prelude.{◌≡◌, List, map, true, IfOk, IfErr};
ghost use Rattle.std.specs.String.{string_bytes};
ghost use Rattle.ci_arguments.specs.Words.{Text, Reading, ReadsAs, ReadsIn, HasNoReading};
ghost use Rattle.ci_arguments.specs.private.Parses.{are_rows, command_row};
ghost use Rattle.ci_arguments.specs.Ranges.{KeepsRanges, KeepsPlaces};
ghost use Rattle.ci_arguments.specs.Read.{reading_of};

use crate::parse::{parse, row_in_front};
use crate::said::reading_by;
use crate::tables::{COMMANDS, CommandName, CommandRow, OptionName};
use crate::values::Value;
use std::alloc::{AllocError, AllocFailed, Global};

/// What the program is asked: a command, what its positional words say, and what its options are set to.
#[derive(Drop)]
pub struct Words<'a> {
    pub(crate) command: CommandName,
    pub(crate) values: Vec<Value<'a>>,
    pub(crate) settings: Vec<(OptionName, Value<'a>)>,
}

/// Why the words gave no command.
#[derive(Clone, Copy, Drop)]
pub enum WordsErr {
    /// The words have no reading.
    NoReading,
    /// Memory ran out.
    NoMemory,
}

impl<T: Drop> From<AllocFailed<T>> for WordsErr {
    ghost use Rattle.std.specs.Prelude.{◌≡◌};
    ghost use Rattle.ci_arguments.specs.declared.reader.WordsErr.TheVariants.{NoMemory};

    ghost from_gives = { λ _ e. e ≡ NoMemory };

    fn from(_: AllocFailed<T>) -> Self {
        WordsErr::NoMemory
    }
}

impl From<AllocError> for WordsErr {
    ghost use Rattle.std.specs.Prelude.{◌≡◌};
    ghost use Rattle.ci_arguments.specs.declared.reader.WordsErr.TheVariants.{NoMemory};

    ghost from_gives = { λ _ e. e ≡ NoMemory };

    fn from(_: AllocError) -> Self {
        WordsErr::NoMemory
    }
}

impl<'a> Words<'a> {
    ghost use Rattle.std.specs.Prelude.{◌≡◌, map, option_map, slice_get, IfOk};
    ghost use Rattle.ci_arguments.specs.Words.{name_at, number_at, word_at};
    ghost use Rattle.ci_arguments.specs.Words.{name_set, number_set, word_set, words_set};
    ghost use Rattle.ci_arguments.specs.Read.{reading_of, value_in};

    /// Which command it is.
    pub fn command(&self) -> CommandName
        ensures { result ≡ (reading_of self.now).command }
    {
        self.command
    }

    /// What the positional word at the place says, if there is one.
    pub fn value_at(&self, place: usize) -> Option<Value<'a>>
        ensures { option_map value_in result ≡ slice_get (reading_of self.now).values place }
    {
        self.values.get(place).copied()
    }

    /// The name of the file that is the positional word at the place; empty where no file stands there.
    pub fn name_at(&self, place: usize) -> &'a str
        ensures { result.now ≡ name_at (reading_of self.now) place }
    {
        match self.value_at(place) {
            Some(value) => value.name(),
            None => "",
        }
    }

    /// The number that is the positional word at the place; 0 where no number stands there.
    pub fn number_at(&self, place: usize) -> u64
        ensures { result ≡ number_at (reading_of self.now) place }
    {
        match self.value_at(place) {
            Some(value) => value.number(),
            None => 0,
        }
    }

    /// The word of 32 bits that is the positional word at the place; 0 where no such word stands there.
    pub fn word_at(&self, place: usize) -> u32
        ensures { result ≡ word_at (reading_of self.now) place }
    {
        match self.value_at(place) {
            Some(value) => value.word(),
            None => 0,
        }
    }

    /// The first that the option is set to, if it is set.
    fn first_set(&self, option: OptionName) -> Option<Value<'a>>
        ensures { option_map value_in result ≡ slice_get ((reading_of self.now).settings option) 0 }
    {
        for setting in &self.settings {
            if setting.0 == option {
                return Some(setting.1);
            }
        }
        None
    }

    /// The name of the file that the option is set to, if it is set.
    pub fn name(&self, option: OptionName) -> Option<&'a str>
        ensures { option_map (λ name. name.now) result ≡ name_set (reading_of self.now) option }
    {
        Some(self.first_set(option)?.name())
    }

    /// The number that the option is set to; 0 where it is not set.
    pub fn number(&self, option: OptionName) -> u64
        ensures { result ≡ number_set (reading_of self.now) option }
    {
        match self.first_set(option) {
            Some(value) => value.number(),
            None => 0,
        }
    }

    /// The word of 32 bits that the option is set to, if it is set.
    pub fn word(&self, option: OptionName) -> Option<u32>
        ensures { result ≡ word_set (reading_of self.now) option }
    {
        Some(self.first_set(option)?.word())
    }

    /// The words of 32 bits that the option is set to, in the order of the words.
    pub fn words(&self, alloc: Global, option: OptionName) -> Result<Vec<u32>, AllocError>
        ensures { IfOk result (λ words. words.items ≡ words_set (reading_of self.now) option) }
    {
        let mut words = Vec::new(alloc);
        for setting in &self.settings {
            if setting.0 == option {
                words.push(setting.1.word())?;
            }
        }
        Ok(words)
    }
}

/// What the words after the program's name read as.
///
/// # Errors
///
/// [`WordsErr::NoReading`] where they have no reading, and [`WordsErr::NoMemory`] where memory runs out.
pub fn read_words(alloc: Global, words: &[String]) -> Result<Words<'_>, WordsErr>
    ensures ok { IfOk result (λ said. ReadsAs (map string_bytes words.entry.now) (reading_of said)) }
    ensures only { IfOk result (λ said. (other : Reading)
        → ReadsAs (map string_bytes words.entry.now) other → other ≡ reading_of said) }
    ensures ranges { IfOk result (λ said. KeepsRanges (reading_of said).command (reading_of said)) }
    ensures places { IfOk result (λ said. KeepsPlaces (reading_of said).command (reading_of said)) }
    ensures no_reading { IfErr result (λ error. error ≡ WordsErr.NoReading
        → HasNoReading (map string_bytes words.entry.now)) }
{
    read_by(alloc, COMMANDS, words)
}

/// What the words read as by the table.
pub(crate) fn read_by<'a>(
    alloc: Global,
    rows: &'a [CommandRow<'a>],
    words: &'a [String],
) -> Result<Words<'a>, WordsErr>
    requires { are_rows (map command_row rows.now) ≡ true }
    ensures ok { IfOk result (λ said.
        ReadsIn (map command_row rows.entry.now) (map string_bytes words.entry.now) (reading_of said)) }
    ensures no_reading { IfErr result (λ error. error ≡ WordsErr.NoReading → (reading : Reading)
        → ReadsIn (map command_row rows.entry.now) (map string_bytes words.entry.now) reading → ⊥) }
{
    let Some(row) = row_in_front(rows, words) else {
        return Err(WordsErr::NoReading);
    };
    let matches = parse(alloc, row, words)?;
    reading_by(alloc, row, &matches)
}

/// That words have one reading at most.
pub fn words_have_one_reading()
    ensures { (words : List Text) (first second : Reading)
        → ReadsAs words first → ReadsAs words second → first ≡ second }
{}
