//! The words of the command line, read as a command of the program.
#![tactic(auto)]

pub use reader::{Words, WordsErr, read_words, words_have_one_reading};
pub use tables::{Access, CommandName, OptionName};
pub use values::Value;

mod parse;
mod reader;
mod said;
mod tables;
mod values;
