//! What names, numbers and words of 32 bits look like, and what they say.
ghost use Rattle.std.specs.Prelude.{◌≡◌, ◌↔◌, ◌≤◌, ℕ, IsTrue, IfSome, IfNone};
ghost use Rattle.ci_arguments.specs.Words.{IsName, IsNumber, IsWord, Says, Value as SaidValue, name_in, number_in, word_in};
ghost use Rattle.ci_arguments.specs.Read.{value_in};

use crate::tables::{Access, Kind};
use ci_reading::number_of_digits;

/// What a positional word or the value of an option says.
#[derive(Clone, Copy)]
pub enum Value<'a> {
    /// The name of a file, with what the command does with the file.
    File(Access, &'a str),
    /// A number.
    Number(u64),
    /// A word of 32 bits, as an address is one.
    Word(u32),
}

impl<'a> Value<'a> {
    /// The name of the file; of another value, the empty text.
    pub fn name(self) -> &'a str
        ensures { result.now ≡ name_in (value_in self.entry) }
    {
        match self {
            Value::File(_, name) => name,
            Value::Number(_) => "",
            Value::Word(_) => "",
        }
    }

    /// The number; of another value, 0.
    pub fn number(self) -> u64
        ensures { result ≡ number_in (value_in self.entry) }
    {
        match self {
            Value::File(_, _) => 0,
            Value::Number(n) => n,
            Value::Word(_) => 0,
        }
    }

    /// The word of 32 bits; of another value, 0.
    pub fn word(self) -> u32
        ensures { result ≡ word_in (value_in self.entry) }
    {
        match self {
            Value::File(_, _) => 0,
            Value::Number(_) => 0,
            Value::Word(n) => n,
        }
    }
}

/// What the text says, if it is one of the kind.
pub fn value_of<'a>(kind: Kind, text: &'a str) -> Option<Value<'a>>
    ensures some { IfSome result (λ value. Says kind text.entry.now (value_in value)) }
    ensures none { IfNone result ((value : SaidValue) → Says kind text.entry.now value → ⊥) }
{
    match kind {
        Kind::File(access) => {
            if !is_name(text) {
                return None;
            }
            Some(Value::File(access, text))
        }
        Kind::Number { minimum, maximum } => {
            let n = number_of(text, minimum, maximum)?;
            Some(Value::Number(n))
        }
        Kind::Word => {
            let n = word_of(text)?;
            Some(Value::Word(n))
        }
    }
}

/// Whether the text is not empty and does not begin with a hyphen.
fn is_name(text: &str) -> bool
    ensures { IsTrue result ↔ IsName text.now }
{
    match text.as_bytes() {
        [] => false,
        [first, ..] => *first != b'-',
    }
}

/// The number of one to ten decimal digits, where it is in the range.
fn number_of(text: &str, minimum: u64, maximum: u64) -> Option<u64>
    ensures some { IfSome result (λ n. IsNumber text.now n × (minimum ≤ n) × (n ≤ maximum)) }
    ensures none { IfNone result ((n : ℕ) → IsNumber text.now n × (minimum ≤ n) × (n ≤ maximum) → ⊥) }
{
    let n = number_of_digits(10, 10, text.as_bytes())?;
    if n < minimum || maximum < n {
        return None;
    }
    Some(n)
}

/// The word of `0x` and one to eight hex digits.
fn word_of(text: &str) -> Option<u32>
    ensures some { IfSome result (λ n. IsWord text.now n) }
    ensures none { IfNone result ((n : ℕ) → IsWord text.now n → ⊥) }
{
    match text.as_bytes() {
        [b'0', b'x', digits @ ..] => Some(number_of_digits(16, 8, digits)? as u32),
        _ => None,
    }
}
