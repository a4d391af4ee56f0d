//! What the tokens of a text stand for.
ghost use Rattle.std.specs.Prelude.{◌≡◌, ◌%◌, ◌^◌};
ghost use Rattle.std.specs.Str.Parse.{digits_value};
ghost use Rattle.ci_reading.specs.Tokens as reading;
ghost use Rattle.ci_vread.specs.Lexicon.{name, number, constant, cycles};
ghost use Rattle.ci_vread.specs.private.Scanned.{text_of, word_in, symbol_of};

use crate::bytes::{ByteClass, behind, run};
use crate::tokens::{Kind, Token};
use ci_reading::digit_value;

/// The bytes of a token, less those past the text's end.
fn bytes_of(text: &[u8], token: Token) -> &[u8]
    ensures { result.now ≡ text_of text.now token }
{
    let rest = behind(text, token.start as usize);
    &rest[..(token.size as usize).min(rest.len())]
}

/// The number that the digits write, modulo 2 to the power 64.
fn value_of(base: u64, digits: &[u8]) -> u64
    ensures { result ≡ digits_value base digits.now % 2 ^ 64 }
{
    let mut value = 0u64;
    for byte in digits {
        value = value.wrapping_mul(base).wrapping_add(digit_value(*byte));
    }
    value
}

/// The number that decimal digits write, modulo 2 to the power 32.
fn word_in(digits: &[u8]) -> u32
    ensures { result ≡ word_in digits.now }
{
    (value_of(10, digits) % (1 << 32)) as u32
}

/// The name that the token is.
pub(crate) fn name_of(text: &[u8], token: Token) -> &[u8]
    ensures { token.kind ≡ Kind.Name → symbol_of text.now token ≡ reading.token (name result.now) }
{
    bytes_of(text, token)
}

/// The number that the token is.
pub(crate) fn number_of(text: &[u8], token: Token) -> u32
    ensures { token.kind ≡ Kind.Number → symbol_of text.now token ≡ reading.token (number result) }
{
    word_in(bytes_of(text, token))
}

/// The width and the value of the constant that the token is.
pub(crate) fn constant_of(text: &[u8], token: Token) -> (u32, u64)
    ensures { token.kind ≡ Kind.Constant
        → symbol_of text.now token ≡ reading.token (constant result.0 result.1) }
{
    let bytes = bytes_of(text, token);
    let quote = run(ByteClass::BeforeQuote, bytes);
    let width = word_in(&bytes[..quote]);
    (width, value_of(16, behind(bytes, quote + 2)))
}

/// The number of cycles that the token tells.
pub(crate) fn cycles_of(text: &[u8], token: Token) -> u32
    ensures { token.kind ≡ Kind.Cycles → symbol_of text.now token ≡ reading.token (cycles result) }
{
    let bytes = bytes_of(text, token);
    let digits = behind(bytes, 10);
    word_in(&digits[..bytes.len().saturating_sub(11)])
}
