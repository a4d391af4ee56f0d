//! What the lines of several formats are made of: words, addresses and numbers. Each function reads what stands at the
//! beginning of the bytes, and gives it with the bytes behind it.
ghost use Rattle.std.specs.Prelude.{◌≡◌, ◌+◌, ◌^◌, ◌<◌, ◌≤◌, length};
ghost use Rattle.std.specs.Char.{is_ascii_digit};
ghost use Rattle.ci_reading.specs.LineReading.{begins_with, word};
ghost use Rattle.ci_reading.specs.Fields.{Gives, hex_value, hex_digit, address, meets, reaches, begins, extends};
ghost use Rattle.ci_reading.specs.Fields.{closes, number};

use crate::digits::digit_value;

/// Where reading stopped.
#[derive(Clone, Copy, Debug, PartialEq, Eq)]
pub struct Stop {
    /// How many bytes are left, the first of which is bad. With none left the text ends too early.
    pub left: usize,
}

/// A stop before these bytes.
fn stopped(rest: &[u8]) -> Stop
    ensures { result.left ≡ length rest.now }
{
    Stop { left: rest.len() }
}

/// Whether this byte is the first.
pub fn begins_with(bytes: &[u8], byte: u8) -> bool
    ensures { result ≡ begins_with byte bytes.now }
{
    match bytes {
        [] => false,
        [first, ..] => *first == byte,
    }
}

/// The bytes behind a word.
///
/// # Errors
///
/// The first byte that differs from the word's, or the text's end before the word's.
pub fn word<'a>(bytes: &'a [u8], expected: &[u8]) -> Result<&'a [u8], Stop>
    ensures { Gives (λ rest. (tt, rest.now)) result (word {K = Unit {0}} expected.now bytes.now) }
{
    let mut rest = bytes;
    for &due in expected {
        if !begins_with(rest, due) {
            return Err(stopped(rest));
        }
        rest = &rest[1..];
    }
    Ok(rest)
}

/// The value of a hexadecimal digit in lower case.
fn hex_value(byte: u8) -> Option<u8>
    ensures { result ≡ hex_value byte }
{
    let digit = digit_value(byte);
    if digit < 16 && !byte.is_ascii_uppercase() {
        Some(digit as u8)
    } else {
        None
    }
}

/// A hexadecimal digit in lower case.
fn hex_digit(bytes: &[u8]) -> Result<(u32, &[u8]), Stop>
    ensures value { Gives (λ x. (x.0, x.1.now)) result (hex_digit {K = Unit {0}} bytes.now) }
{
    let [first, rest @ ..] = bytes else {
        return Err(stopped(bytes));
    };
    match hex_value(*first) {
        Some(digit) => Ok((u32::from(digit), rest)),
        None => Err(stopped(bytes)),
    }
}

/// An address: eight hexadecimal digits in lower case.
///
/// # Errors
///
/// The first byte that is no such digit, or the text's end before the last digit.
pub fn address(bytes: &[u8]) -> Result<(u32, &[u8]), Stop>
    ensures { Gives (λ x. (x.0, x.1.now)) result (address {K = Unit {0}} 8 0 bytes.now) }
{
    let mut value = 0u64;
    let mut rest = bytes;
    for _ in 0..8u32 {
        let (digit, after) = hex_digit(rest)?;
        value = 16 * value + u64::from(digit);
        rest = after;
    }
    Ok((value as u32, rest))
}

/// The decimal numbers, without leading zeros, that may stand at a place, and what may stand behind them.
#[derive(Clone, Copy, Debug, PartialEq, Eq)]
pub struct Numbers {
    pub low: u32,
    pub high: u32,
    /// The byte that ends the number.
    pub end: u8,
    /// Whether a greater number may follow behind a blank.
    pub listed: bool,
}

impl Numbers {
    /// Whether one of the numbers begins with the digits of this value.
    fn reaches(self, value: u32) -> bool
        requires high { self.high ≤ 9999999 }
        requires value { value ≤ 99999999 }
        ensures { result ≡ reaches self value }
    {
        if value == 0 {
            return self.low == 0;
        }
        let mut scale = 1u64;
        for _ in 0..7u32 {
            if self.meets(u64::from(value) * scale, scale) {
                return true;
            }
            scale *= 10;
        }
        false
    }

    /// Whether one of so many numbers from the first on is one of these.
    fn meets(self, first: u64, count: u64) -> bool
        requires { first + count < 2 ^ 63 }
        ensures { result ≡ meets self first count }
    {
        first <= u64::from(self.high) && u64::from(self.low) < first + count
    }

    /// Whether the first byte is the first digit of a number.
    fn begins(self, bytes: &[u8]) -> bool
        requires { self.high ≤ 9999999 }
        ensures { result ≡ begins self bytes.now }
    {
        match bytes {
            [] => false,
            [first, ..] => first.is_ascii_digit() && self.reaches(u32::from(*first - b'0')),
        }
    }

    /// Whether the first byte is the next digit of a number that begins with the value.
    fn extends(self, value: u32, bytes: &[u8]) -> bool
        requires high { self.high ≤ 9999999 }
        requires value { value ≤ 9999999 }
        ensures { result ≡ extends self value bytes.now }
    {
        match bytes {
            [] => false,
            [first, ..] => {
                first.is_ascii_digit()
                    && value > 0
                    && self.reaches(10 * value + u32::from(*first - b'0'))
            }
        }
    }

    /// Whether the first byte may stand behind the number.
    fn closes(self, number: u32, bytes: &[u8]) -> bool
        ensures { result ≡ closes self number bytes.now }
    {
        match bytes {
            [] => false,
            [first, ..] => {
                number >= self.low
                    && (*first == self.end || (self.listed && *first == b' ' && number < self.high))
            }
        }
    }
}

/// One of the numbers, and the byte that ends it. The numbers have at most seven digits.
///
/// # Errors
///
/// The first byte with which no such number goes on, or the text's end before the byte that ends the number.
pub fn number(bytes: &[u8], numbers: Numbers) -> Result<(u32, u8, &[u8]), Stop>
    requires { numbers.high ≤ 9999999 }
    ensures { Gives (λ x. ((x.0, x.1), x.2.now)) result (number {K = Unit {0}} numbers bytes.now) }
{
    if !numbers.begins(bytes) {
        return Err(stopped(bytes));
    }
    let mut value = u32::from(bytes[0] - b'0');
    let mut rest = &bytes[1..];
    while numbers.extends(value, rest) {
        value = 10 * value + u32::from(rest[0] - b'0');
        rest = &rest[1..];
    }
    if !numbers.closes(value, rest) {
        return Err(stopped(rest));
    }
    Ok((value, rest[0], &rest[1..]))
}
