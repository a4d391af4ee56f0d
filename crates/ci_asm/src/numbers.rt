//! Numbers in the text.
ghost use Rattle.std.specs.Prelude.{◌≡◌, ◌^◌, ◌<◌, ◌≤◌};
ghost use Rattle.ci_asm.specs.private.Tokens.{number, number_of};
ghost use Rattle.ci_asm.specs.private.Shapes.{is_one};
ghost use Rattle.ci_asm.specs.private.Statements.{signed_value};

use crate::scanner::{behind, byte_at};
use ci_reading::digit_value;

/// A number: its sign and how far it is from 0. Zero may have either sign.
#[derive(Clone, Copy)]
pub(crate) struct Number {
    pub negative: bool,
    pub magnitude: u64,
}

impl Number {
    /// Whether it is the number 1.
    pub(crate) fn is_one(self) -> bool
        ensures { result ≡ is_one self }
    {
        !self.negative && self.magnitude == 1
    }
}

/// The number that a numeral writes, if it has at most ten digits.
#[tactic(auto, unfolding(crate::specs::private::Tokens::number_of))]
pub(crate) fn number_of(text: &[u8]) -> Option<Number>
    ensures { result ≡ number_of text.now }
{
    if byte_at(text, 0) == b'-' {
        capped(true, 10, behind(text, 1))
    } else if byte_at(text, 1) == b'x' {
        capped(false, 16, behind(text, 2))
    } else {
        capped(false, 10, text)
    }
}

/// The number with this sign that digits of this base write, if they are at most ten.
fn capped(negative: bool, base: u64, digits: &[u8]) -> Option<Number>
    requires { base ≤ 16 }
    ensures { result ≡ number negative base digits.now }
{
    if digits.len() > 10 {
        return None;
    }
    let mut magnitude = 0;
    for byte in digits {
        magnitude = magnitude * base + digit_value(*byte);
    }
    Some(Number {
        negative,
        magnitude,
    })
}

/// The signed value of a number.
pub(crate) fn signed_value(number: Number) -> i32
    requires { number.magnitude < 2 ^ 31 }
    ensures { result ≡ signed_value number }
{
    let magnitude = number.magnitude as i32;
    if number.negative {
        -magnitude
    } else {
        magnitude
    }
}
