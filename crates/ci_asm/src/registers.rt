//! The names of registers.
ghost use Rattle.std.specs.Prelude.{◌≡◌};
ghost use Rattle.ci_asm.specs.private.Tokens.{register_of, register_at, has_one_digit, has_two_digits, two_digits};

use crate::scanner::{byte_at, is_between, is_digit};
use ci_isa::Reg;

/// The register that a name names: `x` and a number below 32 without a leading zero.
#[tactic(auto, unfolding(crate::specs::private::Tokens::register_of))]
pub(crate) fn register_of(text: &[u8]) -> Option<Reg>
    ensures { result ≡ register_of text.now }
{
    if has_one_digit(text) {
        register_at(two_digits(b'0', byte_at(text, 1)))
    } else if has_two_digits(text) {
        register_at(two_digits(byte_at(text, 1), byte_at(text, 2)))
    } else {
        None
    }
}

/// `x` and a digit.
fn has_one_digit(text: &[u8]) -> bool
    ensures { result ≡ has_one_digit text.now }
{
    byte_at(text, 0) == b'x' && text.len() == 2 && is_digit(byte_at(text, 1))
}

/// `x` and two digits, of which the first isn't 0.
fn has_two_digits(text: &[u8]) -> bool
    ensures { result ≡ has_two_digits text.now }
{
    byte_at(text, 0) == b'x'
        && text.len() == 3
        && is_between(b'1', b'9', byte_at(text, 1))
        && is_digit(byte_at(text, 2))
}

/// The number that two digits write.
fn two_digits(tens: u8, ones: u8) -> u32
    ensures { result ≡ two_digits tens ones }
{
    10 * u32::from(tens.saturating_sub(b'0')) + u32::from(ones.saturating_sub(b'0'))
}

/// The register of this number, if there is one.
fn register_at(n: u32) -> Option<Reg>
    ensures { result ≡ register_at n }
{
    if n < 32 { Reg::new(n as u8) } else { None }
}

/// The register x0.
pub(crate) fn zero() -> Reg
    ensures { result ≡ 0 }
{
    Reg::new(0).unwrap()
}
