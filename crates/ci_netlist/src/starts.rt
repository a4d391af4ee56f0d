//! How bits and gates begin in a text.
ghost use Rattle.std.specs.Prelude.{◌≡◌, length, IfOk, IfSome};
ghost use Rattle.ci_reading.specs.Fields.{Gives};
ghost use Rattle.ci_netlist.specs.private.Reading as terms;
ghost use Rattle.ci_netlist.specs.private.Reading.{found, IsStart, kind_rest, gate_of};

use crate::bits::{Bit, Gate};
use ci_reading::Stop;

/// How a bit begins.
#[derive(Clone, Copy)]
pub(crate) enum Start {
    Zero,
    One,
    /// The letter of an input, from a on.
    Input(u8),
    /// The letter of a gate.
    Made,
}

/// What a gate does.
#[derive(Clone, Copy)]
pub(crate) enum Kind {
    And,
    Or,
    Xor,
}

impl Kind {
    /// What stands in its line behind the first byte, up to the first bit.
    pub(crate) fn rest(self) -> &'static [u8]
        ensures { result.now ≡ kind_rest self }
    {
        match self {
            Kind::And => b"nd ",
            Kind::Or => b"r ",
            Kind::Xor => b"or ",
        }
    }

    /// The gate of this kind on two bits.
    pub(crate) fn gate(self, left: Bit, right: Bit) -> Gate
        ensures { result ≡ gate_of self left right }
    {
        match self {
            Kind::And => Gate::And(left, right),
            Kind::Or => Gate::Or(left, right),
            Kind::Xor => Gate::Xor(left, right),
        }
    }
}

/// A stop before these bytes.
fn stopped(rest: &[u8]) -> Stop
    ensures { result.left ≡ length rest.now }
{
    Stop { left: rest.len() }
}

/// How a bit that has this first byte begins, where so many gates are earlier.
fn start_of(made: u32, first: u8) -> Option<Start>
    ensures value { result ≡ terms.start_of made first }
    ensures is_start { IfSome result (IsStart made) }
{
    if first == b'0' {
        Some(Start::Zero)
    } else if first == b'1' {
        Some(Start::One)
    } else if b'a' <= first && first <= b'e' {
        Some(Start::Input(first - b'a'))
    } else if first == b'g' && 0 < made {
        Some(Start::Made)
    } else {
        None
    }
}

/// What a gate does whose line has this first byte.
fn kind_of(first: u8) -> Option<Kind>
    ensures { result ≡ terms.kind_of first }
{
    if first == b'a' {
        Some(Kind::And)
    } else if first == b'o' {
        Some(Kind::Or)
    } else if first == b'x' {
        Some(Kind::Xor)
    } else {
        None
    }
}

/// The beginning of a bit, where so many gates are earlier.
pub(crate) fn bit_start(made: u32, bytes: &[u8]) -> Result<(Start, &[u8]), Stop>
    ensures value { Gives (λ x. (x.0, x.1.now)) result (found (terms.start_of made) bytes.now) }
    ensures is_start { IfOk result (λ x. IsStart made x.0) }
{
    let [first, rest @ ..] = bytes else {
        return Err(stopped(bytes));
    };
    match start_of(made, *first) {
        Some(start) => Ok((start, rest)),
        None => Err(stopped(bytes)),
    }
}

/// The beginning of a gate's line.
pub(crate) fn gate_kind(bytes: &[u8]) -> Result<(Kind, &[u8]), Stop>
    ensures { Gives (λ x. (x.0, x.1.now)) result (found terms.kind_of bytes.now) }
{
    let [first, rest @ ..] = bytes else {
        return Err(stopped(bytes));
    };
    match kind_of(*first) {
        Some(kind) => Ok((kind, rest)),
        None => Err(stopped(bytes)),
    }
}
