//! Vectors of bits that are read as unsigned numbers (IEEE 1364-2005, section 4.3).
ghost use Rattle.std.specs.Prelude.{◌≡◌, ℕ, ◌*◌, ◌+◌, ◌-◌, ◌/◌, ◌%◌, ◌^◌, ◌<◌, ◌≤◌, replicate};
ghost use Rattle.ci_verilog.specs.Values.{of_width, above, joined, operated};
ghost use Rattle.ci_verilog.specs.Modules.{Makes};
ghost use Rattle.ci_verilog.specs.private.Held.{InRange};

use crate::expressions::Operator;

/// So many bits, at most 64, and the number that they are.
#[derive(Clone, Copy)]
pub struct Vector {
    pub width: u8,
    pub value: u64,
}

impl Vector {
    /// No bits.
    pub(crate) fn empty() -> Vector
        ensures { result ≡ of_width 0 0 }
    {
        Vector { width: 0, value: 0 }
    }

    /// These bits above those of the other one.
    pub(crate) fn above(self, low: Vector) -> Vector
        requires narrow { self.width + low.width ≤ 64 }
        requires high_in_range { InRange self }
        requires low_in_range { InRange low }
        ensures { result ≡ above self low }
    {
        let value = (u128::from(self.value) << low.width) + u128::from(low.value);
        Vector {
            width: self.width + low.width,
            value: value as u64,
        }
    }

    /// The bits from the high one to the low one.
    pub(crate) fn part(self, high: u8, low: u8) -> Vector
        requires order { low ≤ high }
        requires narrow { high < 64 }
        ensures { result ≡ of_width (high + 1 - low) (self.value / 2 ^ low % 2 ^ (high + 1 - low)) }
    {
        let width = high + 1 - low;
        Vector {
            width,
            value: low_bits(u128::from(self.value >> low), width),
        }
    }

    /// So many copies, one behind the other.
    pub(crate) fn repeated(self, count: u8) -> Vector
        requires narrow { count * self.width ≤ 64 }
        requires in_range { InRange self }
        ensures { result ≡ joined (replicate count self) }
    {
        let mut copies = Vector::empty();
        for _ in 0..count {
            copies = copies.above(self);
        }
        copies
    }
}

/// The lowest bits of a number.
pub(crate) fn low_bits(value: u128, width: u8) -> u64
    requires { width ≤ 64 }
    ensures { result ≡ value % 2 ^ width }
{
    (value % (1 << width)) as u64
}

/// The difference modulo 2 to the power of the width.
fn difference(left: Vector, right: Vector) -> u64
    requires narrow { left.width ≤ 64 }
    requires same { right.width ≡ left.width }
    requires in_range { InRange right }
    ensures { result ≡ operated Operator.Minus left right }
{
    let range = 1u128 << left.width;
    low_bits(
        u128::from(left.value) + range - u128::from(right.value),
        left.width,
    )
}

/// The shift to the left. One by the width or more leaves no bit.
fn shifted_left(left: Vector, right: Vector) -> u64
    requires narrow { left.width ≤ 64 }
    ensures { result ≡ operated Operator.Left left right }
{
    if right.value < u64::from(left.width) {
        low_bits(u128::from(left.value) << right.value, left.width)
    } else {
        0
    }
}

/// The shift to the right. One by the width or more leaves no bit.
fn shifted_right(left: Vector, right: Vector) -> u64
    requires narrow { left.width ≤ 64 }
    requires in_range { InRange left }
    ensures { result ≡ operated Operator.Right left right }
{
    if right.value < u64::from(left.width) {
        left.value >> right.value
    } else {
        0
    }
}

/// What the operator gives on these operands (IEEE 1364-2005, sections 5.1.5, 5.1.7, 5.1.10 and 5.1.12).
pub(crate) fn operate(operator: Operator, left: Vector, right: Vector) -> u64
    requires widths { (width : ℕ) × Makes operator left.width right.width width }
    requires narrow { left.width ≤ 64 }
    requires left_in_range { InRange left }
    requires right_in_range { InRange right }
    ensures { result ≡ operated operator left right }
{
    match operator {
        Operator::Plus => low_bits(u128::from(left.value) + u128::from(right.value), left.width),
        Operator::Minus => difference(left, right),
        Operator::Times => low_bits(u128::from(left.value) * u128::from(right.value), left.width),
        Operator::And => left.value & right.value,
        Operator::Or => left.value | right.value,
        Operator::Xor => left.value ^ right.value,
        Operator::Left => shifted_left(left, right),
        Operator::Right => shifted_right(left, right),
        Operator::Less => u64::from(left.value < right.value),
    }
}
