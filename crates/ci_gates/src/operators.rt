//! The operators of expressions.
ghost use Rattle.std.specs.Prelude.{◌≡◌, ℕ, ◌+◌, ◌-◌, ◌*◌, ◌^◌, ◌%◌, ◌≤◌, length, IfOk, nat_lt, if◌then◌else◌};
ghost use Rattle.ci_verilog.specs.Modules.{Makes};
ghost use Rattle.ci_verilog.specs.Values.{of_width, operated};
ghost use Rattle.ci_netlist.specs.Netlists.{AreBits, spelt};
ghost use Rattle.ci_gates.specs.private.Growing.{MakesWord, Always, operator_width, kind_number};
ghost use Rattle.ci_gates.specs.Counts.{operator_gates};

use crate::building::{Builder, Kind};
use crate::shifts::Direction;
use crate::words::copies;
use ci_netlist::Bit;
use ci_verilog::Operator;
use std::alloc::{AllocError, Global};

impl Builder {
    /// The sum modulo 2 to the power of the width.
    fn added(&mut self, alloc: Global, left: &[Bit], right: &[Bit]) -> Result<Vec<Bit>, AllocError>
        requires same_width { length right.now ≡ length left.now }
        requires room { length self.old + 5 * length left.now ≤ 4194304 }
        requires left_are { AreBits (length self.old) left.now }
        requires right_are { AreBits (length self.old) right.now }
        ensures makes { IfOk result (λ v. MakesWord self.old self.new (5 * length left.now) (length left.now) v.items) }
        ensures value { IfOk result (λ v. Always self.new (λ holds.
            spelt holds v.items ≡ (spelt holds left.now + spelt holds right.now) % 2 ^ length left.now)) }
    {
        let sum = self.sum(alloc, left, right, Bit::Zero)?;
        Ok(sum.bits)
    }

    /// The difference modulo 2 to the power of the width.
    fn subtracted(
        &mut self,
        alloc: Global,
        left: &[Bit],
        right: &[Bit],
    ) -> Result<Vec<Bit>, AllocError>
        requires same_width { length right.now ≡ length left.now }
        requires room { length self.old + 6 * length left.now ≤ 4194304 }
        requires left_are { AreBits (length self.old) left.now }
        requires right_are { AreBits (length self.old) right.now }
        ensures makes { IfOk result (λ v. MakesWord self.old self.new (6 * length left.now) (length left.now) v.items) }
        ensures value { IfOk result (λ v. Always self.new (λ holds.
            spelt holds v.items ≡ (spelt holds left.now + 2 ^ length left.now - spelt holds right.now) % 2 ^ length left.now)) }
    {
        let difference = self.difference(alloc, left, right)?;
        Ok(difference.bits)
    }

    /// One bit, which holds where the left word is less.
    fn compared(
        &mut self,
        alloc: Global,
        left: &[Bit],
        right: &[Bit],
    ) -> Result<Vec<Bit>, AllocError>
        requires same_width { length right.now ≡ length left.now }
        requires room { length self.old + (6 * length left.now + 1) ≤ 4194304 }
        requires left_are { AreBits (length self.old) left.now }
        requires right_are { AreBits (length self.old) right.now }
        ensures makes { IfOk result (λ v. MakesWord self.old self.new (6 * length left.now + 1) 1 v.items) }
        ensures value { IfOk result (λ v. Always self.new (λ holds.
            spelt holds v.items ≡ (if nat_lt (spelt holds left.now) (spelt holds right.now) then 1 else 0))) }
    {
        let less = self.less(alloc, left, right)?;
        let bits = copies(alloc, less, 1)?;
        Ok(bits)
    }

    /// The word made bit by bit.
    fn bitwise(
        &mut self,
        alloc: Global,
        kind: Kind,
        left: &[Bit],
        right: &[Bit],
    ) -> Result<Vec<Bit>, AllocError>
        requires same_width { length right.now ≡ length left.now }
        requires room { length self.old + length left.now ≤ 4194304 }
        requires left_are { AreBits (length self.old) left.now }
        requires right_are { AreBits (length self.old) right.now }
        ensures makes { IfOk result (λ v. MakesWord self.old self.new (length left.now) (length left.now) v.items) }
        ensures value { IfOk result (λ v. Always self.new (λ holds.
            spelt holds v.items ≡ kind_number kind (spelt holds left.now) (spelt holds right.now))) }
    {
        self.each(alloc, kind, left, right)
    }

    /// What the operator gives on these words (IEEE 1364-2005, sections 5.1.5, 5.1.7, 5.1.10 and 5.1.12).
    pub(crate) fn operated(
        &mut self,
        alloc: Global,
        operator: Operator,
        left: &[Bit],
        right: &[Bit],
    ) -> Result<Vec<Bit>, AllocError>
        requires widths { (width : ℕ) × Makes operator (length left.now) (length right.now) width }
        requires narrow { length left.now ≤ 64 }
        requires room { length self.old + operator_gates operator (length left.now) (length right.now) ≤ 4194304 }
        requires left_are { AreBits (length self.old) left.now }
        requires right_are { AreBits (length self.old) right.now }
        ensures makes { IfOk result (λ v. MakesWord self.old self.new
            (operator_gates operator (length left.now) (length right.now)) (operator_width operator (length left.now)) v.items) }
        ensures value { IfOk result (λ v. Always self.new (λ holds.
            spelt holds v.items ≡ operated operator (of_width (length left.now) (spelt holds left.now))
            (of_width (length right.now) (spelt holds right.now)))) }
    {
        match operator {
            Operator::Plus => self.added(alloc, left, right),
            Operator::Minus => self.subtracted(alloc, left, right),
            Operator::Times => self.product(alloc, left, right),
            Operator::And => self.bitwise(alloc, Kind::And, left, right),
            Operator::Or => self.bitwise(alloc, Kind::Or, left, right),
            Operator::Xor => self.bitwise(alloc, Kind::Xor, left, right),
            Operator::Left => self.shifted(alloc, Direction::Left, left, right),
            Operator::Right => self.shifted(alloc, Direction::Right, left, right),
            Operator::Less => self.compared(alloc, left, right),
        }
    }
}
