//! Sums of words, by full adders.
ghost use Rattle.std.specs.Prelude.{◌≡◌, ◌+◌, ◌*◌, ◌^◌, ◌≤◌, length, OnOk, IfOk, nat_lt};
ghost use Rattle.ci_netlist.specs.Netlists.{IsBit, AreBits, digit, spelt};
ghost use Rattle.ci_gates.specs.private.Growing.{Grows, MakesWord, Always};

use crate::building::Builder;
use ci_netlist::Bit;
use std::alloc::{AllocError, Global};

/// The digits of a sum of three bits.
#[derive(Clone, Copy)]
pub(crate) struct Digits {
    pub low: Bit,
    pub high: Bit,
}

/// The bits of a sum, and the carry out of the highest.
#[derive(Drop)]
pub(crate) struct Sum {
    pub bits: Vec<Bit>,
    pub carry: Bit,
}

impl Builder {
    /// The sum of three bits, by two xor, two and, one or.
    fn full_adder(&mut self, left: Bit, right: Bit, carry: Bit) -> Result<Digits, AllocError>
        requires room { length self.old + 5 ≤ 4194304 }
        requires left_is { IsBit (length self.old) left }
        requires right_is { IsBit (length self.old) right }
        requires carry_is { IsBit (length self.old) carry }
        ensures grows { OnOk result (Grows self.old self.new 5) }
        ensures low { IfOk result (λ d. IsBit (length self.new) d.low) }
        ensures high { IfOk result (λ d. IsBit (length self.new) d.high) }
        ensures value { IfOk result (λ d. Always self.new (λ holds.
            digit (holds d.low) + 2 * digit (holds d.high) ≡ digit (holds left) + digit (holds right) + digit (holds carry))) }
    {
        let half = self.xor(left, right)?;
        let low = self.xor(half, carry)?;
        let both = self.and(left, right)?;
        let through = self.and(half, carry)?;
        let high = self.or(both, through)?;
        Ok(Digits { low, high })
    }

    /// The sum of two words of one width and a carry. Its low bits are the sum modulo 2 to the power of the width.
    pub(crate) fn sum(
        &mut self,
        alloc: Global,
        left: &[Bit],
        right: &[Bit],
        carry: Bit,
    ) -> Result<Sum, AllocError>
        requires same_width { length right.now ≡ length left.now }
        requires room { length self.old + 5 * length left.now ≤ 4194304 }
        requires left_are { AreBits (length self.old) left.now }
        requires right_are { AreBits (length self.old) right.now }
        requires carry_is { IsBit (length self.old) carry }
        ensures makes { IfOk result (λ s. MakesWord self.old self.new (5 * length left.now) (length left.now) s.bits.items) }
        ensures carry_is { IfOk result (λ s. IsBit (length self.new) s.carry) }
        ensures value { IfOk result (λ s. Always self.new (λ holds.
            spelt holds s.bits.items + 2 ^ length left.now * digit (holds s.carry)
            ≡ spelt holds left.now + spelt holds right.now + digit (holds carry))) }
    {
        let mut bits = Vec::with_capacity(alloc, left.len())?;
        let mut next = carry;
        for k in 0..left.len() {
            let digits = self.full_adder(left[k], right[k], next)?;
            bits.push(digits.low)?;
            next = digits.high;
        }
        Ok(Sum { bits, carry: next })
    }

    /// The difference of two words of one width, by the sum with the complement and one. Its carry holds where the
    /// right word isn't greater.
    pub(crate) fn difference(
        &mut self,
        alloc: Global,
        left: &[Bit],
        right: &[Bit],
    ) -> Result<Sum, AllocError>
        requires same_width { length right.now ≡ length left.now }
        requires room { length self.old + 6 * length left.now ≤ 4194304 }
        requires left_are { AreBits (length self.old) left.now }
        requires right_are { AreBits (length self.old) right.now }
        ensures makes { IfOk result (λ s. MakesWord self.old self.new (6 * length left.now) (length left.now) s.bits.items) }
        ensures carry_is { IfOk result (λ s. IsBit (length self.new) s.carry) }
        ensures value { IfOk result (λ s. Always self.new (λ holds.
            spelt holds s.bits.items + 2 ^ length left.now * digit (holds s.carry) + spelt holds right.now
            ≡ spelt holds left.now + 2 ^ length left.now)) }
    {
        let complement = self.complement(alloc, right)?;
        let sum = self.sum(alloc, left, &complement, Bit::One)?;
        Ok(sum)
    }

    /// The bit that holds where the left word is less than the right one.
    pub(crate) fn less(
        &mut self,
        alloc: Global,
        left: &[Bit],
        right: &[Bit],
    ) -> Result<Bit, AllocError>
        requires same_width { length right.now ≡ length left.now }
        requires room { length self.old + (6 * length left.now + 1) ≤ 4194304 }
        requires left_are { AreBits (length self.old) left.now }
        requires right_are { AreBits (length self.old) right.now }
        ensures grows { OnOk result (Grows self.old self.new (6 * length left.now + 1)) }
        ensures is_bit { IfOk result (λ b. IsBit (length self.new) b) }
        ensures value { IfOk result (λ b. Always self.new (λ holds. holds b ≡ nat_lt (spelt holds left.now) (spelt holds right.now))) }
    {
        let carry = self.difference(alloc, left, right)?.carry;
        let less = self.xor(carry, Bit::One)?;
        Ok(less)
    }
}
