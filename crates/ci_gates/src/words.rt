//! Words made of words, bit by bit.
ghost use Rattle.std.specs.Prelude.{◌≡◌, ◌+◌, ◌*◌, ◌^◌, ◌≤◌, ◌∷◌, length, map, replicate, IfOk, if◌then◌else◌};
ghost use Rattle.ci_netlist.specs.declared.bits.Bit.TheVariants.{Zero};
ghost use Rattle.ci_netlist.specs.Netlists.{IsBit, AreBits, digit, spelt};
ghost use Rattle.ci_gates.specs.private.Growing.{MakesWord, Always, pairs, kind_value};

use crate::building::{Builder, Kind};
use ci_netlist::Bit;
use std::alloc::{AllocError, Global};

/// So many copies of a bit.
pub(crate) fn copies(alloc: Global, bit: Bit, count: usize) -> Result<Vec<Bit>, AllocError>
    ensures { IfOk result (λ v. v.items ≡ replicate count bit) }
{
    let mut bits = Vec::new(alloc);
    bits.resize(count, bit)?;
    Ok(bits)
}

/// The word with a zero below the lowest bit.
pub(crate) fn doubled(alloc: Global, bits: &[Bit]) -> Result<Vec<Bit>, AllocError>
    ensures { IfOk result (λ v. v.items ≡ Zero ∷ bits.now) }
{
    let mut doubled = copies(alloc, Bit::Zero, 1)?;
    doubled.extend_from_slice(bits)?;
    Ok(doubled)
}

impl Builder {
    /// The word whose bits are made of those of two words at the same places.
    pub(crate) fn each(
        &mut self,
        alloc: Global,
        kind: Kind,
        left: &[Bit],
        right: &[Bit],
    ) -> Result<Vec<Bit>, AllocError>
        requires same_width { length right.now ≡ length left.now }
        requires room { length self.old + length left.now ≤ 4194304 }
        requires left_are { AreBits (length self.old) left.now }
        requires right_are { AreBits (length self.old) right.now }
        ensures makes { IfOk result (λ v. MakesWord self.old self.new (length left.now) (length left.now) v.items) }
        ensures value { IfOk result (λ v. Always self.new (λ holds.
            map holds v.items ≡ pairs (kind_value kind) (map holds left.now) (map holds right.now))) }
    {
        let mut bits = Vec::with_capacity(alloc, left.len())?;
        for k in 0..left.len() {
            let bit = self.gate(kind, left[k], right[k])?;
            bits.push(bit)?;
        }
        Ok(bits)
    }

    /// The word where the bit holds, and else 0.
    pub(crate) fn row(
        &mut self,
        alloc: Global,
        bits: &[Bit],
        bit: Bit,
    ) -> Result<Vec<Bit>, AllocError>
        requires room { length self.old + length bits.now ≤ 4194304 }
        requires are_bits { AreBits (length self.old) bits.now }
        requires bit_is { IsBit (length self.old) bit }
        ensures makes { IfOk result (λ v. MakesWord self.old self.new (length bits.now) (length bits.now) v.items) }
        ensures value { IfOk result (λ v. Always self.new (λ holds. spelt holds v.items ≡ digit (holds bit) * spelt holds bits.now)) }
    {
        let copies = copies(alloc, bit, bits.len())?;
        self.each(alloc, Kind::And, bits, &copies)
    }

    /// The complement of a word.
    pub(crate) fn complement(&mut self, alloc: Global, bits: &[Bit]) -> Result<Vec<Bit>, AllocError>
        requires room { length self.old + length bits.now ≤ 4194304 }
        requires are_bits { AreBits (length self.old) bits.now }
        ensures makes { IfOk result (λ v. MakesWord self.old self.new (length bits.now) (length bits.now) v.items) }
        ensures value { IfOk result (λ v. Always self.new (λ holds. spelt holds v.items + spelt holds bits.now + 1 ≡ 2 ^ length bits.now)) }
    {
        let copies = copies(alloc, Bit::One, bits.len())?;
        self.each(alloc, Kind::Xor, bits, &copies)
    }

    /// The first word where the bit holds, and else the second.
    pub(crate) fn choice(
        &mut self,
        alloc: Global,
        test: Bit,
        first: &[Bit],
        second: &[Bit],
    ) -> Result<Vec<Bit>, AllocError>
        requires same_width { length second.now ≡ length first.now }
        requires room { length self.old + 3 * length first.now ≤ 4194304 }
        requires test_is { IsBit (length self.old) test }
        requires first_are { AreBits (length self.old) first.now }
        requires second_are { AreBits (length self.old) second.now }
        ensures makes { IfOk result (λ v. MakesWord self.old self.new (3 * length first.now) (length first.now) v.items) }
        ensures value { IfOk result (λ v. Always self.new (λ holds.
            spelt holds v.items ≡ (if holds test then spelt holds first.now else spelt holds second.now))) }
    {
        let differences = self.each(alloc, Kind::Xor, first, second)?;
        let copies = copies(alloc, test, first.len())?;
        let changes = self.each(alloc, Kind::And, &differences, &copies)?;
        self.each(alloc, Kind::Xor, &changes, second)
    }
}
