//! Shifts of words by words, by a stage for each bit of the amount.
ghost use Rattle.std.specs.Prelude.{◌≡◌, ◌+◌, ◌-◌, ◌*◌, ◌^◌, ◌≤◌, ◌++◌, min, length, take, drop, replicate, IfOk};
ghost use Rattle.ci_netlist.specs.declared.bits.Bit.TheVariants.{Zero};
ghost use Rattle.ci_netlist.specs.Netlists.{AreBits, spelt};
ghost use Rattle.ci_gates.specs.private.Growing.{MakesWord, Always, shift_value, moved_bits};

use crate::building::Builder;
use crate::words::copies;
use ci_netlist::Bit;
use std::alloc::{AllocError, Global};

/// Where the bits of a word go.
#[derive(Clone, Copy)]
pub(crate) enum Direction {
    Left,
    Right,
}

/// The places that a stage moves bits, or the whole width where that is less.
fn distance(stage: usize, width: usize) -> usize
    requires { width ≤ 64 }
    ensures { result ≡ min (2 ^ stage) width }
{
    if stage < 7 {
        let places: usize = 1 << stage;
        if places < width { places } else { width }
    } else {
        width
    }
}

/// The word with its bits moved up, and zeros below them.
fn moved_left(alloc: Global, bits: &[Bit], places: usize) -> Result<Vec<Bit>, AllocError>
    requires { places ≤ length bits.now }
    ensures { IfOk result (λ v. v.items ≡ replicate places Zero ++ take (length bits.now - places) bits.now) }
{
    let mut moved = copies(alloc, Bit::Zero, places)?;
    moved.extend_from_slice(&bits[..bits.len() - places])?;
    Ok(moved)
}

/// The word with its bits moved down, and zeros above them.
fn moved_right(alloc: Global, bits: &[Bit], places: usize) -> Result<Vec<Bit>, AllocError>
    requires { places ≤ length bits.now }
    ensures { IfOk result (λ v. v.items ≡ drop places bits.now ++ replicate places Zero) }
{
    let zeros = copies(alloc, Bit::Zero, places)?;
    let mut moved = Vec::from_slice(alloc, &bits[places..])?;
    moved.extend_from_slice(&zeros)?;
    Ok(moved)
}

/// The word moved in this direction.
fn moved(
    alloc: Global,
    direction: Direction,
    bits: &[Bit],
    places: usize,
) -> Result<Vec<Bit>, AllocError>
    requires { places ≤ length bits.now }
    ensures { IfOk result (λ v. v.items ≡ moved_bits direction bits.now places) }
{
    match direction {
        Direction::Left => moved_left(alloc, bits, places),
        Direction::Right => moved_right(alloc, bits, places),
    }
}

impl Builder {
    /// The word shifted by the number that the amount is.
    pub(crate) fn shifted(
        &mut self,
        alloc: Global,
        direction: Direction,
        bits: &[Bit],
        amount: &[Bit],
    ) -> Result<Vec<Bit>, AllocError>
        requires narrow { length bits.now ≤ 64 }
        requires room { length self.old + 3 * length bits.now * length amount.now ≤ 4194304 }
        requires bits_are { AreBits (length self.old) bits.now }
        requires amount_are { AreBits (length self.old) amount.now }
        ensures makes { IfOk result (λ v. MakesWord self.old self.new (3 * length bits.now * length amount.now) (length bits.now) v.items) }
        ensures value { IfOk result (λ v. Always self.new (λ holds.
            spelt holds v.items ≡ shift_value direction (length bits.now) (spelt holds bits.now) (spelt holds amount.now))) }
    {
        let mut word = Vec::from_slice(alloc, bits)?;
        for k in 0..amount.len() {
            let moved = moved(alloc, direction, &word, distance(k, bits.len()))?;
            let chosen = self.choice(alloc, amount[k], &moved, &word)?;
            word = chosen;
        }
        Ok(word)
    }
}
