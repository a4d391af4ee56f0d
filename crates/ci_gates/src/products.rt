//! Products of words, by rows.
ghost use Rattle.std.specs.Prelude.{◌≡◌, ◌+◌, ◌*◌, ◌^◌, ◌%◌, ◌≤◌, length, IfOk};
ghost use Rattle.ci_netlist.specs.Netlists.{AreBits, spelt};
ghost use Rattle.ci_gates.specs.private.Growing.{MakesWord, Always};

use crate::building::Builder;
use crate::words::doubled;
use ci_netlist::Bit;
use std::alloc::{AllocError, Global};

impl Builder {
    /// The product of two words of one width, modulo 2 to the power of the width.
    ///
    /// It goes from the highest bit of the right word down. With each bit the product so far is doubled, and the left
    /// word is added where the bit holds. Only as many bits are kept as the bits above leave room for.
    pub(crate) fn product(
        &mut self,
        alloc: Global,
        left: &[Bit],
        right: &[Bit],
    ) -> Result<Vec<Bit>, AllocError>
        requires same_width { length right.now ≡ length left.now }
        requires narrow { length left.now ≤ 64 }
        requires room { length self.old + 3 * length left.now * (length left.now + 1) ≤ 4194304 }
        requires left_are { AreBits (length self.old) left.now }
        requires right_are { AreBits (length self.old) right.now }
        ensures makes { IfOk result (λ v. MakesWord self.old self.new (3 * length left.now * (length left.now + 1)) (length left.now) v.items) }
        ensures value { IfOk result (λ v. Always self.new (λ holds.
            spelt holds v.items ≡ spelt holds left.now * spelt holds right.now % 2 ^ length left.now)) }
    {
        let mut product = Vec::new(alloc);
        for k in 0..left.len() {
            let row = self.row(alloc, &left[..k + 1], right[left.len() - 1 - k])?;
            let twice = doubled(alloc, &product)?;
            let sum = self.sum(alloc, &row, &twice, Bit::Zero)?;
            product = sum.bits;
        }
        Ok(product)
    }
}
