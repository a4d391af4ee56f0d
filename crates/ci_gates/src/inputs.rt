//! The bits of the inputs.
ghost use Rattle.std.specs.Prelude.{◌≡◌, ℕ, ◌<◌, ◌%◌, ◌^◌, Bool, List, length, slice_index, IfOk};
ghost use Rattle.ci_netlist.specs.Netlists.{bit_value, spelt, AreBits};

use ci_netlist::Bit;
use std::alloc::{AllocError, Global};

/// The 32 bits of an input.
pub(crate) fn input_word(alloc: Global, input: u8) -> Result<Vec<Bit>, AllocError>
    requires { input < 5 }
    ensures width { IfOk result (λ v. length v.items ≡ 32) }
    ensures value { IfOk result (λ v. (arguments : List ℕ) (gives : ℕ → Bool)
        → spelt (bit_value arguments gives) v.items ≡ slice_index arguments input % 2 ^ 32) }
    ensures are_bits { IfOk result (λ v. (made : ℕ) → AreBits made v.items) }
{
    let mut bits = Vec::new(alloc);
    for k in 0..32 {
        bits.push(Bit::Input(32 * input + k))?;
    }
    Ok(bits)
}
