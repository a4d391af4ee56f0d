//! What netlists compute.
ghost use Rattle.std.specs.Prelude.{◌≡◌, ℕ, ◌∷◌, [], Bool, length, IfOk};
ghost use Rattle.ci_netlist.specs.Netlists.{bit_value, gate_value, spelt, results_of};
ghost use Rattle.ci_netlist.specs.Netlists.{IsBit, AreBits, HasBits, AreGates, IsValueOf};
ghost use Rattle.ci_netlist.specs.private.Settled.{Holds, SettlesAs};

use crate::bits::{Bit, Gate};
use crate::netlists::Netlist;
use std::alloc::{AllocError, Global};

/// Whether the bit holds, by what the earlier gates give.
fn bit_value(bit: Bit, arguments: [u32; 5], given: &[bool]) -> bool
    requires { IsBit (length given.now) bit }
    ensures { (gives : ℕ → Bool) → Holds gives given.now → result ≡ bit_value arguments gives bit }
{
    match bit {
        Bit::Zero => false,
        Bit::One => true,
        Bit::Input(n) => (arguments[usize::from(n / 32)] >> (n % 32)) & 1 == 1,
        Bit::Made(gate) => given[gate as usize],
    }
}

/// What the gate gives, by what the earlier gates give.
fn gate_value(gate: Gate, arguments: [u32; 5], given: &[bool]) -> bool
    requires { HasBits (length given.now) gate }
    ensures { (gives : ℕ → Bool) → Holds gives given.now → result ≡ gate_value (bit_value arguments gives) gate }
{
    match gate {
        Gate::And(left, right) => {
            bit_value(left, arguments, given) & bit_value(right, arguments, given)
        }
        Gate::Or(left, right) => {
            bit_value(left, arguments, given) | bit_value(right, arguments, given)
        }
        Gate::Xor(left, right) => {
            bit_value(left, arguments, given) != bit_value(right, arguments, given)
        }
    }
}

/// What each gate gives.
fn settled(alloc: Global, gates: &[Gate], arguments: [u32; 5]) -> Result<Vec<bool>, AllocError>
    requires { AreGates gates.now }
    ensures { IfOk result (λ given. SettlesAs gates.now arguments given.items) }
{
    let mut given = Vec::with_capacity(alloc, gates.len())?;
    for gate in gates {
        let value = gate_value(*gate, arguments, &given);
        given.push(value)?;
    }
    Ok(given)
}

/// The word that 32 bits spell.
fn word(bits: &[Bit], arguments: [u32; 5], given: &[bool]) -> u32
    requires width { length bits.now ≡ 32 }
    requires are_bits { AreBits (length given.now) bits.now }
    ensures { (gives : ℕ → Bool) → Holds gives given.now → result ≡ spelt (bit_value arguments gives) bits.now }
{
    let mut word = 0u32;
    let mut k = 32usize;
    while k > 0 {
        k -= 1;
        word = 2 * word + u32::from(bit_value(bits[k], arguments, given));
    }
    word
}

/// The words that the results spell.
fn results(outputs: &[Bit], arguments: [u32; 5], given: &[bool]) -> (u32, u32, u32)
    requires words { length outputs.now ≡ 96 }
    requires are_bits { AreBits (length given.now) outputs.now }
    ensures { (gives : ℕ → Bool) → Holds gives given.now
        → (result.0 ∷ result.1 ∷ result.2 ∷ []) ≡ results_of (bit_value arguments gives) outputs.now }
{
    let y = word(&outputs[..32], arguments, given);
    let z = word(&outputs[32..64], arguments, given);
    let x = word(&outputs[64..], arguments, given);
    (y, z, x)
}

/// The values of y, z and x where the inputs have the values a to e.
///
/// # Errors
///
/// Out of memory.
pub fn value(
    alloc: Global,
    net: &Netlist,
    a: u32,
    b: u32,
    c: u32,
    d: u32,
    e: u32,
) -> Result<(u32, u32, u32), AllocError>
    ensures { IfOk result (λ r. IsValueOf net.now (a ∷ b ∷ c ∷ d ∷ e ∷ []) (r.0 ∷ r.1 ∷ r.2 ∷ [])) }
{
    let arguments = [a, b, c, d, e];
    let given = settled(alloc, net.gates(), arguments)?;
    Ok(results(net.outputs(), arguments, &given))
}
