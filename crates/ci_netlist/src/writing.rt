//! From netlists to their text.
ghost use Rattle.std.specs.Prelude.{◌≡◌, ◌≤◌, ◌++◌, length, IfOk, OnOk};
ghost use Rattle.std.specs.Fmt.{decimal};
ghost use Rattle.ci_netlist.specs.Netlists.{IsNetlist};
ghost use Rattle.ci_netlist.specs.Texts.{bit_text, spaced_text, bits_line, gate_text};
ghost use Rattle.ci_netlist.specs.Texts.{header_text, outputs_text, netlist_text, Spells};

use crate::bits::{Bit, Gate};
use crate::netlists::Netlist;
use std::alloc::{AllocError, Global};

/// Appends words.
fn push_str(text: &mut Vec<u8>, piece: &str) -> Result<(), AllocError>
    ensures { OnOk result (text.new.items ≡ text.old.items ++ piece.now) }
{
    text.extend_from_slice(piece.as_bytes())
}

/// Appends a number in decimal digits.
fn push_number(text: &mut Vec<u8>, number: u32) -> Result<(), AllocError>
    ensures { OnOk result (text.new.items ≡ text.old.items ++ decimal number) }
{
    let digits = format!(in *text.allocator(); "{number}")?;
    text.extend_from_slice(digits.as_bytes())
}

/// Appends a bit.
fn push_bit(text: &mut Vec<u8>, bit: Bit) -> Result<(), AllocError>
    ensures { OnOk result (text.new.items ≡ text.old.items ++ bit_text bit) }
{
    match bit {
        Bit::Zero => push_str(text, "0"),
        Bit::One => push_str(text, "1"),
        Bit::Input(n) => {
            text.push(b'a' + n / 32)?;
            push_number(text, u32::from(n % 32))
        }
        Bit::Made(gate) => {
            push_str(text, "g")?;
            push_number(text, gate)
        }
    }
}

/// Appends a bit behind a space.
fn push_spaced(text: &mut Vec<u8>, bit: Bit) -> Result<(), AllocError>
    ensures { OnOk result (text.new.items ≡ text.old.items ++ spaced_text bit) }
{
    push_str(text, " ")?;
    push_bit(text, bit)
}

/// Appends a line of bits behind a word, with a space before each.
#[tactic(auto, unfolding(crate::specs::Texts::bits_line))]
fn push_bits(text: &mut Vec<u8>, word: &str, bits: &[Bit]) -> Result<(), AllocError>
    ensures { OnOk result (text.new.items ≡ text.old.items ++ bits_line word.now bits.now) }
{
    push_str(text, word)?;
    for bit in bits {
        push_spaced(text, *bit)?;
    }
    push_str(text, "\n")
}

/// Appends the line of a gate.
fn push_gate(text: &mut Vec<u8>, gate: Gate) -> Result<(), AllocError>
    ensures { OnOk result (text.new.items ≡ text.old.items ++ gate_text gate) }
{
    match gate {
        Gate::And(left, right) => push_bits(text, "and", &[left, right]),
        Gate::Or(left, right) => push_bits(text, "or", &[left, right]),
        Gate::Xor(left, right) => push_bits(text, "xor", &[left, right]),
    }
}

/// Appends the line of a netlist's number and of how many gates it has.
#[tactic(auto, unfolding(crate::specs::Texts::header_text))]
fn push_header(text: &mut Vec<u8>, number: u32, gates: u32) -> Result<(), AllocError>
    ensures { OnOk result (text.new.items ≡ text.old.items ++ header_text number gates) }
{
    push_str(text, "netlist ")?;
    push_number(text, number)?;
    push_str(text, " gates ")?;
    push_number(text, gates)?;
    push_str(text, "\n")
}

/// Appends the lines of the results.
fn push_outputs(text: &mut Vec<u8>, bits: &[Bit]) -> Result<(), AllocError>
    requires { length bits.now ≡ 96 }
    ensures { OnOk result (text.new.items ≡ text.old.items ++ outputs_text bits.now) }
{
    push_bits(text, "y", &bits[..32])?;
    push_bits(text, "z", &bits[32..64])?;
    push_bits(text, "x", &bits[64..])
}

/// Appends a netlist with this number.
#[tactic(auto, unfolding(crate::specs::Texts::netlist_text))]
fn push_netlist(text: &mut Vec<u8>, number: u32, net: &Netlist) -> Result<(), AllocError>
    ensures text { OnOk result (text.new.items ≡ text.old.items ++ netlist_text number net.now) }
    ensures kept { IsNetlist net.now }
{
    let gates = net.gates();
    push_header(text, number, gates.len() as u32)?;
    for gate in gates {
        push_gate(text, *gate)?;
    }
    push_outputs(text, net.outputs())
}

/// The text of the netlists, at most 32, in their order.
///
/// # Errors
///
/// Out of memory.
pub fn write(alloc: Global, nets: &[Netlist]) -> Result<Vec<u8>, AllocError>
    requires { length nets.now ≤ 32 }
    ensures { IfOk result (λ bytes. Spells bytes.items nets.now) }
{
    let mut text = Vec::new(alloc);
    for (number, net) in nets.iter().enumerate() {
        push_netlist(&mut text, number as u32, net)?;
    }
    Ok(text)
}
