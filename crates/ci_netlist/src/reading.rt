//! From bytes to the netlists whose text they are.
ghost use Rattle.std.specs.Prelude.{◌≡◌, ◌-◌, ◌<◌, ◌≤◌, length, false, IfOk, IfErr};
ghost use Rattle.std.specs.Char.{is_ascii_digit};
ghost use Rattle.ci_reading.specs.Fields.{Gives as GivesField};
ghost use Rattle.ci_netlist.specs.Texts.{Spells};
ghost use Rattle.ci_netlist.specs.Faults.{IsFaultOf};
ghost use Rattle.ci_netlist.specs.private.Reading as terms;
ghost use Rattle.ci_netlist.specs.private.Reading.{Gives, IsStart, bit_read, gate_read, gates_read, bits_read};
ghost use Rattle.ci_netlist.specs.private.Reading.{result_read, outputs_read, header_read, netlist_read, netlists_read};

use crate::bits::{Bit, Gate};
use crate::faults::{Failure, GateFault};
use crate::netlists::{GATES, Netlist};
use crate::starts::{Start, bit_start, gate_kind};
use ci_reading::{Numbers, Stop, number, word};
use std::alloc::Global;

/// The most netlists of a text.
const NETLISTS: u32 = 32;

/// The fewest bytes of a gate's line.
const SHORTEST_GATE: usize = 7;

/// The numbers from the low one to the high one, and the byte that ends them.
fn numbers(low: u32, high: u32, end: u8) -> Numbers
    ensures { result ≡ terms.numbers low high end }
{
    Numbers {
        low,
        high,
        end,
        listed: false,
    }
}

/// What stands behind the first byte of a bit, where so many gates are earlier, and the byte that ends it.
fn bit_behind(made: u32, end: u8, start: Start, bytes: &[u8]) -> Result<(Bit, &[u8]), Stop>
    requires few { made ≤ 4194304 }
    requires end { is_ascii_digit end ≡ false }
    requires start { IsStart made start }
    ensures { GivesField (λ x. (x.0, x.1.now)) result (terms.bit_behind made end start bytes.now) }
{
    match start {
        Start::Zero => {
            let rest = word(bytes, &[end])?;
            Ok((Bit::Zero, rest))
        }
        Start::One => {
            let rest = word(bytes, &[end])?;
            Ok((Bit::One, rest))
        }
        Start::Input(letter) => {
            let (place, _, rest) = number(bytes, numbers(0, 31, end))?;
            Ok((Bit::Input(32 * letter + place as u8), rest))
        }
        Start::Made => {
            let (gate, _, rest) = number(bytes, numbers(0, made - 1, end))?;
            Ok((Bit::Made(gate), rest))
        }
    }
}

/// A bit, where so many gates are earlier, and the byte that ends it.
#[tactic(auto, unfolding(crate::specs::private::Reading::bit_read))]
fn bit(made: u32, end: u8, bytes: &[u8]) -> Result<(Bit, &[u8]), Stop>
    requires few { made ≤ 4194304 }
    requires end { is_ascii_digit end ≡ false }
    ensures { GivesField (λ x. (x.0, x.1.now)) result (bit_read made end bytes.now) }
{
    let (start, rest) = bit_start(made, bytes)?;
    bit_behind(made, end, start, rest)
}

/// A gate, where so many are earlier.
#[tactic(auto, unfolding(crate::specs::private::Reading::gate_read))]
fn gate(made: u32, bytes: &[u8]) -> Result<(Gate, &[u8]), Stop>
    requires { made ≤ 4194304 }
    ensures { GivesField (λ x. (x.0, x.1.now)) result (gate_read made bytes.now) }
{
    let (kind, rest) = gate_kind(bytes)?;
    let rest = word(rest, kind.rest())?;
    let (left, rest) = bit(made, b' ', rest)?;
    let (right, rest) = bit(made, b'\n', rest)?;
    Ok((kind.gate(left, right), rest))
}

/// So many gates.
fn gates(alloc: Global, count: u32, bytes: &[u8]) -> Result<(Vec<Gate>, &[u8]), Failure>
    requires { count ≤ 4194304 }
    ensures { Gives (λ x. (x.0.items, x.1.now)) result (gates_read 0 count bytes.now) }
{
    let room = (count as usize).min(bytes.len() / SHORTEST_GATE);
    let mut gates = Vec::with_capacity(alloc, room)?;
    let mut rest = bytes;
    for made in 0..count {
        let (gate, after) = gate(made, rest)?;
        gates.push(gate)?;
        rest = after;
    }
    Ok((gates, rest))
}

/// The byte that ends bit k of 32.
fn end_of(k: u32) -> u8
    requires { k < 32 }
    ensures value { result ≡ terms.end_of (31 - k) }
    ensures end { is_ascii_digit result ≡ false }
{
    if k == 31 { b'\n' } else { b' ' }
}

/// The 32 bits of a line.
fn bits(alloc: Global, made: u32, bytes: &[u8]) -> Result<(Vec<Bit>, &[u8]), Failure>
    requires { made ≤ 4194304 }
    ensures { Gives (λ x. (x.0.items, x.1.now)) result (bits_read made 32 bytes.now) }
{
    let mut bits = Vec::with_capacity(alloc, 32)?;
    let mut rest = bytes;
    for k in 0..32u32 {
        let (bit, after) = bit(made, end_of(k), rest)?;
        bits.push(bit)?;
        rest = after;
    }
    Ok((bits, rest))
}

/// The 32 bits of a result behind its letter.
#[tactic(auto, unfolding(crate::specs::private::Reading::result_read))]
fn result_bits<'a>(
    alloc: Global,
    letter: &[u8],
    made: u32,
    bytes: &'a [u8],
) -> Result<(Vec<Bit>, &'a [u8]), Failure>
    requires { made ≤ 4194304 }
    ensures { Gives (λ x. (x.0.items, x.1.now)) result (result_read letter.now made bytes.now) }
{
    let rest = word(bytes, letter)?;
    bits(alloc, made, rest)
}

/// The bits of the three results.
#[tactic(auto, unfolding(crate::specs::private::Reading::outputs_read))]
fn outputs(alloc: Global, made: u32, bytes: &[u8]) -> Result<(Vec<Bit>, &[u8]), Failure>
    requires { made ≤ 4194304 }
    ensures { Gives (λ x. (x.0.items, x.1.now)) result (outputs_read made bytes.now) }
{
    let (y, rest) = result_bits(alloc, b"y ", made, bytes)?;
    let (z, rest) = result_bits(alloc, b"z ", made, rest)?;
    let (x, rest) = result_bits(alloc, b"x ", made, rest)?;
    let mut bits = y;
    bits.extend_from_slice(&z)?;
    bits.extend_from_slice(&x)?;
    Ok((bits, rest))
}

/// The first line of the netlist of this number: how many gates there are.
#[tactic(auto, unfolding(crate::specs::private::Reading::header_read))]
fn header(place: u32, bytes: &[u8]) -> Result<(u32, &[u8]), Stop>
    requires { place < 32 }
    ensures { GivesField (λ x. (x.0, x.1.now)) result (header_read place bytes.now) }
{
    let rest = word(bytes, b"netlist ")?;
    let (_, _, rest) = number(rest, numbers(place, place, b' '))?;
    let rest = word(rest, b"gates ")?;
    let (count, _, rest) = number(rest, numbers(0, GATES as u32, b'\n'))?;
    Ok((count, rest))
}

/// The netlist of this number.
#[tactic(auto, unfolding(crate::specs::private::Reading::netlist_read))]
fn netlist(alloc: Global, place: u32, bytes: &[u8]) -> Result<(Netlist, &[u8]), Failure>
    requires place { place < 32 }
    requires few { length bytes.now ≤ 268435456 }
    ensures value { Gives (λ x. (x.0, x.1.now)) result (netlist_read place bytes.now) }
    ensures left { IfOk result (λ x. length x.1.now ≤ length bytes.now) }
{
    let (count, rest) = header(place, bytes)?;
    let (gates, rest) = gates(alloc, count, rest)?;
    let (outputs, rest) = outputs(alloc, count, rest)?;
    Ok((Netlist::new(gates, outputs), rest))
}

/// All netlists of the bytes.
fn netlists(alloc: Global, bytes: &[u8]) -> Result<Vec<Netlist>, Failure>
    requires { length bytes.now ≤ 268435456 }
    ensures { Gives (λ nets. nets.items) result (netlists_read 32 0 bytes.now) }
{
    let mut nets = Vec::new(alloc);
    let mut rest = bytes;
    let mut place = 0;
    while place < NETLISTS && !rest.is_empty() {
        let (net, after) = netlist(alloc, place, rest)?;
        nets.push(net)?;
        rest = after;
        place += 1;
    }
    if rest.is_empty() {
        Ok(nets)
    } else {
        Err(Failure::Stopped(rest.len()))
    }
}

/// The netlists whose text the bytes are. There have to be at most 268,435,456 bytes.
///
/// # Errors
///
/// `Bad`: no netlists have this text, with the number of bytes before the first one with which no text goes on. Where
/// the bytes are the beginning of a text, it is their number. `NoMemory`: out of memory.
pub fn read(alloc: Global, bytes: &[u8]) -> Result<Vec<Netlist>, GateFault>
    requires { length bytes.now ≤ 268435456 }
    ensures nets { IfOk result (λ nets. Spells bytes.now nets.items) }
    ensures fault { IfErr result (IsFaultOf bytes.now) }
{
    match netlists(alloc, bytes) {
        Ok(nets) => Ok(nets),
        Err(Failure::NoMemory) => Err(GateFault::NoMemory),
        Err(Failure::Stopped(left)) => Err(GateFault::Bad((bytes.len() - left) as u32)),
    }
}
