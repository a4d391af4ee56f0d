//! Gates that are appended one after the other.
ghost use Rattle.std.specs.Prelude.{◌≡◌, ◌<◌, ◌≤◌, ◌&&◌, ◌||◌, [], length, OnOk, IfOk};
ghost use Rattle.ci_netlist.specs.Netlists.{AreGates, AreBits, IsBit, HasBits, differ, gate_value};
ghost use Rattle.ci_gates.specs.private.Growing.{Grows, Always, kind_value};

use ci_netlist::{Bit, Gate, Netlist};
use std::alloc::{AllocError, Global};
use std::marker::Model;

/// What a gate does with two bits.
#[derive(Clone, Copy)]
pub(crate) enum Kind {
    And,
    Or,
    Xor,
}

/// The gates so far. Contracts see a list.
#[derive(Drop)]
pub(crate) struct Builder {
    gates: Vec<Gate>,
}

impl Model for Builder {
    ghost use Rattle.std.specs.Prelude.{List, length, ◌≤◌};
    ghost use Rattle.ci_netlist.specs.declared.bits.Gate.{Gate};
    ghost use Rattle.ci_netlist.specs.Netlists.{AreGates};

    ghost Value = { List Gate };

    ghost view = { λ b. b.gates.items };

    ghost invariant = { λ b. AreGates b.gates.items × (length b.gates.items ≤ 4194304) };
}

impl Builder {
    /// Room for this many gates, and none yet.
    pub(crate) fn with_room(alloc: Global, count: usize) -> Result<Builder, AllocError>
        ensures { IfOk result (λ b. b ≡ []) }
    {
        Ok(Builder {
            gates: Vec::with_capacity(alloc, count)?,
        })
    }

    /// How many gates there are.
    pub(crate) fn len(&self) -> usize
        ensures value { result ≡ length self.now }
        ensures kept { AreGates self.now }
    {
        self.gates.len()
    }

    /// Appends a gate, and gives the bit that is its output.
    fn put(&mut self, gate: Gate) -> Result<Bit, AllocError>
        requires room { length self.old < 4194304 }
        requires has_bits { HasBits (length self.old) gate }
        ensures grows { OnOk result (Grows self.old self.new 1) }
        ensures is_bit { IfOk result (λ b. IsBit (length self.new) b) }
        ensures value { IfOk result (λ b. Always self.new (λ holds. holds b ≡ gate_value holds gate)) }
    {
        let place = self.gates.len() as u32;
        self.gates.push(gate)?;
        Ok(Bit::Made(place))
    }

    /// The bit that a gate of this kind makes of two bits.
    pub(crate) fn gate(&mut self, kind: Kind, left: Bit, right: Bit) -> Result<Bit, AllocError>
        requires room { length self.old < 4194304 }
        requires left_is { IsBit (length self.old) left }
        requires right_is { IsBit (length self.old) right }
        ensures grows { OnOk result (Grows self.old self.new 1) }
        ensures is_bit { IfOk result (λ b. IsBit (length self.new) b) }
        ensures value { IfOk result (λ b. Always self.new (λ holds. holds b ≡ kind_value kind (holds left) (holds right))) }
    {
        match kind {
            Kind::And => self.put(Gate::And(left, right)),
            Kind::Or => self.put(Gate::Or(left, right)),
            Kind::Xor => self.put(Gate::Xor(left, right)),
        }
    }

    /// The bit that holds where both hold.
    pub(crate) fn and(&mut self, left: Bit, right: Bit) -> Result<Bit, AllocError>
        requires room { length self.old < 4194304 }
        requires left_is { IsBit (length self.old) left }
        requires right_is { IsBit (length self.old) right }
        ensures grows { OnOk result (Grows self.old self.new 1) }
        ensures is_bit { IfOk result (λ b. IsBit (length self.new) b) }
        ensures value { IfOk result (λ b. Always self.new (λ holds. holds b ≡ (holds left && holds right))) }
    {
        self.put(Gate::And(left, right))
    }

    /// The bit that holds where one of them holds.
    pub(crate) fn or(&mut self, left: Bit, right: Bit) -> Result<Bit, AllocError>
        requires room { length self.old < 4194304 }
        requires left_is { IsBit (length self.old) left }
        requires right_is { IsBit (length self.old) right }
        ensures grows { OnOk result (Grows self.old self.new 1) }
        ensures is_bit { IfOk result (λ b. IsBit (length self.new) b) }
        ensures value { IfOk result (λ b. Always self.new (λ holds. holds b ≡ (holds left || holds right))) }
    {
        self.put(Gate::Or(left, right))
    }

    /// The bit that holds where exactly one of them holds.
    pub(crate) fn xor(&mut self, left: Bit, right: Bit) -> Result<Bit, AllocError>
        requires room { length self.old < 4194304 }
        requires left_is { IsBit (length self.old) left }
        requires right_is { IsBit (length self.old) right }
        ensures grows { OnOk result (Grows self.old self.new 1) }
        ensures is_bit { IfOk result (λ b. IsBit (length self.new) b) }
        ensures value { IfOk result (λ b. Always self.new (λ holds. holds b ≡ differ (holds left) (holds right))) }
    {
        self.put(Gate::Xor(left, right))
    }

    /// The netlist of the gates, with these bits as its outputs.
    pub(crate) fn finished(self, outputs: Vec<Bit>) -> Netlist
        requires words { length outputs.items ≡ 96 }
        requires are_bits { AreBits (length self) outputs.items }
        ensures value { result ≡ record { gates = self; outputs = outputs.items } }
        ensures kept { AreGates self }
    {
        Netlist::new(self.gates, outputs)
    }
}
