//! Whole netlists.
ghost use Rattle.std.specs.Prelude.{◌≡◌};

use crate::bits::{Bit, Gate};
use std::marker::Model;

/// The most gates of a netlist.
pub const GATES: usize = 4_194_304;

/// Gates, and the bits of the results y, z and x, one behind the other, the lowest bit of each first.
///
/// There are at most 4,194,304 gates. Each names bits of the inputs and earlier gates alone, and the results have 32
/// bits each.
#[derive(Drop)]
pub struct Netlist {
    gates: Vec<Gate>,
    outputs: Vec<Bit>,
}

impl Model for Netlist {
    ghost use Rattle.ci_netlist.specs.Netlists.{Netlist, IsNetlist};

    ghost Value = { Netlist };

    ghost view = { λ n. record { gates = n.gates.items; outputs = n.outputs.items } };

    ghost invariant = { λ n. IsNetlist (record { gates = n.gates.items; outputs = n.outputs.items }) };
}

impl Netlist {
    ghost use Rattle.ci_netlist.specs.Netlists.{IsNetlist};

    /// The netlist of these gates and results.
    pub fn new(gates: Vec<Gate>, outputs: Vec<Bit>) -> Netlist
        requires { IsNetlist (record { gates = gates.items; outputs = outputs.items }) }
        ensures { result ≡ record { gates = gates.items; outputs = outputs.items } }
    {
        Netlist { gates, outputs }
    }

    /// The gates, in their order.
    pub fn gates(&self) -> &[Gate]
        ensures value { result.now ≡ self.now.gates }
        ensures kept { IsNetlist self.now }
    {
        &self.gates
    }

    /// The 96 bits of y, z and x, the lowest bit of each first.
    pub fn outputs(&self) -> &[Bit]
        ensures value { result.now ≡ self.now.outputs }
        ensures kept { IsNetlist self.now }
    {
        &self.outputs
    }
}
