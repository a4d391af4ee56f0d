//! Units.
ghost use Rattle.std.specs.Prelude.{◌≡◌};

use crate::operations::UnitOp;
use smallvec::SmallVec;
use std::hash::{Hash, Hasher};
use std::marker::Model;

/// The body of one instruction: from 1 to 256 operations in their order, none of them a division or a remainder, of
/// which one to three are outputs, and the cycles of one use, from 1 to 9,999,999.
///
/// It has up to five inputs. An operation's arguments are inputs, earlier operations and constants.
#[derive(Drop)]
pub struct Unit {
    ops: Vec<UnitOp>,
    /// The numbers of the operations that are outputs. They rise.
    outputs: SmallVec<u8, 3>,
    cycles: u32,
}

impl Model for Unit {
    ghost use Rattle.ci_unit.specs.Units.{Unit as Body, IsUnit};

    ghost Value = { Body };

    ghost view = { λ unit. record { ops = unit.ops.items; outputs = unit.outputs.items; cycles = unit.cycles } };

    ghost invariant = { λ unit.
        IsUnit (record { ops = unit.ops.items; outputs = unit.outputs.items; cycles = unit.cycles }) };
}

impl Unit {
    ghost use Rattle.ci_unit.specs.Units.{IsUnit};

    /// The unit of these operations, outputs and cycles.
    pub(crate) fn new(ops: Vec<UnitOp>, outputs: SmallVec<u8, 3>, cycles: u32) -> Unit
        requires { IsUnit (record { ops = ops.items; outputs = outputs.items; cycles = cycles }) }
        ensures { result ≡ record { ops = ops.items; outputs = outputs.items; cycles = cycles } }
    {
        Unit {
            ops,
            outputs,
            cycles,
        }
    }

    /// The operations, in their order.
    pub fn ops(&self) -> &[UnitOp]
        ensures value { result.now ≡ self.now.ops }
        ensures kept { IsUnit self.now }
    {
        self.ops.as_slice()
    }

    /// The numbers of the operations that are outputs, in their order.
    pub fn outputs(&self) -> &[u8]
        ensures value { result.now ≡ self.now.outputs }
        ensures kept { IsUnit self.now }
    {
        self.outputs.as_slice()
    }

    /// The cycles of one use.
    pub fn cycles(&self) -> u32
        ensures value { result ≡ self.now.cycles }
        ensures kept { IsUnit self.now }
    {
        self.cycles
    }
}

/// Units are equal where their operations, with classes and arguments, their outputs and their cycles are.
impl PartialEq for Unit {
    ghost use Rattle.std.specs.Cmp.{partial_equiv_from_equiv};
    ghost use Rattle.ci_unit.specs.Equality.{same_unit};
    ghost use Rattle.ci_unit.specs.EqualityLaws.{units_equivalent};

    ghost eq = { same_unit };

    ghost laws = { partial_equiv_from_equiv units_equivalent };

    fn eq(&self, other: &Unit) -> bool {
        self.ops == other.ops && self.outputs == other.outputs && self.cycles == other.cycles
    }
}

impl Eq for Unit {
    ghost use Rattle.ci_unit.specs.EqualityLaws.{units_equivalent};

    ghost laws = { units_equivalent };
}

impl Hash for Unit {
    ghost use Rattle.std.specs.Prelude.{◌++◌};
    ghost use Rattle.std.specs.Hash as fed;
    ghost use Rattle.std.proofs.Common.{ap};
    ghost use Rattle.ci_unit.specs.EqualityLaws.{same_unit_decides};

    ghost hash_input = { λ unit. fed.slice ⟦<UnitOp as Hash>⟧.hash_input unit.ops
        ++ fed.slice fed.u8 unit.outputs ++ fed.u32 unit.cycles };

    ghost respects_eq = { λ x y e. ap (λ unit. fed.slice ⟦<UnitOp as Hash>⟧.hash_input unit.ops
        ++ fed.slice fed.u8 unit.outputs ++ fed.u32 unit.cycles) ((same_unit_decides x y).0 e) };

    fn hash<H: Hasher>(&self, state: &mut H) {
        self.ops.hash(state);
        self.outputs.hash(state);
        self.cycles.hash(state);
    }
}
