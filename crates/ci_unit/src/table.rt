//! Units by their numbers.
ghost use Rattle.std.specs.Prelude.{◌≡◌, ◌<◌, [], ◌∷◌, ◌++◌, Some, slice_get, length, Contains};
ghost use Rattle.std.specs.Prelude.{IfOk, OnErr, MatchOption};

use crate::units::Unit;
use indexmap::IndexSet;
use std::alloc::{AllocError, Global};
use std::marker::Model;

/// Up to 32 units, of which no two are equal. A unit's number is its place in the order in which they were added.
#[derive(Drop)]
pub struct UnitTable {
    units: IndexSet<Unit>,
}

impl Model for UnitTable {
    ghost use Rattle.std.specs.Prelude.{List};
    ghost use Rattle.ci_unit.specs.Units.{Unit as Body};

    ghost Value = { List Body };

    ghost use Rattle.ci_unit.specs.Tables.{IsTable};

    ghost view = { λ table. table.units.keys };

    ghost invariant = { λ table. IsTable table.units.keys };
}

impl UnitTable {
    ghost use Rattle.ci_unit.specs.Tables.{IsTable};

    /// A table without a unit. It takes no memory.
    pub fn new(alloc: Global) -> UnitTable
        ensures { result ≡ [] }
    {
        UnitTable {
            units: IndexSet::new(alloc),
        }
    }

    /// The number of the unit that is equal to this one, if there is one.
    pub fn number_of(&self, unit: &Unit) -> Option<u8>
        ensures { MatchOption result (¬ Contains self.now unit.now) (λ k. slice_get self.now k ≡ Some unit.now) }
    {
        match self.units.get_index_of(unit) {
            Some(k) => Some(k as u8),
            None => None,
        }
    }

    /// Puts a unit at the end, and answers its number.
    ///
    /// There have to be fewer than 32 units, and none equal to this one. An Err is out of memory, and nothing changes.
    pub fn add(&mut self, unit: Unit) -> Result<u8, AllocError>
        requires room { length self.old < 32 }
        requires absent { ¬ Contains self.old unit }
        ensures number { IfOk result (λ k. k ≡ length self.old) }
        ensures added { IfOk result (λ _. self.new ≡ self.old ++ unit ∷ []) }
        ensures unchanged { OnErr result (self.new ≡ self.old) }
    {
        let number = self.len();
        // What a unit keeps is known where its operations are read.
        prove!(!unit.ops().is_empty());
        self.units.insert(unit)?;
        Ok(number)
    }

    /// How many units there are: at most 32.
    pub fn len(&self) -> u8
        ensures value { result ≡ length self.now }
        ensures kept { IsTable self.now }
    {
        self.units.len() as u8
    }

    /// The unit of this number, which has to be below the number of units.
    pub fn get(&self, k: u8) -> &Unit
        requires { k < length self.now }
        ensures { slice_get self.now k ≡ Some result.now }
    {
        &self.units.as_slice()[k as usize]
    }

    /// The units in the order of their numbers.
    pub fn as_slice(&self) -> &[Unit]
        ensures value { result.now ≡ self.now }
        ensures kept { IsTable self.now }
    {
        self.units.as_slice()
    }
}
