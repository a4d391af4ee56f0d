//! A region: a pool of slots for values of one type, reserved once.
//!
//! Contracts see a finite map from slots to values, with its capacity (`specs/BoundedMap.antt`), and those of crates
//! above trees whose nodes stand in slots (`specs/Trees.antt`).
//! Only `Region::with_capacity` takes memory.
#![tactic(auto)]

ghost use Rattle.std.specs.Prelude.{◌≡◌, ◌<◌, ◌≤◌, ◌↔◌, ℕ, Some, None, IsSome, IsErr, IfOk, IfErr, OnErr};
ghost use Rattle.std.specs.FinMap as map;
ghost use Rattle.std.specs.Borrow.{sem};
ghost use Rattle.ci_region.specs.BoundedMap.{IsLive, used, with_value, without};
ghost use Rattle.ci_region.specs.private.Cells.{value_of};
ghost use Rattle.ci_region.specs.CellChanges.{LendsLive};

use cells::{Cell, Cells, Lease};
use std::alloc::{AllocError, Global};
use std::marker::Model;
use std::mem;
use std_alloc::room::may_hold;

mod cells;
#[cfg(test)]
mod tests;

/// A slot of a region. Contracts see its number, which is below the capacity.
#[derive(Clone, Copy, Debug, PartialEq, Eq)]
pub struct Slot {
    // The bytes of its number. What holds slots has no gaps between its parts, so that less memory is touched.
    bytes: [u8; 4],
}

impl Model for Slot {
    ghost use Rattle.std.specs.Prelude.{◌≡◌, ℕ, ◌<◌, length, get_or, refl};
    ghost use Rattle.std.specs.Int.{w32, from_le_bytes, to_le_bytes};
    ghost use Rattle.std.proofs.lemmas.Nat.{le_bytes_4};

    ghost Value = { ℕ };

    ghost view = { λ slot. from_le_bytes w32 slot.bytes };

    ghost invariant = { λ slot. (length slot.bytes ≡ 4) × ((place : ℕ) → get_or slot.bytes place 0 < 256) };

    ghost inverse = { λ n. record { bytes = to_le_bytes w32 n } };

    ghost inverse_ok = { λ slot are_bytes i. record {
      bytes = le_bytes_4 slot.bytes (from_le_bytes w32 slot.bytes) are_bytes.0 are_bytes.1 refl i;
    } };
}

impl Slot {
    /// The slot of this number.
    fn of(number: u32) -> Slot
        ensures { result ≡ number }
    {
        Slot {
            bytes: number.to_le_bytes(),
        }
    }

    /// The number.
    fn number(&self) -> u32
        ensures { result ≡ self.now }
    {
        u32::from_le_bytes(self.bytes)
    }
}

/// A pool of slots, reserved once, each of which is live and holds a value or is free.
///
/// It holds a pointer, and so is neither `Send` nor `Sync`.
pub struct Region<T> {
    // The cell of each slot, by number.
    cells: Cells<T>,
    lease: Lease<T, Global>,
    alloc: Global,
    capacity: u32,
    // The number of the first free cell. Each free cell has the number of the next, and the last one that of the cell
    // behind all that are reached, which is the next to be reached.
    first_free: u32,
    // The number of cells that have a value.
    used: u32,
    // The number of cells that are reached. The memory behind them holds nothing.
    reached: u32,
}

impl<T> Model for Region<T> {
    ghost use Rattle.ci_region.specs.BoundedMap.{BoundedMap, bounded_map_code};

    ghost Value = { BoundedMap T };

    ghost coded = { bounded_map_code T.code };

    ghost use Rattle.std.specs.Prelude.{◌≡◌, ◌+◌};
    ghost use Rattle.ci_region.specs.private.Cells.{values_in, AreCells};
    ghost use Rattle.ci_region.specs.CellChanges.{IsLeaseOf};

    ghost view = { λ r. record {
      values = values_in r.cells.cells;
      capacity = r.capacity;
    } };

    ghost invariant = { λ r.
        AreCells r.cells.cells r.first_free r.used r.reached
        × (r.reached + r.cells.left ≡ r.capacity)
        × IsLeaseOf r.lease r.cells r.capacity r.alloc };
}

// The value of a live cell, for writing.
fn value_mut<T>(cell: &mut Cell<T>) -> &mut T
    requires { IsSome (value_of cell.old) }
    ensures* writes_back { sem 𝓛 (LendsLive T.row cell.entry result) }
    ensures value { value_of cell.old ≡ Some result.now }
{
    match cell {
        Cell::Live(value) => value,
        Cell::Free(_) => unreachable!(),
    }
}

impl<T: Drop> Drop for Region<T> {
    fn drop(mut self) {
        self.clear();
        let Region {
            cells,
            lease,
            alloc,
            capacity,
            first_free: _,
            used: _,
            reached: _,
        } = self;
        cells.free(lease, capacity, &alloc);
    }
}

impl<T> Region<T> {
    ghost use Rattle.ci_region.specs.Lending.{LendsValue};

    /// A region of `n` slots, none of them live.
    ///
    /// Fails only where there is no memory. The other calls take none.
    pub fn with_capacity(alloc: Global, n: u32) -> Result<Region<T>, AllocError>
        ensures { IfOk result (λ region. region ≡ record { values = map.empty; capacity = n }) }
    {
        if !may_hold::<Cell<T>>(n as usize) {
            return Err(AllocError);
        }
        let (cells, lease) = Cells::reserve(&alloc, n)?;
        Ok(Region {
            cells,
            lease,
            alloc,
            capacity: n,
            first_free: 0,
            used: 0,
            reached: 0,
        })
    }

    /// Puts the value into a slot that isn't live, and says which; or hands the value back, exactly
    /// where all slots are live.
    pub fn take(&mut self, value: T) -> Result<Slot, T>
        ensures holds { IfOk result (λ slot. self.new ≡ with_value self.old slot value) }
        ensures live { IfOk result (λ slot. map.get self.new.values slot ≡ Some value) }
        ensures was_free { IfOk result (λ slot. map.get self.old.values slot ≡ None) }
        ensures below_capacity { IfOk result (λ slot. slot < self.old.capacity) }
        ensures full { IsErr result ↔ (used self.old ≡ self.old.capacity) }
        ensures bounded { used self.old ≤ self.old.capacity }
        ensures unchanged { OnErr result (self.new ≡ self.old) }
        ensures value_back { IfErr result (λ back. back ≡ value) }
    {
        if self.used == self.capacity {
            return Err(value);
        }
        let number = self.first_free;
        self.first_free = self.cells.fill(number, self.reached, value);
        self.used += 1;
        self.reached = self.reached.max(number + 1);
        Ok(Slot::of(number))
    }

    /// The value of a live slot.
    pub fn get(&self, slot: Slot) -> &T
        requires { IsLive self.now slot }
        ensures { map.get self.now.values slot ≡ Some result.now }
    {
        match self.cells.cell(slot.number() as usize) {
            Cell::Live(value) => value,
            Cell::Free(_) => unreachable!(),
        }
    }

    /// The value of a live slot, for writing.
    pub fn get_mut(&mut self, slot: Slot) -> &mut T
        requires { IsLive self.old slot }
        ensures* writes_back { sem 𝓛 (LendsValue T.row self.entry slot result) }
        ensures value { map.get self.old.values slot ≡ Some result.now }
    {
        value_mut(self.cells.cell_mut(slot.number() as usize))
    }

    /// Takes the value out of a live slot, which is free then.
    pub fn give(&mut self, slot: Slot) -> T
        requires { IsLive self.old slot }
        ensures value { map.get self.old.values slot ≡ Some result }
        ensures rest { self.new ≡ without self.old slot }
    {
        let next = self.first_free;
        let number = slot.number();
        let cell = self.cells.cell_mut(number as usize);
        match mem::replace(cell, Cell::Free(next)) {
            Cell::Live(value) => {
                self.first_free = number;
                self.used -= 1;
                value
            }
            Cell::Free(_) => unreachable!(),
        }
    }

    /// Drops all values. No slot is live then, and the capacity stays.
    pub fn clear(&mut self)
    where
        T: Drop,
        ensures { self.new ≡ record self.old { values = map.empty } }
    {
        self.cells.vacate(self.reached);
        self.first_free = 0;
        self.used = 0;
        self.reached = 0;
    }

    /// The number of live slots.
    pub fn used(&self) -> u32
        ensures value { result ≡ used self.now }
        ensures bounded { result ≤ self.now.capacity }
    {
        self.used
    }

    /// The number of slots.
    pub fn capacity(&self) -> u32
        ensures value { result ≡ self.now.capacity }
        ensures bounds_slots { (slot : ℕ) → IsLive self.now slot → slot < result }
    {
        self.capacity
    }
}
