//! One block of memory that holds the cells of a region.
//!
//! A cell is written when it is reached, and the memory behind the cells isn't touched before.
//! Only `Cells::reserve`, `Cells::cell`, `Cells::cell_mut`, `Cells::push`, `Cells::pop` and `Cells::free` use pointers,
//! and are proved by hand.

ghost use Rattle.std.specs.Prelude.{◌≡◌, ℕ, ◌+◌, ◌^◌, ◌<◌, ◌≤◌, List, length, get_or, None, IfOk};
ghost use Rattle.std.specs.Vec.Ownership.{FitsInBlock};
ghost use Rattle.std.specs.Borrow.{sem};
ghost use denote.RawPtr.{Ptr};
ghost use Rattle.ci_region.specs.declared.cells.Cell.{Cell};

use std::alloc::{AllocError, Allocator};
use std::marker::{Model, PhantomData};
use std::mem::{self, align_of, size_of};

/// A cell of a region.
#[derive(Drop)]
pub(crate) enum Cell<T> {
    /// The value of a live slot.
    Live(T),
    /// The number of the next free cell, in a free one.
    Free(u32),
}

/// The cells that are reached, where the first one lies, and for how many more there is room.
pub(crate) struct Cells<T> {
    // `*const`, so that a block is covariant in T, as a vector is.
    start: *const Cell<T>,
    pub(crate) ghost cells: { List (Cell T) },
    pub(crate) ghost left: { ℕ },
}

impl<T> Model for Cells<T> {
    ghost use Rattle.ci_region.specs.Ownership.{cells_own, cells_lent};
    ghost use Rattle.ci_region.specs.contracts.cells.Cell.{the_row};

    ghost also_owns = { λ b. cells_own (the_row T.row) b.start b.cells b.left };

    ghost also_shares = { λ b _ κ. cells_lent (the_row T.row) b.start b.cells b.left κ };
}

/// The right to give the memory of the cells back. It takes no space.
pub(crate) struct Lease<T, A: Allocator> {
    // It names the parameters, and holds nothing of them.
    mark: PhantomData<*const (T, A)>,
    ghost start: { Ptr },
    ghost count: { ℕ },
    ghost alloc: { A },
}

impl<T, A: Allocator> Model for Lease<T, A> {
    ghost use Rattle.ci_region.specs.Ownership.{lease_owns};
    ghost use Rattle.ci_region.specs.contracts.cells.Cell.{the_row};

    ghost also_owns = { λ l. lease_owns (the_row T.row) (A.dealloc_token l.alloc) l.start l.count };
}

impl<T> Cells<T> {
    ghost use Rattle.ci_region.specs.contracts.cells.Cell.{the_row};
    ghost use Rattle.ci_region.specs.declared.cells.Cell.TheVariants.{Live, Free};
    ghost use Rattle.ci_region.specs.CellChanges.{IsUnreached, IsLeaseOf, LendsCell, with_cell, with_next, with_only};
    ghost use Rattle.ci_region.specs.private.Cells.{value_of, AreFree};

    /// Memory for `count` cells, none of which is reached.
    pub(crate) fn reserve<A: Allocator>(
        alloc: &A,
        count: u32,
    ) -> Result<(Cells<T>, Lease<T, A>), AllocError>
        requires { FitsInBlock (the_row T.row) count }
        ensures { IfOk result (λ made. IsUnreached made.0 count × IsLeaseOf made.1 made.0 count alloc.now) }
    {
        let memory = match alloc.allocate(
            count as usize * size_of::<Cell<T>>(),
            align_of::<Cell<T>>(),
        ) {
            Ok(memory) => memory,
            Err(error) => return Err(error),
        };
        let start = memory as *mut Cell<T>;
        Ok((Cells { start }, Lease { mark: PhantomData }))
    }

    /// The cell of this number.
    pub(crate) fn cell(&self, number: usize) -> &Cell<T>
        requires { number < length self.now.cells }
        ensures { result.now ≡ get_or self.now.cells number (Free 0) }
    {
        unsafe { &*self.start.add(number) }
    }

    /// The cell of this number, for writing.
    pub(crate) fn cell_mut(&mut self, number: usize) -> &mut Cell<T>
        requires { number < length self.old.cells }
        ensures* writes_back { sem 𝓛 (LendsCell T.row self.entry number result) }
        ensures value { result.now ≡ get_or self.old.cells number (Free 0) }
    {
        unsafe { &mut *self.start.cast_mut().add(number) }
    }

    /// Reaches the next cell, which has this number and this value.
    pub(crate) fn push(&mut self, number: usize, value: T)
        requires { (number ≡ length self.old.cells) × (0 < self.old.left) }
        ensures { self.new ≡ with_next self.old value }
    {
        unsafe {
            self.start.cast_mut().add(number).write(Cell::Live(value));
        }
    }

    /// Puts the value into the first free cell, whose number this is: one of the `reached` cells, or else the next one.
    /// Answers the number of the free cell behind it.
    pub(crate) fn fill(&mut self, number: u32, reached: u32, value: T) -> u32
        requires all { length self.old.cells ≡ reached }
        requires within { number ≤ reached }
        requires room { number < reached + self.old.left }
        requires free { value_of (get_or self.old.cells number (Free 0)) ≡ None }
        requires fits { reached + self.old.left < 2 ^ 32 }
        ensures next_free { number < reached → get_or self.old.cells number (Free 0) ≡ Free result }
        ensures in_place { number < reached → self.new ≡ with_cell self.old number (Live value) }
        ensures next { number ≡ reached → (result ≡ number + 1) × (self.new ≡ with_next self.old value) }
    {
        if number == reached {
            self.push(number as usize, value);
            return number + 1;
        }
        match mem::replace(self.cell_mut(number as usize), Cell::Live(value)) {
            Cell::Free(next) => next,
            Cell::Live(_) => unreachable!(),
        }
    }

    /// Takes the last cell, which has this number, out of the block. Its memory is room then.
    pub(crate) fn pop(&mut self, number: usize) -> Cell<T>
        requires { number + 1 ≡ length self.old.cells }
        ensures last { result ≡ get_or self.old.cells number (Free 0) }
        ensures others { self.new ≡ with_only self.old number }
    {
        unsafe { self.start.add(number).read() }
    }

    /// Drops the values of all cells, of which there are so many. None is reached then.
    pub(crate) fn vacate(&mut self, count: u32)
    where
        T: Drop,
        requires { length self.old.cells ≡ count }
        ensures { self.new ≡ with_only self.old 0 }
    {
        let mut left = count;
        while left > 0 {
            left -= 1;
            drop(self.pop(left as usize));
        }
    }

    /// Gives the memory back. No cell has a value, so none is lost.
    pub(crate) fn free<A: Allocator>(self, lease: Lease<T, A>, count: u32, alloc: &A)
        requires { IsLeaseOf lease self count alloc.now × (length self.cells + self.left ≡ count) × AreFree self.cells }
    {
        let Cells { start } = self;
        let Lease { mark: _ } = lease;
        unsafe {
            alloc.deallocate(
                start as *mut u8,
                count as usize * size_of::<Cell<T>>(),
                align_of::<Cell<T>>(),
            );
        }
    }
}
