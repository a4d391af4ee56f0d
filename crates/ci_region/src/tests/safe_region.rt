//! The region in safe form, a vector of options and one of free numbers, with which the raw one is compared.

use std::alloc::{AllocError, Global};

#[derive(Drop)]
pub struct SafeRegion {
    // The cells of the slots that were taken since the region was made or cleared, by number.
    cells: Vec<Option<u32>>,
    // The numbers of the cells without a value.
    free: Vec<u32>,
    capacity: u32,
}

impl SafeRegion {
    pub fn with_capacity(alloc: Global, n: u32) -> Result<SafeRegion, AllocError> {
        let free = Vec::with_capacity(alloc, n as usize)?;
        let cells = Vec::with_capacity(alloc, n as usize)?;
        Ok(SafeRegion {
            cells,
            free,
            capacity: n,
        })
    }

    /// The number of the slot that the value is put into, or nothing where all are live.
    pub fn take(&mut self, value: u32) -> Option<u32> {
        if let Some(number) = self.free.pop() {
            *self.cells.get_mut(number as usize)? = Some(value);
            return Some(number);
        }
        let number = u32::try_from(self.cells.len()).ok()?;
        if number == self.capacity {
            return None;
        }
        self.cells.push(Some(value)).ok()?;
        Some(number)
    }

    pub fn get(&self, number: u32) -> Option<u32> {
        *self.cells.get(number as usize)?
    }

    /// Puts another value into a live slot, and answers the old one.
    pub fn write(&mut self, number: u32, value: u32) -> Option<u32> {
        let old = self.get(number)?;
        *self.cells.get_mut(number as usize)? = Some(value);
        Some(old)
    }

    pub fn give(&mut self, number: u32) -> Option<u32> {
        let old = self.get(number)?;
        *self.cells.get_mut(number as usize)? = None;
        self.free.push(number).ok()?;
        Some(old)
    }

    pub fn clear(&mut self) {
        self.cells.clear();
        self.free.clear();
    }

    pub fn used(&self) -> usize {
        self.cells.len().saturating_sub(self.free.len())
    }
}
