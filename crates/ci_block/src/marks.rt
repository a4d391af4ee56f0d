//! Marks on words of the text.
ghost use Rattle.std.specs.Prelude.{◌≡◌, length};
ghost use Rattle.ci_elf.specs.WordPlaces.{word_count};
ghost use Rattle.ci_block.specs.private.Marking.{AreTextRanges};

use ci_elf::{Places, Range};
use std::alloc::{AllocError, Global};

/// Which words of the text are marked.
#[derive(Drop)]
pub(crate) struct Marks {
    pub(crate) places: Places,
    /// One flag for each place.
    pub(crate) flags: Vec<bool>,
    ghost whole: { length flags.items ≡ word_count places },
    ghost text: { AreTextRanges places },
}

impl Marks {
    ghost use Rattle.std.specs.Prelude.{◌≡◌, ℕ, ◌+◌, ◌*◌, ◌<◌, ◌↔◌, Some, IfOk, IsTrue};
    ghost use Rattle.std.specs.List.{Contains};
    ghost use Rattle.ci_block.specs.private.Marking.{AreTextRanges, range_at};
    ghost use Rattle.ci_block.specs.private.Marks.{IsMarked, Adds};

    /// No marks yet on the words of these ranges.
    pub(crate) fn new(alloc: Global, text: &[Range]) -> Result<Marks, AllocError>
        requires { AreTextRanges text.now }
        ensures text { IfOk result (λ marks. marks.places ≡ text.now) }
        ensures none { IfOk result (λ marks. (address : ℕ) → ¬ IsMarked marks address) }
    {
        let places = Places::new(alloc, text)?;
        let flags = vec![in alloc; false; places.len()]?;
        Ok(Marks { places, flags })
    }

    /// Marks the word at an address, where that is a multiple of four in the text.
    pub(crate) fn mark(&mut self, address: u32)
        ensures { Adds self.old self.new (λ a. address ≡ a) }
    {
        if let Some(place) = self.places.of(address) {
            self.flags[place] = true;
        }
    }

    /// Marks the word at an address, if there is one.
    pub(crate) fn mark_if_some(&mut self, address: Option<u32>)
        ensures { Adds self.old self.new (λ a. address ≡ Some a) }
    {
        if let Some(address) = address {
            self.mark(address);
        }
    }

    /// Marks the words at these addresses.
    pub(crate) fn mark_all(&mut self, addresses: &[u32])
        ensures { Adds self.old self.new (λ a. Contains addresses.now a) }
    {
        for address in addresses {
            self.mark(*address);
        }
    }

    /// Range `index` of the text.
    pub(crate) fn range(&self, index: usize) -> Range
        requires { index < length self.now.places }
        ensures { result ≡ range_at self.now.places index }
    {
        self.places.ranges()[index]
    }

    /// Whether word `word` of range `index` is marked.
    pub(crate) fn is_marked(&self, index: usize, word: u32) -> bool
        requires { word < (range_at self.now.places index).words }
        ensures { IsTrue result ↔ IsMarked self.now ((range_at self.now.places index).start + 4 * word) }
    {
        let mut index = index;
        let address = self.range(index).start + 4 * word;
        match self.places.near(&mut index, address) {
            Some(place) => self.flags[place],
            None => false,
        }
    }
}
