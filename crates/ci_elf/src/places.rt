//! The words of a text, and the place of each among all of them.
ghost use Rattle.std.specs.Prelude.{◌≡◌, ◌+◌, ◌-◌, ◌/◌, Some};

use crate::Range;
use crate::ranges::{range_near, range_with};
use std::alloc::{AllocError, Global};
use std::marker::Model;

/// The ranges of a text, in which the place of each word among all words is found: their number from 0, one range
/// behind the other.
#[derive(Drop)]
pub struct Places {
    ranges: Vec<Range>,
    /// The place of each range's first word.
    firsts: Vec<usize>,
    /// How many words there are.
    count: usize,
}

impl Model for Places {
    ghost use Rattle.std.specs.Prelude.{List};
    ghost use Rattle.ci_elf.specs.declared.ranges.Range.{Range as TextRange};
    ghost use Rattle.ci_elf.specs.private.RangeChecks.{AreFirstPlaces};

    ghost Value = { List TextRange };

    ghost view = { λ p. p.ranges.items };

    ghost invariant = { λ p. AreFirstPlaces p.ranges.items p.firsts.items p.count };
}

impl Places {
    ghost use Rattle.std.specs.Prelude.{◌≡◌, IfOk, MatchOption};
    ghost use Rattle.ci_elf.specs.Executables.{HoldsAddress, IsAscending, in_text};
    ghost use Rattle.ci_elf.specs.WordPlaces.{place_in, word_count, word_place};

    /// The places of the words of these ranges, which ascend. An Err is out of memory.
    pub fn new(alloc: Global, text: &[Range]) -> Result<Places, AllocError>
        requires { IsAscending text.now }
        ensures { IfOk result (λ places. places ≡ text.now) }
    {
        let mut firsts = Vec::new(alloc);
        let mut count = 0;
        for range in text {
            prove!(count <= range.start as usize / 4);
            firsts.push(count)?;
            count += range.words as usize;
        }
        Ok(Places {
            ranges: Vec::from_slice(alloc, text)?,
            firsts,
            count,
        })
    }

    /// The ranges.
    pub fn ranges(&self) -> &[Range]
        ensures value { result.now ≡ self.now }
        ensures ascending { IsAscending self.now }
    {
        &self.ranges
    }

    /// How many words there are.
    pub fn len(&self) -> usize
        ensures { result ≡ word_count self.now }
    {
        self.count
    }

    /// Whether the byte at the address is text.
    pub fn in_text(&self, address: u32) -> bool
        ensures { result ≡ in_text self.now address }
    {
        range_with(&self.ranges, address).is_some()
    }

    /// The place of the word that the byte at an address is part of, in the range that has it.
    fn at(&self, index: usize, address: u32) -> usize
        requires { HoldsAddress self.now address index }
        ensures { place_in self.now address ≡ Some result }
    {
        self.firsts[index] + ((address - self.ranges[index].start) / 4) as usize
    }

    /// The place of the word at the address, where that is a multiple of four in the text.
    ///
    /// Range `last` is tried first. Where there is a place, `last` is then the number of the range that has it, and
    /// otherwise it stays.
    pub fn near(&self, last: &mut usize, address: u32) -> Option<usize>
        ensures place { result ≡ word_place self.now address }
        ensures last { MatchOption result (last.new ≡ last.old) (λ _. HoldsAddress self.now address last.new) }
    {
        if address % 4 != 0 {
            return None;
        }
        match range_near(&self.ranges, *last, address) {
            Some(index) => {
                *last = index;
                Some(self.at(index, address))
            }
            None => None,
        }
    }

    /// The place of the word at the address, where that is a multiple of four in the text.
    pub fn of(&self, address: u32) -> Option<usize>
        ensures { result ≡ word_place self.now address }
    {
        let mut first = 0;
        self.near(&mut first, address)
    }
}
