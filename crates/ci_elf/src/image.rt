//! An executable file and what it means.
ghost use Rattle.std.specs.Prelude.{◌≡◌, ◌+◌, ◌≤◌, length, MatchOption, IsTrue};
ghost use Rattle.std.specs.List.{Contains};
ghost use Rattle.std.specs.List.Sorted.{IsNonDecreasingBy};
ghost use Rattle.ci_elf.specs.Executables.{has_in_file};
ghost use Rattle.ci_elf.specs.TextChanges.{with_word};
ghost use Rattle.ci_elf.specs.private.SectionChecks.{AreLaidOut};
ghost use Rattle.ci_elf.specs.private.LoadedPlaces.{IsLoadedFrom};

use crate::fields::word_at;
use crate::memory::segment_before;
use crate::ranges::range_with;
use crate::{Range, Segment};
use byteorder::{ByteOrder, LittleEndian};
use std::alloc::{AllocError, Global};
use std::marker::Model;

/// An executable file that keeps all rules, and what it means.
#[derive(Drop)]
pub struct Image {
    bytes: Vec<u8>,
    entry: u32,
    segments: Vec<Segment>,
    ranges: Vec<Range>,
    symbols: Vec<u32>,
    /// The segments in the order of their addresses.
    by_address: Vec<Segment>,
}

impl Model for Image {
    ghost use Rattle.ci_elf.specs.Executables.{Executable, executable};
    ghost use Rattle.ci_elf.specs.private.LoadedPlaces.{IsSound};

    ghost Value = { Executable };

    ghost view = { λ i. executable i.bytes.items i.entry i.segments.items i.ranges.items i.symbols.items };

    ghost invariant = { λ i. IsSound
        (executable i.bytes.items i.entry i.segments.items i.ranges.items i.symbols.items) i.by_address.items };
}

/// Where in the file the byte at an address stands, if a segment loads it, of segments in the order
/// of their addresses.
fn loaded_place(segments: &[Segment], address: u32) -> Option<usize>
    requires order { IsNonDecreasingBy (λ segment. segment.address) segments.now }
    requires layout { AreLaidOut segments.now }
    ensures { MatchOption result ((s : _) → Contains segments.now s → ¬ IsTrue (has_in_file s address))
        (IsLoadedFrom segments.now address) }
{
    let segment = segment_before(segments, address)?;
    let distance = address - segment.address;
    if distance < segment.file_size {
        Some(segment.offset as usize + distance as usize)
    } else {
        None
    }
}

/// Writes a word into bytes.
fn write_word(bytes: &mut [u8], place: usize, word: u32)
    requires { place + 4 ≤ length bytes.old }
    ensures { bytes.new ≡ with_word bytes.old place word }
{
    LittleEndian::write_u32(&mut bytes[place..], word);
}

impl Image {
    ghost use Rattle.std.specs.Prelude.{◌≡◌, ℕ, ◌+◌, ◌≤◌, ◌↔◌, length, Some, IfOk, IfSome, IsTrue};
    ghost use Rattle.std.specs.List.Sorted.{IsNonDecreasingBy, IsPermutation};
    ghost use Rattle.ci_elf.specs.Executables.{executable, place_of, text_word};
    ghost use Rattle.ci_elf.specs.TextChanges.{with_word};
    ghost use Rattle.ci_elf.specs.Executables.{InText, IsLoaded, IsTextWord, IsWellFormed};

    /// The image of these parts.
    pub(crate) fn new(
        bytes: Vec<u8>,
        entry: u32,
        segments: Vec<Segment>,
        ranges: Vec<Range>,
        symbols: Vec<u32>,
        by_address: Vec<Segment>,
    ) -> Self
        requires well_formed { IsWellFormed
            (executable bytes.items entry segments.items ranges.items symbols.items) }
        requires order { IsNonDecreasingBy (λ segment. segment.address) by_address.items }
        requires same { IsPermutation segments.items by_address.items }
        ensures { result ≡ executable bytes.items entry segments.items ranges.items symbols.items }
    {
        Image {
            bytes,
            entry,
            segments,
            ranges,
            symbols,
            by_address,
        }
    }

    /// The bytes of the file.
    pub fn bytes(&self) -> &[u8]
        ensures { result.now ≡ self.now.bytes }
    {
        &self.bytes
    }

    /// The bytes of the file, without a copy.
    pub fn into_bytes(self) -> Vec<u8>
        ensures { result.items ≡ self.bytes }
    {
        self.bytes
    }

    /// The address of the first instruction.
    pub fn entry(&self) -> u32
        ensures { result ≡ self.now.entry }
    {
        self.entry
    }

    /// The loadable segments that have memory, in the order of the program headers.
    pub fn segments(&self) -> &[Segment]
        ensures value { result.now ≡ self.now.segments }
        ensures well_formed { IsWellFormed self.now }
    {
        &self.segments
    }

    /// The same segments, in the order of their addresses.
    pub fn segments_by_address(&self) -> &[Segment]
        ensures order { IsNonDecreasingBy (λ segment. segment.address) result.now }
        ensures same { IsPermutation self.now.segments result.now }
        ensures well_formed { IsWellFormed self.now }
    {
        &self.by_address
    }

    /// The ranges of the text, by address.
    pub fn ranges(&self) -> &[Range]
        ensures value { result.now ≡ self.now.ranges }
        ensures well_formed { IsWellFormed self.now }
    {
        &self.ranges
    }

    /// The values of the symbols, in the order of the file's tables. An entry that several tables have counts once, at
    /// the first of them.
    pub fn symbols(&self) -> &[u32]
        ensures { result.now ≡ self.now.symbols }
    {
        &self.symbols
    }

    /// Whether the byte at the address is text.
    pub fn in_text(&self, address: u32) -> bool
        ensures { IsTrue result ↔ InText self.now.ranges address }
    {
        range_with(&self.ranges, address).is_some()
    }

    /// The byte that a segment loads from the file to an address.
    pub fn loaded_byte(&self, address: u32) -> Option<u8>
        ensures found { IfSome result (λ byte. IsLoaded self.now address byte) }
        ensures only { (byte : ℕ) → IsLoaded self.now address byte → result ≡ Some byte }
    {
        let place = loaded_place(&self.by_address, address)?;
        Some(self.bytes[place])
    }

    /// Where in the file a word of the text stands.
    fn place(&self, address: u32) -> usize
        requires { IsTextWord self.now.ranges address }
        ensures place { result ≡ place_of self.now.segments address }
        ensures within { result + 4 ≤ length self.now.bytes }
    {
        match loaded_place(&self.by_address, address) {
            Some(place) => place,
            None => unreachable!(),
        }
    }

    /// The word of the text at an address, a multiple of four in text.
    pub fn word(&self, address: u32) -> u32
        requires { IsTextWord self.now.ranges address }
        ensures { result ≡ text_word self.now address }
    {
        let place = self.place(address);
        word_at(&self.bytes, place)
    }

    /// Writes a word of the text into the file, at an address, a multiple of four in text.
    pub fn patch(&mut self, address: u32, word: u32)
        requires { IsTextWord self.old.ranges address }
        ensures { self.new ≡ record self.old {
          bytes = with_word self.old.bytes (place_of self.old.segments address) word;
        } }
    {
        let place = self.place(address);
        write_word(&mut self.bytes, place, word);
    }

    /// An equal image.
    pub fn duplicate(&self, alloc: Global) -> Result<Image, AllocError>
        ensures { IfOk result (λ image. image ≡ self.now) }
    {
        Ok(Image {
            bytes: Vec::from_slice(alloc, &self.bytes)?,
            entry: self.entry,
            segments: Vec::from_slice(alloc, &self.segments)?,
            ranges: Vec::from_slice(alloc, &self.ranges)?,
            symbols: Vec::from_slice(alloc, &self.symbols)?,
            by_address: Vec::from_slice(alloc, &self.by_address)?,
        })
    }
}
