//! The ranges of the text.
ghost use Rattle.std.specs.Prelude.{◌≡◌, ◌+◌, ◌-◌, ◌*◌, ◌/◌, ◌%◌, ◌<◌, ◌≤◌, length, IfOk, MatchOption, MatchResult};
ghost use Rattle.std.specs.List.{sum_by};
ghost use Rattle.ci_elf.specs.Fields.{e_shnum};
ghost use Rattle.ci_elf.specs.Executables.{HoldsAddress, InText, IsAscending, IsTextWord, ranges_of};
ghost use Rattle.ci_elf.specs.MemoryMap.{memory_top};
ghost use Rattle.ci_elf.specs.Rules.{KeepsRules, section_rules, segment_rules};
ghost use Rattle.ci_elf.specs.private.Checks.{HasTables};
ghost use Rattle.ci_elf.specs.private.RangeChecks.{range_at, words_of};

use crate::ElfFault;
use crate::fields::section_count;
use crate::sections::{Section, text_at};
use std::alloc::{AllocError, Global};

/// Whole words of the text, one behind the other.
#[derive(Clone, Copy, PartialEq, Eq)]
pub struct Range {
    /// The address of the first word.
    pub start: u32,
    /// How many words there are.
    pub words: u32,
}

impl Range {
    ghost use Rattle.ci_elf.specs.Executables.{has_byte};

    /// Whether the byte at the address is one of the range's.
    fn has_byte(&self, address: u32) -> bool
        ensures { result ≡ has_byte self.now address }
    {
        self.start <= address && (address - self.start) / 4 < self.words
    }
}

/// The most words that a text may have.
const MOST_WORDS: u64 = 262_144;

/// The whole words at multiples of four in a section.
fn words_in(section: Section) -> Range
    requires { section.address + section.size ≤ memory_top }
    ensures { result ≡ words_of section }
{
    let first = (section.address + 3) / 4;
    let end = (section.address + section.size) / 4;
    Range {
        start: first * 4,
        words: end.saturating_sub(first),
    }
}

/// The range of section `n`, where it is text that has a whole word.
fn range_of_section(bytes: &[u8], n: u32) -> Option<Range>
    requires tables { HasTables bytes.now }
    requires exists { n < e_shnum bytes.now }
    requires segments { KeepsRules bytes.now (segment_rules bytes.now) }
    requires sections { KeepsRules bytes.now (section_rules bytes.now) }
    ensures { result ≡ range_at bytes.now n }
{
    let text = text_at(bytes, n)?;
    let range = words_in(text);
    if range.words > 0 { Some(range) } else { None }
}

/// The ranges of the text, in the order of the section headers.
pub(crate) fn text_ranges(alloc: Global, bytes: &[u8]) -> Result<Vec<Range>, AllocError>
    requires tables { HasTables bytes.now }
    requires segments { KeepsRules bytes.now (segment_rules bytes.now) }
    requires sections { KeepsRules bytes.now (section_rules bytes.now) }
    ensures { IfOk result (λ v. v.items ≡ ranges_of bytes.now) }
{
    let mut ranges = Vec::new(alloc);
    for n in 0..section_count(bytes) {
        if let Some(range) = range_of_section(bytes, n) {
            ranges.push(range)?;
        }
    }
    Ok(ranges)
}

/// How many words the ranges have.
fn word_count(ranges: &[Range]) -> u64
    requires { length ranges.now < 65536 }
    ensures { result ≡ sum_by (λ range. range.words) ranges.now }
{
    ranges.iter().map(|range| u64::from(range.words)).sum()
}

/// That the text has no more words than it may.
pub(crate) fn check_text_size(ranges: &[Range]) -> Result<(), ElfFault>
    requires { length ranges.now < 65536 }
    ensures { MatchResult result (λ _. sum_by (λ r. r.words) ranges.now ≤ 262144)
        (λ fault. ¬ (sum_by (λ r. r.words) ranges.now ≤ 262144) × (fault ≡ ElfFault.TooLarge)) }
{
    if word_count(ranges) > MOST_WORDS {
        return Err(ElfFault::TooLarge);
    }
    Ok(())
}

/// The number of the range that an address lies in, of ranges in the order of their addresses.
pub fn range_with(ranges: &[Range], address: u32) -> Option<usize>
    requires { IsAscending ranges.now }
    ensures { MatchOption result (¬ (InText ranges.now address)) (HoldsAddress ranges.now address) }
{
    let after = ranges.partition_point(|range| range.start <= address);
    if after == 0 {
        return None;
    }
    let range = ranges[after - 1];
    if (address - range.start) / 4 < range.words {
        Some(after - 1)
    } else {
        None
    }
}

/// The same, where range `last` is tried first.
pub(crate) fn range_near(ranges: &[Range], last: usize, address: u32) -> Option<usize>
    requires { IsAscending ranges.now }
    ensures { MatchOption result (¬ (InText ranges.now address)) (HoldsAddress ranges.now address) }
{
    if last < ranges.len() && ranges[last].has_byte(address) {
        return Some(last);
    }
    range_with(ranges, address)
}

/// That the entry is a multiple of four in text.
pub(crate) fn check_entry(ranges: &[Range], entry: u32) -> Result<(), ElfFault>
    requires { IsAscending ranges.now }
    ensures { MatchResult result (λ _. IsTextWord ranges.now entry)
        (λ fault. ¬ (IsTextWord ranges.now entry) × (fault ≡ ElfFault.EntryNotText)) }
{
    if entry % 4 != 0 {
        return Err(ElfFault::EntryNotText);
    }
    match range_with(ranges, entry) {
        Some(_) => Ok(()),
        None => Err(ElfFault::EntryNotText),
    }
}
