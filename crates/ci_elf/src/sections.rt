//! The rules on each section header.
ghost use Rattle.std.specs.Prelude.{◌≡◌, ◌+◌, ◌*◌, ◌<◌, ◌≤◌, ◌↔◌, [], ◌∷◌, IfOk, IsTrue};
ghost use Rattle.std.specs.List.{Contains};
ghost use Rattle.std.specs.List.Sorted.{IsNonDecreasingBy, IsPermutation};
ghost use Rattle.ci_elf.specs.declared.segments.Segment.{Segment as LoadedSegment};
ghost use Rattle.ci_elf.specs.Fields.{e_shnum, sh_entsize};
ghost use Rattle.ci_elf.specs.Executables.{segments_of};
ghost use Rattle.ci_elf.specs.Rules.{HasSymbols, TextIsAlone, TextIsLoaded, KeepsRules, memory_rules, section_rules};
ghost use Rattle.ci_elf.specs.Rules.{segment_rules};
ghost use Rattle.ci_elf.specs.private.Checks.{HasTables, IsTestOf};
ghost use Rattle.ci_elf.specs.private.Parts.{IsFirstMeeting, part, parts_below, symbols_at, tables_of, text_of};
ghost use Rattle.ci_elf.specs.private.SectionChecks.{AreLaidOut, AreSurroundings, HoldsSection, IsTable, section_of};
ghost use Rattle.ci_elf.specs.private.SectionChecks.{symbol_section, text_section};

use crate::coverage::{coverage, next_covered};
use crate::fields::{
    program_count, program_table, section_count, section_header_at, section_table, section_type,
    word_at,
};
use crate::file_header::lies_in;
use crate::memory::segment_before;
use crate::parts::{Part, first_overlap};
use crate::{ElfFault, Segment};
use std::alloc::{AllocError, Global};

/// Where a section lies in memory and in the file.
#[derive(Clone, Copy)]
pub(crate) struct Section {
    pub address: u32,
    pub offset: u32,
    pub size: u32,
}

impl Section {
    ghost use Rattle.std.specs.Prelude.{◌≡◌, ◌↔◌, IsTrue};
    ghost use Rattle.ci_elf.specs.private.Parts.{part};
    ghost use Rattle.ci_elf.specs.private.SectionChecks.{HoldsSection};

    /// Its part of the file.
    pub(crate) fn file_part(self) -> Part
        ensures { result ≡ part self.offset self.size }
    {
        Part::new(self.offset, self.size)
    }

    /// Whether it lies in the file part of the segment, at the place that its address says.
    fn is_in(self, segment: Segment) -> bool
        ensures { IsTrue result ↔ HoldsSection segment self }
    {
        let agrees = u64::from(self.address) + u64::from(segment.offset)
            == u64::from(segment.address) + u64::from(self.offset);
        let within = self.file_part().end <= segment.file_part().end;
        agrees && within && segment.offset <= self.offset
    }
}

/// Section `n`.
#[tactic(auto, unfolding(crate::proofs::HeaderFields::section_fields))]
fn section_at(bytes: &[u8], n: u32) -> Section
    requires tables { HasTables bytes.now }
    requires exists { n < e_shnum bytes.now }
    ensures { result ≡ section_of bytes.now n }
{
    let header = section_header_at(bytes, n);
    Section {
        address: word_at(bytes, header + 12),
        offset: word_at(bytes, header + 16),
        size: word_at(bytes, header + 20),
    }
}

/// Section `n`, where that is a symbol table.
#[tactic(auto, unfolding(crate::specs::Fields::is_symbol_table))]
fn symbol_table_at(bytes: &[u8], n: u32) -> Option<Section>
    requires tables { HasTables bytes.now }
    requires exists { n < e_shnum bytes.now }
    ensures { result ≡ symbol_section bytes.now n }
{
    if section_type(bytes, n) == 2 {
        Some(section_at(bytes, n))
    } else {
        None
    }
}

/// Section `n`, where that is a text section.
#[tactic(auto, unfolding(crate::specs::Fields::is_text, crate::specs::Fields::sh_flags))]
pub(crate) fn text_at(bytes: &[u8], n: u32) -> Option<Section>
    requires tables { HasTables bytes.now }
    requires exists { n < e_shnum bytes.now }
    ensures { result ≡ text_section bytes.now n }
{
    let section = section_at(bytes, n);
    let flags = word_at(bytes, section_header_at(bytes, n) + 8);
    if section_type(bytes, n) == 1 && flags & 6 == 6 && section.size > 0 {
        Some(section)
    } else {
        None
    }
}

/// The file part of section `n` where that is text, or none.
fn text_part(bytes: &[u8], n: u32) -> Part
    requires tables { HasTables bytes.now }
    requires exists { n < e_shnum bytes.now }
    ensures { result ≡ text_of bytes.now n }
{
    match text_at(bytes, n) {
        Some(text) => text.file_part(),
        None => Part::new(0, 0),
    }
}

/// The file part of each text section, by number.
pub(crate) fn text_parts(alloc: Global, bytes: &[u8]) -> Result<Vec<Part>, AllocError>
    requires { HasTables bytes.now }
    ensures { IfOk result (λ v. v.items ≡ parts_below (e_shnum bytes.now) (text_of bytes.now)) }
{
    let mut parts = Vec::new(alloc);
    for n in 0..section_count(bytes) {
        parts.push(text_part(bytes, n))?;
    }
    Ok(parts)
}

/// The file part of section `n` where that is a symbol table, or none.
pub(crate) fn symbol_part(bytes: &[u8], n: u32) -> Part
    requires tables { HasTables bytes.now }
    requires exists { n < e_shnum bytes.now }
    ensures { result ≡ symbols_at bytes.now n }
{
    match symbol_table_at(bytes, n) {
        Some(table) => table.file_part(),
        None => Part::new(0, 0),
    }
}

/// The file header, both tables of headers, and the symbol tables.
fn table_parts(alloc: Global, bytes: &[u8]) -> Result<Vec<Part>, AllocError>
    requires { HasTables bytes.now }
    ensures { IfOk result (λ v. v.items ≡ tables_of bytes.now) }
{
    let mut parts = vec![in alloc;
        Part::new(0, 52),
        Part::new(program_table(bytes), 32 * program_count(bytes)),
        Part::new(section_table(bytes), 40 * section_count(bytes)),
    ]?;
    for n in 0..section_count(bytes) {
        parts.push(symbol_part(bytes, n))?;
    }
    Ok(parts)
}

/// What the text of a section is compared with.
#[derive(Drop)]
struct Surroundings {
    /// What the headers and the symbol tables cover.
    tables: Vec<Part>,
    /// The first section whose text meets that of an earlier one, or how many sections there are.
    first_meeting: u32,
}

/// The first section whose text meets that of an earlier one, or how many sections there are.
fn first_meeting(alloc: Global, bytes: &[u8]) -> Result<u32, AllocError>
    requires { HasTables bytes.now }
    ensures { IfOk result (IsFirstMeeting bytes.now) }
{
    let texts = text_parts(alloc, bytes)?;
    match first_overlap(alloc, &texts)? {
        Some((_, n)) => Ok(n),
        None => Ok(section_count(bytes)),
    }
}

/// What is compared with each section.
fn surroundings_of(alloc: Global, bytes: &[u8]) -> Result<Surroundings, AllocError>
    requires { HasTables bytes.now }
    ensures { IfOk result (AreSurroundings bytes.now) }
{
    let tables = table_parts(alloc, bytes)?;
    Ok(Surroundings {
        tables: coverage(alloc, &tables)?,
        first_meeting: first_meeting(alloc, bytes)?,
    })
}

/// That section `n`, where it is a symbol table, lies in the file, as entries of 16 bytes.
fn check_symbols(bytes: &[u8], n: u32) -> Result<(), ElfFault>
    requires tables { HasTables bytes.now }
    requires exists { n < e_shnum bytes.now }
    ensures { IsTestOf bytes.now (HasSymbols n ∷ []) result }
{
    let Some(table) = symbol_table_at(bytes, n) else {
        return Ok(());
    };
    if is_symbol_table(bytes, table, entry_size(bytes, n)) {
        Ok(())
    } else {
        Err(ElfFault::BadSection(n))
    }
}

/// The size of an entry of section `n`.
#[tactic(auto, unfolding(crate::specs::Fields::sh_entsize))]
fn entry_size(bytes: &[u8], n: u32) -> u32
    requires tables { HasTables bytes.now }
    requires exists { n < e_shnum bytes.now }
    ensures { result ≡ sh_entsize bytes.now n }
{
    word_at(bytes, section_header_at(bytes, n) + 36)
}

/// Whether a symbol table lies in the file, as whole entries of 16 bytes.
fn is_symbol_table(bytes: &[u8], table: Section, entry_size: u32) -> bool
    ensures { IsTrue result ↔ IsTable bytes.now table entry_size }
{
    let in_file = lies_in(bytes, table.offset, table.size);
    in_file && entry_size == 16 && table.size % 16 == 0
}

/// Whether a text section is loaded, at the address that it says.
fn is_loaded(segments: &[Segment], text: Section) -> bool
    requires order { IsNonDecreasingBy (λ segment. segment.address) segments.now }
    requires layout { AreLaidOut segments.now }
    requires size { 0 < text.size }
    ensures { IsTrue result ↔ ((s : LoadedSegment) × Contains segments.now s × HoldsSection s text) }
{
    match segment_before(segments, text.address) {
        Some(segment) => text.is_in(segment),
        None => false,
    }
}

/// That section `n`, where it is text, is loaded by one of these segments, which are in the order of their addresses.
fn check_loaded(bytes: &[u8], n: u32, segments: &[Segment]) -> Result<(), ElfFault>
    requires tables { HasTables bytes.now }
    requires exists { n < e_shnum bytes.now }
    requires placed { KeepsRules bytes.now (segment_rules bytes.now) }
    requires memory { KeepsRules bytes.now (memory_rules bytes.now) }
    requires order { IsNonDecreasingBy (λ segment. segment.address) segments.now }
    requires same { IsPermutation (segments_of bytes.now) segments.now }
    ensures { IsTestOf bytes.now (TextIsLoaded n ∷ []) result }
{
    let Some(text) = text_at(bytes, n) else {
        return Ok(());
    };
    if is_loaded(segments, text) {
        Ok(())
    } else {
        Err(ElfFault::BadSection(n))
    }
}

/// That section `n`, where it is text, meets no headers, no symbol table and no earlier text.
fn check_alone(bytes: &[u8], n: u32, surroundings: &Surroundings) -> Result<(), ElfFault>
    requires tables { HasTables bytes.now }
    requires exists { n < e_shnum bytes.now }
    requires surroundings { AreSurroundings bytes.now surroundings.now }
    requires before { n ≤ surroundings.now.first_meeting }
    ensures { IsTestOf bytes.now (TextIsAlone n ∷ []) result }
{
    let Some(text) = text_at(bytes, n) else {
        return Ok(());
    };
    let part = text.file_part();
    let next = next_covered(&surroundings.tables, part.start);
    if next < part.end {
        return Err(ElfFault::BadSection(n));
    }
    if n == surroundings.first_meeting {
        return Err(ElfFault::BadSection(n));
    }
    Ok(())
}

/// The rules on section header `n`.
fn check_section(
    bytes: &[u8],
    n: u32,
    segments: &[Segment],
    surroundings: &Surroundings,
) -> Result<(), ElfFault>
    requires tables { HasTables bytes.now }
    requires exists { n < e_shnum bytes.now }
    requires placed { KeepsRules bytes.now (segment_rules bytes.now) }
    requires memory { KeepsRules bytes.now (memory_rules bytes.now) }
    requires order { IsNonDecreasingBy (λ segment. segment.address) segments.now }
    requires same { IsPermutation (segments_of bytes.now) segments.now }
    requires surroundings { AreSurroundings bytes.now surroundings.now }
    requires before { n ≤ surroundings.now.first_meeting }
    ensures { IsTestOf bytes.now (HasSymbols n ∷ TextIsLoaded n ∷ TextIsAlone n ∷ []) result }
{
    check_symbols(bytes, n)?;
    check_loaded(bytes, n, segments)?;
    check_alone(bytes, n, surroundings)
}

/// The rules on each section header, by the segments in the order of their addresses.
pub(crate) fn check_sections(
    alloc: Global,
    bytes: &[u8],
    segments: &[Segment],
) -> Result<(), ElfFault>
    requires tables { HasTables bytes.now }
    requires placed { KeepsRules bytes.now (segment_rules bytes.now) }
    requires memory { KeepsRules bytes.now (memory_rules bytes.now) }
    requires order { IsNonDecreasingBy (λ segment. segment.address) segments.now }
    requires same { IsPermutation (segments_of bytes.now) segments.now }
    ensures { IsTestOf bytes.now (section_rules bytes.now) result }
{
    let surroundings = surroundings_of(alloc, bytes)?;
    for n in 0..section_count(bytes) {
        check_section(bytes, n, segments, &surroundings)?;
    }
    Ok(())
}
