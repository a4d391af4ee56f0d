//! From the bytes of a file to its image.
ghost use Rattle.std.specs.Prelude.{◌≡◌, ◌≤◌, ◌++◌, [], ◌∷◌, length, IfOk};
ghost use Rattle.std.specs.List.Sorted.{IsNonDecreasingBy, IsPermutation};
ghost use Rattle.ci_elf.specs.Executables.{IsAscending, ranges_of, segments_of};
ghost use Rattle.ci_elf.specs.Rules.{EntryIsText, IsReadAs, KeepsRules, MemoryIsBounded, TextIsBounded};
ghost use Rattle.ci_elf.specs.Rules.{file_header_rules, kind_rules, memory_rules, section_rules, segment_rules};
ghost use Rattle.ci_elf.specs.Rules.{sharing_rules, table_rules};
ghost use Rattle.ci_elf.specs.private.Checks.{HasTables, IsTestOf};

use crate::fields::entry;
use crate::file_header::{check_file_header, check_kind, check_tables};
use crate::memory::{by_address, check_apart, check_size};
use crate::ranges::{check_entry, check_text_size, text_ranges};
use crate::sections::check_sections;
use crate::segments::{check_segments, segments_of};
use crate::sharing::check_sharing;
use crate::symbols::symbol_values;
use crate::{ElfFault, Image, Range, Segment};
use std::alloc::Global;

/// The rules on the file header and the tables of headers.
fn check_headers(bytes: &[u8]) -> Result<(), ElfFault>
    requires { length bytes.now ≤ 268435456 }
    ensures { IsTestOf bytes.now (file_header_rules ++ (kind_rules ++ table_rules)) result }
{
    check_file_header(bytes)?;
    check_kind(bytes)?;
    check_tables(bytes)
}

/// The rule on the size of the memory, and the segments.
fn checked_segments(alloc: Global, bytes: &[u8]) -> Result<Vec<Segment>, ElfFault>
    requires { HasTables bytes.now }
    ensures test { IsTestOf bytes.now (MemoryIsBounded ∷ []) result }
    ensures value { IfOk result (λ v. v.items ≡ segments_of bytes.now) }
{
    let segments = segments_of(alloc, bytes)?;
    check_size(&segments)?;
    Ok(segments)
}

/// The rules on the segments, which are handed out.
fn check_loading(alloc: Global, bytes: &[u8]) -> Result<Vec<Segment>, ElfFault>
    requires { HasTables bytes.now }
    ensures test { IsTestOf bytes.now
        (segment_rules bytes.now ++ (memory_rules bytes.now ++ MemoryIsBounded ∷ [])) result }
    ensures value { IfOk result (λ v. v.items ≡ segments_of bytes.now) }
{
    check_segments(bytes)?;
    check_apart(alloc, bytes)?;
    checked_segments(alloc, bytes)
}

/// The rules on the sections, by the segments in the order of their addresses.
fn check_texts(alloc: Global, bytes: &[u8], segments: &[Segment]) -> Result<(), ElfFault>
    requires tables { HasTables bytes.now }
    requires placed { KeepsRules bytes.now (segment_rules bytes.now) }
    requires memory { KeepsRules bytes.now (memory_rules bytes.now) }
    requires order { IsNonDecreasingBy (λ segment. segment.address) segments.now }
    requires same { IsPermutation (segments_of bytes.now) segments.now }
    ensures { IsTestOf bytes.now (section_rules bytes.now ++ sharing_rules bytes.now) result }
{
    check_sections(alloc, bytes, segments)?;
    check_sharing(alloc, bytes)
}

/// The rules on the text as a whole, whose ranges are handed out by address.
fn checked_ranges(alloc: Global, bytes: &[u8]) -> Result<Vec<Range>, ElfFault>
    requires tables { HasTables bytes.now }
    requires placed { KeepsRules bytes.now (segment_rules bytes.now) }
    requires memory { KeepsRules bytes.now (memory_rules bytes.now) }
    requires sections { KeepsRules bytes.now (section_rules bytes.now) }
    ensures test { IsTestOf bytes.now (TextIsBounded ∷ EntryIsText ∷ []) result }
    ensures same { IfOk result (λ v. IsPermutation (ranges_of bytes.now) v.items) }
    ensures ascending { IfOk result (λ v. IsAscending v.items) }
{
    let mut ranges = text_ranges(alloc, bytes)?;
    check_text_size(&ranges)?;
    ranges.sort_unstable_by_key(|range| range.start);
    check_entry(&ranges, entry(bytes))?;
    Ok(ranges)
}

/// The image of an executable file, of which the image holds a copy.
///
/// Errors: the fault of the first rule that the file breaks, or `NoMemory`.
pub fn read(alloc: Global, bytes: &[u8]) -> Result<Image, ElfFault>
    requires { length bytes.now ≤ 268435456 }
    ensures { IsReadAs bytes.now result }
{
    let copy = Vec::from_slice(alloc, bytes)?;
    read_vec(alloc, copy)
}

/// The image of an executable file, whose bytes become the image's own.
///
/// Errors: the fault of the first rule that the file breaks, or `NoMemory`.
pub fn read_vec(alloc: Global, bytes: Vec<u8>) -> Result<Image, ElfFault>
    requires { length bytes.items ≤ 268435456 }
    ensures { IsReadAs bytes.items result }
{
    let file = bytes.as_slice();
    check_headers(file)?;
    let segments = check_loading(alloc, file)?;
    let by_address = by_address(alloc, &segments)?;
    check_texts(alloc, file, &by_address)?;
    let ranges = checked_ranges(alloc, file)?;
    let symbols = symbol_values(alloc, file)?;
    let entry = entry(file);
    let image = Image::new(bytes, entry, segments, ranges, symbols, by_address);
    Ok(image)
}
