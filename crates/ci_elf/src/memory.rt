//! The memory of all segments: that no two overlap, that it isn't too large, and which segment an
//! address belongs to.
ghost use Rattle.std.specs.Prelude.{◌≡◌, ◌+◌, ◌<◌, ◌≤◌, length, IfOk, MatchOption, MatchResult};
ghost use Rattle.std.specs.List.{Contains, sum_by};
ghost use Rattle.std.specs.List.Sorted.{IsNonDecreasingBy, IsPermutation};
ghost use Rattle.ci_elf.specs.Fields.{e_phnum};
ghost use Rattle.ci_elf.specs.MemoryMap.{most_memory, stack_size};
ghost use Rattle.ci_elf.specs.Rules.{memory_rules};
ghost use Rattle.ci_elf.specs.private.Checks.{HasTables, IsLastBefore, IsTestOf};
ghost use Rattle.ci_elf.specs.private.Parts.{memory_of, parts_below};

use crate::fields::program_count;
use crate::memory_map::{MOST_MEMORY, STACK_SIZE};
use crate::parts::{Part, first_overlap};
use crate::segments::segment_at;
use crate::{ElfFault, Segment};
use std::alloc::{AllocError, Global};

/// The memory of segment `n`, or none where it isn't loadable.
fn memory_part(bytes: &[u8], n: u32) -> Part
    requires tables { HasTables bytes.now }
    requires exists { n < e_phnum bytes.now }
    ensures { result ≡ memory_of bytes.now n }
{
    match segment_at(bytes, n) {
        Some(segment) => segment.memory(),
        None => Part::new(0, 0),
    }
}

/// The memory of each segment, by number; of others than loadable ones no memory.
fn memory_parts(alloc: Global, bytes: &[u8]) -> Result<Vec<Part>, AllocError>
    requires { HasTables bytes.now }
    ensures { IfOk result (λ v. v.items ≡ parts_below (e_phnum bytes.now) (memory_of bytes.now)) }
{
    let mut parts = Vec::new(alloc);
    for n in 0..program_count(bytes) {
        parts.push(memory_part(bytes, n))?;
    }
    Ok(parts)
}

/// That no two segments overlap in memory.
pub(crate) fn check_apart(alloc: Global, bytes: &[u8]) -> Result<(), ElfFault>
    requires { HasTables bytes.now }
    ensures { IsTestOf bytes.now (memory_rules bytes.now) result }
{
    let parts = memory_parts(alloc, bytes)?;
    match first_overlap(alloc, &parts)? {
        Some((m, n)) => Err(ElfFault::Overlap(m, n)),
        None => Ok(()),
    }
}

/// How many bytes of memory the segments have.
fn memory_size(segments: &[Segment]) -> u64
    requires { length segments.now < 65536 }
    ensures { result ≡ sum_by (λ segment. segment.memory_size) segments.now }
{
    segments
        .iter()
        .map(|segment| u64::from(segment.memory_size))
        .sum()
}

/// That segments and stack have no more memory than they may.
pub(crate) fn check_size(segments: &[Segment]) -> Result<(), ElfFault>
    requires { length segments.now < 65536 }
    ensures { MatchResult result (λ _. sum_by (λ s. s.memory_size) segments.now + stack_size ≤ most_memory)
        (λ fault. ¬ (sum_by (λ s. s.memory_size) segments.now + stack_size ≤ most_memory)
        × (fault ≡ ElfFault.TooLarge)) }
{
    if memory_size(segments) > u64::from(MOST_MEMORY - STACK_SIZE) {
        return Err(ElfFault::TooLarge);
    }
    Ok(())
}

/// The segments in the order of their addresses.
pub(crate) fn by_address(alloc: Global, segments: &[Segment]) -> Result<Vec<Segment>, AllocError>
    ensures permutation { IfOk result (λ v. IsPermutation segments.now v.items) }
    ensures order { IfOk result (λ v. IsNonDecreasingBy (λ segment. segment.address) v.items) }
{
    let mut sorted = Vec::from_slice(alloc, segments)?;
    sorted.sort_unstable_by_key(|segment| segment.address);
    Ok(sorted)
}

/// The segment that begins last at or before an address, of segments in the order of their
/// addresses.
pub(crate) fn segment_before(segments: &[Segment], address: u32) -> Option<Segment>
    requires { IsNonDecreasingBy (λ segment. segment.address) segments.now }
    ensures { MatchOption result ((s : _) → Contains segments.now s → address < s.address)
        (IsLastBefore segments.now address) }
{
    let after = segments.partition_point(|segment| segment.address <= address);
    if after == 0 {
        None
    } else {
        Some(segments[after - 1])
    }
}
