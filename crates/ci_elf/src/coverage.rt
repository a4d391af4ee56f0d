//! Which places some parts cover, asked in a time that grows like the logarithm of their number.
ghost use Rattle.std.specs.Prelude.{◌<◌, IfOk};
ghost use Rattle.std.specs.List.Sorted.{IsNonDecreasingBy};
ghost use Rattle.ci_elf.specs.private.Parts.{IsCoverage, IsNext, IsRising};

use crate::parts::Part;
use std::alloc::{AllocError, Global};

/// The parts that have places, each with the places up to the furthest end so far: as they are in
/// the order of their starts, no further places are covered.
fn extended(alloc: Global, sorted: &[Part]) -> Result<Vec<Part>, AllocError>
    requires { IsNonDecreasingBy (λ part. part.start) sorted.now }
    ensures { IfOk result (λ coverage. IsCoverage sorted.now coverage.items) }
{
    let mut coverage = Vec::new(alloc);
    let mut end = 0;
    for part in sorted {
        if part.start < part.end {
            end = part.end.max(end);
            coverage.push(Part {
                start: part.start,
                end,
            })?;
        }
    }
    Ok(coverage)
}

/// What the parts cover, as parts whose starts and ends rise.
pub(crate) fn coverage(alloc: Global, parts: &[Part]) -> Result<Vec<Part>, AllocError>
    ensures { IfOk result (λ coverage. IsCoverage parts.now coverage.items) }
{
    let mut sorted = Vec::from_slice(alloc, parts)?;
    sorted.sort_unstable_by_key(|part| part.start);
    extended(alloc, &sorted)
}

/// The first place from this one on that is covered, or `u64::MAX`.
pub(crate) fn next_covered(coverage: &[Part], place: u64) -> u64
    requires { IsRising coverage.now }
    ensures { IsNext coverage.now place result }
{
    let index = coverage.partition_point(|part| part.end <= place);
    if index < coverage.len() {
        coverage[index].start.max(place)
    } else {
        u64::MAX
    }
}
