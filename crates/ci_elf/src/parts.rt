//! Parts of a file or of memory, and which of them overlap.
ghost use Rattle.std.specs.Prelude.{◌≡◌, ℕ, ◌+◌, ◌<◌, ◌≤◌, ◌↔◌, IsTrue, IfOk, MatchOption, length, take};
ghost use Rattle.std.specs.List.Sorted.{IsNonDecreasingBy};
ghost use Rattle.ci_elf.specs.private.Parts.{Overlap, OverlapAt, AreApart, AreApartAt, IsFirstOverlap};

use std::alloc::{AllocError, Global};

/// The places from `start` up to `end`: bytes of a file, or addresses.
#[derive(Clone, Copy)]
pub(crate) struct Part {
    pub start: u64,
    pub end: u64,
}

impl Part {
    ghost use Rattle.ci_elf.specs.private.Parts.{IsWidened, Overlap, part};

    /// The part of this size.
    pub(crate) fn new(start: u32, size: u32) -> Self
        ensures { result ≡ part start size }
    {
        let start = u64::from(start);
        Part {
            start,
            end: start + u64::from(size),
        }
    }

    /// From the first place of the two to the last, where the other has places.
    pub(crate) fn widened(self, other: Part) -> Self
        ensures { IsWidened self other result }
    {
        if other.start < other.end {
            Part {
                start: self.start.min(other.start),
                end: self.end.max(other.end),
            }
        } else {
            self
        }
    }

    /// Whether the two share a place.
    pub(crate) fn overlaps(self, other: Part) -> bool
        ensures { IsTrue result ↔ Overlap self other }
    {
        self.start.max(other.start) < self.end.min(other.end)
    }
}

/// Whether no two of these parts overlap, which are in order of their starts.
fn are_apart(parts: &[Part]) -> bool
    requires { IsNonDecreasingBy (λ part. part.start) parts.now }
    ensures { IsTrue result ↔ AreApart parts.now }
{
    let mut end = 0;
    for part in parts {
        if part.start < part.end {
            if part.start < end {
                return false;
            }
            end = part.end;
        }
    }
    true
}

/// Whether no two of the parts overlap.
fn is_disjoint(alloc: Global, parts: &[Part]) -> Result<bool, AllocError>
    ensures { IfOk result (λ disjoint. IsTrue disjoint ↔ AreApart parts.now) }
{
    let mut sorted = Vec::from_slice(alloc, parts)?;
    sorted.sort_unstable_by_key(|part| part.start);
    Ok(are_apart(&sorted))
}

/// How many parts from the front on don't overlap, of parts of which some do.
fn disjoint_front(alloc: Global, parts: &[Part]) -> Result<usize, AllocError>
    requires { ¬ (AreApart parts.now) }
    ensures below { IfOk result (λ n. n < length parts.now) }
    ensures apart { IfOk result (λ n. AreApart (take n parts.now)) }
    ensures next { IfOk result (λ n. ¬ (AreApart (take (n + 1) parts.now))) }
{
    let mut low = 0;
    let mut high = parts.len();
    while low + 1 < high {
        let middle = low + (high - low) / 2;
        if is_disjoint(alloc, &parts[..middle])? {
            low = middle;
        } else {
            high = middle;
        }
    }
    Ok(low)
}

/// The first part that overlaps part `n`, or `n` where none before it does.
fn first_overlapping(parts: &[Part], n: usize) -> usize
    requires { n < length parts.now }
    ensures within { result ≤ n }
    ensures overlapping { result < n → OverlapAt parts.now result n }
    ensures apart { (k : ℕ) → k < result → AreApartAt parts.now k n }
{
    for k in 0..n {
        if parts[k].overlaps(parts[n]) {
            return k;
        }
    }
    n
}

/// The first two parts that overlap: the later one is the first that overlaps an earlier one, which
/// is the first of these.
pub(crate) fn first_overlap(alloc: Global, parts: &[Part]) -> Result<Option<(u32, u32)>, AllocError>
    requires { length parts.now < 65536 }
    ensures { IfOk result (λ found. MatchOption found (AreApart parts.now)
        (λ pair. IsFirstOverlap parts.now pair.0 pair.1)) }
{
    if is_disjoint(alloc, parts)? {
        return Ok(None);
    }
    let later = disjoint_front(alloc, parts)?;
    let earlier = first_overlapping(parts, later);
    Ok(Some((earlier as u32, later as u32)))
}
