//! The entries of a book.
ghost use Rattle.std.specs.Prelude.{◌≡◌, ◌≤◌, length, IfOk};
ghost use Rattle.ci_reading.specs.LineReading.{with_front};
ghost use Rattle.ci_log.specs.private.Reading.{Gives};
ghost use Rattle.ci_log.specs.private.BookReading.{best, without, spent, search, take, searches, rounds, finish};

use crate::book::{Entry, Finish, Version};
use crate::cuts::nodes;
use crate::faults::Failure;
use crate::trees::tree_line;
use ci_reading::{Numbers, address, begins_with, number, word};
use std::alloc::Global;

/// A budget: at most seven digits.
const BUDGETS: Numbers = Numbers {
    low: 0,
    high: 9_999_999,
    end: b'\n',
    listed: false,
};

/// A unit's number.
const UNITS: Numbers = Numbers {
    low: 0,
    high: 31,
    end: b'\n',
    listed: false,
};

/// What stands behind the leader of a search that found a cut.
#[tactic(auto, unfolding(crate::specs::private::BookReading::best))]
fn best(
    version: Version,
    alloc: Global,
    leader: u32,
    bytes: &[u8],
) -> Result<(Entry, &[u8]), Failure>
    requires { length bytes.now ≤ 268435456 }
    ensures { Gives (λ x. (x.0, x.1.now)) result (best version leader bytes.now) }
{
    let rest = word(bytes, b"best ")?;
    let (cut, rest) = match nodes(rest) {
        Ok(read) => read,
        Err(failure) => return Err(failure),
    };
    let (log, rest) = match tree_line(version, alloc, rest) {
        Ok(read) => read,
        Err(failure) => return Err(failure),
    };
    Ok((Entry::Best { leader, cut, log }, rest))
}

/// What stands behind the leader of a search that found no cut.
#[tactic(auto, unfolding(crate::specs::private::BookReading::without))]
fn without(
    version: Version,
    alloc: Global,
    leader: u32,
    bytes: &[u8],
) -> Result<(Entry, &[u8]), Failure>
    requires { length bytes.now ≤ 268435456 }
    ensures { Gives (λ x. (x.0, x.1.now)) result (without version leader bytes.now) }
{
    let rest = word(bytes, b"none\n")?;
    let (log, rest) = match tree_line(version, alloc, rest) {
        Ok(read) => read,
        Err(failure) => return Err(failure),
    };
    Ok((Entry::Without { leader, log }, rest))
}

/// What stands behind the leader of a search that needs more than its budget.
#[tactic(auto, unfolding(crate::specs::private::BookReading::spent))]
fn spent(leader: u32, bytes: &[u8]) -> Result<(Entry, &[u8]), Failure>
    ensures { Gives (λ x. (x.0, x.1.now)) result (spent leader bytes.now) }
{
    let rest = word(bytes, b"spent ")?;
    let (budget, _, rest) = number(rest, BUDGETS)?;
    Ok((Entry::Spent { leader, budget }, rest))
}

/// A search.
#[tactic(auto, unfolding(crate::specs::private::BookReading::search))]
fn search(version: Version, alloc: Global, bytes: &[u8]) -> Result<(Entry, &[u8]), Failure>
    requires { length bytes.now ≤ 268435456 }
    ensures { Gives (λ x. (x.0, x.1.now)) result (search version bytes.now) }
{
    let rest = word(bytes, b"block ")?;
    let (leader, rest) = address(rest)?;
    let rest = word(rest, b" ")?;
    if begins_with(rest, b'b') {
        best(version, alloc, leader, rest)
    } else if begins_with(rest, b'n') {
        without(version, alloc, leader, rest)
    } else {
        spent(leader, rest)
    }
}

/// A take.
#[tactic(auto, unfolding(crate::specs::private::BookReading::take))]
fn take(bytes: &[u8]) -> Result<(Entry, &[u8]), Failure>
    ensures { Gives (λ x. (x.0, x.1.now)) result (take bytes.now) }
{
    let rest = word(bytes, b"take ")?;
    let (leader, rest) = address(rest)?;
    let rest = word(rest, b" unit ")?;
    let (unit, _, rest) = number(rest, UNITS)?;
    let unit = unit as u8;
    Ok((Entry::Take { leader, unit }, rest))
}

/// All searches before the first take.
pub(crate) fn searches(
    version: Version,
    alloc: Global,
    bytes: &[u8],
) -> Result<(Vec<Entry>, &[u8]), Failure>
    requires { length bytes.now ≤ 268435456 }
    ensures entries { Gives (λ x. (x.0.items, x.1.now)) result (searches version bytes.now) }
    ensures left { IfOk result (λ x. length x.1.now ≤ length bytes.now) }
{
    let mut entries = Vec::new(alloc);
    let mut rest = bytes;
    while begins_with(rest, b'b') {
        let (entry, after) = search(version, alloc, rest)?;
        entries.push(entry)?;
        rest = after;
    }
    Ok((entries, rest))
}

/// All takes, each with the search that follows it, behind these entries.
pub(crate) fn rounds<'a>(
    entries: Vec<Entry>,
    version: Version,
    alloc: Global,
    bytes: &'a [u8],
) -> Result<(Vec<Entry>, &'a [u8]), Failure>
    requires { length bytes.now ≤ 268435456 }
    ensures entries { Gives (λ x. (x.0.items, x.1.now)) result (with_front entries.items (rounds version bytes.now)) }
    ensures left { IfOk result (λ x. length x.1.now ≤ length bytes.now) }
{
    let mut entries = entries;
    let mut rest = bytes;
    while begins_with(rest, b't') {
        let (take, after) = take(rest)?;
        let (search, after) = search(version, alloc, after)?;
        entries.push(take)?;
        entries.push(search)?;
        rest = after;
    }
    Ok((entries, rest))
}

/// The finish.
#[tactic(auto, unfolding(crate::specs::private::BookReading::finish))]
pub(crate) fn finish(bytes: &[u8]) -> Result<(Finish, &[u8]), Failure>
    ensures { Gives (λ x. (x.0, x.1.now)) result (finish bytes.now) }
{
    let rest = word(bytes, b"end ")?;
    if begins_with(rest, b'n') {
        let rest = word(rest, b"none\n")?;
        Ok((Finish::Empty, rest))
    } else {
        let rest = word(rest, b"count\n")?;
        Ok((Finish::Count, rest))
    }
}
