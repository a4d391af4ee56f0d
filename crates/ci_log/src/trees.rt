//! The letters of a log, and its line.
ghost use Rattle.std.specs.Prelude.{◌≡◌, ◌-◌, ◌<◌, ◌≤◌, length};
ghost use Rattle.ci_log.specs.private.Reading.{Gives, item_of, item, due_after, trees, tree_end};
ghost use Rattle.ci_log.specs.private.BookReading.{tree_in, tree_line};

use crate::book::Version;
use crate::faults::{Failure, Stop, stopped};
use crate::log::{Item, Log};
use crate::packed::packed_tree;
use std::alloc::Global;

/// The item of a letter.
fn item_of(letter: u8) -> Option<Item>
    ensures { result ≡ item_of letter }
{
    match letter {
        b'B' => Some(Item::B),
        b'O' => Some(Item::O),
        b'C' => Some(Item::C),
        b'I' => Some(Item::I),
        b'G' => Some(Item::G),
        b'F' => Some(Item::F),
        _ => None,
    }
}

/// An item's letter.
fn item(bytes: &[u8]) -> Result<(Item, &[u8]), Failure>
    ensures { Gives (λ x. (x.0, x.1.now)) result (item bytes.now) }
{
    let [first, rest @ ..] = bytes else {
        return Err(stopped(bytes));
    };
    match item_of(*first) {
        Some(item) => Ok((item, rest)),
        None => Err(stopped(bytes)),
    }
}

/// How many trees are due behind the item, where so many were due before it.
pub(crate) fn due_behind(item: Item, due: usize) -> usize
    requires some { 0 < due }
    requires few { due ≤ 3000000000 }
    ensures { result ≡ due_after item (due - 1) }
{
    match item {
        Item::B => due - 1 + 2,
        _ => due - 1,
    }
}

/// The letters of a tree.
fn tree(alloc: Global, bytes: &[u8]) -> Result<(Vec<Item>, &[u8]), Failure>
    requires { length bytes.now ≤ 268435456 }
    ensures { Gives (λ x. (x.0.items, x.1.now)) result (trees 1 bytes.now) }
{
    let mut items = Vec::new(alloc);
    let mut rest = bytes;
    let mut due = 1;
    while due > 0 {
        let (item, after) = item(rest)?;
        items.push(item)?;
        due = due_behind(item, due);
        rest = after;
    }
    Ok((items, rest))
}

/// The newline behind a tree.
fn tree_end(bytes: &[u8]) -> Result<&[u8], Failure>
    ensures { Gives (λ rest. (tt, rest.now)) result (tree_end bytes.now) }
{
    match bytes {
        [b'\n', rest @ ..] => Ok(rest),
        _ => Err(Failure::Stopped(Stop {
            left: bytes.len(),
            behind_tree: true,
        })),
    }
}

/// A tree in a book of the version.
fn tree_in(version: Version, alloc: Global, bytes: &[u8]) -> Result<(Vec<Item>, &[u8]), Failure>
    requires { length bytes.now ≤ 268435456 }
    ensures { Gives (λ x. (x.0.items, x.1.now)) result (tree_in version bytes.now) }
{
    match version {
        Version::One => tree(alloc, bytes),
        Version::Two => packed_tree(alloc, bytes),
    }
}

/// A log's line in a book of the version.
#[tactic(auto, unfolding(crate::specs::private::BookReading::tree_line))]
pub(crate) fn tree_line(
    version: Version,
    alloc: Global,
    bytes: &[u8],
) -> Result<(Log, &[u8]), Failure>
    requires { length bytes.now ≤ 268435456 }
    ensures { Gives (λ x. (x.0, x.1.now)) result (tree_line version bytes.now) }
{
    let (mut items, rest) = tree_in(version, alloc, bytes)?;
    items.shrink_to_fit();
    let rest = tree_end(rest)?;
    Ok((Log::new(items), rest))
}
