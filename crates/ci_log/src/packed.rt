//! The half bytes of a log.
ghost use Rattle.std.specs.Prelude.{◌≡◌, ℕ, ◌-◌, ◌<◌, ◌≤◌, ◌++◌, length, replicate, OnOk};
ghost use Rattle.ci_log.specs.Packed.{half_byte, are_equal_leaves};
ghost use Rattle.ci_log.specs.private.Reading.{Gives, due_after};
ghost use Rattle.ci_log.specs.private.PackedReading.{
  item_at,
  item_step,
  run_step,
  half_step,
  low_step,
  byte_step,
  pair_at,
  packed_trees,
  opening,
};

use crate::faults::{Failure, stopped};
use crate::log::Item;
use crate::trees::due_behind;
use std::alloc::{AllocError, Global};

/// Where reading stands, between two half bytes.
#[derive(Clone, Copy)]
pub(crate) struct Place {
    /// How many trees are due.
    pub due: usize,
    /// The last item, or a branch where there is none.
    pub last: Item,
    /// Whether more of the last item may follow by a half byte.
    pub in_run: bool,
}

/// What a half byte stands for: so many of an item, and where reading stands then.
#[derive(Clone, Copy)]
pub(crate) struct Step {
    pub item: Item,
    pub count: usize,
    pub next: Place,
}

/// The steps of a byte's two half bytes.
#[derive(Clone, Copy)]
pub(crate) struct Pair {
    pub high: Step,
    pub low: Step,
}

/// An item's half byte.
pub(crate) fn half_byte(item: Item) -> u8
    ensures { result ≡ half_byte item }
{
    match item {
        Item::B => 0,
        Item::O => 1,
        Item::C => 2,
        Item::I => 3,
        Item::G => 4,
        Item::F => 5,
    }
}

/// The item of a half byte.
fn item_at(half: u8) -> Item
    ensures { result ≡ item_at half }
{
    match half {
        0 => Item::B,
        1 => Item::O,
        2 => Item::C,
        3 => Item::I,
        4 => Item::G,
        _ => Item::F,
    }
}

/// Whether both are the same leaf.
pub(crate) fn are_equal_leaves(first: Item, second: Item) -> bool
    ensures { result ≡ are_equal_leaves first second }
{
    0 < half_byte(first) && half_byte(first) == half_byte(second)
}

/// The step of an item's half byte.
fn item_step(place: Place, item: Item) -> Option<Step>
    requires some { 0 < place.due }
    requires few { place.due ≤ 3000000000 }
    ensures { result ≡ item_step place item }
{
    if are_equal_leaves(place.last, item) {
        return None;
    }
    let next = Place {
        due: due_behind(item, place.due),
        last: item,
        in_run: 0 < half_byte(item),
    };
    Some(Step {
        item,
        count: 1,
        next,
    })
}

/// The step of a half byte for so many more leaves.
fn run_step(place: Place, more: usize) -> Option<Step>
    ensures { result ≡ run_step place more }
{
    if !place.in_run || place.due < more {
        return None;
    }
    let next = Place {
        due: place.due - more,
        last: place.last,
        in_run: more == 10,
    };
    Some(Step {
        item: place.last,
        count: more,
        next,
    })
}

/// The step of a half byte.
fn half_step(place: Place, half: u8) -> Option<Step>
    requires some { 0 < place.due }
    requires few { place.due ≤ 3000000000 }
    ensures { result ≡ half_step place half }
{
    if half < 6 {
        item_step(place, item_at(half))
    } else {
        run_step(place, (half - 5) as usize)
    }
}

/// The step of a low half byte, which is 0 and stands for nothing behind the end of a tree.
fn low_step(place: Place, half: u8) -> Option<Step>
    requires { place.due ≤ 3000000000 }
    ensures { result ≡ low_step place half }
{
    if place.due > 0 {
        half_step(place, half)
    } else if half == 0 {
        Some(Step {
            item: place.last,
            count: 0,
            next: place,
        })
    } else {
        None
    }
}

/// The steps of a byte.
fn byte_step(place: Place, byte: u8) -> Option<Pair>
    requires some { 0 < place.due }
    requires few { place.due ≤ 2000000000 }
    ensures { result ≡ byte_step place byte }
{
    let high = half_step(place, byte / 16)?;
    let low = low_step(high.next, byte % 16)?;
    Some(Pair { high, low })
}

/// The steps of the first byte.
fn pair_at(place: Place, bytes: &[u8]) -> Result<(Pair, &[u8]), Failure>
    requires some { 0 < place.due }
    requires few { place.due ≤ 2000000000 }
    ensures { Gives (λ x. (x.0, x.1.now)) result (pair_at place bytes.now) }
{
    let [first, rest @ ..] = bytes else {
        return Err(stopped(bytes));
    };
    match byte_step(place, *first) {
        Some(pair) => Ok((pair, rest)),
        None => Err(stopped(bytes)),
    }
}

/// Appends so many of an item.
fn push_step(items: &mut Vec<Item>, step: Step) -> Result<(), AllocError>
    ensures { OnOk result (items.new.items ≡ items.old.items ++ replicate step.count step.item) }
{
    for _ in 0..step.count {
        items.push(step.item)?;
    }
    Ok(())
}

/// The half bytes of a tree.
pub(crate) fn packed_tree(alloc: Global, bytes: &[u8]) -> Result<(Vec<Item>, &[u8]), Failure>
    requires { length bytes.now ≤ 268435456 }
    ensures { Gives (λ x. (x.0.items, x.1.now)) result (packed_trees bytes.now opening) }
{
    let mut items = Vec::new(alloc);
    let mut rest = bytes;
    let mut place = Place {
        due: 1,
        last: Item::B,
        in_run: false,
    };
    while place.due > 0 {
        let (pair, after) = pair_at(place, rest)?;
        push_step(&mut items, pair.high)?;
        push_step(&mut items, pair.low)?;
        place = pair.low.next;
        rest = after;
    }
    Ok((items, rest))
}
