//! From a log to its half bytes.
ghost use Rattle.std.specs.Prelude.{◌≡◌, ℕ, ◌+◌, ◌<◌, ◌≤◌, ◌++◌, [], ◌∷◌, replicate, IfOk, OnOk};
ghost use Rattle.ci_log.specs.Packed.{half_byte, last_leaves, more_leaves, packed};
ghost use Rattle.ci_log.specs.private.Packing.{IsHalf, filled_behind, GoesOn, Writes, nothing};

use crate::log::Item;
use crate::packed::{are_equal_leaves, half_byte};
use std::alloc::AllocError;

/// What waits for the items that follow.
#[derive(Clone, Copy)]
pub(crate) struct Waiting {
    /// A high half, if one waits for its low one.
    pub high: Option<u8>,
    /// The last item, or a branch where there is none.
    pub last: Item,
    /// How many more of it there are, whose half bytes aren't written.
    pub more: usize,
}

/// Appends a half byte behind the high half that waits for its low one, and gives that which waits then.
#[tactic(auto, unfolding(crate::specs::private::Packing::GoesOn))]
fn push_half(text: &mut Vec<u8>, high: Option<u8>, half: u8) -> Result<Option<u8>, AllocError>
    requires high { IsHalf high }
    requires half { half < 16 }
    ensures written { IfOk result (GoesOn text.old.items high (half ∷ []) text.new.items) }
    ensures half { IfOk result IsHalf }
{
    match high {
        Some(high) => {
            text.push(high * 16 + half)?;
            Ok(None)
        }
        None => Ok(Some(half)),
    }
}

/// Appends the half bytes for so many tens of further leaves.
fn push_tens(text: &mut Vec<u8>, high: Option<u8>, tens: usize) -> Result<Option<u8>, AllocError>
    requires { IsHalf high }
    ensures written { IfOk result (GoesOn text.old.items high (replicate tens 15) text.new.items) }
    ensures half { IfOk result IsHalf }
{
    let mut high = high;
    for _ in 0..tens {
        high = push_half(text, high, 15)?;
    }
    Ok(high)
}

/// Appends the half byte for the last leaves of a run.
fn push_last(text: &mut Vec<u8>, high: Option<u8>, leaves: usize) -> Result<Option<u8>, AllocError>
    requires high { IsHalf high }
    requires few { leaves < 10 }
    ensures written { IfOk result (GoesOn text.old.items high (last_leaves leaves) text.new.items) }
    ensures half { IfOk result IsHalf }
{
    if leaves == 0 {
        return Ok(high);
    }
    push_half(text, high, (5 + leaves) as u8)
}

/// Appends the half bytes for so many more leaves of a run.
#[cold]
#[inline(never)]
fn push_more(text: &mut Vec<u8>, high: Option<u8>, more: usize) -> Result<Option<u8>, AllocError>
    requires { IsHalf high }
    ensures written { IfOk result (GoesOn text.old.items high (more_leaves more) text.new.items) }
    ensures half { IfOk result IsHalf }
{
    let high = push_tens(text, high, more / 10)?;
    push_last(text, high, more % 10)
}

/// Appends the high half that waits, with 0 for its low half.
fn push_filling(text: &mut Vec<u8>, high: Option<u8>) -> Result<(), AllocError>
    requires { IsHalf high }
    ensures { OnOk result (text.new.items ≡ text.old.items ++ filled_behind high []) }
{
    match high {
        Some(high) => {
            text.push(high * 16)?;
            Ok(())
        }
        None => Ok(()),
    }
}

/// Appends the half bytes of an item behind a leaf and so many more of its kind.
fn push_next(
    text: &mut Vec<u8>,
    high: Option<u8>,
    more: usize,
    item: Item,
) -> Result<Option<u8>, AllocError>
    requires { IsHalf high }
    ensures written { IfOk result
        (GoesOn text.old.items high (more_leaves more ++ half_byte item ∷ []) text.new.items) }
    ensures half { IfOk result IsHalf }
{
    if more == 0 {
        return push_half(text, high, half_byte(item));
    }
    let high = push_more(text, high, more)?;
    push_half(text, high, half_byte(item))
}

/// Appends what an item completes, and gives what waits then.
fn push_item(text: &mut Vec<u8>, waiting: Waiting, item: Item) -> Result<Waiting, AllocError>
    requires half { IsHalf waiting.high }
    requires few { waiting.more < 9223372036854775808 }
    ensures written { IfOk result (Writes text.old.items waiting (item ∷ []) text.new.items) }
    ensures half { IfOk result (λ next. IsHalf next.high) }
    ensures few { IfOk result (λ next. next.more ≤ waiting.more + 1) }
{
    if are_equal_leaves(waiting.last, item) {
        return Ok(Waiting {
            high: waiting.high,
            last: waiting.last,
            more: waiting.more + 1,
        });
    }
    let high = push_next(text, waiting.high, waiting.more, item)?;
    Ok(Waiting {
        high,
        last: item,
        more: 0,
    })
}

/// Appends the half bytes of the items but those that wait for what follows.
fn push_items(text: &mut Vec<u8>, items: &[Item]) -> Result<Waiting, AllocError>
    ensures written { IfOk result (Writes text.old.items nothing items.now text.new.items) }
    ensures half { IfOk result (λ next. IsHalf next.high) }
{
    let mut waiting = Waiting {
        high: None,
        last: Item::B,
        more: 0,
    };
    for item in items {
        waiting = push_item(text, waiting, *item)?;
    }
    Ok(waiting)
}

/// Appends the packed items.
pub(crate) fn push_packed(text: &mut Vec<u8>, items: &[Item]) -> Result<(), AllocError>
    ensures { OnOk result (text.new.items ≡ text.old.items ++ packed items.now) }
{
    let waiting = push_items(text, items)?;
    let high = push_more(text, waiting.high, waiting.more)?;
    push_filling(text, high)
}
