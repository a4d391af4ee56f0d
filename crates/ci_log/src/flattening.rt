//! Trees of logs in a region, and their items in preorder.
ghost use Rattle.std.specs.Prelude.{◌≡◌, ◌<◌, ◌≤◌, ◌^◌, List, [], ◌∷◌, ◌++◌, length, IfOk, MatchOption};
ghost use Rattle.ci_region.specs.BoundedMap.{used};
ghost use Rattle.ci_region.specs.private.TreeReading.{IsReadUpTo};
ghost use Rattle.ci_log.specs.declared.flattening.Child.TheVariants.{Inner};
ghost use Rattle.ci_log.specs.declared.log.Item.{Item};
ghost use Rattle.ci_log.specs.RegionTrees.{Slots, log_tree, LiesIn, StandsFor};

use crate::log::{Item, Log};
use ci_region::{Region, Slot};
use std::alloc::{AllocError, Global};

/// A child of a node of a log's tree.
#[derive(Clone, Copy, Debug, PartialEq, Eq)]
pub enum Child {
    /// An item without children, which is no branch.
    Leaf(Item),
    /// A branch, whose children stand in this slot.
    Inner(Slot),
}

/// The children of a branch.
#[derive(Clone, Copy, Debug, PartialEq, Eq)]
pub struct LogNode {
    /// Where the next node is taken in.
    pub taken: Child,
    /// Where it is left out.
    pub left_out: Child,
}

/// The items of a tree in a region, in preorder: a branch, the items where the next node is taken
/// in, and those where it is left out.
///
/// The tree has to lie in the region, of which fewer than 2 to the power 31 slots are live.
pub fn flatten(alloc: Global, region: &Region<LogNode>, root: Child) -> Result<Log, AllocError>
    requires tree { LiesIn region.now root }
    requires few { used region.now < 2 ^ 31 }
    ensures { IfOk result (StandsFor region.now root) }
{
    let mut items = Vec::new(alloc);
    // The children whose trees are to be listed behind that of the branch, the next one last.
    let mut waiting = Vec::new(alloc);
    let Some(mut slot) = first_branch(&mut items, &mut waiting, root)? else {
        return Ok(Log::new(items));
    };
    loop {
        let node = region.get(slot);
        items.push(Item::B)?;
        slot = match node.taken {
            Child::Inner(next) => {
                waiting.push(node.left_out)?;
                next
            }
            // Most branches are of this kind, so that few children wait.
            Child::Leaf(item) => {
                items.push(item)?;
                let Some(next) = first_branch(&mut items, &mut waiting, node.left_out)? else {
                    return Ok(Log::new(items));
                };
                next
            }
        };
    }
}

/// Lists the child and those that wait, from the last one on, up to the first branch, and answers its slot; or all of
/// them, and answers `None`.
#[inline]
fn first_branch(
    items: &mut Vec<Item>,
    waiting: &mut Vec<Child>,
    child: Child,
) -> Result<Option<Slot>, AllocError>
    ensures listed { (slots : Slots) (listed : List Item)
        → IsReadUpTo log_tree slots (waiting.old.items ++ child ∷ []) items.old.items listed
        → IfOk result (λ found. MatchOption found (items.new.items ≡ listed)
        (λ slot. IsReadUpTo log_tree slots (waiting.new.items ++ Inner slot ∷ []) items.new.items listed)) }
    ensures longer { length items.old.items ≤ length items.new.items }
{
    let mut child = child;
    loop {
        match child {
            Child::Inner(slot) => return Ok(Some(slot)),
            Child::Leaf(item) => {
                items.push(item)?;
                let Some(next) = waiting.pop() else {
                    return Ok(None);
                };
                child = next;
            }
        }
    }
}
