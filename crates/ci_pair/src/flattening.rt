//! Trees of logs of pairs in a region, and their items in preorder.
ghost use Rattle.std.specs.Prelude.{◌≡◌, ◌<◌, ◌^◌, IfOk};
ghost use Rattle.ci_region.specs.BoundedMap.{used};
ghost use Rattle.ci_pair.specs.RegionTrees.{LiesIn, StandsFor};

use crate::log::{PairItem, PairLog};
use ci_region::{Region, Slot};
use std::alloc::{AllocError, Global};

/// A child of a node of a log's tree.
#[derive(Clone, Copy, Debug, PartialEq, Eq)]
pub enum PairChild {
    /// An item without children, which is no branch.
    Leaf(PairItem),
    /// A branch, whose children stand in this slot.
    Inner(Slot),
}

/// The children of a branch.
#[derive(Clone, Copy, Debug, PartialEq, Eq)]
pub struct PairNode {
    /// Where the next node is in the first set.
    pub first: PairChild,
    /// Where it is in the second.
    pub second: PairChild,
    /// Where it is in none.
    pub out: PairChild,
}

/// The items of a tree in a region, in preorder: a branch, and the items of its children, first, second and out.
///
/// The tree has to lie in the region, of which fewer than 2 to the power 30 slots are live.
pub fn flatten_pair(
    alloc: Global,
    region: &Region<PairNode>,
    root: PairChild,
) -> Result<PairLog, AllocError>
    requires tree { LiesIn region.now root }
    requires few { used region.now < 2 ^ 30 }
    ensures { IfOk result (StandsFor region.now root) }
{
    let mut items = Vec::new(alloc);
    // The children whose trees are to be listed yet, the next one last.
    let mut waiting = Vec::new(alloc);
    waiting.push(root)?;
    while let Some(child) = waiting.pop() {
        match child {
            PairChild::Leaf(item) => {
                items.push(item)?;
            }
            PairChild::Inner(slot) => {
                let node = region.get(slot);
                items.push(PairItem::B)?;
                waiting.push(node.out)?;
                waiting.push(node.second)?;
                waiting.push(node.first)?;
            }
        }
    }
    Ok(PairLog::new(items))
}
