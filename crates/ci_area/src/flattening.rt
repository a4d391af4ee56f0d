//! Trees of logs of choices in a region, and their items in preorder.
ghost use Rattle.std.specs.Prelude.{◌≡◌, ◌<◌, ◌^◌, IfOk};
ghost use Rattle.ci_region.specs.BoundedMap.{used};
ghost use Rattle.ci_area.specs.AreaRegionTrees.{LiesIn, StandsFor};

use crate::log::{AreaItem, AreaLog};
use ci_region::{Region, Slot};
use std::alloc::{AllocError, Global};

/// A child of a node of a log's tree.
#[derive(Clone, Copy, Debug, PartialEq, Eq)]
pub enum AreaChild {
    /// An item without children, which is no branch.
    Leaf(AreaItem),
    /// A branch, whose children stand in this slot.
    Inner(Slot),
}

/// The children of a branch.
#[derive(Clone, Copy, Debug, PartialEq, Eq)]
pub struct AreaNode {
    /// Where the next piece is taken in.
    pub taken: AreaChild,
    /// Where it is left out.
    pub left_out: AreaChild,
}

/// The items of a tree in a region, in preorder: a branch, the items where the next piece is taken
/// in, and those where it is left out.
///
/// The tree has to lie in the region, of which fewer than 2 to the power 31 slots are live.
pub fn flatten_area(
    alloc: Global,
    region: &Region<AreaNode>,
    root: AreaChild,
) -> Result<AreaLog, AllocError>
    requires tree { LiesIn region.now root }
    requires few { used region.now < 2 ^ 31 }
    ensures { IfOk result (StandsFor region.now root) }
{
    let mut items = Vec::new(alloc);
    // The children whose trees are to be listed yet, the next one last.
    let mut waiting = Vec::new(alloc);
    waiting.push(root)?;
    while let Some(child) = waiting.pop() {
        match child {
            AreaChild::Leaf(item) => {
                items.push(item)?;
            }
            AreaChild::Inner(slot) => {
                let node = region.get(slot);
                items.push(AreaItem::B)?;
                waiting.push(node.left_out)?;
                waiting.push(node.taken)?;
            }
        }
    }
    Ok(AreaLog::new(items))
}
