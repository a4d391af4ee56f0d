//! Trees that grow in a region, and are given back.
ghost use Rattle.std.specs.Prelude.{Some};
ghost use Rattle.ci_area.specs.AreaRegionTrees.{LiesIn};
ghost use Rattle.ci_area.specs.private.Searched.{CanBeJoined, IsGivenBack, IsJoined};

use crate::flattening::{AreaChild, AreaNode};
use ci_region::Region;

/// Gives back the slots of a tree.
pub fn give_back(region: &mut Region<AreaNode>, root: AreaChild)
    requires { LiesIn region.old root }
    ensures { IsGivenBack region.old region.new root }
{
    match root {
        AreaChild::Leaf(_) => {}
        AreaChild::Inner(slot) => {
            let node = region.give(slot);
            give_back(region, node.left_out);
            give_back(region, node.taken);
        }
    }
}

/// Takes a slot for a branch with these children, or gives back their slots where none is free.
pub fn branch(
    region: &mut Region<AreaNode>,
    taken: AreaChild,
    left_out: AreaChild,
) -> Option<AreaChild>
    requires { CanBeJoined region.old taken (Some left_out) }
    ensures { IsJoined region.old region.new taken (Some left_out) result }
{
    match region.take(AreaNode { taken, left_out }) {
        Ok(slot) => Some(AreaChild::Inner(slot)),
        Err(node) => {
            give_back(region, node.left_out);
            give_back(region, node.taken);
            None
        }
    }
}
