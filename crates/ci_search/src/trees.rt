//! Trees that grow in a region.
ghost use Rattle.std.specs.Prelude.{◌≡◌, ◌≤◌, MatchOption};
ghost use Rattle.ci_region.specs.BoundedMap.{BoundedMap, used};
ghost use Rattle.ci_cut.specs.FlowGraph.{FlowGraph};
ghost use Rattle.ci_cut.specs.Prefixes.{Prefix};
ghost use Rattle.ci_cut.specs.declared.graph.Limits.{Limits};
ghost use Rattle.ci_cut.specs.declared.incumbent.Incumbent.{Incumbent};
ghost use Rattle.ci_log.specs.declared.flattening.Child.TheVariants.{Leaf};
ghost use Rattle.ci_log.specs.declared.flattening.LogNode.{LogNode};
ghost use Rattle.ci_search.specs.private.Branches.{IsBranch};
ghost use Rattle.ci_search.specs.private.Trees.{IsSearchOf};
ghost use Rattle.ci_search.specs.private.Waiting.{IsJoined};

use ci_log::{Child, Item, LogNode};
use ci_region::Region;

/// What was found where nodes are taken in, of branches that wait for what is found where they are left out.
pub type Pending = [Child; 256];

/// Takes slots for the branches that wait from number `bottom` on. Each of them has the next one where its node is left
/// out, and the last of them this leaf. `None` where slots are wanting.
pub fn branches(
    region: &mut Region<LogNode>,
    pending: &Pending,
    bottom: usize,
    top: usize,
    last: Item,
) -> Option<Child>
    requires { top ≤ 256 }
    ensures { (graph : FlowGraph) (limits : Limits) (start : Prefix) (first later : Incumbent)
        (before : BoundedMap LogNode)
        → IsJoined graph limits start first later before pending.now bottom top region.old (Leaf last)
        → IsSearchOf graph limits start first later before region.new result }
{
    let mut root = Child::Leaf(last);
    let mut left = top;
    while left > bottom {
        left -= 1;
        root = branch(region, pending[left], root)?;
    }
    Some(root)
}

/// Takes a slot for a branch with these children, or none where no slot is free.
fn branch(region: &mut Region<LogNode>, taken: Child, left_out: Child) -> Option<Child>
    ensures { MatchOption result ((used region.old ≡ region.old.capacity) × (region.new ≡ region.old))
        (IsBranch region.old region.new taken left_out) }
{
    match region.take(LogNode { taken, left_out }) {
        Ok(slot) => Some(Child::Inner(slot)),
        Err(_) => None,
    }
}
