//! Trees that grow in a region.
ghost use Rattle.std.specs.Prelude.{◌≡◌, List, MatchOption};
ghost use Rattle.ci_region.specs.BoundedMap.{used};
ghost use Rattle.ci_pair.specs.RegionTrees.{LiesIn};
ghost use Rattle.ci_pair.specs.private.SearchTrees.{IsBranch, AreBeside, AreGivenBack, IsGivenBack};

use crate::flattening::{PairChild, PairNode};
use ci_region::Region;

/// Gives back the slots of a tree.
fn give_back(region: &mut Region<PairNode>, root: PairChild)
    requires { LiesIn region.old root }
    ensures { IsGivenBack region.old root region.new }
{
    match root {
        PairChild::Leaf(_) => {}
        PairChild::Inner(slot) => {
            let node = region.give(slot);
            give_back(region, node.out);
            give_back(region, node.second);
            give_back(region, node.first);
        }
    }
}

/// The later tree, or `None` where slots were wanting for it, and then the slots of the earlier one are given back.
pub fn beside(
    region: &mut Region<PairNode>,
    earlier: &PairChild,
    later: Option<PairChild>,
) -> Option<PairChild>
    requires { MatchOption later (LiesIn region.old earlier.now) (λ _. Unit {0}) }
    ensures same { result ≡ later }
    ensures region { MatchOption later (IsGivenBack region.old earlier.now region.new) (λ _. region.new ≡ region.old) }
{
    if later.is_none() {
        give_back(region, *earlier);
    }
    later
}

/// Takes a slot for a branch with these children. `None` where no slot is free, and then those of the children are
/// given back.
pub fn branch(
    region: &mut Region<PairNode>,
    first: PairChild,
    second: PairChild,
    out: PairChild,
) -> Option<PairChild>
    requires { AreBeside region.old first second out }
    ensures { MatchOption result
        ((used region.old ≡ region.old.capacity) × AreGivenBack region.old first second out region.new)
        (IsBranch region.old region.new first second out) }
{
    match region.take(PairNode { first, second, out }) {
        Ok(slot) => Some(PairChild::Inner(slot)),
        Err(node) => {
            give_back(region, node.out);
            give_back(region, node.second);
            give_back(region, node.first);
            None
        }
    }
}
