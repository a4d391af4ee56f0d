//! The search for the best set.
ghost use Rattle.std.specs.Prelude.{◌≤◌};
ghost use Rattle.ci_region.specs.BoundedMap.{used};
ghost use Rattle.ci_area.specs.AreaAnswered.{IsChoice};
ghost use Rattle.ci_area.specs.AreaNeed.{ReachesGreedy};
ghost use Rattle.ci_area.specs.AreaPrefixes.{Prefix};
ghost use Rattle.ci_area.specs.Pieces.{ArePieces};
ghost use Rattle.ci_area.specs.Representation.{Represents, RepresentsSome, IsMeasured};
ghost use Rattle.ci_area.specs.private.Beyond.{AreRates};
ghost use Rattle.ci_area.specs.private.Searched.{IsSearchOf, CanBeJoined, IsJoined};

use crate::decided::Decided;
use crate::flattening::{AreaChild, AreaNode};
use crate::greedy::greedy;
use crate::leaves::{improved, pruning_item};
use crate::log::AreaItem;
use crate::piece::{Piece, together};
use crate::rates::Rates;
use crate::rules::Incumbent;
use crate::trees::{branch, give_back};
use ci_region::Region;
use ci_word::Row;

/// What a choice under a limit finds.
#[derive(Clone, Copy, Debug, PartialEq, Eq)]
pub enum AreaFound {
    /// The best set, and the tree of a log that shows that it is.
    Best {
        /// The numbers of its pieces.
        set: Row,
        /// The tree, which lies in the region.
        root: AreaChild,
    },
    /// More branches are needed than slots were free.
    Spent {
        /// How many slots were free.
        budget: u32,
    },
}

/// Finds the best set of pieces whose areas together are at most the limit, and writes a log into the region.
///
/// Slots that were live hold what they held, and the others that are live then are those of the tree. After `Spent`
/// there are none of these. As many free slots as there are sets of pieces are always enough. It takes no memory.
///
/// There have to be at most 32 pieces, each gaining at least 1. The sum of all gains, and that of all areas, have to be
/// below 2 to the power 63.
pub fn choose_within(pieces: &[Piece], limit: u32, region: &mut Region<AreaNode>) -> AreaFound
    requires { ArePieces pieces.now }
    ensures { IsChoice pieces.now limit region.old region.new result }
{
    let budget = region.capacity() - region.used();
    let set = greedy(pieces, limit);
    let mut best = Incumbent {
        set,
        gain: together(pieces, &set).gain,
    };
    let rates = Rates::of(pieces);
    let none = Decided::none(pieces);
    let Some(root) = search(pieces, &rates, limit, region, &none, &mut best) else {
        return AreaFound::Spent { budget };
    };
    AreaFound::Best {
        set: best.set,
        root,
    }
}

/// Searches among the sets that go on from the prefix of these decisions, with this best set so far, and answers the
/// tree of the prefix. `None` where slots are wanting, and then the region holds what it held.
fn search(
    pieces: &[Piece],
    rates: &Rates,
    limit: u32,
    region: &mut Region<AreaNode>,
    decided: &Decided,
    best: &mut Incumbent,
) -> Option<AreaChild>
    requires pieces { ArePieces pieces.now }
    requires rates { AreRates pieces.now rates.now }
    requires represents { RepresentsSome pieces.now decided.now }
    requires measured { IsMeasured pieces.now limit best.old }
    requires greedy { ReachesGreedy pieces.now limit best.old.gain }
    requires within { used region.old ≤ region.old.capacity }
    ensures { (prefix : Prefix) → Represents pieces.now prefix decided.now
        → IsSearchOf pieces.now limit prefix best.old best.new region.old region.new result }
{
    if decided.left == 0 {
        *best = improved(limit, best, decided);
        return Some(AreaChild::Leaf(AreaItem::F));
    }
    if let Some(item) = pruning_item(pieces, rates, limit, best, decided) {
        return Some(AreaChild::Leaf(item));
    }
    let with_piece = decided.take_in(pieces);
    let first = search(pieces, rates, limit, region, &with_piece, best)?;
    let without = decided.leave_out();
    let second = search(pieces, rates, limit, region, &without, best);
    join(region, first, second)
}

/// Takes a slot for a branch with these children. `None` where the second wasn't found, or no slot is free: then the
/// slots of both are given back.
fn join(
    region: &mut Region<AreaNode>,
    taken: AreaChild,
    left_out: Option<AreaChild>,
) -> Option<AreaChild>
    requires { CanBeJoined region.old taken left_out }
    ensures { IsJoined region.old region.new taken left_out result }
{
    match left_out {
        Some(left_out) => branch(region, taken, left_out),
        None => {
            give_back(region, taken);
            None
        }
    }
}
