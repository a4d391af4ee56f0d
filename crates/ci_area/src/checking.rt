//! The checker of logs.
ghost use Rattle.std.specs.Prelude.{◌≡◌, ◌↔◌, ◌^◌, ◌<◌, List, ◌++◌, drop, length, IsOk, IfErr, OnOk, IsTrue};
ghost use Rattle.std.specs.FinSet as set;
ghost use Rattle.ci_area.specs.declared.log.AreaItem.{AreaItem};
ghost use Rattle.ci_area.specs.declared.log.AreaItem.TheVariants.{B};
ghost use Rattle.ci_area.specs.AreaPrefixes.{Prefix};
ghost use Rattle.ci_area.specs.AreaRules.{stations, IsAccepted, IsFirstWrong};
ghost use Rattle.ci_area.specs.AreaTrees.{IsTree};
ghost use Rattle.ci_area.specs.Pieces.{ArePieces, IsBestSet};
ghost use Rattle.ci_area.specs.Representation.{Represents, RepresentsSome, IsMeasured, IsTreeAt};
ghost use Rattle.ci_area.specs.private.Judged.{IsJudged};

use crate::decided::Decided;
use crate::log::{AreaItem, AreaLog};
use crate::piece::Piece;
use crate::rules::{Incumbent, checked, is_right, reason_of};
use ci_word::Row;

/// The first wrong item of a log.
#[derive(Clone, Copy, Debug, PartialEq, Eq)]
pub struct AreaWrong {
    /// Its number in preorder, from 0.
    pub item: u32,
    /// Which rule it breaks:
    ///
    /// - 7, at item 0 and before all others: `best` is not a set of pieces within the limit;
    /// - 1: `A` stands at a prefix within the limit;
    /// - 4: `G` has a `den` of 0, or a `num` or `den` of 2 to the power 63 or more, or stands at a prefix that isn't
    ///   within the limit, or its bound is greater than the best's gain, or equal to it where the prefix doesn't come
    ///   after the best;
    /// - 5: `F` stands at a choice that isn't complete, or at one that is a better set than the best;
    /// - 6: `B` stands at a complete choice.
    pub reason: u8,
}

/// Whether the log shows that the set is the best one within the limit; or the first item that shows nothing.
///
/// There have to be at most 32 pieces, each gaining at least 1. The sum of all gains, and that of all areas, have to be
/// below 2 to the power 63.
pub fn check_choice(
    pieces: &[Piece],
    limit: u32,
    best: &Row,
    log: &AreaLog,
) -> Result<(), AreaWrong>
    requires { ArePieces pieces.now }
    ensures accepted { IsOk result ↔ IsAccepted pieces.now limit (set.contains best.now) log.now }
    ensures wrong { IfErr result (IsFirstWrong pieces.now limit (set.contains best.now) log.now) }
    ensures best { OnOk result (IsBestSet pieces.now limit (set.contains best.now)) }
{
    let Some(best) = checked(pieces, limit, best) else {
        return Err(AreaWrong { item: 0, reason: 7 });
    };
    let none = Decided::none(pieces);
    check_tree(pieces, limit, &best, log.items(), 0, &none)?;
    Ok(())
}

/// Checks the items of the tree that begins at `place`, at the prefix of these decisions. It answers where the tree
/// ends.
fn check_tree(
    pieces: &[Piece],
    limit: u32,
    best: &Incumbent,
    items: &[AreaItem],
    place: usize,
    decided: &Decided,
) -> Result<usize, AreaWrong>
    requires pieces { ArePieces pieces.now }
    requires represents { RepresentsSome pieces.now decided.now }
    requires measured { IsMeasured pieces.now limit best.now }
    requires few { length items.now < 2 ^ 32 }
    requires tree { IsTreeAt items.now place }
    ensures { (prefix : Prefix) (one rest : List AreaItem) (tree : IsTree one)
        → Represents pieces.now prefix decided.now → drop place items.now ≡ one ++ rest
        → IsJudged pieces.now limit (set.contains best.now.set) (stations tree prefix) place result }
{
    let item = items[place];
    if !is_right(pieces, limit, best, decided, item) {
        return Err(AreaWrong {
            item: place as u32,
            reason: reason_of(item),
        });
    }
    if !branches(item) {
        return Ok(place + 1);
    }
    let with_piece = decided.take_in(pieces);
    let end = check_tree(pieces, limit, best, items, place + 1, &with_piece)?;
    let without = decided.leave_out();
    check_tree(pieces, limit, best, items, end, &without)
}

/// Whether the item is a branch.
fn branches(item: AreaItem) -> bool
    ensures { IsTrue result ↔ (item ≡ B) }
{
    match item {
        AreaItem::B => true,
        AreaItem::A | AreaItem::G { num: _, den: _ } | AreaItem::F => false,
    }
}
