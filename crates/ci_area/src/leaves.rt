//! The leaves of a log.
ghost use Rattle.std.specs.Prelude.{List};
ghost use Rattle.std.specs.FinSet as set;
ghost use Rattle.ci_area.specs.AreaPrefixes.{Prefix};
ghost use Rattle.ci_area.specs.Pieces.{ArePieces};
ghost use Rattle.ci_area.specs.Representation.{Represents, RepresentsSome, IsMeasured};
ghost use Rattle.ci_area.specs.declared.piece.Piece.{Piece};
ghost use Rattle.ci_area.specs.private.Beyond.{AreRates};
ghost use Rattle.ci_area.specs.private.Searched.{IsPruning, IsImproved};

use crate::decided::Decided;
use crate::log::AreaItem;
use crate::piece::Piece;
use crate::rates::Rates;
use crate::rules::{Incumbent, gains_too_little, is_better};

/// The item that shows that no set that goes on from the prefix is better than the best so far, if one does.
pub fn pruning_item(
    pieces: &[Piece],
    rates: &Rates,
    limit: u32,
    best: &Incumbent,
    decided: &Decided,
) -> Option<AreaItem>
    requires pieces { ArePieces pieces.now }
    requires rates { AreRates pieces.now rates.now }
    requires represents { RepresentsSome pieces.now decided.now }
    requires measured { IsMeasured pieces.now limit best.now }
    ensures { (prefix : Prefix) → Represents pieces.now prefix decided.now
        → IsPruning pieces.now limit (set.contains best.now.set) prefix result }
{
    if decided.so_far.area > limit as u64 {
        return Some(AreaItem::A);
    }
    if gains_too_little(limit, best, decided, 0, 1, rates.unpriced[decided.left]) {
        return Some(AreaItem::G { num: 0, den: 1 });
    }
    for k in 0..pieces.len() {
        let piece = pieces[k];
        let beyond = rates.by_piece[k][decided.left];
        if piece.area != 0
            && gains_too_little(limit, best, decided, piece.gain, piece.area, beyond)
        {
            return Some(AreaItem::G {
                num: piece.gain,
                den: piece.area,
            });
        }
    }
    None
}

/// What is taken in where it is better than the best so far, and else the best so far.
pub fn improved(limit: u32, best: &Incumbent, decided: &Decided) -> Incumbent
    ensures { (pieces : List Piece) → RepresentsSome pieces decided.now → IsMeasured pieces limit best.now
        → IsImproved pieces limit best.now (set.contains decided.now.taken) result }
{
    if !is_better(limit, best, decided) {
        return *best;
    }
    Incumbent {
        set: decided.taken,
        gain: decided.so_far.gain,
    }
}
