//! The rules of the items of a log.
ghost use Rattle.std.specs.Prelude.{◌≡◌, ◌↔◌, ◌+◌, ◌*◌, ◌^◌, ◌<◌, ◌≤◌, List, MatchOption, IsTrue};
ghost use Rattle.std.specs.FinSet as set;
ghost use Rattle.ci_area.specs.AreaPrefixes.{Prefix};
ghost use Rattle.ci_area.specs.AreaRules.{IsBetter, IsRight, GainsTooLittle, reason_of};
ghost use Rattle.ci_area.specs.Pieces.{ArePieces, IsWithin};
ghost use Rattle.ci_area.specs.Representation.{Represents, RepresentsSome, IsMeasured};
ghost use Rattle.ci_area.specs.private.Beyond.{beyond_below};
ghost use Rattle.ci_area.specs.declared.piece.Piece.{Piece};

use crate::bounds::{beyond_below, scaled_bound};
use crate::decided::Decided;
use crate::log::AreaItem;
use crate::piece::{Piece, is_set_of, together};
use ci_cut::comes_before;
use ci_word::Row;

/// The best set that is given, or the best so far, and what it gains.
#[derive(Clone, Copy)]
pub struct Incumbent {
    pub set: Row,
    pub gain: u64,
}

/// The set with its gain. `None` where it isn't a set of pieces within the limit.
pub fn checked(pieces: &[Piece], limit: u32, chosen: &Row) -> Option<Incumbent>
    requires { ArePieces pieces.now }
    ensures { MatchOption result (¬ IsWithin pieces.now limit (set.contains chosen.now))
        (λ best. (best.set ≡ chosen.now) × IsMeasured pieces.now limit best) }
{
    if !is_set_of(pieces, chosen) {
        return None;
    }
    let all = together(pieces, chosen);
    if all.area > limit as u64 {
        return None;
    }
    Some(Incumbent {
        set: *chosen,
        gain: all.gain,
    })
}

/// Whether what is taken in is better than the best: it is within the limit, and it gains more, or as much and comes
/// first.
pub fn is_better(limit: u32, best: &Incumbent, decided: &Decided) -> bool
    ensures { (pieces : List Piece) → RepresentsSome pieces decided.now → IsMeasured pieces limit best.now
        → IsTrue result ↔ IsBetter pieces limit (set.contains best.now.set) (set.contains decided.now.taken) }
{
    if decided.so_far.area > limit as u64 {
        return false;
    }
    let gain = decided.so_far.gain;
    gain > best.gain || gain == best.gain && comes_before(&decided.taken, &best.set, 0)
}

/// Whether this is a rate: both numbers are below 2 to the power 63, and `den` isn't 0.
fn is_rate(num: u64, den: u64) -> bool
    ensures { IsTrue result ↔ ((1 ≤ den) × (num < 2 ^ 63) × (den < 2 ^ 63)) }
{
    den != 0 && num < 1 << 63 && den < 1 << 63
}

/// Whether by the rate `num / den` no set that goes on from the prefix is better than the best, where the undecided
/// pieces gain so much beyond the price of their areas, times `den`.
pub fn gains_too_little(
    limit: u32,
    best: &Incumbent,
    decided: &Decided,
    num: u64,
    den: u64,
    beyond: u128,
) -> bool
    requires rate { (1 ≤ den) × (num < 2 ^ 63) × (den < 2 ^ 63) }
    requires fits { decided.now.so_far.area ≤ limit }
    requires few { den * decided.now.so_far.gain + beyond < 2 ^ 126 }
    ensures { (pieces : List Piece) (prefix : Prefix) → Represents pieces prefix decided.now
        → IsMeasured pieces limit best.now → beyond ≡ beyond_below pieces num den decided.now.left
        → IsTrue result ↔ GainsTooLittle pieces limit (set.contains best.now.set) prefix num den }
{
    let bound = scaled_bound(limit, decided.so_far, num, den, beyond);
    let needed = den as u128 * best.gain as u128;
    bound < needed
        || bound - needed < den as u128 && comes_before(&best.set, &decided.taken, decided.left)
}

/// Whether this is a rate by which no set that goes on from the prefix is better than the best.
fn rules_out(
    pieces: &[Piece],
    limit: u32,
    best: &Incumbent,
    decided: &Decided,
    num: u64,
    den: u64,
) -> bool
    requires pieces { ArePieces pieces.now }
    requires represents { RepresentsSome pieces.now decided.now }
    requires measured { IsMeasured pieces.now limit best.now }
    ensures { (prefix : Prefix) → Represents pieces.now prefix decided.now
        → IsTrue result ↔ GainsTooLittle pieces.now limit (set.contains best.now.set) prefix num den }
{
    if !is_rate(num, den) {
        return false;
    }
    if decided.so_far.area > limit as u64 {
        return false;
    }
    let beyond = beyond_below(pieces, decided.left, num, den);
    gains_too_little(limit, best, decided, num, den, beyond)
}

/// Whether the item is right at the prefix.
pub fn is_right(
    pieces: &[Piece],
    limit: u32,
    best: &Incumbent,
    decided: &Decided,
    item: AreaItem,
) -> bool
    requires pieces { ArePieces pieces.now }
    requires represents { RepresentsSome pieces.now decided.now }
    requires measured { IsMeasured pieces.now limit best.now }
    ensures { (prefix : Prefix) → Represents pieces.now prefix decided.now
        → IsTrue result ↔ IsRight pieces.now limit (set.contains best.now.set) prefix item }
{
    match item {
        AreaItem::A => decided.so_far.area > limit as u64,
        AreaItem::G { num, den } => rules_out(pieces, limit, best, decided, num, den),
        AreaItem::F => decided.left == 0 && !is_better(limit, best, decided),
        AreaItem::B => decided.left != 0,
    }
}

/// The reason that is given where the item is not right.
pub fn reason_of(item: AreaItem) -> u8
    ensures { result ≡ reason_of item }
{
    match item {
        AreaItem::A => 1,
        AreaItem::G { num: _, den: _ } => 4,
        AreaItem::F => 5,
        AreaItem::B => 6,
    }
}
