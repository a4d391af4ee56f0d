//! Pieces, and what those of a set have together.
ghost use Rattle.std.specs.Prelude.{◌≡◌, ◌↔◌, ℕ, ◌<◌, length, IsTrue};
ghost use Rattle.std.specs.FinSet as set;
ghost use Rattle.ci_area.specs.Pieces.{ArePieces, area, gain};

use ci_word::Row;

/// The most pieces of a choice.
pub const MOST: usize = 32;

/// A piece of what there may be room for.
#[derive(Clone, Copy, Debug, PartialEq, Eq)]
pub struct Piece {
    /// How much room it needs.
    pub area: u64,
    /// What it gains.
    pub gain: u64,
}

/// Whether these can be pieces of a choice: there are at most 32, each gains at least 1, and the sum of all gains and
/// that of all areas are below 2 to the power 63.
pub fn are_pieces(pieces: &[Piece]) -> bool
    ensures { IsTrue result ↔ ArePieces pieces.now }
{
    if pieces.len() > MOST {
        return false;
    }
    let mut area: u128 = 0;
    let mut gain: u128 = 0;
    for k in 0..pieces.len() {
        let piece = pieces[k];
        if piece.gain == 0 {
            return false;
        }
        area += piece.area as u128;
        gain += piece.gain as u128;
    }
    area < 1 << 63 && gain < 1 << 63
}

/// What the pieces of a set have together.
///
/// There have to be at most 32 pieces, each gaining at least 1. The sum of all gains, and that of all areas, have to be
/// below 2 to the power 63.
pub fn together(pieces: &[Piece], chosen: &Row) -> Piece
    requires { ArePieces pieces.now }
    ensures area { result.area ≡ area pieces.now (set.contains chosen.now) }
    ensures gain { result.gain ≡ gain pieces.now (set.contains chosen.now) }
{
    let mut area = 0;
    let mut gain = 0;
    for k in 0..pieces.len() {
        let piece = pieces[k];
        if chosen.has(k as u8) {
            area += piece.area;
            gain += piece.gain;
        }
    }
    Piece { area, gain }
}

/// Whether each number of the set is a piece.
pub fn is_set_of(pieces: &[Piece], chosen: &Row) -> bool
    ensures { IsTrue result ↔ ((k : ℕ) → IsTrue (set.contains chosen.now k) → k < length pieces.now) }
{
    chosen.numbers_are_below_256();
    for k in pieces.len()..256 {
        if chosen.has(k as u8) {
            return false;
        }
    }
    true
}
