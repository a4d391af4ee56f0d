//! The rates that a search tries.
ghost use Rattle.ci_area.specs.Pieces.{ArePieces};
ghost use Rattle.ci_area.specs.private.Beyond.{AreRates};

use crate::bounds::beyond_each;
use crate::piece::{MOST, Piece};

/// What pieces gain beyond the price of their areas, at each rate that a search tries: the sums over the pieces below
/// each number, times the denominator of the rate.
#[derive(Drop)]
pub struct Rates {
    /// Where area has no price, at the rate `0 / 1`.
    pub unpriced: [u128; MOST + 1],
    /// At the gain of each piece for its area.
    pub by_piece: [[u128; MOST + 1]; MOST],
}

impl Rates {
    /// The sums for these pieces.
    pub fn of(pieces: &[Piece]) -> Rates
        requires { ArePieces pieces.now }
        ensures { AreRates pieces.now result }
    {
        let unpriced = beyond_each(pieces, 0, 1);
        let mut by_piece = [[0; MOST + 1]; MOST];
        for k in 0..pieces.len() {
            let piece = pieces[k];
            by_piece[k] = beyond_each(pieces, piece.gain, piece.area);
        }
        Rates { unpriced, by_piece }
    }
}
