//! What a search or a checker has decided.
ghost use Rattle.std.specs.Prelude.{◌≡◌, ◌+◌, ◌<◌, true, false, List, [], ◌∷◌};
ghost use Rattle.ci_area.specs.AreaPrefixes.{Prefix};
ghost use Rattle.ci_area.specs.Pieces.{ArePieces};
ghost use Rattle.ci_area.specs.Representation.{Represents, RepresentsSome};
ghost use Rattle.ci_area.specs.declared.piece.Piece.{Piece};

use crate::piece::Piece;
use ci_word::Row;

/// Decisions for the pieces from the last to the first.
#[derive(Clone, Copy)]
pub struct Decided {
    /// The pieces taken in.
    pub taken: Row,
    /// What they have together.
    pub so_far: Piece,
    /// How many pieces are undecided. They are those below this number, which decide next one after the other.
    pub left: usize,
}

impl Decided {
    /// No decision.
    pub fn none(pieces: &[Piece]) -> Decided
        ensures { Represents pieces.now [] result }
    {
        Decided {
            taken: Row::empty(),
            so_far: Piece { area: 0, gain: 0 },
            left: pieces.len(),
        }
    }

    /// The next piece is taken in.
    ///
    /// These have to be the pieces that it decides on, of which one has to be undecided.
    pub fn take_in(&self, pieces: &[Piece]) -> Decided
        requires pieces { ArePieces pieces.now }
        requires represents { RepresentsSome pieces.now self.now }
        requires some { 0 < self.now.left }
        ensures left { result.left + 1 ≡ self.now.left }
        ensures represents { (prefix : Prefix) → Represents pieces.now prefix self.now
            → Represents pieces.now (true ∷ prefix) result }
    {
        let mut taken = self.taken;
        let left = self.left - 1;
        taken.insert(left as u8);
        let piece = pieces[left];
        let so_far = Piece {
            area: self.so_far.area + piece.area,
            gain: self.so_far.gain + piece.gain,
        };
        Decided {
            taken,
            so_far,
            left,
        }
    }

    /// The next piece is left out.
    ///
    /// A piece has to be undecided.
    pub fn leave_out(&self) -> Decided
        requires some { 0 < self.now.left }
        ensures left { result.left + 1 ≡ self.now.left }
        ensures represents { (pieces : List Piece) (prefix : Prefix) → Represents pieces prefix self.now
            → Represents pieces (false ∷ prefix) result }
    {
        Decided {
            taken: self.taken,
            so_far: self.so_far,
            left: self.left - 1,
        }
    }
}
