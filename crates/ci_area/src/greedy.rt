//! The greedy set of pieces.
ghost use Rattle.std.specs.Prelude.{◌≡◌, ◌↔◌, ◌+◌, ◌*◌, ◌<◌, length, Some, IsTrue};
ghost use Rattle.std.specs.FinSet as set;
ghost use Rattle.ci_area.specs.Greedy.{IsGreedy};
ghost use Rattle.ci_area.specs.Pieces.{ArePieces, IsWithin};
ghost use Rattle.ci_area.specs.private.Tried.{IsFirstUntried, IsTriedSoFar};

use crate::piece::Piece;
use ci_word::Row;

/// The pieces that were tried.
#[derive(Clone, Copy)]
pub struct Tried {
    pub tried: Row,
    /// Those of them that were taken in.
    pub chosen: Row,
    /// The area of these.
    pub area: u64,
}

/// The greedy set: each piece is tried once, those first that gain most for their area, and of equal ones the least
/// number. A piece is taken in where the areas stay within the limit.
pub fn greedy(pieces: &[Piece], limit: u32) -> Row
    requires { ArePieces pieces.now }
    ensures greedy { IsGreedy pieces.now limit (set.contains result) }
    ensures within { IsWithin pieces.now limit (set.contains result) }
{
    let mut so_far = Tried {
        tried: Row::empty(),
        chosen: Row::empty(),
        area: 0,
    };
    while let Some(next) = first_untried(pieces, &so_far.tried) {
        so_far = so_far.with(pieces, limit, next);
    }
    so_far.chosen
}

impl Tried {
    /// Tries the next piece.
    fn with(&self, pieces: &[Piece], limit: u32, next: usize) -> Tried
        requires pieces { ArePieces pieces.now }
        requires so_far { IsTriedSoFar pieces.now limit self.now }
        requires first { IsFirstUntried pieces.now (set.contains self.now.tried) (length pieces.now) (Some next) }
        ensures so_far { IsTriedSoFar pieces.now limit result }
        ensures tried { result.tried ≡ set.insert self.now.tried next }
    {
        let mut tried = self.tried;
        tried.insert(next as u8);
        let area = self.area + pieces[next].area;
        if area > limit as u64 {
            return Tried {
                tried,
                chosen: self.chosen,
                area: self.area,
            };
        }
        let mut chosen = self.chosen;
        chosen.insert(next as u8);
        Tried {
            tried,
            chosen,
            area,
        }
    }
}

/// The piece that is tried next, if one is left.
fn first_untried(pieces: &[Piece], tried: &Row) -> Option<usize>
    requires { ArePieces pieces.now }
    ensures { IsFirstUntried pieces.now (set.contains tried.now) (length pieces.now) result }
{
    let mut first = None;
    for k in 0..pieces.len() {
        first = first_with(pieces, tried, k, first);
    }
    first
}

/// The piece that is tried first among those up to this number, where `first` is that among those below.
fn first_with(pieces: &[Piece], tried: &Row, number: usize, first: Option<usize>) -> Option<usize>
    requires pieces { ArePieces pieces.now }
    requires number { number < length pieces.now }
    requires first { IsFirstUntried pieces.now (set.contains tried.now) number first }
    ensures { IsFirstUntried pieces.now (set.contains tried.now) (number + 1) result }
{
    if tried.has(number as u8) {
        return first;
    }
    let Some(other) = first else {
        return Some(number);
    };
    let here = pieces[number];
    let there = pieces[other];
    if gains_more(here, there) {
        return Some(number);
    }
    first
}

/// Whether the first piece gains more for its area than the second.
fn gains_more(here: Piece, there: Piece) -> bool
    ensures { IsTrue result ↔ (there.gain * here.area < here.gain * there.area) }
{
    there.gain as u128 * (here.area as u128) < here.gain as u128 * there.area as u128
}
