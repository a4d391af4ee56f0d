//! What bounds the gain of the sets that go on from a prefix.
ghost use Rattle.std.specs.Prelude.{◌≡◌, ◌+◌, ◌*◌, ◌-◌, ◌^◌, ◌<◌, ◌≤◌, length};
ghost use Rattle.ci_area.specs.Pieces.{ArePieces};
ghost use Rattle.ci_area.specs.private.Beyond.{beyond_below, AreBeyond};

use crate::piece::{MOST, Piece};

/// What the piece gains beyond the price of its area at `num / den`, times `den`.
fn beyond_price(piece: Piece, num: u64, den: u64) -> u128
    ensures { result ≡ den * piece.gain - num * piece.area }
{
    let gained = den as u128 * piece.gain as u128;
    let price = num as u128 * piece.area as u128;
    gained.saturating_sub(price)
}

/// What the pieces below `left` gain beyond the price of their areas at `num / den`, times `den`.
pub fn beyond_below(pieces: &[Piece], left: usize, num: u64, den: u64) -> u128
    requires pieces { ArePieces pieces.now }
    requires within { left ≤ length pieces.now }
    requires den { den < 2 ^ 63 }
    ensures { result ≡ beyond_below pieces.now num den left }
{
    let mut beyond = 0;
    for k in 0..left {
        beyond += beyond_price(pieces[k], num, den);
    }
    beyond
}

/// What the pieces below each number gain beyond the price of their areas at `num / den`, times `den`.
pub fn beyond_each(pieces: &[Piece], num: u64, den: u64) -> [u128; MOST + 1]
    requires pieces { ArePieces pieces.now }
    requires den { den < 2 ^ 63 }
    ensures { AreBeyond pieces.now num den result }
{
    let mut beyond = [0; MOST + 1];
    for k in 0..pieces.len() {
        beyond[k + 1] = beyond[k] + beyond_price(pieces[k], num, den);
    }
    beyond
}

/// The bound by the rate `num / den`, times `den`, where what is taken in has this area and this gain, and what is
/// undecided gains so much beyond its price, times `den`.
///
/// What is taken in has to be within the limit.
pub fn scaled_bound(limit: u32, so_far: Piece, num: u64, den: u64, beyond: u128) -> u128
    requires fits { so_far.area ≤ limit }
    requires num { num < 2 ^ 63 }
    requires den { den < 2 ^ 63 }
    requires few { den * so_far.gain + beyond < 2 ^ 126 }
    ensures { result ≡ den * so_far.gain + num * (limit - so_far.area) + beyond }
{
    let gained = den as u128 * so_far.gain as u128;
    let price = num as u128 * (limit as u64 - so_far.area) as u128;
    gained + price + beyond
}
