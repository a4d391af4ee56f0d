//! The order of sets of nodes.
ghost use Rattle.std.specs.Prelude.{◌↔◌, IsTrue};
ghost use Rattle.std.specs.FinSet as set;
ghost use Rattle.ci_cut.specs.Best.{ComesBeforeFrom};

use ci_word::Row;

/// Whether the sets differ at some number from `from` on, and the first has the greatest number in which they differ.
// Few prefixes are as good as the best cut, so those that ask for the others are kept short.
#[inline(never)]
pub fn comes_before(first: &Row, second: &Row, from: usize) -> bool
    ensures { IsTrue result ↔ ComesBeforeFrom from (set.contains first.now) (set.contains second.now) }
{
    let Some(place) = first.minus(second).greatest() else {
        return false;
    };
    if usize::from(place) < from {
        return false;
    }
    match second.minus(first).greatest() {
        Some(other) => other < place,
        None => true,
    }
}
