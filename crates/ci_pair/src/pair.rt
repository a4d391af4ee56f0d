//! Pairs of sets of nodes.
ghost use Rattle.std.specs.Prelude.{◌≡◌, ◌↔◌, ℕ, IsTrue};
ghost use Rattle.std.specs.FinSet as set;
ghost use Rattle.ci_cut.specs.GraphRules.{AreNodes};
ghost use Rattle.ci_cut.specs.Representation.{AreRowsOf};
ghost use Rattle.ci_pair.specs.Pairs.{HasGreatest, Leads, FitTogether, label, rank};
ghost use Rattle.ci_pair.specs.PairSets.{sets, ComesBeforeFrom};

use ci_cut::{Graph, GraphRows, Limits, fits};
use ci_word::Row;

/// Two sets of nodes of one graph.
#[derive(Clone, Copy, Drop)]
pub struct Pair {
    pub first: Row,
    pub second: Row,
}

/// Whether both sets may become instructions beside each other: each fits under the limits, no node is in both, the
/// first has the greatest node, and walks lead one way at most.
///
/// The numbers of both sets have to be nodes. It takes no memory.
pub fn fits_together(graph: &Graph, limits: &Limits, pair: &Pair) -> bool
    requires first { AreNodes graph.now pair.now.first }
    requires second { AreNodes graph.now pair.now.second }
    ensures { IsTrue result ↔ FitTogether graph.now limits.now (sets pair.now) }
{
    let fit = fits(graph, limits, &pair.first) & fits(graph, limits, &pair.second);
    let apart = !pair.first.meets(&pair.second) & has_greatest(&pair.first, &pair.second);
    let mut rows = GraphRows::new();
    rows.hold(graph);
    let crossed = leads(graph, &rows, &pair.first, &pair.second)
        & leads(graph, &rows, &pair.second, &pair.first);
    fit & apart & !crossed
}

/// Whether the first set has a member above all of the second.
pub fn has_greatest(first: &Row, second: &Row) -> bool
    ensures { IsTrue result ↔ HasGreatest (set.contains first.now) (set.contains second.now) }
{
    let Some(place) = first.greatest() else {
        return false;
    };
    match second.greatest() {
        Some(other) => other < place,
        None => true,
    }
}

/// Whether a walk leads from a member of one set to a member of the other.
fn leads(graph: &Graph, rows: &GraphRows, from: &Row, to: &Row) -> bool
    requires rows { AreRowsOf graph.now rows.now }
    requires nodes { AreNodes graph.now to.now }
    ensures { IsTrue result ↔ Leads graph.now (set.contains from.now) (set.contains to.now) }
{
    for k in 0..graph.nodes().len() {
        if to.has(k as u8) && rows.ancestors[k].meets(from) {
            return true;
        }
    }
    false
}

/// Whether the pairs differ in the label of some number from `from` on, and at the greatest such number that of the
/// first pair comes first.
// Few prefixes are as good as the best pair, so those that ask for the others are kept short.
#[inline(never)]
pub fn comes_before(first: &Pair, second: &Pair, from: usize) -> bool
    ensures { IsTrue result ↔ ComesBeforeFrom from (sets first.now) (sets second.now) }
{
    let mut rest = differences(first, second);
    while let Some(place) = rest.greatest() {
        if usize::from(place) < from {
            return false;
        }
        let here = rank(first, place);
        let there = rank(second, place);
        if here != there {
            return here < there;
        }
        rest.remove(place);
    }
    false
}

/// The numbers that are in one of the first sets or in one of the second sets alone.
fn differences(first: &Pair, second: &Pair) -> Row
    ensures { (k : ℕ) → ¬ IsTrue (set.contains result k) → label (sets first.now) k ≡ label (sets second.now) k }
{
    let firsts = differing(&first.first, &second.first);
    let seconds = differing(&first.second, &second.second);
    firsts.union(&seconds)
}

/// The numbers that are in one of the sets alone.
fn differing(first: &Row, second: &Row) -> Row
    ensures { (k : ℕ) → ¬ IsTrue (set.contains result k) → set.contains first.now k ≡ set.contains second.now k }
{
    first.minus(second).union(&second.minus(first))
}

/// The place of the number's label in the order first, second, out.
fn rank(pair: &Pair, k: u8) -> u8
    ensures { result ≡ rank (label (sets pair.now) k) }
{
    if pair.first.has(k) {
        0
    } else if pair.second.has(k) {
        1
    } else {
        2
    }
}
