//! The rules of the items of a log.
ghost use Rattle.std.specs.Prelude.{◌≡◌, ◌↔◌, ℕ, true, List, ◌∷◌, MatchOption, IsTrue};
ghost use Rattle.std.specs.FinSet as set;
ghost use Rattle.ci_cut.specs.Prefixes.{Prefix, is_next};
ghost use Rattle.ci_cut.specs.Representation.{AreRowsOf, Represents, RepresentsSome, RepresentsWhole};
ghost use Rattle.ci_log.specs.Trees.{IsLeaf};
ghost use Rattle.ci_check.specs.Rules.{Given, IsGood, IsAfterBest, IsBeforeBest, IsBetter, IsRight, GainsTooLittle};
ghost use Rattle.ci_check.specs.Rules.{reason_of};
ghost use Rattle.ci_check.specs.Representation.{IsMeasured};

use ci_cut::{
    Graph, GraphRows, Incumbent, Limits, PrefixTerms, are_nodes, comes_before, gain_above,
};
use ci_log::Item;
use ci_word::Row;

/// The best cut that is given, or none. `None` where it does not fit or has no positive gain.
pub fn checked(graph: &Graph, limits: &Limits, cut: Option<Row>) -> Option<Incumbent>
    ensures { MatchOption result (¬ IsGood graph.now limits.now cut)
        (λ best. (best.cut ≡ cut) × IsMeasured graph.now limits.now best) }
{
    let Some(row) = cut else {
        return Some(Incumbent { cut, gain: 0 });
    };
    if !are_nodes(graph, &row) {
        return None;
    }
    let gain = gain_above(graph, limits, &row, 0)?;
    Some(Incumbent { cut, gain })
}

/// Whether the set that is taken in is a better cut than the best.
///
/// All nodes have to be decided.
fn is_better(graph: &Graph, limits: &Limits, best: &Incumbent, terms: &PrefixTerms) -> bool
    requires whole { RepresentsWhole graph.now terms.now }
    requires measured { IsMeasured graph.now limits.now best.now }
    ensures { IsTrue result ↔ IsBetter graph.now limits.now best.now.cut (set.contains terms.now.taken) }
{
    let Some(gained) = terms.fitting_gain(graph, limits) else {
        return false;
    };
    gained > best.gain || gained == best.gain && is_before_best(best, &terms.taken)
}

/// Whether the set comes before the best cut; without one none does.
fn is_before_best(best: &Incumbent, cut: &Row) -> bool
    ensures { IsTrue result ↔ IsBeforeBest best.now.cut (set.contains cut.now) }
{
    match &best.cut {
        Some(best) => comes_before(cut, best, 0),
        None => false,
    }
}

/// Whether the prefix comes after the best cut; without one each does.
fn is_after_best(graph: &Graph, limits: &Limits, best: &Incumbent, terms: &PrefixTerms) -> bool
    requires represents { RepresentsSome graph.now terms.now }
    requires measured { IsMeasured graph.now limits.now best.now }
    ensures { (prefix : Prefix) (delays : List ℕ) → Represents graph.now prefix terms.now delays
        → IsTrue result ↔ IsAfterBest graph.now best.now.cut prefix }
{
    match &best.cut {
        Some(best) => comes_before(best, &terms.taken, terms.place),
        None => true,
    }
}

/// Whether the bound is too small for a better cut.
#[inline]
fn gains_too_little(graph: &Graph, limits: &Limits, best: &Incumbent, terms: &PrefixTerms) -> bool
    requires represents { RepresentsSome graph.now terms.now }
    requires measured { IsMeasured graph.now limits.now best.now }
    ensures { (prefix : Prefix) (delays : List ℕ) → Represents graph.now prefix terms.now delays
        → IsTrue result ↔ GainsTooLittle graph.now best.now.cut prefix }
{
    let bound = terms.bound(graph);
    bound < best.gain || bound == best.gain && is_after_best(graph, limits, best, terms)
}

/// Whether the item is right at the prefix.
#[inline]
pub fn is_right(
    graph: &Graph,
    rows: &GraphRows,
    limits: &Limits,
    best: &Incumbent,
    terms: &PrefixTerms,
    item: Item,
) -> bool
    requires rows { AreRowsOf graph.now rows.now }
    requires represents { RepresentsSome graph.now terms.now }
    requires measured { IsMeasured graph.now limits.now best.now }
    ensures { (prefix : Prefix) (delays : List ℕ) → Represents graph.now prefix terms.now delays
        → IsTrue result ↔ IsRight graph.now limits.now best.now.cut prefix item }
{
    match item {
        Item::O => terms.outputs > u32::from(limits.outputs),
        Item::C => !terms.convex,
        Item::I => terms.settled > u32::from(limits.inputs),
        Item::G => gains_too_little(graph, limits, best, terms),
        Item::F => terms.next(graph, rows).is_none() && !is_better(graph, limits, best, terms),
        Item::B => terms.next(graph, rows).is_some(),
    }
}

/// Whether the outputs or the way back show at once that the item is right where the next node is taken in.
pub fn is_right_with(
    graph: &Graph,
    rows: &GraphRows,
    limits: &Limits,
    terms: &PrefixTerms,
    node: u8,
    item: Item,
) -> bool
    requires rows { AreRowsOf graph.now rows.now }
    requires next { (prefix : Prefix) × (delays : List ℕ) × Represents graph.now prefix terms.now delays
        × IsTrue (is_next graph.now prefix node) }
    ensures { (best : Given) (prefix : Prefix) (delays : List ℕ) → Represents graph.now prefix terms.now delays
        → IsTrue (is_next graph.now prefix node) → IsTrue result
        → IsLeaf item × IsRight graph.now limits.now best (true ∷ prefix) item }
{
    match item {
        Item::O => terms.outputs_with(graph, rows, node) > u32::from(limits.outputs),
        Item::C => !terms.convex_with(rows, node),
        Item::I | Item::G | Item::F | Item::B => false,
    }
}

/// The reason that is given where the item is not right.
pub fn reason_of(item: Item) -> u8
    ensures { result ≡ reason_of item }
{
    match item {
        Item::O => 1,
        Item::C => 2,
        Item::I => 3,
        Item::G => 4,
        Item::F => 5,
        Item::B => 6,
    }
}
