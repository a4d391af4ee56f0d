//! The leaves of a log.
ghost use Rattle.std.specs.Prelude.{ℕ, suc, ◌<◌, true, List, ◌∷◌, length, IfSome, IsTrue};
ghost use Rattle.ci_cut.specs.Prefixes.{Prefix, eligible_nodes, is_next};
ghost use Rattle.ci_cut.specs.Incumbents.{IsImproved};
ghost use Rattle.ci_cut.specs.Representation.{AreRowsOf, Represents, RepresentsSome, RepresentsWhole};
ghost use Rattle.ci_check.specs.Representation.{IsMeasured};
ghost use Rattle.ci_check.specs.Rules.{Given, IsRight};
ghost use Rattle.ci_search.specs.private.Searched.{Prunes, IsPruning};

use ci_check::{is_right, is_right_with};
use ci_cut::{Graph, GraphRows, Incumbent, Limits, PrefixTerms};
use ci_log::Item;

/// The item that shows that no set that goes on from the prefix is better than the best cut so far, if one does.
pub fn pruning_item(
    graph: &Graph,
    rows: &GraphRows,
    limits: &Limits,
    best: &Incumbent,
    terms: &PrefixTerms,
) -> Option<Item>
    requires rows { AreRowsOf graph.now rows.now }
    requires represents { RepresentsSome graph.now terms.now }
    requires measured { IsMeasured graph.now limits.now best.now }
    ensures { (prefix : Prefix) (delays : List ℕ) → Represents graph.now prefix terms.now delays
        → IsPruning graph.now limits.now best.now.cut prefix result }
{
    if is_right(graph, rows, limits, best, terms, Item::O) {
        return Some(Item::O);
    }
    if is_right(graph, rows, limits, best, terms, Item::C) {
        return Some(Item::C);
    }
    if is_right(graph, rows, limits, best, terms, Item::I) {
        return Some(Item::I);
    }
    if is_right(graph, rows, limits, best, terms, Item::G) {
        return Some(Item::G);
    }
    None
}

/// An item that shows at once, by the outputs or the way back, that no set that goes on from where the next node is
/// taken in is a better cut. It is only given where a node is undecided there.
pub fn pruning_with(
    graph: &Graph,
    rows: &GraphRows,
    limits: &Limits,
    terms: &PrefixTerms,
    node: u8,
) -> Option<Item>
    requires rows { AreRowsOf graph.now rows.now }
    requires next { (prefix : Prefix) × (delays : List ℕ) × Represents graph.now prefix terms.now delays
        × IsTrue (is_next graph.now prefix node) }
    ensures { (best : Given) (prefix : Prefix) (delays : List ℕ) → Represents graph.now prefix terms.now delays
        → IsTrue (is_next graph.now prefix node)
        → IfSome result (λ item. Prunes item × IsRight graph.now limits.now best (true ∷ prefix) item
        × (suc (length prefix) < eligible_nodes graph.now)) }
{
    if rows.last_below[node as usize].is_none() {
        return None;
    }
    if is_right_with(graph, rows, limits, terms, node, Item::O) {
        return Some(Item::O);
    }
    if is_right_with(graph, rows, limits, terms, node, Item::C) {
        return Some(Item::C);
    }
    None
}

/// Puts the set that is taken in where the best cut so far stands, if it fits and gains more.
///
/// All nodes have to be decided.
pub fn improve(graph: &Graph, limits: &Limits, best: &mut Incumbent, terms: &PrefixTerms)
    requires { RepresentsWhole graph.now terms.now }
    ensures { IsImproved graph.now limits.now best.old terms.now.taken best.new }
{
    let Some(gain) = terms.fitting_gain(graph, limits) else {
        return;
    };
    if gain > best.gain {
        *best = Incumbent {
            cut: Some(terms.taken),
            gain,
        };
    }
}
