//! The leaves of a log of pairs.
ghost use Rattle.std.specs.Prelude.{◌≡◌, ◌+◌, ◌∷◌, IfSome, MatchOption, IsTrue};
ghost use Rattle.ci_cut.specs.FlowGraph.{node_at};
ghost use Rattle.ci_cut.specs.Prefixes.{is_next};
ghost use Rattle.ci_cut.specs.Representation.{AreRowsOf};
ghost use Rattle.ci_pair.specs.declared.terms.PairDelays.{PairDelays};
ghost use Rattle.ci_pair.specs.declared.pair.Pair.{Pair};
ghost use Rattle.ci_pair.specs.Pairs.{First, Second, Out};
ghost use Rattle.ci_pair.specs.Prefixes.{PairPrefix, choices, chosen, IsMirrored};
ghost use Rattle.ci_pair.specs.PairSets.{sets, given};
ghost use Rattle.ci_pair.specs.private.States.{Represents, RepresentsSome, RepresentsWhole};
ghost use Rattle.ci_pair.specs.private.Judged.{IsMeasured};
ghost use Rattle.ci_pair.specs.private.Searched.{Prunes, IsPruning, IsUnclosed, IsImproved};
ghost use Rattle.ci_pair.specs.Rules.{IsAfterBest, IsRight};

use crate::log::PairItem;
use crate::rules::{
    PairIncumbent, cost_with, fit_so_far, is_empty, is_right, is_right_first, is_right_second,
};
use crate::terms::PairTerms;
use ci_cut::{Graph, GraphRows, Limits};

/// The item that shows that no pair that goes on from the prefix is better than the best so far, if one does.
///
/// The prefix has to come after the best so far, and not to be mirrored.
pub fn pruning_item(
    graph: &Graph,
    rows: &GraphRows,
    limits: &Limits,
    best: &PairIncumbent,
    terms: &PairTerms,
) -> Option<PairItem>
    requires rows { AreRowsOf graph.now rows.now }
    requires represents { RepresentsSome graph.now terms.now }
    requires measured { IsMeasured graph.now limits.now best.now }
    ensures { (prefix : PairPrefix) (delays : PairDelays) → Represents graph.now prefix terms.now delays
        → ¬ IsMirrored graph.now prefix → IsAfterBest graph.now (given best.now.pair) prefix
        → IsPruning graph.now limits.now (given best.now.pair) prefix result }
{
    if is_right(graph, rows, limits, best, terms, PairItem::O) {
        return Some(PairItem::O);
    }
    if is_right(graph, rows, limits, best, terms, PairItem::C) {
        return Some(PairItem::C);
    }
    if is_right(graph, rows, limits, best, terms, PairItem::X) {
        return Some(PairItem::X);
    }
    pruning_left(graph, rows, limits, best, terms)
}

/// The same where the sets so far are known to have few enough outputs, to be convex and not to cross. They still are
/// so once a node is left out.
pub fn pruning_left(
    graph: &Graph,
    rows: &GraphRows,
    limits: &Limits,
    best: &PairIncumbent,
    terms: &PairTerms,
) -> Option<PairItem>
    requires rows { AreRowsOf graph.now rows.now }
    requires represents { RepresentsSome graph.now terms.now }
    requires measured { IsMeasured graph.now limits.now best.now }
    ensures { (prefix : PairPrefix) (delays : PairDelays) → Represents graph.now prefix terms.now delays
        → ¬ IsMirrored graph.now prefix → IsAfterBest graph.now (given best.now.pair) prefix
        → IsUnclosed graph.now limits.now prefix
        → IsPruning graph.now limits.now (given best.now.pair) prefix result }
{
    if is_right(graph, rows, limits, best, terms, PairItem::I) {
        return Some(PairItem::I);
    }
    let bound = terms.bound(graph);
    if bound > best.gain {
        return None;
    }
    Some(PairItem::G)
}

/// An item that shows at once that no pair that goes on from where the next node is in the first set is better.
///
/// The prefix with the node there has to come after the best so far.
pub fn pruning_first(
    graph: &Graph,
    rows: &GraphRows,
    limits: &Limits,
    best: &PairIncumbent,
    terms: &PairTerms,
    node: u8,
) -> Option<PairItem>
    requires rows { AreRowsOf graph.now rows.now }
    requires next { (prefix : PairPrefix) × (delays : PairDelays) × Represents graph.now prefix terms.now delays
        × IsTrue (is_next graph.now (choices First prefix) node) }
    requires measured { IsMeasured graph.now limits.now best.now }
    ensures { (prefix : PairPrefix) (delays : PairDelays) → Represents graph.now prefix terms.now delays
        → IsTrue (is_next graph.now (choices First prefix) node)
        → IsAfterBest graph.now (given best.now.pair) (First ∷ prefix)
        → IfSome result (λ item. Prunes item
        × IsRight graph.now limits.now (given best.now.pair) (First ∷ prefix) item) }
{
    if is_right_first(graph, rows, limits, best, terms, node, PairItem::O) {
        return Some(PairItem::O);
    }
    if is_right_first(graph, rows, limits, best, terms, node, PairItem::C) {
        return Some(PairItem::C);
    }
    let cost = cost_with(graph, rows, &terms.first, node);
    let bound = terms.bound_less(graph, cost);
    if bound > best.gain {
        return None;
    }
    Some(PairItem::G)
}

/// The same where the next node is in the second set. `None` also tells that the second set hasn't the greatest node
/// then.
///
/// It must not have it before.
pub fn pruning_second(
    graph: &Graph,
    rows: &GraphRows,
    limits: &Limits,
    best: &PairIncumbent,
    terms: &PairTerms,
    node: u8,
) -> Option<PairItem>
    requires rows { AreRowsOf graph.now rows.now }
    requires next { (prefix : PairPrefix) × (delays : PairDelays) × Represents graph.now prefix terms.now delays
        × IsTrue (is_next graph.now (choices First prefix) node) }
    requires measured { IsMeasured graph.now limits.now best.now }
    ensures { (prefix : PairPrefix) (delays : PairDelays) → Represents graph.now prefix terms.now delays
        → IsTrue (is_next graph.now (choices First prefix) node) → ¬ IsMirrored graph.now prefix
        → IsAfterBest graph.now (given best.now.pair) (Second ∷ prefix)
        → MatchOption result (¬ IsMirrored graph.now (Second ∷ prefix))
        (λ item. Prunes item × IsRight graph.now limits.now (given best.now.pair) (Second ∷ prefix) item) }
{
    if is_empty(&terms.first.taken) {
        return Some(PairItem::M);
    }
    if is_right_second(graph, rows, limits, best, terms, node, PairItem::O) {
        return Some(PairItem::O);
    }
    if is_right_second(graph, rows, limits, best, terms, node, PairItem::C) {
        return Some(PairItem::C);
    }
    let cost = cost_with(graph, rows, &terms.second, node);
    let bound = terms.bound_less(graph, cost);
    if bound > best.gain {
        return None;
    }
    Some(PairItem::G)
}

/// The same where the next node is in none.
pub fn pruning_out(
    graph: &Graph,
    limits: &Limits,
    best: &PairIncumbent,
    terms: &PairTerms,
    node: u8,
) -> Option<PairItem>
    requires next { (prefix : PairPrefix) × (delays : PairDelays) × Represents graph.now prefix terms.now delays
        × IsTrue (is_next graph.now (choices First prefix) node) }
    requires measured { IsMeasured graph.now limits.now best.now }
    ensures { (prefix : PairPrefix) (delays : PairDelays) → Represents graph.now prefix terms.now delays
        → IsTrue (is_next graph.now (choices First prefix) node)
        → IsAfterBest graph.now (given best.now.pair) (Out ∷ prefix)
        → IfSome result (λ item. Prunes item × IsRight graph.now limits.now (given best.now.pair) (Out ∷ prefix) item) }
{
    let cost = cost_without(graph, node);
    let bound = terms.bound_less(graph, cost);
    if bound > best.gain {
        return None;
    }
    Some(PairItem::G)
}

/// What the bounds of both sets fall by at least where the next node is in none: its latency less a no-op.
fn cost_without(graph: &Graph, node: u8) -> u32
    requires { (prefix : PairPrefix) × IsTrue (is_next graph.now (choices First prefix) node) }
    ensures { result + graph.now.pad ≡ (node_at graph.now node).latency }
{
    graph.nodes()[node as usize].latency - graph.pad()
}

/// The sets so far where the best pair so far stands, if they fit together and gain more.
///
/// All nodes have to be labelled.
pub fn improved(
    graph: &Graph,
    limits: &Limits,
    best: &PairIncumbent,
    terms: &PairTerms,
) -> PairIncumbent
    requires { RepresentsWhole graph.now terms.now }
    ensures { (prefix : PairPrefix) (delays : PairDelays) → Represents graph.now prefix terms.now delays
        → (pair : Pair) × (sets pair ≡ chosen graph.now prefix) × IsImproved graph.now limits.now best.now pair result }
{
    if !fit_so_far(graph, limits, terms) {
        return *best;
    }
    let gain = terms.bound(graph);
    if gain > best.gain {
        PairIncumbent {
            pair: Some(terms.chosen()),
            gain,
        }
    } else {
        *best
    }
}
