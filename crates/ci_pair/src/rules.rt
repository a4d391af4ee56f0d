//! The rules of the items of a log of pairs.
ghost use Rattle.std.specs.Prelude.{◌≡◌, ◌↔◌, ℕ, true, List, ◌∷◌, MatchOption, IsTrue, Some, pos, ◌-ℤ◌, ◌≤ℤ◌};
ghost use Rattle.std.specs.FinSet as set;
ghost use Rattle.ci_cut.specs.GraphRules.{AreNodes};
ghost use Rattle.ci_cut.specs.Prefixes as cuts;
ghost use Rattle.ci_cut.specs.Prefixes.{Prefix, is_next};
ghost use Rattle.ci_cut.specs.Representation as cut;
ghost use Rattle.ci_cut.specs.Representation.{AreRowsOf};
ghost use Rattle.ci_pair.specs.declared.terms.PairDelays.{PairDelays};
ghost use Rattle.ci_pair.specs.Pairs.{FitTogether, pair_gain, First, Second};
ghost use Rattle.ci_pair.specs.Prefixes.{PairPrefix, choices, chosen};
ghost use Rattle.ci_pair.specs.Trees.{IsLeaf};
ghost use Rattle.ci_pair.specs.PairSets.{sets, given};
ghost use Rattle.ci_pair.specs.private.States.{Represents, RepresentsSome, RepresentsWhole};
ghost use Rattle.ci_pair.specs.private.Judged.{IsMeasured, IsClosedBy, IsTooLittle};
ghost use Rattle.ci_pair.specs.Rules.{IsGood, IsAfterBest, IsBeforeBest, IsBetter, IsRight, GainsTooLittle};
ghost use Rattle.ci_pair.specs.Rules.{reason_of};

use crate::log::PairItem;
use crate::pair::{Pair, comes_before, fits_together, has_greatest};
use crate::terms::PairTerms;
use ci_cut::{Graph, GraphRows, Limits, PrefixTerms, are_nodes, gain, hardware};
use ci_word::Row;

/// The best pair that is given, or none, and what it gains; with no pair its gain is 0.
#[derive(Clone, Copy, Drop)]
pub struct PairIncumbent {
    pub pair: Option<Pair>,
    pub gain: i64,
}

/// The best pair that is given, or none. `None` where its sets don't fit together or have no positive gain.
pub fn checked(graph: &Graph, limits: &Limits, pair: Option<Pair>) -> Option<PairIncumbent>
    ensures { MatchOption result (¬ IsGood graph.now limits.now (given pair))
        (λ best. (best.pair ≡ pair) × IsMeasured graph.now limits.now best) }
{
    match pair {
        Some(sets) => {
            let gain = good_gain(graph, limits, &sets)?;
            Some(PairIncumbent {
                pair: Some(sets),
                gain,
            })
        }
        None => Some(PairIncumbent {
            pair: None,
            gain: 0,
        }),
    }
}

/// What both sets gain together, if they fit together and have a positive gain.
fn good_gain(graph: &Graph, limits: &Limits, pair: &Pair) -> Option<i64>
    ensures { MatchOption result (¬ IsGood graph.now limits.now (Some (sets pair.now)))
        (λ gained. IsGood graph.now limits.now (Some (sets pair.now))
        × (gained ≡ pair_gain graph.now (sets pair.now))) }
{
    if !are_nodes(graph, &pair.first) {
        return None;
    }
    if !are_nodes(graph, &pair.second) {
        return None;
    }
    if !fits_together(graph, limits, pair) {
        return None;
    }
    let gained = pair_gain(graph, pair);
    if gained > 0 { Some(gained) } else { None }
}

/// What both sets gain together.
///
/// The numbers of both sets have to be nodes.
pub fn pair_gain(graph: &Graph, pair: &Pair) -> i64
    requires first { AreNodes graph.now pair.now.first }
    requires second { AreNodes graph.now pair.now.second }
    ensures { result ≡ pair_gain graph.now (sets pair.now) }
{
    // These tell how great the numbers of the gains may be.
    let _nodes = graph.nodes();
    let _read = graph.read();
    let _pad = graph.pad();
    let _first = hardware(graph, &pair.first);
    let _second = hardware(graph, &pair.second);
    gain(graph, &pair.first) + gain(graph, &pair.second)
}

/// Whether the sets so far are a better pair than the best.
///
/// All nodes have to be labelled.
fn is_better(graph: &Graph, limits: &Limits, best: &PairIncumbent, terms: &PairTerms) -> bool
    requires whole { RepresentsWhole graph.now terms.now }
    requires measured { IsMeasured graph.now limits.now best.now }
    ensures { (prefix : PairPrefix) (delays : PairDelays) → Represents graph.now prefix terms.now delays
        → IsTrue result ↔ IsBetter graph.now limits.now (given best.now.pair) (chosen graph.now prefix) }
{
    if !fit_so_far(graph, limits, terms) {
        return false;
    }
    let gained = terms.bound(graph);
    gained > best.gain || gained == best.gain && is_before_best(best, &terms.chosen())
}

/// Whether the sets so far fit together.
///
/// All nodes have to be labelled.
pub fn fit_so_far(graph: &Graph, limits: &Limits, terms: &PairTerms) -> bool
    requires whole { RepresentsWhole graph.now terms.now }
    ensures { (prefix : PairPrefix) (delays : PairDelays) → Represents graph.now prefix terms.now delays
        → IsTrue result ↔ FitTogether graph.now limits.now (chosen graph.now prefix) }
{
    let first = terms.first.fitting_gain(graph, limits).is_some();
    let second = terms.second.fitting_gain(graph, limits).is_some();
    let apart = has_greatest(&terms.first.taken, &terms.second.taken) & !terms.is_crossing();
    first & second & apart
}

/// Whether the pair comes before the best; without one none does.
fn is_before_best(best: &PairIncumbent, pair: &Pair) -> bool
    ensures { IsTrue result ↔ IsBeforeBest (given best.now.pair) (sets pair.now) }
{
    match &best.pair {
        Some(best) => comes_before(pair, best, 0),
        None => false,
    }
}

/// Whether the prefix comes after the best pair; without one each does.
fn is_after_best(graph: &Graph, limits: &Limits, best: &PairIncumbent, terms: &PairTerms) -> bool
    requires represents { RepresentsSome graph.now terms.now }
    requires measured { IsMeasured graph.now limits.now best.now }
    ensures { (prefix : PairPrefix) (delays : PairDelays) → Represents graph.now prefix terms.now delays
        → IsTrue result ↔ IsAfterBest graph.now (given best.now.pair) prefix }
{
    match &best.pair {
        Some(best) => comes_before(best, &terms.chosen(), terms.first.place),
        None => true,
    }
}

/// Whether the bound of the prefix is too small for a better pair.
fn gains_too_little(graph: &Graph, limits: &Limits, best: &PairIncumbent, terms: &PairTerms) -> bool
    requires represents { RepresentsSome graph.now terms.now }
    requires measured { IsMeasured graph.now limits.now best.now }
    ensures { (prefix : PairPrefix) (delays : PairDelays) → Represents graph.now prefix terms.now delays
        → IsTrue result ↔ GainsTooLittle graph.now (given best.now.pair) prefix }
{
    is_too_little(graph, limits, best, terms, terms.bound(graph))
}

/// Whether the bound is too small for a better pair, where it bounds the pairs that go on from the prefix.
fn is_too_little(
    graph: &Graph,
    limits: &Limits,
    best: &PairIncumbent,
    terms: &PairTerms,
    bound: i64,
) -> bool
    requires represents { RepresentsSome graph.now terms.now }
    requires measured { IsMeasured graph.now limits.now best.now }
    ensures { (prefix : PairPrefix) (delays : PairDelays) → Represents graph.now prefix terms.now delays
        → IsTrue result ↔ IsTooLittle graph.now (given best.now.pair) prefix bound }
{
    bound < best.gain || bound == best.gain && is_after_best(graph, limits, best, terms)
}

/// Whether the item is right at the prefix.
pub fn is_right(
    graph: &Graph,
    rows: &GraphRows,
    limits: &Limits,
    best: &PairIncumbent,
    terms: &PairTerms,
    item: PairItem,
) -> bool
    requires rows { AreRowsOf graph.now rows.now }
    requires represents { RepresentsSome graph.now terms.now }
    requires measured { IsMeasured graph.now limits.now best.now }
    ensures { (prefix : PairPrefix) (delays : PairDelays) → Represents graph.now prefix terms.now delays
        → IsTrue result ↔ IsRight graph.now limits.now (given best.now.pair) prefix item }
{
    let outputs = u32::from(limits.outputs);
    let inputs = u32::from(limits.inputs);
    match item {
        PairItem::O => (terms.first.outputs > outputs) | (terms.second.outputs > outputs),
        PairItem::C => !(terms.first.convex & terms.second.convex),
        PairItem::I => (terms.first.settled > inputs) | (terms.second.settled > inputs),
        PairItem::X => terms.is_crossing(),
        PairItem::M => terms.is_mirrored(),
        PairItem::G => gains_too_little(graph, limits, best, terms),
        PairItem::F => terms.next(graph, rows).is_none() && !is_better(graph, limits, best, terms),
        PairItem::B => terms.next(graph, rows).is_some(),
    }
}

/// Whether the outputs, the way back or a cost of the bound show at once that the item is right where the next node is
/// in the first set.
pub fn is_right_first(
    graph: &Graph,
    rows: &GraphRows,
    limits: &Limits,
    best: &PairIncumbent,
    terms: &PairTerms,
    node: u8,
    item: PairItem,
) -> bool
    requires rows { AreRowsOf graph.now rows.now }
    requires next { (prefix : PairPrefix) × (delays : PairDelays) × Represents graph.now prefix terms.now delays
        × IsTrue (is_next graph.now (choices First prefix) node) }
    requires measured { IsMeasured graph.now limits.now best.now }
    ensures { (prefix : PairPrefix) (delays : PairDelays) → Represents graph.now prefix terms.now delays
        → IsTrue (is_next graph.now (choices First prefix) node) → IsTrue result
        → IsLeaf item × IsRight graph.now limits.now (given best.now.pair) (First ∷ prefix) item }
{
    match item {
        PairItem::G => {
            let cost = cost_with(graph, rows, &terms.first, node);
            let bound = terms.bound_less(graph, cost);
            is_too_little(graph, limits, best, terms, bound)
        }
        PairItem::B
        | PairItem::O
        | PairItem::C
        | PairItem::I
        | PairItem::X
        | PairItem::M
        | PairItem::F => is_right_with(graph, rows, limits, &terms.first, node, item),
    }
}

/// The same where the next node is in the second set, or that the second set has the greatest node then.
pub fn is_right_second(
    graph: &Graph,
    rows: &GraphRows,
    limits: &Limits,
    best: &PairIncumbent,
    terms: &PairTerms,
    node: u8,
    item: PairItem,
) -> bool
    requires rows { AreRowsOf graph.now rows.now }
    requires next { (prefix : PairPrefix) × (delays : PairDelays) × Represents graph.now prefix terms.now delays
        × IsTrue (is_next graph.now (choices First prefix) node) }
    requires measured { IsMeasured graph.now limits.now best.now }
    ensures { (prefix : PairPrefix) (delays : PairDelays) → Represents graph.now prefix terms.now delays
        → IsTrue (is_next graph.now (choices First prefix) node) → IsTrue result
        → IsLeaf item × IsRight graph.now limits.now (given best.now.pair) (Second ∷ prefix) item }
{
    match item {
        PairItem::M => is_empty(&terms.first.taken),
        PairItem::G => {
            let cost = cost_with(graph, rows, &terms.second, node);
            let bound = terms.bound_less(graph, cost);
            is_too_little(graph, limits, best, terms, bound)
        }
        PairItem::B | PairItem::O | PairItem::C | PairItem::I | PairItem::X | PairItem::F =>
            is_right_with(graph, rows, limits, &terms.second, node, item),
    }
}

/// Whether the set has no member.
pub fn is_empty(nodes: &Row) -> bool
    ensures { IsTrue result ↔ ((k : ℕ) → ¬ IsTrue (set.contains nodes.now k)) }
{
    match nodes.greatest() {
        Some(_) => false,
        None => true,
    }
}

/// Whether the outputs or the way back of one set show at once that the item is right where the next node is in it.
fn is_right_with(
    graph: &Graph,
    rows: &GraphRows,
    limits: &Limits,
    terms: &PrefixTerms,
    node: u8,
    item: PairItem,
) -> bool
    requires rows { AreRowsOf graph.now rows.now }
    requires next { (prefix : Prefix) × (delays : List ℕ) × cut.Represents graph.now prefix terms.now delays
        × IsTrue (is_next graph.now prefix node) }
    ensures { (prefix : Prefix) (delays : List ℕ) → cut.Represents graph.now prefix terms.now delays
        → IsTrue (is_next graph.now prefix node) → IsTrue result
        → IsClosedBy graph.now limits.now (true ∷ prefix) item }
{
    match item {
        PairItem::O => terms.outputs_with(graph, rows, node) > u32::from(limits.outputs),
        PairItem::C => !terms.convex_with(rows, node),
        PairItem::B | PairItem::I | PairItem::X | PairItem::M | PairItem::G | PairItem::F => false,
    }
}

/// What the bound of a set falls by at least where the next node is in it: where it is one more output beside others, a
/// read less a no-op.
pub fn cost_with(graph: &Graph, rows: &GraphRows, terms: &PrefixTerms, node: u8) -> u32
    requires rows { AreRowsOf graph.now rows.now }
    requires next { (prefix : Prefix) × (delays : List ℕ) × cut.Represents graph.now prefix terms.now delays
        × IsTrue (is_next graph.now prefix node) }
    ensures { (prefix : Prefix) (delays : List ℕ) → cut.Represents graph.now prefix terms.now delays
        → IsTrue (is_next graph.now prefix node)
        → cuts.bound graph.now (true ∷ prefix) ≤ℤ (cuts.bound graph.now prefix -ℤ pos result) }
{
    // Its contract tells that a no-op costs no more than a read.
    let _nodes = graph.nodes();
    if terms.outputs > 0 && terms.outputs_with(graph, rows, node) > terms.outputs {
        graph.read() - graph.pad()
    } else {
        0
    }
}

/// The reason that is given where the item is not right.
pub fn reason_of(item: PairItem) -> u8
    ensures { result ≡ reason_of item }
{
    match item {
        PairItem::O => 1,
        PairItem::C => 2,
        PairItem::I => 3,
        PairItem::G => 4,
        PairItem::F => 5,
        PairItem::B => 6,
        PairItem::X => 8,
        PairItem::M => 9,
    }
}
