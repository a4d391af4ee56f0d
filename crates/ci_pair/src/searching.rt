//! The search for pairs.
ghost use Rattle.std.specs.Prelude.{◌≡◌, suc, ◌≤◌, [], ◌∷◌, pos, MatchOption, None};
ghost use Rattle.ci_region.specs.BoundedMap.{used};
ghost use Rattle.ci_cut.specs.Representation.{AreRowsOf};
ghost use Rattle.ci_pair.specs.Answered.{IsPairSearchBy};
ghost use Rattle.ci_pair.specs.Pairs.{First, Second, Out};
ghost use Rattle.ci_pair.specs.Prefixes.{PairPrefix, IsMirrored};
ghost use Rattle.ci_pair.specs.private.States.{AreKeptFrom};
ghost use Rattle.ci_pair.specs.private.Judged.{IsMeasured};
ghost use Rattle.ci_pair.specs.PairSets.{given};
ghost use Rattle.ci_pair.specs.private.Searched.{IsPruning, IsUnclosed};
ghost use Rattle.ci_pair.specs.private.SearchTrees.{IsReady, IsReadyFor, IsSearched, IsSearchOf, IsSearchWith};
ghost use Rattle.ci_pair.specs.private.SearchTrees.{IsGivenUp, answer_of};

use crate::flattening::{PairChild, PairNode};
use crate::leaves::{
    improved, pruning_first, pruning_item, pruning_left, pruning_out, pruning_second,
};
use crate::log::PairItem;
use crate::pair::Pair;
use crate::rules::PairIncumbent;
use crate::terms::{PairDelays, PairTerms};
use crate::trees::{beside, branch};
use ci_cut::{Graph, GraphRows, Limits};
use ci_region::Region;

/// What a search for pairs finds.
#[derive(Clone, Copy, Drop)]
pub enum PairFound {
    /// The best pair, and the tree of a log that shows that it is.
    Best {
        /// The pair.
        pair: Pair,
        /// The tree, which lies in the region.
        root: PairChild,
    },
    /// No pair has a positive gain, as the tree of a log shows.
    NoPair {
        /// The tree, which lies in the region.
        root: PairChild,
    },
    /// More branches are needed than slots were free.
    Spent {
        /// How many slots were free.
        budget: u32,
    },
}

/// Searches for the best pair, and writes a log into the region.
///
/// Slots that were live hold what they held, and the others that are live then are those of the tree. After `Spent`
/// there are none of these. As many free slots as a graph has ways to label its eligible nodes are always enough. It
/// takes no memory.
pub fn search_pair(graph: &Graph, limits: &Limits, region: &mut Region<PairNode>) -> PairFound
    ensures { IsPairSearchBy graph.now limits.now region.old region.new result }
{
    // Its contract tells what the nodes of a graph are.
    let _nodes = graph.nodes();
    let budget = region.capacity() - region.used();
    let mut best = PairIncumbent {
        pair: None,
        gain: 0,
    };
    let root = search_all(graph, limits, region, &mut best);
    answer_of(root, best.pair, budget)
}

/// Searches among all pairs, and answers the tree of all prefixes. `None` where slots are wanting, and then the region
/// holds what it held.
fn search_all(
    graph: &Graph,
    limits: &Limits,
    region: &mut Region<PairNode>,
    best: &mut PairIncumbent,
) -> Option<PairChild>
    requires none { best.old ≡ record { pair = None; gain = pos 0 } }
    requires within { used region.old ≤ region.old.capacity }
    ensures { MatchOption result (IsGivenUp graph.now limits.now region.old region.new)
        (IsSearched graph.now limits.now [] best.old best.new region.old region.new) }
{
    let mut rows = GraphRows::new();
    rows.hold(graph);
    let mut delays = PairDelays {
        first: [0; 256],
        second: [0; 256],
    };
    let mut none = PairTerms::none(graph);
    search_from(graph, &rows, limits, region, &mut none, &mut delays, best)
}

/// What a search answers that has passed all pairs with this best one, or that spent this budget.
fn answer_of(root: Option<PairChild>, best: Option<Pair>, budget: u32) -> PairFound
    ensures { result ≡ answer_of root best budget }
{
    let Some(root) = root else {
        return PairFound::Spent { budget };
    };
    match best {
        Some(pair) => PairFound::Best { pair, root },
        None => PairFound::NoPair { root },
    }
}

/// Searches among the pairs that go on from the prefix with these terms, with this best pair so far, and answers the
/// tree of the prefix. `None` where slots are wanting, and then the region holds what it held.
#[cycle(search)]
fn search_from(
    graph: &Graph,
    rows: &GraphRows,
    limits: &Limits,
    region: &mut Region<PairNode>,
    terms: &mut PairTerms,
    delays: &mut PairDelays,
    best: &mut PairIncumbent,
) -> Option<PairChild>
    requires rows { AreRowsOf graph.now rows.now }
    requires measured { IsMeasured graph.now limits.now best.old }
    requires ready { (prefix : PairPrefix) × IsReady graph.now limits.now terms.old delays.old best.old prefix }
    requires within { used region.old ≤ region.old.capacity }
    ensures kept { AreKeptFrom terms.old.first.place delays.old delays.new }
    ensures searched { (prefix : PairPrefix) → IsReady graph.now limits.now terms.old delays.old best.old prefix
        → IsSearchOf graph.now limits.now prefix best.old best.new region.old region.new result }
{
    if let Some(item) = pruning_item(graph, rows, limits, best, terms) {
        return Some(PairChild::Leaf(item));
    }
    search_unpruned(graph, rows, limits, region, terms, delays, best)
}

/// The same where no item prunes the prefix.
#[cycle(search)]
fn search_unpruned(
    graph: &Graph,
    rows: &GraphRows,
    limits: &Limits,
    region: &mut Region<PairNode>,
    terms: &mut PairTerms,
    delays: &mut PairDelays,
    best: &mut PairIncumbent,
) -> Option<PairChild>
    requires rows { AreRowsOf graph.now rows.now }
    requires measured { IsMeasured graph.now limits.now best.old }
    requires ready { (prefix : PairPrefix) × IsReady graph.now limits.now terms.old delays.old best.old prefix
        × IsPruning graph.now limits.now (given best.old.pair) prefix None }
    requires within { used region.old ≤ region.old.capacity }
    ensures kept { AreKeptFrom terms.old.first.place delays.old delays.new }
    ensures searched { (prefix : PairPrefix) → IsReady graph.now limits.now terms.old delays.old best.old prefix
        → IsPruning graph.now limits.now (given best.old.pair) prefix None
        → IsSearchOf graph.now limits.now prefix best.old best.new region.old region.new result }
{
    let Some(node) = terms.next(graph, rows) else {
        let better = improved(graph, limits, best, terms);
        *best = better;
        return Some(PairChild::Leaf(PairItem::F));
    };
    let first = search_first(graph, rows, limits, region, terms, delays, best, node)?;
    let later = search_second(graph, rows, limits, region, terms, delays, best, node);
    let second = beside(region, &first, later)?;
    let last = search_out(graph, rows, limits, region, terms, delays, best, node);
    let behind = beside(region, &second, last);
    let out = beside(region, &first, behind)?;
    branch(region, first, second, out)
}

/// Searches among the pairs that go on from where the next node is in the first set.
#[cycle(search)]
fn search_first(
    graph: &Graph,
    rows: &GraphRows,
    limits: &Limits,
    region: &mut Region<PairNode>,
    terms: &PairTerms,
    delays: &mut PairDelays,
    best: &mut PairIncumbent,
    node: u8,
) -> Option<PairChild>
    requires rows { AreRowsOf graph.now rows.now }
    requires measured { IsMeasured graph.now limits.now best.old }
    requires ready { (prefix : PairPrefix)
        × IsReadyFor graph.now limits.now First terms.now delays.old best.old node prefix }
    requires within { used region.old ≤ region.old.capacity }
    ensures kept { AreKeptFrom (suc node) delays.old delays.new }
    ensures searched { IsSearchWith graph.now limits.now First terms.now delays.old node best.old best.new
        region.old region.new result }
{
    if let Some(item) = pruning_first(graph, rows, limits, best, terms, node) {
        return Some(PairChild::Leaf(item));
    }
    search_with_first(graph, rows, limits, region, terms, delays, best, node)
}

/// The same with the terms of the prefix that has the node there.
// A frame of its own holds them, since few prefixes need them.
#[cycle(search)]
#[inline(never)]
fn search_with_first(
    graph: &Graph,
    rows: &GraphRows,
    limits: &Limits,
    region: &mut Region<PairNode>,
    terms: &PairTerms,
    delays: &mut PairDelays,
    best: &mut PairIncumbent,
    node: u8,
) -> Option<PairChild>
    requires rows { AreRowsOf graph.now rows.now }
    requires measured { IsMeasured graph.now limits.now best.old }
    requires ready { (prefix : PairPrefix)
        × IsReadyFor graph.now limits.now First terms.now delays.old best.old node prefix }
    requires within { used region.old ≤ region.old.capacity }
    ensures kept { AreKeptFrom (suc node) delays.old delays.new }
    ensures searched { IsSearchWith graph.now limits.now First terms.now delays.old node best.old best.new
        region.old region.new result }
{
    let mut with_node = *terms;
    with_node.put_in_first(graph, rows, delays, node);
    search_from(graph, rows, limits, region, &mut with_node, delays, best)
}

/// Searches among the pairs that go on from where the next node is in the second set.
#[cycle(search)]
fn search_second(
    graph: &Graph,
    rows: &GraphRows,
    limits: &Limits,
    region: &mut Region<PairNode>,
    terms: &PairTerms,
    delays: &mut PairDelays,
    best: &mut PairIncumbent,
    node: u8,
) -> Option<PairChild>
    requires rows { AreRowsOf graph.now rows.now }
    requires measured { IsMeasured graph.now limits.now best.old }
    requires ready { (prefix : PairPrefix)
        × IsReadyFor graph.now limits.now Second terms.now delays.old best.old node prefix }
    requires within { used region.old ≤ region.old.capacity }
    ensures kept { AreKeptFrom (suc node) delays.old delays.new }
    ensures searched { IsSearchWith graph.now limits.now Second terms.now delays.old node best.old best.new
        region.old region.new result }
{
    if let Some(item) = pruning_second(graph, rows, limits, best, terms, node) {
        return Some(PairChild::Leaf(item));
    }
    search_with_second(graph, rows, limits, region, terms, delays, best, node)
}

/// The same with the terms of the prefix that has the node there.
#[cycle(search)]
#[inline(never)]
fn search_with_second(
    graph: &Graph,
    rows: &GraphRows,
    limits: &Limits,
    region: &mut Region<PairNode>,
    terms: &PairTerms,
    delays: &mut PairDelays,
    best: &mut PairIncumbent,
    node: u8,
) -> Option<PairChild>
    requires rows { AreRowsOf graph.now rows.now }
    requires measured { IsMeasured graph.now limits.now best.old }
    requires ready { (prefix : PairPrefix)
        × IsReadyFor graph.now limits.now Second terms.now delays.old best.old node prefix
        × (¬ IsMirrored graph.now (Second ∷ prefix)) }
    requires within { used region.old ≤ region.old.capacity }
    ensures kept { AreKeptFrom (suc node) delays.old delays.new }
    ensures searched { (prefix : PairPrefix)
        → IsReadyFor graph.now limits.now Second terms.now delays.old best.old node prefix
        → ¬ IsMirrored graph.now (Second ∷ prefix)
        → IsSearchOf graph.now limits.now (Second ∷ prefix) best.old best.new region.old region.new result }
{
    let mut with_node = *terms;
    with_node.put_in_second(graph, rows, delays, node);
    search_from(graph, rows, limits, region, &mut with_node, delays, best)
}

/// Searches among the pairs that go on from where the next node is in none.
#[cycle(search)]
fn search_out(
    graph: &Graph,
    rows: &GraphRows,
    limits: &Limits,
    region: &mut Region<PairNode>,
    terms: &mut PairTerms,
    delays: &mut PairDelays,
    best: &mut PairIncumbent,
    node: u8,
) -> Option<PairChild>
    requires rows { AreRowsOf graph.now rows.now }
    requires measured { IsMeasured graph.now limits.now best.old }
    requires ready { (prefix : PairPrefix)
        × IsReadyFor graph.now limits.now Out terms.old delays.old best.old node prefix
        × IsUnclosed graph.now limits.now prefix }
    requires within { used region.old ≤ region.old.capacity }
    ensures kept { AreKeptFrom (suc node) delays.old delays.new }
    ensures searched { (prefix : PairPrefix)
        → IsReadyFor graph.now limits.now Out terms.old delays.old best.old node prefix
        → IsUnclosed graph.now limits.now prefix
        → IsSearchOf graph.now limits.now (Out ∷ prefix) best.old best.new region.old region.new result }
{
    if let Some(item) = pruning_out(graph, limits, best, terms, node) {
        return Some(PairChild::Leaf(item));
    }
    terms.leave_out(graph, node);
    if let Some(item) = pruning_left(graph, rows, limits, best, terms) {
        return Some(PairChild::Leaf(item));
    }
    search_unpruned(graph, rows, limits, region, terms, delays, best)
}
