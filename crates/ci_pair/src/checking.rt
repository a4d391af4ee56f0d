//! The checker of logs of pairs.
ghost use Rattle.std.specs.Prelude.{◌≡◌, ◌↔◌, suc, ◌^◌, ◌<◌, ◌≤◌, IsTrue, List, ◌∷◌, ◌++◌, drop, length};
ghost use Rattle.std.specs.Prelude.{MatchOption, IsOk, IfErr, OnOk};
ghost use Rattle.ci_cut.specs.Prefixes.{is_next};
ghost use Rattle.ci_cut.specs.Representation.{AreRowsOf};
ghost use Rattle.ci_pair.specs.declared.log.PairItem.{PairItem};
ghost use Rattle.ci_pair.specs.Trees.{IsTree};
ghost use Rattle.ci_pair.specs.Pairs.{IsBestPair, HasNoPair, First, Second};
ghost use Rattle.ci_pair.specs.Prefixes.{PairPrefix, choices};
ghost use Rattle.ci_pair.specs.PairSets.{sets, given};
ghost use Rattle.ci_pair.specs.private.States.{Represents, AreKeptFrom};
ghost use Rattle.ci_pair.specs.private.Judged.{IsMeasured, IsTreeAt, IsJudged, IsJudgedWith, IsBranchOn};
ghost use Rattle.ci_pair.specs.Rules.{stations, IsAccepted, IsFirstWrong};

use crate::log::{PairItem, PairLog};
use crate::pair::Pair;
use crate::rules::{PairIncumbent, checked, is_right, is_right_first, is_right_second, reason_of};
use crate::terms::{PairDelays, PairTerms};
use ci_cut::{Graph, GraphRows, Limits};

/// The first wrong item of a log.
#[derive(Clone, Copy, Debug, PartialEq, Eq)]
pub struct PairWrong {
    /// Its number in preorder, from 0.
    pub item: u32,
    /// Which rule it breaks:
    ///
    /// - 7, at item 0 and before all others: `best` is given and is no pair that fits together with positive gain;
    /// - 1: `O` stands at a prefix both of whose sets have outputs within the limit;
    /// - 2: `C` stands at a prefix both of whose sets are convex;
    /// - 3: `I` stands at a prefix both of whose sets have settled inputs within the limit;
    /// - 4: `G` stands at a prefix whose bound is greater than the best's gain, or equal to it where the prefix doesn't
    ///   come after the best;
    /// - 5: `F` stands at a choice that isn't complete, or at one that is a better pair than the best;
    /// - 6: `B` stands at a complete choice;
    /// - 8: `X` stands at a prefix that isn't crossing;
    /// - 9: `M` stands at a prefix that isn't mirrored.
    pub reason: u8,
}

/// Whether the log shows that the pair is the best one, or that there is none; or the first item that shows nothing.
///
/// It takes no memory.
pub fn check_pair(
    graph: &Graph,
    limits: &Limits,
    best: Option<Pair>,
    log: &PairLog,
) -> Result<(), PairWrong>
    ensures accepted { IsOk result ↔ IsAccepted graph.now limits.now (given best) log.now }
    ensures wrong { IfErr result (IsFirstWrong graph.now limits.now (given best) log.now) }
    ensures best { OnOk result (MatchOption best (HasNoPair graph.now limits.now)
        (λ pair. IsBestPair graph.now limits.now (sets pair))) }
{
    let Some(best) = checked(graph, limits, best) else {
        return Err(PairWrong { item: 0, reason: 7 });
    };
    let mut rows = GraphRows::new();
    rows.hold(graph);
    let mut delays = PairDelays {
        first: [0; 256],
        second: [0; 256],
    };
    let mut none = PairTerms::none(graph);
    check_tree(
        graph,
        &rows,
        limits,
        &best,
        log.items(),
        0,
        &mut none,
        &mut delays,
    )?;
    Ok(())
}

/// Checks the items of the tree that begins at `place`, at the prefix with these terms. It answers where the tree ends.
#[cycle(trees)]
fn check_tree(
    graph: &Graph,
    rows: &GraphRows,
    limits: &Limits,
    best: &PairIncumbent,
    items: &[PairItem],
    place: usize,
    terms: &mut PairTerms,
    delays: &mut PairDelays,
) -> Result<usize, PairWrong>
    requires rows { AreRowsOf graph.now rows.now }
    requires represents { (prefix : PairPrefix) × Represents graph.now prefix terms.old delays.old }
    requires measured { IsMeasured graph.now limits.now best.now }
    requires few { length items.now < 2 ^ 32 }
    requires tree { IsTreeAt items.now place }
    ensures kept { AreKeptFrom terms.old.first.place delays.old delays.new }
    ensures judged { (prefix : PairPrefix) (one rest : List PairItem) (tree : IsTree one)
        → Represents graph.now prefix terms.old delays.old → drop place items.now ≡ one ++ rest
        → IsJudged graph.now limits.now (given best.now.pair) (stations tree prefix) place result }
{
    let item = items[place];
    if !is_right(graph, rows, limits, best, terms, item) {
        return Err(PairWrong {
            item: place as u32,
            reason: reason_of(item),
        });
    }
    let Some(node) = branch_on(graph, rows, terms, item) else {
        return Ok(place + 1);
    };
    let second = check_first(
        graph,
        rows,
        limits,
        best,
        items,
        place + 1,
        terms,
        delays,
        node,
    )?;
    let out = check_second(
        graph, rows, limits, best, items, second, terms, delays, node,
    )?;
    terms.leave_out(graph, node);
    check_tree(graph, rows, limits, best, items, out, terms, delays)
}

/// Checks the items of the tree that begins at `place`, where the next node is in the first set.
// A frame of its own holds its terms.
#[cycle(trees)]
#[inline(never)]
fn check_first(
    graph: &Graph,
    rows: &GraphRows,
    limits: &Limits,
    best: &PairIncumbent,
    items: &[PairItem],
    place: usize,
    terms: &PairTerms,
    delays: &mut PairDelays,
    node: u8,
) -> Result<usize, PairWrong>
    requires rows { AreRowsOf graph.now rows.now }
    requires next { (prefix : PairPrefix) × Represents graph.now prefix terms.now delays.old
        × IsTrue (is_next graph.now (choices First prefix) node) }
    requires measured { IsMeasured graph.now limits.now best.now }
    requires few { length items.now < 2 ^ 32 }
    requires tree { IsTreeAt items.now place }
    ensures kept { AreKeptFrom (suc node) delays.old delays.new }
    ensures judged { IsJudgedWith graph.now limits.now best.now First terms.now delays.old node items.now place
        result }
{
    if is_right_first(graph, rows, limits, best, terms, node, items[place]) {
        return Ok(place + 1);
    }
    let mut with_node = *terms;
    with_node.put_in_first(graph, rows, delays, node);
    check_tree(
        graph,
        rows,
        limits,
        best,
        items,
        place,
        &mut with_node,
        delays,
    )
}

/// Checks the items of the tree that begins at `place`, where the next node is in the second set.
#[cycle(trees)]
#[inline(never)]
fn check_second(
    graph: &Graph,
    rows: &GraphRows,
    limits: &Limits,
    best: &PairIncumbent,
    items: &[PairItem],
    place: usize,
    terms: &PairTerms,
    delays: &mut PairDelays,
    node: u8,
) -> Result<usize, PairWrong>
    requires rows { AreRowsOf graph.now rows.now }
    requires next { (prefix : PairPrefix) × Represents graph.now prefix terms.now delays.old
        × IsTrue (is_next graph.now (choices First prefix) node) }
    requires measured { IsMeasured graph.now limits.now best.now }
    requires few { length items.now < 2 ^ 32 }
    requires tree { IsTreeAt items.now place }
    ensures kept { AreKeptFrom (suc node) delays.old delays.new }
    ensures judged { IsJudgedWith graph.now limits.now best.now Second terms.now delays.old node items.now place
        result }
{
    if is_right_second(graph, rows, limits, best, terms, node, items[place]) {
        return Ok(place + 1);
    }
    let mut with_node = *terms;
    with_node.put_in_second(graph, rows, delays, node);
    check_tree(
        graph,
        rows,
        limits,
        best,
        items,
        place,
        &mut with_node,
        delays,
    )
}

/// The node that the item branches on, or `None` where it is a leaf or all nodes are labelled.
fn branch_on(graph: &Graph, rows: &GraphRows, terms: &PairTerms, item: PairItem) -> Option<u8>
    requires rows { AreRowsOf graph.now rows.now }
    requires within { terms.now.first.place ≤ length graph.now.nodes }
    ensures { IsBranchOn graph.now terms.now.first.place item result }
{
    match item {
        PairItem::B => terms.next(graph, rows),
        PairItem::O
        | PairItem::C
        | PairItem::I
        | PairItem::X
        | PairItem::M
        | PairItem::G
        | PairItem::F => None,
    }
}
