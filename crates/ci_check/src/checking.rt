//! The checker of logs.
ghost use Rattle.std.specs.Prelude.{◌≡◌, ◌↔◌, suc, ◌^◌, ◌<◌, ◌≤◌, true, IsTrue, List, ◌∷◌, ◌++◌, drop, length};
ghost use Rattle.std.specs.Prelude.{MatchOption, IsOk, IfErr, OnOk};
ghost use Rattle.std.specs.FinSet as set;
ghost use Rattle.ci_cut.specs.Best.{IsBest, HasNoCut};
ghost use Rattle.ci_log.specs.declared.log.Item.{Item};
ghost use Rattle.ci_log.specs.Trees.{IsTree};
ghost use Rattle.ci_cut.specs.Prefixes.{Prefix, is_next};
ghost use Rattle.ci_check.specs.Rules.{stations, IsAccepted, IsFirstWrong};
ghost use Rattle.ci_cut.specs.Representation.{AreRowsOf, Represents, AreKeptFrom};
ghost use Rattle.ci_check.specs.Representation.{IsMeasured, IsTreeAt, IsJudged, IsBranchOn};

use crate::rules::{checked, is_right, is_right_with, reason_of};
use ci_cut::{Delays, Graph, GraphRows, Incumbent, Limits, PrefixTerms};
use ci_log::{Item, Log};
use ci_word::Row;

/// The first wrong item of a log.
#[derive(Clone, Copy, Debug, PartialEq, Eq)]
pub struct Wrong {
    /// Its number in preorder, from 0.
    pub item: u32,
    /// Which rule it breaks:
    ///
    /// - 7, at item 0 and before all others: `best` is given and is not a set of nodes that fits with positive gain;
    /// - 1: `O` stands at a prefix whose outputs are within the limit;
    /// - 2: `C` stands at a prefix whose set is convex;
    /// - 3: `I` stands at a prefix whose settled inputs are within the limit;
    /// - 4: `G` stands at a prefix whose bound is greater than the best's gain, or equal to it where the prefix doesn't
    ///   come after the best;
    /// - 5: `F` stands at a choice that isn't complete, or at one that is a better cut than the best;
    /// - 6: `B` stands at a complete choice.
    pub reason: u8,
}

/// Whether the log shows that the cut is the best one, or that there is none; or the first item that shows nothing.
pub fn check(graph: &Graph, limits: &Limits, best: Option<Row>, log: &Log) -> Result<(), Wrong>
    ensures accepted { IsOk result ↔ IsAccepted graph.now limits.now best log.now }
    ensures wrong { IfErr result (IsFirstWrong graph.now limits.now best log.now) }
    ensures best { OnOk result (MatchOption best (HasNoCut graph.now limits.now)
        (λ cut. IsBest graph.now limits.now (set.contains cut))) }
{
    check_reusing(graph, limits, best, log, &mut GraphRows::new())
}

/// Checks as `check` does, with room for the graph's rows that may have held those of another one: a graph of few nodes
/// writes few of them.
pub fn check_reusing(
    graph: &Graph,
    limits: &Limits,
    best: Option<Row>,
    log: &Log,
    rows: &mut GraphRows,
) -> Result<(), Wrong>
    ensures accepted { IsOk result ↔ IsAccepted graph.now limits.now best log.now }
    ensures wrong { IfErr result (IsFirstWrong graph.now limits.now best log.now) }
    ensures best { OnOk result (MatchOption best (HasNoCut graph.now limits.now)
        (λ cut. IsBest graph.now limits.now (set.contains cut))) }
{
    let Some(best) = checked(graph, limits, best) else {
        return Err(Wrong { item: 0, reason: 7 });
    };
    rows.hold(graph);
    let mut delays = [0; 256];
    let mut none = PrefixTerms::none(graph);
    check_tree(
        graph,
        rows,
        limits,
        &best,
        log.items(),
        0,
        &mut none,
        &mut delays,
    )?;
    Ok(())
}

/// Checks the items of the tree that begins at `place`, at the prefix with these terms. It answers where the tree ends.
#[cycle(trees)]
fn check_tree(
    graph: &Graph,
    rows: &GraphRows,
    limits: &Limits,
    best: &Incumbent,
    items: &[Item],
    place: usize,
    terms: &mut PrefixTerms,
    delays: &mut Delays,
) -> Result<usize, Wrong>
    requires rows { AreRowsOf graph.now rows.now }
    requires represents { (prefix : Prefix) × Represents graph.now prefix terms.old delays.old }
    requires measured { IsMeasured graph.now limits.now best.now }
    requires few { length items.now < 2 ^ 32 }
    requires tree { IsTreeAt items.now place }
    ensures kept { AreKeptFrom terms.old.place delays.old delays.new }
    ensures judged { (prefix : Prefix) (one rest : List Item) (tree : IsTree one)
        → Represents graph.now prefix terms.old delays.old → drop place items.now ≡ one ++ rest
        → IsJudged graph.now limits.now best.now.cut (stations tree prefix) place result }
{
    let mut place = place;
    'prefixes: loop {
        let item = items[place];
        if !is_right(graph, rows, limits, best, terms, item) {
            return Err(Wrong {
                item: place as u32,
                reason: reason_of(item),
            });
        }
        let Some(node) = branch_on(graph, rows, terms, item) else {
            return Ok(place + 1);
        };
        if is_right_with(graph, rows, limits, terms, node, items[place + 1]) {
            terms.leave_out(graph, node);
            place += 2;
            continue;
        }
        let end = check_with(
            graph,
            rows,
            limits,
            best,
            items,
            place + 1,
            terms,
            delays,
            node,
        )?;
        terms.leave_out(graph, node);
        place = end;
    }
}

/// Checks the items of the tree that begins at `place`, where the next node is taken in.
// A frame of its own holds them, since few items need them.
#[cycle(trees)]
#[inline(never)]
fn check_with(
    graph: &Graph,
    rows: &GraphRows,
    limits: &Limits,
    best: &Incumbent,
    items: &[Item],
    place: usize,
    terms: &PrefixTerms,
    delays: &mut Delays,
    node: u8,
) -> Result<usize, Wrong>
    requires rows { AreRowsOf graph.now rows.now }
    requires next { (prefix : Prefix) × Represents graph.now prefix terms.now delays.old
        × IsTrue (is_next graph.now prefix node) }
    requires measured { IsMeasured graph.now limits.now best.now }
    requires few { length items.now < 2 ^ 32 }
    requires tree { IsTreeAt items.now place }
    ensures kept { AreKeptFrom (suc node) delays.old delays.new }
    ensures judged { (prefix : Prefix) (one rest : List Item) (tree : IsTree one)
        → Represents graph.now prefix terms.now delays.old → IsTrue (is_next graph.now prefix node)
        → drop place items.now ≡ one ++ rest
        → IsJudged graph.now limits.now best.now.cut (stations tree (true ∷ prefix)) place result }
{
    let mut with_node = terms.take_in(graph, rows, delays, node);
    check_tree(
        graph,
        rows,
        limits,
        best,
        items,
        place,
        &mut with_node,
        delays,
    )
}

/// The node that the item branches on, or `None` where it is a leaf or all nodes are decided.
fn branch_on(graph: &Graph, rows: &GraphRows, terms: &PrefixTerms, item: Item) -> Option<u8>
    requires rows { AreRowsOf graph.now rows.now }
    requires within { terms.now.place ≤ length graph.now.nodes }
    ensures { IsBranchOn graph.now terms.now.place item result }
{
    match item {
        Item::B => terms.next(graph, rows),
        Item::O | Item::C | Item::I | Item::G | Item::F => None,
    }
}
