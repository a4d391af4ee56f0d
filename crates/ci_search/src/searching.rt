//! The search.
ghost use Rattle.std.specs.Prelude.{◌≡◌, ◌≢◌, ◌↔◌, suc, ◌≤◌, ◌+◌, ◌-◌, IsTrue, [], MatchOption, Some, None};
ghost use Rattle.std.specs.Prelude.{pos};
ghost use Rattle.ci_region.specs.BoundedMap.{used};
ghost use Rattle.ci_cut.specs.Prefixes.{Prefix};
ghost use Rattle.ci_cut.specs.Need.{NeedExceeds};
ghost use Rattle.ci_cut.specs.Representation.{AreRowsOf, AreKeptFrom};
ghost use Rattle.ci_check.specs.Representation.{IsMeasured};
ghost use Rattle.ci_log.specs.declared.flattening.LogNode.{LogNode};
ghost use Rattle.ci_search.specs.Answered.{free, IsSearchBy};
ghost use Rattle.ci_search.specs.private.Searched.{IsReady, IsGivenUp};
ghost use Rattle.ci_search.specs.private.Trees.{IsSearched, IsSearchOf, IsReadyFor, IsSearchWith, answer_of};
ghost use Rattle.ci_search.specs.private.Waiting.{AreKeptBelow};

use crate::leaves::{improve, pruning_item, pruning_with};
use crate::trees::{Pending, branches};
use ci_check::needs_more;
use ci_cut::{Delays, Graph, GraphRows, Incumbent, Limits, PrefixTerms};
use ci_log::{Child, Item, LogNode};
use ci_region::Region;
use ci_word::Row;

/// What a search finds.
#[derive(Clone, Copy, Debug, PartialEq, Eq)]
pub enum Found {
    /// The best cut, and the tree of a log that shows that it is.
    Best {
        /// The cut.
        cut: Row,
        /// The tree, which lies in the region.
        root: Child,
    },
    /// No set of nodes that fits has a positive gain, as the tree of a log shows.
    NoCut {
        /// The tree, which lies in the region.
        root: Child,
    },
    /// More branches are needed than slots were free.
    Spent {
        /// How many slots were free.
        budget: u32,
    },
}

/// Searches for the best cut, and writes a log into the region.
///
/// Slots that were live hold what they held, and the others that are live then are those of the tree. After `Spent`
/// there are none of these. As many free slots as a graph has sets of eligible nodes are always enough. A tree takes
/// as many slots as there are open prefixes that leave a node undecided, and no more.
pub fn search(graph: &Graph, limits: &Limits, region: &mut Region<LogNode>) -> Found
    ensures { IsSearchBy graph.now limits.now region.old region.new result }
{
    search_reusing(graph, limits, region, &mut GraphRows::new())
}

/// Searches as `search` does, with room for the graph's rows that may have held those of another one: a graph of few
/// nodes writes few of them.
pub fn search_reusing(
    graph: &Graph,
    limits: &Limits,
    region: &mut Region<LogNode>,
    rows: &mut GraphRows,
) -> Found
    ensures { IsSearchBy graph.now limits.now region.old region.new result }
{
    // Its contract tells that there are no more nodes than rows.
    let _nodes = graph.nodes();
    let budget = region.capacity() - region.used();
    let mut best = Incumbent { cut: None, gain: 0 };
    let root = search_all(graph, limits, region, rows, &mut best);
    answer_of(root, best.cut, budget)
}

/// Searches among all sets, and answers the tree of all prefixes. `None` where slots are wanting, and then the region
/// holds what it held.
fn search_all(
    graph: &Graph,
    limits: &Limits,
    region: &mut Region<LogNode>,
    rows: &mut GraphRows,
    best: &mut Incumbent,
) -> Option<Child>
    requires none { best.old ≡ record { cut = None; gain = pos 0 } }
    requires within { used region.old ≤ region.old.capacity }
    ensures { MatchOption result (IsGivenUp graph.now limits.now region.old region.new)
        (IsSearched graph.now limits.now [] best.old best.new region.old region.new) }
{
    // Else the region holds nothing where slots are wanting later, and is cleared as a whole.
    if needs_more_beside_others(graph, limits, region) {
        return None;
    }
    rows.hold(graph);
    let mut delays = [0; 256];
    let mut pending = [Child::Leaf(Item::F); 256];
    let mut first = PrefixTerms::none(graph);
    let Some(root) = search_from(
        graph,
        rows,
        limits,
        region,
        &mut first,
        &mut delays,
        best,
        &mut pending,
        0,
    ) else {
        region.clear();
        return None;
    };
    Some(root)
}

/// Whether more branches are needed than slots are free, in a region that holds others.
fn needs_more_beside_others(graph: &Graph, limits: &Limits, region: &Region<LogNode>) -> bool
    ensures { IsTrue result ↔ ((used region.now ≢ 0) × NeedExceeds graph.now limits.now (free region.now)) }
{
    region.used() != 0 && needs_more(graph, limits, region.capacity() - region.used())
}

/// What a search answers that has passed all sets with this best cut, or that spent this budget.
fn answer_of(root: Option<Child>, best: Option<Row>, budget: u32) -> Found
    ensures { result ≡ answer_of root best budget }
{
    let Some(root) = root else {
        return Found::Spent { budget };
    };
    match best {
        Some(cut) => Found::Best { cut, root },
        None => Found::NoCut { root },
    }
}

/// Searches among the sets that go on from the prefix with these terms, with this best cut so far, and answers the tree
/// of the prefix. `None` where slots are wanting.
///
/// It goes on where nodes are left out, one after the other. What was found where each of them is taken in waits from
/// number `bottom` on.
#[cycle(search)]
fn search_from(
    graph: &Graph,
    rows: &GraphRows,
    limits: &Limits,
    region: &mut Region<LogNode>,
    terms: &mut PrefixTerms,
    delays: &mut Delays,
    best: &mut Incumbent,
    pending: &mut Pending,
    bottom: usize,
) -> Option<Child>
    requires rows { AreRowsOf graph.now rows.now }
    requires measured { IsMeasured graph.now limits.now best.old }
    requires ready { (prefix : Prefix) × IsReady graph.now limits.now terms.old delays.old best.old prefix }
    requires within { used region.old ≤ region.old.capacity }
    requires room { bottom + terms.old.place ≤ 256 }
    ensures kept { AreKeptFrom terms.old.place delays.old delays.new }
    ensures kept_below { AreKeptBelow bottom pending.old pending.new }
    ensures searched { (prefix : Prefix) → IsReady graph.now limits.now terms.old delays.old best.old prefix
        → IsSearchOf graph.now limits.now prefix best.old best.new region.old region.new result }
{
    let mut top = bottom;
    'prefixes: loop {
        let Some(node) = terms.next(graph, rows) else {
            improve(graph, limits, best, terms);
            return branches(region, pending, bottom, top, Item::F);
        };
        if let Some(item) = pruning_item(graph, rows, limits, best, terms) {
            return branches(region, pending, bottom, top, item);
        }
        let taken = search_first(
            graph, rows, limits, region, terms, delays, best, pending, top, node,
        )?;
        pending[top] = taken;
        top += 1;
        terms.leave_out(graph, node);
    }
}

/// Searches among the sets that go on from where the next node is taken in.
#[cycle(search)]
fn search_first(
    graph: &Graph,
    rows: &GraphRows,
    limits: &Limits,
    region: &mut Region<LogNode>,
    terms: &PrefixTerms,
    delays: &mut Delays,
    best: &mut Incumbent,
    pending: &mut Pending,
    bottom: usize,
    node: u8,
) -> Option<Child>
    requires rows { AreRowsOf graph.now rows.now }
    requires measured { IsMeasured graph.now limits.now best.old }
    requires ready { IsReadyFor graph.now limits.now terms.now delays.old best.old node }
    requires within { used region.old ≤ region.old.capacity }
    requires room { bottom + node ≤ 256 }
    ensures kept { AreKeptFrom (suc node) delays.old delays.new }
    ensures kept_below { AreKeptBelow bottom pending.old pending.new }
    ensures searched { IsSearchWith graph.now limits.now terms.now delays.old node best.old best.new
        region.old region.new result }
{
    if let Some(item) = pruning_with(graph, rows, limits, terms, node) {
        return Some(Child::Leaf(item));
    }
    search_with(
        graph, rows, limits, region, terms, delays, best, pending, bottom, node,
    )
}

/// The same with the terms of the prefix that takes the node in.
// A frame of its own holds them, since few prefixes need them.
#[cycle(search)]
#[inline(never)]
fn search_with(
    graph: &Graph,
    rows: &GraphRows,
    limits: &Limits,
    region: &mut Region<LogNode>,
    terms: &PrefixTerms,
    delays: &mut Delays,
    best: &mut Incumbent,
    pending: &mut Pending,
    bottom: usize,
    node: u8,
) -> Option<Child>
    requires rows { AreRowsOf graph.now rows.now }
    requires measured { IsMeasured graph.now limits.now best.old }
    requires ready { IsReadyFor graph.now limits.now terms.now delays.old best.old node }
    requires within { used region.old ≤ region.old.capacity }
    requires room { bottom + node ≤ 256 }
    ensures kept { AreKeptFrom (suc node) delays.old delays.new }
    ensures kept_below { AreKeptBelow bottom pending.old pending.new }
    ensures searched { IsSearchWith graph.now limits.now terms.now delays.old node best.old best.new
        region.old region.new result }
{
    let mut with_node = terms.take_in(graph, rows, delays, node);
    search_from(
        graph,
        rows,
        limits,
        region,
        &mut with_node,
        delays,
        best,
        pending,
        bottom,
    )
}
