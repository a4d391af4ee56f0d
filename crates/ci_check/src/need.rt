//! How many branches a log needs.
ghost use Rattle.std.specs.Prelude.{◌≡◌, ◌↔◌, ℕ, ◌+◌, ◌^◌, ◌<◌, ◌≤◌, List, length, IsTrue};
ghost use Rattle.std.specs.FinSet as set;
ghost use Rattle.ci_cut.specs.FlowGraph.{FlowGraph};
ghost use Rattle.ci_cut.specs.Prefixes.{Prefix, eligible_nodes};
ghost use Rattle.ci_cut.specs.Need.{IsOpen, NeedExceeds};
ghost use Rattle.ci_cut.specs.Representation.{AreRowsOf, Represents, RepresentsSome, RepresentsWhole, AreKeptFrom};
ghost use Rattle.ci_cut.specs.private.Reached.{IsBounded, IsReachedBefore, IsReachedWith};
ghost use Rattle.ci_check.specs.private.Walked.{IsWalked};

use ci_cut::{Delays, Graph, GraphRows, Limits, PrefixTerms};

/// What a walk over the prefixes has found so far.
#[derive(Clone, Copy)]
struct Walked {
    /// How many of the prefixes are open and leave a node undecided.
    open: u64,
    /// The greatest among 0 and the gains of the sets that fit and were passed.
    reached: i64,
}

/// Whether more prefixes are open that leave a node undecided than the budget.
pub fn needs_more(graph: &Graph, limits: &Limits, budget: u32) -> bool
    ensures { IsTrue result ↔ NeedExceeds graph.now limits.now budget }
{
    let none = Walked {
        open: 0,
        reached: 0,
    };
    let mut rows = GraphRows::new();
    rows.hold(graph);
    let mut delays = [0; 256];
    let mut first = PrefixTerms::none(graph);
    let all = walk(
        graph,
        &rows,
        limits,
        u64::from(budget),
        &mut first,
        &mut delays,
        none,
    );
    all.open > u64::from(budget)
}

/// Walks over the prefixes that go on from the one with these terms, and stops where more are open than the budget.
fn walk(
    graph: &Graph,
    rows: &GraphRows,
    limits: &Limits,
    budget: u64,
    terms: &mut PrefixTerms,
    delays: &mut Delays,
    before: Walked,
) -> Walked
    requires rows { AreRowsOf graph.now rows.now }
    requires represents { (prefix : Prefix) × Represents graph.now prefix terms.old delays.old }
    requires few { budget < 2 ^ 32 }
    requires within { before.open ≤ budget }
    ensures kept { AreKeptFrom terms.old.place delays.old delays.new }
    ensures walked { (prefix : Prefix) (undecided : ℕ) → Represents graph.now prefix terms.old delays.old
        → undecided + length prefix ≡ eligible_nodes graph.now
        → IsReachedBefore graph.now limits.now prefix before.reached
        → IsWalked graph.now limits.now budget undecided prefix before result }
{
    let Some(node) = terms.next(graph, rows) else {
        return Walked {
            open: before.open,
            reached: reached_with(graph, limits, terms, before.reached),
        };
    };
    if !is_open(graph, limits, terms, before.reached) {
        return before;
    }
    let here = Walked {
        open: before.open + 1,
        reached: before.reached,
    };
    if here.open > budget {
        return here;
    }
    let mut with_node = terms.take_in(graph, rows, delays, node);
    let between = walk(graph, rows, limits, budget, &mut with_node, delays, here);
    if between.open > budget {
        return between;
    }
    terms.leave_out(graph, node);
    walk(graph, rows, limits, budget, terms, delays, between)
}

/// The reached gain, with the set that is taken in.
///
/// All nodes have to be decided.
fn reached_with(graph: &Graph, limits: &Limits, terms: &PrefixTerms, reached: i64) -> i64
    requires { RepresentsWhole graph.now terms.now }
    ensures { IsReachedWith graph.now limits.now (set.contains terms.now.taken) reached result }
{
    let Some(gained) = terms.fitting_gain(graph, limits) else {
        return reached;
    };
    if gained > reached { gained } else { reached }
}

/// Whether the prefix is open, where the sets before it reached this gain.
fn is_open(graph: &Graph, limits: &Limits, terms: &PrefixTerms, reached: i64) -> bool
    requires { RepresentsSome graph.now terms.now }
    ensures { (prefix : Prefix) (delays : List ℕ) → Represents graph.now prefix terms.now delays
        → IsReachedBefore graph.now limits.now prefix reached
        → IsTrue result ↔ IsOpen graph.now limits.now prefix }
{
    is_bounded(limits, terms) && terms.bound(graph) > reached
}

/// Whether the set that is taken in is convex, and its outputs and settled inputs are within the limits.
fn is_bounded(limits: &Limits, terms: &PrefixTerms) -> bool
    ensures { (graph : FlowGraph) (prefix : Prefix) (delays : List ℕ) → Represents graph prefix terms.now delays
        → IsTrue result ↔ IsBounded graph limits.now prefix }
{
    terms.convex
        && terms.outputs <= u32::from(limits.outputs)
        && terms.settled <= u32::from(limits.inputs)
}
