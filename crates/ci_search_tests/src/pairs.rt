//! Pairs of cuts of small graphs that are built by hand, with their logs.
ghost use Rattle.ci_pair.specs.RegionTrees.{LiesIn};
ghost use Rattle.ci_pair.specs.Trees.{IsLeaf};

use crate::graphs::{ONE_OUTPUT, Part, SUM, graph_of, row_below, row_of, sums, two_sums};
use ci_cut::Source::{Entry, Made};
use ci_cut::{Graph, Limits};
use ci_pair::PairItem::{B, C, F, G, I, M, O, X};
use ci_pair::{
    Pair, PairChild, PairFound, PairItem, PairLog, PairNode, PairWrong, check_pair, fits_together,
    flatten_pair, search_pair,
};
use ci_region::Region;
use std::alloc::{AllocError, Global};
use std::process::Abort;
use std::test::Fail;

// Graphs, logs and regions are let go by calls of `drop`, which a proof does not look into.

/// The members of both sets.
type Members<'a> = (&'a [u8], &'a [u8]);

/// The pair of these sets.
fn pair_of(members: Members<'_>) -> Pair {
    Pair {
        first: row_of(members.0),
        second: row_of(members.1),
    }
}

/// The same, if there is a pair.
fn pair_if(members: Option<Members<'_>>) -> Option<Pair> {
    match members {
        Some(members) => Some(pair_of(members)),
        None => None,
    }
}

/// Whether both are none, or have the same sets.
fn is_same(first: Option<Pair>, second: Option<Pair>) -> bool {
    match first {
        Some(one) => match second {
            Some(other) => one.first == other.first && one.second == other.second,
            None => false,
        },
        None => second.is_none(),
    }
}

// ---- searches

/// What a search tells: the best pair, or the budget.
type Told = Result<Option<Pair>, u32>;

/// The log of the tree has a branch for each slot, and the checker accepts it.
fn check_log(
    rt: &impl Abort,
    alloc: Global,
    graph: &Graph,
    best: &Option<Pair>,
    region: &Region<PairNode>,
    root: PairChild,
) -> Result<(), AllocError>
    requires { LiesIn region.now root }
{
    assert!(rt; region.used() < 1 << 30);
    let log = flatten_pair(alloc, region, root)?;
    let branches = log.items().len() / 3;
    let answer = check_pair(graph, &ONE_OUTPUT, *best, &log);
    drop(log);
    assert!(rt; branches == (region.used() as usize));
    assert!(rt; answer == Ok(()));
    Ok(())
}

/// What a search tells in an empty region, with its log checked.
fn told_in(
    rt: &impl Abort,
    alloc: Global,
    graph: &Graph,
    region: &mut Region<PairNode>,
) -> Result<Told, AllocError> {
    match search_pair(graph, &ONE_OUTPUT, region) {
        PairFound::Best { pair, root } => {
            let best = Some(pair);
            check_log(rt, alloc, graph, &best, region, root)?;
            Ok(Ok(best))
        }
        PairFound::NoPair { root } => {
            check_log(rt, alloc, graph, &None, region, root)?;
            Ok(Ok(None))
        }
        PairFound::Spent { budget } => {
            assert!(rt; region.used() == 0);
            Ok(Err(budget))
        }
    }
}

/// Asserts what a search with one output tells of the graph of these nodes in a region of this capacity.
fn expect_found(
    rt: &impl Abort,
    alloc: Global,
    parts: &[Part<'_>],
    capacity: u32,
    due: Result<Option<Members<'_>>, u32>,
) -> Result<(), AllocError> {
    let graph = graph_of(rt, alloc, parts)?;
    let mut region = Region::with_capacity(alloc, capacity)?;
    let told = told_in(rt, alloc, &graph, &mut region);
    drop(region);
    drop(graph);
    let is_due = match told? {
        Ok(pair) => match due {
            Ok(members) => is_same(pair, pair_if(members)),
            Err(_) => false,
        },
        Err(budget) => due.is_err_and(|most| most == budget),
    };
    assert!(rt; is_due, "{capacity}");
    Ok(())
}

#[test]
fn worked_pairs(rt: HostRuntime) -> Result<(), AllocError> {
    let both = Ok(Some((&[2, 3][..], &[0, 1][..])));
    expect_found(&rt, rt.alloc(), sums(), 65536, both)?;
    expect_found(&rt, rt.alloc(), sums(), 1, Err(1))?;
    expect_found(&rt, rt.alloc(), sums(), 0, Err(0))?;
    expect_found(&rt, rt.alloc(), two_sums(), 65536, Ok(None))?;
    expect_found(&rt, rt.alloc(), &[], 0, Ok(None))
}

/// The budget that was spent.
fn budget_of(found: PairFound) -> Option<u32> {
    match found {
        PairFound::Spent { budget } => Some(budget),
        PairFound::Best { .. } | PairFound::NoPair { .. } => None,
    }
}

/// The budget that a search spends in a region of this capacity with one live slot, which holds what it held. Where one
/// is spent, no other slot is live.
fn spent_beside(
    rt: &impl Abort,
    alloc: Global,
    graph: &Graph,
    capacity: u32,
) -> Result<Option<u32>, Fail> {
    let mut region = Region::with_capacity(alloc, capacity)?;
    let held = PairNode {
        first: PairChild::Leaf(O),
        second: PairChild::Leaf(M),
        out: PairChild::Leaf(X),
    };
    let slot = region.take(held)?;
    let found = search_pair(graph, &ONE_OUTPUT, &mut region);
    assert!(rt; *region.get(slot) == held);
    let budget = budget_of(found);
    assert!(rt; budget.is_none() || region.used() == 1);
    drop(region);
    Ok(budget)
}

#[test]
fn slot_that_was_live(rt: HostRuntime) -> Result<(), Fail> {
    let graph = graph_of(&rt, rt.alloc(), sums())?;
    assert!(rt; spent_beside(&rt, rt.alloc(), &graph, 1)? == Some(0));
    assert!(rt; spent_beside(&rt, rt.alloc(), &graph, 4)? == Some(3));
    assert!(rt; spent_beside(&rt, rt.alloc(), &graph, 65536)? == None);
    drop(graph);
    Ok(())
}

// ---- pairs that fit together

/// Whether the sets fit together.
fn fits(rt: &impl Abort, graph: &Graph, limits: &Limits, members: Members<'_>) -> bool {
    let count = graph.nodes().len();
    let pair = Pair {
        first: row_below(rt, count, members.0),
        second: row_below(rt, count, members.1),
    };
    fits_together(graph, limits, &pair)
}

/// Asserts which pairs of sets fit together.
fn expect_fits(
    rt: &impl Abort,
    alloc: Global,
    parts: &[Part<'_>],
    limits: &Limits,
    rows: &[(Members<'_>, bool)],
) -> Result<(), AllocError> {
    let graph = graph_of(rt, alloc, parts)?;
    for (members, due) in rows {
        assert!(rt; fits(rt, &graph, limits, *members) == *due);
    }
    drop(graph);
    Ok(())
}

/// Four sums of which each second one reads the value of the one two before it: walks lead both ways between the sets
/// 0, 3 and 1, 2.
fn crossed() -> &'static [Part<'static>] {
    &[
        Part { live: true, ..SUM },
        Part { live: true, ..SUM },
        Part {
            operands: &[Made(0), Entry(12)],
            live: true,
            ..SUM
        },
        Part {
            operands: &[Made(1), Entry(12)],
            live: true,
            ..SUM
        },
    ]
}

#[test]
fn pairs_that_fit(rt: HostRuntime) -> Result<(), AllocError> {
    let rows: [(Members<'_>, bool); 9] = [
        ((&[2, 3], &[0, 1]), true),
        // A cut that gains nothing may be one of the two.
        ((&[3], &[1]), true),
        // The second set has the greatest node.
        ((&[0, 1], &[2, 3]), false),
        // A node is in both.
        ((&[2, 3], &[0, 2]), false),
        // A set has no member.
        ((&[2, 3], &[]), false),
        ((&[], &[2, 3]), false),
        // Walks may lead one way.
        ((&[3], &[2]), true),
        // A set has too many inputs.
        ((&[1, 2, 3], &[0]), false),
        ((&[3], &[0, 1, 2]), false),
    ];
    expect_fits(&rt, rt.alloc(), sums(), &ONE_OUTPUT, &rows)?;
    let rows: [(Members<'_>, bool); 2] = [((&[0, 3], &[1, 2]), false), ((&[2, 3], &[0, 1]), true)];
    let wide = Limits {
        inputs: 4,
        outputs: 2,
    };
    expect_fits(&rt, rt.alloc(), crossed(), &wide, &rows)
}

// ---- logs

/// The log of one item that is no branch.
pub(crate) fn leaf(rt: &impl Abort, alloc: Global, item: PairItem) -> Result<PairLog, AllocError>
    requires { IsLeaf item }
{
    let mut items = Vec::new(alloc);
    items.push(item)?;
    Ok(PairLog::new(items))
}

/// The log of a branch with these logs below it, in which the next node is in the first set, in the second, and in none.
pub(crate) fn joined(
    rt: &impl Abort,
    alloc: Global,
    first: &PairLog,
    second: &PairLog,
    out: &PairLog,
) -> Result<PairLog, AllocError> {
    let mut items = Vec::new(alloc);
    items.push(B)?;
    items.extend_from_slice(first.items())?;
    items.extend_from_slice(second.items())?;
    items.extend_from_slice(out.items())?;
    let length = items.len();
    assert!(rt; length < 1000);
    Ok(PairLog::new(items))
}

/// The log that shows the best pair of four sums.
fn worked_log(rt: &impl Abort, alloc: Global) -> Result<PairLog, AllocError> {
    let outputs = leaf(rt, alloc, O)?;
    let gains = leaf(rt, alloc, G)?;
    let mirrored = leaf(rt, alloc, M)?;
    let whole = leaf(rt, alloc, F)?;
    let last = joined(rt, alloc, &outputs, &whole, &gains)?;
    let third = joined(rt, alloc, &outputs, &last, &gains)?;
    let second = joined(rt, alloc, &third, &gains, &gains)?;
    joined(rt, alloc, &second, &mirrored, &gains)
}

/// The log of branches on so many nodes and one more, all of whose leaves are complete choices.
fn branches(rt: &impl Abort, alloc: Global, count: u8) -> Result<PairLog, AllocError> {
    let whole = leaf(rt, alloc, F)?;
    let mut log = joined(rt, alloc, &whole, &whole, &whole)?;
    for _ in 0..count {
        log = joined(rt, alloc, &log, &whole, &whole)?;
    }
    Ok(log)
}

/// What is wrong in the log, if something is.
fn wrong_in(graph: &Graph, best: Option<Members<'_>>, log: &PairLog) -> Option<(u32, u8)> {
    let best = pair_if(best);
    match check_pair(graph, &ONE_OUTPUT, best, log) {
        Ok(()) => None,
        Err(PairWrong { item, reason }) => Some((item, reason)),
    }
}

/// Asserts what is wrong in the log of this one item for the best pair of four sums.
fn expect_leaf(
    rt: &impl Abort,
    alloc: Global,
    graph: &Graph,
    item: PairItem,
    reason: u8,
) -> Result<(), AllocError>
    requires { IsLeaf item }
{
    let log = leaf(rt, alloc, item)?;
    let wrong = wrong_in(graph, Some((&[2, 3], &[0, 1])), &log);
    drop(log);
    assert!(rt; wrong == Some((0, reason)), "{item:?}");
    Ok(())
}

#[test]
fn reasons_of_leaves(rt: HostRuntime) -> Result<(), AllocError> {
    let graph = graph_of(&rt, rt.alloc(), sums())?;
    expect_leaf(&rt, rt.alloc(), &graph, O, 1)?;
    expect_leaf(&rt, rt.alloc(), &graph, C, 2)?;
    expect_leaf(&rt, rt.alloc(), &graph, I, 3)?;
    expect_leaf(&rt, rt.alloc(), &graph, G, 4)?;
    expect_leaf(&rt, rt.alloc(), &graph, F, 5)?;
    expect_leaf(&rt, rt.alloc(), &graph, X, 8)?;
    expect_leaf(&rt, rt.alloc(), &graph, M, 9)?;
    drop(graph);
    Ok(())
}

/// Both sets of a best pair, and what is wrong in a log for it.
type Reading<'a> = (&'a [u8], &'a [u8], Option<(u32, u8)>);

/// Asserts what is wrong in a log where there is no best pair.
fn expect_for_none(rt: &impl Abort, graph: &Graph, log: &PairLog, due: Option<(u32, u8)>) {
    assert!(rt; wrong_in(graph, None, log) == due);
}

/// Asserts what is wrong in a log for each of these best pairs.
fn expect_wrong(rt: &impl Abort, graph: &Graph, log: &PairLog, rows: &[Reading<'_>]) {
    for (first, second, due) in rows {
        let wrong = wrong_in(graph, Some((first, second)), log);
        assert!(rt; wrong == *due, "{first:?} {second:?}");
    }
}

/// Readings of the worked log, which is that of one best pair and of no other.
fn readings() -> &'static [Reading<'static>] {
    &[
        (&[2, 3], &[0, 1], None),
        (&[0, 1], &[2, 3], Some((0, 7))),
        (&[2, 3], &[], Some((0, 7))),
        (&[3], &[1], Some((0, 7))),
        (&[2, 3, 255], &[0, 1], Some((0, 7))),
    ]
}

#[test]
fn reasons_in_the_worked_log(rt: HostRuntime) -> Result<(), AllocError> {
    let graph = graph_of(&rt, rt.alloc(), sums())?;
    let log = worked_log(&rt, rt.alloc())?;
    expect_wrong(&rt, &graph, &log, readings());
    expect_for_none(&rt, &graph, &log, Some((6, 5)));
    drop(log);
    drop(graph);
    Ok(())
}

#[test]
fn reasons_in_logs_of_two_sums(rt: HostRuntime) -> Result<(), AllocError> {
    let graph = graph_of(&rt, rt.alloc(), two_sums())?;
    let log = branches(&rt, rt.alloc(), 2)?;
    expect_for_none(&rt, &graph, &log, Some((2, 6)));
    drop(log);
    let gains = leaf(&rt, rt.alloc(), G)?;
    expect_for_none(&rt, &graph, &gains, None);
    drop(gains);
    drop(graph);
    Ok(())
}
