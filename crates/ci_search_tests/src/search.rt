//! Searches of graphs that are built by hand, and of graphs that are generated.
ghost use Rattle.ci_log.specs.RegionTrees.{LiesIn};

use crate::graphs::{
    DEFAULT, ONE_OUTPUT, Part, SUM, add, best_in, graph_of, row_of, sums, two_sums,
};
use ci_check::{check, needs_more};
use ci_cut::Source::{Entry, Made};
use ci_cut::{Graph, GraphRows, Limits, Source};
use ci_log::{Child, Item, LogNode, flatten};
use ci_region::Region;
use ci_search::{Found, search, search_reusing};
use ci_word::Row;
use std::alloc::{AllocError, Global};
use std::process::Abort;
use std::test::Fail;

// Graphs and regions are let go by calls of `drop`, which a proof does not look into.

/// The block xor x5, x5, x10, so many times.
fn chain_of(rt: &impl Abort, alloc: Global, count: u8) -> Result<Graph, AllocError> {
    let mut nodes = Vec::new(alloc);
    for k in 0..count {
        let before = if k == 0 {
            Entry(5)
        } else {
            Made(k.wrapping_sub(1))
        };
        let part = Part {
            operands: &[before, Entry(10)],
            delay: 100,
            live: k == count - 1,
            ..SUM
        };
        add(rt, alloc, DEFAULT, &mut nodes, part)?;
    }
    Ok(Graph::new(nodes, DEFAULT.read, DEFAULT.pad))
}

/// A number that is drawn from another.
fn drawn(seed: u32) -> u32 {
    seed.wrapping_mul(1_664_525).wrapping_add(1_013_904_223) >> 3
}

/// An earlier node of so many, or a register.
fn source_of(count: u8, draw: u32) -> Source {
    if count > 0 && draw % 3 < 2 {
        Made((draw / 3 % u32::from(count)) as u8)
    } else {
        Entry((10 + draw % 5) as u8)
    }
}

/// A graph of so many nodes by a seed.
fn generated(rt: &impl Abort, alloc: Global, count: u8, seed: u32) -> Result<Graph, AllocError> {
    let mut nodes = Vec::new(alloc);
    let mut draw = seed;
    for k in 0..count {
        let first = drawn(draw);
        let second = drawn(first);
        draw = drawn(second);
        let part = Part {
            eligible: draw % 8 > 0,
            operands: &[source_of(k, first), source_of(k, second)],
            after: &[],
            latency: 1 + draw / 8 % 3,
            delay: draw / 32 % 1500,
            live: draw / 64 % 3 == 0,
        };
        add(rt, alloc, DEFAULT, &mut nodes, part)?;
    }
    Ok(Graph::new(nodes, DEFAULT.read, DEFAULT.pad))
}

/// The limits of one to three inputs and one or two outputs.
fn limits() -> [Limits; 6] {
    [
        ONE_OUTPUT,
        Limits {
            inputs: 1,
            outputs: 1,
        },
        Limits {
            inputs: 2,
            outputs: 1,
        },
        Limits {
            inputs: 1,
            outputs: 2,
        },
        Limits {
            inputs: 2,
            outputs: 2,
        },
        Limits {
            inputs: 3,
            outputs: 2,
        },
    ]
}

/// The log of the tree has a branch for each slot, and the checker accepts it.
fn check_log(
    rt: &impl Abort,
    alloc: Global,
    graph: &Graph,
    limits: &Limits,
    best: Option<Row>,
    region: &Region<LogNode>,
    root: Child,
) -> Result<(), AllocError>
    requires { LiesIn region.now root }
{
    assert!(rt; region.used() < 1 << 30);
    let log = flatten(alloc, region, root)?;
    let branches = log.items().len() / 2;
    let answer = check(graph, limits, best, &log);
    drop(log);
    assert!(rt; branches == (region.used() as usize));
    assert!(rt; answer == Ok(()));
    Ok(())
}

/// What a search tells: the best cut and how many slots its log takes, or the budget.
type Told = Result<(Option<Row>, u32), u32>;

/// What a search tells in an empty region, with its log checked.
fn told_in(
    rt: &impl Abort,
    alloc: Global,
    graph: &Graph,
    limits: &Limits,
    region: &mut Region<LogNode>,
) -> Result<Told, AllocError> {
    match search(graph, limits, region) {
        Found::Best { cut, root } => {
            check_log(rt, alloc, graph, limits, Some(cut), region, root)?;
            Ok(Ok((Some(cut), region.used())))
        }
        Found::NoCut { root } => {
            check_log(rt, alloc, graph, limits, None, region, root)?;
            Ok(Ok((None, region.used())))
        }
        Found::Spent { budget } => {
            assert!(rt; region.used() == 0);
            Ok(Err(budget))
        }
    }
}

/// What a search tells in a region of this capacity.
fn answer(
    rt: &impl Abort,
    alloc: Global,
    graph: &Graph,
    limits: &Limits,
    capacity: u32,
) -> Result<Told, AllocError> {
    let mut region = Region::with_capacity(alloc, capacity)?;
    let told = told_in(rt, alloc, graph, limits, &mut region);
    drop(region);
    told
}

/// Asserts what searches with one output tell in regions of these capacities.
fn expect(
    rt: &impl Abort,
    alloc: Global,
    graph: &Graph,
    rows: &[(u32, Told)],
) -> Result<(), AllocError> {
    for (capacity, due) in rows {
        let told = answer(rt, alloc, graph, &ONE_OUTPUT, *capacity)?;
        assert!(rt; told == *due, "{capacity}");
    }
    Ok(())
}

/// The same for the graph of these nodes.
fn expect_of(
    rt: &impl Abort,
    alloc: Global,
    parts: &[Part<'_>],
    rows: &[(u32, Told)],
) -> Result<(), AllocError> {
    let graph = graph_of(rt, alloc, parts)?;
    let outcome = expect(rt, alloc, &graph, rows);
    drop(graph);
    outcome
}

#[test]
fn budgets(rt: HostRuntime) -> Result<(), AllocError> {
    let whole = Some(row_of(&[0, 1]));
    let rows = [(0, Err(0)), (1, Err(1)), (2, Ok((whole, 2)))];
    expect_of(&rt, rt.alloc(), two_sums(), &rows)?;
    let later = Some(row_of(&[2, 3]));
    let rows = [(6, Err(6)), (7, Ok((later, 7)))];
    expect_of(&rt, rt.alloc(), sums(), &rows)?;
    expect_of(&rt, rt.alloc(), &[], &[(0, Ok((None, 0)))])
}

/// The numbers below this one.
fn chain_nodes(count: u8) -> Row {
    let mut row = Row::empty();
    for number in 0..count {
        row.insert(number);
    }
    row
}

/// That all nodes of the long chain are the best cut, in 569 slots.
fn whole_chain() -> Told {
    Ok((Some(chain_nodes(64)), 569))
}

#[test]
fn long_chain(rt: HostRuntime) -> Result<(), AllocError> {
    let rows = [
        (65536, whole_chain()),
        (569, whole_chain()),
        (568, Err(568)),
    ];
    let chain = chain_of(&rt, rt.alloc(), 64)?;
    let outcome = expect(&rt, rt.alloc(), &chain, &rows);
    drop(chain);
    outcome
}

/// Asserts that a search tells the best of all cuts, and needs as many slots as the checker says.
fn expect_best(
    rt: &impl Abort,
    alloc: Global,
    graph: &Graph,
    limits: &Limits,
) -> Result<(), AllocError> {
    let best = best_in(rt, graph, limits);
    let need = match answer(rt, alloc, graph, limits, 1024)? {
        Ok((cut, need)) => {
            assert!(rt; cut == best);
            need
        }
        Err(_) => panic!(rt; "spent"),
    };
    assert!(rt; !needs_more(graph, limits, need));
    assert!(rt; answer(rt, alloc, graph, limits, need)? == Ok((best, need)));
    if need > 0 {
        let less = need - 1;
        assert!(rt; needs_more(graph, limits, less));
        assert!(rt; answer(rt, alloc, graph, limits, less)? == Err(less));
    }
    Ok(())
}

/// The same under each of these limits for a graph by a seed.
fn expect_of_seed(
    rt: &impl Abort,
    alloc: Global,
    seed: u32,
    limits: &[Limits],
) -> Result<(), AllocError> {
    let graph = generated(rt, alloc, (seed % 11) as u8, seed)?;
    for each in limits {
        expect_best(rt, alloc, &graph, each)?;
    }
    drop(graph);
    Ok(())
}

#[test]
fn generated_graphs(rt: HostRuntime) -> Result<(), AllocError> {
    let limits = limits();
    for seed in 0..400u32 {
        expect_of_seed(&rt, rt.alloc(), seed, &limits)?;
    }
    Ok(())
}

/// The budget that a search spends in a region of this capacity with one live slot, which holds what it held.
fn spent_beside(
    rt: &impl Abort,
    alloc: Global,
    graph: &Graph,
    capacity: u32,
) -> Result<Option<u32>, Fail> {
    let mut region = Region::with_capacity(alloc, capacity)?;
    let held = LogNode {
        taken: Child::Leaf(Item::O),
        left_out: Child::Leaf(Item::I),
    };
    let slot = region.take(held)?;
    let found = search(graph, &ONE_OUTPUT, &mut region);
    assert!(rt; *region.get(slot) == held);
    drop(region);
    Ok(budget_of(found))
}

/// The budget that was spent.
fn budget_of(found: Found) -> Option<u32> {
    match found {
        Found::Spent { budget } => Some(budget),
        Found::Best { .. } | Found::NoCut { .. } => None,
    }
}

#[test]
fn slot_that_was_live(rt: HostRuntime) -> Result<(), Fail> {
    let pair = graph_of(&rt, rt.alloc(), two_sums())?;
    assert!(rt; spent_beside(&rt, rt.alloc(), &pair, 2)? == Some(1));
    assert!(rt; spent_beside(&rt, rt.alloc(), &pair, 3)? == None);
    drop(pair);
    Ok(())
}

/// The best cut that a search tells with rows that may have held those of another graph.
fn best_reusing(
    rt: &impl Abort,
    alloc: Global,
    graph: &Graph,
    rows: &mut GraphRows,
) -> Result<Option<Row>, AllocError> {
    let mut region = Region::with_capacity(alloc, 1024)?;
    let found = search_reusing(graph, &ONE_OUTPUT, &mut region, rows);
    drop(region);
    Ok(match found {
        Found::Best { cut, .. } => Some(cut),
        Found::NoCut { .. } => None,
        Found::Spent { .. } => panic!(rt; "spent"),
    })
}

#[test]
fn rows_that_held_a_greater_graph(rt: HostRuntime) -> Result<(), AllocError> {
    let mut rows = GraphRows::new();
    for seed in 0..110u32 {
        let graph = generated(&rt, rt.alloc(), (10 - seed % 11) as u8, seed)?;
        let best = best_reusing(&rt, rt.alloc(), &graph, &mut rows)?;
        assert!(rt; best == best_in(&rt, &graph, &ONE_OUTPUT));
        drop(graph);
    }
    Ok(())
}
