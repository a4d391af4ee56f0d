//! Logs of searches for pairs in made-up blocks of up to five nodes, with each item exchanged for each other one: what
//! the checker says of them is what a plain reading says.
ghost use Rattle.ci_pair.specs.RegionTrees.{LiesIn};

use crate::area::{drawn, set_of_mask};
use crate::graphs::{Charges, Part, graph_under};
use crate::pair_readings::{Reading, Station, facts_of};
use crate::pairs::{joined, leaf};
use ci_cut::Source::{Entry, Made};
use ci_cut::{Graph, Limits, Source};
use ci_pair::PairItem::{B, C, F, G, I, M, O, X};
use ci_pair::{
    Pair, PairChild, PairFound, PairItem, PairLog, PairNode, PairWrong, check_pair, flatten_pair,
    search_pair,
};
use ci_region::Region;
use ci_word::Row;
use std::alloc::{AllocError, Global};
use std::process::Abort;

// Graphs, logs, lists and regions are let go by calls of `drop`, which a proof does not look into.

// ---- blocks

/// What a node may read: of two more rows for each node before it, one is drawn.
fn operands(kind: u32) -> &'static [Source] {
    match kind {
        0 => &[Entry(10), Entry(11)],
        1 => &[Entry(12)],
        2 => &[Made(0), Entry(13)],
        3 => &[Made(0)],
        4 => &[Made(1), Made(0)],
        5 => &[Made(1), Entry(10)],
        6 => &[Made(2), Made(0)],
        7 => &[Made(2), Entry(14)],
        8 => &[Made(3), Made(1)],
        _ => &[Made(3), Entry(15)],
    }
}

/// The nodes that a node may come after beside those that it reads.
fn earlier(kind: u32) -> &'static [u8] {
    match kind {
        1 => &[0],
        2 => &[1],
        3 => &[2],
        4 => &[0, 3],
        _ => &[],
    }
}

/// A block of up to five nodes by a seed.
fn made_up(alloc: Global, seed: u32) -> Result<Vec<Part<'static>>, AllocError> {
    let mut parts = Vec::new(alloc);
    let mut draw = drawn(seed);
    for place in 0..1 + seed % 5 {
        draw = drawn(draw);
        parts.push(Part {
            eligible: draw / 8 % 8 != 0,
            operands: operands(draw / 64 % (2 + 2 * place)),
            after: if draw / 1024 % 4 == 0 {
                earlier(place)
            } else {
                &[]
            },
            latency: 1 + draw / 4096 % 3,
            delay: 100 + draw / 16384 % 1200,
            live: draw / 512 % 2 == 0,
        })?;
    }
    Ok(parts)
}

/// The limits by a seed.
fn limits_of(seed: u32) -> Limits {
    if seed / 5 % 3 == 0 {
        Limits {
            inputs: 2,
            outputs: 1,
        }
    } else if seed / 5 % 3 == 1 {
        Limits {
            inputs: 3,
            outputs: 1,
        }
    } else {
        Limits {
            inputs: 4,
            outputs: 2,
        }
    }
}

/// The charges by a seed.
fn charges_of(seed: u32) -> Charges {
    if seed / 15 % 3 == 0 {
        Charges { read: 2, pad: 1 }
    } else {
        Charges { read: 1, pad: 0 }
    }
}

// ---- logs

fn leaf_of(rt: &impl Abort, alloc: Global, item: PairItem) -> Result<PairLog, AllocError> {
    match item {
        O => leaf(rt, alloc, O),
        C => leaf(rt, alloc, C),
        I => leaf(rt, alloc, I),
        X => leaf(rt, alloc, X),
        M => leaf(rt, alloc, M),
        G => leaf(rt, alloc, G),
        F => leaf(rt, alloc, F),
        B => panic!(rt; "a branch"),
    }
}

/// The tree that was put there last.
fn last(rt: &impl Abort, trees: &mut Vec<PairLog>) -> PairLog {
    match trees.pop() {
        Some(tree) => tree,
        None => panic!(rt; "no tree"),
    }
}

/// The branch with the last three trees below it.
fn branch_of(
    rt: &impl Abort,
    alloc: Global,
    trees: &mut Vec<PairLog>,
) -> Result<PairLog, AllocError> {
    let first = last(rt, trees);
    let second = last(rt, trees);
    let out = last(rt, trees);
    let tree = joined(rt, alloc, &first, &second, &out);
    drop(first);
    drop(second);
    drop(out);
    tree
}

/// The log of these items, which have to be a tree in preorder.
fn log_of(rt: &impl Abort, alloc: Global, items: &[PairItem]) -> Result<PairLog, AllocError> {
    let mut trees = Vec::new(alloc);
    for item in items.iter().rev() {
        let tree = match *item {
            B => branch_of(rt, alloc, &mut trees)?,
            leaf => leaf_of(rt, alloc, leaf)?,
        };
        trees.push(tree)?;
    }
    let log = last(rt, &mut trees);
    assert!(rt; trees.is_empty());
    drop(trees);
    Ok(log)
}

/// The place behind the tree that begins at a place.
fn end_of(items: &[PairItem], from: usize) -> usize {
    let mut due = 1u32;
    for place in 0..items.len() {
        if place >= from {
            if due == 0 {
                return place;
            }
            due = due.wrapping_sub(1);
            if items[place] == B {
                due = due.wrapping_add(3);
            }
        }
    }
    items.len()
}

/// The items, with others in the place of the tree at a place.
fn damaged(
    alloc: Global,
    items: &[PairItem],
    at: usize,
    others: &[PairItem],
) -> Result<Vec<PairItem>, AllocError> {
    let end = end_of(items, at);
    let mut all = Vec::new(alloc);
    for place in 0..items.len() {
        if place == at {
            all.extend_from_slice(others)?;
        }
        if place < at || place >= end {
            all.push(items[place])?;
        }
    }
    Ok(all)
}

/// What stands in the place of an item and what is below it: each item, with complete choices below a branch.
fn replacements() -> &'static [&'static [PairItem]] {
    &[&[O], &[C], &[I], &[X], &[M], &[G], &[F], &[B, F, G, O]]
}

// ---- what the checker says

/// The pair of these sets.
fn pair_of(station: &Station) -> Pair {
    Pair {
        first: set_of_mask(station.first),
        second: set_of_mask(station.second),
    }
}

/// The numbers of a set below 32 as bits.
fn mask_of(set: &Row) -> u32 {
    let mut mask = 0u32;
    for place in 0..32u8 {
        if set.has(31 - place) {
            mask = mask.wrapping_mul(2) | 1;
        } else {
            mask = mask.wrapping_mul(2);
        }
    }
    mask
}

/// The log of a search, and the pair that it found.
type Searched = (PairLog, Option<Station>);

/// The log of a tree in a region, with the pair that was found.
fn listed(
    rt: &impl Abort,
    alloc: Global,
    region: &Region<PairNode>,
    root: PairChild,
    pair: Option<Pair>,
) -> Result<Searched, AllocError>
    requires { LiesIn region.now root }
{
    assert!(rt; region.used() < 1 << 30);
    let log = flatten_pair(alloc, region, root)?;
    let best = pair.map(|pair| Station {
        first: mask_of(&pair.first),
        second: mask_of(&pair.second),
        undecided: 0,
    });
    Ok((log, best))
}

/// The log of a search in an empty region, and the pair that it found.
fn log_in(
    rt: &impl Abort,
    alloc: Global,
    graph: &Graph,
    limits: &Limits,
    region: &mut Region<PairNode>,
) -> Result<Searched, AllocError> {
    match search_pair(graph, limits, region) {
        PairFound::Best { pair, root } => listed(rt, alloc, region, root, Some(pair)),
        PairFound::NoPair { root } => listed(rt, alloc, region, root, None),
        PairFound::Spent { .. } => panic!(rt; "spent"),
    }
}

/// The graph of a block, its limits, and the plain reading of both.
#[derive(Clone, Copy)]
struct Block<'a> {
    graph: &'a Graph,
    limits: Limits,
    reading: Reading<'a>,
}

impl Block<'_> {
    /// Asserts that the checker and the plain reading say the same of a log.
    fn expect(
        &self,
        rt: &impl Abort,
        alloc: Global,
        best: &Option<Station>,
        log: &PairLog,
    ) -> Result<Option<(u32, u8)>, AllocError> {
        let due = self.reading.judged(alloc, best, log.items())?;
        let pair = match best {
            Some(station) => Some(pair_of(station)),
            None => None,
        };
        let found = match check_pair(self.graph, &self.limits, pair, log) {
            Ok(()) => None,
            Err(PairWrong { item, reason }) => Some((item, reason)),
        };
        assert!(rt; found == due, "{found:?} {due:?}");
        Ok(found)
    }

    /// Asserts the same of the log with other items in the place of the tree at a place.
    fn expect_damaged(
        &self,
        rt: &impl Abort,
        alloc: Global,
        best: &Option<Station>,
        log: &PairLog,
        place: usize,
    ) -> Result<(), AllocError> {
        for others in replacements() {
            let items = damaged(alloc, log.items(), place, others)?;
            let other = log_of(rt, alloc, &items)?;
            drop(items);
            self.expect(rt, alloc, best, &other)?;
            drop(other);
        }
        Ok(())
    }

    /// Asserts the same of the log beside all pairs of sets.
    fn expect_pairs(
        &self,
        rt: &impl Abort,
        alloc: Global,
        log: &PairLog,
    ) -> Result<(), AllocError> {
        for first in 0..32u32 {
            for second in 0..32u32 {
                let best = Some(Station {
                    first,
                    second,
                    undecided: 0,
                });
                self.expect(rt, alloc, &best, log)?;
            }
        }
        Ok(())
    }

    /// Asserts the same of the log of a search, of the log damaged at each place, and for all pairs.
    fn expect_all(
        &self,
        rt: &impl Abort,
        alloc: Global,
        best: &Option<Station>,
        log: &PairLog,
    ) -> Result<(), AllocError> {
        assert!(rt; self.expect(rt, alloc, best, log)?.is_none());
        self.expect(rt, alloc, &None, log)?;
        self.expect_pairs(rt, alloc, log)?;
        for place in 0..log.items().len() {
            self.expect_damaged(rt, alloc, best, log, place)?;
        }
        Ok(())
    }
}

/// Asserts what the checker says of the logs of the block of a seed.
fn expect_of_seed(rt: &impl Abort, alloc: Global, seed: u32) -> Result<(), AllocError> {
    let limits = limits_of(seed);
    let charges = charges_of(seed);
    let parts = made_up(alloc, seed)?;
    let graph = graph_under(rt, alloc, charges, &parts)?;
    let facts = facts_of(alloc, &parts)?;
    let mut region = Region::with_capacity(alloc, 1024)?;
    let (log, best) = log_in(rt, alloc, &graph, &limits, &mut region)?;
    let reading = Reading {
        facts: &facts,
        charges,
        inputs: u32::from(limits.inputs),
        outputs: u32::from(limits.outputs),
    };
    let block = Block {
        graph: &graph,
        limits,
        reading,
    };
    let outcome = block.expect_all(rt, alloc, &best, &log);
    drop(log);
    drop(region);
    drop(facts);
    drop(graph);
    drop(parts);
    outcome
}

#[test]
fn damaged_logs(rt: HostRuntime) -> Result<(), AllocError> {
    for seed in 0..225u32 {
        expect_of_seed(&rt, rt.alloc(), seed)?;
    }
    Ok(())
}
