//! A plain reading of which items of a log of pairs are right, for blocks of a few nodes: sets are masks with a bit for
//! each node, and each fact is found anew from the definitions.
use crate::graphs::{Charges, Part};
use ci_cut::Source;
use ci_pair::PairItem;
use ci_pair::PairItem::{B, C, F, G, I, M, O, X};
use std::alloc::{AllocError, Global};

/// What is read of a node. The registers and the nodes that it reads, and the nodes from which a walk leads to it, are
/// ones among the bits.
#[derive(Clone, Copy)]
pub(crate) struct Fact {
    eligible: bool,
    live: bool,
    latency: u32,
    delay: u32,
    registers: u32,
    sources: u32,
    above: u32,
}

/// A pair of sets, and the nodes that may still join one of them.
#[derive(Clone, Copy)]
pub(crate) struct Station {
    pub(crate) first: u32,
    pub(crate) second: u32,
    pub(crate) undecided: u32,
}

/// A block, the charges of further words, and the limits on inputs and outputs.
#[derive(Clone, Copy)]
pub(crate) struct Reading<'a> {
    pub(crate) facts: &'a [Fact],
    pub(crate) charges: Charges,
    pub(crate) inputs: u32,
    pub(crate) outputs: u32,
}

/// The mask of a number.
fn bit(number: usize) -> u32 {
    if number < 32 { 1 << number } else { 0 }
}

fn has(mask: u32, number: usize) -> bool {
    mask & bit(number) != 0
}

/// The nodes from which a walk leads to a node with arcs from these.
fn above_of(facts: &[Fact], before: u32) -> u32 {
    let mut above = before;
    for number in 0..facts.len() {
        if has(before, number) {
            above |= facts[number].above;
        }
    }
    above
}

/// What is read of a node behind others.
fn fact_of(facts: &[Fact], part: Part<'_>) -> Fact {
    let mut registers = 0;
    let mut sources = 0;
    for source in part.operands {
        match source {
            Source::Entry(register) => registers |= bit(*register as usize),
            Source::Made(node) => sources |= bit(*node as usize),
        }
    }
    let mut before = sources;
    for node in part.after {
        before |= bit(*node as usize);
    }
    Fact {
        eligible: part.eligible,
        live: part.live,
        latency: part.latency,
        delay: part.delay,
        registers,
        sources,
        above: above_of(facts, before),
    }
}

/// What is read of the nodes of a block.
pub(crate) fn facts_of(alloc: Global, parts: &[Part<'_>]) -> Result<Vec<Fact>, AllocError> {
    let mut facts = Vec::new(alloc);
    for part in parts {
        let fact = fact_of(&facts, *part);
        facts.push(fact)?;
    }
    Ok(facts)
}

/// Whether a walk leads from a node of one set to a node of another.
fn leads(facts: &[Fact], from: u32, to: u32) -> bool {
    for number in 0..facts.len() {
        if has(to, number) && facts[number].above & from != 0 {
            return true;
        }
    }
    false
}

/// Whether no walk leads from a member through a node outside to a member.
fn is_convex(facts: &[Fact], set: u32) -> bool {
    for number in 0..facts.len() {
        if !has(set, number) && facts[number].above & set != 0 && leads(facts, bit(number), set) {
            return false;
        }
    }
    true
}

/// How many members have a value that is live after the block or read outside.
fn outputs(facts: &[Fact], set: u32) -> u32 {
    let mut outside = 0;
    for number in 0..facts.len() {
        if !has(set, number) {
            outside |= facts[number].sources;
        }
    }
    let mut count = 0u32;
    for number in 0..facts.len() {
        if has(set, number) && (facts[number].live || has(outside, number)) {
            count = count.wrapping_add(1);
        }
    }
    count
}

/// How many registers and nodes outside of `inside` the members read.
fn inputs(facts: &[Fact], set: u32, inside: u32) -> u32 {
    let mut registers = 0u32;
    let mut sources = 0u32;
    for number in 0..facts.len() {
        if has(set, number) {
            registers |= facts[number].registers;
            sources |= facts[number].sources;
        }
    }
    registers
        .count_ones()
        .wrapping_add((sources & !inside).count_ones())
}

/// The greatest of the delays at these nodes.
fn greatest(delays: &[u32; 8], nodes: u32) -> u32 {
    let mut found = 0;
    for number in 0..8 {
        if has(nodes, number) && delays[number] > found {
            found = delays[number];
        }
    }
    found
}

/// The cycles of the longest chain of members, at least one.
fn hardware(facts: &[Fact], set: u32) -> i64 {
    let mut delays = [0u32; 8];
    for number in 0..facts.len() {
        if number < 8 && has(set, number) {
            let before = greatest(&delays, facts[number].sources & set);
            delays[number] = before.wrapping_add(facts[number].delay);
        }
    }
    let longest = greatest(&delays, set);
    i64::from(longest.wrapping_add(999) / 1000).max(1)
}

/// The software latencies of the nodes together.
fn software(facts: &[Fact], set: u32) -> i64 {
    let mut sum = 0u32;
    for number in 0..facts.len() {
        if has(set, number) {
            sum = sum.wrapping_add(facts[number].latency);
        }
    }
    i64::from(sum)
}

/// The words of a use beside its first.
fn further_words(inputs: u32, outputs: u32) -> i64 {
    let reads = i64::from(outputs.saturating_sub(1));
    if inputs > 3 {
        reads.wrapping_add(1)
    } else {
        reads
    }
}

/// Which label a node has: 0 is in the first set, 1 in the second, and 2 out of both.
fn rank(station: &Station, number: usize) -> u8 {
    if has(station.first, number) {
        0
    } else if has(station.second, number) {
        1
    } else {
        2
    }
}

/// Whether the pair's label comes first at the greatest of the nodes in which the labels differ.
fn comes_before(pair: &Station, other: &Station, nodes: u32) -> bool {
    let mut is_before = false;
    for number in 0..8usize {
        let here = rank(pair, number);
        let there = rank(other, number);
        if has(nodes, number) && here != there {
            is_before = here < there;
        }
    }
    is_before
}

/// The greatest number among the bits.
fn last_of(mask: u32) -> u32 {
    let mut last = 0;
    for number in 0..8usize {
        if has(mask, number) {
            last = bit(number);
        }
    }
    last
}

impl Reading<'_> {
    /// What is decided at the beginning: nothing.
    fn start(&self) -> Station {
        let mut undecided = 0;
        for number in 0..self.facts.len() {
            if self.facts[number].eligible {
                undecided |= bit(number);
            }
        }
        Station {
            first: 0,
            second: 0,
            undecided,
        }
    }

    /// The cycles that so many uses save together.
    fn saved(&self, nodes: u32, hardware: i64, further: i64, uses: i64) -> i64 {
        let rest = i64::from(nodes.count_ones())
            .wrapping_sub(uses)
            .wrapping_sub(further);
        software(self.facts, nodes)
            .wrapping_sub(hardware)
            .wrapping_sub(further.wrapping_mul(i64::from(self.charges.read)))
            .wrapping_sub(rest.wrapping_mul(i64::from(self.charges.pad)))
    }

    /// The further words of a set, of which nodes may still join it.
    fn further(&self, set: u32, undecided: u32) -> i64 {
        further_words(
            inputs(self.facts, set, set | undecided),
            outputs(self.facts, set),
        )
    }

    fn gain(&self, set: u32) -> i64 {
        self.saved(set, hardware(self.facts, set), self.further(set, 0), 1)
    }

    /// Whether a set may become an instruction.
    fn fits(&self, set: u32) -> bool {
        let outputs = outputs(self.facts, set);
        set & !self.start().undecided == 0
            && is_convex(self.facts, set)
            && inputs(self.facts, set, set) <= self.inputs
            && outputs >= 1
            && outputs <= self.outputs
            && self.further(set, 0) < i64::from(set.count_ones())
    }

    fn is_crossing(&self, at: &Station) -> bool {
        leads(self.facts, at.first, at.second) && leads(self.facts, at.second, at.first)
    }

    fn fit_together(&self, pair: &Station) -> bool {
        self.fits(pair.first)
            && self.fits(pair.second)
            && pair.first & pair.second == 0
            && pair.first > pair.second
            && !self.is_crossing(pair)
    }

    fn pair_gain(&self, pair: &Station) -> i64 {
        self.gain(pair.first).wrapping_add(self.gain(pair.second))
    }

    fn best_gain(&self, best: &Option<Station>) -> i64 {
        match best {
            Some(pair) => self.pair_gain(pair),
            None => 0,
        }
    }

    /// What no pair that goes on from these labels gains more than.
    fn bound(&self, at: &Station) -> i64 {
        let nodes = at.first | at.second | at.undecided;
        let cycles = hardware(self.facts, at.first).wrapping_add(hardware(self.facts, at.second));
        let further = self
            .further(at.first, at.undecided)
            .wrapping_add(self.further(at.second, at.undecided));
        self.saved(nodes, cycles, further, 2)
    }

    /// Whether the labels come after those of the best pair; without one all do.
    fn is_after(&self, best: &Option<Station>, at: &Station) -> bool {
        match best {
            Some(pair) => comes_before(pair, at, self.start().undecided & !at.undecided),
            None => true,
        }
    }

    /// Whether these sets are a better pair than the best.
    fn is_better(&self, best: &Option<Station>, pair: &Station) -> bool {
        if !self.fit_together(pair) {
            return false;
        }
        let gain = self.pair_gain(pair);
        let reached = self.best_gain(best);
        let comes_first = match best {
            Some(other) => comes_before(pair, other, self.start().undecided),
            None => false,
        };
        gain > reached || gain == reached && comes_first
    }

    /// Whether by the bound no pair that goes on from these labels is better.
    fn gains_too_little(&self, best: &Option<Station>, at: &Station) -> bool {
        let bound = self.bound(at);
        let reached = self.best_gain(best);
        bound < reached || bound == reached && self.is_after(best, at)
    }

    /// The reason why the item is wrong at these labels; none where it is right.
    fn wrong(&self, best: &Option<Station>, at: &Station, item: PairItem) -> Option<u8> {
        let facts = self.facts;
        let (is_right, reason) = match item {
            O => (
                outputs(facts, at.first).max(outputs(facts, at.second)) > self.outputs,
                1,
            ),
            C => (
                !is_convex(facts, at.first) || !is_convex(facts, at.second),
                2,
            ),
            I => (
                inputs(facts, at.first, at.first | at.undecided) > self.inputs
                    || inputs(facts, at.second, at.second | at.undecided) > self.inputs,
                3,
            ),
            G => (self.gains_too_little(best, at), 4),
            F => (at.undecided == 0 && !self.is_better(best, at), 5),
            B => (at.undecided != 0, 6),
            X => (self.is_crossing(at), 8),
            M => (at.second > at.first, 9),
        };
        if is_right { None } else { Some(reason) }
    }

    /// Whether a best pair that is given is one of positive gain.
    fn is_good(&self, best: &Option<Station>) -> bool {
        match best {
            Some(pair) => self.fit_together(pair) && self.pair_gain(pair) > 0,
            None => true,
        }
    }

    /// The first wrong item, and its reason.
    pub(crate) fn judged(
        &self,
        alloc: Global,
        best: &Option<Station>,
        items: &[PairItem],
    ) -> Result<Option<(u32, u8)>, AllocError> {
        if !self.is_good(best) {
            return Ok(Some((0, 7)));
        }
        let mut waiting = Vec::new(alloc);
        waiting.push(self.start())?;
        let mut place = 0u32;
        let mut found = None;
        for item in items {
            let at = waiting.pop().unwrap_or(self.start());
            if found.is_none() {
                found = self.wrong(best, &at, *item).map(|reason| (place, reason));
            }
            if *item == B {
                let node = last_of(at.undecided);
                let undecided = at.undecided & !node;
                let Station { first, second, .. } = at;
                waiting.push(Station {
                    first,
                    second,
                    undecided,
                })?;
                waiting.push(Station {
                    first,
                    second: second | node,
                    undecided,
                })?;
                waiting.push(Station {
                    first: first | node,
                    second,
                    undecided,
                })?;
            }
            place = place.wrapping_add(1);
        }
        drop(waiting);
        Ok(found)
    }
}
