//! Live sets by repeated steps.
ghost use Rattle.std.specs.Prelude.{◌≡◌, ℕ, ◌<◌, ◌≤◌, length, IfOk, IfSome, OnOk};
ghost use Rattle.std.specs.List.{All, Contains};
ghost use Rattle.ci_live.specs.private.Flows.{AreWithin, IsWithin};
ghost use Rattle.ci_live.specs.private.Found.{AreVisits, IsTransfer, IsSolution, IsSound};
ghost use Rattle.ci_live.specs.private.Found.{missing_at, on_edge as what_is_on, on_edges, room};

use crate::flow::{Flow, Successors};
use crate::predecessors::Predecessors;
use ci_word::Row;
use std::alloc::{AllocError, Global};

/// The part of the live sets that was found so far.
#[derive(Drop)]
pub(crate) struct Found {
    /// What is live at each block.
    pub(crate) live: Vec<Row>,
    /// What is live at some block.
    pub(crate) any: Row,
}

/// What was found at one successor, if there is one.
fn on_edge(live: &[Row], successor: Option<usize>) -> Row
    requires { IfSome successor (λ k. k < length live.now) }
    ensures { result ≡ what_is_on live.now successor }
{
    match successor {
        Some(number) => live[number],
        None => Row::empty(),
    }
}

impl Found {
    /// What was found behind a block with these successors.
    pub(crate) fn after(&self, successors: Successors) -> Row
        requires { IsWithin (length self.now.live.items) successors }
        ensures { result ≡ on_edges self.now.live.items self.now.any successors }
    {
        match successors {
            Successors::Named(first, second) => {
                on_edge(&self.live, first).union(&on_edge(&self.live, second))
            }
            Successors::Anywhere => self.any,
        }
    }

    /// What is live at a block, as far as it can be told from what was found, and was not found there.
    fn missing(&self, flows: &[Flow], number: usize) -> Row
        requires number { number < length flows.now }
        requires flows { AreWithin flows.now }
        requires many { length self.now.live.items ≡ length flows.now }
        ensures { result ≡ missing_at flows.now self.now number }
    {
        let flow = &flows[number];
        let passed = self.after(flow.successors).minus(&flow.defs);
        flow.uses.union(&passed).minus(&self.live[number])
    }

    /// Puts in what is missing at one block, and says whether something was.
    fn transfer(&mut self, flows: &[Flow], number: usize) -> bool
        requires number { number < length flows.now }
        requires flows { AreWithin flows.now }
        requires sound { IsSound flows.now self.old }
        ensures sound { IsSound flows.now self.new }
        ensures transfer { IsTransfer flows.now self.old self.new number result }
    {
        let missing = self.missing(flows, number);
        if missing.count() == 0 {
            return false;
        }
        self.live[number] = self.live[number].union(&missing);
        self.any = self.any.union(&missing);
        true
    }
}

/// The transfer of blocks in this order; it lists those that it changed.
fn visit(
    alloc: Global,
    flows: &[Flow],
    found: &mut Found,
    order: &[usize],
) -> Result<Vec<usize>, AllocError>
    requires order { All (λ k. k < length flows.now) order.now }
    requires flows { AreWithin flows.now }
    requires sound { IsSound flows.now found.old }
    ensures { IfOk result (λ changed. AreVisits flows.now found.old found.new order.now changed.items) }
{
    let mut changed = Vec::new(alloc);
    for number in order {
        if found.transfer(flows, *number) {
            changed.push(*number)?;
        }
    }
    Ok(changed)
}

/// Propagates what was found at some blocks to all blocks that it can reach.
fn propagate(
    alloc: Global,
    flows: &[Flow],
    predecessors: &Predecessors,
    found: &mut Found,
    first: Vec<usize>,
) -> Result<(), AllocError>
    requires predecessors { predecessors.now.count ≡ length flows.now }
    requires flows { AreWithin flows.now }
    requires sound { IsSound flows.now found.old }
    ensures sound { OnOk result (IsSound flows.now found.new) }
    ensures less { OnOk result (room found.new ≤ room found.old) }
{
    let mut changed = first;
    let mut seen = Row::empty();
    while !changed.is_empty() {
        let pending = predecessors.of_all(alloc, &changed, found.any != seen)?;
        seen = found.any;
        changed = visit(alloc, flows, found, &pending)?;
    }
    Ok(())
}

/// The numbers below a count, from the last one down.
fn descending(alloc: Global, count: usize) -> Result<Vec<usize>, AllocError>
    ensures below { IfOk result (λ numbers. All (λ k. k < count) numbers.items) }
    ensures all { IfOk result (λ numbers. (k : ℕ) → k < count → Contains numbers.items k) }
{
    let mut numbers = Vec::new(alloc);
    for number in (0..count).rev() {
        numbers.push(number)?;
    }
    Ok(numbers)
}

/// Nothing was found yet at so many blocks.
fn nothing(alloc: Global, flows: &[Flow]) -> Result<Found, AllocError>
    ensures { IfOk result (IsSound flows.now) }
{
    Ok(Found {
        live: vec![in alloc; Row::empty(); flows.len()]?,
        any: Row::empty(),
    })
}

/// What is live at each block.
///
/// A visit of all blocks that finds nothing ends the search.
pub(crate) fn solve(alloc: Global, flows: &[Flow]) -> Result<Found, AllocError>
    requires { AreWithin flows.now }
    ensures { IfOk result (IsSolution flows.now) }
{
    let predecessors = Predecessors::new(alloc, flows)?;
    let order = descending(alloc, flows.len())?;
    let mut found = nothing(alloc, flows)?;
    loop {
        let changed = visit(alloc, flows, &mut found, &order)?;
        if changed.is_empty() {
            return Ok(found);
        }
        propagate(alloc, flows, &predecessors, &mut found, changed)?;
    }
}
