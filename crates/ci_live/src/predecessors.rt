//! The blocks whose live sets may grow where another one's has changed.
//!
//! They only say where to look next: that nothing is missing is seen by a visit of all blocks in the end.
ghost use Rattle.std.specs.Prelude.{◌≡◌, ℕ, ◌<◌, length, IfOk, OnOk};
ghost use Rattle.std.specs.List.{All};

use crate::flow::{Flow, Successors};
use std::alloc::{AllocError, Global};

/// The arc from a block to another one, in a chain of those that lead there.
#[derive(Clone, Copy)]
pub(crate) struct Arc {
    /// The number of the block from which it leads.
    from: usize,
    /// One more than the place of the next one of the chain, which stands before this one; 0 behind its last one.
    next: usize,
}

/// What leads to each block.
#[derive(Drop)]
pub(crate) struct Predecessors {
    /// Those of all chains.
    arcs: Vec<Arc>,
    /// For each block one more than the place of the first arc of its chain; 0 where nothing leads there.
    first: Vec<usize>,
    /// The blocks that lead to any block.
    from_jumps: Vec<usize>,
    /// How many blocks there are.
    pub(crate) count: usize,
    ghost arcs_below: { All (λ arc. arc.from < count) arcs.items },
    ghost jumps_below: { All (λ from. from < count) from_jumps.items },
}

/// Adds the arc from a block on one of its successors, if there is one, to the chain of those that lead there.
fn add_arc(
    arcs: &mut Vec<Arc>,
    first: &mut [usize],
    from: usize,
    successor: Option<usize>,
) -> Result<(), AllocError>
    ensures { OnOk result ((count : ℕ) → from < count → All (λ arc. arc.from < count) arcs.old.items
        → All (λ arc. arc.from < count) arcs.new.items) }
{
    let Some(to) = successor else {
        return Ok(());
    };
    if let Some(first) = first.get_mut(to) {
        arcs.push(Arc { from, next: *first })?;
        *first = arcs.len();
    }
    Ok(())
}

impl Predecessors {
    /// Of these blocks.
    pub(crate) fn new(alloc: Global, flows: &[Flow]) -> Result<Predecessors, AllocError>
        ensures { IfOk result (λ predecessors. predecessors.count ≡ length flows.now) }
    {
        let mut arcs = Vec::new(alloc);
        let mut first = vec![in alloc; 0; flows.len()]?;
        let mut from_jumps = Vec::new(alloc);
        for (from, flow) in flows.iter().enumerate() {
            match flow.successors {
                Successors::Named(target, following) => {
                    add_arc(&mut arcs, &mut first, from, target)?;
                    add_arc(&mut arcs, &mut first, from, following)?;
                }
                Successors::Anywhere => from_jumps.push(from)?,
            }
        }
        Ok(Predecessors {
            arcs,
            first,
            from_jumps,
            count: flows.len(),
        })
    }

    /// One more than the place of the first arc of the chain of those that lead to a block; 0 where there is none.
    fn first_to(&self, to: usize) -> usize {
        match self.first.get(to) {
            Some(place) => *place,
            None => 0,
        }
    }

    /// Lists the blocks that lead to this one by name.
    fn list(&self, to: usize, pending: &mut Vec<usize>) -> Result<(), AllocError>
        requires { All (λ from. from < self.now.count) pending.old.items }
        ensures { OnOk result (All (λ from. from < self.now.count) pending.new.items) }
    {
        let mut place = self.first_to(to);
        while place > 0 {
            let Some(arc) = self.arcs.get(place - 1) else {
                break;
            };
            pending.push(arc.from)?;
            // An arc's next stands before it, so that nothing is lost.
            place = arc.next.min(place - 1);
        }
        Ok(())
    }

    /// The blocks that lead to some of these ones by name, and those that lead to any block where `jumps` says so.
    pub(crate) fn of_all(
        &self,
        alloc: Global,
        numbers: &[usize],
        jumps: bool,
    ) -> Result<Vec<usize>, AllocError>
        ensures { IfOk result (λ pending. All (λ from. from < self.now.count) pending.items) }
    {
        let mut pending = Vec::new(alloc);
        if jumps {
            pending.extend_from_slice(&self.from_jumps)?;
        }
        for number in numbers {
            self.list(*number, &mut pending)?;
        }
        Ok(pending)
    }
}
