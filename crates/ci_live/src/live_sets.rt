//! The live sets of blocks.
ghost use Rattle.std.specs.Prelude.{◌≡◌, ℕ, ◌<◌, length, map, IfOk};
ghost use Rattle.std.specs.List.{Contains};
ghost use Rattle.ci_block.specs.Blocks.{AreInOrder};
ghost use Rattle.ci_live.specs.private.Flows.{AreWithin, flow_at};
ghost use Rattle.ci_live.specs.private.Found.{IsSolution, live_at, on_edges};
ghost use Rattle.ci_live.specs.Liveness.{AreLiveSets};
ghost use Rattle.ci_live.specs.Sets.{after_block, at_leader};

use crate::flow::{Flow, find, flows};
use crate::iteration::{Found, solve};
use ci_block::{Block, Blocks};
use ci_word::Row;
use std::alloc::{AllocError, Global};
use std::marker::Model;

/// The registers that are live where each block of a file begins, and behind it.
#[derive(Drop)]
pub struct LiveSets {
    leaders: Vec<u32>,
    at: Vec<Row>,
    after: Vec<Row>,
}

impl Model for LiveSets {
    ghost use Rattle.ci_live.specs.Sets.{Sets};
    ghost use Rattle.ci_live.specs.private.StoredSets.{coded_sets};

    ghost Value = { Sets };

    ghost coded = { coded_sets };

    ghost view = { λ s. record {
      leaders = s.leaders.items;
      live_in = s.at.items;
      live_out = s.after.items;
    } };

    ghost use Rattle.ci_live.specs.private.StoredSets.{AreByLeader};

    ghost invariant = { λ s. AreByLeader s.leaders.items s.at.items s.after.items };
}

impl LiveSets {
    /// The registers that are live at a leader.
    pub fn at(&self, leader: u32) -> Row
        requires { Contains self.now.leaders leader }
        ensures { result ≡ at_leader self.now leader }
    {
        match find(&self.leaders, leader) {
            Some(number) => self.at[number],
            None => unreachable!(),
        }
    }

    /// The registers that are live after the block of a leader: those that are live at one of its successors.
    pub fn after(&self, leader: u32) -> Row
        requires { Contains self.now.leaders leader }
        ensures { result ≡ after_block self.now leader }
    {
        match find(&self.leaders, leader) {
            Some(number) => self.after[number],
            None => unreachable!(),
        }
    }
}

/// The leaders of blocks.
fn leaders_of(alloc: Global, blocks: &[Block]) -> Result<Vec<u32>, AllocError>
    ensures { IfOk result (λ leaders. leaders.items ≡ map (λ block. block.leader) blocks.now) }
{
    let mut leaders = Vec::new(alloc);
    for block in blocks {
        leaders.push(block.leader)?;
    }
    Ok(leaders)
}

/// What is live behind each block.
fn sets_after(alloc: Global, flows: &[Flow], found: &Found) -> Result<Vec<Row>, AllocError>
    requires flows { AreWithin flows.now }
    requires found { IsSolution flows.now found.now }
    ensures many { IfOk result (λ after. length after.items ≡ length flows.now) }
    ensures each { IfOk result (λ after. (k : ℕ) → k < length flows.now
        → live_at after.items k ≡ on_edges found.now.live.items found.now.any (flow_at flows.now k).successors) }
{
    let mut after = Vec::new(alloc);
    for flow in flows {
        after.push(found.after(flow.successors))?;
    }
    Ok(after)
}

/// The live sets of blocks in the order of their leaders.
fn live_of(alloc: Global, blocks: &[Block]) -> Result<LiveSets, AllocError>
    requires { AreInOrder blocks.now }
    ensures { IfOk result (AreLiveSets blocks.now) }
{
    let leaders = leaders_of(alloc, blocks)?;
    let flows = flows(alloc, blocks, &leaders)?;
    let found = solve(alloc, &flows)?;
    let after = sets_after(alloc, &flows, &found)?;
    Ok(LiveSets {
        leaders,
        at: found.live,
        after,
    })
}

/// The live sets of the blocks of a file.
///
/// An Err is out of memory.
pub fn live(alloc: Global, blocks: &Blocks) -> Result<LiveSets, AllocError>
    ensures { IfOk result (AreLiveSets blocks.now) }
{
    live_of(alloc, blocks.all())
}
