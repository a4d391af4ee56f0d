//! What matters of a block for liveness: what it reads and writes, and where it leads.
ghost use Rattle.std.specs.Prelude.{◌≡◌, ℕ, ◌<◌, ◌↔◌, length, slice_index, IfOk, MatchOption};
ghost use Rattle.std.specs.List.{AllPairs, Contains};
ghost use Rattle.ci_isa.specs.Sequences.{ReadFirst, Write};
ghost use Rattle.ci_live.specs.private.Flows.{AreFlows, AreSuccessorNumbers, Has};

use ci_block::{Block, Next};
use ci_isa::{Insn, reads, writes};
use ci_word::Row;
use std::alloc::{AllocError, Global};

/// The blocks that a block leads to, by their numbers.
#[derive(Clone, Copy)]
pub(crate) enum Successors {
    /// At most two blocks.
    Named(Option<usize>, Option<usize>),
    /// Each block, behind a JALR.
    Anywhere,
}

/// What matters of a block for liveness.
#[derive(Clone, Copy)]
pub(crate) struct Flow {
    /// The registers that it reads before it writes them.
    pub(crate) uses: Row,
    /// The registers that it writes.
    pub(crate) defs: Row,
    pub(crate) successors: Successors,
}

/// The number of the block that begins at an address, if there is one.
pub(crate) fn find(leaders: &[u32], address: u32) -> Option<usize>
    requires { AllPairs (λ a b. a < b) leaders.now }
    ensures { MatchOption result (¬ (Contains leaders.now address))
        (λ k. (k < length leaders.now) × (slice_index leaders.now k ≡ address)) }
{
    leaders.binary_search(&address).ok()
}

/// The blocks that are successors.
fn successors_of(leaders: &[u32], next: Next) -> Successors
    requires { AllPairs (λ a b. a < b) leaders.now }
    ensures { AreSuccessorNumbers leaders.now next result }
{
    match next {
        Next::Stop => Successors::Named(None, None),
        Next::One(address) => Successors::Named(find(leaders, address), None),
        Next::Two(target, following) => {
            Successors::Named(find(leaders, target), find(leaders, following))
        }
        Next::Any => Successors::Anywhere,
    }
}

/// The registers that the instructions read before they write them, and those that they write.
fn effects(insns: &[Insn]) -> (Row, Row)
    ensures uses { (r : ℕ) → Has result.0 r ↔ ReadFirst insns.now r }
    ensures defs { (r : ℕ) → Has result.1 r ↔ Write insns.now r }
{
    let mut uses = Row::empty();
    let mut defs = Row::empty();
    for place in (0..insns.len()).rev() {
        let insn = &insns[place];
        let operands = reads(insn);
        let results = writes(insn);
        uses = operands.union(&uses.minus(&results));
        defs = results.union(&defs);
    }
    (uses, defs)
}

/// The flow of each block.
pub(crate) fn flows(
    alloc: Global,
    blocks: &[Block],
    leaders: &[u32],
) -> Result<Vec<Flow>, AllocError>
    requires { AllPairs (λ a b. a < b) leaders.now }
    ensures { IfOk result (λ flows. AreFlows leaders.now blocks.now (length blocks.now) flows.items) }
{
    let mut flows = Vec::new(alloc);
    for block in blocks {
        let (uses, defs) = effects(&block.insns);
        flows.push(Flow {
            uses,
            defs,
            successors: successors_of(leaders, block.next),
        })?;
    }
    Ok(flows)
}
