//! The block at a listed leader of an executable.
ghost use Rattle.std.specs.Prelude.{◌≡◌, ◌≢◌, ◌≤◌, IfOk, IfErr, MatchOption, length};
ghost use Rattle.std.specs.List.{Contains};
ghost use Rattle.ci_block.specs.declared.blocks.Block.{Block as BasicBlock};
ghost use Rattle.ci_dfg.specs.Bundles.{AreBundled};
ghost use Rattle.ci_commands.specs.private.Causes.{IsCause};
ghost use Rattle.ci_commands.specs.ListedBlocks.{IsListedBlock, IsNoListedBlock};

use super::LiveBlock;
use crate::analysis::plain_analysis_of;
use ci_block::Block;
use ci_calls::Refusal;
use ci_elf::Image;
use std::alloc::Global;

/// The block at the address, and the registers that are live after it. `named` are addresses that the user names as
/// leaders.
pub fn listed_block<'a>(
    alloc: Global,
    image: &Image,
    named: &[u32],
    address: u32,
) -> Result<LiveBlock, Refusal<'a>>
    ensures few { IfOk result (λ block. length block.insns.items ≤ 256) }
    ensures bundled { IfOk result (λ block. AreBundled block.insns.items) }
    ensures found { IfOk result (λ block.
        IsListedBlock image.now named.now address block.insns.items block.live_out) }
    ensures cause { IfErr result (IsCause (IsNoListedBlock image.now named.now address)) }
{
    let analysis = plain_analysis_of(alloc, image, named)?;
    match block_at(analysis.blocks.all(), address) {
        Some(block) => Ok(LiveBlock {
            insns: Vec::from_slice(alloc, block.insns.as_slice())?,
            live_out: analysis.live.after(address),
        }),
        None => Err(Refusal::Unsupported {
            position: address,
            word: 0,
        }),
    }
}

/// The block that begins at the address, if one does.
fn block_at(blocks: &[Block], address: u32) -> Option<&Block>
    ensures { MatchOption result ((block : BasicBlock) → Contains blocks.now block → block.leader ≢ address)
        (λ block. Contains blocks.now block.now × (block.now.leader ≡ address)) }
{
    blocks.iter().find(|block| block.leader == address)
}
