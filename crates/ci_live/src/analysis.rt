//! The basic blocks of an executable file, and the registers that are live around them.
ghost use Rattle.std.specs.Prelude.{IfOk};
ghost use Rattle.ci_live.specs.Analyses.{IsAnalysis};

use crate::{LiveSets, live};
use ci_block::{Blocks, leaders, split};
use ci_elf::Image;
use std::alloc::{AllocError, Global};

/// The basic blocks of an executable file, and the registers that are live at their leaders and after them.
#[derive(Drop)]
pub struct Analysis {
    pub blocks: Blocks,
    pub live: LiveSets,
}

/// The blocks of an executable file, and their live sets. `targets` are the addresses to which JALR jumped, as far as
/// they are known, and `named` those that the user names as leaders.
///
/// An Err is out of memory.
pub fn analysis_of(
    alloc: Global,
    image: &Image,
    targets: &[u32],
    named: &[u32],
) -> Result<Analysis, AllocError>
    ensures { IfOk result (λ analysis.
        IsAnalysis image.now targets.now named.now analysis.blocks analysis.live) }
{
    let leaders = leaders(alloc, image, targets, named)?;
    let blocks = split(alloc, image, &leaders)?;
    let live = live(alloc, &blocks)?;
    Ok(Analysis { blocks, live })
}
