//! Renaming the values of a file.
ghost use Rattle.std.specs.Prelude.{ℕ, List, Ok, IfOk};
ghost use Rattle.ci_block.specs.CustomWords.{HasNoCustomWord};
ghost use Rattle.ci_elf.specs.Rules.{IsReadAs};
ghost use Rattle.ci_live.specs.Analyses.{IsAnalysis};
ghost use Rattle.ci_rename.specs.RenamedFiles.{IsRenamedFile};

use crate::renaming::rename_block;
use ci_block::{Blocks, patch_block};
use ci_elf::Image;
use ci_live::LiveSets;
use ci_machine::laws::bytes_are_small;
use std::alloc::{AllocError, Global};

/// A file whose blocks are renamed.
#[derive(Drop)]
pub struct NewFile {
    /// The file.
    pub image: Image,
    /// How many values of its blocks were renamed.
    pub values: u32,
    /// How many blocks have a renamed value.
    pub changed: u32,
}

/// Renames the values of each block of an executable, in place.
///
/// The image has to be that of a file whose text has no word of the custom opcodes, and the blocks and the live sets
/// those of the image.
///
/// An Err is out of memory.
pub fn rename(
    alloc: Global,
    image: &Image,
    blocks: &Blocks,
    live: &LiveSets,
) -> Result<NewFile, AllocError>
    requires image { IsReadAs image.now.bytes (Ok image.now) }
    requires analysis { (targets : List ℕ) × (named : List ℕ)
        × IsAnalysis image.now targets named blocks.now live.now }
    requires plain { HasNoCustomWord image.now }
    ensures { IfOk result (λ new. IsRenamedFile image.now new.image live.now new.values new.changed) }
{
    bytes_are_small(image.bytes());
    let mut new = image.duplicate(alloc)?;
    let mut values = 0;
    let mut changed = 0;
    for block in blocks.all() {
        let renamed = rename_block(alloc, &block.insns, live.after(block.leader))?;
        if renamed.values > 0 {
            patch_block(&mut new, block.leader, &renamed.insns);
            values += renamed.values;
            changed += 1;
        }
    }
    Ok(NewFile {
        image: new,
        values,
        changed,
    })
}
