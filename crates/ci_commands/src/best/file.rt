//! The file with the block.
ghost use Rattle.std.specs.Prelude.{IfOk};
ghost use Rattle.ci_calls.specs.Reads.{IsReadingOf};
ghost use Rattle.ci_commands.specs.BestCommand.{block_input};
ghost use Rattle.ci_commands.specs.private.BlockFiles.{IsFileOf, IsWithinLimit};

use ci_calls::{Refusal, read_file, read_image};
use ci_elf::Image;
use ci_io::Shelf;
use std::alloc::Global;

/// The maximum length of a file of the words of a block, in bytes.
const WORDS_LIMIT: u64 = 1024;

/// A file with a block.
#[derive(Drop)]
pub enum BlockFile {
    /// The bytes of its words.
    Words(Vec<u8>),
    /// An executable, and the address of the block.
    Program { image: Image, address: u32 },
}

/// The file of a name: an executable where an address in it is given, and else the words of a block.
pub fn read_block_file<'a, F: Shelf>(
    alloc: Global,
    name: &'a str,
    at: Option<u32>,
    shelf: &mut F,
) -> Result<BlockFile, Refusal<'a>>
    ensures reading { IsReadingOf F.read_may_fail F.write_may_fail (F.state shelf.old) (F.state shelf.new)
        (block_input at name.now) result (IsFileOf at) }
    ensures within_limit { IfOk result IsWithinLimit }
{
    match at {
        Some(address) => {
            let image = read_image(alloc, name, shelf)?;
            Ok(BlockFile::Program { image, address })
        }
        None => Ok(BlockFile::Words(read_file(alloc, name, WORDS_LIMIT, shelf)?)),
    }
}
