//! The command `blocks`: the basic blocks of an executable, and the registers that are live where they begin.
ghost use Rattle.std.specs.Prelude.{◌≡◌, ◌++◌, IfOk, IfErr, OnOk, map};
ghost use Rattle.std.specs.List.{flat_map, Contains};
ghost use Rattle.std.specs.String.{string_bytes};
ghost use Rattle.ci_block.specs.CustomWords.{IsFirstCustomWord};
ghost use Rattle.ci_calls.specs.Reads.{IsAnswerOf};
ghost use Rattle.ci_commands.specs.BlocksCommand.{blocks_inputs, IsBlocksMade, IsBlocksRefused, IsBlocksText};
ghost use Rattle.ci_commands.specs.BlocksCommand.{block_line};
ghost use Rattle.ci_commands.specs.private.Causes.{IsCause};

use crate::analysis::plain_analysis_of;
use ci_block::Block;
use ci_calls::{Refusal, Success, read_image};
use ci_elf::Image;
use ci_io::Shelf;
use ci_live::LiveSets;
use ci_reading::hex_text;
use ci_word::push_members;
use std::alloc::{AllocError, Global};

/// Makes the lines of the blocks of the executable in the file. `named` are addresses that the user names as leaders.
///
/// # Errors
///
/// `Read` where no file has the name, or reading it failed. `TooLarge` where the file has more than 16,777,216 bytes.
/// `BadElf` where it is no executable, by the first rule that it breaks. `Unsupported` where its text has a word of a
/// custom opcode: the first of these, at its address. `NoMemory`: memory ran out.
pub fn evaluate<'a, F: Shelf>(
    alloc: Global,
    file: &'a str,
    named: &[u32],
    shelf: &mut F,
) -> Result<Success<'a>, Refusal<'a>>
    ensures { IsAnswerOf F.read_may_fail F.write_may_fail (F.state shelf.old) (F.state shelf.new)
        (blocks_inputs file.now) (IsBlocksMade named.now) IsBlocksRefused result }
{
    let image = read_image(alloc, file, shelf)?;
    let text = block_lines(alloc, &image, named)?;
    Ok(Success {
        writes: Vec::new(alloc),
        text: text.into_bytes(),
    })
}

/// The lines of the blocks.
fn block_lines<'a>(alloc: Global, image: &Image, named: &[u32]) -> Result<String, Refusal<'a>>
    ensures done { IfOk result (λ text. IsBlocksText image.now named.now (string_bytes text)) }
    ensures cause { IfErr result (IsCause (IsFirstCustomWord image.now)) }
{
    let analysis = plain_analysis_of(alloc, image, named)?;
    let text = lines_of(alloc, analysis.blocks.all(), &analysis.live)?;
    Ok(text)
}

/// The lines of these blocks, by their live sets.
fn lines_of(alloc: Global, blocks: &[Block], live: &LiveSets) -> Result<String, AllocError>
    requires { map (λ block. block.leader) blocks.now ≡ live.now.leaders }
    ensures { IfOk result (λ text. string_bytes text ≡ flat_map (block_line live.now) blocks.now) }
{
    let mut text = String::new(alloc);
    for block in blocks {
        push_line(alloc, &mut text, block, live)?;
    }
    Ok(text)
}

/// Appends the line of a block: its leader, its length in instructions, and the registers that are live at the leader.
fn push_line(
    alloc: Global,
    text: &mut String,
    block: &Block,
    live: &LiveSets,
) -> Result<(), AllocError>
    requires { Contains live.now.leaders block.now.leader }
    ensures { OnOk result (string_bytes text.new ≡ string_bytes text.old ++ block_line live.now block.now) }
{
    let leader = hex_text(alloc, block.leader)?;
    let length = block.insns.as_slice().len();
    write!(text, "block {leader} length {length} live")?;
    push_members(text, &live.at(block.leader))?;
    text.push('\n')?;
    Ok(())
}
