//! The blocks, and where they lead.
ghost use Rattle.std.specs.Prelude.{◌+◌, ◌*◌, ◌<◌, ◌↔◌, [], ◌∷◌, length, slice_index, IfOk, IsTrue};
ghost use Rattle.ci_elf.specs.Executables.{IsTextWord};
ghost use Rattle.ci_elf.specs.MemoryMap.{memory_top};
ghost use Rattle.ci_block.specs.Blocks.{AreBlocks, AreSuccessors, IsNext};
ghost use Rattle.ci_block.specs.Leaders.{AreLeaders};
ghost use Rattle.ci_block.specs.private.Stretches.{AreInsns, EndsStretch, IsBlockOf, IsRangeEnd, IsStretch};

use crate::Leaders;
use crate::text::{address_behind, insn_in};
use ci_elf::{Image, range_with};
use ci_isa::Insn;
use std::alloc::{AllocError, Global};
use std::marker::Model;

/// The successors of a block that count: those that are a multiple of four in the text.
#[derive(Clone, Copy, Debug, PartialEq, Eq)]
pub enum Next {
    /// There is none.
    Stop,
    /// There is one, or the two ways on are equal.
    One(u32),
    /// The target of a branch, and the word behind it.
    Two(u32, u32),
    /// Any leader, behind a JALR.
    Any,
}

/// A basic block.
#[derive(Drop)]
pub struct Block {
    /// The address of its first instruction.
    pub leader: u32,
    /// Its instructions, from 1 to 256. Only the last one may be a terminator.
    pub insns: Vec<Insn>,
    /// Its successors.
    pub next: Next,
}

/// The basic blocks of a file.
#[derive(Drop)]
pub struct Blocks {
    blocks: Vec<Block>,
}

impl Model for Blocks {
    ghost use Rattle.std.specs.Prelude.{List};
    ghost use Rattle.ci_block.specs.declared.blocks.Block.{Block};

    ghost Value = { List Block };

    ghost view = { λ b. b.blocks.items };

    ghost use Rattle.ci_block.specs.Blocks.{AreInOrder};

    ghost invariant = { λ b. AreInOrder b.blocks.items };
}

impl Blocks {
    ghost use Rattle.std.specs.Prelude.{◌≡◌};
    ghost use Rattle.ci_block.specs.Blocks.{AreInOrder};

    /// The blocks, in the order of their leaders.
    pub fn all(&self) -> &[Block]
        ensures value { result.now ≡ self.now }
        ensures order { AreInOrder self.now }
    {
        &self.blocks
    }
}

/// Whether the address is a multiple of four in the text.
fn is_text_word(image: &Image, address: u32) -> bool
    ensures { IsTrue result ↔ IsTextWord image.now.ranges address }
{
    address % 4 == 0 && image.in_text(address)
}

/// The successor, where there is one way on.
fn jump_successor(image: &Image, way: u32) -> Next
    ensures { AreSuccessors image.now (way ∷ []) result }
{
    if is_text_word(image, way) {
        Next::One(way)
    } else {
        Next::Stop
    }
}

/// The successors, where there are two ways on.
fn branch_successors(image: &Image, target: u32, following: u32) -> Next
    ensures { AreSuccessors image.now (target ∷ following ∷ []) result }
{
    if target == following || !is_text_word(image, following) {
        jump_successor(image, target)
    } else if is_text_word(image, target) {
        Next::Two(target, following)
    } else {
        Next::One(following)
    }
}

/// The successors of a block whose last instruction stands at this address.
fn successors(image: &Image, last: u32, insn: &Insn) -> Next
    requires { last < memory_top }
    ensures { IsNext image.now last insn.now result }
{
    match *insn {
        Insn::Jalr { .. } => Next::Any,
        Insn::Ebreak | Insn::Illegal { .. } => Next::Stop,
        Insn::Jal { offset, .. } => jump_successor(image, address_behind(last, offset)),
        Insn::Branch { offset, .. } => branch_successors(
            image,
            address_behind(last, offset),
            last + 4,
        ),
        _ => jump_successor(image, last + 4),
    }
}

/// Where the range ends in which a word of the text lies.
fn range_end(image: &Image, address: u32) -> u32
    requires { IsTextWord image.now.ranges address }
    ensures { IsRangeEnd image.now.ranges address result }
{
    let ranges = image.ranges();
    match range_with(ranges, address) {
        Some(index) => ranges[index].start + 4 * ranges[index].words,
        None => unreachable!(),
    }
}

/// Where the block of leader `index` ends: at the next leader, or with its range.
fn block_end(image: &Image, leaders: &[u32], index: usize) -> u32
    requires leaders { AreLeaders image.now leaders.now }
    requires within { index < length leaders.now }
    ensures { EndsStretch image.now leaders.now (slice_index leaders.now index) result }
{
    let end = range_end(image, leaders[index]);
    if index + 1 < leaders.len() {
        end.min(leaders[index + 1])
    } else {
        end
    }
}

/// The instructions of so many words from an address on.
fn insns_from(alloc: Global, image: &Image, start: u32, count: u32) -> Result<Vec<Insn>, AllocError>
    requires { IsStretch image.now start (start + 4 * count) }
    ensures { IfOk result (λ insns. AreInsns image.now start count insns.items) }
{
    let mut insns = Vec::with_capacity(alloc, count as usize)?;
    for word in 0..count {
        insns.push(insn_in(image, start + 4 * word))?;
    }
    Ok(insns)
}

/// The block from one address to another.
fn block_between(alloc: Global, image: &Image, start: u32, end: u32) -> Result<Block, AllocError>
    requires { IsStretch image.now start end }
    ensures { IfOk result (IsBlockOf image.now start end) }
{
    let last = end - 4;
    Ok(Block {
        leader: start,
        insns: insns_from(alloc, image, start, (end - start) / 4)?,
        next: successors(image, last, &insn_in(image, last)),
    })
}

/// The blocks of these leaders.
fn blocks_of(alloc: Global, image: &Image, leaders: &[u32]) -> Result<Vec<Block>, AllocError>
    requires { AreLeaders image.now leaders.now }
    ensures { IfOk result (λ blocks. AreBlocks image.now leaders.now blocks.items) }
{
    let mut blocks = Vec::with_capacity(alloc, leaders.len())?;
    for index in 0..leaders.len() {
        let end = block_end(image, leaders, index);
        blocks.push(block_between(alloc, image, leaders[index], end)?)?;
    }
    Ok(blocks)
}

/// The blocks of a file, by leaders that were listed for it.
///
/// An Err is out of memory.
pub fn split(alloc: Global, image: &Image, leaders: &Leaders) -> Result<Blocks, AllocError>
    requires { AreLeaders image.now leaders.now }
    ensures { IfOk result (λ blocks. AreBlocks image.now leaders.now blocks) }
{
    Ok(Blocks {
        blocks: blocks_of(alloc, image, leaders.all())?,
    })
}
