//! The block of instructions that the words of a file are.
ghost use Rattle.std.specs.Prelude.{◌≡◌, ◌+◌, ◌<◌, ◌≤◌, ◌%◌, ◌↔◌, ◌⊎◌, IfOk, IfErr, IsTrue, length};
ghost use Rattle.ci_commands.specs.private.Causes.{IsCause};
ghost use Rattle.ci_isa.specs.Fields.{HasCustomOpcode};
ghost use Rattle.ci_dfg.specs.Bundles.{AreBundled};
ghost use Rattle.ci_commands.specs.WordBlocks.{IsWordBlock, IsNoWordBlock, IsTerminator, every_register};

use super::LiveBlock;
use ci_calls::Refusal;
use ci_isa::{Insn, has_custom_opcode, insn_at, is_terminator};
use ci_reading::word_at;
use ci_word::Row;
use std::alloc::Global;

/// How many registers there are.
const REGISTERS: u8 = 32;

/// The block that the bytes spell, after which every register is live.
pub fn word_block<'a>(alloc: Global, bytes: &[u8]) -> Result<LiveBlock, Refusal<'a>>
    requires { length bytes.now ≤ 1024 }
    ensures few { IfOk result (λ block. length block.insns.items ≤ 256) }
    ensures bundled { IfOk result (λ block. AreBundled block.insns.items) }
    ensures block { IfOk result (λ block. IsWordBlock bytes.now block.insns.items) }
    ensures live { IfOk result (λ block. block.live_out ≡ every_register) }
    ensures cause { IfErr result (IsCause (IsNoWordBlock bytes.now)) }
{
    if bytes.len() % 4 != 0 {
        return Err(Refusal::Unsupported {
            position: bytes.len() as u32,
            word: 0,
        });
    }
    Ok(LiveBlock {
        insns: insns_of(alloc, bytes)?,
        live_out: every_register(),
    })
}

/// The instructions of the words.
fn insns_of<'a>(alloc: Global, bytes: &[u8]) -> Result<Vec<Insn>, Refusal<'a>>
    requires few { length bytes.now ≤ 1024 }
    requires whole_words { length bytes.now % 4 ≡ 0 }
    ensures few { IfOk result (λ insns. length insns.items ≤ 256) }
    ensures block { IfOk result (λ insns. IsWordBlock bytes.now insns.items) }
    ensures cause { IfErr result (IsCause (IsNoWordBlock bytes.now)) }
{
    let count = bytes.len() / 4;
    let mut insns = Vec::new(alloc);
    for place in 0..count {
        let word = word_at(bytes, place);
        if is_misplaced(word, place, count) {
            return Err(Refusal::Unsupported {
                position: 4 * place as u32,
                word,
            });
        }
        insns.push(insn_at(word))?;
    }
    Ok(insns)
}

/// Whether word `place` of a block of `count` words can't stand there: it has a custom opcode, or it is a terminator
/// and not the last word.
fn is_misplaced(word: u32, place: usize, count: usize) -> bool
    requires { place < count }
    ensures { IsTrue result ↔ (HasCustomOpcode word ⊎ ((place + 1 < count) × IsTerminator word)) }
{
    has_custom_opcode(word) || (place + 1 < count && ends_block(word))
}

/// Whether the word stands for a terminator.
fn ends_block(word: u32) -> bool
    ensures { IsTrue result ↔ IsTerminator word }
{
    is_terminator(&insn_at(word))
}

/// x0 to x31.
fn every_register() -> Row
    ensures { result ≡ every_register }
{
    let mut registers = Row::empty();
    for register in 0..REGISTERS {
        registers.insert(register);
    }
    registers
}
