//! Instructions and their words.
ghost use Rattle.std.specs.Prelude.{IfOk};
ghost use Rattle.ci_isa.specs.Table.{IsWellFormed};
ghost use Rattle.ci_rewrite.specs.Blocks.{AllFieldsFit};

use ci_isa::{Insn, decode_x, encode};
use std::alloc::{AllocError, Global};

/// The instruction that the word reads as in the extended table, or `Illegal` with the word.
pub fn insn_of(word: u32) -> Insn
    ensures { IsWellFormed result }
{
    decode_x(word).unwrap_or(Insn::Illegal { word })
}

/// The instructions that the words read as.
pub fn insns_of(alloc: Global, words: &[u32]) -> Result<Vec<Insn>, AllocError>
    ensures { IfOk result (λ insns. AllFieldsFit insns.items) }
{
    let mut insns = Vec::new(alloc);
    for word in words {
        insns.push(insn_of(*word))?;
    }
    Ok(insns)
}

/// The words of the instructions.
pub fn words_of(alloc: Global, insns: &[Insn]) -> Result<Vec<u32>, AllocError>
    requires { AllFieldsFit insns.now }
{
    let mut words = Vec::new(alloc);
    for insn in insns {
        words.push(encode(insn))?;
    }
    Ok(words)
}
