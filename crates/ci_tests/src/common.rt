//! What several modules of tests share: sets of registers, and instructions by their words.
ghost use Rattle.std.specs.Prelude.{IfOk};
ghost use Rattle.ci_rewrite.specs.Blocks.{AllFieldsFit};

use ci_isa::{Insn, decode_x};
use ci_word::Row;
use std::alloc::{AllocError, Global};

/// The set of these numbers.
pub(crate) fn set_of(numbers: &[u8]) -> Row {
    let mut row = Row::empty();
    for number in numbers {
        row.insert(*number);
    }
    row
}

/// All registers but x0.
pub(crate) fn all_registers() -> Row {
    let mut row = Row::empty();
    for register in 1..32 {
        row.insert(register);
    }
    row
}

/// The instructions that these words stand for.
pub(crate) fn insns_of(alloc: Global, words: &[u32]) -> Result<Vec<Insn>, AllocError>
    ensures { IfOk result (λ insns. AllFieldsFit insns.items) }
{
    let mut insns = Vec::new(alloc);
    for word in words {
        insns.push(decode_x(*word).unwrap_or(Insn::Illegal { word: *word }))?;
    }
    Ok(insns)
}
