//! The basic blocks of an executable without words of a custom opcode, and the registers that are live around them.
ghost use Rattle.std.specs.Prelude.{[], IfOk, IfErr};
ghost use Rattle.ci_block.specs.CustomWords.{HasNoCustomWord, IsFirstCustomWord};
ghost use Rattle.ci_live.specs.Analyses.{IsAnalysis};
ghost use Rattle.ci_calls.specs.Evaluations.{IsUnsupported};
ghost use Rattle.ci_commands.specs.private.Causes.{IsCause};

use ci_block::{CustomWord, first_custom_word};
use ci_calls::Refusal;
use ci_elf::Image;
use ci_live::Analysis;
use std::alloc::Global;

/// That the text of an executable has no word of a custom opcode.
///
/// # Errors
///
/// `Unsupported` where it has one: the first, at its address.
pub fn refuse_custom_words<'a>(image: &Image) -> Result<(), Refusal<'a>>
    ensures none { IfOk result (λ _. HasNoCustomWord image.now) }
    ensures cause { IfErr result (IsUnsupported (IsFirstCustomWord image.now)) }
{
    match first_custom_word(image) {
        Some(CustomWord { address, word }) => Err(Refusal::Unsupported {
            position: address,
            word,
        }),
        None => Ok(()),
    }
}

/// The blocks of an executable whose text has no word of a custom opcode, and their live sets. `named` are addresses
/// that the user names as leaders.
pub fn plain_analysis_of<'a>(
    alloc: Global,
    image: &Image,
    named: &[u32],
) -> Result<Analysis, Refusal<'a>>
    ensures no_custom { IfOk result (λ _. HasNoCustomWord image.now) }
    ensures done { IfOk result (λ analysis. IsAnalysis image.now [] named.now analysis.blocks analysis.live) }
    ensures cause { IfErr result (IsCause (IsFirstCustomWord image.now)) }
{
    refuse_custom_words(image)?;
    let analysis = ci_live::analysis_of(alloc, image, &[], named)?;
    Ok(analysis)
}
