//! What holds of renamed blocks. The functions do nothing; their contracts are the laws.
ghost use Rattle.ci_rename.specs.Laws.{RenamedBlocksComputeAlike, RenamedFieldsFit};
ghost use Rattle.ci_rename.specs.Laws.{RenamedIsOne, RenamingComputesAlike};
ghost use Rattle.ci_rename.specs.FewerArcs.{BestGainStays, CutsStay, RenamingTakesArcs};
ghost use Rattle.ci_rename.specs.InStep.{BlocksPassInStep};
ghost use Rattle.ci_rename.specs.Steps.{InstructionsGoOnAlike};

/// Instructions that differ in registers alone go on alike from the same operands.
pub fn instructions_go_on_alike()
    ensures { InstructionsGoOnAlike }
{}

/// A block in which a local value takes a free register computes as it did.
pub fn renaming_computes_alike()
    ensures { RenamingComputesAlike }
{}

/// A renamed block computes as the block did.
pub fn renamed_blocks_compute_alike()
    ensures { RenamedBlocksComputeAlike }
{}

/// Blocks that compute alike are passed in step.
pub fn blocks_pass_in_step()
    ensures { BlocksPassInStep }
{}

/// Where arcs are taken away, each set that fits still fits, with the same gain, and the best gain doesn't fall.
pub fn cuts_stay()
    ensures each { CutsStay }
    ensures best { BestGainStays }
{}

/// The graph of a renamed block has no arc that the block's hasn't, and differs in nothing else.
pub fn renaming_takes_arcs()
    ensures { RenamingTakesArcs }
{}

/// There is one renamed block, and one number of its values.
pub fn renamed_is_one()
    ensures { RenamedIsOne }
{}

/// The fields of a renamed block are within their places.
pub fn renamed_fields_fit()
    ensures { RenamedFieldsFit }
{}
