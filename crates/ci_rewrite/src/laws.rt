//! What holds of folded blocks. The functions do nothing; their contracts are the laws.
ghost use Rattle.ci_rewrite.specs.Costs.{FoldingSaves};
ghost use Rattle.ci_rewrite.specs.FoldedBlock.{FoldedIsOne};
ghost use Rattle.ci_rewrite.specs.SameEffect.{FoldingKeepsShape, FoldingKeeps, FoldingKeepsAgreement};
ghost use Rattle.ci_rewrite.specs.SameEffect.{BlockKeepsItself, KeepingJoins};
ghost use Rattle.ci_rewrite.specs.SameSteps.{FoldedHasSameEffect, FoldingKeepsSteps};
ghost use Rattle.ci_rewrite.specs.SameSteps.{PassedBlocksEndAlike, LastIsFetched};
ghost use Rattle.ci_rewrite.specs.UnitModules.{ModulesServe, ModulesCompute};

/// A block has one folded block for a cut and a number.
pub fn folded_is_one()
    ensures { FoldedIsOne }
{}

/// A folded block is as long as the block, ends as it does, keeps the words of its bundles together, and can be folded
/// again.
pub fn folding_keeps_shape()
    ensures { FoldingKeepsShape }
{}

/// Folding keeps the effect of a block.
pub fn folding_keeps()
    ensures { FoldingKeeps }
{}

/// And it does from a core that agrees on what the block needs.
pub fn folding_keeps_agreement()
    ensures { FoldingKeepsAgreement }
{}

/// A folded block has the same effect as the block on every machine with modules that has the unit: from states that
/// agree on what the block needs, steps through both end by one refused access, or pass and agree on what is live. Such
/// a machine also has the modules of the folded block, so that the law holds again where that is folded.
pub fn folded_has_same_effect()
    ensures { FoldedHasSameEffect }
{}

/// Where both blocks stand in text, steps through a block that was folded, once or several times, do what those through
/// the block do, with the instruction that ends them.
pub fn folding_keeps_steps()
    ensures actions { FoldingKeepsSteps }
    ensures end { PassedBlocksEndAlike }
{}

/// The units of a machine with modules serve the unit words that have theirs, and compute what these do.
pub fn modules_are_units()
    ensures serve { ModulesServe }
    ensures compute { ModulesCompute }
{}

/// Behind the actions of a block its last instruction is fetched.
pub fn last_is_fetched()
    ensures { LastIsFetched }
{}

/// A block keeps itself: it has its own effect.
pub fn block_keeps_itself()
    ensures { BlockKeepsItself }
{}

/// Several folds keep a block.
pub fn keeping_joins()
    ensures { KeepingJoins }
{}

/// A folded block costs less by the gain of the cut.
pub fn folding_saves()
    ensures { FoldingSaves }
{}
