//! What holds of all live sets, as contracts of functions without effect.
ghost use Rattle.ci_live.specs.Laws.{AnalysisIsOne, LiveAreRegisters, LiveAtSuccessor};
ghost use Rattle.ci_live.specs.Laws.{LiveIsNeeded, LiveOnWays, LiveSetsAreOne};

/// What is live at a leader is what its block needs for what is live after it, and what is live at a successor, or
/// where a way on leads, is live after the block.
pub fn live_is_what_blocks_need()
    ensures needed { LiveIsNeeded }
    ensures successor { LiveAtSuccessor }
    ensures ways { LiveOnWays }
{}

/// The blocks determine the live sets, and so do a file, the known targets of JALR and the addresses that the user
/// names.
pub fn live_sets_are_determined()
    ensures blocks { LiveSetsAreOne }
    ensures file { AnalysisIsOne }
{}

/// The live sets of a file hold no more than the registers x0 to x31.
pub fn live_sets_hold_registers()
    ensures { LiveAreRegisters }
{}
