//! Which registers are live where the basic blocks of an executable file begin and end, and the blocks with them.
//!
//! Liveness is defined in `specs/Liveness.antt` by the lists of blocks that a run may pass. The code repeats a step
//! over sets of registers until nothing changes. `specs/Analyses.antt` says what the blocks of a file and their live
//! sets are. The functions of `laws` have no effect: their contracts say what holds of all live sets
//! (`specs/Laws.antt`).
#![tactic(auto)]

pub use analysis::{Analysis, analysis_of};
pub use live_sets::{LiveSets, live};

mod analysis;
mod flow;
mod iteration;
pub mod laws;
mod live_sets;
mod predecessors;
