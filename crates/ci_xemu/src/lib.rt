//! The extended machine: steps and runs of programs whose words may run units, pass them operands and read their
//! further results.
#![tactic(auto)]

pub use ci_emu::{End, Outcome, Profile};
pub use running::{run_x, step_x};

mod machine;
mod prepared;
mod running;
