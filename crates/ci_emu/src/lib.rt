//! Steps and runs of RV32IM programs, what is counted over them, and how they ended, as text
//! (RISC-V Unprivileged ISA 20191213, chapters 2 and 7).
//!
//! The plain machine is one of many: a `Machine` says what stands at the words that the plain table has not, and all
//! else is the same of every machine.
#![tactic(auto)]

pub use ci_machine::End;
pub use ends::end_text;
pub use machine::{Machine, PlainMachine};
pub use profile::Profile;
pub use runs::{run, run_on};
pub use steps::{Outcome, step, step_on};

mod actions;
mod counts;
mod decode_cache;
mod ends;
mod execution;
mod machine;
mod profile;
mod quick;
mod runs;
mod steps;
mod tally;
mod touches;
