//! The machine: its state, and what each instruction does to it (RISC-V Unprivileged ISA 20191213, chapters 2 and 7).
//!
//! The definitions stand in `specs/`. The functions of `laws` have no effect: their contracts say what holds of all
//! bytes, instructions, lists of instructions and runs, and of the runs of all files.
#![tactic(auto)]

pub use ends::End;
pub use state::{Call, State, Unmapped};

mod bytes;
mod calls;
mod ends;
pub mod laws;
mod memory;
mod pages;
mod spans;
mod start;
mod state;
mod touches;
mod windows;
