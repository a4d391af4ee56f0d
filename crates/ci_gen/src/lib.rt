//! Programs that a seed generates, to run the finder on.
//!
//! The text has 1,800 groups of eight operations and a jump, which a linear congruential generator draws
//! from the seed, and an ending that writes x5 to the output and exits. The definitions stand in
//! `specs/Draws.antt` (the numbers drawn), `specs/Texts.antt` (the instructions, by their places) and
//! `specs/Programs.antt` (the file). The functions of `laws` have no effect: their contracts say what reading
//! such a file gives (`specs/Laws.antt`), and that its run exits (`specs/Runs.antt`).
#![tactic(auto)]

pub use file::program;

mod file;
mod generator;
pub mod laws;
mod text;
