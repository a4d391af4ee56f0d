//! The commands that need no rounds: what each makes of its files, or why it makes nothing. They take names and
//! settings, and know nothing of the words that say them.
#![tactic(auto)]

pub use analysis::refuse_custom_words;

mod analysis;
pub mod asm;
pub mod best;
pub mod blocks;
pub mod dis;
pub mod eval;
pub mod gates;
pub mod geval;
pub mod relog;
pub mod run;
