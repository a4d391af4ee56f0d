//! The basic blocks of an executable file: where they begin, their instructions, and where they lead; and the words of
//! its text that have a custom opcode.
//!
//! `patch_block` writes the words of a block into the file.
//!
//! What stands in the text is defined in `specs/Text.antt`, words of the custom opcodes in `specs/CustomWords.antt`,
//! the listed leaders in `specs/Leaders.antt`, and blocks and their successors in `specs/Blocks.antt`. The functions of
//! `laws` have no effect: their contracts say what holds of all files, and `specs/Laws.antt` has the laws on blocks.
#![tactic(auto)]

pub use addresses::Leaders;
pub use blocks::{Block, Blocks, Next, split};
pub use custom_words::{CustomWord, first_custom_word};
pub use listing::leaders;
pub use patching::patch_block;

mod addresses;
mod blocks;
mod custom_words;
mod data;
pub mod laws;
mod listing;
mod marks;
mod patching;
mod text;
