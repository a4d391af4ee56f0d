//! Modules made ready for many uses: a use takes no memory, and where the module's steps fit into 64 words, it looks up
//! no name.
#![tactic(auto)]

pub use prepared::{Prepared, prepare};

mod drafts;
mod founds;
mod fusions;
mod makers;
mod names;
mod plans;
mod prepared;
mod steps;
