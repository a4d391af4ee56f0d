//! The search for the best cut: branch and bound over the choices for the eligible nodes, from the last to the first.
//!
//! `search` writes its log as a tree into a region while it goes, one slot for each branch. The log is one that the
//! checker accepts for the cut that it finds, or for none. It gives up exactly where the need of the graph is greater
//! than the number of free slots.
#![tactic(auto)]

pub use searching::{Found, search, search_reusing};

mod leaves;
mod searching;
mod trees;
