//! The tests of the crates below that stand in no other crate of tests, by the calls that these give out.
//!
//! They stand here, over the libraries, since a crate with tests is proved once more with them.
#![tactic(auto)]

#[cfg(test)]
mod common;
#[cfg(test)]
mod dfg;
#[cfg(test)]
mod generated;
#[cfg(test)]
mod isa;
#[cfg(test)]
mod region;
#[cfg(test)]
mod rename;
#[cfg(test)]
mod rewrite;
#[cfg(test)]
mod select;
#[cfg(test)]
mod word;
