//! The tests of whole calls of the program, over files and a sink in memory.
//!
//! They stand here, over the libraries, since a crate with tests is proved once more with them, and apart from those of
//! `ci_tests`, since the tests of a crate are proved by one process.
#![tactic(auto)]

#[cfg(test)]
mod analyses;
#[cfg(test)]
mod areas;
#[cfg(test)]
mod books;
#[cfg(test)]
mod choices;
#[cfg(test)]
mod commands;
#[cfg(test)]
mod common;
#[cfg(test)]
mod damaged;
#[cfg(test)]
mod extended;
#[cfg(test)]
mod latencies;
#[cfg(test)]
mod limits;
#[cfg(test)]
mod load;
#[cfg(test)]
mod netlists;
#[cfg(test)]
mod pairs;
#[cfg(test)]
mod plans;
#[cfg(test)]
mod renames;
#[cfg(test)]
mod runs;
#[cfg(test)]
mod steps;
#[cfg(test)]
mod units;
