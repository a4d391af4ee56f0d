//! Tests of cuts, of searches with their logs' checkers, of pairs, and of choices under a limit.
//!
//! They stand over the libraries, since a crate with tests is proved once more with them, and apart from those of
//! `ci_tests`, since the tests of a crate are proved by one process.
#![tactic(auto)]

#[cfg(test)]
mod area;
#[cfg(test)]
mod area_trials;
#[cfg(test)]
mod check;
#[cfg(test)]
mod cut;
#[cfg(test)]
mod damaged_pairs;
#[cfg(test)]
mod graphs;
#[cfg(test)]
mod pair_readings;
#[cfg(test)]
mod pairs;
#[cfg(test)]
mod search;
