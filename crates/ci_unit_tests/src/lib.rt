//! Tests of units, of Verilog and of what is made of it: plans and netlists.
//!
//! They stand over the libraries, since a crate with tests is proved once more with them, and apart from those of
//! `ci_tests`, since the tests of a crate are proved by one process.
#![tactic(auto)]

#[cfg(test)]
mod gates;
#[cfg(test)]
mod plan;
#[cfg(test)]
mod unit;
#[cfg(test)]
mod verilog;
#[cfg(test)]
mod vread;
