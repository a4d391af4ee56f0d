//! Tests of texts, and of where they come from and go to: assembly, tables of latencies, logs, and the words of calls.
//!
//! They stand over the libraries, since a crate with tests is proved once more with them, and apart from those of
//! `ci_tests`, since the tests of a crate are proved by one process.
#![tactic(auto)]

#[cfg(test)]
mod arguments;
#[cfg(test)]
mod asm;
#[cfg(test)]
mod io;
#[cfg(test)]
mod lat;
#[cfg(test)]
mod log;
#[cfg(test)]
mod reading;
