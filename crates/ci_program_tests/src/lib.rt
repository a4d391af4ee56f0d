//! Tests of programs: of files, their blocks and live registers, of runs, and of reports.
//!
//! They stand over the libraries, since a crate with tests is proved once more with them, and apart from those of
//! `ci_tests`, since the tests of a crate are proved by one process.
#![tactic(auto)]

#[cfg(test)]
mod block;
#[cfg(test)]
mod common;
#[cfg(test)]
mod elf;
#[cfg(test)]
mod emu;
#[cfg(test)]
mod live;
#[cfg(test)]
mod machine;
#[cfg(test)]
mod report;
#[cfg(test)]
mod xemu;
