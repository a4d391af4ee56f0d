//! The report of a choice of cuts: what was profiled, which cuts were taken and which blocks were skipped, the units,
//! and what all of it saves.
//!
//! The definition is `specs/Reports.antt`.
#![tactic(auto)]

pub use laws::report_is_determined;
pub use reporting::report;

mod laws;
mod lines;
mod reporting;
