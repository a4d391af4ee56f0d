//! The modules of units, and their text.
#![tactic(auto)]

pub use building::modules;
pub use laws::modules_compute_units;
pub use writing::{emit, text};

mod building;
mod laws;
mod parts;
mod templates;
mod writing;
