//! The text of modules: its tokens, its grammar, its first fault, and the modules that it spells.
#![tactic(auto)]

pub use faults::VFault;
pub use reading::read;
pub use tokens::Sign;

mod building;
mod bytes;
mod checking;
mod faults;
mod grammar;
pub mod laws;
mod names;
mod reading;
mod roles;
mod scanning;
mod seen;
mod tokens;
mod values;
