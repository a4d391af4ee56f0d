//! Modules as netlists: each operator in gates of two inputs, with the exact number of gates.
#![tactic(auto)]

pub use ci_netlist::{Bit, GATES, Gate, GateFault, Netlist, read, value, write};
pub use counts::count;
pub use laws::modules_have_counts;
pub use modules::of_module;
pub use units::netlist;

mod adders;
mod building;
mod counts;
mod expressions;
mod inputs;
mod laws;
mod modules;
mod operators;
mod products;
mod scopes;
mod shifts;
mod units;
mod words;
