//! Modules of the Verilog profile, and what they compute.
#![tactic(auto)]

pub use evaluation::eval;
pub use expressions::{Expr, Item, Items, Name, Operator, Simple, Term, Wire};
pub use lookup::{input_named, wire_named};
pub use modules::Module;
pub use wires::Wires;

mod evaluation;
mod expressions;
pub mod laws;
mod lookup;
mod modules;
mod vectors;
mod widths;
mod wires;
