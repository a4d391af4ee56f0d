//! The operations on words of 32 bits, and sets of numbers below 256, held as bits of machine words, with their
//! members as text.
#![tactic(auto)]

pub use arithmetic::{Class, Op, alu};
pub use members::push_members;
pub use row_set::Row;

mod arithmetic;
mod members;
mod row_set;
