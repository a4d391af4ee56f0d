//! What the calls of all commands share: the files that they read, each with its limit and its form; the refusals, each
//! with its status and its fault line; and the way from a success to the end of the call.
#![tactic(auto)]

pub use finishing::finish;
pub use inputs::{
    read_book, read_file, read_image, read_input, read_nets, read_new_file, read_optional_units,
    read_table, read_units,
};
pub use refusals::{Refusal, refuse};
pub use success::{Success, Written};

mod finishing;
mod inputs;
mod refusals;
mod success;
