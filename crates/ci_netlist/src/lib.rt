//! Netlists of gates with two inputs: what they compute, and their text.
//!
//! In the text of a list of netlists each one has these lines, each of which ends by a newline:
//!
//! ```text
//! netlist K gates N
//! and A B            N lines for the gates in their order, by `and`, `or` or `xor`
//! y A .. A           32 bits, the lowest first
//! z A .. A
//! x A .. A
//! ```
//!
//! K counts the netlists from 0, and is below 32. N is at most 4,194,304. A bit is `0`, `1`, a letter from a to e with
//! the number of a bit of that input from 0 to 31, or `g` with the number of an earlier gate, which are counted from 0.
//! Numbers are decimal, without leading zeros.
//!
//! The definitions in `specs` say what a netlist computes (`Netlists`), what the text of netlists is (`Texts`) and
//! where bytes that are none are bad (`Faults`).
#![tactic(auto)]

pub use bits::{Bit, Gate};
pub use faults::GateFault;
pub use laws::{faults_are_one, netlists_have_values, texts_are_one};
pub use netlists::{GATES, Netlist};
pub use reading::read;
pub use values::value;
pub use writing::write;

mod bits;
mod faults;
mod laws;
mod netlists;
mod reading;
mod starts;
mod values;
mod writing;
