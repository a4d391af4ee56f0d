//! Latency tables: what each class of instructions takes in software and in hardware.
//!
//! The text of a table is TOML. It may have the integers `read` and `pad`, a table `software` with a
//! latency for each class, in cycles, and a table `hardware` with a delay for each class that a
//! custom instruction may take in, in thousandths of a cycle. What isn't named keeps its default.
//!
//! | Class | `software` | `hardware` |
//! |---|---|---|
//! | `add` | 1 | 400 |
//! | `logic` | 1 | 100 |
//! | `shift` | 1 | 300 |
//! | `shift_const` | 1 | 0 |
//! | `compare` | 1 | 400 |
//! | `lui` | 1 | 0 |
//! | `mul` | 3 | 2100 |
//! | `mulh` | 3 | 2200 |
//! | `load` | 2 | |
//! | `store` | 1 | |
//! | `branch` | 1 | |
//! | `jump` | 2 | |
//! | `auipc` | 1 | |
//! | `div` | 32 | |
//! | `fence` | 1 | |
//! | `system` | 1 | |
//!
//! `read` is 1, and `pad` is 0. Latencies and `read` go from 1 to 1000, `pad` from 0 to 1000, and
//! delays from 0 to 100,000. `pad` is at most `read`, and at most each latency of a class that has a
//! delay.
//!
//! The definitions in `specs` say so exactly: the table of classes (`Latencies`), the keys and the
//! values that they may have (`Keys`), and which bytes are which table or have which fault (`Faults`).
#![tactic(auto)]

pub use faults::LatFault;
pub use keys::Key;
pub use reader::tables_are_in_the_order_of_classes;
pub use table::Table;

mod document;
mod faults;
mod keys;
mod reader;
mod table;
