//! Graphs of basic blocks, convex cuts of them, and the best cut.
//!
//! What a search has decided, and what bounds the cuts that go on from there, is defined here too
//! (`specs/Prefixes.antt`), and how many branches a search needs (`specs/Need.antt`). `PrefixTerms` keeps what a search
//! or a checker asks of it, from one decision to the next; their walks are in crates above.
#![tactic(auto)]

pub use choice::best_of_all;
pub use convexity::is_convex;
pub use graph::{Graph, Limits, Node, Source, Sources};
pub use graph_rows::GraphRows;
pub use incumbent::Incumbent;
pub use order::comes_before;
pub use ports::{SourceSet, inputs, outputs};
pub use prefix::{Delays, PrefixTerms};
pub use timing::{hardware, hardware_is_the_critical_path};
pub use value::{are_nodes, fits, gain, gain_above};

mod choice;
mod convexity;
mod graph;
mod graph_rows;
mod incumbent;
mod order;
mod ports;
mod prefix;
mod timing;
mod value;
