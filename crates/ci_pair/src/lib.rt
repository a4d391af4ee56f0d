//! The best pair of cuts of one graph: two disjoint sets that may become instructions beside each other, and that gain
//! most together.
//!
//! A search labels the eligible nodes of a graph one after the other, from the last to the first: each is in the first
//! set, in the second, or in none. `search_pair` writes a log as a tree into a region while it goes, and `check_pair`
//! looks at each item of a log by itself.
//!
//! The definitions in `specs` say what a pair is and which one is best (`Pairs`), what the labels so far show of all
//! pairs that go on from there (`Prefixes`), when a log is accepted (`Rules`), and what a search answers (`Answered`).
//! Of each set they cite what `ci_cut` says of one.
#![tactic(auto)]

pub use checking::{PairWrong, check_pair};
pub use flattening::{PairChild, PairNode, flatten_pair};
pub use log::{PairItem, PairLog};
pub use pair::{Pair, fits_together};
pub use rules::pair_gain;
pub use searching::{PairFound, search_pair};

mod checking;
mod flattening;
mod leaves;
mod log;
mod pair;
mod rules;
mod searching;
mod terms;
mod trees;
