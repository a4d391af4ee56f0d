//! The checker of logs: an accepted log shows that no set of nodes that fits gains more than the best cut.
//!
//! A search decides the eligible nodes of a graph one after the other, from the last to the first. What it has decided
//! is a prefix. Its log says of each prefix why no set that goes on from it is a better cut, or branches on the next
//! node. `check` looks at each item of a log by itself, and `needs_more` tells whether a search needs more branches
//! than a budget.
//!
//! What rules out the sets that go on from a prefix is told as the checker tells it: `is_right` and `is_right_with`
//! serve both.
//!
//! The definitions of `ci_cut` say what a prefix is and what bounds the sets that go on from it (`Prefixes`), and how
//! many prefixes are open (`Need`); those in `specs` say when a log is accepted (`Rules`).
#![tactic(auto)]

pub use checking::{Wrong, check, check_reusing};
pub use laws::each_item_has_one_prefix;
pub use need::needs_more;
pub use rules::{is_right, is_right_with};

mod checking;
mod laws;
mod need;
mod rules;
