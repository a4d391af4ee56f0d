//! The best choice of pieces under an area limit.
//!
//! A piece needs an area and gains something, and only pieces whose areas together are within a limit can be had.
//! `choose_within` finds the best set of them by branch and bound over the choices for the pieces, from the last to the
//! first, and writes a log of its search as a tree into a region. `flatten_area` lists the items of such a tree, and
//! `check_choice` tells of each item by itself whether it is right: a log of right items shows that the set is best.
//!
//! The definitions in `specs` say which set is best (`Pieces`), what a search decides and what bounds it
//! (`AreaPrefixes`), how many branches it needs (`AreaNeed`), and when a log is accepted (`AreaRules`).
#![tactic(auto)]

pub use checking::{AreaWrong, check_choice};
pub use flattening::{AreaChild, AreaNode, flatten_area};
pub use laws::{an_accepted_log_shows_the_best_set, there_is_one_greedy_set};
pub use log::{AreaItem, AreaLog};
pub use piece::{Piece, are_pieces, together};
pub use searching::{AreaFound, choose_within};

mod bounds;
mod checking;
mod decided;
mod flattening;
mod greedy;
mod laws;
mod leaves;
mod log;
mod piece;
mod rates;
mod rules;
mod searching;
mod trees;
