//! Folding: the members of a cut become one instruction.
#![tactic(auto)]

pub use folding::fold;
pub use laws::{
    block_keeps_itself, folded_has_same_effect, folded_is_one, folding_keeps,
    folding_keeps_agreement, folding_keeps_shape, folding_keeps_steps, folding_saves,
    keeping_joins, last_is_fetched, modules_are_units,
};

mod folding;
mod laws;
