//! The rounds in which cuts are chosen, as in the iterative selection of Atasu, Pozzi, Ienne (DAC 2003) and Pozzi,
//! Atasu, Ienne (TCAD 2006): each time the best cut of the block where it saves most becomes an instruction, and that
//! block is searched again.
//!
//! `choose` makes the choice, and writes its log book; `accept` tells whether a book is one that a choice may write.
//! Which entry a book may have next is defined in `specs/Dues.antt`, over what the entries before it say; `Rounds`
//! keeps that for both.
#![tactic(auto)]

pub use acceptance::{Verdict, accept};
pub use choosing::{Chosen, choose};
pub use laws::{
    book_is_judged_once, book_keeps_each_block, book_saves_few, book_tells_the_best, choice_is_one,
    legal_books_are_in_order, like_instances_have_the_same_books, takes_name_their_units,
    units_save_all,
};
pub use plan::Plan;
pub use savings::saved_by;
pub use taken::Taken;

mod acceptance;
mod choosing;
mod laws;
mod plan;
mod rounds;
mod savings;
mod taken;
