//! Log books, versions 1 and 2: the searches and takes of a choice of cuts, with the log of each search.
//!
//! A book has lines, each of which ends by a newline. In version 1 these are:
//!
//! ```text
//! book   = "ci-log 1" nl { search } { take search } finish
//! search = "block " addr " best" { " " node } nl tree nl
//!        | "block " addr " none" nl tree nl
//!        | "block " addr " spent " number nl
//! take   = "take " addr " unit " number nl
//! finish = "end none" nl | "end count" nl
//! ```
//!
//! An addr is eight lower-case hexadecimal digits. Numbers are decimal, without leading zeros, and
//! have at most seven digits; a unit is below 32. Nodes are below 256 and rise, and at least one
//! stands there. A tree is the letters of a log in preorder: `B` and then its two children, or one
//! of `O`, `C`, `I`, `G`, `F`.
//!
//! Version 2 begins by `ci-log 2`, and a tree is packed there, two half bytes a byte. `B`, `O`, `C`, `I`, `G` and `F`
//! are the half bytes 0 to 5. A maximal run of equal leaves that follow on one another is the leaf's half byte, then 15
//! for each ten more, and then the half byte 5 + s for the s that are left, if any are. Bytes are filled from the high
//! half; where the number of half bytes is odd the last low half is 0.
//!
//! The definitions in `specs` say what a log is (`Trees`) and what its packed bytes are (`Packed`); of whole texts, what
//! that of a book is in each version (`Books`), and what the first fault of one is (`Faults`); and which log a tree in a
//! region is (`RegionTrees`). The other files of `specs` say what the private functions compute; `proofs` shows that both
//! agree.
#![tactic(auto)]

pub use book::{Entry, Finish, LogBook, Version};
pub use faults::LogFault;
pub use flattening::{Child, LogNode, flatten};
pub use laws::{
    a_book_has_one_text, a_packed_tree_has_few_items, a_text_has_a_book_or_a_fault,
    a_text_has_one_book, a_text_has_one_fault, a_text_has_one_version,
    a_text_with_a_book_has_no_fault, a_tree_has_one_list_of_items,
    packed_bytes_are_those_of_one_tree,
};
pub use log::{Item, Log};
pub use reading::read;
pub use writing::{write, write_in, write_packed};

mod book;
mod cuts;
mod entries;
mod faults;
mod flattening;
mod laws;
mod log;
mod packed;
mod packing;
mod reading;
mod trees;
mod writing;
