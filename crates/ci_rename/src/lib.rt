//! Renaming the values of blocks: a value that lives inside one block alone moves to a register that the block doesn't
//! use, where its own register ties it to other nodes. So arcs go away, and cuts fit that didn't.
//!
//! `specs/Renaming.antt` says what a renamed block is, and `specs/RenamedFiles.antt` what a renamed executable is. The
//! laws say that a renamed block computes what the block did, from the same sources, that its graph has no new arc, and
//! that both blocks are passed in step. What holds of whole runs stands in `ci_runs`.
#![tactic(auto)]

pub use file::{NewFile, rename};
pub use laws::{
    blocks_pass_in_step, cuts_stay, instructions_go_on_alike, renamed_blocks_compute_alike,
    renamed_fields_fit, renamed_is_one, renaming_computes_alike, renaming_takes_arcs,
};
pub use renaming::{Renamed, rename_block};

mod file;
mod laws;
mod renaming;
