//! Whole runs: an executable in whose blocks cuts were folded behaves as the original does, and so does one whose
//! blocks were renamed. So does the new file of a legal log book, also of one for a renamed file, and the run that the
//! choice was made from costs less by what the book saves.
#![tactic(auto)]

pub use laws::{
    chosen_files_run_alike, folded_files_run_alike, profiled_runs_cost_less,
    renamed_choices_run_alike, renamed_files_analyse_alike, renamed_files_run_in_step,
};

mod laws;
