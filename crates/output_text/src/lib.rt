//! The output of a run, by its plan: the listing, the picture or the summary.
#![tactic(auto)]

mod output;

pub use output::write_output;
