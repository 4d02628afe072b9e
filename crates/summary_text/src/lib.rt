//! The summary of the run on a made script.
#![tactic(auto)]

mod counting;
mod summary;

pub use summary::write_summary;
