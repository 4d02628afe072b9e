//! A worker: it looks, makes frames without the document, publishes them, and rests at the bell.
#![tactic(auto)]

mod tallies;
mod working;

pub use tallies::{Last, Tally};
pub use working::work;
