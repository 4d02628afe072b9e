//! Sessions and workers beside each other at one document, each in a thread of its own.
#![tactic(auto)]

mod beside;
mod branches;
mod dealing;
mod elements;
mod gathering;
mod lead;
mod sessions;
mod workers;

pub use beside::{Beside, run_beside};
