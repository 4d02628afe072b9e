//! The run over the words, the input and the output of the process.
#![tactic(auto)]

mod ending;
mod process;
mod words;

pub use process::{run_over, run_process};
