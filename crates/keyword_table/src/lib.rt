//! Tables of words that a reader and a printer share.
#![tactic(auto)]

mod arms;
mod words;

pub use words::Words;
