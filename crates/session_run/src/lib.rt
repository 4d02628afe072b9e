//! Sessions: the lines of a script, played on a document.
#![tactic(auto)]

mod alone;
mod answering;
mod at_desk;
mod laying;

pub use alone::play_alone;
pub use at_desk::play;
