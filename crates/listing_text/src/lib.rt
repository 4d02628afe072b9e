//! The text of a listing: the entries of a history with their frames, and the replies to the lines of a script.
#![tactic(auto)]

mod entries;
mod frames;
mod listing;
mod putting;
mod replies;
mod walks;
mod words;

pub use listing::write_listing;
