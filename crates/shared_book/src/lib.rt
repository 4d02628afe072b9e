//! A document that threads share: a book in a ticket lock, and passes with which callers take turns at it.
#![tactic(auto)]

mod caller;
mod closing;
mod opening;
mod pass;
mod room;
mod shared;
mod shelf;
mod turns;

pub use caller::Caller;
pub use opening::MOST_PASSES;
pub use pass::Pass;
pub use shared::SharedBook;
pub use shelf::Shelf;
