//! The document: its history, its legal entries, the answers to its callers, and the text of its listing.
#![tactic(auto)]

mod asking;
mod book;
mod desks;
mod drawing;
mod editing;
mod entries;
mod feasibility;
mod framing;
mod hints;
mod laws;
mod looking;
mod publishing;
mod replies;
mod scanning;
mod told;

pub use asking::{Answer, Spot};
pub use book::{Book, MOST_FRAMES};
pub use desks::{Alone, Desk, Terms};
pub use drawing::drawn_law;
pub use editing::MOST_ENTRIES;
pub use entries::{Act, Entry};
pub use hints::Hints;
pub use laws::{feasible_law, play_law, run_law, undo_law, verdict_law};
pub use looking::{Job, Look};
pub use publishing::{Finish, MOST_FINISHING, Publish, Solved};
pub use replies::{Refused, Reply};
pub use told::Told;
