//! What an edit may do: the refusals of a scene in their order, and the edited scene.
#![tactic(auto)]

mod applying;
mod checking;
mod corners;
mod crowding;
mod edits;
mod limits;
mod moves;
mod naming;
mod ranges;
mod refusals;
mod repeats;
mod sorts;
mod standing;
mod steady;
mod walks;

pub use applying::apply;
pub use checking::check;
pub use corners::corner_law;
pub use crowding::separations_law;
pub use edits::Edit;
pub use moves::has_moves_left;
pub use refusals::{Counted, Refusal};
pub use steady::steady_law;
pub use walks::Walk;
