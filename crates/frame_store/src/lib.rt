//! Frames of the layout, and the places of a scene's variables.
#![tactic(auto)]

mod carrying;
mod frames;
mod places;

pub use carrying::carry;
pub use frames::{Frame, drawn, settled};
pub use places::{Desired, Places};
