//! The standing edits and their scene, with undo.
#![tactic(auto)]

mod copies;
mod laws;
mod records;
mod stand;

pub use laws::stand_law;
pub use stand::{MOST_EDITS, Stand};
