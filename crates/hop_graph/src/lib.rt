//! Hop distances: the least number of links in a walk between two shapes of a scene.
#![tactic(auto)]

mod links;
mod search;
mod table;

pub use links::shape_number;
pub use table::{HopTable, hops};
