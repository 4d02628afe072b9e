//! One step of layout: desired places at which the picture has less stress.
#![tactic(auto)]

mod candidates;
mod pairs;
mod proposing;
mod pulling;
mod spots;
mod stressing;

pub use proposing::propose;
pub use stressing::stress;
