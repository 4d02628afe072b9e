//! A bell that wakes those who rest at it, and gates at which a test may hold a caller.
#![tactic(auto)]

mod bell;
mod gate;

pub use bell::Bell;
pub use gate::{AFTER_REPLY, AFTER_SOLVING, BEFORE_LOOK, Gate, OpenGate};

#[cfg(test)]
mod tests;
