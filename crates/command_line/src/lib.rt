//! The command line of the program: what its words ask for.
#![tactic(auto)]

mod arguments;
mod plans;
mod reading;

pub use plans::{Plan, PlanStop};
pub use reading::{plan_from, refusal_text};
