//! The block solver: of all placements that satisfy the separations of a problem, the one of least weighted squared distance from the
//! desired places, with a certificate that shows it.
#![tactic(auto)]

mod closing;
mod dropping;
mod hints;
mod mirror;
mod next;
mod places;
mod solving;
mod start;
mod stops;
mod violations;

pub use solving::{Solution, solve, solve_counted_from, solve_from};
