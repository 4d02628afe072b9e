//! Whether a list of separations can be satisfied: whole places that do, or a positive cycle that shows that nothing does.
#![tactic(auto)]

mod arc;
mod law;
mod reach;
mod relax;
mod rising;
mod sweep;
mod verdict;

pub use arc::CycleArc;
pub use law::feasibility_law;
pub use verdict::{Verdict, test};
