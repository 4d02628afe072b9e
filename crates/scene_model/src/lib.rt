//! The scene of a diagram: its items in the order of making, by name, and the variables that they give each axis. What
//! its constraints mean, and the separations that say the same, are stated in `specs/`.
#![tactic(auto)]

mod changing;
mod intervals;
mod items;
mod naming;
mod scene;
mod uses;
mod variables;

pub use items::{
    AlignLine, Compound, Form, Group, Guide, Item, Link, Page, Rule, Shape, Sort, Thing,
};
pub use scene::Scene;
pub use uses::{Wanted, is_among};
pub use variables::{Variable, VariableName};
