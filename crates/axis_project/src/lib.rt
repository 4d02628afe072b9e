//! The projection of a scene: the places of least weighted squared distance from the desired ones among all that fit the scene on
//! an axis, with a certificate that shows it. An axis falls into parts that no separation joins; each can be solved by itself.
#![tactic(auto)]

mod apart;
mod both;
mod gather;
mod joining;
mod keys;
mod law;
mod projecting;

pub use both::project_both;
pub use joining::parts;
pub use law::components_law;
pub use projecting::{project, project_from};
