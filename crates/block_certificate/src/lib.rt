//! The certificate of a list of active separations whose state at rest solves a problem.
#![tactic(auto)]

mod certificate;

pub use certificate::certificate_of;
