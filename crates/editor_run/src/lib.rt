//! The run of the program: a script is read or made, played and finished, and its output is written.
#![tactic(auto)]

mod beside;
mod finishing;
mod input;
mod outcome;
mod results;
mod running;
mod serving;
mod whole;

pub use input::MOST_BYTES;
pub use outcome::{Fault, Outcome};
pub use running::run;
pub use serving::{run_alone, run_beside};
