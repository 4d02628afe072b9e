//! Scripts as text: the grammar, reading a script, and the text of a command.
#![tactic(auto)]

mod choices;
mod edits;
mod faults;
mod fields;
mod keywords;
mod lines;
mod numbers;
mod pieces;
mod printing;
mod reading;
mod scripts;

pub use faults::{FaultKind, ReadFault, ScriptFault};
pub use printing::{command_text, edit_text, one_spelling, print};
pub use reading::{one_fault, one_script, read};
pub use scripts::{Command, Line, Script};
