//! Made scripts: for each number a script of 344 command lines, made by draws.
#![tactic(auto)]

mod boxes;
mod commands;
mod draws;
mod making;
mod steps;

pub use making::made;
