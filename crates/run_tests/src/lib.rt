//! Tests of whole runs, and of what threads do beside each other. They stand apart, since a crate with tests is proved twice.
#![tactic(auto)]

#[cfg(test)]
mod beside;
#[cfg(test)]
mod runs;
#[cfg(test)]
mod shared_books;
#[cfg(test)]
mod turns;
