//! Tests of edits and undo, of the texts that are read and written, of the book, and of sessions and a worker at it. They stand apart, since a crate with tests is proved twice.
#![tactic(auto)]

#[cfg(test)]
mod books;
#[cfg(test)]
mod bytes;
#[cfg(test)]
mod edits;
#[cfg(test)]
mod feasibility;
#[cfg(test)]
mod keywords;
#[cfg(test)]
mod lines;
#[cfg(test)]
mod listings;
#[cfg(test)]
mod made_scripts;
#[cfg(test)]
mod pictures;
#[cfg(test)]
mod refusals;
#[cfg(test)]
mod same_scenes;
#[cfg(test)]
mod scripts;
#[cfg(test)]
mod sessions;
#[cfg(test)]
mod undo;
#[cfg(test)]
mod words;
#[cfg(test)]
mod workers;
