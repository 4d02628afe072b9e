//! Tests of the scene, of what its constraints mean, of the solver, and of the layout. They stand apart, since a crate with tests is proved twice.
#![tactic(auto)]

#[cfg(test)]
mod blocks;
#[cfg(test)]
mod certificates;
#[cfg(test)]
mod cycles;
#[cfg(test)]
mod fractions;
#[cfg(test)]
mod frames;
#[cfg(test)]
mod hops;
#[cfg(test)]
mod lists;
#[cfg(test)]
mod made_problems;
#[cfg(test)]
mod made_scenes;
#[cfg(test)]
mod meanings;
#[cfg(test)]
mod projections;
#[cfg(test)]
mod proposals;
#[cfg(test)]
mod scenes;
#[cfg(test)]
mod separations;
#[cfg(test)]
mod solving;
