//! Laws of the block solver: what its states are, how a force moves them, and what a closing costs.
//!
//! The solver is that of the VPSC problem (Dwyer, Marriott and Stuckey 2005), in whole numbers: a state has places and multipliers
//! over one denominator. The laws are lemmas of `proofs/`, which the crates above cite.
#![tactic(auto)]

mod laws;

pub use laws::sum_law;
