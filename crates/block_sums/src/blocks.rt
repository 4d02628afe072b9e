//! The block of a variable, for use alone.
ghost use Rattle.std.specs.Prelude.{◌≡◌, ◌↔◌, ◌<◌, ◌≤◌, IsTrue, length, IfOk, true, false};
ghost use Rattle.block_sums.specs.Blocks.{IsOpen, IsBlock, IsFound};
ghost use Rattle.block_sums.specs.Legs.{IsReached};

use crate::legs::Leg;
use crate::sums::tree;
use std::alloc::Global;
use units::{Memory, Problem, Sequence};

/// Whether a variable is reached.
fn is_reached(legs: &[Leg], variable: u16) -> bool
    ensures { IsTrue result ↔ IsReached legs.now variable }
{
    for leg in legs {
        if leg.variable == variable {
            return true;
        }
    }
    false
}

/// The variables below the count that are reached, rising.
fn reached_below(alloc: Global, legs: &[Leg], count: u16) -> Result<Sequence<u16>, Memory>
    ensures { IfOk result (IsFound legs.now count) }
{
    let mut variables = Sequence::new(alloc);
    for variable in 0..count {
        if is_reached(legs, variable) {
            variables.push(variable)?;
        }
    }
    Ok(variables)
}

/// The variables of the block of `v`, rising: `v`, and all that chains of the list join to it. `v` is below the number of the
/// problem's variables. The numbers in `active` are those of separations of the problem and differ, and no chain of one
/// separation or more ends where it starts.
pub fn block(
    alloc: Global,
    problem: &Problem,
    active: &[u16],
    v: u16,
) -> Result<Sequence<u16>, Memory>
    requires open { IsOpen problem.now active.now }
    requires variable { v < length problem.now.desired }
    ensures { IfOk result (IsBlock problem.now active.now v) }
{
    let legs = tree(alloc, problem, active, v)?;
    reached_below(alloc, &legs, problem.desired().len() as u16)
}
