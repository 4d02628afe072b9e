//! The chain between two variables of a block, for use alone.
ghost use Rattle.std.specs.Prelude.{◌≡◌, ◌<◌, ◌≤◌, length, IfOk, true, false, not};
ghost use Rattle.block_sums.specs.Blocks.{IsChain, IsOpen, AreJoined};
ghost use Rattle.block_sums.specs.Legs.{variable_at, IsReached};

use crate::legs::Leg;
use crate::sums::tree;
use std::alloc::Global;
use units::{Memory, Problem, Sequence};

/// A step of a chain: over a separation, from one of its ends to the other.
#[derive(Clone, Copy, Debug, PartialEq, Eq)]
pub struct Step {
    /// The number of the separation.
    pub sep: u16,
    /// Whether it is walked from its left to its right end.
    pub along: bool,
}

/// The number of the leg that reaches a variable.
fn number_of(legs: &[Leg], variable: u16) -> usize
    requires { IsReached legs.now variable }
    ensures within { result < length legs.now }
    ensures is { variable_at legs.now result ≡ variable }
{
    let mut number = 0;
    while legs[number].variable != variable {
        number += 1;
    }
    number
}

/// The chain from one variable to another of its block, empty where they are the same. The numbers in `active` are those of
/// separations of the problem and differ, and no chain of one separation or more ends where it starts; so there is just one.
pub fn path(
    alloc: Global,
    problem: &Problem,
    active: &[u16],
    from: u16,
    to: u16,
) -> Result<Sequence<Step>, Memory>
    requires open { IsOpen problem.now active.now }
    requires from { from < length problem.now.desired }
    requires to { to < length problem.now.desired }
    requires joined { AreJoined problem.now active.now from to }
    ensures { IfOk result (IsChain problem.now.separations active.now from to) }
{
    let legs = tree(alloc, problem, active, to)?;
    let mut steps = Sequence::new(alloc);
    let mut at = number_of(&legs, from);
    while at != 0 {
        let leg = legs[at];
        steps.push(Step {
            sep: leg.sep,
            along: !leg.along,
        })?;
        at = leg.parent as usize;
    }
    Ok(steps)
}
