//! The worked rows `two_apart` and `dropped_separation` at their last active lists.
ghost use Rattle.std.specs.Prelude.{◌≡◌, ◌<◌, [], ◌∷◌, IsTrue, length};
ghost use Rattle.block_sums.specs.Blocks.{IsOpen, AreJoined};
ghost use Rattle.block_sums.specs.Ends.{end_of};

use crate::made_problems::{least, problem_of};
use block_sums::{Step, block, mean, path, pull, side, weight};
use std::alloc::Global;
use std::test::Fail;
use units::{Problem, Sep};

/// Whether the list has one separation of the problem, and no more: no chain of one separation ends where it starts.
fn is_alone(problem: &Problem, active: &[u16], only: u16) -> bool
    ensures open { IsTrue result → IsOpen problem.now active.now }
    ensures single { IsTrue result → active.now ≡ only ∷ [] }
    ensures below { IsTrue result → only < length problem.now.separations }
{
    if active.len() != 1 {
        return false;
    }
    if active[0] != only {
        return false;
    }
    (only as usize) < problem.seps().len()
}

/// One end of a separation.
fn end_of(sep: &Sep, right: bool) -> u16
    ensures { result ≡ end_of sep.now right }
{
    if right { sep.right } else { sep.left }
}

/// Whether the one separation of the list leads from one variable to the other, forwards or backwards.
fn joins(problem: &Problem, active: &[u16], step: Step, from: u16, to: u16) -> bool
    ensures { IsTrue result → AreJoined problem.now active.now from to }
{
    if !is_alone(problem, active, step.sep) {
        return false;
    }
    let sep = problem.seps()[step.sep as usize];
    if end_of(&sep, !step.along) != from {
        return false;
    }
    end_of(&sep, step.along) == to
}

/// Whether the list of one separation has the sums of two variables of weight 1, desired at 0 and 4 and 20 apart.
fn has_sums(alloc: Global, problem: &Problem, active: &[u16]) -> Result<bool, Fail>
    requires open { IsOpen problem.now active.now }
    requires two { length problem.now.desired ≡ 2 }
    requires single { active.now ≡ 0 ∷ [] }
{
    let members = block(alloc, problem, active, 1)?;
    let first = mean(alloc, problem, active, 0)?;
    let second = mean(alloc, problem, active, 1)?;
    let pull = pull(alloc, problem, active, 0)?;
    let whole = weight(alloc, problem, active, 0)?;
    let right = side(alloc, problem, active, 0, true)?;
    Ok(
        members.as_slice() == [0, 1].as_slice()
            && (first.num(), first.den()) == (-8, 1)
            && (second.num(), second.den()) == (12, 1)
            && (pull.num(), pull.den()) == (16, 1)
            && whole == 2
            && right == 1,
    )
}

#[test]
fn sums_of_two_apart(rt: HostRuntime) -> Result<(), Fail> {
    let alloc = rt.alloc();
    let problem = problem_of(alloc, &[1, 1], &[0, 4], &[least(0, 1, 20)])?;
    let active = [0];
    assert!(rt; is_alone(&problem, &active, 0));
    assert!(rt; has_sums(alloc, &problem, &active)?);
    Ok(())
}

#[test]
fn path_of_dropped_separation(rt: HostRuntime) -> Result<(), Fail> {
    let alloc = rt.alloc();
    let problem = problem_of(
        alloc,
        &[1, 1, 1],
        &[0, 0, 0],
        &[least(0, 1, 4), least(2, 1, 10)],
    )?;
    let active = [1];
    let there = Step {
        sep: 1,
        along: true,
    };
    let back = Step {
        sep: 1,
        along: false,
    };
    assert!(rt; is_alone(&problem, &active, 1));
    assert!(rt; joins(&problem, &active, there, 2, 1));
    assert!(rt; path(alloc, &problem, &active, 2, 1)?.as_slice() == [there].as_slice());
    assert!(rt; joins(&problem, &active, back, 1, 2));
    assert!(rt; path(alloc, &problem, &active, 1, 2)?.as_slice() == [back].as_slice());
    Ok(())
}
