//! A problem with one separation turned round.
ghost use Rattle.std.specs.Prelude.{◌≡◌, ◌<◌, ◌≤◌, ◌<ℤ◌, ℕ, ℤ, length, IfOk, true, nat_abs, pos};
ghost use Rattle.block_sums.specs.Solving.{Active, IsActive};
ghost use Rattle.block_sums.specs.Rest.{exact_of};
ghost use Rattle.vpsc_solve.specs.Stops.{IsFeasible};
ghost use Rattle.vpsc_solve.specs.Mirror.{turned_separation, turned_problem};

use std::alloc::{AllocError, Global};
use units::{Problem, Sep};

/// A separation from its right to its left end, with its gap negated: the same claim where it is exact.
fn turned(sep: &Sep) -> Sep
    requires { nat_abs sep.now.gap ≤ 1000000 }
    ensures { result ≡ turned_separation sep.now }
{
    Sep {
        left: sep.right,
        right: sep.left,
        gap: -sep.gap,
        exact: sep.exact,
    }
}

/// The problem with the separation of this number turned round.
pub fn turned_problem(alloc: Global, problem: &Problem, number: u16) -> Result<Problem, AllocError>
    requires { number < length problem.now.separations }
    ensures { IfOk result (λ mirror. mirror ≡ turned_problem problem.now number) }
{
    let weights = problem.weights().to_vec(alloc)?;
    let desired = problem.desired().to_vec(alloc)?;
    let mut seps = problem.seps().to_vec(alloc)?;
    seps[number as usize] = turned(&problem.seps()[number as usize]);
    Ok(Problem::new(weights, desired, seps))
}
