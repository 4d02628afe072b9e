//! Where the solver starts.
ghost use Rattle.std.specs.Prelude.{◌≡◌, ◌<◌, ◌≤◌, ℕ, length, IfOk, slice_index};
ghost use Rattle.block_sums.specs.Solving.{IsActive};
ghost use Rattle.vpsc_solve.specs.Places.{ArePlaced};

use crate::places::{Place, settle};
use std::alloc::{AllocError, Global};
use units::Problem;

/// The numbers of all variables.
pub fn all_variables(alloc: Global, count: usize) -> Result<Vec<u16>, AllocError>
    requires { count ≤ 258 }
    ensures counted { IfOk result (λ all. length all.items ≡ count) }
    ensures each { IfOk result (λ all. (k : ℕ) → k < count → slice_index all.items k ≡ k) }
{
    let mut all = Vec::with_capacity(alloc, count)?;
    for variable in 0..count {
        all.push(variable as u16)?;
    }
    Ok(all)
}

/// The places of all variables at rest with this active list.
pub fn all_places(
    alloc: Global,
    problem: &Problem,
    active: &[u16],
) -> Result<Vec<Place>, AllocError>
    requires { IsActive problem.now active.now }
    ensures { IfOk result (λ places. ArePlaced problem.now active.now places.items) }
{
    let count = problem.desired().len();
    let roots = all_variables(alloc, count)?;
    let mut places = vec![in alloc; Place { num: 0, den: 0 }; count]?;
    settle(alloc, problem, active, &roots, &mut places)?;
    Ok(places)
}
