//! One closing: stops until the gap of a separation is closed.
ghost use Rattle.std.specs.Prelude.{◌≡◌, ◌<◌, ◌≤◌, ◌==◌, ◌++◌, ◌∷◌, [], ℕ, ℤ, length, IfOk, filter, not};
ghost use Rattle.units.specs.Problem.{IsSeparation};
ghost use Rattle.units.specs.Separation.{separation_at};
ghost use Rattle.block_sums.specs.Solving.{Active, IsActive};
ghost use Rattle.vpsc_solve.specs.Stops.{IsFeasible, IsUnderWay, HasClosed, DiffersAt};

use crate::next::next_stop;
use crate::stops::Stop;
use std::alloc::{AllocError, Global};
use units::Problem;

/// Takes a separation off the list.
pub fn drop_separation(active: &mut Vec<u16>, number: u16)
    ensures { active.new.items ≡ filter (λ k. not (k == number)) active.old.items }
{
    active.retain(|k| *k != number);
}

/// Notes the ends of a separation.
fn touch(problem: &Problem, touched: &mut Vec<u16>, number: u16) -> Result<(), AllocError>
    requires { number < length problem.now.separations }
    ensures sound { IsSeparation (length problem.now.desired) (separation_at problem.now.separations number) }
    ensures noted { IfOk result (λ _. touched.new.items ≡ touched.old.items ++ (separation_at problem.now.separations number).left ∷ (separation_at problem.now.separations number).right ∷ []) }
{
    let sep = problem.seps()[number as usize];
    touched.push(sep.left)?;
    touched.push(sep.right)?;
    Ok(())
}

/// Closes the gap of a separation whose ends stand too near: drops separations that aren't exact where their multipliers fall to
/// 0, until the force that closes the gap is reached. Each drop makes the list shorter. Of the separations that come or go the
/// ends are noted in `touched`, which had nothing before.
pub fn close_gap(
    alloc: Global,
    problem: &Problem,
    active: &mut Vec<u16>,
    touched: &mut Vec<u16>,
    closing: u16,
) -> Result<(), AllocError>
    requires active { IsActive problem.now active.old.items }
    requires closing { closing < length problem.now.separations }
    requires off { ¬ Active active.old.items closing }
    requires feasible { IsFeasible problem.now }
    requires under_way { (bound : ℤ) × (factor : ℕ) × IsUnderWay problem.now (Active active.old.items) closing bound factor }
    requires empty { touched.old.items ≡ [] }
    ensures active { IfOk result (λ _. IsActive problem.now active.new.items) }
    ensures touched { IfOk result (λ _. DiffersAt problem.now active.old.items active.new.items touched.new.items) }
    ensures closed { IfOk result (λ _. (bound : ℤ) (factor : ℕ) → 0 < factor → IsUnderWay problem.now (Active active.old.items) closing bound factor
        → HasClosed problem.now active.new.items bound factor) }
{
    touch(problem, touched, closing)?;
    'stops: loop {
        match next_stop(alloc, problem, active, closing)? {
            Stop::Closes => {
                active.push(closing)?;
                return Ok(());
            }
            Stop::Falls(number) => {
                touch(problem, touched, number)?;
                drop_separation(active, number);
            }
        }
    }
}
