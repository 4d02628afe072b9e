//! The block solver.
ghost use Rattle.std.specs.Prelude.{◌≡◌, ◌<◌, [], ℕ, ℤ, length, IfOk, true};
ghost use Rattle.block_sums.specs.Solving.{Active, IsActive};
ghost use Rattle.block_sums.specs.Rest.{exact_of, HasRest, IsSolved};
ghost use Rattle.vpsc_solve.specs.Stops.{IsFeasible, HasClosed, DiffersAt, IsViolation};
ghost use Rattle.multiplier_check.specs.Placement.{IsProjection};
ghost use Rattle.multiplier_check.specs.Certificate.{IsCertificate};
ghost use Rattle.vpsc_solve.specs.Places.{ArePlaced};

use crate::closing::close_gap;
use crate::hints::first_list;
use crate::mirror::turned_problem;
use crate::places::{Place, settle};
use crate::start::all_places;
use crate::violations::{Violation, first_violated};
use block_certificate::certificate_of;
use multiplier_check::Certificate;
use std::alloc::{AllocError, Global};
use units::{Memory, Problem};

/// Closes the gap of an exact separation whose ends stand too far apart, as its mirror image.
fn close_mirrored(
    alloc: Global,
    problem: &Problem,
    active: &mut Vec<u16>,
    touched: &mut Vec<u16>,
    closing: u16,
) -> Result<(), AllocError>
    requires active { IsActive problem.now active.old.items }
    requires closing { closing < length problem.now.separations }
    requires off { ¬ Active active.old.items closing }
    requires feasible { IsFeasible problem.now }
    requires strict { exact_of problem.now closing ≡ true }
    requires violated { (bound : ℤ) × (factor : ℕ) × IsViolation problem.now active.old.items closing true bound factor }
    requires empty { touched.old.items ≡ [] }
    ensures active { IfOk result (λ _. IsActive problem.now active.new.items) }
    ensures touched { IfOk result (λ _. DiffersAt problem.now active.old.items active.new.items touched.new.items) }
    ensures closed { IfOk result (λ _. (bound : ℤ) (factor : ℕ) → 0 < factor → IsViolation problem.now active.old.items closing true bound factor
        → HasClosed problem.now active.new.items bound factor) }
{
    let mirror = turned_problem(alloc, problem, closing)?;
    close_gap(alloc, &mirror, active, touched, closing)
}

/// Closes a violated separation.
fn close(
    alloc: Global,
    problem: &Problem,
    active: &mut Vec<u16>,
    touched: &mut Vec<u16>,
    violation: Violation,
) -> Result<(), AllocError>
    requires active { IsActive problem.now active.old.items }
    requires closing { violation.sep < length problem.now.separations }
    requires feasible { IsFeasible problem.now }
    requires violated { (bound : ℤ) × (factor : ℕ) × IsViolation problem.now active.old.items violation.sep violation.above bound factor }
    requires empty { touched.old.items ≡ [] }
    ensures active { IfOk result (λ _. IsActive problem.now active.new.items) }
    ensures touched { IfOk result (λ _. DiffersAt problem.now active.old.items active.new.items touched.new.items) }
    ensures closed { IfOk result (λ _. (bound : ℤ) (factor : ℕ) → 0 < factor → IsViolation problem.now active.old.items violation.sep violation.above bound factor
        → HasClosed problem.now active.new.items bound factor) }
{
    if violation.above {
        return close_mirrored(alloc, problem, active, touched, violation.sep);
    }
    close_gap(alloc, problem, active, touched, violation.sep)
}

/// Closes one violated separation after another, the first first, until none is left, and counts them.
///
/// It goes on from any list of active separations that has a state at rest.
fn close_all(
    alloc: Global,
    problem: &Problem,
    active: &mut Vec<u16>,
    places: &mut [Place],
) -> Result<u64, AllocError>
    requires active { IsActive problem.now active.old.items }
    requires rest { HasRest problem.now active.old.items }
    requires placed { ArePlaced problem.now active.old.items places.old }
    requires feasible { IsFeasible problem.now }
    ensures active { IfOk result (λ _. IsActive problem.now active.new.items) }
    ensures solved { IfOk result (λ _. IsSolved problem.now active.new.items) }
{
    // Asked for what its type keeps, which the proof needs.
    let _seps = problem.seps();
    let mut count: u64 = 0;
    let mut touched = Vec::new(alloc);
    'closings: loop {
        match first_violated(problem, places) {
            None => return Ok(count),
            Some(violation) => {
                touched.clear();
                close(alloc, problem, active, &mut touched, violation)?;
                settle(alloc, problem, active, &touched, places)?;
                count = count.saturating_add(1);
            }
        }
    }
}

/// The active separations at the end.
#[derive(Drop)]
struct SolvedList {
    /// Their numbers, in the order in which they were closed.
    active: Vec<u16>,
    /// How many closings led to them.
    closings: u64,
}

/// The active separations at the end of a run that begins with those of a hint.
fn solved_list(alloc: Global, problem: &Problem, hint: &[u16]) -> Result<SolvedList, AllocError>
    requires { IsFeasible problem.now }
    ensures active { IfOk result (λ solved. IsActive problem.now solved.active.items) }
    ensures solved { IfOk result (λ solved. IsSolved problem.now solved.active.items) }
{
    let mut active = first_list(alloc, problem, hint)?;
    let mut places = all_places(alloc, problem, &active)?;
    let closings = close_all(alloc, problem, &mut active, &mut places)?;
    Ok(SolvedList { active, closings })
}

/// A certificate, and the work that led to it.
#[derive(Drop)]
pub struct Solution {
    /// The certificate.
    pub certificate: Certificate,
    /// How many separations were closed. No clause speaks of it.
    pub closings: u64,
}

/// As `solve_from`, with the number of closings, which a benchmark prints.
pub fn solve_counted_from(
    alloc: Global,
    problem: &Problem,
    hint: &[u16],
) -> Result<Solution, Memory>
    requires { IsFeasible problem.now }
    ensures shows { IfOk result (λ solution. IsCertificate problem.now solution.certificate) }
    ensures projection { IfOk result (λ solution. IsProjection problem.now solution.certificate.places) }
{
    // Asked for what its type keeps, which the proof needs.
    let _seps = problem.seps();
    let end = solved_list(alloc, problem, hint)?;
    let certificate = certificate_of(alloc, problem, &end.active)?;
    Ok(Solution {
        certificate,
        closings: end.closings,
    })
}

/// The projection of a problem: of all placements that satisfy its separations the one of least weighted squared distance from the
/// desired places, with a certificate that shows it. Some placement has to satisfy the separations; `cycle_test::test` tells.
/// Answers `Memory` for want of memory alone. It always returns: the cost at rest rises with each closing.
///
/// The method is the dual active-set one of "Fast Node Overlap Removal" (Dwyer, Marriott and Stuckey 2005), in exact arithmetic. It
/// starts at the desired places with no active separation and closes one violated separation after another, the first in the list
/// first, by a force on its ends that grows, dropping active ones that aren't exact where their multipliers fall to 0.
pub fn solve(alloc: Global, problem: &Problem) -> Result<Certificate, Memory>
    requires { IsFeasible problem.now }
    ensures shows { IfOk result (IsCertificate problem.now) }
    ensures projection { IfOk result (λ certificate. IsProjection problem.now certificate.places) }
{
    solve_from(alloc, problem, &[])
}

/// As `solve`, from a hint: the numbers of separations that may be active at the end, as those with multipliers other than 0 in the
/// certificate of a problem like this one. Every list is a hint, and all give the one projection; a near one saves closings.
///
/// The first active list comes from the hint, in order: each separation whose number is one of the problem and whose ends are in
/// different blocks of those taken before; others are passed over. Then separations that aren't exact and whose multipliers at rest
/// are below 0 are dropped, until there is none, and it goes on as `solve`.
pub fn solve_from(alloc: Global, problem: &Problem, hint: &[u16]) -> Result<Certificate, Memory>
    requires { IsFeasible problem.now }
    ensures shows { IfOk result (IsCertificate problem.now) }
    ensures projection { IfOk result (λ certificate. IsProjection problem.now certificate.places) }
{
    let Solution {
        certificate,
        closings: _,
    } = solve_counted_from(alloc, problem, hint)?;
    Ok(certificate)
}
