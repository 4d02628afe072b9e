//! The next stop of a closing.
ghost use Rattle.std.specs.Prelude.{◌≡◌, ◌<◌, ◌↔◌, ℕ, ℤ, length, IfOk, IfSome, IsTrue, pos, nat_abs, ◌≤◌, ◌<ℤ◌, true, false};
ghost use Rattle.block_sums.specs.Ends.{AreChains};
ghost use Rattle.block_sums.specs.Legs.{IsReached};
ghost use Rattle.block_sums.specs.Solving.{Active, IsActive, HasBounds};
ghost use Rattle.block_sums.specs.Loads.{load_at};
ghost use Rattle.block_sums.specs.Stops.{IsSmall, IsClosingForce};
ghost use Rattle.vpsc_solve.specs.Stops.{IsStop, IsStopBetween, IsFeasible, IsUnderWay, stop_within};

use crate::stops::Stop;
use block_sums::{
    BlockSums, Chains, Leg, Threshold, chain, closing_force, first_fall, is_below, sweep_pushed,
};
use std::alloc::{AllocError, Global};
use units::{Problem, Sep};

/// Whether a variable is one of the block.
fn is_reached(legs: &[Leg], variable: u16) -> bool
    ensures { IsTrue result ↔ IsReached legs.now variable }
{
    for leg in legs {
        if leg.variable == variable {
            return true;
        }
    }
    false
}

/// The stop within one block: there something falls.
fn stop_within(first: Option<Threshold>) -> Stop
    ensures { result ≡ stop_within first }
{
    match first {
        Some(threshold) => Stop::Falls(threshold.sep),
        None => Stop::Closes,
    }
}

/// The next stop as the force on the separation `closing` grows: its gap is closed, or a separation that isn't exact is to be
/// dropped. At one force the gap is closed.
pub fn next_stop(
    alloc: Global,
    problem: &Problem,
    active: &[u16],
    closing: u16,
) -> Result<Stop, AllocError>
    requires active { IsActive problem.now active.now }
    requires closing { closing < length problem.now.separations }
    requires off { ¬ Active active.now closing }
    requires feasible { IsFeasible problem.now }
    requires under_way { (bound : ℤ) × (factor : ℕ) × IsUnderWay problem.now (Active active.now) closing bound factor }
    ensures { IfOk result (IsStop problem.now active.now closing) }
{
    let count = problem.desired().len();
    let lefts = chain(alloc, count, problem.seps(), active, false)?;
    let rights = chain(alloc, count, problem.seps(), active, true)?;
    stop_by(alloc, problem, active, &lefts, &rights, closing)
}

/// The next stop, by the chains of the active list.
fn stop_by(
    alloc: Global,
    problem: &Problem,
    active: &[u16],
    lefts: &Chains,
    rights: &Chains,
    closing: u16,
) -> Result<Stop, AllocError>
    requires active { IsActive problem.now active.now }
    requires closing { closing < length problem.now.separations }
    requires off { ¬ Active active.now closing }
    requires lefts { AreChains problem.now.separations active.now false (length problem.now.desired) lefts.now }
    requires rights { AreChains problem.now.separations active.now true (length problem.now.desired) rights.now }
    requires feasible { IsFeasible problem.now }
    requires under_way { (bound : ℤ) × (factor : ℕ) × IsUnderWay problem.now (Active active.now) closing bound factor }
    ensures { IfOk result (IsStop problem.now active.now closing) }
{
    let sep = problem.seps()[closing as usize];
    let left = sweep_pushed(alloc, problem, active, lefts, rights, closing, sep.left)?;
    let first = first_fall(problem.seps(), &left, None);
    if is_reached(&left.block.legs, sep.right) {
        return Ok(stop_within(first));
    }
    let right = sweep_pushed(alloc, problem, active, lefts, rights, closing, sep.right)?;
    let sooner = first_fall(problem.seps(), &right, first);
    let force = force_between(closing, &sep, &left.block, &right.block);
    Ok(stop_between(sooner, force))
}

/// The force that closes the gap between two blocks.
fn force_between(closing: u16, sep: &Sep, left: &BlockSums, right: &BlockSums) -> Threshold
    requires gap { nat_abs sep.now.gap ≤ 1000000 }
    requires left_bounded { HasBounds left.now }
    requires right_bounded { HasBounds right.now }
    requires left_heavy { pos 0 <ℤ load_at left.now.weights.items 0 }
    requires right_heavy { pos 0 <ℤ load_at right.now.weights.items 0 }
    ensures force { IsClosingForce sep.now.gap (load_at left.now.weights.items 0) (load_at left.now.moments.items 0) (load_at right.now.weights.items 0) (load_at right.now.moments.items 0) result }
    ensures small { IsSmall result }
{
    closing_force(
        closing,
        sep.gap,
        left.weights[0],
        left.moments[0],
        right.weights[0],
        right.moments[0],
    )
}

/// The stop between two blocks.
fn stop_between(first: Option<Threshold>, force: Threshold) -> Stop
    requires first { IfSome first IsSmall }
    requires force { IsSmall force }
    ensures { IsStopBetween first force result }
{
    match first {
        Some(threshold) => {
            if is_below(&threshold, &force) {
                return Stop::Falls(threshold.sep);
            }
            Stop::Closes
        }
        None => Stop::Closes,
    }
}
