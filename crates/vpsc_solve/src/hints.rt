//! The first list of active separations, from a hint.
ghost use Rattle.std.specs.Prelude.{◌≡◌, ◌<◌, [], ℕ, length, IfOk};
ghost use Rattle.block_sums.specs.Solving.{IsActive};
ghost use Rattle.block_sums.specs.Rest.{HasRest};
ghost use Rattle.vpsc_solve.specs.Hints.{label_at, relabelled, AreLabelled, IsTaken, AreTaken, IsStart};

use crate::dropping::drop_fallen;
use crate::start::all_variables;
use std::alloc::{AllocError, Global};
use units::Problem;

/// What becomes of a label where one takes the place of another.
fn relabelled(label: u16, from: u16, to: u16) -> u16
    ensures { result ≡ relabelled from to label }
{
    if label == from { to } else { label }
}

/// Gives the second label to all variables that have the first.
fn relabel(labels: &mut [u16], from: u16, to: u16)
    ensures as_long { length labels.new ≡ length labels.old }
    ensures each { (i : ℕ) → i < length labels.old → label_at labels.new i ≡ relabelled from to (label_at labels.old i) }
{
    for label in labels.iter_mut() {
        *label = relabelled(*label, from, to);
    }
}

/// Takes a separation where its number is one of the problem and those that were taken before don't join its ends.
fn take(
    problem: &Problem,
    active: &mut Vec<u16>,
    labels: &mut [u16],
    number: u16,
) -> Result<(), AllocError>
    requires active { IsActive problem.now active.old.items }
    requires labelled { AreLabelled problem.now active.old.items labels.old }
    ensures active { IfOk result (λ _. IsActive problem.now active.new.items) }
    ensures labelled { IfOk result (λ _. AreLabelled problem.now active.new.items labels.new) }
    ensures taken { IfOk result (λ _. IsTaken problem.now active.old.items number active.new.items) }
{
    let seps = problem.seps();
    if number as usize >= seps.len() {
        return Ok(());
    }
    let sep = seps[number as usize];
    let left = labels[sep.left as usize];
    let right = labels[sep.right as usize];
    if left == right {
        return Ok(());
    }
    active.push(number)?;
    relabel(labels, right, left);
    Ok(())
}

/// The separations of a hint, in order, that are of the problem and join two blocks of those before; the others are passed over.
///
/// Each variable has a label, at first its own number, and joined ones have one label.
fn joining(alloc: Global, problem: &Problem, hint: &[u16]) -> Result<Vec<u16>, AllocError>
    ensures active { IfOk result (λ active. IsActive problem.now active.items) }
    ensures taken { IfOk result (λ active. AreTaken problem.now [] hint.now active.items) }
{
    let mut labels = all_variables(alloc, problem.desired().len())?;
    let mut active = Vec::new(alloc);
    for number in hint {
        take(problem, &mut active, &mut labels, *number)?;
    }
    Ok(active)
}

/// The active list with which a run begins: the separations of the hint that join two blocks each, less those that aren't exact
/// and whose multipliers would be below 0.
pub fn first_list(alloc: Global, problem: &Problem, hint: &[u16]) -> Result<Vec<u16>, AllocError>
    ensures active { IfOk result (λ active. IsActive problem.now active.items) }
    ensures rest { IfOk result (λ active. HasRest problem.now active.items) }
    ensures start { IfOk result (λ active. IsStart problem.now hint.now active.items) }
{
    let mut active = joining(alloc, problem, hint)?;
    drop_fallen(alloc, problem, &mut active)?;
    Ok(active)
}
