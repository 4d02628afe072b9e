//! Active separations whose multipliers are below 0 at rest.
ghost use Rattle.std.specs.Prelude.{◌≡◌, ◌<◌, ℕ, List, length, IfOk, All, true, false};
ghost use Rattle.block_sums.specs.Ends.{AreChains};
ghost use Rattle.block_sums.specs.Legs.{leg_at};
ghost use Rattle.block_sums.specs.Solving.{IsActive, HasBounds};
ghost use Rattle.block_sums.specs.Rest.{HasRest};
ghost use Rattle.vpsc_solve.specs.Hints.{IsFallenAt, IsLower, IsLeastOf, AreMarked, AreSeen, IsSeen, IsFallen, AreDropped, number_of};

use crate::closing::drop_separation;
use block_sums::{BlockSums, Chains, Leg, chain, rest_at, sweep};
use std::alloc::{AllocError, Global};
use units::{Problem, Sep};

/// A separation that isn't exact and whose multiplier is below 0.
#[derive(Clone, Copy, Debug)]
pub struct Fallen {
    /// The number of the separation.
    pub sep: u16,
    /// Its multiplier times the weight of its block.
    pub rest: i128,
}

/// The separation of a leg, where it isn't exact and its multiplier is below 0.
fn fallen_at(seps: &[Sep], block: &BlockSums, at: usize) -> Option<Fallen>
    requires above { 0 < at }
    requires at { at < length block.now.legs.items }
    requires among { (leg_at block.now.legs.items at).sep < length seps.now }
    requires bounded { HasBounds block.now }
    ensures { IsFallenAt seps.now block.now.legs.items block.now.weights.items block.now.moments.items at result }
{
    let sep = block.legs[at].sep;
    if seps[sep as usize].exact {
        return None;
    }
    let rest = rest_at(block, at);
    if rest >= 0 {
        return None;
    }
    Some(Fallen { sep, rest })
}

/// The lower of two. Of two with one multiplier it is the first.
fn lower(first: Option<Fallen>, second: Option<Fallen>) -> Option<Fallen>
    ensures { IsLower first second result }
{
    let Some(one) = first else {
        return second;
    };
    let Some(other) = second else {
        return first;
    };
    if other.rest < one.rest {
        return second;
    }
    first
}

/// Of the separations of a block that aren't exact, the one with the least multiplier, where it is below 0.
fn least_of(seps: &[Sep], block: &BlockSums) -> Option<Fallen>
    requires among { (j : ℕ) → 0 < j → j < length block.now.legs.items → (leg_at block.now.legs.items j).sep < length seps.now }
    requires bounded { HasBounds block.now }
    ensures { IsLeastOf seps.now block.now.legs.items block.now.weights.items block.now.moments.items (length block.now.legs.items) result }
{
    let mut least = None;
    for at in 1..block.legs.len() {
        least = lower(least, fallen_at(seps, block, at));
    }
    least
}

/// Marks the variables of a block.
fn mark(legs: &[Leg], seen: &mut [bool])
    requires within { All (λ leg. leg.variable < length seen.old) legs.now }
    ensures { AreMarked legs.now (length legs.now) seen.old seen.new }
{
    for leg in legs {
        seen[leg.variable as usize] = true;
    }
}

/// The number of what has fallen.
fn number_of(fallen: Option<Fallen>) -> Option<u16>
    ensures { result ≡ number_of fallen }
{
    match fallen {
        Some(one) => Some(one.sep),
        None => None,
    }
}

/// Looks at the block of a variable, unless it was seen with an earlier one: the number of a separation that isn't exact and whose
/// multiplier is below 0, if there is one.
fn fallen_from(
    alloc: Global,
    problem: &Problem,
    active: &[u16],
    lefts: &Chains,
    rights: &Chains,
    root: u16,
    seen: &mut [bool],
) -> Result<Option<u16>, AllocError>
    requires active { IsActive problem.now active.now }
    requires root { root < length problem.now.desired }
    requires lefts { AreChains problem.now.separations active.now false (length problem.now.desired) lefts.now }
    requires rights { AreChains problem.now.separations active.now true (length problem.now.desired) rights.now }
    requires seen { AreSeen problem.now active.now seen.old }
    ensures { IfOk result (IsSeen problem.now active.now root seen.old seen.new) }
{
    if seen[root as usize] {
        return Ok(None);
    }
    let block = sweep(alloc, problem, active, lefts, rights, root)?;
    let least = least_of(problem.seps(), &block);
    mark(&block.legs, seen);
    Ok(number_of(least))
}

/// Looks at the blocks of the active separations, one after the other, until there is one that has a separation that isn't exact and
/// whose multiplier is below 0: its number.
fn fallen_among(
    alloc: Global,
    problem: &Problem,
    active: &[u16],
    lefts: &Chains,
    rights: &Chains,
    seen: &mut [bool],
) -> Result<Option<u16>, AllocError>
    requires active { IsActive problem.now active.now }
    requires lefts { AreChains problem.now.separations active.now false (length problem.now.desired) lefts.now }
    requires rights { AreChains problem.now.separations active.now true (length problem.now.desired) rights.now }
    requires seen { AreSeen problem.now active.now seen.old }
    ensures { IfOk result (IsFallen problem.now active.now) }
{
    let seps = problem.seps();
    for number in active {
        let root = seps[*number as usize].left;
        match fallen_from(alloc, problem, active, lefts, rights, root, seen)? {
            Some(number) => return Ok(Some(number)),
            None => {}
        }
    }
    Ok(None)
}

/// The number of an active separation that isn't exact and whose multiplier is below 0 at rest: the least one of a block that has
/// any. None where there is none. Each block of an active separation is swept once.
fn first_fallen(alloc: Global, problem: &Problem, active: &[u16]) -> Result<Option<u16>, AllocError>
    requires active { IsActive problem.now active.now }
    ensures { IfOk result (IsFallen problem.now active.now) }
{
    let count = problem.desired().len();
    let seps = problem.seps();
    let lefts = chain(alloc, count, seps, active, false)?;
    let rights = chain(alloc, count, seps, active, true)?;
    let mut seen = vec![in alloc; false; count]?;
    fallen_among(alloc, problem, active, &lefts, &rights, &mut seen)
}

/// Drops separations that aren't exact and whose multipliers are below 0 at rest, one after the other, until there is none. Each drop
/// makes the list shorter.
pub fn drop_fallen(
    alloc: Global,
    problem: &Problem,
    active: &mut Vec<u16>,
) -> Result<(), AllocError>
    requires active { IsActive problem.now active.old.items }
    ensures active { IfOk result (λ _. IsActive problem.now active.new.items) }
    ensures rest { IfOk result (λ _. HasRest problem.now active.new.items) }
    ensures dropped { IfOk result (λ _. (dropped : List ℕ) × AreDropped problem.now active.old.items dropped active.new.items) }
{
    // Asked for what its type keeps, which the proof needs.
    let _seps = problem.seps();
    'drops: loop {
        match first_fallen(alloc, problem, active)? {
            None => return Ok(()),
            Some(number) => drop_separation(active, number),
        }
    }
}
