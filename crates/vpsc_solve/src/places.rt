//! The places of the variables at rest.
ghost use Rattle.std.specs.Prelude.{◌≡◌, ◌<◌, ◌≤◌, ◌+ℤ◌, ◌*ℤ◌, ◌⊎◌, ℕ, length, IfOk, nat_abs, true, false, All, slice_index, List};
ghost use Rattle.block_sums.specs.Ends.{AreChains};
ghost use Rattle.block_sums.specs.Legs.{leg_at};
ghost use Rattle.block_sums.specs.Loads.{load_at};
ghost use Rattle.block_sums.specs.Solving.{IsActive, HasBounds};
ghost use Rattle.vpsc_solve.specs.declared.places.Place as place;
ghost use Rattle.vpsc_solve.specs.Places.{place_at, is_settled, IsSmallPlace, IsLegPlace, IsPlaced, IsJoinedTo, AreSettled, ArePut};

use block_sums::{BlockSums, Chains, chain, sweep};
use std::alloc::{AllocError, Global};
use units::Problem;

/// The place of a variable, not in lowest terms: `num` over the weight of its block, in diagram units.
#[derive(Clone, Copy, Debug)]
pub struct Place {
    /// Within 133,128,000,000,000 of 0.
    pub num: i64,
    /// 1 to 258,000.
    pub den: i64,
}

/// A weight times an offset.
fn turned_by(weight: i64, offset: i64) -> i64
    requires weight { nat_abs weight ≤ 258000 }
    requires offset { nat_abs offset ≤ 257000000 }
    ensures value { result ≡ weight *ℤ offset }
    ensures small { nat_abs result ≤ 66306000000000 }
{
    weight * offset
}

/// The place of the variable of a leg.
fn place_of(block: &BlockSums, at: usize) -> Place
    requires at { at < length block.now.legs.items }
    requires bounded { HasBounds block.now }
    requires near { nat_abs (leg_at block.now.legs.items at).offset ≤ 257000000 }
    ensures { IsLegPlace block.now.legs.items block.now.weights.items block.now.moments.items at result }
{
    let weight = block.weights[0];
    Place {
        num: block.moments[0] + turned_by(weight, block.legs[at].offset),
        den: weight,
    }
}

/// Puts the variables of a block at their places, and marks them.
fn put_block(block: &BlockSums, places: &mut [Place], settled: &mut [bool])
    requires bounded { HasBounds block.now }
    requires near { All (λ leg. nat_abs leg.offset ≤ 257000000) block.now.legs.items }
    requires within { All (λ leg. leg.variable < length places.old) block.now.legs.items }
    requires as_long { length settled.old ≡ length places.old }
    ensures { ArePut block.now.legs.items block.now.weights.items block.now.moments.items (length block.now.legs.items) places.old places.new settled.old settled.new }
{
    for at in 0..block.legs.len() {
        let place = place_of(block, at);
        let variable = block.legs[at].variable as usize;
        places[variable] = place;
        settled[variable] = true;
    }
}

/// Settles the variables of the block of a variable.
fn settle_block(
    alloc: Global,
    problem: &Problem,
    active: &[u16],
    lefts: &Chains,
    rights: &Chains,
    root: u16,
    places: &mut [Place],
    settled: &mut [bool],
) -> Result<(), AllocError>
    requires active { IsActive problem.now active.now }
    requires root { root < length problem.now.desired }
    requires lefts { AreChains problem.now.separations active.now false (length problem.now.desired) lefts.now }
    requires rights { AreChains problem.now.separations active.now true (length problem.now.desired) rights.now }
    requires as_long { length places.old ≡ length problem.now.desired }
    requires as_many { length settled.old ≡ length problem.now.desired }
    ensures so_far { IfOk result (λ _. (before : List place.Place) → AreSettled problem.now active.now before places.old settled.old → AreSettled problem.now active.now before places.new settled.new) }
    ensures there { IfOk result (λ _. is_settled settled.new root ≡ true) }
    ensures still { IfOk result (λ _. (i : ℕ) → is_settled settled.old i ≡ true → is_settled settled.new i ≡ true) }
{
    let block = sweep(alloc, problem, active, lefts, rights, root)?;
    put_block(&block, places, settled);
    Ok(())
}

/// Settles the variables that active separations join to the roots.
fn settle_all(
    alloc: Global,
    problem: &Problem,
    active: &[u16],
    lefts: &Chains,
    rights: &Chains,
    roots: &[u16],
    places: &mut [Place],
    settled: &mut [bool],
) -> Result<(), AllocError>
    requires active { IsActive problem.now active.now }
    requires roots { All (λ i. i < length problem.now.desired) roots.now }
    requires lefts { AreChains problem.now.separations active.now false (length problem.now.desired) lefts.now }
    requires rights { AreChains problem.now.separations active.now true (length problem.now.desired) rights.now }
    requires as_long { length places.old ≡ length problem.now.desired }
    requires as_many { length settled.old ≡ length problem.now.desired }
    requires none { (i : ℕ) → is_settled settled.old i ≡ false }
    ensures settled { IfOk result (λ _. AreSettled problem.now active.now places.old places.new settled.new) }
    ensures roots { IfOk result (λ _. (k : ℕ) → k < length roots.now → is_settled settled.new (slice_index roots.now k) ≡ true) }
{
    for root in roots {
        if !settled[*root as usize] {
            settle_block(
                alloc, problem, active, lefts, rights, *root, places, settled,
            )?;
        }
    }
    Ok(())
}

/// Gives their places to the variables that active separations join to the roots; the others keep theirs.
pub fn settle(
    alloc: Global,
    problem: &Problem,
    active: &[u16],
    roots: &[u16],
    places: &mut [Place],
) -> Result<(), AllocError>
    requires active { IsActive problem.now active.now }
    requires roots { All (λ i. i < length problem.now.desired) roots.now }
    requires as_long { length places.old ≡ length problem.now.desired }
    requires others { (i : ℕ) → i < length problem.now.desired → IsPlaced problem.now active.now i (place_at places.old i) ⊎ IsJoinedTo problem.now active.now roots.now i }
    ensures { IfOk result (λ _. (i : ℕ) → i < length problem.now.desired → IsPlaced problem.now active.now i (place_at places.new i)) }
{
    let count = problem.desired().len();
    let lefts = chain(alloc, count, problem.seps(), active, false)?;
    let rights = chain(alloc, count, problem.seps(), active, true)?;
    let mut settled = vec![in alloc; false; count]?;
    settle_all(
        alloc,
        problem,
        active,
        &lefts,
        &rights,
        roots,
        places,
        &mut settled,
    )
}
