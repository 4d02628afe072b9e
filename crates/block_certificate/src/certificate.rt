//! The certificate of an active list at rest.
ghost use Rattle.std.specs.Prelude.{◌≡◌, ◌<◌, ◌≤◌, ◌+◌, ◌+ℤ◌, ◌*ℤ◌, ℕ, length, IfOk, nat_abs, pos, ◌<ℤ◌, true, false};
ghost use Rattle.std.specs.List.{All};
ghost use Rattle.units.specs.Problem as stated;
ghost use Rattle.multiplier_check.specs.Certificate.{IsCertificate};
ghost use Rattle.block_sums.specs.Ends.{AreChains};
ghost use Rattle.block_sums.specs.Legs.{leg_at};
ghost use Rattle.block_sums.specs.Loads.{load_at};
ghost use Rattle.block_sums.specs.Solving.{IsActive, HasBounds, rest_at};
ghost use Rattle.block_sums.specs.Rest.{IsSolved};
ghost use Rattle.block_certificate.specs.Values.{place_of_leg, multiplier_of_leg, AreWritten, ArePlaced, AreSettled, AreReduced};

use block_sums::{BlockSums, Chains, chain, rest_at, sweep};
use frac128::Frac;
use multiplier_check::Certificate;
use std::alloc::{AllocError, Global};
use units::{Problem, Sequence};

/// A weight times an offset.
fn weighed(weight: i64, offset: i64) -> i64
    requires weight { nat_abs weight ≤ 258000 }
    requires offset { nat_abs offset ≤ 257000000 }
    ensures value { result ≡ weight *ℤ offset }
    ensures small { nat_abs result ≤ 66306000000000 }
{
    weight * offset
}

/// The sum of a moment and a weighed offset.
fn moved(moment: i64, weighed: i64) -> i64
    requires moment { nat_abs moment ≤ 66822000000000 }
    requires weighed { nat_abs weighed ≤ 66306000000000 }
    ensures value { result ≡ moment +ℤ weighed }
    ensures small { nat_abs result ≤ 133128000000000 }
{
    moment + weighed
}

/// The place of the variable of a leg, over the weight of its block.
fn place_of_leg(block: &BlockSums, at: usize) -> Frac
    requires at { at < length block.now.legs.items }
    requires near { nat_abs (leg_at block.now.legs.items at).offset ≤ 257000000 }
    requires bounded { HasBounds block.now }
    requires heavy { pos 0 <ℤ load_at block.now.weights.items 0 }
    ensures { result ≡ place_of_leg block.now.legs.items block.now.weights.items block.now.moments.items at }
{
    let offset = weighed(block.weights[0], block.legs[at].offset);
    Frac::of(
        i128::from(moved(block.moments[0], offset)),
        block.weights[0],
    )
}

/// The multiplier of the separation of a leg, over the weight of its block.
fn multiplier_of_leg(block: &BlockSums, at: usize) -> Frac
    requires at { at < length block.now.legs.items }
    requires bounded { HasBounds block.now }
    requires heavy { pos 0 <ℤ load_at block.now.weights.items 0 }
    ensures { result ≡ multiplier_of_leg block.now.legs.items block.now.weights.items block.now.moments.items at }
{
    Frac::of(rest_at(block, at), block.weights[0])
}

/// Writes the multipliers of the separations of a block.
fn write_multipliers(block: &BlockSums, multipliers: &mut [Frac])
    requires among { (j : ℕ) → 0 < j → j < length block.now.legs.items → (leg_at block.now.legs.items j).sep < length multipliers.old }
    requires bounded { HasBounds block.now }
    requires heavy { pos 0 <ℤ load_at block.now.weights.items 0 }
    ensures { AreWritten block.now.legs.items block.now.weights.items block.now.moments.items (length block.now.legs.items) multipliers.old multipliers.new }
{
    for at in 1..block.legs.len() {
        multipliers[block.legs[at].sep as usize] = multiplier_of_leg(block, at);
    }
}

/// Writes the places of the variables of a block.
fn write_places(block: &BlockSums, places: &mut [Frac], placed: &mut [bool])
    requires among { All (λ leg. leg.variable < length places.old) block.now.legs.items }
    requires as_many { length placed.old ≡ length places.old }
    requires near { All (λ leg. nat_abs leg.offset ≤ 257000000) block.now.legs.items }
    requires bounded { HasBounds block.now }
    requires heavy { pos 0 <ℤ load_at block.now.weights.items 0 }
    ensures { ArePlaced block.now.legs.items block.now.weights.items block.now.moments.items (length block.now.legs.items) places.old places.new placed.old placed.new }
{
    for at in 0..block.legs.len() {
        let variable = block.legs[at].variable as usize;
        places[variable] = place_of_leg(block, at);
        placed[variable] = true;
    }
}

/// Settles the block of a variable, unless it was settled with an earlier one.
fn settle(
    alloc: Global,
    problem: &Problem,
    active: &[u16],
    lefts: &Chains,
    rights: &Chains,
    root: u16,
    places: &mut [Frac],
    multipliers: &mut [Frac],
    placed: &mut [bool],
) -> Result<(), AllocError>
    requires bounded { stated.IsBounded problem.now }
    requires active { IsActive problem.now active.now }
    requires root { root < length problem.now.desired }
    requires lefts { AreChains problem.now.separations active.now false (length problem.now.desired) lefts.now }
    requires rights { AreChains problem.now.separations active.now true (length problem.now.desired) rights.now }
    requires settled { AreSettled problem.now active.now root places.old multipliers.old placed.old }
    ensures { IfOk result (λ _. AreSettled problem.now active.now (root + 1) places.new multipliers.new placed.new) }
{
    if placed[root as usize] {
        return Ok(());
    }
    let block = sweep(alloc, problem, active, lefts, rights, root)?;
    write_multipliers(&block, multipliers);
    write_places(&block, places, placed);
    Ok(())
}

/// Fractions in lowest terms.
fn reduced(alloc: Global, fractions: &[Frac]) -> Result<Vec<Frac>, AllocError>
    ensures { IfOk result (λ reduced. AreReduced fractions.now reduced.items) }
{
    let mut lowest = Vec::with_capacity(alloc, fractions.len())?;
    for fraction in fractions {
        lowest.push(fraction.reduced())?;
    }
    Ok(lowest)
}

/// The certificate of these places and multipliers, in lowest terms.
fn in_lowest_terms(
    alloc: Global,
    places: &[Frac],
    multipliers: &[Frac],
) -> Result<Certificate, AllocError>
    ensures places { IfOk result (λ certificate. AreReduced places.now certificate.places) }
    ensures multipliers { IfOk result (λ certificate. AreReduced multipliers.now certificate.multipliers) }
{
    let places = Sequence::of(reduced(alloc, places)?);
    let multipliers = Sequence::of(reduced(alloc, multipliers)?);
    Ok(Certificate {
        places,
        multipliers,
    })
}

/// The certificate of an active list that solves the problem: its places and multipliers at rest, in lowest terms. The multipliers
/// of the separations that aren't active are 0. Each block is swept once.
pub fn certificate_of(
    alloc: Global,
    problem: &Problem,
    active: &[u16],
) -> Result<Certificate, AllocError>
    requires active { IsActive problem.now active.now }
    requires solved { IsSolved problem.now active.now }
    ensures { IfOk result (IsCertificate problem.now) }
{
    let count = problem.desired().len();
    let lefts = chain(alloc, count, problem.seps(), active, false)?;
    let rights = chain(alloc, count, problem.seps(), active, true)?;
    let mut places = vec![in alloc; Frac::of(0, 1); count]?;
    let mut multipliers = vec![in alloc; Frac::of(0, 1); problem.seps().len()]?;
    let mut placed = vec![in alloc; false; count]?;
    for root in 0..count as u16 {
        settle(
            alloc,
            problem,
            active,
            &lefts,
            &rights,
            root,
            &mut places,
            &mut multipliers,
            &mut placed,
        )?;
    }
    in_lowest_terms(alloc, &places, &multipliers)
}
