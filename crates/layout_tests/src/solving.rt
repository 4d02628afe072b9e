//! Problems whose projections are known from elsewhere: worked rows, cycles, copies and long chains.
mod warm;

ghost use Rattle.std.specs.Prelude.{IfOk};
ghost use Rattle.vpsc_solve.specs.Stops.{IsFeasible};

use crate::made_problems::{exactly, least, problem_of};
use cycle_test::{Verdict, test};
use frac128::Frac;
use multiplier_check::{Certificate, shows};
use std::alloc::Global;
use std::test::Fail;
use units::{Problem, Sep};
use vpsc_solve::solve;

/// Answers an error where no placement satisfies the separations.
fn some_placement(alloc: Global, problem: &Problem) -> Result<(), Fail>
    ensures { IfOk result (λ _. IsFeasible problem.now) }
{
    let count = problem.desired().len() as u16;
    match test(alloc, count, problem.seps())? {
        Verdict::Places(_) => return Ok(()),
        Verdict::Cycle(_) => return Err("no placement".into()),
    }
}

/// The certificate of a problem, where some placement satisfies its separations.
fn certificate_of(alloc: Global, problem: &Problem) -> Result<Certificate, Fail> {
    some_placement(alloc, problem)?;
    Ok(solve(alloc, problem)?)
}

/// The certificate of the problem of these lists, where they are within its bounds and some placement satisfies the separations.
fn shown(
    alloc: Global,
    weights: &[u32],
    desired: &[i64],
    seps: &[Sep],
) -> Result<Certificate, Fail> {
    let problem = problem_of(alloc, weights, desired, seps)?;
    let certificate = certificate_of(alloc, &problem)?;
    if !shows(&problem, &certificate) {
        return Err("a certificate that shows".into());
    }
    Ok(certificate)
}

/// Whether the fractions have these numerators and denominators.
fn are(fractions: &[Frac], wanted: &[(i128, i64)]) -> bool {
    if fractions.len() != wanted.len() {
        return false;
    }
    for (fraction, want) in fractions.iter().zip(wanted) {
        if fraction.num() != want.0 || fraction.den() != want.1 {
            return false;
        }
    }
    true
}

/// Checks the places of the projection, as numerators and denominators in lowest terms.
fn row(
    alloc: Global,
    weights: &[u32],
    desired: &[i64],
    seps: &[Sep],
    places: &[(i128, i64)],
) -> Result<(), Fail> {
    let certificate = shown(alloc, weights, desired, seps)?;
    if !are(certificate.places.as_slice(), places) {
        return Err("the places".into());
    }
    Ok(())
}

#[test]
fn worked_rows(rt: HostRuntime) -> Result<(), Fail> {
    let alloc = rt.alloc();
    let near = [least(0, 1, 20)];
    row(alloc, &[1, 1], &[0, 4], &near, &[(-8, 1), (12, 1)])?;
    let chain = [least(0, 1, 5), least(1, 2, 5)];
    let thirds = [(-14, 3), (1, 3), (16, 3)];
    row(alloc, &[1, 1, 1], &[0, 0, 1], &chain, &thirds)?;
    let dropped = [least(0, 1, 4), least(2, 1, 10)];
    let five = [(0, 1), (5, 1), (-5, 1)];
    row(alloc, &[1, 1, 1], &[0, 0, 0], &dropped, &five)?;
    let tight_cycle = [least(0, 1, 10), least(1, 0, -10)];
    row(alloc, &[1, 1], &[0, 0], &tight_cycle, &[(-5, 1), (5, 1)])?;
    let held = [(-16, 1001), (20004, 1001)];
    row(alloc, &[1000, 1], &[0, 4], &near, &held)?;
    let align_mid = [exactly(0, 3, 2), exactly(1, 3, 3), exactly(2, 3, 5)];
    let middles = [(23, 1), (22, 1), (20, 1), (25, 1)];
    row(alloc, &[1, 1, 1, 1], &[0, 20, 40, 30], &align_mid, &middles)?;
    let soft_page = [least(1, 0, 0), least(0, 2, 10), least(1, 2, 0)];
    let edges = [(-10, 101), (-10, 101), (50, 1)];
    row(alloc, &[1, 100, 100], &[-10, 0, 50], &soft_page, &edges)
}

#[test]
fn rigid_page(rt: HostRuntime) -> Result<(), Fail> {
    // Three boxes of 40 in a row and a rigid page round them, whose edges are the variables 3 and 4.
    let seps = [
        least(0, 1, 40),
        least(1, 2, 40),
        least(3, 0, 0),
        least(0, 4, 40),
        least(3, 1, 0),
        least(1, 4, 40),
        least(3, 2, 0),
        least(2, 4, 40),
        least(3, 4, 0),
        exactly(3, 4, 120),
    ];
    let places = [(0, 1), (40, 1), (80, 1), (0, 1), (120, 1)];
    row(
        rt.alloc(),
        &[1, 1, 1, 100, 100],
        &[0, 40, 80, 0, 120],
        &seps,
        &places,
    )
}

#[test]
fn exact_separations(rt: HostRuntime) -> Result<(), Fail> {
    let alloc = rt.alloc();
    // A cycle of exact ones that agrees.
    let cycle = [exactly(0, 1, 10), exactly(1, 2, 10), exactly(0, 2, 20)];
    row(
        alloc,
        &[1, 1, 1],
        &[0, 0, 0],
        &cycle,
        &[(-10, 1), (0, 1), (10, 1)],
    )?;
    // The ends stand too far apart at first.
    let far = [exactly(0, 1, 20)];
    row(alloc, &[1, 1], &[0, 50], &far, &[(15, 1), (35, 1)])?;
    let twice = [exactly(0, 1, 20), exactly(0, 1, 20)];
    row(alloc, &[1, 1], &[0, 50], &twice, &[(15, 1), (35, 1)])?;
    // Its ends stand too far apart, and the one that was closed before is dropped.
    let both = [least(0, 1, 4), exactly(1, 2, -10)];
    row(
        alloc,
        &[1, 1, 1],
        &[0, 0, 0],
        &both,
        &[(0, 1), (5, 1), (-5, 1)],
    )?;
    // Its ends stand too far apart, and the one that was closed before stays.
    let stays = [least(0, 1, 30), exactly(2, 1, 10)];
    row(
        alloc,
        &[1, 1, 1],
        &[0, 0, 0],
        &stays,
        &[(-50, 3), (40, 3), (10, 3)],
    )?;
    row(alloc, &[1, 1], &[3, -7], &[], &[(3, 1), (-7, 1)])
}

/// Whether the fractions are whole, the first is this one, and each of the others is the gap behind the one before.
fn is_chain(fractions: &[Frac], first: i128, gap: i128) -> bool {
    let mut want = first;
    for fraction in fractions {
        if fraction.num() != want || fraction.den() != 1 {
            return false;
        }
        want = want.wrapping_add(gap);
    }
    true
}

/// Checks the places of a chain of as many variables as desired places, each the gap behind the one before.
fn chain_row(
    alloc: Global,
    desired: &[i64],
    seps: &[Sep],
    first: i128,
    gap: i128,
) -> Result<(), Fail> {
    let weights = vec![in alloc; 1; desired.len()]?;
    let certificate = shown(alloc, &weights, desired, seps)?;
    if !is_chain(certificate.places.as_slice(), first, gap) {
        return Err("the places".into());
    }
    Ok(())
}

#[test]
fn longest_chain(rt: HostRuntime) -> Result<(), Fail> {
    let alloc = rt.alloc();
    let mut desired = Vec::new(alloc);
    let mut seps = Vec::new(alloc);
    for number in 0..64 {
        desired.push(1_000_000)?;
        desired.push(-1_000_000)?;
        seps.push(least(2 * number, 2 * number + 1, 1_000_000))?;
        if number < 63 {
            seps.push(least(2 * number + 1, 2 * number + 2, 1_000_000))?;
        }
    }
    chain_row(alloc, &desired, &seps, -63_500_000, 1_000_000)
}

#[test]
fn reversed_chain(rt: HostRuntime) -> Result<(), Fail> {
    let alloc = rt.alloc();
    let desired = vec![in alloc; 0; 101]?;
    let mut seps = Vec::new(alloc);
    for number in 0..100 {
        seps.push(least(99 - number, 100 - number, 10))?;
    }
    chain_row(alloc, &desired, &seps, -500, 10)
}

#[test]
fn many_variables_at_rest(rt: HostRuntime) -> Result<(), Fail> {
    let alloc = rt.alloc();
    let mut desired = Vec::new(alloc);
    let mut seps = Vec::new(alloc);
    for number in 0..258 {
        desired.push(10 * i64::from(number))?;
        if number < 257 {
            seps.push(least(number, number + 1, 10))?;
        }
    }
    chain_row(alloc, &desired, &seps, 0, 10)
}

#[test]
fn copies_of_one_separation(rt: HostRuntime) -> Result<(), Fail> {
    let alloc = rt.alloc();
    let seps = vec![in alloc; least(0, 1, 20); 2048]?;
    chain_row(alloc, &[0, 4], &seps, -8, 20)
}
