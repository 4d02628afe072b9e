//! Starts from hints: all give the one projection, and a hint that is near saves closings.
ghost use Rattle.std.specs.Prelude.{◌<◌};

use super::{certificate_of, some_placement};
use crate::made_problems::{exactly, least, problem_of};
use frac128::Frac;
use multiplier_check::{Certificate, shows};
use std::alloc::{AllocError, Global};
use std::test::Fail;
use units::{Problem, Sep};
use vpsc_solve::{Solution, solve_counted_from, solve_from};

/// Whether the fractions are these whole numbers.
fn are_whole(fractions: &[Frac], wholes: &[i128]) -> bool {
    if fractions.len() != wholes.len() {
        return false;
    }
    for (fraction, whole) in fractions.iter().zip(wholes) {
        if fraction.num() != *whole || fraction.den() != 1 {
            return false;
        }
    }
    true
}

/// Checks the places, the multipliers and the number of closings from a hint, with all weights 1.
fn row(
    alloc: Global,
    desired: &[i64],
    seps: &[Sep],
    hint: &[u16],
    places: &[i128],
    multipliers: &[i128],
    closings: u64,
) -> Result<(), Fail> {
    let weights = vec![in alloc; 1; desired.len()]?;
    let problem = problem_of(alloc, &weights, desired, seps)?;
    some_placement(alloc, &problem)?;
    let solution = solve_counted_from(alloc, &problem, hint)?;
    let right = shows(&problem, &solution.certificate)
        && are_whole(solution.certificate.places.as_slice(), places)
        && are_whole(solution.certificate.multipliers.as_slice(), multipliers)
        && solution.closings == closings;
    if !right {
        return Err("another solution".into());
    }
    Ok(())
}

#[test]
fn hints(rt: HostRuntime) -> Result<(), Fail> {
    let alloc = rt.alloc();
    // The first separation isn't active at the end: from none it is closed and dropped.
    let two = [least(0, 1, 4), least(2, 1, 10)];
    let zeros = [0, 0, 0];
    let five = [0, 5, -5];
    let ten = [0, 10];
    row(alloc, &zeros, &two, &[], &five, &ten, 2)?;
    row(alloc, &zeros, &two, &[0], &five, &ten, 1)?;
    // It would pull, and is dropped at once; a number that stands twice and one of no separation are passed over.
    row(alloc, &zeros, &two, &[1, 0, 1, 7], &five, &ten, 0)?;
    // A separation that is kept by far, and the same in two blocks.
    let near = [least(0, 1, 20)];
    row(alloc, &[0, 4], &near, &[], &[-8, 12], &[16], 1)?;
    row(alloc, &[0, 50], &near, &[0], &[0, 50], &[0], 0)?;
    let apart = [least(0, 1, 20), least(2, 3, 20)];
    let far = [0, 50, 0, 50];
    row(alloc, &[0, 50, 0, 50], &apart, &[1, 0], &far, &[0, 0], 0)?;
    // An exact one pulls.
    let exact = [exactly(0, 1, 20)];
    row(alloc, &[0, 50], &exact, &[0], &[15, 35], &[-30], 0)?;
    // The last one closes a cycle.
    let cycle = [least(0, 1, 10), least(1, 2, 10), least(0, 2, 20)];
    row(
        alloc,
        &zeros,
        &cycle,
        &[0, 1, 2],
        &[-10, 0, 10],
        &[20, 20, 0],
        0,
    )
}

/// A number below the limit, the next of a sequence that looks like chance.
fn below(state: &mut u32, limit: u16) -> u16
    requires { 0 < limit }
    ensures { result < limit }
{
    *state = state.wrapping_mul(1_664_525).wrapping_add(1_013_904_223);
    (*state >> 16) as u16 % limit
}

/// A separation between two of 40 variables that places 10 behind each other satisfy, one in eight exact.
fn any_separation(state: &mut u32) -> Sep {
    let left = below(state, 30);
    let steps = 1 + below(state, 10);
    let exact = below(state, 8) == 0;
    let slack = if exact { 0 } else { below(state, 15) };
    Sep {
        left,
        right: left + steps,
        gap: 10 * i32::from(steps) - i32::from(slack),
        exact,
    }
}

/// A problem of 40 variables and 80 separations.
fn larger(alloc: Global) -> Result<Problem, Fail> {
    let mut state = 1;
    let mut weights = Vec::new(alloc);
    let mut desired = Vec::new(alloc);
    for _ in 0..40 {
        weights.push(1 + u32::from(below(&mut state, 9)))?;
        desired.push(i64::from(below(&mut state, 400)))?;
    }
    let mut seps = Vec::new(alloc);
    for _ in 0..80 {
        seps.push(any_separation(&mut state))?;
    }
    problem_of(alloc, &weights, &desired, &seps)
}

/// Numbers of separations, in range and out of it.
fn any_hint(alloc: Global, state: &mut u32) -> Result<Vec<u16>, AllocError> {
    let mut hint = Vec::new(alloc);
    for _ in 0..60 {
        hint.push(below(state, 100))?;
    }
    Ok(hint)
}

/// The separations whose multipliers aren't 0.
fn active_of(alloc: Global, certificate: &Certificate) -> Result<Vec<u16>, AllocError> {
    let mut active = Vec::new(alloc);
    let mut number: u16 = 0;
    for multiplier in certificate.multipliers.as_slice() {
        if !multiplier.is_zero() {
            active.push(number)?;
        }
        number = number.wrapping_add(1);
    }
    Ok(active)
}

/// Whether the fractions are spelled the same.
fn are_same(one: &[Frac], other: &[Frac]) -> bool {
    if one.len() != other.len() {
        return false;
    }
    for (fraction, again) in one.iter().zip(other) {
        if fraction.num() != again.num() || fraction.den() != again.den() {
            return false;
        }
    }
    true
}

/// Checks the places from a hint, and says how many closings there were.
fn same_from(
    alloc: Global,
    problem: &Problem,
    certificate: &Certificate,
    hint: &[u16],
) -> Result<u64, Fail> {
    some_placement(alloc, problem)?;
    let solution = solve_counted_from(alloc, problem, hint)?;
    let places = solution.certificate.places.as_slice();
    if !shows(problem, &solution.certificate) || !are_same(certificate.places.as_slice(), places) {
        return Err("other places".into());
    }
    Ok(solution.closings)
}

#[test]
fn any_hints(rt: HostRuntime) -> Result<(), Fail> {
    let alloc = rt.alloc();
    let problem = larger(alloc)?;
    let certificate = certificate_of(alloc, &problem)?;
    let mut state = 7;
    for _ in 0..100 {
        let hint = any_hint(alloc, &mut state)?;
        let _closings = same_from(alloc, &problem, &certificate, &hint)?;
    }
    // What is active at the end is a hint with which nothing is left to close.
    let active = active_of(alloc, &certificate)?;
    let closings = same_from(alloc, &problem, &certificate, &active)?;
    assert!(rt; closings == 0);
    Ok(())
}

/// The certificate from a hint, of two variables at 0 and 4 that shall be 20 apart.
fn two_apart_from(alloc: Global, hint: &[u16]) -> Result<Certificate, Fail> {
    let problem = problem_of(alloc, &[1, 1], &[0, 4], &[least(0, 1, 20)])?;
    some_placement(alloc, &problem)?;
    Ok(solve_from(alloc, &problem, hint)?)
}

#[test]
fn a_certificate_from_a_hint(rt: HostRuntime) -> Result<(), Fail> {
    let certificate = two_apart_from(rt.alloc(), &[0])?;
    assert!(rt; are_whole(certificate.places.as_slice(), &[-8, 12]));
    Ok(())
}
