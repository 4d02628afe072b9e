//! Violated separations.
ghost use Rattle.std.specs.Prelude.{◌≡◌, ◌<◌, ◌≤◌, ◌+ℤ◌, ◌*ℤ◌, ◌<ℤ◌, ◌↔◌, IsTrue, length, nat_abs, All};
ghost use Rattle.vpsc_solve.specs.Places.{IsSmallPlace, wanted, actual, IsBroken, IsFirstBroken};

use crate::places::Place;
use units::{Problem, Sep};

/// A separation that is violated.
#[derive(Clone, Copy, Debug)]
pub struct Violation {
    /// The number of the separation.
    pub sep: u16,
    /// Whether its ends stand too far apart, as only those of an exact separation can; else they stand too near.
    pub above: bool,
}

/// The place that the right end of a separation has to reach, over the denominator of the left one's.
fn reached_from(sep: &Sep, left: &Place) -> i64
    requires gap { nat_abs sep.now.gap ≤ 1000000 }
    requires left { IsSmallPlace left.now }
    ensures value { result ≡ left.now.num +ℤ sep.now.gap *ℤ left.now.den }
    ensures small { nat_abs result ≤ 133386000000000 }
{
    left.num + stretched(sep.gap, left.den)
}

/// A gap times a weight.
fn stretched(gap: i32, weight: i64) -> i64
    requires gap { nat_abs gap ≤ 1000000 }
    requires weight { nat_abs weight ≤ 258000 }
    ensures value { result ≡ gap *ℤ weight }
    ensures small { nat_abs result ≤ 258000000000 }
{
    i64::from(gap) * weight
}

/// A place over its denominator, times another denominator.
fn product(num: i64, den: i64) -> i128
    requires num { nat_abs num ≤ 133386000000000 }
    requires den { nat_abs den ≤ 258000 }
    ensures value { result ≡ num *ℤ den }
    ensures small { nat_abs result ≤ 34413588000000000000 }
{
    i128::from(num) * i128::from(den)
}

/// Whether the ends of a separation stand too near at these places.
fn is_near(sep: &Sep, left: &Place, right: &Place) -> bool
    requires gap { nat_abs sep.now.gap ≤ 1000000 }
    requires left { IsSmallPlace left.now }
    requires right { IsSmallPlace right.now }
    ensures { IsTrue result ↔ (actual left.now right.now <ℤ wanted sep.now left.now right.now) }
{
    product(right.num, left.den) < product(reached_from(sep, left), right.den)
}

/// Whether the ends of a separation stand further apart than its gap at these places.
fn is_far(sep: &Sep, left: &Place, right: &Place) -> bool
    requires gap { nat_abs sep.now.gap ≤ 1000000 }
    requires left { IsSmallPlace left.now }
    requires right { IsSmallPlace right.now }
    ensures { IsTrue result ↔ (wanted sep.now left.now right.now <ℤ actual left.now right.now) }
{
    product(reached_from(sep, left), right.den) < product(right.num, left.den)
}

/// How two places violate a separation, if they do: false where they stand too near, true where those of an exact one stand too
/// far apart.
fn violation_of(sep: &Sep, left: &Place, right: &Place) -> Option<bool>
    requires gap { nat_abs sep.now.gap ≤ 1000000 }
    requires left { IsSmallPlace left.now }
    requires right { IsSmallPlace right.now }
    ensures { IsBroken sep.now left.now right.now result }
{
    if is_near(sep, left, right) {
        return Some(false);
    }
    if !sep.exact {
        return None;
    }
    if is_far(sep, left, right) {
        return Some(true);
    }
    None
}

/// The first violated separation, in the order of the problem.
pub fn first_violated(problem: &Problem, places: &[Place]) -> Option<Violation>
    requires as_long { length places.now ≡ length problem.now.desired }
    requires small { All IsSmallPlace places.now }
    ensures { IsFirstBroken problem.now places.now result }
{
    for (number, sep) in problem.seps().iter().enumerate() {
        let left = &places[sep.left as usize];
        let right = &places[sep.right as usize];
        match violation_of(sep, left, right) {
            Some(above) => {
                return Some(Violation {
                    sep: number as u16,
                    above,
                });
            }
            None => {}
        }
    }
    None
}
