//! What the tests are made of: separations, and problems within their bounds.
ghost use Rattle.std.specs.Prelude.{◌≡◌, ◌≤◌, ◌<◌, All, IfOk, IsTrue, length, nat_abs};
ghost use Rattle.units.specs.Problem.{IsSeparation};

use std::alloc::Global;
use std::test::Fail;
use units::{Problem, Sep};

/// The right variable at least the gap behind the left one.
pub fn least(left: u16, right: u16, gap: i32) -> Sep {
    Sep {
        left,
        right,
        gap,
        exact: false,
    }
}

/// The right variable exactly the gap behind the left one.
pub fn exactly(left: u16, right: u16, gap: i32) -> Sep {
    Sep {
        left,
        right,
        gap,
        exact: true,
    }
}

/// Whether the weights are within the bounds of a problem.
fn are_weights(weights: &[u32]) -> bool
    ensures { IsTrue result → All (λ w. (1 ≤ w) × (w ≤ 1000)) weights.now }
{
    weights.iter().all(|weight| 1 <= *weight && *weight <= 1000)
}

/// Whether the desired places are.
fn are_near(desired: &[i64]) -> bool
    ensures { IsTrue result → All (λ d. nat_abs d ≤ 2000000) desired.now }
{
    desired
        .iter()
        .all(|place| -2_000_000 <= *place && *place <= 2_000_000)
}

/// Whether the separations are.
pub fn are_sound(count: u16, seps: &[Sep]) -> bool
    ensures { IsTrue result → All (λ separation. IsSeparation count separation) seps.now }
{
    seps.iter().all(|sep| {
        sep.left < count
            && sep.right < count
            && sep.left != sep.right
            && -1_000_000 <= sep.gap
            && sep.gap <= 1_000_000
    })
}

/// The problem of these lists, where they are within its bounds.
pub fn problem_of(
    alloc: Global,
    weights: &[u32],
    desired: &[i64],
    seps: &[Sep],
) -> Result<Problem, Fail>
    ensures { IfOk result (λ problem. problem.desired ≡ desired.now) }
{
    if desired.len() > 258 || seps.len() > 2048 {
        return Err("short lists".into());
    }
    if weights.len() != desired.len() {
        return Err("a weight of each variable".into());
    }
    if !are_weights(weights) {
        return Err("weights".into());
    }
    if !are_near(desired) {
        return Err("near places".into());
    }
    if !are_sound(desired.len() as u16, seps) {
        return Err("separations".into());
    }
    Ok(Problem::new(
        weights.to_vec(alloc)?,
        desired.to_vec(alloc)?,
        seps.to_vec(alloc)?,
    ))
}
