//! Scenes whose projections are known from elsewhere.
ghost use Rattle.std.specs.Prelude.{◌≤◌, All, IfOk, IsTrue, length, nat_abs};
ghost use Rattle.scene_model.specs.Separations.{separations};
ghost use Rattle.sep_gen.specs.Feasibility.{IsFeasibleAxis};

mod at_once;

use crate::made_scenes::add_two_apart;
use axis_project::project;
use cycle_test::{Verdict, test};
use frac128::Frac;
use multiplier_check::Certificate;
use scene_model::Scene;
use sep_gen::{compile, count};
use std::alloc::Global;
use std::test::Fail;
use units::{Axis, Memory};

/// Whether the desired places are within the bounds of a problem.
fn are_near(desired: &[i64]) -> bool
    ensures { IsTrue result → All (λ d. nat_abs d ≤ 2000000) desired.now }
{
    desired
        .iter()
        .all(|place| -2_000_000 <= *place && *place <= 2_000_000)
}

/// Whether some places fit the scene on the axis.
fn is_feasible(alloc: Global, scene: &Scene, axis: Axis) -> Result<bool, Memory>
    requires { length (separations scene.now axis) ≤ 2048 }
    ensures { IfOk result (λ feasible. IsTrue feasible → IsFeasibleAxis scene.now axis) }
{
    let variables = scene.vars(axis);
    let list = compile(alloc, scene, axis)?;
    match test(alloc, variables, &list)? {
        Verdict::Places(_) => Ok(true),
        Verdict::Cycle(_) => Ok(false),
    }
}

/// The projection, where the conditions hold.
fn certificate_of(
    alloc: Global,
    scene: &Scene,
    axis: Axis,
    desired: &[i64],
) -> Result<Certificate, Fail> {
    if desired.len() != usize::from(scene.vars(axis)) {
        return Err("a place for each variable".into());
    }
    if !are_near(desired) {
        return Err("near places".into());
    }
    if count(scene, axis) > 2048 {
        return Err("few separations".into());
    }
    if !is_feasible(alloc, scene, axis)? {
        return Err("some placement".into());
    }
    Ok(project(alloc, scene, axis, desired)?)
}

/// Whether the fractions have these numerators and denominators.
fn are(fractions: &[Frac], wanted: &[(i128, i64)]) -> bool {
    if fractions.len() != wanted.len() {
        return false;
    }
    for (fraction, want) in fractions.iter().zip(wanted) {
        if fraction.num() != want.0 || fraction.den() != want.1 {
            return false;
        }
    }
    true
}

/// Projects a scene of two boxes from 0 and 4 on X, and compares places and multiplier.
fn compare(
    scene: &mut Scene,
    alloc: Global,
    held: bool,
    places: &[(i128, i64)],
    multipliers: &[(i128, i64)],
) -> Result<(), Fail> {
    add_two_apart(scene, held)?;
    let certificate = certificate_of(alloc, scene, Axis::X, &[0, 4])?;
    if !are(certificate.places.as_slice(), places) {
        return Err("the places".into());
    }
    if !are(certificate.multipliers.as_slice(), multipliers) {
        return Err("the multiplier".into());
    }
    Ok(())
}

#[test]
fn two_apart(rt: HostRuntime) -> Result<(), Fail> {
    let mut scene = Scene::empty(rt.alloc());
    compare(
        &mut scene,
        rt.alloc(),
        false,
        &[(-8, 1), (12, 1)],
        &[(16, 1)],
    )
}

#[test]
fn held_shape(rt: HostRuntime) -> Result<(), Fail> {
    let mut scene = Scene::empty(rt.alloc());
    let places = [(-16, 1001), (20004, 1001)];
    compare(&mut scene, rt.alloc(), true, &places, &[(32000, 1001)])
}
