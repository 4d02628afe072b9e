//! Parts, projections from a hint, and both axes at once.
ghost use Rattle.std.specs.Prelude.{◌≤◌, All, IsTrue, length};
ghost use Rattle.units.specs.Problem.{IsSeparation};

use super::{are, are_near, is_feasible};
use crate::made_scenes::{add_apart, add_box, named};
use axis_project::{components_law, parts, project_both, project_from};
use multiplier_check::Certificate;
use scene_model::Scene;
use sep_gen::count;
use std::alloc::Global;
use std::test::Fail;
use std::thread::Threads;
use units::{Axis, Sep};

/// The right variable at least the gap behind the left one.
fn least(left: u16, right: u16, gap: i32) -> Sep {
    Sep {
        left,
        right,
        gap,
        exact: false,
    }
}

/// Whether `parts` takes the list.
fn are_sound(n: u16, seps: &[Sep]) -> bool
    ensures { IsTrue result → All (λ separation. IsSeparation n separation) seps.now }
{
    seps.iter().all(|sep| sep.left < n
        && sep.right < n
        && sep.left != sep.right
        && -1_000_000 <= sep.gap
        && sep.gap <= 1_000_000)
}

/// Whether the parts of three variables are the wanted ones.
fn parts_are(alloc: Global, seps: &[Sep], wanted: &[u16]) -> Result<bool, Fail>
    requires { length seps.now ≤ 2048 }
{
    if !are_sound(3, seps) {
        return Err("separations".into());
    }
    Ok(parts(alloc, 3, seps)?.as_slice() == wanted)
}

#[test]
fn worked_parts(rt: HostRuntime) -> Result<(), Fail> {
    let alloc = rt.alloc();
    let both = [least(0, 1, 4), least(2, 1, 10)];
    if !parts_are(alloc, &both[..1], &[0, 0, 2])? {
        return Err("the first separation alone".into());
    }
    if !parts_are(alloc, &both, &[0, 0, 0])? {
        return Err("both separations".into());
    }
    if !parts_are(alloc, &[], &[0, 1, 2])? {
        return Err("no separation".into());
    }
    if !parts_are(alloc, &[least(2, 1, 10)], &[0, 1, 1])? {
        return Err("from right to left".into());
    }
    Ok(())
}

/// Boxes a, b and c at 0, and b at least 4 behind a.
fn add_three(scene: &mut Scene) -> Result<(), Fail> {
    let a = named(b"a")?;
    let b = named(b"b")?;
    add_box(scene, a, 0, false)?;
    add_box(scene, b, 0, false)?;
    add_box(scene, named(b"c")?, 0, false)?;
    add_apart(scene, named(b"s")?, a, b, 4)
}

/// Sets b at least 10 behind c.
fn add_second(scene: &mut Scene) -> Result<(), Fail> {
    add_apart(scene, named(b"t")?, named(b"c")?, named(b"b")?, 10)
}

/// The projection on X from a hint, where the conditions hold.
fn projected_from(
    scene: &Scene,
    alloc: Global,
    desired: &[i64],
    hint: &[u16],
) -> Result<Certificate, Fail> {
    if desired.len() != usize::from(scene.vars(Axis::X)) {
        return Err("a place for each variable".into());
    }
    if !are_near(desired) {
        return Err("near places".into());
    }
    if count(scene, Axis::X) > 2048 {
        return Err("few separations".into());
    }
    if !is_feasible(alloc, scene, Axis::X)? {
        return Err("some placement".into());
    }
    Ok(project_from(alloc, scene, Axis::X, desired, hint)?)
}

/// Projects the three boxes on X from a hint.
fn compare_from(scene: &mut Scene, alloc: Global, hint: &[u16]) -> Result<(), Fail> {
    add_three(scene)?;
    add_second(scene)?;
    let certificate = projected_from(scene, alloc, &[0, 0, 0], hint)?;
    if !are(certificate.places.as_slice(), &[(0, 1), (5, 1), (-5, 1)]) {
        return Err("the places".into());
    }
    if !are(certificate.multipliers.as_slice(), &[(0, 1), (10, 1)]) {
        return Err("the multipliers".into());
    }
    Ok(())
}

#[test]
fn no_hint(rt: HostRuntime) -> Result<(), Fail> {
    let mut scene = Scene::empty(rt.alloc());
    compare_from(&mut scene, rt.alloc(), &[])
}

#[test]
fn hint_of_the_first(rt: HostRuntime) -> Result<(), Fail> {
    let mut scene = Scene::empty(rt.alloc());
    compare_from(&mut scene, rt.alloc(), &[0])
}

#[test]
fn hint_of_no_separation(rt: HostRuntime) -> Result<(), Fail> {
    let mut scene = Scene::empty(rt.alloc());
    compare_from(&mut scene, rt.alloc(), &[1, 0, 1, 7])
}

/// Both projections, where the conditions hold.
fn projected_both<R: Threads + Sync>(
    rt: &R,
    alloc: Global,
    scene: &Scene,
    x: &[i64],
    y: &[i64],
    hint: &[u16],
) -> Result<(Certificate, Certificate), Fail> {
    if x.len() != usize::from(scene.vars(Axis::X)) || y.len() != usize::from(scene.vars(Axis::Y)) {
        return Err("a place for each variable".into());
    }
    if !are_near(x) || !are_near(y) {
        return Err("near places".into());
    }
    if count(scene, Axis::X) > 2048 || count(scene, Axis::Y) > 2048 {
        return Err("few separations".into());
    }
    if !is_feasible(alloc, scene, Axis::X)? || !is_feasible(alloc, scene, Axis::Y)? {
        return Err("some placement".into());
    }
    Ok(project_both(rt, alloc, scene, x, y, hint, hint)?)
}

/// Projects the boxes on both axes: on X from 0, 0 and 0, on Y from 3, -2 and 7, which no separation moves.
fn compare_both<R: Threads + Sync>(
    rt: &R,
    alloc: Global,
    scene: &Scene,
    places: &[(i128, i64)],
    multipliers: &[(i128, i64)],
) -> Result<(), Fail> {
    let (of_x, of_y) = projected_both(rt, alloc, scene, &[0, 0, 0], &[3, -2, 7], &[1, 0, 1, 7])?;
    if !are(of_x.places.as_slice(), places) || !are(of_x.multipliers.as_slice(), multipliers) {
        return Err("the projection on X".into());
    }
    if !are(of_y.places.as_slice(), &[(3, 1), (-2, 1), (7, 1)]) || !of_y.multipliers.is_empty() {
        return Err("the projection on Y".into());
    }
    Ok(())
}

#[test]
fn one_part(rt: HostRuntime) -> Result<(), Fail> {
    let mut scene = Scene::empty(rt.alloc());
    add_three(&mut scene)?;
    add_second(&mut scene)?;
    let places = [(0, 1), (5, 1), (-5, 1)];
    compare_both(&rt, rt.alloc(), &scene, &places, &[(0, 1), (10, 1)])
}

#[test]
fn two_parts(rt: HostRuntime) -> Result<(), Fail> {
    let mut scene = Scene::empty(rt.alloc());
    add_three(&mut scene)?;
    components_law();
    let places = [(-2, 1), (2, 1), (0, 1)];
    compare_both(&rt, rt.alloc(), &scene, &places, &[(4, 1)])
}
