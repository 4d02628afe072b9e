//! Places of less stress.
ghost use Rattle.std.specs.Prelude.{int_div, pos, nat_abs, ◌≡◌, ◌<◌, ◌≤◌, ◌+ℤ◌, length, map, IfOk, nat_lt, slice_index_or};
ghost use Rattle.std.specs.List.{range_with_len};
ghost use Rattle.units.specs.Number.{clamped};
ghost use Rattle.units.specs.declared.geometry.Axis.TheVariants as axes;
ghost use Rattle.hop_graph.specs.Tables.{hop_table};
ghost use Rattle.stress_step.specs.Spots.{HasPlaces, low_at, clamped_places};
ghost use Rattle.stress_step.specs.Stress.{stress};
ghost use Rattle.stress_step.specs.Pulls.{pull, all_pulls};
ghost use Rattle.stress_step.specs.Proposal.{moved, candidate, better_places};

use crate::pulling::{distances_from, pull};
use crate::spots::low_at;
use crate::stressing::stress_of;
use frame_store::Places;
use hop_graph::HopTable;
use scene_model::{Scene, Sort};
use std::alloc::{AllocError, Global};
use units::{Axis, Sequence, clamp};

/// The numbers by which pulls are divided, in the order in which they are tried.
const DIVISORS: [u8; 5] = [2, 4, 8, 16, 32];

/// The pulls of all shapes.
#[derive(Drop)]
struct Pulls {
    x: Sequence<i64>,
    y: Sequence<i64>,
}

/// The pulls of all shapes on both axes. The distances from a shape serve both.
fn all_pulls(
    alloc: Global,
    scene: &Scene,
    places: &Places,
    hops: &HopTable,
) -> Result<Pulls, AllocError>
    requires placed { HasPlaces scene.now places.now }
    requires table { hops.now ≡ hop_table scene.now }
    ensures { IfOk result (λ pulls. pulls ≡ record { x = all_pulls scene.now axes.X places.now; y = all_pulls scene.now axes.Y places.now }) }
{
    let mut x = Vec::new(alloc);
    let mut y = Vec::new(alloc);
    for shape in 0..scene.count(Sort::Shape) {
        let row = distances_from(alloc, scene, places, shape)?;
        let distances = row.as_slice();
        x.push(pull(scene, places, hops, distances, Axis::X, shape))?;
        y.push(pull(scene, places, hops, distances, Axis::Y, shape))?;
    }
    Ok(Pulls {
        x: Sequence::of(x),
        y: Sequence::of(y),
    })
}

/// Where a shape goes when its pull is divided by this number.
fn moved(scene: &Scene, places: &Places, pulls: &[i64], axis: Axis, divisor: u8, shape: u16) -> i64
    requires placed { HasPlaces scene.now places.now }
    requires pulled { pulls.now ≡ all_pulls scene.now axis places.now }
    requires stands { shape < length scene.now.shapes }
    requires some { 2 ≤ divisor }
    ensures { result ≡ moved scene.now axis places.now divisor shape }
{
    let low = low_at(scene, places, axis, shape);
    shifted(low, pull_at(pulls, shape), divisor)
}

/// The pull of the shape of this number.
fn pull_at(pulls: &[i64], shape: u16) -> i64
    requires { shape < length pulls.now }
    ensures { result ≡ slice_index_or pulls.now shape (pos 0) }
{
    pulls[shape as usize]
}

/// A place and a part of a pull, clamped.
fn shifted(low: i64, pull: i64, divisor: u8) -> i64
    requires low { nat_abs low ≤ 1000000 }
    requires some { 2 ≤ divisor }
    ensures { result ≡ clamped (low +ℤ int_div pull (pos divisor)) }
{
    clamp(sum(low, part_of(pull, divisor)))
}

/// A place and a step.
fn sum(low: i64, step: i64) -> i64
    requires low { nat_abs low ≤ 1000000 }
    requires step { nat_abs step ≤ 4611686018427387904 }
    ensures { result ≡ low +ℤ step }
{
    low + step
}

/// A part of a pull, cut towards zero.
fn part_of(pull: i64, divisor: u8) -> i64
    requires { 2 ≤ divisor }
    ensures value { result ≡ int_div pull (pos divisor) }
    ensures near { nat_abs result ≤ 4611686018427387904 }
{
    pull / i64::from(divisor)
}

/// All shapes moved so on an axis.
fn all_moved(
    alloc: Global,
    scene: &Scene,
    places: &Places,
    pulls: &[i64],
    axis: Axis,
    divisor: u8,
) -> Result<Sequence<i64>, AllocError>
    requires placed { HasPlaces scene.now places.now }
    requires pulled { pulls.now ≡ all_pulls scene.now axis places.now }
    requires some { 2 ≤ divisor }
    ensures { IfOk result (λ numbers. numbers ≡ map (moved scene.now axis places.now divisor) (range_with_len 0 (length scene.now.shapes))) }
{
    let mut numbers = Vec::new(alloc);
    for shape in 0..scene.count(Sort::Shape) {
        numbers.push(moved(scene, places, pulls, axis, divisor, shape))?;
    }
    Ok(Sequence::of(numbers))
}

/// All shapes moved by their pulls, divided by this number.
fn candidate(
    alloc: Global,
    scene: &Scene,
    places: &Places,
    pulls: &Pulls,
    divisor: u8,
) -> Result<Places, AllocError>
    requires placed { HasPlaces scene.now places.now }
    requires x { pulls.now.x ≡ all_pulls scene.now axes.X places.now }
    requires y { pulls.now.y ≡ all_pulls scene.now axes.Y places.now }
    requires some { 2 ≤ divisor }
    ensures { IfOk result (λ next. next ≡ candidate scene.now places.now divisor) }
{
    let x = pulls.x.as_slice();
    let y = pulls.y.as_slice();
    Ok(Places {
        x: all_moved(alloc, scene, places, x, Axis::X, divisor)?,
        y: all_moved(alloc, scene, places, y, Axis::Y, divisor)?,
    })
}

/// The clamped places of the shapes on an axis.
fn all_clamped(
    alloc: Global,
    scene: &Scene,
    places: &Places,
    axis: Axis,
) -> Result<Sequence<i64>, AllocError>
    requires { HasPlaces scene.now places.now }
    ensures { IfOk result (λ numbers. numbers ≡ map (low_at axis places.now) (range_with_len 0 (length scene.now.shapes))) }
{
    let mut numbers = Vec::new(alloc);
    for shape in 0..scene.count(Sort::Shape) {
        numbers.push(low_at(scene, places, axis, shape))?;
    }
    Ok(Sequence::of(numbers))
}

/// The clamped places of the shapes.
fn clamped_places(alloc: Global, scene: &Scene, places: &Places) -> Result<Places, AllocError>
    requires { HasPlaces scene.now places.now }
    ensures { IfOk result (λ next. next ≡ clamped_places scene.now places.now) }
{
    Ok(Places {
        x: all_clamped(alloc, scene, places, Axis::X)?,
        y: all_clamped(alloc, scene, places, Axis::Y)?,
    })
}

/// Whether places have less stress than a number.
fn is_less(scene: &Scene, places: &Places, hops: &HopTable, bound: u128) -> bool
    requires placed { HasPlaces scene.now places.now }
    requires table { hops.now ≡ hop_table scene.now }
    ensures { result ≡ nat_lt (stress scene.now places.now) bound }
{
    stress_of(scene, places, hops) < bound
}

/// The places of the first candidate of less stress, or the clamped places where there is none.
pub fn better_places(
    alloc: Global,
    scene: &Scene,
    places: &Places,
    hops: &HopTable,
) -> Result<Places, AllocError>
    requires placed { HasPlaces scene.now places.now }
    requires table { hops.now ≡ hop_table scene.now }
    ensures { IfOk result (λ next. next ≡ better_places scene.now places.now) }
{
    let bound = stress_of(scene, places, hops);
    let pulls = all_pulls(alloc, scene, places, hops)?;
    for divisor in &DIVISORS {
        let next = candidate(alloc, scene, places, &pulls, *divisor)?;
        if is_less(scene, &next, hops, bound) {
            return Ok(next);
        }
    }
    clamped_places(alloc, scene, places)
}
