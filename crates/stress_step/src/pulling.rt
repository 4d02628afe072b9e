//! How shapes pull each other.
ghost use Rattle.std.specs.Prelude.{All, IfOk, int_div, ◌≡◌, ◌<◌, ◌≤◌, ◌+◌, ◌+ℤ◌, ◌*ℤ◌, length, pos, nat_abs, slice_get};
ghost use Rattle.scene_model.specs.Names.{along};
ghost use Rattle.hop_graph.specs.Tables.{hop_table};
ghost use Rattle.stress_step.specs.Spots.{HasPlaces};
ghost use Rattle.stress_step.specs.Stress.{distance};
ghost use Rattle.stress_step.specs.Steps.{IsDistance, distances_from};
ghost use Rattle.stress_step.specs.Pulls.{way, partner_pull, strengths, pulls, mean, pull, aside};

use crate::pairs::{distance, excess_of, hop_of, strength};
use crate::spots::{coincide, is_held, step_at};
use frame_store::Places;
use hop_graph::HopTable;
use scene_model::{Scene, Sort};
use std::alloc::{AllocError, Global};
use units::{Axis, Sequence};

/// The way between coinciding mid-points: 1 apart along X, the lower-numbered on the left.
fn aside(axis: Axis, i: u16, j: u16) -> i64
    ensures value { result ≡ aside axis i j }
    ensures near { nat_abs result ≤ 1 }
{
    match axis {
        Axis::X => { if i < j { 1 } else { -1 } }
        Axis::Y => 0,
    }
}

/// The way from a shape to a partner.
fn way(scene: &Scene, places: &Places, axis: Axis, i: u16, j: u16) -> i64
    requires placed { HasPlaces scene.now places.now }
    requires first { i < length scene.now.shapes }
    requires second { j < length scene.now.shapes }
    ensures value { result ≡ way scene.now axis places.now i j }
    ensures near { nat_abs result ≤ 2010000 }
{
    if coincide(scene, places, i, j) {
        aside(axis, i, j)
    } else {
        step_at(scene, places, axis, i, j)
    }
}

/// A way times an excess.
fn stretched(way: i64, excess: i64) -> i64
    requires way { nat_abs way ≤ 2010000 }
    requires excess { nat_abs excess ≤ 3000000 }
    ensures value { result ≡ way *ℤ excess }
    ensures near { nat_abs result ≤ 6030000000000 }
{
    way * excess
}

/// Such a product divided by a distance, and cut towards zero.
fn shortened(stretched: i64, distance: u32) -> i64
    requires stretched { nat_abs stretched ≤ 6030000000000 }
    requires distance { 1 ≤ distance }
    ensures value { result ≡ int_div stretched (pos distance) }
    ensures near { nat_abs result ≤ 6030000000000 }
{
    stretched / i64::from(distance)
}

/// Such a quotient times a strength.
fn weighed(strength: u32, quotient: i64) -> i64
    requires strength { strength ≤ 3600 }
    requires quotient { nat_abs quotient ≤ 6030000000000 }
    ensures value { result ≡ pos strength *ℤ quotient }
    ensures near { nat_abs result ≤ 21708000000000000 }
{
    i64::from(strength) * quotient
}

/// How a partner at this distance pulls.
fn partner_pull(
    scene: &Scene,
    places: &Places,
    hops: &HopTable,
    axis: Axis,
    i: u16,
    j: u16,
    apart: u32,
) -> i64
    requires placed { HasPlaces scene.now places.now }
    requires table { hops.now ≡ hop_table scene.now }
    requires first { i < length scene.now.shapes }
    requires second { j < length scene.now.shapes }
    requires measured { apart ≡ distance scene.now places.now i j }
    requires within { IsDistance apart }
    ensures value { result ≡ partner_pull scene.now axis places.now i j }
    ensures near { nat_abs result ≤ 21708000000000000 }
{
    let hop = hop_of(scene, hops, i, j);
    let way = way(scene, places, axis, i, j);
    let quotient = shortened(stretched(way, excess_of(apart, hop)), apart);
    weighed(strength(hop), quotient)
}

/// The distances from a shape to all shapes.
pub fn distances_from(
    alloc: Global,
    scene: &Scene,
    places: &Places,
    i: u16,
) -> Result<Sequence<u32>, AllocError>
    requires placed { HasPlaces scene.now places.now }
    requires stands { i < length scene.now.shapes }
    ensures value { IfOk result (λ row. row ≡ distances_from scene.now places.now i) }
    ensures within { IfOk result (All IsDistance) }
{
    let mut row = Vec::new(alloc);
    for j in 0..scene.count(Sort::Shape) {
        row.push(distance(scene, places, i, j))?;
    }
    Ok(Sequence::of(row))
}

/// The strengths of a shape's partners.
fn strengths(scene: &Scene, hops: &HopTable, i: u16) -> u32
    requires table { hops.now ≡ hop_table scene.now }
    requires stands { i < length scene.now.shapes }
    ensures { result ≡ strengths scene.now i }
{
    let mut total = 0;
    for j in 0..scene.count(Sort::Shape) {
        total += strength(hop_of(scene, hops, i, j));
    }
    total
}

/// A sum of pulls and one more.
fn added(total: i64, one: i64) -> i64
    requires total { nat_abs total ≤ 2778624000000000000 }
    requires one { nat_abs one ≤ 21708000000000000 }
    ensures value { result ≡ total +ℤ one }
    ensures near { nat_abs result ≤ nat_abs total + 21708000000000000 }
{
    total + one
}

/// What a shape's partners at these distances pull.
fn pulls(
    scene: &Scene,
    places: &Places,
    hops: &HopTable,
    distances: &[u32],
    axis: Axis,
    i: u16,
) -> i64
    requires placed { HasPlaces scene.now places.now }
    requires table { hops.now ≡ hop_table scene.now }
    requires stands { i < length scene.now.shapes }
    requires measured { distances.now ≡ distances_from scene.now places.now i }
    requires within { All IsDistance distances.now }
    ensures value { result ≡ pulls scene.now axis places.now i }
    ensures near { nat_abs result ≤ 2778624000000000000 }
{
    let mut total = 0;
    for j in 0..scene.count(Sort::Shape) {
        let apart = distances[j as usize];
        total = added(total, partner_pull(scene, places, hops, axis, i, j, apart));
    }
    total
}

/// A sum of pulls divided by a weight.
fn mean(total: i64, weight: u32) -> i64
    requires { nat_abs total ≤ 2778624000000000000 }
    ensures value { result ≡ mean total weight }
    ensures near { nat_abs result ≤ 2778624000000000000 }
{
    if weight == 0 {
        0
    } else {
        total / i64::from(weight)
    }
}

/// The pull of a shape on an axis, by its distances to all shapes.
#[tactic(auto, unfolding(crate::specs::Pulls::pull))]
pub fn pull(
    scene: &Scene,
    places: &Places,
    hops: &HopTable,
    distances: &[u32],
    axis: Axis,
    i: u16,
) -> i64
    requires placed { HasPlaces scene.now places.now }
    requires table { hops.now ≡ hop_table scene.now }
    requires stands { i < length scene.now.shapes }
    requires measured { distances.now ≡ distances_from scene.now places.now i }
    requires within { All IsDistance distances.now }
    ensures value { result ≡ pull scene.now axis places.now i }
    ensures near { nat_abs result ≤ 2778624000000000000 }
{
    if is_held(scene, i) {
        return 0;
    }
    mean(
        pulls(scene, places, hops, distances, axis, i),
        strengths(scene, hops, i),
    )
}
