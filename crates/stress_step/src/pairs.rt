//! Pairs of shapes.
ghost use Rattle.std.specs.Prelude.{◌≡◌, ◌<◌, ◌≤◌, ◌+◌, ◌*◌, ◌-ℤ◌, length, pos, nat_abs, max};
ghost use Rattle.hop_graph.specs.Walks.{hop_distance};
ghost use Rattle.hop_graph.specs.Tables.{hop_table};
ghost use Rattle.stress_step.specs.Sums.{root};
ghost use Rattle.stress_step.specs.Spots.{HasPlaces};
ghost use Rattle.stress_step.specs.Stress.{strength, ideal, square, distance, pair_stress};

use crate::spots::step_at;
use frame_store::Places;
use hop_graph::HopTable;
use scene_model::Scene;
use units::Axis;

/// The hop distance of two shapes.
#[tactic(auto, using(crate::proofs::Ranges::table_rules))]
pub fn hop_of(scene: &Scene, hops: &HopTable, i: u16, j: u16) -> Option<u8>
    requires table { hops.now ≡ hop_table scene.now }
    requires first { i < length scene.now.shapes }
    requires second { j < length scene.now.shapes }
    ensures { result ≡ hop_distance scene.now i j }
{
    hops.get(i, j)
}

/// How much a pair of this hop distance counts: 1 to 3600, or 0 where it doesn't.
pub fn strength(hop: Option<u8>) -> u32
    ensures value { result ≡ strength hop }
    ensures small { result ≤ 3600 }
{
    match hop {
        Some(h) => {
            if h == 0 {
                0
            } else {
                3600 / (u32::from(h) * u32::from(h))
            }
        }
        None => 0,
    }
}

/// The ideal distance of a pair of this hop distance, in diagram units.
fn ideal(hop: Option<u8>) -> u32
    ensures value { result ≡ ideal hop }
    ensures small { result ≤ 25500 }
{
    match hop {
        Some(h) => 100 * u32::from(h),
        None => 0,
    }
}

/// The square of a way on one axis.
fn square_of_step(step: i64) -> u64
    requires { nat_abs step ≤ 2010000 }
    ensures value { result ≡ square step }
    ensures small { result ≤ 4040100000000 }
{
    let size = step.unsigned_abs();
    size * size
}

/// The square of an excess.
fn square_of_excess(excess: i64) -> u64
    requires { nat_abs excess ≤ 3000000 }
    ensures value { result ≡ square excess }
    ensures small { result ≤ 9000000000000 }
{
    let size = excess.unsigned_abs();
    size * size
}

/// The whole root of a squared distance.
fn root_of(squared: u64) -> u32
    requires { squared ≤ 8080200000000 }
    ensures value { result ≡ root squared }
    ensures small { result ≤ 3000000 }
{
    squared.isqrt() as u32
}

/// The whole distance of the mid-points of two shapes, at least 1 and at most 3,000,000 diagram units.
pub fn distance(scene: &Scene, places: &Places, i: u16, j: u16) -> u32
    requires placed { HasPlaces scene.now places.now }
    requires first { i < length scene.now.shapes }
    requires second { j < length scene.now.shapes }
    ensures value { result ≡ distance scene.now places.now i j }
    ensures positive { 1 ≤ result }
    ensures small { result ≤ 3000000 }
{
    let x = square_of_step(step_at(scene, places, Axis::X, i, j));
    let y = square_of_step(step_at(scene, places, Axis::Y, i, j));
    root_of(x + y).max(1)
}

/// How much longer than ideal a distance is for a pair of this hop distance, in diagram units.
pub fn excess_of(apart: u32, hop: Option<u8>) -> i64
    requires { apart ≤ 3000000 }
    ensures value { result ≡ pos apart -ℤ pos (ideal hop) }
    ensures near { nat_abs result ≤ 3000000 }
{
    i64::from(apart) - i64::from(ideal(hop))
}

/// The stress of a pair.
pub fn pair_stress(scene: &Scene, places: &Places, hops: &HopTable, i: u16, j: u16) -> u64
    requires placed { HasPlaces scene.now places.now }
    requires table { hops.now ≡ hop_table scene.now }
    requires first { i < length scene.now.shapes }
    requires second { j < length scene.now.shapes }
    ensures value { result ≡ pair_stress scene.now places.now i j }
    ensures small { result ≤ 32400000000000000 }
{
    let hop = hop_of(scene, hops, i, j);
    let excess = excess_of(distance(scene, places, i, j), hop);
    u64::from(strength(hop)) * square_of_excess(excess)
}
