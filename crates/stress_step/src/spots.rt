//! Where shapes stand.
ghost use Rattle.std.specs.Prelude.{◌≡◌, ◌<◌, ◌≤◌, ◌≤ℤ◌, ◌-ℤ◌, length, pos, nat_abs, slice_get};
ghost use Rattle.scene_model.specs.Variables.{half};
ghost use Rattle.stress_step.specs.Spots.{HasPlaces, on_axis, low_at, size_at, middle_at, step_at, coincide, is_held_shape};

use frame_store::Places;
use scene_model::Scene;
use units::{Axis, clamp};

/// The places of an axis.
pub fn on_axis(places: &Places, axis: Axis) -> &[i64]
    ensures { result.now ≡ on_axis axis places.now }
{
    match axis {
        Axis::X => places.x.as_slice(),
        Axis::Y => places.y.as_slice(),
    }
}

/// The clamped place of the shape of this number.
#[tactic(auto, using(crate::proofs::Ranges::placed_on))]
pub fn low_at(scene: &Scene, places: &Places, axis: Axis, shape: u16) -> i64
    requires placed { HasPlaces scene.now places.now }
    requires stands { shape < length scene.now.shapes }
    ensures value { result ≡ low_at axis places.now shape }
    ensures near { nat_abs result ≤ 1000000 }
{
    clamp(on_axis(places, axis)[shape as usize])
}

/// The width or height of the shape of this number.
pub fn size_at(scene: &Scene, axis: Axis, shape: u16) -> i64
    requires { shape < length scene.now.shapes }
    ensures value { result ≡ size_at axis (slice_get scene.now.shapes shape) }
    ensures low { pos 1 ≤ℤ result }
    ensures high { result ≤ℤ pos 10000 }
{
    i64::from(scene.shape(shape).size(axis))
}

/// Half of a width or height, rounded down.
fn half(size: i64) -> i64
    requires low { pos 1 ≤ℤ size }
    requires high { size ≤ℤ pos 10000 }
    ensures value { result ≡ half size }
    ensures near { nat_abs result ≤ 5000 }
{
    size / 2
}

/// The mid-point of the shape of this number.
pub fn middle_at(scene: &Scene, places: &Places, axis: Axis, shape: u16) -> i64
    requires placed { HasPlaces scene.now places.now }
    requires stands { shape < length scene.now.shapes }
    ensures value { result ≡ middle_at scene.now axis places.now shape }
    ensures near { nat_abs result ≤ 1005000 }
{
    low_at(scene, places, axis, shape) + half(size_at(scene, axis, shape))
}

/// From the mid-point of one shape to that of another.
pub fn step_at(scene: &Scene, places: &Places, axis: Axis, i: u16, j: u16) -> i64
    requires placed { HasPlaces scene.now places.now }
    requires first { i < length scene.now.shapes }
    requires second { j < length scene.now.shapes }
    ensures value { result ≡ step_at scene.now axis places.now i j }
    ensures near { nat_abs result ≤ 2010000 }
{
    middle_at(scene, places, axis, j) - middle_at(scene, places, axis, i)
}

/// Whether both mid-points lie at one spot.
pub fn coincide(scene: &Scene, places: &Places, i: u16, j: u16) -> bool
    requires placed { HasPlaces scene.now places.now }
    requires first { i < length scene.now.shapes }
    requires second { j < length scene.now.shapes }
    ensures { result ≡ coincide scene.now places.now i j }
{
    let x = step_at(scene, places, Axis::X, i, j);
    let y = step_at(scene, places, Axis::Y, i, j);
    x == 0 && y == 0
}

/// Whether the shape of this number is held.
pub fn is_held(scene: &Scene, shape: u16) -> bool
    requires { shape < length scene.now.shapes }
    ensures { result ≡ is_held_shape (slice_get scene.now.shapes shape) }
{
    scene.shape(shape).held
}
