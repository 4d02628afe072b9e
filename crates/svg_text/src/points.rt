//! Where items are drawn.
ghost use Rattle.std.specs.Prelude.{◌≡◌, ◌≤◌, ◌^◌, All, nat_abs};
ghost use Rattle.scene_model.specs.Names.{along};
ghost use Rattle.scene_model.specs.Sound.{IsExtent, IsShape};
ghost use Rattle.scene_model.specs.Variables.{half};
ghost use Rattle.svg_text.specs.Points.{AreNear, IsNear, IsWide, drawn_at, edge_span, middle, middle_of, place_among, place_of, shape_named, shape_span};

use crate::spans::Span;
use frame_store::Places;
use scene_model::{Item, Scene, Shape, Sort, VariableName};
use units::{Axis, Name, Pt};

/// The place of the variable of this name, among those of the axis.
#[tactic(auto, unfolding(crate::specs::Points::place_among))]
fn place_among(scene: &Scene, axis: Axis, places: &[i64], name: &VariableName) -> i64
    requires { All IsNear places.now }
    ensures value { result ≡ place_among scene.now axis places.now name.now }
    ensures near { IsNear result }
{
    let Some(number) = scene.variable_number(axis, name) else {
        return 0;
    };
    let at = usize::from(number);
    if at >= places.len() {
        return 0;
    }
    places[at]
}

/// The place on the axis of the variable of this name.
pub fn place(scene: &Scene, axis: Axis, places: &Places, name: &VariableName) -> i64
    requires { AreNear places.now }
    ensures value { result ≡ place_of scene.now axis places.now name.now }
    ensures near { IsNear result }
{
    match axis {
        Axis::X => place_among(scene, axis, places.x.as_slice(), name),
        Axis::Y => place_among(scene, axis, places.y.as_slice(), name),
    }
}

/// The part of the axis from `low` on, so long.
fn span_from(low: i64, size: i32) -> Span
    requires low { IsNear low }
    requires size { IsExtent size }
    ensures value { result ≡ drawn_at low size }
    ensures wide { IsWide result }
{
    Span {
        low,
        high: low + i64::from(size),
    }
}

/// The part of the axis that a shape takes.
pub fn shape_span(scene: &Scene, axis: Axis, places: &Places, shape: &Shape) -> Span
    requires near { AreNear places.now }
    requires shape { IsShape shape.now }
    ensures value { result ≡ shape_span scene.now axis places.now shape.now }
    ensures wide { IsWide result }
{
    let low = place(scene, axis, places, &VariableName::OfItem(shape.name));
    span_from(low, shape.size(axis))
}

/// The part of the axis between the edges of the group or page of this name.
pub fn edge_span(scene: &Scene, axis: Axis, places: &Places, name: &Name) -> Span
    requires { AreNear places.now }
    ensures value { result ≡ edge_span scene.now axis places.now name.now }
    ensures wide { IsWide result }
{
    Span {
        low: place(scene, axis, places, &VariableName::LowEdge(*name)),
        high: place(scene, axis, places, &VariableName::HighEdge(*name)),
    }
}

/// Half a size, rounded down.
pub fn half(size: i32) -> i64
    ensures value { result ≡ half size }
    ensures small { nat_abs result ≤ 2 ^ 31 }
{
    i64::from(size) / 2
}

/// The middle of a shape on the axis.
pub fn middle(scene: &Scene, axis: Axis, places: &Places, shape: &Shape) -> i64
    requires near { AreNear places.now }
    requires shape { IsShape shape.now }
    ensures { result ≡ middle scene.now axis places.now shape.now }
{
    let low = place(scene, axis, places, &VariableName::OfItem(shape.name));
    low + half(shape.size(axis))
}

/// The middle of a shape.
pub fn middle_of(scene: &Scene, places: &Places, shape: &Shape) -> Pt
    requires near { AreNear places.now }
    requires shape { IsShape shape.now }
    ensures { result ≡ middle_of scene.now places.now shape.now }
{
    Pt {
        x: middle(scene, Axis::X, places, shape),
        y: middle(scene, Axis::Y, places, shape),
    }
}
