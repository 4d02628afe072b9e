//! The bounds of the picture.
ghost use Rattle.std.specs.Prelude.{◌≡◌, ◌≤◌, ◌^◌, IfSome, nat_abs};
ghost use Rattle.std.specs.Int.{int_max, int_min};
ghost use Rattle.svg_text.specs.Picture.{hull, shapes_span, shown, widened};
ghost use Rattle.svg_text.specs.Points.{AreNear, IsVeryWide, IsWide};
ghost use Rattle.svg_text.specs.Steps.{over_groups, over_page};

use crate::points::{edge_span, shape_span};
use crate::spans::Span;
use frame_store::Places;
use scene_model::{Scene, Sort};
use units::Axis;

fn lesser(a: i64, b: i64) -> i64
    requires a { nat_abs a ≤ 2 ^ 32 }
    requires b { nat_abs b ≤ 2 ^ 32 }
    ensures value { result ≡ int_min a b }
    ensures within { nat_abs result ≤ 2 ^ 32 }
{
    if a <= b { a } else { b }
}

fn greater(a: i64, b: i64) -> i64
    requires a { nat_abs a ≤ 2 ^ 32 }
    requires b { nat_abs b ≤ 2 ^ 32 }
    ensures value { result ≡ int_max a b }
    ensures within { nat_abs result ≤ 2 ^ 32 }
{
    if a <= b { b } else { a }
}

/// The least span that has both, where there is a first.
fn hull(so_far: Option<Span>, span: Span) -> Option<Span>
    requires so_far { IfSome so_far IsWide }
    requires span { IsWide span }
    ensures value { result ≡ hull so_far span }
    ensures wide { IfSome result IsWide }
{
    match so_far {
        None => Some(span),
        Some(other) => Some(Span {
            low: lesser(other.low, span.low),
            high: greater(other.high, span.high),
        }),
    }
}

/// The part of an axis that the shapes take, from the least low place of one to the greatest high place of one: None exactly
/// where there is no shape. Places lie within 2^31 of 0.
pub fn shapes_span(scene: &Scene, axis: Axis, places: &Places) -> Option<Span>
    requires { AreNear places.now }
    ensures value { result ≡ shapes_span scene.now axis places.now }
    ensures wide { IfSome result IsWide }
{
    let mut so_far = None;
    for at in 0..scene.count(Sort::Shape) {
        so_far = hull(so_far, shape_span(scene, axis, places, scene.shape(at)));
    }
    so_far
}

/// The least span that has the groups too.
fn over_groups(scene: &Scene, axis: Axis, places: &Places) -> Option<Span>
    requires { AreNear places.now }
    ensures value { result ≡ over_groups scene.now axis places.now }
    ensures wide { IfSome result IsWide }
{
    let mut so_far = shapes_span(scene, axis, places);
    for at in 0..scene.count(Sort::Group) {
        so_far = hull(
            so_far,
            edge_span(scene, axis, places, &scene.group(at).name),
        );
    }
    so_far
}

/// The least span that has the page too.
fn over_page(scene: &Scene, axis: Axis, places: &Places) -> Option<Span>
    requires { AreNear places.now }
    ensures value { result ≡ over_page scene.now axis places.now }
    ensures wide { IfSome result IsWide }
{
    let so_far = over_groups(scene, axis, places);
    match scene.page() {
        Some(page) => hull(so_far, edge_span(scene, axis, places, &page.name)),
        None => so_far,
    }
}

/// Wider by 10 at both ends.
fn widened(bounds: Span) -> Span
    requires { IsWide bounds }
    ensures value { result ≡ widened bounds }
    ensures fits { IsVeryWide result }
{
    Span {
        low: bounds.low - 10,
        high: bounds.high + 10,
    }
}

/// The part of the axis that the picture shows.
#[tactic(auto, using(crate::proofs::Hulls::over_all), unfolding(crate::specs::Picture::shown))]
pub fn shown(scene: &Scene, axis: Axis, places: &Places) -> Span
    requires { AreNear places.now }
    ensures value { result ≡ shown scene.now axis places.now }
    ensures fits { IsVeryWide result }
{
    match over_page(scene, axis, places) {
        Some(bounds) => widened(bounds),
        None => widened(Span { low: 0, high: 0 }),
    }
}
