//! The corners of a new group.
ghost use Rattle.std.specs.Int.{int_min, int_max};
ghost use Rattle.std.specs.List.{list_any};
ghost use Rattle.std.specs.Option.{option_map_or};
ghost use Rattle.std.specs.Prelude.{◌≡◌, ◌≤◌, ℤ, List, Some, map, nat_abs, IfSome, if◌then◌else◌};
ghost use Rattle.units.specs.declared.geometry.Axis.{Axis as AxisValue};
ghost use Rattle.scene_model.specs.declared.items.Shape.{Shape as ShapeValue};
ghost use Rattle.scene_model.specs.Names.{NameOf, same_name};
ghost use Rattle.scene_model.specs.Diagram.{Diagram};
ghost use Rattle.scene_model.specs.Sound.{IsShape};
ghost use Rattle.scene_model.specs.Variables.{low, high};
ghost use Rattle.edit_rules.specs.Corners.{IsMember, IsLowCorner, IsHighCorner};
ghost use Rattle.edit_rules.specs.Effects.{least, greatest, member_shapes, low_corner, high_corner, group_around};

use scene_model::{Group, Scene, Shape, Sort, is_among};
use std::cmp::{max, min};
use units::{Axis, Members, Name, Pt};

/// Where a shape is a member of a new group, the corners of the group lie the pad around its members as they are
/// declared: before the low edge of one of them, and behind the high edge of one, and none reaches further.
pub fn corner_law()
    ensures low { (d : Diagram) (members : List NameOf) (pad : ℤ) (axis : AxisValue) (s : ShapeValue)
        → IsMember d members s → IsLowCorner d members pad axis (low_corner d members pad axis) }
    ensures high { (d : Diagram) (members : List NameOf) (pad : ℤ) (axis : AxisValue) (s : ShapeValue)
        → IsMember d members s → IsHighCorner d members pad axis (high_corner d members pad axis) }
{}

/// The group around these members, as they are declared now.
pub fn group_around(scene: &Scene, name: Name, pad: i32, members: Members) -> Group
    ensures { result ≡ group_around scene.now name pad members }
{
    let names = members.list();
    let low = Pt {
        x: low_corner(scene, names, pad, Axis::X),
        y: low_corner(scene, names, pad, Axis::Y),
    };
    let high = Pt {
        x: high_corner(scene, names, pad, Axis::X),
        y: high_corner(scene, names, pad, Axis::Y),
    };
    Group {
        name,
        pad,
        members,
        low,
        high,
    }
}

fn low_corner(scene: &Scene, members: &[Name], pad: i32, axis: Axis) -> i64
    ensures { result ≡ low_corner scene.now members.now pad axis }
{
    least_low(scene, members, axis).unwrap_or(0) - i64::from(pad)
}

fn high_corner(scene: &Scene, members: &[Name], pad: i32, axis: Axis) -> i64
    ensures { result ≡ high_corner scene.now members.now pad axis }
{
    greatest_high(scene, members, axis).unwrap_or(0) + i64::from(pad)
}

/// The least low edge of the members, if one stands.
fn least_low(scene: &Scene, members: &[Name], axis: Axis) -> Option<i64>
    ensures value { result ≡ least (map (low axis) (member_shapes scene.now members.now)) }
    ensures near { IfSome result (λ z. nat_abs z ≤ 1010000) }
{
    let mut least = None;
    for at in 0..scene.count(Sort::Shape) {
        least = least_with(least, members, scene.shape(at), axis);
    }
    least
}

/// The least low edge so far and that of one more shape, if it is a member.
fn least_with(least: Option<i64>, members: &[Name], shape: &Shape, axis: Axis) -> Option<i64>
    requires { IsShape shape.now }
    ensures { result ≡ (if list_any (same_name shape.now.name) members.now then Some (option_map_or (int_min (low axis shape.now)) least (low axis shape.now)) else least) }
{
    if is_among(members, &shape.name) {
        Some(lesser(least, i64::from(shape.low(axis))))
    } else {
        least
    }
}

/// The greatest high edge of the members, if one stands.
fn greatest_high(scene: &Scene, members: &[Name], axis: Axis) -> Option<i64>
    ensures value { result ≡ greatest (map (high axis) (member_shapes scene.now members.now)) }
    ensures near { IfSome result (λ z. nat_abs z ≤ 1010000) }
{
    let mut greatest = None;
    for at in 0..scene.count(Sort::Shape) {
        greatest = greatest_with(greatest, members, scene.shape(at), axis);
    }
    greatest
}

/// The greatest high edge so far and that of one more shape, if it is a member.
fn greatest_with(greatest: Option<i64>, members: &[Name], shape: &Shape, axis: Axis) -> Option<i64>
    requires { IsShape shape.now }
    ensures { result ≡ (if list_any (same_name shape.now.name) members.now then Some (option_map_or (int_max (high axis shape.now)) greatest (high axis shape.now)) else greatest) }
{
    if is_among(members, &shape.name) {
        Some(greater(greatest, shape.high(axis)))
    } else {
        greatest
    }
}

fn lesser(least: Option<i64>, edge: i64) -> i64
    ensures { result ≡ option_map_or (int_min edge) least edge }
{
    match least {
        Some(other) => min(edge, other),
        None => edge,
    }
}

fn greater(greatest: Option<i64>, edge: i64) -> i64
    ensures { result ≡ option_map_or (int_max edge) greatest edge }
{
    match greatest {
        Some(other) => max(edge, other),
        None => edge,
    }
}
