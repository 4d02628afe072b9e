//! What no clause says: that with ample memory items are added and put back, and a scene is copied.
ghost use Rattle.std.specs.Prelude.{◌≡◌};
ghost use Rattle.scene_model.specs.Sound.{IsShape, IsGuide, IsCoordinate};

use crate::made_scenes::{add, add_guide, add_link, named};
use scene_model::{Form, Guide, Link, Scene, Shape, Sort, Thing};
use std::alloc::Global;
use std::test::Fail;
use units::{Axis, Name};

/// A shape whose numbers lie at the ends of their ranges.
fn shape(name: Name, held: bool) -> Shape
    ensures { IsShape result }
{
    Shape {
        name,
        form: Form::Box,
        x: -1_000_000,
        y: 1_000_000,
        w: 1,
        h: 10_000,
        held,
        moves: 3,
    }
}

/// A held shape whose numbers all differ.
fn held_shape(name: Name) -> Shape
    ensures { IsShape result }
{
    Shape {
        name,
        form: Form::Box,
        x: -5,
        y: 7,
        w: 10,
        h: 20,
        held: true,
        moves: 3,
    }
}

fn guide_at(name: Name, axis: Axis, at: i32) -> Guide
    requires { IsCoordinate at }
    ensures { IsGuide result }
{
    Guide {
        name,
        axis,
        at,
        moves: 2,
    }
}

/// A guideline at the end of its range.
fn guide(name: Name, axis: Axis) -> Guide
    ensures { IsGuide result }
{
    guide_at(name, axis, -1_000_000)
}

/// Puts a shape in the place of the one of its name, which stands.
fn set_shape(scene: &mut Scene, shape: Shape) -> Result<(), Fail>
    requires { IsShape shape }
{
    let item = scene.lookup(&shape.name).ok_or("it stands")?;
    // Asked for what its type keeps, which the proof needs.
    let _shapes = scene.count(Sort::Shape);
    match item.sort {
        Sort::Shape => scene.set(Thing::Shape(shape)),
        _ => return Err("a shape".into()),
    }
    Ok(())
}

/// Takes an item out, which stands and which no item uses, and puts it back where it was.
fn take_and_put_back(scene: &mut Scene, name: Name) -> Result<(), Fail> {
    let _item = scene.lookup(&name).ok_or("it stands")?;
    if scene.user_of(&name).is_some() {
        return Err("no item uses it".into());
    }
    // Asked for what its type keeps, which the proof needs.
    let _shapes = scene.count(Sort::Shape);
    let (at, thing) = scene.take(&name);
    if at > scene.count(thing.sort()) {
        return Err("a place among its sort".into());
    }
    scene.put_back(at, thing)?;
    Ok(())
}

/// Whether the shape of this number stands, and is this one.
fn has_shape(scene: &Scene, at: u16, shape: &Shape) -> bool {
    at < scene.count(Sort::Shape) && *scene.shape(at) == *shape
}

/// Whether these three shapes stand alone, in this order.
fn has_shapes(scene: &Scene, first: &Shape, second: &Shape, third: &Shape) -> bool {
    scene.count(Sort::Shape) == 3
        && has_shape(scene, 0, first)
        && has_shape(scene, 1, second)
        && has_shape(scene, 2, third)
}

/// Whether the guideline stands as the first.
fn has_guide(scene: &Scene, guide: &Guide) -> bool {
    scene.count(Sort::Guide) > 0 && *scene.guide(0) == *guide
}

/// Whether the link stands as the first.
fn has_link(scene: &Scene, link: &Link) -> bool {
    scene.count(Sort::Link) > 0 && *scene.link(0) == *link
}

/// Adds two shapes, a guideline and a link.
fn fill(scene: &mut Scene) -> Result<(), Fail> {
    add(scene, shape(named(b"a")?, false))?;
    add(scene, shape(named(b"b_2")?, true))?;
    add_guide(scene, guide(named(b"across")?, Axis::X))?;
    add_link(scene, joined()?)
}

fn joined() -> Result<Link, Fail> {
    Ok(Link {
        name: named(b"joined")?,
        a: named(b"b_2")?,
        b: named(b"a")?,
    })
}

/// Whether what `fill` adds stands, in its order.
fn is_filled(scene: &Scene) -> Result<bool, Fail> {
    Ok(
        has_shape(scene, 0, &shape(named(b"a")?, false))
            && has_shape(scene, 1, &shape(named(b"b_2")?, true))
            && has_guide(scene, &guide(named(b"across")?, Axis::X))
            && has_link(scene, &joined()?),
    )
}

/// Whether what `fill` adds stands in a copy.
fn is_copied(scene: &Scene, alloc: Global) -> Result<bool, Fail> {
    let copy = scene.copy(alloc)?;
    is_filled(&copy)
}

/// Adds items; they stand, and do in a copy.
fn add_and_copy(scene: &mut Scene, alloc: Global) -> Result<(), Fail> {
    fill(scene)?;
    if !is_filled(scene)? {
        return Err("what was added stands".into());
    }
    if !is_copied(scene, alloc)? {
        return Err("it stands in a copy".into());
    }
    Ok(())
}

#[test]
fn items_are_added_and_copied(rt: HostRuntime) -> Result<(), Fail> {
    let mut scene = Scene::empty(rt.alloc());
    add_and_copy(&mut scene, rt.alloc())
}

/// Adds 16 shapes, whose names begin with this letter.
fn add_sixteen(scene: &mut Scene, first: u8) -> Result<(), Fail> {
    for second in b"abcdefghijklmnop" {
        let name = named(&[first, *second])?;
        add(scene, shape(name, false))?;
    }
    Ok(())
}

/// Adds 8 times 16 shapes, as many as a scene may have.
fn fill_up(scene: &mut Scene) -> Result<(), Fail> {
    for first in b"abcdefgh" {
        add_sixteen(scene, *first)?;
    }
    Ok(())
}

/// Whether the scene is full, with the last shape of `fill_up` as its last.
fn is_full(scene: &Scene) -> Result<bool, Fail> {
    let last = shape(named(b"hp")?, false);
    Ok(scene.count(Sort::Shape) == 128 && has_shape(scene, 127, &last))
}

fn is_full_copied(scene: &Scene, alloc: Global) -> Result<bool, Fail> {
    let copy = scene.copy(alloc)?;
    is_full(&copy)
}

/// Fills the scene; a copy is full.
fn fill_up_and_copy(scene: &mut Scene, alloc: Global) -> Result<(), Fail> {
    fill_up(scene)?;
    if !is_full_copied(scene, alloc)? {
        return Err("a copy is full".into());
    }
    Ok(())
}

#[test]
fn a_full_scene_is_copied(rt: HostRuntime) -> Result<(), Fail> {
    let mut scene = Scene::empty(rt.alloc());
    fill_up_and_copy(&mut scene, rt.alloc())
}

/// Adds three shapes.
fn add_three(scene: &mut Scene, first: Shape, second: Shape, third: Shape) -> Result<(), Fail>
    requires first { IsShape first }
    requires second { IsShape second }
    requires third { IsShape third }
{
    add(scene, first)?;
    add(scene, second)?;
    add(scene, third)
}

/// Takes the shape of this name out and puts it back; the three shapes stand as before.
fn take_and_compare(
    scene: &mut Scene,
    name: Name,
    first: &Shape,
    second: &Shape,
    third: &Shape,
) -> Result<(), Fail> {
    take_and_put_back(scene, name)?;
    if !has_shapes(scene, first, second, third) {
        return Err("the shapes as before".into());
    }
    Ok(())
}

/// Adds three shapes, sets the second, and takes out and puts back each.
fn set_and_put_back(scene: &mut Scene) -> Result<(), Fail> {
    let first = shape(named(b"a")?, false);
    let second = shape(named(b"b")?, false);
    let third = shape(named(b"c")?, false);
    let held = shape(second.name, true);
    add_three(scene, first, second, third)?;
    set_shape(scene, held)?;
    take_and_compare(scene, first.name, &first, &held, &third)?;
    take_and_compare(scene, second.name, &first, &held, &third)?;
    take_and_compare(scene, third.name, &first, &held, &third)
}

#[test]
fn shapes_are_set_and_put_back(rt: HostRuntime) -> Result<(), Fail> {
    let mut scene = Scene::empty(rt.alloc());
    set_and_put_back(&mut scene)
}

/// The number, weight and anchor of the variable of an item.
fn variable_of(scene: &Scene, axis: Axis, name: &Name) -> Option<(u16, u32, i64)> {
    let item = scene.lookup(name)?;
    let var = scene.var_of(axis, item, false)?;
    Some((var, scene.weight(axis, var), scene.anchor(axis, var)))
}

/// Whether the item's variable has this number, weight and anchor.
fn has_variable(scene: &Scene, axis: Axis, name: &[u8], wanted: (u16, u32, i64)) -> bool {
    match Name::of(name) {
        Some(name) => variable_of(scene, axis, &name) == Some(wanted),
        None => false,
    }
}

fn has_no_variable(scene: &Scene, axis: Axis, name: &[u8]) -> bool {
    match Name::of(name) {
        Some(name) => variable_of(scene, axis, &name).is_none(),
        None => false,
    }
}

/// Adds a held shape, and a guideline of each axis.
fn place(scene: &mut Scene) -> Result<(), Fail> {
    add(scene, held_shape(named(b"a")?))?;
    add_guide(scene, guide_at(named(b"across")?, Axis::X, 40))?;
    add_guide(scene, guide_at(named(b"down")?, Axis::Y, 50))
}

/// Whether the variables of what `place` adds are right; a guideline of the other axis has none.
fn has_variables_of_x(scene: &Scene) -> bool {
    scene.vars(Axis::X) == 2
        && has_variable(scene, Axis::X, b"a", (0, 1000, -5))
        && has_variable(scene, Axis::X, b"across", (1, 1, 40))
        && has_no_variable(scene, Axis::X, b"down")
}

fn has_variables_of_y(scene: &Scene) -> bool {
    scene.vars(Axis::Y) == 2
        && has_variable(scene, Axis::Y, b"a", (0, 1000, 7))
        && has_variable(scene, Axis::Y, b"down", (1, 1, 50))
        && has_no_variable(scene, Axis::Y, b"across")
}

/// Adds a held shape and guidelines; their variables are found on both axes.
fn find_variables(scene: &mut Scene) -> Result<(), Fail> {
    place(scene)?;
    if !has_variables_of_x(scene) {
        return Err("the variables of X".into());
    }
    if !has_variables_of_y(scene) {
        return Err("the variables of Y".into());
    }
    Ok(())
}

#[test]
fn variables_are_found(rt: HostRuntime) -> Result<(), Fail> {
    let mut scene = Scene::empty(rt.alloc());
    find_variables(&mut scene)
}
