//! What the tests are made of: scenes, item by item. What can't be added is told.
ghost use Rattle.std.specs.Prelude.{◌≡◌};
ghost use Rattle.scene_model.specs.Sound.{IsCoordinate, IsGuide, IsShape};

use scene_model::{Compound, Form, Guide, Link, Rule, Scene, Shape, Sort, Thing, Wanted};
use std::test::Fail;
use units::{Axis, Name};

pub fn named(bytes: &[u8]) -> Result<Name, Fail> {
    Ok(Name::of(bytes).ok_or("a name")?)
}

/// A box of 10 by 10 at (x, 0).
pub fn a_box(name: Name, x: i32, held: bool) -> Shape
    requires { IsCoordinate x }
    ensures { IsShape result }
{
    Shape {
        name,
        form: Form::Box,
        x,
        y: 0,
        w: 10,
        h: 10,
        held,
        moves: 0,
    }
}

/// Adds a shape, which has a new name and for which there is room.
pub fn add(scene: &mut Scene, shape: Shape) -> Result<(), Fail>
    requires { IsShape shape }
{
    if scene.lookup(&shape.name).is_some() {
        return Err("a new name".into());
    }
    if scene.count(Sort::Shape) >= 128 {
        return Err("room".into());
    }
    scene.add(Thing::Shape(shape))?;
    Ok(())
}

/// Adds a box of 10 by 10 at (x, 0), which has a new name and for which there is room.
pub fn add_box(scene: &mut Scene, name: Name, x: i32, held: bool) -> Result<(), Fail>
    requires { IsCoordinate x }
{
    add(scene, a_box(name, x, held))
}

/// Adds a guideline, which has a new name and for which there is room.
pub fn add_guide(scene: &mut Scene, guide: Guide) -> Result<(), Fail>
    requires { IsGuide guide }
{
    if scene.lookup(&guide.name).is_some() {
        return Err("a new name".into());
    }
    if scene.count(Sort::Guide) >= 64 {
        return Err("room".into());
    }
    scene.add(Thing::Guide(guide))?;
    Ok(())
}

/// Adds a link between two shapes that stand; it has a new name, and there is room for it.
pub fn add_link(scene: &mut Scene, link: Link) -> Result<(), Fail> {
    if scene.lookup(&link.name).is_some() {
        return Err("a new name".into());
    }
    if scene.count(Sort::Link) >= 256 {
        return Err("room".into());
    }
    if link.a == link.b {
        return Err("two names".into());
    }
    if !scene.stands_as(Wanted::Shape, &link.a) {
        return Err("a shape".into());
    }
    if !scene.stands_as(Wanted::Shape, &link.b) {
        return Err("a shape".into());
    }
    scene.add(Thing::Link(link))?;
    Ok(())
}

/// Sets b at least the gap behind a on X. The compound has a new name, there is room for it, and a and b stand.
pub fn add_apart(scene: &mut Scene, name: Name, a: Name, b: Name, gap: i32) -> Result<(), Fail>
    requires { IsCoordinate gap }
{
    if scene.lookup(&name).is_some() {
        return Err("a new name".into());
    }
    if scene.count(Sort::Compound) >= 128 {
        return Err("room".into());
    }
    if a == b {
        return Err("two names".into());
    }
    if !scene.stands_as(Wanted::Placed(Axis::X), &a) {
        return Err("a shape".into());
    }
    if !scene.stands_as(Wanted::Placed(Axis::X), &b) {
        return Err("a shape".into());
    }
    let rule = Rule::Apart {
        axis: Axis::X,
        a,
        b,
        gap,
        exact: false,
    };
    scene.add(Thing::Compound(Compound { name, rule }))?;
    Ok(())
}

/// Adds a box a at 0, held or not, and a box b at 4, and sets b at least 20 behind a.
pub fn add_two_apart(scene: &mut Scene, held: bool) -> Result<(), Fail> {
    let a = named(b"a")?;
    let b = named(b"b")?;
    add_box(scene, a, 0, held)?;
    add_box(scene, b, 4, false)?;
    add_apart(scene, named(b"s")?, a, b, 20)
}
