//! What no clause says: that with ample memory a table is made, and what it is of a chain of 62 shapes and a triangle.
ghost use Rattle.std.specs.Prelude.{◌≡◌, ◌<◌, length};

use crate::made_scenes::{add_box, add_link};
use hop_graph::{HopTable, hops};
use scene_model::{Link, Scene, Sort};
use std::alloc::Global;
use std::test::Fail;
use units::Name;

/// A name of a letter and two digits.
fn named(letter: u8, number: u8) -> Result<Name, Fail>
    requires { number < 100 }
{
    Ok(Name::of(&[letter, b'0' + number / 10, b'0' + number % 10]).ok_or("a name")?)
}

/// Links two boxes of the chain.
fn join(scene: &mut Scene, letter: u8, from: u8, to: u8) -> Result<(), Fail>
    requires from { from < 100 }
    requires to { to < 100 }
{
    add_link(
        scene,
        Link {
            name: named(letter, from)?,
            a: named(b's', from)?,
            b: named(b's', to)?,
        },
    )
}

/// A chain of 62 boxes, of which the first two are linked twice, in both directions; and three that are linked round.
fn chain(scene: &mut Scene) -> Result<(), Fail> {
    for number in 0..65u8 {
        add_box(scene, named(b's', number)?, 0, false)?;
    }
    for number in 0..61u8 {
        join(scene, b'l', number, number + 1)?;
    }
    join(scene, b'm', 1, 0)?;
    join(scene, b't', 62, 63)?;
    join(scene, b't', 63, 64)?;
    join(scene, b't', 64, 62)
}

/// The hop distance of two shapes of the table.
fn told(table: &HopTable, scene: &Scene, i: u16, j: u16) -> Option<u8>
    requires { length table.now ≡ length scene.now.shapes }
{
    if i >= scene.count(Sort::Shape) || j >= scene.count(Sort::Shape) {
        return None;
    }
    table.get(i, j)
}

/// Whether the table tells the distances along the chain, up to 60, and round the triangle.
fn is_chain_told(scene: &Scene, alloc: Global) -> Result<bool, Fail> {
    let table = hops(alloc, scene)?;
    Ok(
        told(&table, scene, 0, 0) == Some(0)
            && told(&table, scene, 0, 1) == Some(1)
            && told(&table, scene, 0, 60) == Some(60)
            && told(&table, scene, 0, 61).is_none()
            && told(&table, scene, 61, 1) == Some(60)
            && told(&table, scene, 30, 62).is_none()
            && told(&table, scene, 62, 63) == Some(1)
            && told(&table, scene, 62, 64) == Some(1),
    )
}

/// Makes the chain and looks at its table.
fn fill_and_tell(scene: &mut Scene, alloc: Global) -> Result<(), Fail> {
    chain(scene)?;
    if !is_chain_told(scene, alloc)? {
        return Err("distances".into());
    }
    Ok(())
}

#[test]
fn a_chain_of_62_shapes(rt: HostRuntime) -> Result<(), Fail> {
    let mut scene = Scene::empty(rt.alloc());
    fill_and_tell(&mut scene, rt.alloc())
}
