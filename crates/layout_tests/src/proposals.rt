//! What no clause says: that with ample memory a proposal is made, and what it is at known scenes.
ghost use Rattle.std.specs.Prelude.{◌≡◌, IfOk, length};
ghost use Rattle.scene_model.specs.Sound.{IsCoordinate, IsPage};

use crate::made_scenes::{add_box, add_guide, add_link, named};
use frame_store::{Desired, Places};
use hop_graph::hops;
use scene_model::{Guide, Link, Page, Scene, Sort, Thing};
use std::alloc::{AllocError, Global};
use std::test::Fail;
use stress_step::{propose, stress};
use units::{Axis, Name, Sequence};

/// Adds a page of 120 by 80 at (-20, 0), which has a new name; no page stands.
fn add_page(scene: &mut Scene, name: Name) -> Result<(), Fail> {
    if scene.lookup(&name).is_some() {
        return Err("a new name".into());
    }
    if scene.count(Sort::Page) >= 1 {
        return Err("room".into());
    }
    scene.add(Thing::Page(Page {
        name,
        x: -20,
        y: 0,
        w: 120,
        h: 80,
        margin: 0,
        rigid: false,
    }))?;
    Ok(())
}

/// Adds two boxes of 10 by 10 with a link, the first at (0, 0), held or not, the second at (x, 0).
fn add_pair(scene: &mut Scene, x: i32, held: bool) -> Result<(), Fail>
    requires { IsCoordinate x }
{
    let (first, second) = (named(b"a")?, named(b"b")?);
    add_box(scene, first, 0, held)?;
    add_box(scene, second, x, false)?;
    add_link(
        scene,
        Link {
            name: named(b"l")?,
            a: first,
            b: second,
        },
    )
}

/// Places of the pair on X, both at 0 on Y.
fn pair_at(alloc: Global, first: i64, second: i64) -> Result<Places, AllocError>
    ensures { IfOk result (λ places. (length places.x ≡ 2) × (length places.y ≡ 2)) }
{
    Ok(Places {
        x: Sequence::of(vec![in alloc; first, second]?),
        y: Sequence::of(vec![in alloc; 0, 0]?),
    })
}

/// The stress of the pair.
fn pair_stress(alloc: Global, scene: &Scene, first: i64, second: i64) -> Result<u128, Fail> {
    if scene.vars(Axis::X) != 2 || scene.vars(Axis::Y) != 2 {
        return Err("two variables".into());
    }
    let places = pair_at(alloc, first, second)?;
    let table = hops(alloc, scene)?;
    Ok(stress(scene, &places, &table))
}

/// The proposal for the pair.
fn pair_proposal(alloc: Global, scene: &Scene, first: i64, second: i64) -> Result<Desired, Fail> {
    if scene.vars(Axis::X) != 2 || scene.vars(Axis::Y) != 2 {
        return Err("two variables".into());
    }
    let places = pair_at(alloc, first, second)?;
    Ok(propose(alloc, scene, &places)?)
}

/// Whether the proposal is for these places on X, and for 0 on Y.
fn is_proposed(
    alloc: Global,
    scene: &Scene,
    from: (i64, i64),
    to: (i64, i64),
) -> Result<bool, Fail> {
    let next = pair_proposal(alloc, scene, from.0, from.1)?;
    Ok(next.x.as_slice() == [to.0, to.1].as_slice() && next.y.as_slice() == [0, 0].as_slice())
}

/// Two boxes that are 200 apart come to be 100 apart.
fn move_linked(alloc: Global, scene: &mut Scene) -> Result<(), Fail> {
    add_pair(scene, 200, false)?;
    if pair_stress(alloc, scene, 0, 200)? != 36_000_000 {
        return Err("stress".into());
    }
    if pair_stress(alloc, scene, 50, 150)? != 0 {
        return Err("no stress".into());
    }
    if !is_proposed(alloc, scene, (0, 200), (50, 150))? {
        return Err("proposal".into());
    }
    Ok(())
}

#[test]
fn a_linked_pair(rt: HostRuntime) -> Result<(), Fail> {
    let mut scene = Scene::empty(rt.alloc());
    move_linked(rt.alloc(), &mut scene)
}

/// A held box stays, and its partner moves half of the way to the ideal distance.
fn move_to_held(alloc: Global, scene: &mut Scene) -> Result<(), Fail> {
    add_pair(scene, 200, true)?;
    if !is_proposed(alloc, scene, (0, 200), (0, 150))? {
        return Err("proposal".into());
    }
    Ok(())
}

#[test]
fn a_held_partner(rt: HostRuntime) -> Result<(), Fail> {
    let mut scene = Scene::empty(rt.alloc());
    move_to_held(rt.alloc(), &mut scene)
}

/// Two boxes at one spot come apart along X.
fn move_coincident(alloc: Global, scene: &mut Scene) -> Result<(), Fail> {
    add_pair(scene, 0, false)?;
    if !is_proposed(alloc, scene, (0, 0), (-49, 49))? {
        return Err("proposal".into());
    }
    Ok(())
}

#[test]
fn a_coincident_pair(rt: HostRuntime) -> Result<(), Fail> {
    let mut scene = Scene::empty(rt.alloc());
    move_coincident(rt.alloc(), &mut scene)
}

/// Adds a box at (-10, 0), a guideline on X and a page.
fn add_others(scene: &mut Scene) -> Result<(), Fail> {
    add_box(scene, named(b"a")?, -10, false)?;
    let guide = Guide {
        name: named(b"g")?,
        axis: Axis::X,
        at: 7,
        moves: 0,
    };
    add_guide(scene, guide)?;
    add_page(scene, named(b"p")?)
}

/// The proposal where the box, the guideline and the page stand.
fn others_proposal(alloc: Global, scene: &Scene) -> Result<Desired, Fail> {
    if scene.vars(Axis::X) != 4 || scene.vars(Axis::Y) != 3 {
        return Err("variables".into());
    }
    let places = Places {
        x: Sequence::of(vec![in alloc; -10, 1_500_000, 3, 4]?),
        y: Sequence::of(vec![in alloc; -2_000_000, 5, 6]?),
    };
    Ok(propose(alloc, scene, &places)?)
}

/// Box and guideline stay at their clamped places, the edges of the page go where they were declared.
fn move_others(alloc: Global, scene: &mut Scene) -> Result<(), Fail> {
    add_others(scene)?;
    let next = others_proposal(alloc, scene)?;
    if next.x.as_slice() != [-10, 1_000_000, -20, 100].as_slice() {
        return Err("proposal on x".into());
    }
    if next.y.as_slice() != [-1_000_000, 0, 80].as_slice() {
        return Err("proposal on y".into());
    }
    Ok(())
}

#[test]
fn other_variables(rt: HostRuntime) -> Result<(), Fail> {
    let mut scene = Scene::empty(rt.alloc());
    move_others(rt.alloc(), &mut scene)
}
