//! What no clause says: that places are copied, carried and drawn with ample memory.
ghost use Rattle.std.specs.Prelude.{◌≡◌, IfOk, All, length};
ghost use Rattle.multiplier_check.specs.Certificate.{IsNear};
ghost use Rattle.frame_store.specs.Frames.{HasNearPlaces};

use crate::made_scenes::add_box;
use frac128::Frac;
use frame_store::{Desired, Frame, Places, carry, drawn, settled};
use multiplier_check::Certificate;
use scene_model::Scene;
use std::alloc::{AllocError, Global};
use std::test::Fail;
use units::{Axis, Name, Sequence};

fn numbers(alloc: Global, place: i64) -> Result<Sequence<i64>, AllocError>
    ensures { IfOk result (λ list. length list ≡ 1) }
{
    Ok(Sequence::of(vec![in alloc; place]?))
}

/// Whether a copy has these places.
fn is_copied(alloc: Global, places: &Places, x: i64, y: i64) -> Result<bool, Fail> {
    let copy = places.copy(alloc)?;
    Ok(copy.x.as_slice() == [x].as_slice() && copy.y.as_slice() == [y].as_slice())
}

#[test]
fn places_are_copied(rt: HostRuntime) -> Result<(), Fail> {
    let alloc = rt.alloc();
    let places = Places {
        x: numbers(alloc, -5)?,
        y: numbers(alloc, 4)?,
    };
    assert!(rt; is_copied(alloc, &places, -5, 4)?);
    Ok(())
}

/// The certificate of one place, without multipliers.
fn at(alloc: Global, place: Frac) -> Result<Certificate, AllocError>
    requires { IsNear place }
    ensures { IfOk result (λ certificate. All IsNear certificate.places) }
{
    Ok(Certificate {
        places: Sequence::of(vec![in alloc; place]?),
        multipliers: Sequence::new(alloc),
    })
}

/// A frame of one variable on each axis, at these places.
fn frame_at(alloc: Global, x: Frac, y: Frac) -> Result<Frame, AllocError>
    requires x { IsNear x }
    requires y { IsNear y }
    ensures { IfOk result HasNearPlaces }
{
    Ok(Frame {
        desired: Desired {
            x: numbers(alloc, 0)?,
            y: numbers(alloc, 1)?,
        },
        x: at(alloc, x)?,
        y: at(alloc, y)?,
    })
}

/// Whether the frame is drawn at these places, which settles it, and no places don't.
fn is_drawn(alloc: Global, frame: &Frame, x: i64, y: i64) -> Result<bool, Fail>
    requires { HasNearPlaces frame.now }
{
    let places = drawn(alloc, frame)?;
    let none = Places::none(alloc);
    Ok(
        places.x.as_slice() == [x].as_slice()
            && places.y.as_slice() == [y].as_slice()
            && settled(frame, &places)
            && !settled(frame, &none),
    )
}

// The first box of a chain of three stands at -14/3, the last at 16/3: they are drawn at -5 and 5.
#[test]
fn floors_are_drawn(rt: HostRuntime) -> Result<(), Fail> {
    let alloc = rt.alloc();
    let frame = frame_at(alloc, Frac::of(-14, 3), Frac::of(16, 3))?;
    assert!(rt; is_drawn(alloc, &frame, -5, 5)?);
    Ok(())
}

/// Adds a box to both scenes, and one more to the second.
fn fill(before: &mut Scene, after: &mut Scene) -> Result<(), Fail> {
    let first = Name::of(b"a").ok_or("a name")?;
    let second = Name::of(b"b").ok_or("a name")?;
    add_box(before, first, 3, false)?;
    add_box(after, first, 3, false)?;
    add_box(after, second, 20, false)
}

/// The places after a change of the scene, where the one variable of each axis stood at 7 and at -7.
fn carried(alloc: Global, before: &Scene, after: &Scene) -> Result<Places, Fail> {
    if before.vars(Axis::X) != 1 {
        return Err("one variable on x".into());
    }
    if before.vars(Axis::Y) != 1 {
        return Err("one variable on y".into());
    }
    let places = Places {
        x: numbers(alloc, 7)?,
        y: numbers(alloc, -7)?,
    };
    Ok(carry(alloc, before, after, &places)?)
}

/// Whether the box that stood keeps its place, and the new one takes its anchor.
fn are_carried(next: &Places) -> bool {
    next.x.as_slice() == [7, 20].as_slice() && next.y.as_slice() == [-7, 0].as_slice()
}

/// Fills both scenes, and carries places from the first to the second.
fn fill_and_carry(alloc: Global, before: &mut Scene, after: &mut Scene) -> Result<(), Fail> {
    fill(before, after)?;
    let next = carried(alloc, before, after)?;
    if !are_carried(&next) {
        return Err("carried places".into());
    }
    Ok(())
}

#[test]
fn places_are_carried(rt: HostRuntime) -> Result<(), Fail> {
    let alloc = rt.alloc();
    let mut before = Scene::empty(alloc);
    let mut after = Scene::empty(alloc);
    fill_and_carry(alloc, &mut before, &mut after)
}
