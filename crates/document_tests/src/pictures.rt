//! What no clause says: that with ample memory a picture is written, and what it is of the first box.
ghost use Rattle.std.specs.Prelude.{IfOk};
ghost use Rattle.svg_text.specs.Points.{AreNear};

use byte_edge::SureSink;
use frame_store::Places;
use scene_model::{Form, Scene, Shape, Sort, Thing};
use std::alloc::{AllocError, Global};
use std::test::Fail;
use svg_text::write_svg;
use units::{Name, Sequence};

const FIRST_BOX: &[u8] = b"\
<svg xmlns=\"http://www.w3.org/2000/svg\" viewBox=\"-7 -6 60 40\">
<rect class=\"shape\" x=\"3\" y=\"4\" width=\"40\" height=\"20\" fill=\"white\" stroke=\"black\"/>
<text x=\"23\" y=\"14\" text-anchor=\"middle\">a</text>
</svg>
";

/// Adds a box of 40 by 20 at (3, 4).
fn add_box(scene: &mut Scene) -> Result<(), Fail> {
    let name = Name::of(b"a").ok_or("a name")?;
    if scene.lookup(&name).is_some() {
        return Err("a new name".into());
    }
    if scene.count(Sort::Shape) >= 128 {
        return Err("room".into());
    }
    scene.add(Thing::Shape(Shape {
        name,
        form: Form::Box,
        x: 3,
        y: 4,
        w: 40,
        h: 20,
        held: false,
        moves: 0,
    }))?;
    Ok(())
}

/// The places of the box.
fn box_places(alloc: Global) -> Result<Places, AllocError>
    ensures { IfOk result (λ places. AreNear places) }
{
    Ok(Places {
        x: Sequence::of(vec![in alloc; 3]?),
        y: Sequence::of(vec![in alloc; 4]?),
    })
}

/// Adds the box and writes its picture.
fn draw_box(scene: &mut Scene, sink: &mut SureSink, alloc: Global) -> Result<(), Fail> {
    add_box(scene)?;
    let places = box_places(alloc)?;
    if write_svg(scene, &places, sink).is_err() {
        return Err("memory".into());
    }
    Ok(())
}

#[test]
fn first_box_picture(rt: HostRuntime) -> Result<(), Fail> {
    let alloc = rt.alloc();
    let mut scene = Scene::empty(alloc);
    let mut sink = SureSink::new(alloc);
    draw_box(&mut scene, &mut sink, alloc)?;
    assert!(rt; sink.bytes() == FIRST_BOX);
    Ok(())
}
