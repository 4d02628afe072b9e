//! The picture.
ghost use Rattle.std.specs.Prelude.{◌≡◌, ◌≤◌, Err, IsTrue, OnErr, OnOk};
ghost use Rattle.std.specs.Io.KnownBytes.{append_known};
ghost use Rattle.byte_edge.specs.Count.{HasRisen};
ghost use Rattle.byte_edge.specs.Taken.{TakesPart};
ghost use Rattle.byte_edge.specs.declared.sink.SinkStop.TheVariants as stop;
ghost use Rattle.svg_text.specs.Picture.{svg_text};
ghost use Rattle.svg_text.specs.Points.{AreNear, IsVeryWide};
ghost use Rattle.svg_text.specs.Putting.{Puts};
ghost use Rattle.svg_text.specs.Steps.{below_head, part_text, parts_text, picture_text};

use crate::bounds::shown;
use crate::elements::put_head;
use crate::items::{put_groups, put_guides, put_links, put_pages, put_shapes};
use crate::pieces::put;
use crate::spans::Span;
use byte_edge::{Sink, SinkStop};
use frame_store::Places;
use scene_model::Scene;
use units::Axis;

/// What a picture has between its first line and its last.
#[derive(Clone, Copy, Debug, PartialEq, Eq)]
enum Part {
    Page,
    Groups,
    Guides,
    Links,
    Shapes,
}

/// The parts in the order in which they are drawn, each over those before it.
const PARTS: [Part; 5] = [
    Part::Page,
    Part::Groups,
    Part::Guides,
    Part::Links,
    Part::Shapes,
];

fn put_part<K: Sink>(
    scene: &Scene,
    places: &Places,
    x: Span,
    y: Span,
    part: Part,
    sink: &mut K,
) -> Result<(), SinkStop>
    requires { AreNear places.now }
    ensures { Puts K.takes_memory (K.put sink.old) (K.put sink.new) (K.faults sink.old) (K.faults sink.new) (part_text scene.now places.now x y part) result }
{
    match part {
        Part::Page => put_pages(scene, places, sink),
        Part::Groups => put_groups(scene, places, sink),
        Part::Guides => put_guides(scene, places, x, y, sink),
        Part::Links => put_links(scene, places, sink),
        Part::Shapes => put_shapes(scene, places, sink),
    }
}

fn put_parts<K: Sink>(
    scene: &Scene,
    places: &Places,
    x: Span,
    y: Span,
    sink: &mut K,
) -> Result<(), SinkStop>
    requires { AreNear places.now }
    ensures { Puts K.takes_memory (K.put sink.old) (K.put sink.new) (K.faults sink.old) (K.faults sink.new) (parts_text scene.now places.now x y) result }
{
    for part in &PARTS {
        put_part(scene, places, x, y, *part, sink)?;
    }
    Ok(())
}

/// Puts what stands behind the first line.
fn put_below_head<K: Sink>(
    scene: &Scene,
    places: &Places,
    x: Span,
    y: Span,
    sink: &mut K,
) -> Result<(), SinkStop>
    requires { AreNear places.now }
    ensures { Puts K.takes_memory (K.put sink.old) (K.put sink.new) (K.faults sink.old) (K.faults sink.new) (below_head scene.now places.now x y) result }
{
    put_parts(scene, places, x, y, sink)?;
    put(sink, b"</svg>\n")
}

fn put_picture<K: Sink>(
    scene: &Scene,
    places: &Places,
    x: Span,
    y: Span,
    sink: &mut K,
) -> Result<(), SinkStop>
    requires near { AreNear places.now }
    requires x { IsVeryWide x }
    requires y { IsVeryWide y }
    ensures { Puts K.takes_memory (K.put sink.old) (K.put sink.new) (K.faults sink.old) (K.faults sink.new) (picture_text scene.now places.now x y) result }
{
    put_head(sink, x, y)?;
    put_below_head(scene, places, x, y, sink)
}

fn put_svg<K: Sink>(scene: &Scene, places: &Places, sink: &mut K) -> Result<(), SinkStop>
    requires { AreNear places.now }
    ensures { Puts K.takes_memory (K.put sink.old) (K.put sink.new) (K.faults sink.old) (K.faults sink.new) (svg_text scene.now places.now) result }
{
    let x = shown(scene, Axis::X, places);
    let y = shown(scene, Axis::Y, places);
    put_picture(scene, places, x, y, sink)
}

/// Writes the picture of a scene whose variables stand at these places, within 2^31 of 0. It takes no memory of its own.
///
/// After a stop the sink has a part of the picture, from the front. `Failed` comes only where a write failed, and the
/// sink has counted it; `Memory` only where the sink takes memory.
pub fn write_svg<K: Sink>(scene: &Scene, places: &Places, sink: &mut K) -> Result<(), SinkStop>
    requires { AreNear places.now }
    ensures whole { OnOk result (K.put sink.new ≡ append_known (K.put sink.old) (svg_text scene.now places.now)) }
    ensures part { OnErr result (TakesPart (K.put sink.old) (K.put sink.new) (svg_text scene.now places.now)) }
    ensures calm { OnOk result (K.faults sink.new ≡ K.faults sink.old) }

    // Failed comes only where the faults rose in this call, and Memory only where the sink takes memory.
    ensures failed { result ≡ Err stop.Failed → HasRisen (K.faults sink.old) (K.faults sink.new) }
    ensures memory { result ≡ Err stop.Memory → IsTrue K.takes_memory }
    ensures memory_calm { result ≡ Err stop.Memory → K.faults sink.new ≡ K.faults sink.old }
    ensures never_falls { K.faults sink.old ≤ K.faults sink.new }
{
    put_svg(scene, places, sink)
}
