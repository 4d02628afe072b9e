//! The items of the picture.
ghost use Rattle.std.specs.Prelude.{◌≡◌, pos, slice_get};
ghost use Rattle.std.specs.Option.{option_map_or};
ghost use Rattle.scene_model.specs.Sound.{IsShape};
ghost use Rattle.svg_text.specs.Picture.{end_of, group_text, groups_text, guide_ends, guide_line, guide_text, guides_text, link_text, links_text, outline_text, page_text, pages_text, shape_text, shapes_text};
ghost use Rattle.svg_text.specs.Points.{AreNear, IsVeryWide, middle_of, shape_at};
ghost use Rattle.svg_text.specs.Putting.{Puts};

use crate::elements::{put_diamond, put_ellipse, put_label, put_line, put_rect};
use crate::pieces::put;
use crate::points::{edge_span, half, middle_of, place, shape_span};
use crate::spans::Span;
use byte_edge::{Sink, SinkStop};
use frame_store::Places;
use scene_model::{Form, Group, Guide, Item, Link, Page, Scene, Shape, Sort, VariableName};
use units::{Axis, Name, Pt};

fn put_page<K: Sink>(
    scene: &Scene,
    places: &Places,
    page: &Page,
    sink: &mut K,
) -> Result<(), SinkStop>
    requires { AreNear places.now }
    ensures { Puts K.takes_memory (K.put sink.old) (K.put sink.new) (K.faults sink.old) (K.faults sink.new) (page_text scene.now places.now page.now) result }
{
    let x = edge_span(scene, Axis::X, places, &page.name);
    let y = edge_span(scene, Axis::Y, places, &page.name);
    put_rect(sink, b"page", x, y, b"none", b"silver")
}

/// Puts the page, if there is one.
pub fn put_pages<K: Sink>(scene: &Scene, places: &Places, sink: &mut K) -> Result<(), SinkStop>
    requires { AreNear places.now }
    ensures { Puts K.takes_memory (K.put sink.old) (K.put sink.new) (K.faults sink.old) (K.faults sink.new) (pages_text scene.now places.now) result }
{
    match scene.page() {
        Some(page) => put_page(scene, places, page, sink),
        None => put(sink, b""),
    }
}

fn put_group<K: Sink>(
    scene: &Scene,
    places: &Places,
    group: &Group,
    sink: &mut K,
) -> Result<(), SinkStop>
    requires { AreNear places.now }
    ensures { Puts K.takes_memory (K.put sink.old) (K.put sink.new) (K.faults sink.old) (K.faults sink.new) (group_text scene.now places.now group.now) result }
{
    let x = edge_span(scene, Axis::X, places, &group.name);
    let y = edge_span(scene, Axis::Y, places, &group.name);
    put_rect(sink, b"group", x, y, b"none", b"gray")
}

/// Puts the groups.
pub fn put_groups<K: Sink>(scene: &Scene, places: &Places, sink: &mut K) -> Result<(), SinkStop>
    requires { AreNear places.now }
    ensures { Puts K.takes_memory (K.put sink.old) (K.put sink.new) (K.faults sink.old) (K.faults sink.new) (groups_text scene.now places.now) result }
{
    for at in 0..scene.count(Sort::Group) {
        put_group(scene, places, scene.group(at), sink)?;
    }
    Ok(())
}

/// The ends of the guideline of an axis at a place, across the whole picture.
fn guide_ends(axis: Axis, at: i64, x: Span, y: Span) -> (Pt, Pt)
    ensures { result ≡ guide_ends axis at x y }
{
    match axis {
        Axis::X => (Pt { x: at, y: y.low }, Pt { x: at, y: y.high }),
        Axis::Y => (Pt { x: x.low, y: at }, Pt { x: x.high, y: at }),
    }
}

fn put_guide<K: Sink>(
    scene: &Scene,
    places: &Places,
    x: Span,
    y: Span,
    guide: &Guide,
    sink: &mut K,
) -> Result<(), SinkStop>
    requires { AreNear places.now }
    ensures { Puts K.takes_memory (K.put sink.old) (K.put sink.new) (K.faults sink.old) (K.faults sink.new) (guide_text scene.now places.now x y guide.now) result }
{
    let at = place(scene, guide.axis, places, &VariableName::OfItem(guide.name));
    let ends = guide_ends(guide.axis, at, x, y);
    put_line(sink, b"guide", ends.0, ends.1, b"blue")
}

/// Puts the guidelines, across the parts of the axes that the picture shows.
pub fn put_guides<K: Sink>(
    scene: &Scene,
    places: &Places,
    x: Span,
    y: Span,
    sink: &mut K,
) -> Result<(), SinkStop>
    requires { AreNear places.now }
    ensures { Puts K.takes_memory (K.put sink.old) (K.put sink.new) (K.faults sink.old) (K.faults sink.new) (guides_text scene.now places.now x y) result }
{
    for at in 0..scene.count(Sort::Guide) {
        put_guide(scene, places, x, y, scene.guide(at), sink)?;
    }
    Ok(())
}

/// The middle of the shape at this place, if it is one's.
fn middle_at(scene: &Scene, places: &Places, item: Item) -> Pt
    requires { AreNear places.now }
    ensures { result ≡ option_map_or (middle_of scene.now places.now) (shape_at scene.now item) (record { x = pos 0; y = pos 0 }) }
{
    match item.sort {
        Sort::Shape => shape_middle(scene, places, item.at),
        Sort::Guide => Pt { x: 0, y: 0 },
        Sort::Link => Pt { x: 0, y: 0 },
        Sort::Compound => Pt { x: 0, y: 0 },
        Sort::Group => Pt { x: 0, y: 0 },
        Sort::Page => Pt { x: 0, y: 0 },
    }
}

fn shape_middle(scene: &Scene, places: &Places, at: u16) -> Pt
    requires { AreNear places.now }
    ensures { result ≡ option_map_or (middle_of scene.now places.now) (slice_get scene.now.shapes at) (record { x = pos 0; y = pos 0 }) }
{
    if at < scene.count(Sort::Shape) {
        middle_of(scene, places, scene.shape(at))
    } else {
        Pt { x: 0, y: 0 }
    }
}

/// The middle of the shape of this name.
fn end_of(scene: &Scene, places: &Places, name: &Name) -> Pt
    requires { AreNear places.now }
    ensures { result ≡ end_of scene.now places.now name.now }
{
    match scene.lookup(name) {
        Some(item) => middle_at(scene, places, item),
        None => Pt { x: 0, y: 0 },
    }
}

fn put_link<K: Sink>(
    scene: &Scene,
    places: &Places,
    link: &Link,
    sink: &mut K,
) -> Result<(), SinkStop>
    requires { AreNear places.now }
    ensures { Puts K.takes_memory (K.put sink.old) (K.put sink.new) (K.faults sink.old) (K.faults sink.new) (link_text scene.now places.now link.now) result }
{
    let from = end_of(scene, places, &link.a);
    let to = end_of(scene, places, &link.b);
    put_line(sink, b"link", from, to, b"black")
}

/// Puts the links.
pub fn put_links<K: Sink>(scene: &Scene, places: &Places, sink: &mut K) -> Result<(), SinkStop>
    requires { AreNear places.now }
    ensures { Puts K.takes_memory (K.put sink.old) (K.put sink.new) (K.faults sink.old) (K.faults sink.new) (links_text scene.now places.now) result }
{
    for at in 0..scene.count(Sort::Link) {
        put_link(scene, places, scene.link(at), sink)?;
    }
    Ok(())
}

fn put_outline<K: Sink>(
    sink: &mut K,
    shape: &Shape,
    middle: Pt,
    x: Span,
    y: Span,
) -> Result<(), SinkStop>
    requires x { IsVeryWide x }
    requires y { IsVeryWide y }
    ensures { Puts K.takes_memory (K.put sink.old) (K.put sink.new) (K.faults sink.old) (K.faults sink.new) (outline_text shape.now.form shape.now middle x y) result }
{
    match shape.form {
        Form::Box => put_rect(sink, b"shape", x, y, b"white", b"black"),
        Form::Oval => put_ellipse(sink, middle, half(shape.w), half(shape.h)),
        Form::Diamond => put_diamond(sink, middle, x, y),
    }
}

fn put_shape<K: Sink>(
    scene: &Scene,
    places: &Places,
    shape: &Shape,
    sink: &mut K,
) -> Result<(), SinkStop>
    requires near { AreNear places.now }
    requires shape { IsShape shape.now }
    ensures { Puts K.takes_memory (K.put sink.old) (K.put sink.new) (K.faults sink.old) (K.faults sink.new) (shape_text scene.now places.now shape.now) result }
{
    let middle = middle_of(scene, places, shape);
    let x = shape_span(scene, Axis::X, places, shape);
    let y = shape_span(scene, Axis::Y, places, shape);
    put_outline(sink, shape, middle, x, y)?;
    put_label(sink, middle, shape.name.bytes())
}

/// Puts the shapes with their names.
pub fn put_shapes<K: Sink>(scene: &Scene, places: &Places, sink: &mut K) -> Result<(), SinkStop>
    requires { AreNear places.now }
    ensures { Puts K.takes_memory (K.put sink.old) (K.put sink.new) (K.faults sink.old) (K.faults sink.new) (shapes_text scene.now places.now) result }
{
    for at in 0..scene.count(Sort::Shape) {
        put_shape(scene, places, scene.shape(at), sink)?;
    }
    Ok(())
}
