//! What no clause says: that with ample memory edits are copied and applied; and which edits are steady.
use crate::lines::{draw, draw_all, edit_of, expect, name};
use scene_model::{Compound, Form, Guide, Link, Page, Rule, Scene, Shape, Sort};
use sep_gen::count;
use std::alloc::Global;
use std::test::Fail;
use units::{Axis, Pt};

// Each of the 17 edits, and whether it is steady.
const EDITS: [(&str, bool); 17] = [
    ("box a 3 -4 40 20", false),
    ("size a 7 8", false),
    ("move a 5 6", true),
    ("hold a", true),
    ("free a", true),
    ("remove a", true),
    ("link a b c", true),
    ("unlink a", true),
    ("guide a y 40", false),
    ("shift a -7", true),
    ("align a b mid a b", false),
    ("spread a x -3 b a", false),
    ("rank a y 30 a", false),
    ("apart a y c b -3 exact", false),
    ("group a 15 b a b", false),
    ("page a -9 8 700 600 5 soft", false),
    ("drop a", true),
];

/// Fails where the copy of the edit isn't equal to it, or where whether it is steady isn't so.
fn copies(alloc: Global, line: &str, steady: bool) -> Result<(), Fail> {
    let edit = edit_of(alloc, line)?;
    let copy = edit.copy(alloc)?;
    expect(copy == edit, line)?;
    expect(edit.is_steady() == steady, line)
}

#[test]
fn edits_are_copied(rt: HostRuntime) -> Result<(), Fail> {
    for (line, steady) in &EDITS {
        copies(rt.alloc(), line, *steady)?;
    }
    Ok(())
}

/// Whether this guideline stands alone.
fn has_guide(scene: &Scene, guide: &Guide) -> bool {
    scene.count(Sort::Guide) == 1 && *scene.guide(0) == *guide
}

fn shift_guideline(scene: &mut Scene, alloc: Global) -> Result<(), Fail> {
    // A shift is counted also where the place stays.
    draw_all(scene, alloc, &["guide g y 40", "shift g -7", "shift g -7"])?;
    let shifted = Guide {
        name: name(b"g")?,
        axis: Axis::Y,
        at: -7,
        moves: 2,
    };
    expect(has_guide(scene, &shifted), "shifted")?;
    draw(scene, alloc, "remove g")?;
    expect(scene.count(Sort::Guide) == 0, "removed")
}

#[test]
fn guidelines_are_shifted(rt: HostRuntime) -> Result<(), Fail> {
    let mut scene = Scene::empty(rt.alloc());
    shift_guideline(&mut scene, rt.alloc())
}

/// Whether a group stands alone, with these corners.
fn has_corners(scene: &Scene, low: Pt, high: Pt) -> bool {
    scene.count(Sort::Group) == 1 && scene.group(0).low == low && scene.group(0).high == high
}

// The corners are those of the making.
const GROUPED: [&str; 5] = [
    "box a 0 50 10 20",
    "box b 100 -30 30 40",
    "box c 900 900 1 1",
    "group area 5 a b",
    "move a -500 0",
];

fn group_shapes(scene: &mut Scene, alloc: Global) -> Result<(), Fail> {
    draw_all(scene, alloc, &GROUPED)?;
    // From 0 and -30, less the pad, to 130 and 70, and the pad: the third shape is no member.
    let low = Pt { x: -5, y: -35 };
    let high = Pt { x: 135, y: 75 };
    expect(has_corners(scene, low, high), "corners")
}

#[test]
fn groups_have_corners(rt: HostRuntime) -> Result<(), Fail> {
    let mut scene = Scene::empty(rt.alloc());
    group_shapes(&mut scene, rt.alloc())
}

/// Whether so many shapes stand, of which this is the last.
fn has_last(scene: &Scene, shape: &Shape, shapes: u16) -> bool {
    let count = scene.count(Sort::Shape);
    count == shapes && count > 0 && *scene.shape(count - 1) == *shape
}

fn has_link(scene: &Scene, link: &Link) -> bool {
    scene.count(Sort::Link) == 1 && *scene.link(0) == *link
}

fn has_compound(scene: &Scene, compound: &Compound) -> bool {
    scene.count(Sort::Compound) == 1 && *scene.compound(0) == *compound
}

fn has_page(scene: &Scene, wanted: &Page) -> bool {
    match scene.page() {
        Some(page) => *page == *wanted,
        None => false,
    }
}

// The ends of the ranges are within them.
const MADE: [&str; 5] = [
    "box a -1000000 1000000 1 10000",
    "box b 7 8 9 10",
    "link wire b a",
    "apart gap y b a -3 exact",
    "page sheet -9 8 700 600 5 soft",
];

/// A new shape is not held and was never moved.
fn has_made_shape(scene: &Scene) -> Result<(), Fail> {
    let made = Shape {
        name: name(b"b")?,
        form: Form::Box,
        x: 7,
        y: 8,
        w: 9,
        h: 10,
        held: false,
        moves: 0,
    };
    expect(has_last(scene, &made, 2), "a shape")
}

fn has_made_ties(scene: &Scene) -> Result<(), Fail> {
    let (a, b) = (name(b"a")?, name(b"b")?);
    let wire = Link {
        name: name(b"wire")?,
        a: b,
        b: a,
    };
    expect(has_link(scene, &wire), "a link")?;
    let rule = Rule::Apart {
        axis: Axis::Y,
        a: b,
        b: a,
        gap: -3,
        exact: true,
    };
    let name = name(b"gap")?;
    expect(has_compound(scene, &Compound { name, rule }), "a gap")
}

fn has_made_page(scene: &Scene) -> Result<(), Fail> {
    let made = Page {
        name: name(b"sheet")?,
        x: -9,
        y: 8,
        w: 700,
        h: 600,
        margin: 5,
        rigid: false,
    };
    expect(has_page(scene, &made), "a page")
}

fn make_items(scene: &mut Scene, alloc: Global) -> Result<(), Fail> {
    draw_all(scene, alloc, &MADE)?;
    has_made_shape(scene)?;
    has_made_ties(scene)?;
    has_made_page(scene)
}

#[test]
fn items_are_made(rt: HostRuntime) -> Result<(), Fail> {
    let mut scene = Scene::empty(rt.alloc());
    make_items(&mut scene, rt.alloc())
}

// A move is counted also where the corner stays. A size leaves the count.
const CHANGED: [&str; 5] = [
    "box a 1 2 3 4",
    "move a 5 6",
    "move a 5 6",
    "size a 7 8",
    "hold a",
];

fn has_changed(scene: &Scene, held: bool) -> Result<(), Fail> {
    let changed = Shape {
        name: name(b"a")?,
        form: Form::Box,
        x: 5,
        y: 6,
        w: 7,
        h: 8,
        held,
        moves: 2,
    };
    expect(has_last(scene, &changed, 1), "changed")
}

fn change_and_remove(scene: &mut Scene, alloc: Global) -> Result<(), Fail> {
    draw_all(scene, alloc, &CHANGED)?;
    has_changed(scene, true)?;
    draw(scene, alloc, "free a")?;
    has_changed(scene, false)?;
    draw(scene, alloc, "remove a")?;
    expect(scene.count(Sort::Shape) == 0, "removed")
}

#[test]
fn shapes_are_changed(rt: HostRuntime) -> Result<(), Fail> {
    let mut scene = Scene::empty(rt.alloc());
    change_and_remove(&mut scene, rt.alloc())
}

// A flow chart of 12 shapes: 34 edits, all accepted.
const FLOW_CHART: [&str; 34] = [
    "oval start 160 0 80 40",
    "box read 150 70 100 40",
    "diamond check 150 160 100 60",
    "box ask 380 150 90 40",
    "box fix 390 240 90 40",
    "box parse 150 250 100 40",
    "box plan 150 330 100 40",
    "box run 150 400 100 40",
    "diamond test 140 500 110 60",
    "box log 380 420 90 40",
    "oval done 170 620 80 40",
    "oval fail 380 610 80 40",
    "link l1 start read",
    "link l2 read check",
    "link l3 check ask",
    "link l4 ask fix",
    "link l5 fix read",
    "link l6 check parse",
    "link l7 parse plan",
    "link l8 plan run",
    "link l9 run test",
    "link l10 test done",
    "link l11 test log",
    "link l12 log fail",
    "link l13 run log",
    "guide main x 200",
    "guide side x 430",
    "guide base y 640",
    "align c1 main mid start read check parse plan run test",
    "align c2 side mid ask fix log fail",
    "align c3 base mid done fail",
    "spread s1 y 80 start read check parse plan run",
    "group g1 15 parse plan run",
    "page p1 0 0 600 800 20 soft",
];

fn draw_flow_chart(scene: &mut Scene, alloc: Global) -> Result<(), Fail> {
    draw_all(scene, alloc, &FLOW_CHART)?;
    expect(scene.vars(Axis::X) == 18, "variables on X")?;
    expect(scene.vars(Axis::Y) == 17, "variables on Y")?;
    expect(count(scene, Axis::X) == 43, "separations on X")?;
    expect(count(scene, Axis::Y) == 39, "separations on Y")
}

#[test]
fn flow_chart_is_drawn(rt: HostRuntime) -> Result<(), Fail> {
    let mut scene = Scene::empty(rt.alloc());
    draw_flow_chart(&mut scene, rt.alloc())
}
