//! What no clause says: that with ample memory edits are pushed and taken off again.
use crate::lines::{edit_of, expect, name};
use crate::same_scenes::are_same;
use edit_rules::check;
use scene_model::{Item, Scene, Sort};
use std::alloc::Global;
use std::test::Fail;
use undo_store::{MOST_EDITS, Stand};

/// Pushes the edit of a line, which the scene accepts.
fn push(stand: &mut Stand, alloc: Global, line: &str) -> Result<(), Fail> {
    if stand.len() >= MOST_EDITS {
        return Err("room".into());
    }
    let edit = edit_of(alloc, line)?;
    if check(stand.scene(), &edit).is_err() {
        return Err("accepted".into());
    }
    stand.push(alloc, edit)?;
    Ok(())
}

/// Pushes the edits of these lines.
fn push_all(stand: &mut Stand, alloc: Global, lines: &[&str]) -> Result<(), Fail> {
    for line in lines {
        push(stand, alloc, line)?;
    }
    Ok(())
}

/// Takes the last edits off, so many, which stand.
fn undo(stand: &mut Stand, alloc: Global, count: u32) -> Result<(), Fail> {
    for _ in 0..count {
        let stood = stand.undo(alloc)?;
        expect(stood, "an edit stood")?;
    }
    Ok(())
}

/// Whether the scene without the last edit is this one.
fn had_before(stand: &Stand, alloc: Global, before: &Scene) -> Result<bool, Fail> {
    if stand.len() == 0 {
        return Err("an edit stands".into());
    }
    let scene = stand.scene_before(alloc)?;
    Ok(are_same(&scene, before))
}

/// Pushes the edit and takes it off again: whether the scene is then this one, as was told before.
fn returns_to(stand: &mut Stand, alloc: Global, line: &str, before: &Scene) -> Result<bool, Fail> {
    push(stand, alloc, line)?;
    let told = had_before(stand, alloc, before)?;
    undo(stand, alloc, 1)?;
    Ok(told && are_same(stand.scene(), before))
}

/// Pushes the edit of a line and takes it off again, which leaves the scene as it was.
fn comes_back(stand: &mut Stand, alloc: Global, line: &str) -> Result<(), Fail> {
    let before = stand.scene().copy(alloc)?;
    let same = returns_to(stand, alloc, line, &before)?;
    expect(same, line)
}

/// Pushes and takes off the edit of each line, one after another.
fn come_back(stand: &mut Stand, alloc: Global, lines: &[&str]) -> Result<(), Fail> {
    for line in lines {
        comes_back(stand, alloc, line)?;
    }
    Ok(())
}

// Three shapes and two guidelines. The second shape and the first guideline were moved once, the first shape twice.
const ITEMS: [&str; 9] = [
    "box a 0 0 10 10",
    "box free 50 0 10 10",
    "box b 100 0 10 10",
    "guide line y 40",
    "guide g x 40",
    "move a 3 0",
    "move a 3 4",
    "move free 6 7",
    "shift line 60",
];

// Two links and three compounds, of the first and the third shape.
const TIES: [&str; 5] = [
    "link to a b",
    "link fro b a",
    "apart beside x a b 30 least",
    "spread below y 20 a b",
    "align across g mid a",
];

const FRAMES: [&str; 2] = ["group area 5 b a", "page sheet 0 0 900 700 5 rigid"];

// Where items, ties and frames stand.
const EACH_EDIT: [&str; 18] = [
    "box new -5 0 10 10",
    "guide new x 40",
    "link new a b",
    "apart new x b a 30 least",
    "align new g mid a b",
    "spread new y 20 b a",
    "rank new y 15 a b",
    "group new 5 a",
    "size a 7 8",
    "move a 1 2",
    "shift line -9",
    "hold a",
    "remove free",
    "remove line",
    "unlink to",
    "drop beside",
    "drop below",
    "drop area",
];

/// Whether the item of this name is the one of this sort and number.
fn is_at(scene: &Scene, text: &[u8], sort: Sort, at: u16) -> Result<bool, Fail> {
    Ok(scene.lookup(&name(text)?) == Some(Item { sort, at }))
}

/// Whether the shape of this number was moved so often.
fn was_moved(scene: &Scene, at: u16, moves: u32) -> bool {
    at < scene.count(Sort::Shape) && scene.shape(at).moves == moves
}

/// What was filled in stands at its number, moved as often as then.
fn expect_filled(scene: &Scene) -> Result<(), Fail> {
    for (text, sort, at) in [
        (b"free".as_slice(), Sort::Shape, 1),
        (b"line".as_slice(), Sort::Guide, 0),
        (b"to".as_slice(), Sort::Link, 0),
        (b"beside".as_slice(), Sort::Compound, 0),
        (b"area".as_slice(), Sort::Group, 0),
        (b"sheet".as_slice(), Sort::Page, 0),
    ] {
        expect(is_at(scene, text, sort, at)?, "its number")?;
    }
    expect(was_moved(scene, 0, 2), "moved twice")?;
    expect(was_moved(scene, 1, 1), "moved once")
}

fn fill(stand: &mut Stand, alloc: Global) -> Result<(), Fail> {
    push_all(stand, alloc, &ITEMS)?;
    push_all(stand, alloc, &TIES)?;
    push_all(stand, alloc, &FRAMES)
}

fn push_and_undo_all(stand: &mut Stand, alloc: Global) -> Result<(), Fail> {
    fill(stand, alloc)?;
    come_back(stand, alloc, &EACH_EDIT)?;
    push(stand, alloc, "hold a")?;
    comes_back(stand, alloc, "free a")?;
    undo(stand, alloc, 1)?;
    // The page is dropped, put anew, and both are taken off.
    comes_back(stand, alloc, "drop sheet")?;
    push(stand, alloc, "drop sheet")?;
    comes_back(stand, alloc, "page new 0 0 900 700 5 rigid")?;
    undo(stand, alloc, 1)?;
    expect_filled(stand.scene())
}

/// Each of the 17 edits.
#[test]
fn each_edit_is_taken_back(rt: HostRuntime) -> Result<(), Fail> {
    let mut stand = Stand::new(rt.alloc());
    push_and_undo_all(&mut stand, rt.alloc())
}

// What is left of the edits that `turn_back` pushes.
const LEFT: [&str; 2] = ["move free 9 9", "unlink to"];

/// Takes two edits off that it pushed, and both frames; of three further edits it takes the last one off.
fn turn_back(stand: &mut Stand, alloc: Global) -> Result<(), Fail> {
    push_all(stand, alloc, &["drop area", "remove free"])?;
    undo(stand, alloc, 4)?;
    push_all(stand, alloc, &LEFT)?;
    push(stand, alloc, "hold free")?;
    undo(stand, alloc, 1)
}

/// What stands after `fill` and `turn_back`.
fn build_anew(stand: &mut Stand, alloc: Global) -> Result<(), Fail> {
    push_all(stand, alloc, &ITEMS)?;
    push_all(stand, alloc, &TIES)?;
    push_all(stand, alloc, &LEFT)
}

/// Whether no item stands.
fn is_empty(scene: &Scene, alloc: Global) -> bool {
    let empty = Scene::empty(alloc);
    are_same(scene, &empty)
}

fn undo_all(stand: &mut Stand, alloc: Global) -> Result<(), Fail> {
    let count = stand.len();
    undo(stand, alloc, count)?;
    expect(is_empty(stand.scene(), alloc), "no item")?;
    let stood = stand.undo(alloc)?;
    expect(!stood, "no edit stood")
}

fn walk(stand: &mut Stand, anew: &mut Stand, alloc: Global) -> Result<(), Fail> {
    fill(stand, alloc)?;
    turn_back(stand, alloc)?;
    build_anew(anew, alloc)?;
    expect(stand.len() == anew.len(), "as many edits")?;
    expect(are_same(stand.scene(), anew.scene()), "the same scene")?;
    undo_all(stand, alloc)
}

/// Edits taken off in between leave the scene that the others alone make.
#[test]
fn the_others_are_left(rt: HostRuntime) -> Result<(), Fail> {
    let mut stand = Stand::new(rt.alloc());
    let mut anew = Stand::new(rt.alloc());
    walk(&mut stand, &mut anew, rt.alloc())
}
