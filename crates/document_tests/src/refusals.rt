//! Each refusal of a scene, for different edits, and that the first cause is told; the limits on members and separations.
use crate::lines::{draw, draw_all, edit_of, expect};
use edit_rules::{Counted, Refusal, check};
use scene_model::Scene;
use sep_gen::count;
use std::alloc::Global;
use std::str;
use std::test::Fail;
use units::{Axis, Name};

/// A word and a name.
fn with_name(alloc: Global, word: &str, name: &Name) -> Result<String, Fail> {
    let text = str::from_utf8(name.bytes()).ok().ok_or("a name")?;
    Ok(format!(in alloc; "{word} {text}")?)
}

/// The cause as text.
fn cause_of(alloc: Global, refusal: &Refusal) -> Result<String, Fail> {
    match refusal {
        Refusal::Range { value } => Ok(format!(in alloc; "range {value}")?),
        Refusal::Unknown { name } => with_name(alloc, "unknown", name),
        Refusal::Taken { name } => with_name(alloc, "taken", name),
        Refusal::Kind { name } => with_name(alloc, "kind", name),
        Refusal::Twice { name } => with_name(alloc, "twice", name),
        Refusal::InUse { by } => with_name(alloc, "used by", by),
        Refusal::Limit { what: _, count } => Ok(format!(in alloc; "limit {count}")?),
        _ => Err("another cause".into()),
    }
}

/// Why the scene refuses the edit of the line, as text.
fn refused(scene: &Scene, alloc: Global, line: &str) -> Result<String, Fail> {
    let edit = edit_of(alloc, line)?;
    match check(scene, &edit) {
        Ok(()) => Err("refused".into()),
        Err(refusal) => cause_of(alloc, &refusal),
    }
}

/// Fails where the scene doesn't refuse each edit of the block for the cause behind it.
fn are_refused(scene: &Scene, alloc: Global, block: &str) -> Result<(), Fail> {
    for line in block.lines() {
        let (edit, cause) = line.split_once(" = ").ok_or("a cause")?;
        expect(refused(scene, alloc, edit)?.as_str() == cause, line)?;
    }
    Ok(())
}

/// Whether the scene refuses the edit of the line for this limit.
fn is_limited(
    scene: &Scene,
    alloc: Global,
    line: &str,
    what: Counted,
    count: u32,
) -> Result<bool, Fail> {
    let edit = edit_of(alloc, line)?;
    Ok(check(scene, &edit) == Err(Refusal::Limit { what, count }))
}

// Three shapes, a guideline, a link of the first two shapes, an alignment of the third, and a page.
const FURNISHED: [&str; 7] = [
    "box a 0 0 1 1",
    "box b 0 0 1 1",
    "box c 0 0 1 1",
    "guide line x 0",
    "link wire a b",
    "align row line mid c",
    "page sheet 0 0 1 1 0 soft",
];

// The number that is told is the first outside its range, in the order x, y, w, h.
const RANGES: &str = "\
box free -1000001 0 1 1 = range -1000001
box free 0 1000001 0 1 = range 1000001
box free 0 0 0 10001 = range 0
box free 0 0 10001 0 = range 10001
box free 0 0 1 -1 = range -1
page free 0 0 1 1 -1 soft = range -1
shift line 1000001 = range 1000001
";

// The guideline of an alignment comes before its members, and is one of an axis; a guideline of the other axis has no place
// among shapes.
const NAMES: &str = "\
size missing 1 1 = unknown missing
shift missing 0 = unknown missing
drop missing = unknown missing
align free missing mid a neither = unknown missing
align free line mid a neither = unknown neither
box a 0 0 1 1 = taken a
guide a x 0 = taken a
link wire a c = taken wire
shift a 0 = kind a
drop a = kind a
hold line = kind line
align free sheet mid wire a = kind sheet
align free line mid wire a = kind wire
apart free y a line 0 exact = kind line
group free 0 b a c a b = twice a
link free a a = twice a
apart free x a a 0 exact = twice a
";

// Shapes stay while a link or an alignment uses them, and a guideline while an alignment does.
const USED: &str = "\
remove a = used by wire
remove b = used by wire
remove c = used by row
remove line = used by row
";

// Each of the first five has the cause of the next one too. A name that stands comes before the limit.
const FIRST_CAUSES: &str = "\
apart sheet y missing missing 1000001 exact = range 1000001
apart sheet y line missing 0 exact = unknown missing
apart sheet y line line 0 exact = taken sheet
apart free y line line 0 exact = kind line
apart free x line line 0 exact = twice line
page line 0 0 1 1 0 soft = taken line
page free 0 0 1 1 0 soft = limit 1
";

fn tells_each(scene: &mut Scene, alloc: Global) -> Result<(), Fail> {
    draw_all(scene, alloc, &FURNISHED)?;
    are_refused(scene, alloc, RANGES)?;
    are_refused(scene, alloc, NAMES)?;
    are_refused(scene, alloc, USED)?;
    are_refused(scene, alloc, FIRST_CAUSES)?;
    let limited = is_limited(scene, alloc, "page free 0 0 1 1 0 soft", Counted::Pages, 1)?;
    expect(limited, "one page")
}

#[test]
fn each_refusal_is_told(rt: HostRuntime) -> Result<(), Fail> {
    let mut scene = Scene::empty(rt.alloc());
    tells_each(&mut scene, rt.alloc())
}

/// A line that begins so, with the names `b1`, `b2` and so on behind it, so many.
fn with_boxes(alloc: Global, begin: &str, boxes: u32) -> Result<String, Fail> {
    let mut line = format!(in alloc; "{begin}")?;
    for number in 1..=boxes {
        line.push_str(&format!(in alloc; " b{number}")?)?;
    }
    Ok(line)
}

/// Puts the boxes `b1`, `b2` and so on in one column, so many.
fn put_column(scene: &mut Scene, alloc: Global, boxes: u32) -> Result<(), Fail> {
    for number in 1..=boxes {
        let line = format!(in alloc; "box b{number} 0 {number} 10 10")?;
        draw(scene, alloc, &line)?;
    }
    Ok(())
}

/// Makes 32 groups of one shape.
fn put_groups(scene: &mut Scene, alloc: Global) -> Result<(), Fail> {
    for number in 1..=32 {
        let line = format!(in alloc; "group g{number} 0 b1")?;
        draw(scene, alloc, &line)?;
    }
    Ok(())
}

/// 65 members are one too many, also where 32 groups stand: the limit on members comes before that on the sort.
fn tells_members(scene: &mut Scene, alloc: Global) -> Result<(), Fail> {
    put_column(scene, alloc, 65)?;
    let ranked = with_boxes(alloc, "rank free y 0", 65)?;
    let grouped = with_boxes(alloc, "group free 0", 65)?;
    let what = Counted::Members;
    expect(is_limited(scene, alloc, &ranked, what, 64)?, "rank")?;
    expect(is_limited(scene, alloc, &grouped, what, 64)?, "group")?;
    put_groups(scene, alloc)?;
    expect(
        is_limited(scene, alloc, &grouped, what, 64)?,
        "members first",
    )?;
    let short = is_limited(scene, alloc, "group free 0 b1", Counted::Groups, 32)?;
    expect(short, "groups")
}

#[test]
fn members_are_limited(rt: HostRuntime) -> Result<(), Fail> {
    let mut scene = Scene::empty(rt.alloc());
    tells_members(&mut scene, rt.alloc())
}

/// Ranks 64 boxes 32 times on X, and the first 33 of them once: 2,048 separations.
fn rank_column(scene: &mut Scene, alloc: Global) -> Result<(), Fail> {
    for number in 1..=32 {
        let begin = format!(in alloc; "rank r{number} x 10")?;
        draw(scene, alloc, &with_boxes(alloc, &begin, 64)?)?;
    }
    draw(scene, alloc, &with_boxes(alloc, "rank last x 10", 33)?)
}

/// One more on X is too many; on Y it isn't. A cause that comes before the limits is told first.
fn tells_separations(scene: &mut Scene, alloc: Global) -> Result<(), Fail> {
    put_column(scene, alloc, 64)?;
    rank_column(scene, alloc)?;
    expect(count(scene, Axis::X) == 2_048, "2,048 on X")?;
    let one_more = "apart free x b1 b2 0 least";
    expect(
        is_limited(scene, alloc, one_more, Counted::Seps, 2_048)?,
        "one more",
    )?;
    are_refused(
        scene,
        alloc,
        "apart free x b1 missing 0 least = unknown missing",
    )?;
    draw(scene, alloc, "apart free y b1 b2 0 least")
}

#[test]
fn separations_are_limited(rt: HostRuntime) -> Result<(), Fail> {
    let mut scene = Scene::empty(rt.alloc());
    tells_separations(&mut scene, rt.alloc())
}
