//! How many separations there are, without making them.
ghost use Rattle.std.specs.Prelude.{◌≡◌, ◌≤◌, ◌+◌, ◌-◌, ◌*◌, length, if◌then◌else◌};
ghost use Rattle.scene_model.specs.Names.{same_axis};
ghost use Rattle.scene_model.specs.Uses.{has_guide_on, rule_row, most_members};
ghost use Rattle.scene_model.specs.Separations.{separations};
ghost use Rattle.sep_gen.specs.Counted.{rule_count, compound_count, group_count, page_count, total_of};

use scene_model::{Page, Rule, Scene, Sort};
use units::{Axis, Members, Name};

/// How many separations the scene has on the axis: the length of the list that `compile` makes. It takes no memory.
#[tactic(auto, using(crate::proofs::Counts::all_counted))]
pub fn count(scene: &Scene, axis: Axis) -> u32
    ensures value { result ≡ length (separations scene.now axis) }
    ensures few { result ≤ 12578 }
{
    of_compounds(scene, axis) + of_groups(scene) + of_pages(scene)
}

fn of_compounds(scene: &Scene, axis: Axis) -> u32
    ensures value { result ≡ total_of (compound_count axis scene.now.guides) scene.now.compounds }
    ensures few { result ≤ 8192 }
{
    let mut total = 0;
    for at in 0..scene.count(Sort::Compound) {
        total += of_rule(scene, axis, &scene.compound(at).rule);
    }
    total
}

fn of_rule(scene: &Scene, axis: Axis, rule: &Rule) -> u32
    requires { length (rule_row rule.now) ≤ most_members }
    ensures value { result ≡ rule_count axis scene.now.guides rule.now }
    ensures few { result ≤ 64 }
{
    match rule {
        Rule::Align { guide, members, .. } => of_aligned(scene, axis, guide, members),
        Rule::Spread {
            axis: own,
            members,
            ..
        } => of_row(axis, *own, members),
        Rule::Rank {
            axis: own,
            members,
            ..
        } => of_row(axis, *own, members),
        Rule::Apart { axis: own, .. } => of_apart(axis, *own),
    }
}

/// How many separations an alignment has: one for each member, where the guideline is of the axis.
pub(crate) fn of_aligned(scene: &Scene, axis: Axis, guide: &Name, members: &Members) -> u32
    requires { length members.now ≤ most_members }
    ensures value { result ≡ (if has_guide_on axis scene.now.guides guide.now then length members.now else 0) }
    ensures few { result ≤ 64 }
{
    if scene.has_guide_on(axis, guide) {
        how_many(members)
    } else {
        0
    }
}

/// How many separations a spread or rank has: one for each two neighbours, where its axis is this one.
pub(crate) fn of_row(axis: Axis, own: Axis, members: &Members) -> u32
    requires { length members.now ≤ most_members }
    ensures value { result ≡ (if same_axis own axis then length members.now - 1 else 0) }
    ensures few { result ≤ 64 }
{
    if own == axis {
        how_many(members) - 1
    } else {
        0
    }
}

/// How many separations two items apart have: one, where their axis is this one.
pub(crate) fn of_apart(axis: Axis, own: Axis) -> u32
    ensures value { result ≡ (if same_axis own axis then 1 else 0) }
    ensures few { result ≤ 64 }
{
    if own == axis { 1 } else { 0 }
}

/// How many members there are.
fn how_many(members: &Members) -> u32
    requires { length members.now ≤ most_members }
    ensures value { result ≡ length members.now }
    ensures some { 1 ≤ result }
    ensures few { result ≤ 64 }
{
    members.list().len() as u32
}

fn of_groups(scene: &Scene) -> u32
    ensures value { result ≡ total_of group_count scene.now.groups }
    ensures few { result ≤ 4128 }
{
    let mut total = 0;
    for at in 0..scene.count(Sort::Group) {
        total += of_grouped(&scene.group(at).members);
    }
    total
}

/// How many separations a group has: two for each member, and one for its edges.
pub(crate) fn of_grouped(members: &Members) -> u32
    requires { length members.now ≤ most_members }
    ensures value { result ≡ 2 * length members.now + 1 }
    ensures few { result ≤ 129 }
{
    2 * how_many(members) + 1
}

fn of_pages(scene: &Scene) -> u32
    ensures value { result ≡ total_of (page_count (length scene.now.shapes)) scene.now.pages }
    ensures few { result ≤ 258 }
{
    if scene.count(Sort::Page) == 0 {
        return 0;
    }
    of_page(scene.page().unwrap(), scene.count(Sort::Shape))
}

fn of_page(page: &Page, shapes: u16) -> u32
    requires { shapes ≤ 128 }
    ensures value { result ≡ page_count shapes page.now }
    ensures few { result ≤ 258 }
{
    of_paged(shapes, page.rigid)
}

/// How many separations a page has: two for each of so many shapes, one for its edges, and one more if it is rigid.
pub(crate) fn of_paged(shapes: u16, rigid: bool) -> u32
    requires { shapes ≤ 128 }
    ensures value { result ≡ 2 * shapes + (if rigid then 2 else 1) }
    ensures few { result ≤ 258 }
{
    2 * u32::from(shapes) + if rigid { 2 } else { 1 }
}
