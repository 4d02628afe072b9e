//! The limit on separations.
ghost use Rattle.std.specs.Prelude.{◌≡◌, ◌≤◌, length, None, false};
ghost use Rattle.std.specs.Option.{option_map};
ghost use Rattle.units.specs.declared.geometry.Axis.{Axis as AxisValue};
ghost use Rattle.scene_model.specs.declared.items.Guide.{Guide as GuideValue};
ghost use Rattle.scene_model.specs.declared.items.Link.{Link as LinkValue};
ghost use Rattle.scene_model.specs.declared.items.Thing.TheVariants as thing;
ghost use Rattle.scene_model.specs.Diagram.{Diagram};
ghost use Rattle.scene_model.specs.Items.{stands};
ghost use Rattle.scene_model.specs.Separations.{separations};
ghost use Rattle.scene_model.specs.Sound.{IsSound};
ghost use Rattle.scene_model.specs.Uses.{most_members};
ghost use Rattle.sep_gen.specs.Counted.{count_with};
ghost use Rattle.edit_rules.specs.declared.edits.Edit.{Edit as EditValue};
ghost use Rattle.edit_rules.specs.Causes.{Accepts};
ghost use Rattle.edit_rules.specs.Effects.{made, edited};
ghost use Rattle.edit_rules.specs.Naming.{naming};
ghost use Rattle.edit_rules.specs.Refusals.{taken_refusal, most_separations, is_crowded, separations_refusal};

use crate::edits::Edit;
use crate::refusals::{Counted, Refusal};
use scene_model::{Scene, Sort};
use sep_gen::{
    count, count_with_align, count_with_apart, count_with_group, count_with_page, count_with_row,
    count_with_shape,
};
use units::{Axis, Name};

/// The most separations of an axis.
const MOST_SEPARATIONS: u32 = 2_048;

/// More separations than an axis may have, with the item that the edit makes. The edit lists at most 64 members, and the
/// name of its new item is free.
pub fn separations_refusal(scene: &Scene, edit: &Edit) -> Option<Refusal>
    requires few { length (naming edit.now).row ≤ most_members }
    requires free { taken_refusal scene.now (naming edit.now).makes ≡ None }
    ensures { result ≡ separations_refusal scene.now edit.now }
{
    if !is_crowded(scene, edit, Axis::X) && !is_crowded(scene, edit, Axis::Y) {
        return None;
    }
    Some(Refusal::Limit {
        what: Counted::Seps,
        count: MOST_SEPARATIONS,
    })
}

fn is_crowded(scene: &Scene, edit: &Edit, axis: Axis) -> bool
    requires few { length (naming edit.now).row ≤ most_members }
    requires free { taken_refusal scene.now (naming edit.now).makes ≡ None }
    ensures { result ≡ is_crowded scene.now edit.now axis }
{
    match count_with_new(scene, edit, axis) {
        Some(count) => MOST_SEPARATIONS < count,
        None => false,
    }
}

/// How many separations the axis has with the item that the edit makes; None where it makes none, so that there are no
/// more than before.
fn count_with_new(scene: &Scene, edit: &Edit, axis: Axis) -> Option<u32>
    requires few { length (naming edit.now).row ≤ most_members }
    requires free { taken_refusal scene.now (naming edit.now).makes ≡ None }
    ensures { result ≡ option_map (count_with scene.now axis) (made scene.now edit.now) }
{
    match edit {
        Edit::Put { .. } => Some(count_with_shape(scene, axis)),
        Edit::Guide { name, .. } => Some(count_with_guide(scene, name, axis)),
        Edit::Join { .. } => Some(count_with_link(scene, axis)),
        Edit::Align { guide, members, .. } => Some(count_with_align(scene, axis, guide, members)),
        Edit::Spread {
            axis: own,
            members,
            ..
        } => Some(count_with_row(scene, axis, *own, members)),
        Edit::Rank {
            axis: own,
            members,
            ..
        } => Some(count_with_row(scene, axis, *own, members)),
        Edit::Apart { axis: own, .. } => Some(count_with_apart(scene, axis, *own)),
        Edit::Group { members, .. } => Some(count_with_group(scene, axis, members)),
        Edit::Page { rigid, .. } => Some(count_with_page(scene, axis, *rigid)),
        Edit::Size { .. } => None,
        Edit::Move { .. } => None,
        Edit::Shift { .. } => None,
        Edit::Hold { .. } => None,
        Edit::Free { .. } => None,
        Edit::Remove { .. } => None,
        Edit::Unlink { .. } => None,
        Edit::Drop { .. } => None,
    }
}

/// A guideline of a new name adds none.
fn count_with_guide(scene: &Scene, name: &Name, axis: Axis) -> u32
    requires { stands scene.now name.now ≡ false }
    ensures { (guide : GuideValue) → guide.name ≡ name.now → result ≡ count_with scene.now axis (thing.Guide guide) }
{
    // Asked for what its type keeps, which the proof needs.
    let _guides = scene.count(Sort::Guide);
    count(scene, axis)
}

/// A link adds none.
fn count_with_link(scene: &Scene, axis: Axis) -> u32
    ensures { (link : LinkValue) → result ≡ count_with scene.now axis (thing.Link link) }
{
    count(scene, axis)
}

/// An edit that a scene within the limit accepts gives a scene within it.
pub fn separations_law()
    ensures { (d : Diagram) (e : EditValue) (axis : AxisValue) → IsSound d → Accepts d e
        → length (separations d axis) ≤ most_separations → length (separations (edited e d) axis) ≤ most_separations }
{}
