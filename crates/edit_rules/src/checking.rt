//! Whether a scene accepts an edit.
ghost use Rattle.std.specs.Prelude.{◌≡◌, ◌↔◌, None, Some, Ok, Err, IsOk, MatchResult};
ghost use Rattle.edit_rules.specs.declared.refusals.Refusal.{Refusal as RefusalValue};
ghost use Rattle.edit_rules.specs.Causes.{Accepts, IsRefused};
ghost use Rattle.edit_rules.specs.Naming.{naming_of};
ghost use Rattle.edit_rules.specs.Refusals.{range_refusal, first_of, named_refusals, refusal_of};

use crate::crowding::separations_refusal;
use crate::edits::Edit;
use crate::limits::limit_refusal;
use crate::naming::{Names, names_of};
use crate::ranges::first_number_outside;
use crate::refusals::Refusal;
use crate::repeats::twice_refusal;
use crate::sorts::kind_refusal;
use crate::standing::{in_use_refusal, taken_refusal, unknown_refusal};
use scene_model::Scene;

/// Whether the scene accepts the edit. A refusal is the first of these that has a cause:
///
/// - Range, where a number of the edit lies outside its range (the first such);
/// - Unknown, where a name that must stand doesn't (the first such): the item that the edit changes, or one that the
///   new item uses;
/// - Taken, where the new name stands;
/// - Kind, where one of the names that must stand does so as another kind than is wanted (the first such): a changed item
///   is of a sort that the edit changes; links, groups and alignments take shapes; an alignment a guideline before them;
///   the other compounds shapes, and guidelines of their axis;
/// - Twice, where a member, or B of A and B, equals an earlier one (the first such);
/// - InUse, where the item to be removed is used by another: the first of the links, then of the compounds, then of the
///   groups, each in the order of making;
/// - Limit Members, where the edit lists more than 64 members; then Limit Shapes, Guides, Links, Compounds, Groups or
///   Pages, where 128, 64, 256, 128, 32 or 1 of the new item's sort stand; then Limit Seps, where with the new item there
///   would be more than 2,048 separations on X, or on Y.
///
/// It takes no memory.
pub fn check(scene: &Scene, edit: &Edit) -> Result<(), Refusal>
    ensures accepted { IsOk result ↔ Accepts scene.now edit.now }
    ensures refused { (r : RefusalValue) → (result ≡ Err r) ↔ IsRefused scene.now edit.now r }
    ensures first { MatchResult result (λ _. refusal_of scene.now edit.now ≡ None) (λ r. refusal_of scene.now edit.now ≡ Some r) }
{
    first_refusal(scene, edit)
}

/// The first refusal that has a cause.
fn first_refusal(scene: &Scene, edit: &Edit) -> Result<(), Refusal>
    ensures { MatchResult result (λ _. refusal_of scene.now edit.now ≡ None) (λ r. refusal_of scene.now edit.now ≡ Some r) }
{
    if let Some(refusal) = range_refusal(edit) {
        return Err(refusal);
    }
    let names = names_of(edit);
    if let Some(refusal) = named_refusal(scene, &names) {
        return Err(refusal);
    }
    if let Some(refusal) = limit_refusal(scene, &names.row, &names.makes) {
        return Err(refusal);
    }
    if let Some(refusal) = separations_refusal(scene, edit) {
        return Err(refusal);
    }
    Ok(())
}

/// The first number of the edit outside its range.
fn range_refusal(edit: &Edit) -> Option<Refusal>
    ensures { result ≡ range_refusal edit.now }
{
    match first_number_outside(edit) {
        Some(value) => Some(Refusal::Range { value }),
        None => None,
    }
}

/// The first refusal for what an edit says of items by name.
fn named_refusal(scene: &Scene, names: &Names) -> Option<Refusal>
    ensures { result ≡ first_of (named_refusals scene.now (naming_of names.now)) }
{
    if let Some(refusal) = unknown_refusal(scene, names) {
        return Some(refusal);
    }
    if let Some(refusal) = taken_refusal(scene, &names.makes) {
        return Some(refusal);
    }
    if let Some(refusal) = kind_refusal(scene, names) {
        return Some(refusal);
    }
    if let Some(refusal) = twice_refusal(&names.row) {
        return Some(refusal);
    }
    in_use_refusal(scene, &names.frees)
}
