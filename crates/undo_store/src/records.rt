//! Records: what takes an edit back.
ghost use Rattle.std.specs.Prelude.{◌≡◌, true, Some, IfOk, IsSome, OnOk, OnErr};
ghost use Rattle.scene_model.specs.Items.{stands, item_named, sort_of, thing_at};
ghost use Rattle.scene_model.specs.Sound.{IsSound};
ghost use Rattle.edit_rules.specs.Effects.{edited};
ghost use Rattle.edit_rules.specs.Refusals.{refusal_of};
ghost use Rattle.undo_store.specs.TakenBack.{taken_back, CanBeTakenBack, TakesBack};

use crate::copies::{copy_of, copy_of_item};
use edit_rules::Edit;
use scene_model::{Scene, Sort, Thing};
use std::alloc::Global;
use units::{Memory, Name};

/// What takes an edit back, from the scene after it to the one before.
#[derive(Drop)]
pub enum Record {
    /// The edit made the item of this name: it is taken out.
    Made(Name),
    /// The edit took this item out, which had this number among those of its sort: it is put back there.
    Taken(u16, Thing),
    /// The edit changed this item, which is as before: it is put in the place of the one of its name.
    Changed(Thing),
}

/// The record of an edit, which the scene accepts; the edit is still to be applied.
pub fn record_of(alloc: Global, scene: &Scene, edit: &Edit) -> Result<Record, Memory>
    requires accepted { refusal_of scene.now edit.now ≡ None }
    ensures { IfOk result (λ back. TakesBack back scene.now (edited edit.now scene.now)) }
{
    // Asked for what its type keeps, which the proof needs.
    let _shapes = scene.count(Sort::Shape);
    match edit {
        Edit::Put { name, .. }
        | Edit::Join { name, .. }
        | Edit::Guide { name, .. }
        | Edit::Align { name, .. }
        | Edit::Spread { name, .. }
        | Edit::Rank { name, .. }
        | Edit::Apart { name, .. }
        | Edit::Group { name, .. }
        | Edit::Page { name, .. } => Ok(Record::Made(*name)),
        Edit::Size { name, .. }
        | Edit::Move { name, .. }
        | Edit::Shift { name, .. }
        | Edit::Hold { name }
        | Edit::Free { name } => {
            let (_, thing) = standing(alloc, scene, name)?;
            Ok(Record::Changed(thing))
        }
        Edit::Remove { name } | Edit::Unlink { name } | Edit::Drop { name } => {
            let (at, thing) = standing(alloc, scene, name)?;
            Ok(Record::Taken(at, thing))
        }
    }
}

/// The number among those of its sort and a copy of the item of this name, which stands.
fn standing(alloc: Global, scene: &Scene, name: &Name) -> Result<(u16, Thing), Memory>
    requires { stands scene.now name.now ≡ true }
    ensures found { IfOk result (λ found. item_named scene.now name.now ≡ Some (record { sort = sort_of found.1; at = found.0 })) }
    ensures whole { IfOk result (λ found. thing_at scene.now (sort_of found.1) found.0 ≡ Some found.1) }
{
    let item = scene.lookup(name).unwrap();
    let thing = copy_of_item(alloc, scene, item)?;
    Ok((item.at, thing))
}

/// Takes an edit back by its record: the scene is sound afterwards. After want of memory it is as before.
pub fn take_back(alloc: Global, scene: &mut Scene, last: &Record) -> Result<(), Memory>
    requires can { CanBeTakenBack last.now scene.old }
    requires sound { IsSound (taken_back last.now scene.old) }
    ensures taken_back { OnOk result (scene.new ≡ taken_back last.now scene.old) }
    ensures unchanged { OnErr result (scene.new ≡ scene.old) }
{
    match last {
        Record::Made(name) => {
            let _made = scene.take(name);
            Ok(())
        }
        Record::Taken(at, thing) => {
            let copy = copy_of(alloc, thing)?;
            scene.put_back(*at, copy)
        }
        Record::Changed(thing) => {
            let copy = copy_of(alloc, thing)?;
            scene.set(copy);
            Ok(())
        }
    }
}
