//! The stand: a list of standing edits with their scene.
ghost use Rattle.std.specs.Prelude.{◌≡◌, ◌<◌, ◌≤◌, [], ◌∷◌, ◌++◌, None, IfOk, OnOk, OnErr, length, nat_lt};
ghost use Rattle.edit_rules.specs.Effects.{scene_of, edited};
ghost use Rattle.edit_rules.specs.Moves.{HasMovesLeft};
ghost use Rattle.edit_rules.specs.Refusals.{refusal_of};
ghost use Rattle.undo_store.specs.Along.{without_last};
ghost use Rattle.undo_store.specs.TakenBack.{TakesBack};

use crate::records::{Record, record_of, take_back};
use edit_rules::{Edit, apply};
use scene_model::Scene;
use std::alloc::Global;
use std::marker::Model;
use units::Memory;

/// The most edits that stand.
pub const MOST_EDITS: u32 = 20_000;

/// Standing edits, in order, with their scene, and for each edit a record that takes it back. Its type keeps that the
/// scene is that of the edits, each of which was accepted by the scene of those before it. Contracts see the list of
/// edits.
pub struct Stand {
    edits: Vec<Edit>,
    records: Vec<Record>,
    scene: Scene,
}

// Written out, as that of `Scene`.
impl Drop for Stand {
    fn drop(self) {
        let Stand {
            edits,
            records,
            scene,
        } = self;
        drop(edits);
        drop(records);
        drop(scene);
    }
}

impl Model for Stand {
    ghost use Rattle.std.specs.Prelude.{List};
    ghost use Rattle.edit_rules.specs.declared.edits.Edit.{Edit};
    ghost use Rattle.undo_store.specs.Kept.{IsKept};

    ghost Value = { List Edit };

    ghost view = { λ a. a.edits.items };

    ghost invariant = { λ a. IsKept a.edits.items a.records.items a.scene };
}

impl Stand {
    /// The stand without edits: its scene is empty.
    pub fn new(alloc: Global) -> Stand
        ensures { result ≡ [] }
    {
        Stand {
            edits: Vec::new(alloc),
            records: Vec::new(alloc),
            scene: Scene::empty(alloc),
        }
    }

    /// The scene of the standing edits.
    pub fn scene(&self) -> &Scene
        ensures { result.now ≡ scene_of self.now }
    {
        &self.scene
    }

    /// How many edits stand.
    pub fn len(&self) -> u32
        ensures value { result ≡ length self.now }
        ensures few { length self.now ≤ 20000 }
    {
        self.edits.len() as u32
    }

    /// One edit more, which the scene accepts, as `check` tells; fewer than `MOST_EDITS` stand, as `len` tells. After want
    /// of memory all is as before.
    pub fn push(&mut self, alloc: Global, edit: Edit) -> Result<(), Memory>
        requires accepted { refusal_of (scene_of self.old) edit ≡ None }
        requires few { length self.old < 20000 }
        ensures pushed { OnOk result (self.new ≡ self.old ++ edit ∷ []) }
        ensures unchanged { OnErr result (self.new ≡ self.old) }
    {
        self.edits.reserve(1)?;
        self.records.reserve(1)?;
        let back = apply_recorded(alloc, &mut self.scene, &edit)?;
        self.edits.push_reserved(edit);
        self.records.push_reserved(back);
        Ok(())
    }

    /// Takes the last edit off, and tells whether one stood; where none did, no memory is taken. After want of memory all is
    /// as before.
    pub fn undo(&mut self, alloc: Global) -> Result<bool, Memory>
        ensures told { IfOk result (λ stood. stood ≡ nat_lt 0 (length self.old)) }
        ensures undone { OnOk result (self.new ≡ without_last self.old) }
        ensures unchanged { OnErr result (self.new ≡ self.old) }
    {
        let count = self.len() as usize;
        if count == 0 {
            return Ok(false);
        }
        take_back(alloc, &mut self.scene, &self.records[count - 1])?;
        self.edits.truncate(count - 1);
        self.records.truncate(count - 1);
        Ok(true)
    }

    /// The scene after one edit more, which the scene accepts.
    pub fn scene_after(&self, alloc: Global, edit: &Edit) -> Result<Scene, Memory>
        requires accepted { refusal_of (scene_of self.now) edit.now ≡ None }
        ensures { IfOk result (λ scene. scene ≡ edited edit.now (scene_of self.now)) }
    {
        let mut scene = self.scene.copy(alloc)?;
        apply(&mut scene, edit.copy(alloc)?)?;
        Ok(scene)
    }

    /// The scene without the last edit, where one stands.
    pub fn scene_before(&self, alloc: Global) -> Result<Scene, Memory>
        requires { 0 < length self.now }
        ensures { IfOk result (λ scene. scene ≡ scene_of (without_last self.now)) }
    {
        let count = self.len() as usize;
        let mut scene = self.scene.copy(alloc)?;
        take_back(alloc, &mut scene, &self.records[count - 1])?;
        Ok(scene)
    }
}

/// Applies an edit, which the scene accepts, and gives what takes it back. After want of memory the scene is as before.
fn apply_recorded(alloc: Global, scene: &mut Scene, edit: &Edit) -> Result<Record, Memory>
    requires accepted { refusal_of scene.old edit.now ≡ None }
    requires few { HasMovesLeft scene.old edit.now }
    ensures back { IfOk result (λ back. TakesBack back scene.old (edited edit.now scene.old)) }
    ensures edited { OnOk result (scene.new ≡ edited edit.now scene.old) }
    ensures unchanged { OnErr result (scene.new ≡ scene.old) }
{
    let back = record_of(alloc, scene, edit)?;
    let copy = edit.copy(alloc)?;
    apply(scene, copy)?;
    Ok(back)
}
