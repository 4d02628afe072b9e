//! Edits and undos of the document, and its end.
ghost use Rattle.std.specs.Vec.{vec_len, vec_capacity};
ghost use Rattle.std.specs.Prelude.{◌≡◌, ◌⊎◌, ◌<◌, ◌^◌, true, None, Some, [], ◌∷◌, ◌++◌, length, MatchResult, IfOk, OnOk, OnErr};
ghost use Rattle.edit_rules.specs.declared.refusals.Refusal.TheVariants as refusal;
ghost use Rattle.units.specs.declared.geometry.Axis.TheVariants as axes;
ghost use Rattle.scene_model.specs.Variables.{variables};
ghost use Rattle.edit_rules.specs.Effects.{edited, scene_of};
ghost use Rattle.edit_rules.specs.Refusals.{refusal_of};
ghost use Rattle.edit_rules.specs.Steady.{is_steady};
ghost use Rattle.undo_store.specs.Along.{without_last};
ghost use Rattle.frame_store.specs.Carry.{carried};
ghost use Rattle.doc_book.specs.declared.entries.Act.TheVariants as act;
ghost use Rattle.doc_book.specs.Calls.{IsEntered};
ghost use Rattle.doc_book.specs.Events.{Edits, Undoes, Ends};
ghost use Rattle.doc_book.specs.Growing.{entry_of};
ghost use Rattle.doc_book.specs.History.{scene_at, end_place};
ghost use Rattle.doc_book.specs.Kept.{IsUncrowded};
ghost use Rattle.doc_book.specs.Legal.{IsLegal};
ghost use Rattle.doc_book.specs.Verdicts.{IsFeasibility, IsVerdict, closed_refusal, undo_verdict};

use crate::book::Book;
use crate::entries::{Act, Entry};
use crate::feasibility::infeasibility;
use crate::replies::Refused;
use crate::scanning::end_place;
use edit_rules::{Counted, Edit, Refusal, check};
use frame_store::{Places, carry};
use scene_model::{Scene, Sort};
use std::alloc::Global;
use undo_store::Stand;
use units::Memory;

/// The most entries with which an edit or undo is still entered.
pub const MOST_ENTRIES: u32 = 20_000;

impl Book {
    /// Enters an edit by caller `who` for line `line`, and gives its place in the history. A refusal is the first of these
    /// that has a cause: Ended, after End, with its place; Limit Entries, where 20,000 entries stand; the refusals of
    /// `check` for the present scene; Infeasible, where the separations of the edited scene on X have a positive cycle, or
    /// have none on X and one on Y, with the axis and such a cycle, by the numbers that the separations have in the edited
    /// scene; Memory. All but Infeasible and Memory are decided before memory is taken. After a refusal the document is as
    /// before.
    pub fn edit(&mut self, alloc: Global, who: u8, line: u32, edit: Edit) -> Result<u32, Refused>
        ensures answer { IsEntered self.old self.new (Edits who line edit) result }
        ensures legal_before { IsLegal self.old.history self.old.budget }
        ensures legal { IsLegal self.new.history self.new.budget }
        ensures short { length self.new.history < 2 ^ 32 }
    {
        // Asked for, before and behind, what its type keeps, which the proof needs.
        let _before = self.front();
        let answer = self.edited(alloc, who, line, edit);
        let _behind = self.front();
        answer
    }

    /// Takes the last standing edit off, by caller `who` for line `line`, and gives the place of this entry in the history.
    /// A refusal is the first of these that has a cause: Ended, Limit Entries, NothingToUndo where no edit stands, Memory. All
    /// but Memory are decided without memory. After a refusal the document is as before.
    pub fn undo(&mut self, alloc: Global, who: u8, line: u32) -> Result<u32, Refused>
        ensures answer { IsEntered self.old self.new (Undoes who line) result }
        ensures legal_before { IsLegal self.old.history self.old.budget }
        ensures legal { IsLegal self.new.history self.new.budget }
        ensures short { length self.new.history < 2 ^ 32 }
    {
        // Asked for, before and behind, what its type keeps, which the proof needs.
        let _before = self.front();
        let answer = self.undone(alloc, who, line);
        let _behind = self.front();
        answer
    }

    /// Ends the document, by caller 0 with line 0, and gives the place of End. Ended comes exactly where End stands, with its
    /// place; else Memory alone. After a refusal the document is as before.
    pub fn end(&mut self) -> Result<u32, Refused>
        ensures answer { IsEntered self.old self.new Ends result }
        ensures legal_before { IsLegal self.old.history self.old.budget }
        ensures legal { IsLegal self.new.history self.new.budget }
        ensures short { length self.new.history < 2 ^ 32 }
    {
        // Asked for, before and behind, what its type keeps, which the proof needs.
        let _before = self.front();
        let answer = self.ended();
        let _behind = self.front();
        answer
    }

    fn edited(&mut self, alloc: Global, who: u8, line: u32, edit: Edit) -> Result<u32, Refused>
        ensures { IsEntered self.old self.new (Edits who line edit) result }
    {
        let front = self.front();
        if let Err(refusal) = self.cause(&edit) {
            return Err(Refused { refusal, front });
        }
        match self.enter_edit(alloc, who, line, edit) {
            Ok(()) => Ok(front),
            Err(refusal) => Err(Refused { refusal, front }),
        }
    }

    fn undone(&mut self, alloc: Global, who: u8, line: u32) -> Result<u32, Refused>
        ensures { IsEntered self.old self.new (Undoes who line) result }
    {
        let front = self.front();
        if let Err(refusal) = self.undo_verdict() {
            return Err(Refused { refusal, front });
        }
        match self.enter_undo(alloc, who, line) {
            Ok(()) => Ok(front),
            Err(memory) => Err(Refused {
                refusal: Refusal::from(memory),
                front,
            }),
        }
    }

    fn ended(&mut self) -> Result<u32, Refused>
        ensures { IsEntered self.old self.new Ends result }
    {
        let front = self.front();
        if let Some(place) = end_place(self.history()) {
            return Err(Refused {
                refusal: Refusal::Ended { place },
                front,
            });
        }
        match self.enter_end() {
            Ok(()) => Ok(front),
            Err(memory) => Err(Refused {
                refusal: Refusal::from(memory),
                front,
            }),
        }
    }

    /// Ended, or Limit Entries.
    fn closed(&self) -> Option<Refusal>
        ensures { result ≡ closed_refusal self.now.history }
    {
        if let Some(place) = end_place(self.history()) {
            return Some(Refusal::Ended { place });
        }
        if self.front() >= MOST_ENTRIES {
            return Some(Refusal::Limit {
                what: Counted::Entries,
                count: MOST_ENTRIES,
            });
        }
        None
    }

    /// The first cause that no search has to find.
    fn cause(&self, edit: &Edit) -> Result<(), Refusal>
        ensures { MatchResult result
            (λ _. (closed_refusal self.now.history ≡ None) × (refusal_of (scene_at self.now.history) edit.now ≡ None))
            (λ r. IsVerdict self.now.history edit.now (Some r)) }
    {
        if let Some(refusal) = self.closed() {
            return Err(refusal);
        }
        check(self.scene(), edit)
    }

    fn undo_verdict(&self) -> Result<(), Refusal>
        ensures { MatchResult result (λ _. undo_verdict self.now.history ≡ None) (λ r. undo_verdict self.now.history ≡ Some r) }
    {
        if let Some(refusal) = self.closed() {
            return Err(refusal);
        }
        if self.stand.len() == 0 {
            return Err(Refusal::NothingToUndo);
        }
        Ok(())
    }

    fn enter_edit(&mut self, alloc: Global, who: u8, line: u32, edit: Edit) -> Result<(), Refusal>
        requires open { closed_refusal self.old.history ≡ None }
        requires accepted { refusal_of (scene_at self.old.history) edit ≡ None }
        ensures answer { MatchResult result
            (λ _. IsVerdict self.old.history edit None
            × (self.new ≡ record self.old { history = self.old.history ++ entry_of who line (act.Edit edit) ∷ [] }))
            (λ r. (r ≡ refusal.Memory) ⊎ IsVerdict self.old.history edit (Some r)) }
        ensures unchanged { OnErr result (self.new ≡ self.old) }
    {
        let scene = self.feasible_scene(alloc, &edit)?;
        self.enter_scene(alloc, who, line, edit, &scene)?;
        Ok(())
    }

    /// The scene after the edit, where it is feasible.
    fn feasible_scene(&self, alloc: Global, edit: &Edit) -> Result<Scene, Refusal>
        requires open { closed_refusal self.now.history ≡ None }
        requires accepted { refusal_of (scene_at self.now.history) edit.now ≡ None }
        ensures { MatchResult result
            (λ scene. (scene ≡ edited edit.now (scene_at self.now.history)) × IsVerdict self.now.history edit.now None)
            (λ r. (r ≡ refusal.Memory) ⊎ IsVerdict self.now.history edit.now (Some r)) }
    {
        let scene = self.scene_after(alloc, edit)?;
        infeasibility_after(alloc, edit, &scene)?;
        Ok(scene)
    }

    /// The scene after the edit.
    fn scene_after(&self, alloc: Global, edit: &Edit) -> Result<Scene, Memory>
        requires { refusal_of (scene_at self.now.history) edit.now ≡ None }
        ensures { IfOk result (λ scene. (scene ≡ edited edit.now (scene_at self.now.history)) × IsUncrowded scene
            × (is_steady edit.now ≡ true → IsFeasibility scene None)) }
    {
        // Asked for what its type keeps, which the proof needs.
        let _sound = self.stand.scene().count(Sort::Shape);
        let scene = self.stand.scene_after(alloc, edit)?;
        Ok(scene)
    }

    /// The stand grows last, where nothing can fail any more but itself; room for the entry was made before.
    fn enter_scene(
        &mut self,
        alloc: Global,
        who: u8,
        line: u32,
        edit: Edit,
        scene: &Scene,
    ) -> Result<(), Memory>
        requires verdict { IsVerdict self.old.history edit None }
        requires scene { scene.now ≡ edited edit (scene_at self.old.history) }
        ensures entered { OnOk result (self.new ≡ record self.old { history = self.old.history ++ entry_of who line (act.Edit edit) ∷ [] }) }
        ensures unchanged { OnErr result (self.new ≡ self.old) }
    {
        // Asked for what its type keeps, which the proof needs.
        let _sound = self.stand.scene().count(Sort::Shape);
        self.history.reserve(1)?;
        let places = carry(alloc, self.stand.scene(), scene, &self.places)?;
        push_copy(&mut self.stand, alloc, &edit)?;
        add(
            &mut self.history,
            Entry {
                who,
                line,
                act: Act::Edit(edit),
            },
        );
        self.places = places;
        self.settled = false;
        Ok(())
    }

    fn enter_undo(&mut self, alloc: Global, who: u8, line: u32) -> Result<(), Memory>
        requires { undo_verdict self.old.history ≡ None }
        ensures entered { OnOk result (self.new ≡ record self.old { history = self.old.history ++ entry_of who line act.Undo ∷ [] }) }
        ensures unchanged { OnErr result (self.new ≡ self.old) }
    {
        self.history.reserve(1)?;
        let places = places_before(alloc, &self.stand, &self.places)?;
        let _stood = self.stand.undo(alloc)?;
        add(
            &mut self.history,
            Entry {
                who,
                line,
                act: Act::Undo,
            },
        );
        self.places = places;
        self.settled = false;
        Ok(())
    }

    fn enter_end(&mut self) -> Result<(), Memory>
        requires { end_place self.old.history ≡ None }
        ensures entered { OnOk result (self.new ≡ record self.old { history = self.old.history ++ entry_of 0 0 act.End ∷ [] }) }
        ensures unchanged { OnErr result (self.new ≡ self.old) }
    {
        self.history.push(Entry {
            who: 0,
            line: 0,
            act: Act::End,
        })?;
        self.settled = false;
        Ok(())
    }
}

/// Refuses a scene that no placement fits. A steady edit has left it feasible, so that nothing has to be searched.
fn infeasibility_after(alloc: Global, edit: &Edit, scene: &Scene) -> Result<(), Refusal>
    requires uncrowded { IsUncrowded scene.now }
    requires steady { is_steady edit.now ≡ true → IsFeasibility scene.now None }
    ensures { MatchResult result (λ _. IsFeasibility scene.now None) (λ r. (r ≡ refusal.Memory) ⊎ IsFeasibility scene.now (Some r)) }
{
    if edit.is_steady() {
        return Ok(());
    }
    infeasibility(alloc, scene)
}

/// The places as the last edit is taken off, where one stands.
fn places_before(alloc: Global, stand: &Stand, places: &Places) -> Result<Places, Memory>
    requires some { 0 < length stand.now }
    requires on_x { length places.now.x ≡ length (variables (scene_of stand.now) axes.X) }
    requires on_y { length places.now.y ≡ length (variables (scene_of stand.now) axes.Y) }
    ensures { IfOk result (λ before. before ≡ carried (scene_of stand.now) (scene_of (without_last stand.now)) places.now) }
{
    let scene = stand.scene_before(alloc)?;
    carry(alloc, stand.scene(), &scene, places)
}

/// Adds a copy of an edit to the stand, whose scene accepts it. After want of memory the stand is as before.
fn push_copy(stand: &mut Stand, alloc: Global, edit: &Edit) -> Result<(), Memory>
    requires accepted { refusal_of (scene_of stand.old) edit.now ≡ None }
    requires few { length stand.old < 20000 }
    ensures pushed { OnOk result (stand.new ≡ stand.old ++ edit.now ∷ []) }
    ensures unchanged { OnErr result (stand.new ≡ stand.old) }
{
    let copy = edit.copy(alloc)?;
    stand.push(alloc, copy)
}

/// Adds an entry, for which there is room.
pub(crate) fn add(history: &mut Vec<Entry>, entry: Entry)
    requires { vec_len history.old < vec_capacity history.old }
    ensures { history.new.items ≡ history.old.items ++ entry ∷ [] }
{
    let _room = history.push(entry);
}
