//! Desks: a document as one caller has it, alone or beside others.
ghost use Rattle.std.specs.Prelude.{◌≡◌, None, Some, []};
ghost use Rattle.doc_book.specs.Calls.{IsEntered, IsAsked, IsLooked, IsPublished};
ghost use Rattle.doc_book.specs.Desks.{Standing, Called, alone_at};
ghost use Rattle.doc_book.specs.Events.{Edits, Undoes};
ghost use Rattle.doc_book.specs.Jobs.{IsJobOf};
ghost use Rattle.doc_book.specs.Turns.{placed, published, told_look, told_publish};

use crate::asking::Answer;
use crate::book::Book;
use crate::looking::Look;
use crate::publishing::{Publish, Solved};
use crate::replies::Refused;
use crate::told::Told;
use edit_rules::Edit;
use std::alloc::Global;
use units::Name;

/// What a document is made with. No call changes it.
#[derive(Clone, Copy, Debug, PartialEq, Eq)]
pub struct Terms {
    /// How many frames may come before End.
    pub frames: u32,
}

/// A document as one caller has it. It stands for the caller's number, the budget of frames, the history that the caller
/// has seen, the caller's own places in it, and what the caller was told.
///
/// Each answer is the document's, with its causes, at a history that begins with all that was seen; afterwards that
/// history is seen, with the new entry where one was made. The place of an entry that was made joins the own places, which
/// change in no other way. A call may wait where the implementing type has leave to.
pub trait Desk {
    /// What stays the same at a desk beside its caller's number and budget: the document that it is at.
    type Key;

    ghost key: { Self → Self.Key };

    ghost at: { Self → Standing };

    /// Enters an edit for line `line`.
    fn edit(&mut self, alloc: Global, line: u32, edit: Edit) -> Result<u32, Refused>
        ensures called { Called (λ old new. IsEntered old new (Edits (at self.old).who line edit) result) (at self.old) (at self.new) (placed result) }
        ensures told { (at self.new).told ≡ (at self.old).told }
        ensures key { key self.new ≡ key self.old };

    /// Takes the last standing edit off for line `line`, whoever made it.
    fn undo(&mut self, alloc: Global, line: u32) -> Result<u32, Refused>
        ensures called { Called (λ old new. IsEntered old new (Undoes (at self.old).who line) result) (at self.old) (at self.new) (placed result) }
        ensures told { (at self.new).told ≡ (at self.old).told }
        ensures key { key self.new ≡ key self.old };

    /// Where the item of this name stands.
    fn ask(&mut self, name: &Name) -> Result<Answer, Refused>
        ensures called { Called (λ old new. IsAsked old name.now result × (new ≡ old)) (at self.old) (at self.new) [] }
        ensures told { (at self.new).told ≡ (at self.old).told }
        ensures key { key self.new ≡ key self.old };

    /// Looks whether there is a frame to make. No job is out, so that none is passed over for a new look.
    fn look(&mut self, alloc: Global) -> Look
        requires { (at self.old).told.job ≡ None }
        ensures called { Called (λ old new. IsLooked old result × (new ≡ old)) (at self.old) (at self.new) [] }
        ensures told { (at self.new).told ≡ told_look (at self.old).told result }
        ensures key { key self.new ≡ key self.old };

    /// Publishes for line `line` the frame of the job that is out.
    fn publish(&mut self, alloc: Global, line: u32, solved: Solved) -> Publish
        requires job { (at self.old).told.job ≡ Some solved.job.front }
        requires seen { IsJobOf (at self.old).seen (at self.old).budget solved.job.front solved.job.scene solved.job.places }
        ensures called { Called (λ old new. IsPublished old new (at self.old).who line solved result) (at self.old) (at self.new) (published result) }
        ensures told { (at self.new).told ≡ told_publish (at self.old).told result }
        ensures key { key self.new ≡ key self.old };
}

/// The desk of a caller at a document which no one else calls. It never waits. It has seen the whole history, and its own
/// places are those of the entries by its caller.
#[derive(Drop)]
pub struct Alone<'a> {
    pub book: &'a mut Book,
    pub who: u8,
    pub told: Told,
}

impl Desk for Alone<'_> {
    type Key = ();

    ghost key = { λ a. tt };

    ghost at = { λ a. alone_at a.book.now a.who a.told a.book.ghost_name };

    fn edit(&mut self, alloc: Global, line: u32, edit: Edit) -> Result<u32, Refused> {
        self.book.edit(alloc, self.who, line, edit)
    }

    fn undo(&mut self, alloc: Global, line: u32) -> Result<u32, Refused> {
        self.book.undo(alloc, self.who, line)
    }

    fn ask(&mut self, name: &Name) -> Result<Answer, Refused> {
        self.book.ask(name)
    }

    fn look(&mut self, alloc: Global) -> Look {
        let look = self.book.look(alloc);
        self.told.note_look(&look);
        look
    }

    fn publish(&mut self, alloc: Global, line: u32, solved: Solved) -> Publish {
        let answer = self.book.publish(alloc, self.who, line, solved);
        self.told.note_publish(&answer);
        answer
    }
}
