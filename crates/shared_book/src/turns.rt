//! Turns at a shared book. Each call is one turn: the answer is the book's, with the book's causes, at a history that begins
//! with all that the pass had seen.
ghost use Rattle.std.specs.Prelude.{◌≡◌, [], Some};
ghost use Rattle.doc_book.specs.Calls.{IsEntered, IsAsked, IsLooked, IsPublished};
ghost use Rattle.doc_book.specs.Events.{Edits, Undoes, Ends};
ghost use Rattle.doc_book.specs.Jobs.{IsJobOf};
ghost use Rattle.doc_book.specs.Turns.{Turned, placed, published};
ghost use Rattle.shared_book.specs.Committed.{IsPublishedAt, IsCommitted};

use crate::pass::Pass;
use crate::shared::SharedBook;
use doc_book::{Answer, Look, Publish, Refused, Solved};
use edit_rules::Edit;
use std::alloc::Global;
use std::sync::Wait;
use units::Name;

impl SharedBook {
    /// Enters an edit for line `line`, as the pass's caller, and gives its place. It is refused as by `Book::edit`.
    pub fn edit<R: Wait>(
        &self,
        rt: &R,
        alloc: Global,
        pass: &mut Pass,
        line: u32,
        edit: Edit,
    ) -> Result<u32, Refused>
        requires { pass.old.table ≡ Some self.now }
        ensures turn { Turned self.now.terms.frames (λ old new. IsEntered old new (Edits pass.old.who line edit) result) pass.old.seen pass.new.seen pass.old.own pass.new.own (placed result) }
        ensures same { (pass.new.table ≡ pass.old.table) × (pass.new.who ≡ pass.old.who) }
    {
        let mut turn = self.table.take(rt, &mut pass.seat);
        let answer = turn.value().book.edit(alloc, pass.who, line, edit);
        if answer.is_ok() {
            turn.commit(&self.table, &mut pass.seat);
        }
        turn.give(&self.table, &mut pass.seat);
        answer
    }

    /// Takes the last standing edit off for line `line`, whoever made it, as the pass's caller, and gives the place of this
    /// entry. It is refused as by `Book::undo`.
    pub fn undo<R: Wait>(
        &self,
        rt: &R,
        alloc: Global,
        pass: &mut Pass,
        line: u32,
    ) -> Result<u32, Refused>
        requires { pass.old.table ≡ Some self.now }
        ensures turn { Turned self.now.terms.frames (λ old new. IsEntered old new (Undoes pass.old.who line) result) pass.old.seen pass.new.seen pass.old.own pass.new.own (placed result) }
        ensures same { (pass.new.table ≡ pass.old.table) × (pass.new.who ≡ pass.old.who) }
    {
        let mut turn = self.table.take(rt, &mut pass.seat);
        let answer = turn.value().book.undo(alloc, pass.who, line);
        if answer.is_ok() {
            turn.commit(&self.table, &mut pass.seat);
        }
        turn.give(&self.table, &mut pass.seat);
        answer
    }

    /// Ends the document, as caller 0 with line 0, and gives the place of End. Its entry counts as the pass's own. It is
    /// refused as by `Book::end`.
    pub fn end<R: Wait>(&self, rt: &R, pass: &mut Pass) -> Result<u32, Refused>
        requires { pass.old.table ≡ Some self.now }
        ensures turn { Turned self.now.terms.frames (λ old new. IsEntered old new Ends result) pass.old.seen pass.new.seen pass.old.own pass.new.own (placed result) }
        ensures same { (pass.new.table ≡ pass.old.table) × (pass.new.who ≡ pass.old.who) }
    {
        let mut turn = self.table.take(rt, &mut pass.seat);
        let answer = turn.value().book.end();
        if answer.is_ok() {
            turn.commit(&self.table, &mut pass.seat);
        }
        turn.give(&self.table, &mut pass.seat);
        answer
    }

    /// Where the item of this name stands, as by `Book::ask`. It takes no memory.
    pub fn ask<R: Wait>(&self, rt: &R, pass: &mut Pass, name: &Name) -> Result<Answer, Refused>
        requires { pass.old.table ≡ Some self.now }
        ensures turn { Turned self.now.terms.frames (λ old new. IsAsked old name.now result × (new ≡ old)) pass.old.seen pass.new.seen pass.old.own pass.new.own [] }
        ensures same { (pass.new.table ≡ pass.old.table) × (pass.new.who ≡ pass.old.who) }
    {
        let mut turn = self.table.take(rt, &mut pass.seat);
        let answer = turn.value().book.ask(name);
        turn.give(&self.table, &mut pass.seat);
        answer
    }

    /// Looks whether there is a frame to make, as by `Book::look`.
    pub fn look<R: Wait>(&self, rt: &R, alloc: Global, pass: &mut Pass) -> Look
        requires { pass.old.table ≡ Some self.now }
        ensures turn { Turned self.now.terms.frames (λ old new. IsLooked old result × (new ≡ old)) pass.old.seen pass.new.seen pass.old.own pass.new.own [] }
        ensures same { (pass.new.table ≡ pass.old.table) × (pass.new.who ≡ pass.old.who) }
    {
        let mut turn = self.table.take(rt, &mut pass.seat);
        let answer = turn.value().book.look(alloc);
        turn.give(&self.table, &mut pass.seat);
        answer
    }

    /// Publishes for line `line`, as the pass's caller, a frame whose job was given by a look at what the pass has seen, as
    /// by `Book::publish`. A frame that was made outside the lock is entered only where it is legal.
    pub fn publish<R: Wait>(
        &self,
        rt: &R,
        alloc: Global,
        pass: &mut Pass,
        line: u32,
        solved: Solved,
    ) -> Publish
        requires pass { pass.old.table ≡ Some self.now }
        requires job { IsJobOf pass.old.seen self.now.terms.frames solved.job.front solved.job.scene solved.job.places }
        ensures turn { Turned self.now.terms.frames (λ old new. IsPublished old new pass.old.who line solved result) pass.old.seen pass.new.seen pass.old.own pass.new.own (published result) }
        ensures committed { IsPublishedAt result (λ place. IsCommitted pass.new.seen place pass.old.who line solved.frame) }
        ensures same { (pass.new.table ≡ pass.old.table) × (pass.new.who ≡ pass.old.who) }
    {
        let mut turn = self.table.take(rt, &mut pass.seat);
        let answer = turn.value().book.publish(alloc, pass.who, line, solved);
        if answer.is_published() {
            turn.commit(&self.table, &mut pass.seat);
        }
        turn.give(&self.table, &mut pass.seat);
        answer
    }
}
