//! A desk at a shared book.
ghost use Rattle.std.specs.Prelude.{◌≡◌, Some};
ghost use Rattle.doc_book.specs.Turns.{untold};
ghost use Rattle.shared_book.specs.Calling.{called_at};

use crate::pass::Pass;
use crate::shared::SharedBook;
use doc_book::{Answer, Desk, Look, Publish, Refused, Solved, Told};
use edit_rules::Edit;
use gate_bell::Bell;
use std::alloc::Global;
use std::sync::Wait;
use units::Name;

/// A desk over a shared book and a pass of it. It rings the bell after an accepted edit or undo. Its calls may wait for
/// their turn.
#[derive(Drop)]
pub struct Caller<'a, R> {
    rt: &'a R,
    book: &'a SharedBook,
    pass: &'a mut Pass,
    bell: &'a Bell,
    told: Told,
    ghost of_this_book: { pass.now.table ≡ Some book.now },
}

impl<'a, R: Wait> Caller<'a, R> {
    /// A desk whose caller was told nothing yet.
    pub fn new(rt: &'a R, book: &'a SharedBook, pass: &'a mut Pass, bell: &'a Bell) -> Caller<'a, R>
        requires { pass.old.table ≡ Some book.now }
        ensures pass { (result.pass.ghost_name ≡ pass.entry.ghost_name) × (result.pass.now ≡ pass.old) }
        ensures book { result.book.now ≡ book.now }
        ensures told { result.told ≡ untold }
    {
        Caller {
            rt,
            book,
            pass,
            bell,
            told: Told::new(),
        }
    }
}

impl<R: Wait> Desk for Caller<'_, R> {
    type Key = SharedBook;

    ghost key = { λ c. c.book.now };

    ghost at = { λ c. called_at c.book.now c.pass.now c.told c.pass.ghost_name };

    fn edit(&mut self, alloc: Global, line: u32, edit: Edit) -> Result<u32, Refused> {
        let answer = self.book.edit(self.rt, alloc, self.pass, line, edit);
        if answer.is_ok() {
            self.bell.ring(self.rt);
        }
        answer
    }

    fn undo(&mut self, alloc: Global, line: u32) -> Result<u32, Refused> {
        let answer = self.book.undo(self.rt, alloc, self.pass, line);
        if answer.is_ok() {
            self.bell.ring(self.rt);
        }
        answer
    }

    fn ask(&mut self, name: &Name) -> Result<Answer, Refused> {
        self.book.ask(self.rt, self.pass, name)
    }

    fn look(&mut self, alloc: Global) -> Look {
        let look = self.book.look(self.rt, alloc, self.pass);
        self.told.note_look(&look);
        look
    }

    fn publish(&mut self, alloc: Global, line: u32, solved: Solved) -> Publish {
        let answer = self.book.publish(self.rt, alloc, self.pass, line, solved);
        self.told.note_publish(&answer);
        answer
    }
}
