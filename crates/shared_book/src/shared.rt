//! The shared book.
use crate::room::Room;
use crate::shelf::Shelf;
use std::marker::Model;
use std::sync::Mutex;
use turn_table::TurnTable;

/// A document that callers share, each with a pass of its own. Contracts see which one it is, the history and the budget
/// of frames with which it was opened, and the count of its passes (`Opened`). None of this changes while it is open.
#[derive(Drop)]
pub struct SharedBook {
    pub(crate) table: TurnTable<Shelf>,
    pub(crate) room: Mutex<Room>,
}

impl Model for SharedBook {
    ghost use Rattle.std.specs.Prelude.{◌≤◌};
    ghost use Rattle.turn_table.specs.States.{Opened};
    ghost use Rattle.doc_book.specs.declared.entries.Entry.{Entry};
    ghost use Rattle.doc_book.specs.declared.desks.Terms.{Terms};

    ghost Value = { Opened Entry Terms };

    ghost view = { λ s. s.table };

    ghost invariant = { λ s. s.table.seats ≤ 64 };
}
