//! A shared book is closed.
ghost use Rattle.std.specs.Prelude.{◌≡◌, true, ◌≤◌, [], Some, length, All, map};
ghost use Rattle.std.specs.Vec.{vec_capacity};
ghost use mathlib.Core.List.{IsPrefix};
ghost use Rattle.doc_book.specs.Legal.{IsLegal};
ghost use Rattle.shared_book.specs.Held.{OwnedOnce, seat_of, all_by};

use crate::pass::Pass;
use crate::room::Room;
use crate::shared::SharedBook;
use crate::shelf::Shelf;
use doc_book::Book;
use turn_table::Seat;

impl SharedBook {
    /// The book, once all its passes are back. Its history begins with the opening one and with what each pass has seen. Each
    /// entry since the opening is own of exactly one pass, and is by that pass's number, or is End by caller 0. It takes no
    /// memory.
    pub fn close(self, passes: Vec<Pass>) -> Book
        requires passes { All (λ p. p.table ≡ Some self) passes.items }
        requires all { length passes.items ≡ self.seats }
        ensures terms { result.budget ≡ self.terms.frames }
        ensures begins { IsPrefix self.entries result.history }
        ensures legal { IsLegal result.history result.budget }
        ensures seen { All (λ p. IsPrefix p.seen result.history) passes.items }
        ensures callers { All (λ p. all_by p.who result.history p.own ≡ true) passes.items }
        ensures own { OwnedOnce self result.history passes.items }
    {
        let SharedBook { table, room } = self;
        let Room { seats: room } = room.into_inner();
        let seats = seats_of(passes, room);
        let Shelf { book } = table.close(seats);
        // Asked for what its type keeps, which the proof needs.
        let _front = book.front();
        book
    }
}

/// The seats of the passes, in their order.
fn seats_of(mut passes: Vec<Pass>, mut room: Vec<Seat<Shelf>>) -> Vec<Seat<Shelf>>
    requires { (room.items ≡ []) × (length passes.items ≤ vec_capacity room) }
    ensures seats { result.items ≡ map seat_of passes.items }
    ensures own { All (λ p. all_by p.who p.seen p.own ≡ true) passes.items }
{
    while let Some(pass) = passes.pop() {
        room.push_reserved(pass.into_seat());
    }
    passes.destroy_empty();
    room.as_mut_slice().reverse();
    room
}
