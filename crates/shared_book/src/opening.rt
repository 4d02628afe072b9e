//! A book is opened for callers.
ghost use Rattle.std.specs.Prelude.{◌≡◌, ◌≤◌, [], length, IfOk, IfErr, All};
ghost use Rattle.std.specs.Vec.{vec_capacity};
ghost use Rattle.shared_book.specs.Held.{IsFresh, whos_of};
ghost use Rattle.shared_book.specs.Dealing.{AllFreshSeats};

use crate::pass::Pass;
use crate::room::Room;
use crate::shared::SharedBook;
use crate::shelf::Shelf;
use doc_book::Book;
use std::alloc::Global;
use std::sync::Mutex;
use turn_table::{Seat, Unopened};

/// The most passes of one book.
pub const MOST_PASSES: usize = 64;

impl SharedBook {
    /// Opens a book for 1 to 64 callers with these numbers, and gives a pass for each, in this order. Each pass has seen the
    /// history of the book, and owns no entry. It makes the room that `close` needs. It fails for want of memory alone, and
    /// then the book comes back as it was.
    pub fn open(
        alloc: Global,
        book: Book,
        whos: &[u8],
    ) -> Result<(SharedBook, Vec<Pass>), Unopened<Book>>
        requires { (1 ≤ length whos.now) × (length whos.now ≤ 64) }
        ensures book { IfOk result (λ t. (t.0.entries ≡ book.history) × (t.0.terms.frames ≡ book.budget) × (t.0.seats ≡ length whos.now)) }
        ensures passes { IfOk result (λ t. (whos_of t.1.items ≡ whos.now) × All (IsFresh t.0) t.1.items) }
        ensures memory { IfErr result (λ unopened. unopened.value ≡ book) }
    {
        let Ok(room) = Vec::with_capacity(alloc, MOST_PASSES) else {
            return Err(Unopened { value: book });
        };
        let Ok(passes) = Vec::with_capacity(alloc, whos.len()) else {
            return Err(Unopened { value: book });
        };
        let (table, seats) = match turn_table::open(alloc, Shelf { book }, whos.len() as u32) {
            Ok(opened) => opened,
            Err(unopened) => {
                let Unopened { value } = unopened;
                let Shelf { book } = value;
                return Err(Unopened { value: book });
            }
        };
        let shared = SharedBook {
            table,
            room: Mutex::new(Room { seats: room }),
        };
        let passes = hand_out(&shared, seats, whos, passes);
        Ok((shared, passes))
    }
}

/// A pass for each number, with a seat of its own.
fn hand_out(
    shared: &SharedBook,
    mut seats: Vec<Seat<Shelf>>,
    whos: &[u8],
    mut passes: Vec<Pass>,
) -> Vec<Pass>
    requires seats { (length seats.items ≡ length whos.now) × AllFreshSeats shared.now seats.items }
    requires passes { (passes.items ≡ []) × (length whos.now ≤ vec_capacity passes) }
    ensures { (whos_of result.items ≡ whos.now) × All (IsFresh shared.now) result.items }
{
    for k in 0..whos.len() {
        let seat = seats.pop().unwrap();
        passes.push_reserved(Pass::new(whos[k], seat));
    }
    seats.destroy_empty();
    passes
}
