//! The lock's value.
ghost use Rattle.std.specs.Prelude.{◌≡◌};

use doc_book::{Book, Entry, Terms};
use turn_table::Booked;

/// A book, as the value of a table: it stands for the history, under the budget of frames.
#[derive(Drop)]
pub struct Shelf {
    pub book: Book,
}

impl Booked for Shelf {
    type Entry = Entry;

    type Terms = Terms;

    ghost entries = { λ s. s.book.history };

    ghost terms = { λ s. record { frames = s.book.budget } };

    fn count(&self) -> u32 {
        self.book.front()
    }
}
