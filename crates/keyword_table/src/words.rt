// A table of words: the row of a spelling, and the spelling of a row.
ghost use Rattle.std.specs.Prelude.{◌≡◌, ◌↔◌, ◌<◌, ℕ, List, Some, length, Contains, IsTrue, IsNone, IfSome, bytes_eq, slice_get};
ghost use Rattle.std.specs.List.{position_from};
ghost use Rattle.std.specs.Borrow.{Bor};
ghost use Rattle.keyword_table.specs.Spellings.{all_differ, spellings};

use std::marker::Model;

/// A table of N words, whose spellings differ. Its rows are numbered from 0.
#[derive(Drop)]
pub struct Words<const N: usize> {
    rows: &'static [&'static [u8]],
}

impl<const N: usize> Model for Words<N> {
    ghost use Rattle.std.specs.Prelude.{◌≡◌, List, ℕ, IsTrue, length};
    ghost use Rattle.keyword_table.specs.Spellings.{all_differ, spellings};

    ghost Value = { List (List ℕ) };

    ghost view = { λ w. spellings w.rows.now };

    ghost invariant = { λ w. (length w.rows.now ≡ N) × IsTrue (all_differ (spellings w.rows.now)) };
}

impl<const N: usize> Words<N> {
    /// The table of these spellings, which differ.
    pub fn new(rows: &'static [&'static [u8]]) -> Words<N>
        requires count { length rows.now ≡ N }
        requires differ { IsTrue (all_differ (spellings rows.now)) }
        ensures rows { result ≡ spellings rows.now }
        ensures count { length result ≡ N }
    {
        Words { rows }
    }

    /// The row with this spelling. `None` comes exactly where no row has it.
    pub fn find(&self, word: &[u8]) -> Option<usize>
        ensures row { IfSome result (λ row. slice_get self.now row ≡ Some word.now) }
        ensures in_table { IfSome result (λ row. row < N) }
        ensures none { IsNone result ↔ ¬ Contains self.now word.now }

        // The row whose spelling it is: finding the word of a row gives that row back.
        ensures own { (row : ℕ) → slice_get self.now row ≡ Some word.now → result ≡ Some row }
    {
        find_row(self.rows, word)
    }

    /// The spelling of a row.
    pub fn word(&self, row: usize) -> &[u8]
        requires { row < N }
        ensures { slice_get self.now row ≡ Some result.now }
    {
        let rows = self.rows;
        rows[row]
    }
}

// The first row with this spelling.
fn find_row(rows: &[&[u8]], word: &[u8]) -> Option<usize>
    ensures { result ≡ position_from (λ (row : Bor (List ℕ)). bytes_eq row.now word.now) 0 rows.now }
{
    rows.iter().position(|row| *row == word)
}
