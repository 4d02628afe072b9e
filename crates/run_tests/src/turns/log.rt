//! A list of marks under a limit, as a value of a table.
ghost use Rattle.std.specs.Prelude.{◌≡◌, ◌++◌, ◌∷◌, ◌<◌, ◌^◌, [], MatchBool, vec_len};

use std::alloc::Global;
use turn_table::Booked;

#[derive(Drop)]
pub struct Log {
    pub marks: Vec<u32>,
    pub limit: u32,
    ghost short: { vec_len marks < 2 ^ 32 },
}

impl Booked for Log {
    type Entry = u32;

    type Terms = u32;

    ghost entries = { λ log. log.marks.items };

    ghost terms = { λ log. log.limit };

    fn count(&self) -> u32 {
        self.marks.len() as u32
    }
}

impl Log {
    pub fn new(alloc: Global, limit: u32) -> Log
        ensures { (result.marks.items ≡ []) × (result.limit ≡ limit) }
    {
        Log {
            marks: Vec::new(alloc),
            limit,
        }
    }

    /// Adds a mark, unless the log is at its limit or there is no memory.
    pub fn push(&mut self, mark: u32) -> bool
        ensures marks { MatchBool result (self.new.marks.items ≡ self.old.marks.items ++ mark ∷ []) (self.new.marks.items ≡ self.old.marks.items) }
        ensures limit { self.new.limit ≡ self.old.limit }
    {
        self.marks.len() < self.limit as usize && self.marks.push(mark).is_ok()
    }
}
