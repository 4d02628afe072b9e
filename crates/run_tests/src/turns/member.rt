//! A seat that adds one mark alone, as a caller with a seat of its own would. The contracts of the table suffice to show whose each entry is.
ghost use Rattle.std.specs.Prelude.{◌≡◌, ◌≤◌, ◌<◌, ◌⊎◌, true, ℕ, IfSome, length, slice_index, []};
ghost use mathlib.Core.List.{IsPrefix};
ghost use Rattle.turn_table.specs.Marks.{all_marked};

use super::log::Log;
use std::alloc::Global;
use std::sync::Wait;
use turn_table::{Seat, TurnTable};

#[derive(Drop)]
pub struct Member {
    pub mark: u32,
    pub seat: Seat<Log>,
    ghost marked: { all_marked mark seat.seen seat.own ≡ true },
}

impl Member {
    ghost use Rattle.turn_table.specs.States.{IsIdleAt};

    pub fn new(mark: u32, seat: Seat<Log>) -> Member
        requires { seat.own ≡ [] }
        ensures { (result.seat ≡ seat) × (result.mark ≡ mark) }
    {
        Member { mark, seat }
    }

    pub fn add<R: Wait>(&mut self, rt: &R, table: &TurnTable<Log>) -> bool
        requires { IsIdleAt table.now self.old.seat }
        ensures seat { IsIdleAt table.now self.new.seat }
        ensures mark { self.new.mark ≡ self.old.mark }
        ensures seen { IsPrefix self.old.seat.seen self.new.seat.seen }
    {
        let mut turn = table.take(rt, &mut self.seat);
        let added = turn.value().push(self.mark);
        if added {
            turn.commit(table, &mut self.seat);
        }
        turn.give(table, &mut self.seat);
        added
    }

    /// Closes the table. Each entry since the opening is the mark of one of the two members.
    pub fn close(alloc: Global, table: TurnTable<Log>, first: Member, second: Member) -> Option<Log>
        requires idle { IsIdleAt table first.seat × IsIdleAt table second.seat }
        requires all { table.seats ≡ 2 }
        ensures limit { IfSome result (λ log. log.limit ≡ table.terms) }
        ensures begins { IfSome result (λ log. IsPrefix table.entries log.marks.items) }
        ensures marked { IfSome result (λ log. (place : ℕ) → length table.entries ≤ place → place < length log.marks.items → (slice_index log.marks.items place ≡ first.mark) ⊎ (slice_index log.marks.items place ≡ second.mark)) }
    {
        let Ok(mut seats) = Vec::with_capacity(alloc, 2) else {
            return None;
        };
        seats.push_reserved(first.seat);
        seats.push_reserved(second.seat);
        Some(table.close(seats))
    }
}
