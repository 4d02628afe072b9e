//! The right to call at a shared book.
ghost use Rattle.std.specs.Prelude.{◌≡◌, true, false, []};

use crate::shelf::Shelf;
use std::marker::Model;
use turn_table::Seat;

/// A caller's right to take turns at one shared book. Contracts see the book, the caller's number, the entries that were
/// seen, and the places of the caller's own ones (`Held`).
/// Its type keeps that it is in no turn, and that each own place holds an entry by the caller's number, or End by caller 0.
#[derive(Drop)]
pub struct Pass {
    pub(crate) who: u8,
    pub(crate) seat: Seat<Shelf>,
}

impl Model for Pass {
    ghost use Rattle.std.specs.Prelude.{◌≡◌, true, false};
    ghost use Rattle.shared_book.specs.Held.{Held, all_by};

    ghost Value = { Held };

    ghost view = { λ p. record { table = p.seat.table; number = p.seat.number; who = p.who; seen = p.seat.seen; own = p.seat.own } };

    ghost invariant = { λ p. (p.seat.in_turn ≡ false) × (all_by p.who p.seat.seen p.seat.own ≡ true) };
}

impl Pass {
    ghost use Rattle.shared_book.specs.Held.{seat_of, all_by};

    pub(crate) fn new(who: u8, seat: Seat<Shelf>) -> Pass
        requires { (seat.in_turn ≡ false) × (seat.own ≡ []) }
        ensures { (result.who ≡ who) × (result.table ≡ seat.table) × (result.seen ≡ seat.seen) × (result.own ≡ []) }
    {
        Pass { who, seat }
    }

    pub(crate) fn into_seat(self) -> Seat<Shelf>
        ensures seat { result ≡ seat_of self }
        ensures own { all_by self.who self.seen self.own ≡ true }
    {
        let Pass { who: _, seat } = self;
        seat
    }

    /// The caller's number.
    pub fn who(&self) -> u8
        ensures value { result ≡ self.now.who }
        ensures own { all_by self.now.who self.now.seen self.now.own ≡ true }
    {
        self.who
    }
}
