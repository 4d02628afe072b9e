//! Several seats, each in a thread of its own, add to one log.
mod log;
mod member;

ghost use Rattle.std.specs.Prelude.{◌≡◌, ◌≤◌, All, IfSome, length};
ghost use mathlib.Core.List.{IsPrefix};
ghost use Rattle.turn_table.specs.States.{IsIdleAt};

use self::log::Log;
use self::member::Member;
use std::alloc::Global;
use std::sync::Wait;
use std::test::Fail;
use std::thread;
use std::thread::Threads;
use turn_table::{Seat, TurnTable, open};

const ROUNDS: usize = 250;

const LIMIT: u32 = 100_000;

// Each turn adds the mark twice, by two commits.
fn add_twice<R: Wait>(rt: &R, table: &TurnTable<Log>, seat: &mut Seat<Log>, mark: u32)
    requires { IsIdleAt table.now seat.old }
    ensures { IsIdleAt table.now seat.new }
{
    let mut turn = table.take(rt, seat);
    for _ in 0..2 {
        if turn.value().push(mark) {
            turn.commit(table, seat);
        }
    }
    turn.give(table, seat);
}

fn add_rounds<R: Wait>(rt: &R, table: &TurnTable<Log>, seat: &mut Seat<Log>, mark: u32)
    requires { IsIdleAt table.now seat.old }
    ensures { IsIdleAt table.now seat.new }
{
    for _ in 0..ROUNDS {
        add_twice(rt, table, seat, mark);
    }
}

fn add_beside<R: Threads + Wait + Sync>(rt: &R, table: &TurnTable<Log>, seats: &mut [Seat<Log>])
    requires { All (λ seat. IsIdleAt table.now seat) seats.old }
    ensures count { length seats.new ≡ length seats.old }
    ensures idle { All (λ seat. IsIdleAt table.now seat) seats.new }
{
    let add = |i: usize, seat: &mut Seat<Log>|
        requires { IsIdleAt table.now seat.old }
        ensures { IsIdleAt table.entry.now seat.new }
    { add_rounds(rt, table, seat, u32::try_from(i).unwrap_or(u32::MAX)) };
    thread::for_each_mut(rt, seats, 8, &add);
}

fn filled<R: Threads + Wait + Sync>(rt: &R, alloc: Global, log: Log, seats: u32) -> Option<Log>
    requires { (1 ≤ seats) × (seats ≤ 64) }
    ensures limit { IfSome result (λ full. full.limit ≡ log.limit) }
    ensures begins { IfSome result (λ full. IsPrefix log.marks.items full.marks.items) }
{
    let Ok((table, mut seats)) = open(alloc, log, seats) else {
        return None;
    };
    add_beside(rt, &table, seats.as_mut_slice());
    Some(table.close(seats))
}

fn by_two<R: Threads + Wait + Sync>(rt: &R, alloc: Global) -> Option<Log> {
    let Ok((table, mut seats)) = open(alloc, Log::new(alloc, LIMIT), 2) else {
        return None;
    };
    let second = seats.pop().unwrap();
    let first = seats.pop().unwrap();
    seats.destroy_empty();
    let mut first = Member::new(1, first);
    let mut second = Member::new(2, second);
    first.add(rt, &table);
    second.add(rt, &table);
    first.add(rt, &table);
    Member::close(alloc, table, first, second)
}

/// Whether the log begins with the two marks that it had, and each seat added its own as often as it should.
fn is_full(log: &Log, seats: u32) -> bool {
    if log.marks.len() != 2 + 2 * ROUNDS * seats as usize {
        return false;
    }
    for mark in 0..seats {
        if log.marks.iter().filter(|x| **x == mark).count() != 2 * ROUNDS {
            return false;
        }
    }
    log.marks.starts_with(&[7_000, 8_000])
}

/// A log with two marks.
fn begun(alloc: Global) -> Result<Log, Fail> {
    let mut log = Log::new(alloc, LIMIT);
    if !log.push(7_000) || !log.push(8_000) {
        return Err("memory".into());
    }
    Ok(log)
}

#[test]
fn seats_in_threads_add_to_one_log(rt: HostRuntime) -> Result<(), Fail> {
    for seats in [1, 4, 64] {
        let log = begun(rt.alloc())?;
        let log = filled(&rt, rt.alloc(), log, seats).ok_or("memory")?;
        assert!(rt; is_full(&log, seats), "{seats} seats");
    }
    Ok(())
}

#[test]
fn a_table_closes_with_the_entries_in_order(rt: HostRuntime) -> Result<(), Fail> {
    let log = by_two(&rt, rt.alloc()).ok_or("memory")?;
    assert!(rt; log.marks.as_slice() == [1, 2, 1].as_slice());
    Ok(())
}
