//! What came of all is gathered, and the document is closed.
ghost use Rattle.std.specs.Prelude.{◌≡◌, ◌+◌, ◌<◌, ◌≤◌, ◌++◌, ◌∷◌, [], true, false, Some, All, length, map, IfOk, IfSome};
ghost use Rattle.std.specs.List.{AllByRecursion};
ghost use Rattle.std.specs.Vec.{vec_capacity};
ghost use Rattle.concurrent_run.specs.Gathering.{gathered, session_pass, session_replies, worker_pass, worker_tally, lacked_memory, HasRoom, IsClosed};

use crate::beside::Beside;
use crate::dealing::People;
use crate::elements::{Session, Worker};
use doc_book::Reply;
use layout_worker::{Last, Tally};
use shared_book::{MOST_PASSES, Pass, SharedBook};
use std::alloc::Global;
use units::{Memory, Sequence};

/// The most sessions, and the most workers.
const MOST: usize = 8;

/// Room for what is gathered, made before anyone begins.
pub(crate) struct Room {
    passes: Vec<Pass>,
    lists: Vec<Sequence<Reply>>,
    tallies: Vec<Tally>,
}

impl Drop for Room {
    fn drop(self) {
        let Room {
            passes,
            lists,
            tallies,
        } = self;
        drop(passes);
        drop(lists);
        drop(tallies);
    }
}

impl Room {
    fn into_parts(self) -> (Vec<Pass>, Vec<Sequence<Reply>>, Vec<Tally>)
        ensures { (result.0 ≡ self.passes) × (result.1 ≡ self.lists) × (result.2 ≡ self.tallies) }
    {
        let Room {
            passes,
            lists,
            tallies,
        } = self;
        (passes, lists, tallies)
    }
}

/// Room for 64 passes, eight lists and eight tallies.
pub(crate) fn make_room(alloc: Global) -> Result<Room, Memory>
    ensures { IfOk result HasRoom }
{
    let passes = Vec::with_capacity(alloc, MOST_PASSES)?;
    let lists = Vec::with_capacity(alloc, MOST)?;
    let tallies = Vec::with_capacity(alloc, MOST)?;
    Ok(Room {
        passes,
        lists,
        tallies,
    })
}

/// Gathers the passes and closes the book. None where a session or a worker lacked memory.
pub(crate) fn shut(book: SharedBook, people: People, room: Room) -> Option<Beside>
    requires room { HasRoom room }
    requires few { (length people.sessions.items ≤ 8) × (length people.workers.items ≤ 8) }
    requires tables { All (λ p. p.table ≡ Some book) (gathered people.run people.sessions.items people.workers.items) }
    requires all { length (gathered people.run people.sessions.items people.workers.items) ≡ book.seats }
    ensures closed { IfSome result (λ g. IsClosed book (gathered people.run people.sessions.items people.workers.items) g.book) }
    ensures lists { IfSome result (λ g. map Some g.replies ≡ map session_replies people.sessions.items) }
    ensures tallies { IfSome result (λ g. g.tallies ≡ map worker_tally people.workers.items) }
    ensures enough { IfSome result (λ g. AllByRecursion (λ t. lacked_memory t.last ≡ false) g.tallies) }
{
    let (run, sessions, workers) = people.into_parts();
    let (mut passes, lists, tallies) = room.into_parts();
    passes.push_reserved(run);
    let (passes, lists) = take_sessions(sessions, passes, lists)?;
    let (passes, tallies) = take_workers(workers, passes, tallies)?;
    let book = book.close(passes);
    Some(Beside {
        book,
        replies: Sequence::of(lists),
        tallies: Sequence::of(tallies),
    })
}

/// The passes of the sessions, and their replies.
fn take_sessions(
    sessions: Vec<Session>,
    mut passes: Vec<Pass>,
    mut lists: Vec<Sequence<Reply>>,
) -> Option<(Vec<Pass>, Vec<Sequence<Reply>>)>
    requires lists { (lists.items ≡ []) × (length sessions.items ≤ vec_capacity lists) }
    requires passes { length passes.items + length sessions.items ≤ vec_capacity passes }
    ensures passes { IfSome result (λ t. (t.0.items ≡ passes.items ++ map session_pass sessions.items) × (vec_capacity t.0 ≡ vec_capacity passes)) }
    ensures lists { IfSome result (λ t. map Some t.1.items ≡ map session_replies sessions.items) }
{
    for session in sessions {
        let (pass, replies) = session.into_parts();
        passes.push_reserved(pass);
        lists.push_reserved(replies?);
    }
    Some((passes, lists))
}

/// The passes of the workers, and their tallies.
fn take_workers(
    workers: Vec<Worker>,
    mut passes: Vec<Pass>,
    mut tallies: Vec<Tally>,
) -> Option<(Vec<Pass>, Vec<Tally>)>
    requires tallies { (tallies.items ≡ []) × (length workers.items ≤ vec_capacity tallies) }
    requires passes { length passes.items + length workers.items ≤ vec_capacity passes }
    ensures passes { IfSome result (λ t. (t.0.items ≡ passes.items ++ map worker_pass workers.items) × (vec_capacity t.0 ≡ vec_capacity passes)) }
    ensures tallies { IfSome result (λ t. t.1.items ≡ map worker_tally workers.items) }
    ensures enough { IfSome result (λ t. AllByRecursion (λ y. lacked_memory y.last ≡ false) t.1.items) }
{
    for worker in workers {
        let (pass, tally) = worker.into_parts();
        passes.push_reserved(pass);
        if lacked_memory(tally.last) {
            return None;
        }
        tallies.push_reserved(tally);
    }
    Some((passes, tallies))
}

/// Whether it was for want of memory that a worker ended.
fn lacked_memory(last: Last) -> bool
    ensures { result ≡ lacked_memory last }
{
    match last {
        Last::Ending => false,
        Last::Spent => false,
        Last::Memory => true,
    }
}
