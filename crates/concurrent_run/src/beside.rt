//! A whole run beside each other: both branches, and the document closed.
ghost use Rattle.std.specs.Prelude.{◌≡◌, ◌+◌, ◌≤◌, [], length, IfOk};
ghost use Rattle.doc_book.specs.Legal.{most_frames};
ghost use Rattle.concurrent_run.specs.Beside.{IsRunBeside};
ghost use Rattle.concurrent_run.specs.Dealing.{ArePeople};
ghost use Rattle.concurrent_run.specs.Gathering.{HasRoom};

use crate::branches::branches;
use crate::dealing::{People, callers, deal};
use crate::gathering::{Room, make_room, shut};
use doc_book::{Book, Reply};
use gate_bell::Gate;
use layout_worker::Tally;
use script_text::{Line, Script};
use shared_book::SharedBook;
use std::alloc::{AllocGlobal, Global};
use std::sync::Wait;
use std::thread::Threads;
use units::{Memory, Sequence};

/// What came of sessions and workers beside each other.
#[derive(Drop)]
pub struct Beside {
    /// The document, which ends with End.
    pub book: Book,
    /// The replies by session: eight lists, session 1 first.
    pub replies: Sequence<Sequence<Reply>>,
    /// The tallies of the workers, worker 11 first.
    pub tallies: Sequence<Tally>,
}

/// Plays the lines of a script, its sessions beside each other and beside so many workers, on a new document with a budget
/// of `frames` frames, at most 512, and ends it. There are at most eight workers, with the callers' numbers 11, 12 and so on. When
/// all sessions have ended, the document is ended behind all replies, and the workers end. It waits: for turns, at
/// the bell, and as the gate does.
///
/// `Memory` is want of memory, of the run itself, a session or a worker. It doesn't stop the others: the document is ended
/// and all have ended before the answer is given.
pub fn run_beside<R: AllocGlobal + Threads + Wait + Sync, G: Gate + Sync>(
    rt: &R,
    gate: &G,
    frames: u32,
    workers: u8,
    script: &Script,
) -> Result<Beside, Memory>
    requires frames { frames ≤ most_frames }
    requires workers { workers ≤ 8 }
    ensures { IfOk result (λ b. IsRunBeside frames workers script.now b.book b.replies b.tallies) }
{
    let alloc = rt.alloc();
    let whos = callers(alloc, workers)?;
    let Ok((book, passes)) = SharedBook::open(alloc, Book::new(alloc, frames), &whos) else {
        return Err(Memory);
    };
    let people = deal(alloc, &book, passes, workers)?;
    let room = make_room(alloc)?;
    run_open(rt, alloc, gate, script.lines(), book, people, room)
}

/// The same at a shared document, with its people and the room for what is gathered.
fn run_open<R: Threads + Wait + Sync, G: Gate + Sync>(
    rt: &R,
    alloc: Global,
    gate: &G,
    lines: &[Line],
    book: SharedBook,
    people: People,
    room: Room,
) -> Result<Beside, Memory>
    requires book { book.entries ≡ [] }
    requires people { ArePeople book people }
    requires all { (length people.workers.items ≤ 8) × (book.seats ≡ length people.workers.items + 9) }
    requires room { HasRoom room }
    ensures { IfOk result (λ b. IsRunBeside book.terms.frames (length people.workers.items) lines.now b.book b.replies b.tallies) }
{
    let mut people = people;
    branches(
        rt,
        alloc,
        gate,
        &book,
        lines,
        &mut people.run,
        &mut people.sessions,
        &mut people.workers,
    );
    let Some(beside) = shut(book, people, room) else {
        return Err(Memory);
    };
    Ok(beside)
}
