//! What no clause says: that sessions and workers run beside each other, that a frame is published, and that a run ends.
//! Expected values are by what the lines ask for.
mod gates;

ghost use Rattle.std.specs.Prelude.{◌≤◌};

use self::gates::{SessionGate, WorkerGate};
use concurrent_run::{Beside, run_beside};
use doc_book::{Act, Book, Reply};
use gate_bell::{Gate, OpenGate};
use layout_worker::{Last, Tally};
use script_text::read;
use std::alloc::AllocGlobal;
use std::sync::Wait;
use std::test::Fail;
use std::thread::Threads;

const TWO_BOXES: &[u8] = b"dunnart 1
1 box a 0 0 10 10
1 box b 200 0 10 10
end
";

const ONE_BOX_EACH: &[u8] = b"dunnart 1
1 box a 0 0 10 10
2 box b 200 0 10 10
end
";

const LINES_OF_TWO: &[u8] = b"dunnart 1
1 box a 0 0 10 10
2 box c 0 200 10 10
1 box b 200 0 10 10
2 layout
1 link l a b
2 where c
1 layout
2 move c 5 5
2 undo
1 undo
end
";

/// Runs the bytes of a script.
fn run<R: AllocGlobal + Threads + Wait + Sync, G: Gate + Sync>(
    rt: &R,
    gate: &G,
    workers: u8,
    bytes: &[u8],
) -> Result<Beside, Fail>
    requires { workers ≤ 8 }
{
    let script = read(rt.alloc(), bytes).ok().ok_or("a script")?;
    match run_beside(rt, gate, 64, workers, &script) {
        Ok(beside) => Ok(beside),
        Err(_) => Err(Fail::from("memory")),
    }
}

/// How many entries there are by this caller, frames or others.
fn count(book: &Book, who: u8, frames: bool) -> usize {
    book.history()
        .iter()
        .filter(|entry| entry.who == who && matches!(entry.act, Act::Frame(_)) == frames)
        .count()
}

/// Whether no frame stands before this place.
fn no_frame_before(book: &Book, place: usize) -> bool {
    match book
        .history()
        .iter()
        .position(|entry| matches!(entry.act, Act::Frame(_)))
    {
        Some(first) => first >= place,
        None => true,
    }
}

/// How many of the replies are Accepted.
fn accepted(replies: &[Reply]) -> usize {
    replies
        .iter()
        .filter(|reply| matches!(reply, Reply::Accepted { .. }))
        .count()
}

/// How many of the replies are Published.
fn published(replies: &[Reply]) -> usize {
    replies
        .iter()
        .filter(|reply| matches!(reply, Reply::Published { .. }))
        .count()
}

/// How many lines of a session were replied to, and how many of them were accepted and published.
fn replied(beside: &Beside, session: usize) -> (usize, usize, usize) {
    match beside.replies.as_slice().get(session) {
        Some(replies) => (
            replies.len(),
            accepted(replies.as_slice()),
            published(replies.as_slice()),
        ),
        None => (0, 0, 0),
    }
}

/// The tally of a worker.
fn tally(beside: &Beside, worker: usize) -> Option<Tally> {
    beside.tallies.as_slice().get(worker).copied()
}

/// Whether a session has all its replies, and as many entries as they say.
fn is_played(beside: &Beside, who: u8, session: usize, lines: usize) -> bool {
    let made = (
        lines,
        count(&beside.book, who, false),
        count(&beside.book, who, true),
    );
    replied(beside, session) == made
}

/// Whether a worker has as many frames as its tally says, and no other entry.
fn has_worked(beside: &Beside, who: u8, worker: usize) -> bool {
    match tally(beside, worker) {
        Some(tally) => {
            tally.published as usize == count(&beside.book, who, true)
                && count(&beside.book, who, false) == 0
        }
        None => false,
    }
}

/// Whether the worker came too late at least once, and ended since the document was ending.
fn was_late(beside: &Beside) -> bool {
    match tally(beside, 0) {
        Some(tally) => tally.stale >= 1 && tally.last == Last::Ending,
        None => false,
    }
}

/// Whether the worker's frame came too late where its gate held it.
fn is_late_when_held<R: AllocGlobal + Threads + Wait + Sync>(
    rt: &R,
    gate: &WorkerGate,
) -> Result<bool, Fail> {
    let beside = run(rt, gate, 1, TWO_BOXES)?;
    Ok(no_frame_before(&beside.book, 2) && was_late(&beside))
}

#[test]
fn worker_held(rt: HostRuntime) -> Result<(), Fail> {
    let gate = WorkerGate::new();
    assert!(rt; is_late_when_held(&rt, &gate)?, "a stale frame");
    assert_eq!(rt; gate.late.count(), 0, "held to the limit");
    assert_eq!(rt; gate.past.count(), 2);
    Ok(())
}

/// Whether both sessions had one line each, which was accepted, where their gate held each for the other.
fn are_accepted_when_held<R: AllocGlobal + Threads + Wait + Sync>(
    rt: &R,
    gate: &SessionGate,
) -> Result<bool, Fail> {
    let beside = run(rt, gate, 1, ONE_BOX_EACH)?;
    let one = replied(&beside, 0) == (1, 1, 0);
    let two = replied(&beside, 1) == (1, 1, 0);
    Ok(beside.replies.len() == 8 && one && two)
}

#[test]
fn session_held(rt: HostRuntime) -> Result<(), Fail> {
    let gate = SessionGate::new();
    assert!(rt; are_accepted_when_held(&rt, &gate)?, "both sessions");
    assert_eq!(rt; gate.late.count(), 0, "held to the limit");
    assert_eq!(rt; gate.first.count(), 1);
    assert_eq!(rt; gate.second.count(), 1);
    Ok(())
}

/// Whether both sessions were played, the others had nothing to play, and the document was ended once.
fn is_whole(beside: &Beside) -> bool {
    beside.replies.len() == 8
        && is_played(beside, 1, 0, 5)
        && is_played(beside, 2, 1, 5)
        && is_played(beside, 8, 7, 0)
        && count(&beside.book, 0, false) == 1
        && count(&beside.book, 0, true) == 0
}

/// Whether both workers' tallies say what they entered.
fn have_worked(beside: &Beside) -> bool {
    beside.tallies.len() == 2 && has_worked(beside, 11, 0) && has_worked(beside, 12, 1)
}

#[test]
fn sessions_and_workers(rt: HostRuntime) -> Result<(), Fail> {
    for _ in 0..20u8 {
        let beside = run(&rt, &OpenGate, 2, LINES_OF_TWO)?;
        assert!(rt; is_whole(&beside), "sessions");
        assert!(rt; have_worked(&beside), "workers");
    }
    Ok(())
}
