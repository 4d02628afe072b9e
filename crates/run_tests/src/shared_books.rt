//! What no clause says: with ample memory a book is opened, and its callers' edits, undos and frames are entered.
mod crowd;
mod laying;
mod log;
mod replay;

ghost use Rattle.std.specs.Prelude.{◌≡◌, ◌≤◌, Some, All, IfOk, length};

use self::crowd::call_beside;
use self::laying::{Laid, a_box, look_and_solve, told};
use self::log::{Log, frames_in};
use self::replay::all_follow;
use doc_book::{Answer, Book, Entry, Spot};
use edit_rules::Edit;
use shared_book::{Pass, SharedBook};
use std::alloc::{AllocError, Global};
use std::process::Abort;
use std::sync::{Mutex, Wait};
use std::test::Fail;
use std::thread::Threads;
use units::Name;

/// Opens a document without entries.
#[tactic(auto, using(crate::proofs::Looking::as_many))]
fn opened(alloc: Global, frames: u32, whos: &[u8]) -> Result<(SharedBook, Vec<Pass>), Fail>
    requires { (1 ≤ length whos.now) × (length whos.now ≤ 64) × (frames ≤ 512) }
    ensures passes { IfOk result (λ t. All (λ p. p.table ≡ Some t.0) t.1.items) }
    ensures count { IfOk result (λ t. (length t.1.items ≡ length whos.now) × (t.0.seats ≡ length whos.now)) }
{
    let Ok((book, passes)) = SharedBook::open(alloc, Book::new(alloc, frames), whos) else {
        return Err("memory".into());
    };
    Ok((book, passes))
}

/// Whether the edit is entered at this place.
fn enters<R: Threads + Wait + Sync>(
    rt: &R,
    alloc: Global,
    book: &SharedBook,
    pass: &mut Pass,
    edit: Edit,
    place: u32,
) -> bool
    requires { pass.old.table ≡ Some book.now }
    ensures { pass.new.table ≡ Some book.now }
{
    book.edit(rt, alloc, pass, 2, edit) == Ok(place)
}

/// Whether it is told that the item stands at (5, 5), at two entries.
fn tells<R: Threads + Wait + Sync>(rt: &R, book: &SharedBook, pass: &mut Pass, name: &Name) -> bool
    requires { pass.old.table ≡ Some book.now }
    ensures { pass.new.table ≡ Some book.now }
{
    let there = Answer {
        spot: Spot::Shape { x: 5, y: 5 },
        front: 2,
    };
    book.ask(rt, pass, name) == Ok(there)
}

/// Two callers, by turns in one thread: a frame comes too late, and the next one doesn't.
fn play_by_hand<R: Threads + Wait + Abort + Sync>(
    rt: &R,
    alloc: Global,
    book: &SharedBook,
    one: &mut Pass,
    eleven: &mut Pass,
) -> Result<(), Fail>
    requires { (one.old.table ≡ Some book.now) × (eleven.old.table ≡ Some book.now) }
    ensures { (one.new.table ≡ Some book.now) × (eleven.new.table ≡ Some book.now) }
{
    let name = Name::of(b"a").ok_or("a name")?;
    assert!(rt; enters(rt, alloc, book, one, a_box(name, 0), 0));
    let late = look_and_solve(rt, alloc, book, eleven).ok_or("a job")?;
    assert!(rt; late.front() == 1);
    let moved = Edit::Move { name, x: 5, y: 5 };
    assert!(rt; enters(rt, alloc, book, one, moved, 1));
    let stale = Laid::Stale { front: 2, made: 1 };
    assert!(rt; told(book.publish(rt, alloc, eleven, 0, late)) == stale);
    assert!(rt; tells(rt, book, one, &name));
    let solved = look_and_solve(rt, alloc, book, eleven).ok_or("a job")?;
    let published = Laid::Published { place: 2 };
    assert!(rt; told(book.publish(rt, alloc, eleven, 0, solved)) == published);
    Ok(())
}

/// The book, once both passes are back.
fn closed(alloc: Global, book: SharedBook, one: Pass, eleven: Pass) -> Result<Book, Fail>
    requires passes { (one.table ≡ Some book) × (eleven.table ≡ Some book) }
    requires all { book.seats ≡ 2 }
{
    let mut passes = Vec::with_capacity(alloc, 2)?;
    passes.push_reserved(one);
    passes.push_reserved(eleven);
    Ok(book.close(passes))
}

fn shared_by_hand<R: Threads + Wait + Abort + Sync>(rt: &R, alloc: Global) -> Result<Book, Fail> {
    let (book, mut passes) = opened(alloc, 64, &[1, 11])?;
    let mut eleven = passes.pop().unwrap();
    let mut one = passes.pop().unwrap();
    passes.destroy_empty();
    play_by_hand(rt, alloc, &book, &mut one, &mut eleven)?;
    closed(alloc, book, one, eleven)
}

#[test]
fn shared_book_by_hand(rt: HostRuntime) -> Result<(), Fail> {
    let book = shared_by_hand(&rt, rt.alloc())?;
    assert_eq!(rt; book.front(), 3);
    assert!(rt; all_follow(rt.alloc(), book.history())?);
    Ok(())
}

/// The book that these callers have shared, each in a thread of its own, and what each was answered.
fn shared_beside<R: Threads + Wait + Sync>(
    rt: &R,
    alloc: Global,
    whos: &[u8],
    logs: &[Mutex<Log>],
) -> Result<Book, Fail>
    requires { (1 ≤ length whos.now) × (length whos.now ≤ 64) }
{
    let (book, mut passes) = opened(alloc, 512, whos)?;
    call_beside(rt, alloc, &book, passes.as_mut_slice(), logs);
    Ok(book.close(passes))
}

/// A log for each caller.
fn logs_of(alloc: Global, whos: &[u8]) -> Result<Vec<Mutex<Log>>, AllocError> {
    let mut logs = Vec::new(alloc);
    for _ in whos {
        logs.push(Mutex::new(Log::new(alloc)))?;
    }
    Ok(logs)
}

/// How many frames and how many entries the callers were answered, each of whose logs agrees with the history.
fn noted(history: &[Entry], whos: &[u8], logs: Vec<Mutex<Log>>) -> Result<(u64, u64), Fail> {
    let mut frames = 0_u64;
    let mut entries = 0_u64;
    for (who, log) in whos.iter().zip(logs) {
        let log = log.into_inner();
        if !log.agrees(history, *who) {
            return Err("a log that agrees".into());
        }
        frames = frames.saturating_add(u64::from(log.frames));
        entries = entries.saturating_add(log.made.len() as u64);
    }
    Ok((frames, entries))
}

#[test]
fn a_crowd_shares_a_book(rt: HostRuntime) -> Result<(), Fail> {
    let alloc = rt.alloc();
    let whos = [1, 2, 3, 4, 5, 6, 7, 11];
    let logs = logs_of(alloc, &whos)?;
    let book = shared_beside(&rt, alloc, &whos, logs.as_slice())?;
    let (frames, entries) = noted(book.history(), &whos, logs)?;
    assert!(rt; 0 < frames && frames == frames_in(book.history()));
    assert_eq!(rt; book.history().len() as u64, entries);
    assert!(rt; all_follow(alloc, book.history())?);
    Ok(())
}
