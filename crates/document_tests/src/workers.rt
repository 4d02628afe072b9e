//! What no clause says: with ample memory a worker makes the frames that are wanted, looks once before each and once more,
//! and stops. Expected values are by the order of what a look answers, of a linked pair whose second frame changes no place.
ghost use Rattle.std.specs.Prelude.{◌≤◌};
ghost use Rattle.doc_book.specs.Legal.{most_frames};

use doc_book::{Alone, Book, Told};
use edit_rules::Edit;
use gate_bell::{AFTER_SOLVING, BEFORE_LOOK, Bell, Gate};
use layout_worker::{Last, Tally, work};
use scene_model::Form;
use std::alloc::Global;
use std::sync::Wait;
use std::sync::atomic::{AtomicU64, Ordering};
use std::test::Fail;
use std::thread::Threads;
use units::Name;

/// A gate that counts looks and frames.
#[derive(Drop)]
struct CountingGate {
    looks: AtomicU64,
    frames: AtomicU64,
}

impl CountingGate {
    fn new() -> CountingGate {
        CountingGate {
            looks: AtomicU64::new(0),
            frames: AtomicU64::new(0),
        }
    }

    /// How many looks, and how many frames that were made.
    fn counts(&self) -> (u64, u64) {
        (
            self.looks.load(Ordering::SeqCst),
            self.frames.load(Ordering::SeqCst),
        )
    }
}

impl Gate for CountingGate {
    fn arrive(&self, point: u8, _who: u8) {
        if point == BEFORE_LOOK {
            self.looks.fetch_add(1, Ordering::SeqCst);
        }
        if point == AFTER_SOLVING {
            self.frames.fetch_add(1, Ordering::SeqCst);
        }
    }
}

fn named(letter: u8) -> Result<Name, Fail> {
    Ok(Name::of(&[letter]).ok_or("a name")?)
}

/// A box of 10 by 10 at (x, 0).
fn a_box(letter: u8, x: i32) -> Result<Edit, Fail> {
    Ok(Edit::Put {
        name: named(letter)?,
        form: Form::Box,
        x,
        y: 0,
        w: 10,
        h: 10,
    })
}

/// Enters an edit.
fn enter(alloc: Global, book: &mut Book, edit: Edit) -> Result<(), Fail> {
    if book.edit(alloc, 1, 2, edit).is_err() {
        return Err("an accepted edit".into());
    }
    Ok(())
}

/// A document with a linked pair, and this budget of frames.
fn linked_pair(alloc: Global, frames: u32) -> Result<Book, Fail>
    requires { frames ≤ most_frames }
{
    let mut book = Book::new(alloc, frames);
    enter(alloc, &mut book, a_box(b'a', 0)?)?;
    enter(alloc, &mut book, a_box(b'b', 200)?)?;
    let link = Edit::Join {
        name: named(b'l')?,
        a: named(b'a')?,
        b: named(b'b')?,
    };
    enter(alloc, &mut book, link)?;
    Ok(book)
}

/// What worker 11 comes to, alone at a document.
fn worked<R: Threads + Wait + Sync, G: Gate>(
    rt: &R,
    alloc: Global,
    book: &mut Book,
    gate: &G,
) -> Tally {
    let bell = Bell::new();
    let mut desk = Alone {
        book,
        who: 11,
        told: Told::new(),
    };
    work(rt, alloc, &mut desk, gate, &bell, 11)
}

fn tally(published: u32, last: Last) -> Tally {
    Tally {
        published,
        stale: 0,
        idle: 0,
        last,
    }
}

#[test]
fn a_worker_stops_where_the_budget_is_spent(rt: HostRuntime) -> Result<(), Fail> {
    let alloc = rt.alloc();
    for frames in 0..3 {
        let gate = CountingGate::new();
        let mut book = linked_pair(alloc, frames)?;
        let worked = worked(&rt, alloc, &mut book, &gate);
        let count = u64::from(frames);
        assert_eq!(rt; worked, tally(frames, Last::Spent));
        assert_eq!(rt; gate.counts(), (count + 1, count));
        assert_eq!(rt; book.history().len() as u64, 3 + count);
    }
    Ok(())
}

#[test]
fn a_worker_stops_where_the_document_was_ended(rt: HostRuntime) -> Result<(), Fail> {
    let alloc = rt.alloc();
    let gate = CountingGate::new();
    let mut book = linked_pair(alloc, 64)?;
    assert_eq!(rt; book.end(), Ok(3));
    assert_eq!(rt;
        worked(&rt, alloc, &mut book, &gate),
        tally(0, Last::Ending)
    );
    assert_eq!(rt; gate.counts(), (1, 0));
    Ok(())
}
