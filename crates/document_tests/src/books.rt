//! What no clause says: with ample memory edits, undos, frames and End are entered. Expected values are by the order of the
//! causes: an edit is ended, then full, then refused by the scene; a look is ending, spent, idle, else a job. A shape that
//! an edit moved stands at its new corner, and where the edit is undone at the one before.
ghost use Rattle.std.specs.Prelude.{◌≡◌, IsTrue, IsSome, position};
ghost use Rattle.doc_book.specs.History.{end_place, is_end};

use doc_book::{Act, Answer, Book, Entry, Finish, Look, Publish, Refused, Solved, Spot};
use edit_rules::{Counted, Edit, Refusal};
use scene_model::Form;
use std::alloc::Global;
use std::test::Fail;
use std::thread::Threads;
use units::{Axis, Name};

/// A box of 10 by 10 at (x, 0).
fn a_box(name: Name, x: i32) -> Edit {
    Edit::Put {
        name,
        form: Form::Box,
        x,
        y: 0,
        w: 10,
        h: 10,
    }
}

/// What a look answers, or a publication of its frame.
#[derive(Clone, Copy, PartialEq, Eq)]
enum Laid {
    Published { place: u32 },
    Stale { front: u32, made: u32 },
    Idle { front: u32 },
    Spent { frames: u32, front: u32 },
    Ending { place: u32, front: u32 },
    Memory,
}

fn told(answer: Publish) -> Laid {
    match answer {
        Publish::Published { place } => Laid::Published { place },
        Publish::Stale { front, back } => Laid::Stale {
            front,
            made: back.front(),
        },
        Publish::Memory { back: _ } => Laid::Memory,
    }
}

/// Lays the document out once.
#[tactic(auto, using(doc_book::proofs::Jobs::looked_job))]
fn lay_out<R: Threads + Sync>(rt: &R, alloc: Global, book: &mut Book, who: u8, line: u32) -> Laid {
    match book.look(alloc) {
        Look::Job(job) => {
            let Ok(solved) = Solved::of(rt, alloc, job) else {
                return Laid::Memory;
            };
            return told(book.publish(alloc, who, line, solved));
        }
        Look::Idle { front } => return Laid::Idle { front },
        Look::Spent { frames, front } => return Laid::Spent { frames, front },
        Look::Ending { place, front } => return Laid::Ending { place, front },
        Look::Memory => return Laid::Memory,
    }
}

/// A worker makes a frame, an edit comes in between, and the frame comes too late.
fn lay_out_late<R: Threads + Sync>(rt: &R, alloc: Global, book: &mut Book, between: Edit) -> Laid {
    let Look::Job(job) = book.look(alloc) else {
        return Laid::Memory;
    };
    let Ok(solved) = Solved::of(rt, alloc, job) else {
        return Laid::Memory;
    };
    let _entered = book.edit(alloc, 1, 3, between);
    told(book.publish(alloc, 11, 0, solved))
}

/// Whether the edit is entered at this place.
fn enters(alloc: Global, book: &mut Book, who: u8, edit: Edit, place: u32) -> bool {
    book.edit(alloc, who, 2, edit) == Ok(place)
}

/// Whether the edit is refused for this cause, at so many entries.
fn refuses(alloc: Global, book: &mut Book, edit: Edit, refusal: Refusal, front: u32) -> bool {
    book.edit(alloc, 1, 2, edit) == Err(Refused { refusal, front })
}

/// Whether an undo is entered at this place.
fn undoes(alloc: Global, book: &mut Book, place: u32) -> bool {
    book.undo(alloc, 1, 2) == Ok(place)
}

/// Whether an undo is refused for this cause, at so many entries.
fn refuses_undo(alloc: Global, book: &mut Book, refusal: Refusal, front: u32) -> bool {
    book.undo(alloc, 1, 2) == Err(Refused { refusal, front })
}

/// Whether it is told that the item stands there, at so many entries.
fn tells(book: &Book, name: Name, spot: Spot, front: u32) -> bool {
    book.ask(&name) == Ok(Answer { spot, front })
}

/// Whether it is refused to tell where the item stands, for this cause, at so many entries.
fn refuses_to_tell(book: &Book, name: Name, refusal: Refusal, front: u32) -> bool {
    book.ask(&name) == Err(Refused { refusal, front })
}

/// Whether the variables of X have these places.
fn has_places(book: &Book, places: &[i64]) -> bool {
    book.places().x.as_slice() == places
}

#[test]
fn edits_are_entered_or_refused(rt: HostRuntime) -> Result<(), Fail> {
    let alloc = rt.alloc();
    let name = Name::of(b"a").ok_or("a name")?;
    let other = Name::of(b"b").ok_or("a name")?;
    let mut book = Book::new(alloc, 64);
    assert!(rt; enters(alloc, &mut book, 1, a_box(name, 3), 0));
    let taken = Refusal::Taken { name };
    assert!(rt; refuses(alloc, &mut book, a_box(name, 4), taken, 1));
    let range = Refusal::Range { value: 1_000_001 };
    assert!(rt; refuses(alloc, &mut book, a_box(other, 1_000_001), range, 1));
    assert!(rt; enters(alloc, &mut book, 2, a_box(other, 20), 1));
    assert!(rt; has_places(&book, &[3, 20]));
    Ok(())
}

#[test]
fn frames_are_entered_until_none_is_wanted(rt: HostRuntime) -> Result<(), Fail> {
    let alloc = rt.alloc();
    let name = Name::of(b"a").ok_or("a name")?;
    let mut book = Book::new(alloc, 2);
    assert!(rt; lay_out(&rt, alloc, &mut book, 1, 2) == Laid::Published { place: 0 });
    assert!(rt; lay_out(&rt, alloc, &mut book, 1, 3) == Laid::Idle { front: 1 });
    assert!(rt; enters(alloc, &mut book, 1, a_box(name, 3), 1));
    assert!(rt; lay_out(&rt, alloc, &mut book, 1, 5) == Laid::Published { place: 2 });
    let spent = Laid::Spent {
        frames: 2,
        front: 3,
    };
    assert!(rt; lay_out(&rt, alloc, &mut book, 1, 6) == spent);
    Ok(())
}

// The box stands at 0, is moved to 30 and drawn there. Undone, the move leaves it at 0 again, and not where it was drawn.
#[test]
fn edits_are_undone(rt: HostRuntime) -> Result<(), Fail> {
    let alloc = rt.alloc();
    let name = Name::of(b"a").ok_or("a name")?;
    let mut book = Book::new(alloc, 64);
    assert!(rt; enters(alloc, &mut book, 1, a_box(name, 0), 0));
    assert!(rt; enters(alloc, &mut book, 1, Edit::Move { name, x: 30, y: 0 }, 1));
    assert!(rt; lay_out(&rt, alloc, &mut book, 1, 4) == Laid::Published { place: 2 });
    assert!(rt; undoes(alloc, &mut book, 3));
    assert!(rt; tells(&book, name, Spot::Shape { x: 0, y: 0 }, 4));
    assert!(rt; undoes(alloc, &mut book, 4));
    assert!(rt; refuses_to_tell(&book, name, Refusal::Unknown { name }, 5));
    assert!(rt; refuses_undo(alloc, &mut book, Refusal::NothingToUndo, 5));
    Ok(())
}

// An undo takes the last edit off, whoever made it.
#[test]
fn an_edit_of_another_is_undone(rt: HostRuntime) -> Result<(), Fail> {
    let alloc = rt.alloc();
    let name = Name::of(b"a").ok_or("a name")?;
    let other = Name::of(b"b").ok_or("a name")?;
    let mut book = Book::new(alloc, 64);
    assert!(rt; enters(alloc, &mut book, 1, a_box(name, 3), 0));
    assert!(rt; enters(alloc, &mut book, 2, a_box(other, 20), 1));
    assert!(rt; undoes(alloc, &mut book, 2));
    assert!(rt; has_places(&book, &[3]));
    Ok(())
}

// A worker's frame comes behind an edit, and its next one doesn't.
#[test]
fn a_late_frame_is_stale(rt: HostRuntime) -> Result<(), Fail> {
    let alloc = rt.alloc();
    let name = Name::of(b"a").ok_or("a name")?;
    let mut book = Book::new(alloc, 64);
    assert!(rt; enters(alloc, &mut book, 1, a_box(name, 0), 0));
    let stale = Laid::Stale { front: 2, made: 1 };
    assert!(rt; lay_out_late(&rt, alloc, &mut book, Edit::Move { name, x: 5, y: 5 }) == stale);
    assert!(rt; lay_out(&rt, alloc, &mut book, 11, 0) == Laid::Published { place: 2 });
    assert!(rt; lay_out(&rt, alloc, &mut book, 11, 0) == Laid::Idle { front: 3 });
    Ok(())
}

#[test]
fn a_guideline_is_asked_for(rt: HostRuntime) -> Result<(), Fail> {
    let alloc = rt.alloc();
    let name = Name::of(b"g").ok_or("a name")?;
    let axis = Axis::Y;
    let mut book = Book::new(alloc, 64);
    assert!(rt; enters(alloc, &mut book, 1, Edit::Guide { name, axis, at: 40 }, 0));
    assert!(rt; enters(alloc, &mut book, 1, Edit::Shift { name, at: -7 }, 1));
    assert!(rt; tells(&book, name, Spot::Guide { axis, at: -7 }, 2));
    Ok(())
}

#[test]
fn a_link_is_asked_for(rt: HostRuntime) -> Result<(), Fail> {
    let alloc = rt.alloc();
    let a = Name::of(b"a").ok_or("a name")?;
    let b = Name::of(b"b").ok_or("a name")?;
    let name = Name::of(b"l").ok_or("a name")?;
    let mut book = Book::new(alloc, 64);
    assert!(rt; enters(alloc, &mut book, 1, a_box(a, 0), 0));
    assert!(rt; enters(alloc, &mut book, 1, a_box(b, 20), 1));
    assert!(rt; enters(alloc, &mut book, 1, Edit::Join { name, a, b }, 2));
    assert!(rt; refuses_to_tell(&book, name, Refusal::Kind { name }, 3));
    Ok(())
}

/// Whether the shape of this name can be held 19,999 times.
fn hold_often(book: &mut Book, alloc: Global, name: Name) -> bool {
    for _ in 0..19_999 {
        if book.edit(alloc, 1, 3, Edit::Hold { name }).is_err() {
            return false;
        }
    }
    true
}

fn full() -> Refusal {
    Refusal::Limit {
        what: Counted::Entries,
        count: 20_000,
    }
}

// One box and 19,999 edits stand. The limit comes before a name that is taken, and an undo has it too.
#[test]
fn a_full_history_takes_no_edit(rt: HostRuntime) -> Result<(), Fail> {
    let alloc = rt.alloc();
    let name = Name::of(b"a").ok_or("a name")?;
    let mut book = Book::new(alloc, 64);
    assert!(rt; enters(alloc, &mut book, 1, a_box(name, 3), 0));
    assert!(rt; hold_often(&mut book, alloc, name));
    assert!(rt; refuses(alloc, &mut book, a_box(name, 3), full(), 20_000));
    assert!(rt; refuses_undo(alloc, &mut book, full(), 20_000));
    Ok(())
}

fn is_end(entry: &Entry) -> bool
    ensures { result ≡ is_end entry.now }
{
    match &entry.act {
        Act::Edit(_) | Act::Undo => false,
        Act::Frame(_) => false,
        Act::End => true,
    }
}

/// The place of End, where it stands.
fn end_index(history: &[Entry]) -> Option<usize>
    ensures { result ≡ position is_end history.now }
{
    history.iter().position(|entry| is_end(entry))
}

fn is_ended(book: &Book) -> bool
    ensures { IsTrue result → IsSome (end_place book.now.history) }
{
    end_index(book.history()).is_some()
}

/// Whether End is entered at this place.
fn ends(book: &mut Book, place: u32) -> bool {
    book.end() == Ok(place)
}

/// Whether End is refused, since it stands at this place.
fn has_ended(book: &mut Book, place: u32, front: u32) -> bool {
    let refusal = Refusal::Ended { place };
    book.end() == Err(Refused { refusal, front })
}

/// Whether the document was ended, and going on answers this.
fn finishes<R: Threads + Sync>(rt: &R, alloc: Global, book: &mut Book, answer: Finish) -> bool {
    is_ended(book) && book.finish(rt, alloc) == answer
}

// Ending comes before Spent: no frame is left in the budget.
#[test]
fn a_document_is_ended_and_finished(rt: HostRuntime) -> Result<(), Fail> {
    let alloc = rt.alloc();
    let mut book = Book::new(alloc, 0);
    let spent = Laid::Spent {
        frames: 0,
        front: 0,
    };
    assert!(rt; lay_out(&rt, alloc, &mut book, 1, 2) == spent);
    assert!(rt; ends(&mut book, 0));
    assert!(rt; has_ended(&mut book, 0, 1));
    let ending = Laid::Ending { place: 0, front: 1 };
    assert!(rt; lay_out(&rt, alloc, &mut book, 1, 3) == ending);
    assert!(rt; finishes(&rt, alloc, &mut book, Finish::Published { place: 1 }));
    assert!(rt; finishes(&rt, alloc, &mut book, Finish::Settled { place: 1 }));
    Ok(())
}
