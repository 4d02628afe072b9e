//! Eight callers in threads of their own, at one book.
ghost use Rattle.std.specs.Prelude.{◌≡◌, Some, All, length};

use super::laying::{Laid, a_box, look_and_solve, told};
use super::log::Log;
use edit_rules::Edit;
use shared_book::{Pass, SharedBook};
use std::alloc::Global;
use std::sync::{Mutex, Wait};
use std::thread;
use std::thread::Threads;
use units::{Axis, Name};

/// How many calls each caller makes.
const CALLS: u32 = 200;

/// The names that a caller uses: of a box of its own, of the next caller's, and of the separation between them.
#[derive(Clone, Copy)]
struct Names {
    own: Name,
    next: Name,
    apart: Name,
}

/// The names of the caller at this place of the passes.
fn names_of(at: usize) -> Option<Names> {
    let at = (at % 8) as u8;
    Some(Names {
        own: Name::of(&[b'a' + at])?,
        next: Name::of(&[b'a' + (at + 1) % 8])?,
        apart: Name::of(&[b's' + at])?,
    })
}

/// The next caller's box at least 20 behind the own one.
fn set_apart(names: &Names) -> Edit {
    Edit::Apart {
        name: names.apart,
        axis: Axis::X,
        a: names.own,
        b: names.next,
        gap: 20,
        exact: false,
    }
}

/// One call, by its number: a box is put and set apart, asked for, laid out, and the last edit is undone. Each answer
/// is noted.
fn call<R: Threads + Wait + Sync>(
    rt: &R,
    alloc: Global,
    book: &SharedBook,
    pass: &mut Pass,
    names: &Names,
    number: u32,
    log: &mut Log,
)
    requires { pass.old.table ≡ Some book.now }
    ensures { pass.new.table ≡ Some book.now }
{
    match number % 5 {
        0 => log.note_entered(&book.edit(rt, alloc, pass, number, a_box(names.own, 7))),
        1 => log.note_entered(&book.edit(rt, alloc, pass, number, set_apart(names))),
        2 => log.note_asked(&book.ask(rt, pass, &names.own)),
        3 => lay_out(rt, alloc, book, pass, number, log),
        _ => log.note_entered(&book.undo(rt, alloc, pass, number)),
    }
}

/// A frame is made outside the lock, and published where it isn't stale.
fn lay_out<R: Threads + Wait + Sync>(
    rt: &R,
    alloc: Global,
    book: &SharedBook,
    pass: &mut Pass,
    number: u32,
    log: &mut Log,
)
    requires { pass.old.table ≡ Some book.now }
    ensures { pass.new.table ≡ Some book.now }
{
    let Some(solved) = look_and_solve(rt, alloc, book, pass) else {
        return;
    };
    log.note_front(solved.front());
    match told(book.publish(rt, alloc, pass, number, solved)) {
        Laid::Published { place } => log.note_frame(place),
        Laid::Stale { front, made: _ } => log.note_front(front),
        Laid::Memory => (),
    }
}

fn call_often<R: Threads + Wait + Sync>(
    rt: &R,
    alloc: Global,
    book: &SharedBook,
    pass: &mut Pass,
    names: &Names,
    log: &mut Log,
)
    requires { pass.old.table ≡ Some book.now }
    ensures { pass.new.table ≡ Some book.now }
{
    for number in 0..CALLS {
        call(rt, alloc, book, pass, names, number, log);
    }
}

/// The calls of the caller at this place of the passes.
fn call_as<R: Threads + Wait + Sync>(
    rt: &R,
    alloc: Global,
    book: &SharedBook,
    pass: &mut Pass,
    at: usize,
    logs: &[Mutex<Log>],
)
    requires { pass.old.table ≡ Some book.now }
    ensures { pass.new.table ≡ Some book.now }
{
    let Some(names) = names_of(at) else {
        return;
    };
    let Some(log) = logs.get(at) else {
        return;
    };
    call_often(rt, alloc, book, pass, &names, &mut log.lock(rt));
}

/// All callers make their calls beside each other.
pub fn call_beside<R: Threads + Wait + Sync>(
    rt: &R,
    alloc: Global,
    book: &SharedBook,
    passes: &mut [Pass],
    logs: &[Mutex<Log>],
)
    requires { All (λ p. p.table ≡ Some book.now) passes.old }
    ensures count { length passes.new ≡ length passes.old }
    ensures same { All (λ p. p.table ≡ Some book.now) passes.new }
{
    let calls = |at: usize, pass: &mut Pass|
        requires { pass.old.table ≡ Some book.now }
        ensures { pass.new.table ≡ Some book.entry.now }
    { call_as(rt, alloc, book, pass, at, logs) };
    thread::for_each_mut(rt, passes, 8, &calls);
}
