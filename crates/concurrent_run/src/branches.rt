//! Both branches beside each other.
ghost use Rattle.std.specs.Prelude.{All};
ghost use Rattle.concurrent_run.specs.Elements.{IsNewPass, ArePlayed, AreWorkedOut};
ghost use Rattle.concurrent_run.specs.Leading.{IsLed};

use crate::elements::{Session, Worker};
use crate::lead::lead;
use crate::workers::work_all;
use gate_bell::{Bell, Gate};
use script_text::Line;
use shared_book::{Pass, SharedBook};
use std::alloc::Global;
use std::sync::Wait;
use std::thread::{Threads, join_mut};

/// The sessions with the run's pass behind them, and beside them the workers.
fn both<R: Threads + Wait + Sync, G: Gate + Sync>(
    rt: &R,
    alloc: Global,
    gate: &G,
    book: &SharedBook,
    bell: &Bell,
    lines: &[Line],
    run: &mut Pass,
    sessions: &mut [Session],
    workers: &mut [Worker],
)
    requires run { IsNewPass book.now run.old }
    requires sessions { All (λ s. IsNewPass book.now s.pass) sessions.old }
    requires workers { All (λ w. IsNewPass book.now w.pass) workers.old }
    ensures led { IsLed book.now run.old run.new sessions.new }
    ensures sessions { ArePlayed book.now lines.now sessions.old sessions.new }
    ensures workers { AreWorkedOut book.now workers.old workers.new }
{
    // Where no thread can be made the first one is called last: then the document is ended before the workers begin, which
    // wait for its end.
    join_mut(
        rt,
        &mut ||
            requires { All (λ w. IsNewPass book.now w.pass) workers.now }
            ensures { AreWorkedOut book.entry.now workers.entry.now workers.exit.now }
        { work_all(rt, alloc, gate, book, bell, workers) },
        &mut ||
            requires { IsNewPass book.now run.now × All (λ s. IsNewPass book.now s.pass) sessions.now }
            ensures { IsLed book.entry.now run.entry.now run.exit.now sessions.exit.now × ArePlayed book.entry.now lines.entry.now sessions.entry.now sessions.exit.now }
        { lead(rt, alloc, gate, book, bell, lines, run, sessions) },
    );
}

/// The same over lists.
pub(crate) fn branches<R: Threads + Wait + Sync, G: Gate + Sync>(
    rt: &R,
    alloc: Global,
    gate: &G,
    book: &SharedBook,
    lines: &[Line],
    run: &mut Pass,
    sessions: &mut Vec<Session>,
    workers: &mut Vec<Worker>,
)
    requires run { IsNewPass book.now run.old }
    requires sessions { All (λ s. IsNewPass book.now s.pass) sessions.old.items }
    requires workers { All (λ w. IsNewPass book.now w.pass) workers.old.items }
    ensures led { IsLed book.now run.old run.new sessions.new.items }
    ensures sessions { ArePlayed book.now lines.now sessions.old.items sessions.new.items }
    ensures workers { AreWorkedOut book.now workers.old.items workers.new.items }
{
    let bell = Bell::new();
    both(
        rt,
        alloc,
        gate,
        book,
        &bell,
        lines,
        run,
        sessions.as_mut_slice(),
        workers.as_mut_slice(),
    );
}
