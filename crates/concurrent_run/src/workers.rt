//! The workers beside each other.
ghost use Rattle.std.specs.Prelude.{◌≡◌, ◌<◌, ℕ, All, length, slice_index_or};
ghost use Rattle.concurrent_run.specs.Elements.{IsNewPass, IsWorkedOut, AreWorkedOut};

use crate::elements::Worker;
use gate_bell::{Bell, Gate};
use layout_worker::work;
use shared_book::{Caller, SharedBook};
use std::alloc::Global;
use std::sync::Wait;
use std::thread::{Threads, for_each_mut};

/// The most workers.
pub(crate) const MOST_WORKERS: usize = 8;

/// Works until the document is ended, the budget of frames is used up, or memory is wanting.
fn work_one<R: Threads + Wait + Sync, G: Gate>(
    rt: &R,
    alloc: Global,
    gate: &G,
    book: &SharedBook,
    bell: &Bell,
    worker: &mut Worker,
)
    requires { IsNewPass book.now worker.old.pass }
    ensures { IsWorkedOut book.now worker.old worker.new }
{
    let who = worker.pass.who();
    let mut caller = Caller::new(rt, book, &mut worker.pass, bell);
    worker.tally = work(rt, alloc, &mut caller, gate, bell, who);
}

/// All workers, each in a thread of its own.
pub(crate) fn work_all<R: Threads + Wait + Sync, G: Gate + Sync>(
    rt: &R,
    alloc: Global,
    gate: &G,
    book: &SharedBook,
    bell: &Bell,
    workers: &mut [Worker],
)
    requires { All (λ w. IsNewPass book.now w.pass) workers.old }
    ensures { AreWorkedOut book.now workers.old workers.new }
{
    let work = |_at: usize, worker: &mut Worker|
        requires { IsNewPass book.now worker.old.pass }
        ensures { IsWorkedOut book.entry.now worker.old worker.new }
    { work_one(rt, alloc, gate, book, bell, worker) };
    for_each_mut(rt, workers, MOST_WORKERS, &work);
}
