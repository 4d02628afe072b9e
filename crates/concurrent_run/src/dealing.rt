//! Passes are dealt to those who call at the document.
ghost use Rattle.std.specs.Prelude.{◌≡◌, ◌≤◌, IfOk, All, length};
ghost use Rattle.shared_book.specs.Held.{whos_of};
ghost use Rattle.concurrent_run.specs.Dealing.{callers_of, ArePeople};
ghost use Rattle.concurrent_run.specs.Elements.{IsNewPass};

use crate::elements::{Session, Worker};
use layout_worker::{Last, Tally};
use shared_book::{Pass, SharedBook};
use std::alloc::Global;
use units::Memory;

/// The last session.
const LAST_SESSION: u8 = 8;

/// The first worker.
const FIRST_WORKER: u8 = 11;

/// All who call at a document beside each other.
pub(crate) struct People {
    pub(crate) run: Pass,
    pub(crate) sessions: Vec<Session>,
    pub(crate) workers: Vec<Worker>,
}

impl Drop for People {
    fn drop(self) {
        let People {
            run,
            sessions,
            workers,
        } = self;
        drop(run);
        drop(sessions);
        drop(workers);
    }
}

impl People {
    pub(crate) fn into_parts(self) -> (Pass, Vec<Session>, Vec<Worker>)
        ensures { (result.0 ≡ self.run) × (result.1 ≡ self.sessions) × (result.2 ≡ self.workers) }
    {
        let People {
            run,
            sessions,
            workers,
        } = self;
        (run, sessions, workers)
    }
}

/// The callers' numbers: the sessions, the workers, and last the run itself.
pub(crate) fn callers(alloc: Global, workers: u8) -> Result<Vec<u8>, Memory>
    requires { workers ≤ 8 }
    ensures { IfOk result (λ whos. whos.items ≡ callers_of workers) }
{
    let mut whos = Vec::new(alloc);
    for session in 0..LAST_SESSION {
        whos.push(session + 1)?;
    }
    for worker in 0..workers {
        whos.push(FIRST_WORKER + worker)?;
    }
    whos.push(0)?;
    Ok(whos)
}

/// Deals the passes of a book by their numbers.
pub(crate) fn deal(
    alloc: Global,
    book: &SharedBook,
    mut passes: Vec<Pass>,
    workers: u8,
) -> Result<People, Memory>
    requires whos { whos_of passes.items ≡ callers_of workers }
    requires passes { All (IsNewPass book.now) passes.items }
    ensures people { IfOk result (ArePeople book.now) }
    ensures workers { IfOk result (λ people. length people.workers.items ≡ workers) }
{
    let run = passes.pop().unwrap();
    let mut sessions = Vec::new(alloc);
    let mut others = Vec::new(alloc);
    for pass in passes {
        if pass.who() <= LAST_SESSION {
            sessions.push(Session {
                pass,
                replies: None,
            })?;
        } else {
            others.push(Worker {
                pass,
                tally: unworked(),
            })?;
        }
    }
    Ok(People {
        run,
        sessions,
        workers: others,
    })
}

/// The tally of a worker that hasn't begun.
fn unworked() -> Tally {
    Tally {
        published: 0,
        stale: 0,
        idle: 0,
        last: Last::Memory,
    }
}
