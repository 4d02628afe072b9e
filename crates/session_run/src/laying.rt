//! A layout line: a look, and where there is a frame to make, its making and its publication.
ghost use Rattle.std.specs.Prelude.{◌≡◌, MatchResult};
ghost use Rattle.script_text.specs.declared.scripts.Command.TheVariants as command;
ghost use Rattle.doc_book.specs.Events.{Publishes, Replied};
ghost use Rattle.doc_book.specs.Jobs.{IsJobOf};
ghost use Rattle.doc_book.specs.Plays.{IsPlayedAs};
ghost use Rattle.doc_book.specs.Steps.{IsStep};

use doc_book::{Book, Job, Look, Publish, Refused, Reply, Solved};
use edit_rules::Refusal;
use script_text::Line;
use std::alloc::Global;
use std::thread::Threads;
use units::Memory;

/// Looks for the session of a line, and where there is a frame to make, makes and publishes it for the line. For want of
/// memory the document is as before.
pub fn lay_out<R: Threads + Sync>(
    rt: &R,
    alloc: Global,
    book: &mut Book,
    line: &Line,
) -> Result<Reply, Memory>
    ensures { MatchResult result (λ reply. IsPlayedAs book.old book.new line.now reply command.Layout) (λ _. book.new ≡ book.old) }
{
    match book.look(alloc) {
        Look::Job(job) => publish_now(rt, alloc, book, line, job),
        Look::Idle { front } => Ok(Reply::Idle { front }),
        Look::Spent { front, .. } => Ok(Reply::Spent { front }),
        Look::Ending { place, front } => Ok(Reply::Refused(Refused {
            refusal: Refusal::Ended { place },
            front,
        })),
        Look::Memory => Err(Memory),
    }
}

/// Makes the frame of a job, and publishes it for the line.
fn publish_now<R: Threads + Sync>(
    rt: &R,
    alloc: Global,
    book: &mut Book,
    line: &Line,
    job: Job,
) -> Result<Reply, Memory>
    requires { IsJobOf book.old.history book.old.budget job.front job.scene job.places }
    ensures { MatchResult result (λ reply. IsStep book.old book.new (Publishes line.now.session line.now.number job.front) (Replied reply)) (λ _. book.new ≡ book.old) }
{
    let solved = Solved::of(rt, alloc, job)?;
    match book.publish(alloc, line.session, line.number, solved) {
        Publish::Published { place } => Ok(Reply::Published { place }),
        Publish::Stale { front, .. } => Ok(Reply::Stale { front }),
        Publish::Memory { .. } => Err(Memory),
    }
}
