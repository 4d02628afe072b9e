//! One line of a script.
ghost use Rattle.std.specs.Prelude.{◌≡◌, MatchResult};
ghost use Rattle.doc_book.specs.Plays.{IsPlayedLine};
ghost use Rattle.session_run.specs.Answers.{IsReplyTo, reply_to_ask};

use crate::laying::lay_out;
use doc_book::{Answer, Book, Refused, Reply};
use edit_rules::Refusal;
use script_text::{Command, Line};
use std::alloc::Global;
use std::thread::Threads;
use units::Memory;

/// Plays one line for its session, and gives its reply. For want of memory the document is as before.
pub fn answer<R: Threads + Sync>(
    rt: &R,
    alloc: Global,
    book: &mut Book,
    line: &Line,
) -> Result<Reply, Memory>
    ensures { MatchResult result (λ reply. IsPlayedLine book.old book.new line.now reply) (λ _. book.new ≡ book.old) }
{
    match &line.command {
        Command::Edit(edit) => {
            let edit = edit.copy(alloc)?;
            entered(book.edit(alloc, line.session, line.number, edit))
        }
        Command::Undo => entered(book.undo(alloc, line.session, line.number)),
        Command::Layout => lay_out(rt, alloc, book, line),
        Command::Where(name) => Ok(told(book.ask(name))),
    }
}

/// The reply to an edit or undo that was answered so.
pub(crate) fn entered(answer: Result<u32, Refused>) -> Result<Reply, Memory>
    ensures { IsReplyTo answer result }
{
    match answer {
        Ok(place) => Ok(Reply::Accepted { place }),
        Err(Refused { refusal, front }) => match refusal {
            Refusal::Memory => Err(Memory),
            refusal => Ok(Reply::Refused(Refused { refusal, front })),
        },
    }
}

/// The reply to a question that was answered so.
pub(crate) fn told(answer: Result<Answer, Refused>) -> Reply
    ensures { result ≡ reply_to_ask answer }
{
    match answer {
        Ok(answer) => Reply::Answer(answer),
        Err(refused) => Reply::Refused(refused),
    }
}
