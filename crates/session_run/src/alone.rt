//! Playing all lines of a script, one after the other.
ghost use Rattle.std.specs.Prelude.{◌≡◌, ◌≤◌, [], length, replicate, MatchResult, IfOk};
ghost use Rattle.std.specs.List.{AllByRecursion};
ghost use Rattle.session_run.specs.Alone.{IsPlayedAlone, IsPlayedInPart, IsPlayedOrNot, IsOfSession, PlaysNext};

use crate::answering::answer;
use doc_book::{Book, Reply};
use script_text::{Line, Script};
use std::alloc::Global;
use std::thread::Threads;
use units::{Memory, Sequence};

/// Plays all lines in file order, each for its session, and gives the replies by session: eight lists, session 1 first.
/// It waits for nobody. For want of memory the document holds what the lines so far made of it.
pub fn play_alone<R: Threads + Sync>(
    rt: &R,
    alloc: Global,
    book: &mut Book,
    script: &Script,
) -> Result<Vec<Sequence<Reply>>, Memory>
    ensures { MatchResult result (λ lists. IsPlayedAlone book.old book.new script.now lists.items) (λ _. IsPlayedInPart book.old book.new script.now) }
{
    play_lines(rt, alloc, book, script.lines())
}

fn play_lines<R: Threads + Sync>(
    rt: &R,
    alloc: Global,
    book: &mut Book,
    lines: &[Line],
) -> Result<Vec<Sequence<Reply>>, Memory>
    requires lines { AllByRecursion IsOfSession lines.now }
    ensures { MatchResult result (λ lists. IsPlayedAlone book.old book.new lines.now lists.items) (λ _. IsPlayedInPart book.old book.new lines.now) }
{
    let mut lists = no_replies(alloc)?;
    for line in lines {
        play_next(rt, alloc, book, line, &mut lists)?;
    }
    Ok(lists)
}

/// Plays one line, and adds its reply to those of its session.
fn play_next<R: Threads + Sync>(
    rt: &R,
    alloc: Global,
    book: &mut Book,
    line: &Line,
    lists: &mut Vec<Sequence<Reply>>,
) -> Result<(), Memory>
    requires first { 1 ≤ line.now.session }
    requires last { line.now.session ≤ length lists.old.items }
    ensures { MatchResult result (λ _. PlaysNext book.old book.new line.now lists.old.items lists.new.items) (λ _. IsPlayedOrNot book.old book.new line.now) }
{
    let reply = answer(rt, alloc, book, line)?;
    lists[usize::from(line.session) - 1].push(reply)
}

/// Eight lists without replies, one a session.
fn no_replies(alloc: Global) -> Result<Vec<Sequence<Reply>>, Memory>
    ensures { IfOk result (λ lists. lists.items ≡ replicate 8 []) }
{
    let mut lists = Vec::new(alloc);
    for _ in 0..8u8 {
        lists.push(Sequence::new(alloc))?;
    }
    Ok(lists)
}
