//! The first branch: the sessions, and behind them the run's own pass, which ends the document.
ghost use Rattle.std.specs.Prelude.{◌≡◌, ◌≤◌, Some, All, [], MatchBool, length};
ghost use Rattle.doc_book.specs.Replies.{after_of};
ghost use Rattle.concurrent_run.specs.Elements.{IsNewPass, ArePlayed};
ghost use Rattle.concurrent_run.specs.Leading.{WentOn, IsEnded, IsLed, AllBefore, asked_front, end_stands};

use crate::elements::Session;
use crate::sessions::play_all;
use doc_book::{Answer, Refused, Reply};
use edit_rules::Refusal;
use gate_bell::{Bell, Gate};
use script_text::Line;
use shared_book::{Pass, SharedBook};
use std::alloc::Global;
use std::sync::Wait;
use std::thread::Threads;
use units::Name;

/// How many entries a session has seen after a reply. A place and one may not fit 32 bits.
fn after(reply: &Reply) -> u64
    ensures { result ≡ after_of reply.now }
{
    match reply {
        Reply::Accepted { place } => u64::from(*place) + 1,
        Reply::Published { place } => u64::from(*place) + 1,
        Reply::Refused(refused) => u64::from(refused.front),
        Reply::Answer(answer) => u64::from(answer.front),
        Reply::Idle { front } => u64::from(*front),
        Reply::Spent { front } => u64::from(*front),
        Reply::Stale { front } => u64::from(*front),
    }
}

/// A front that none of these replies is beyond.
fn after_replies(replies: &[Reply]) -> u64
    ensures { All (λ r. after_of r ≤ result) replies.now }
{
    let mut front = 0;
    for reply in replies {
        front = u64::max(front, after(reply));
    }
    front
}

/// A front that no reply of the session is beyond.
fn after_session(session: &Session) -> u64
    ensures { AllBefore result session.now }
{
    match &session.replies {
        None => 0,
        Some(replies) => after_replies(replies.as_slice()),
    }
}

/// A front that no reply of these sessions is beyond.
fn after_sessions(sessions: &[Session]) -> u64
    ensures { All (AllBefore result) sessions.now }
{
    let mut front = 0;
    for session in sessions {
        front = u64::max(front, after_session(session));
    }
    front
}

/// Takes turns until the pass has seen so many entries. What is asked for doesn't matter: an answer and a refusal both
/// have the front.
fn catch_up<R: Wait>(rt: &R, book: &SharedBook, run: &mut Pass, front: u64)
    requires { run.old.table ≡ Some book.now }
    ensures went { WentOn book.now run.old run.new }
    ensures own { run.new.own ≡ run.old.own }
    ensures front { front ≤ length run.new.seen }
{
    for _ in rt.forever() {
        if seen(rt, book, run) >= front {
            return;
        }
    }
    unreachable!()
}

/// Takes a turn, and gives how many entries the pass has seen then.
fn seen<R: Wait>(rt: &R, book: &SharedBook, run: &mut Pass) -> u64
    requires { run.old.table ≡ Some book.now }
    ensures went { WentOn book.now run.old run.new }
    ensures own { run.new.own ≡ run.old.own }
    ensures seen { result ≡ length run.new.seen }
{
    let name = Name::of(b"run").unwrap();
    front_of(&book.ask(rt, run, &name))
}

/// The front of an answer or a refusal.
fn front_of(answer: &Result<Answer, Refused>) -> u64
    ensures { result ≡ asked_front answer.now }
{
    match answer {
        Ok(answer) => u64::from(answer.front),
        Err(refused) => u64::from(refused.front),
    }
}

/// Whether End stands, where its entering was answered so: it was entered, or the refusal says that it was there.
fn stands(answer: &Result<u32, Refused>) -> bool
    ensures { result ≡ end_stands answer.now }
{
    match answer {
        Ok(_) => true,
        Err(refused) => matches!(refused.refusal, Refusal::Ended { .. }),
    }
}

/// Enters End, unless memory is wanting. Says whether End stands.
fn try_end<R: Wait>(rt: &R, book: &SharedBook, run: &mut Pass) -> bool
    requires { run.old.table ≡ Some book.now }
    ensures went { WentOn book.now run.old run.new }
    ensures ended { MatchBool result (IsEnded run.old run.new) (run.new.own ≡ run.old.own) }
{
    stands(&book.end(rt, run))
}

/// Enters End. Where memory is wanting it tries again, for as long as it takes: a document that isn't ended would keep
/// the workers at the bell for ever, with their passes. Others may give memory back meanwhile: a worker that lacks it ends, and what
/// it had made is dropped.
fn end<R: Wait>(rt: &R, book: &SharedBook, run: &mut Pass)
    requires { run.old.table ≡ Some book.now }
    ensures went { WentOn book.now run.old run.new }
    ensures ended { IsEnded run.old run.new }
{
    for _ in rt.forever() {
        if try_end(rt, book, run) {
            return;
        }
    }
    unreachable!()
}

/// The sessions beside each other. When they have ended, the run's pass catches up with all replies, ends the document, and
/// the bell is rung, so that no worker rests any more.
pub(crate) fn lead<R: Threads + Wait + Sync, G: Gate + Sync>(
    rt: &R,
    alloc: Global,
    gate: &G,
    book: &SharedBook,
    bell: &Bell,
    lines: &[Line],
    run: &mut Pass,
    sessions: &mut [Session],
)
    requires run { IsNewPass book.now run.old }
    requires sessions { All (λ s. IsNewPass book.now s.pass) sessions.old }
    ensures led { IsLed book.now run.old run.new sessions.new }
    ensures sessions { ArePlayed book.now lines.now sessions.old sessions.new }
{
    play_all(rt, alloc, gate, book, bell, lines, sessions);
    let front = after_sessions(sessions);
    catch_up(rt, book, run, front);
    end(rt, book, run);
    bell.ring(rt);
}
