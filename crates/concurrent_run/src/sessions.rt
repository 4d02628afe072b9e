//! The sessions beside each other.
ghost use Rattle.std.specs.Prelude.{◌≡◌, ◌<◌, ℕ, All, length, slice_index_or};
ghost use Rattle.concurrent_run.specs.Elements.{IsNewPass, IsPlayedSession, ArePlayed};

use crate::elements::Session;
use gate_bell::{Bell, Gate};
use script_text::Line;
use session_run::play;
use shared_book::{Caller, SharedBook};
use std::alloc::Global;
use std::sync::Wait;
use std::thread::{Threads, for_each_mut};

/// The most sessions.
pub(crate) const MOST_SESSIONS: usize = 8;

/// Plays those of the lines that are the session's.
fn play_one<R: Threads + Wait + Sync, G: Gate>(
    rt: &R,
    alloc: Global,
    gate: &G,
    book: &SharedBook,
    bell: &Bell,
    lines: &[Line],
    session: &mut Session,
)
    requires { IsNewPass book.now session.old.pass }
    ensures { IsPlayedSession book.now lines.now session.old session.new }
{
    let who = session.pass.who();
    let mut caller = Caller::new(rt, book, &mut session.pass, bell);
    session.replies = play(rt, alloc, &mut caller, gate, who, lines).ok();
}

/// Plays all sessions, each in a thread of its own, which are lent the same lines.
pub(crate) fn play_all<R: Threads + Wait + Sync, G: Gate + Sync>(
    rt: &R,
    alloc: Global,
    gate: &G,
    book: &SharedBook,
    bell: &Bell,
    lines: &[Line],
    sessions: &mut [Session],
)
    requires { All (λ s. IsNewPass book.now s.pass) sessions.old }
    ensures { ArePlayed book.now lines.now sessions.old sessions.new }
{
    let play = |_at: usize, session: &mut Session|
        requires { IsNewPass book.now session.old.pass }
        ensures { IsPlayedSession book.entry.now lines.entry.now session.old session.new }
    { play_one(rt, alloc, gate, book, bell, lines, session) };
    for_each_mut(rt, sessions, MOST_SESSIONS, &play);
}
