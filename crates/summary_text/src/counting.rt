//! What a summary counts.
ghost use Rattle.std.specs.Prelude.{if◌then◌else◌, ◌≡◌, ◌≤◌, count_by, length};
ghost use Rattle.doc_book.specs.History.{frame_count, is_frame};
ghost use Rattle.summary_text.specs.Counts.{AreFew, count_of, is_accepted, is_refused, is_verdict};

use doc_book::{Act, Entry, Reply};
use units::Sequence;

/// What a counted reply says.
#[derive(Clone, Copy, Debug, PartialEq, Eq)]
pub enum Verdict {
    Accepted,
    Refused,
}

fn is_accepted(reply: &Reply) -> bool
    ensures { result ≡ is_accepted reply.now }
{
    match reply {
        Reply::Accepted { place: _ } => true,
        Reply::Published { place: _ } => false,
        Reply::Refused(_) => false,
        Reply::Idle { front: _ } => false,
        Reply::Spent { front: _ } => false,
        Reply::Stale { front: _ } => false,
        Reply::Answer(_) => false,
    }
}

fn is_refused(reply: &Reply) -> bool
    ensures { result ≡ is_refused reply.now }
{
    match reply {
        Reply::Accepted { place: _ } => false,
        Reply::Published { place: _ } => false,
        Reply::Refused(_) => true,
        Reply::Idle { front: _ } => false,
        Reply::Spent { front: _ } => false,
        Reply::Stale { front: _ } => false,
        Reply::Answer(_) => false,
    }
}

fn is_verdict(which: Verdict, reply: &Reply) -> bool
    ensures { result ≡ is_verdict which reply.now }
{
    match which {
        Verdict::Accepted => is_accepted(reply),
        Verdict::Refused => is_refused(reply),
    }
}

/// One for a reply with the verdict, else none.
fn one_reply(which: Verdict, reply: &Reply) -> usize
    ensures { result ≡ (if is_verdict which reply.now then 1 else 0) }
{
    if is_verdict(which, reply) { 1 } else { 0 }
}

/// How many replies of a session have the verdict.
fn count_in(which: Verdict, replies: &[Reply]) -> usize
    ensures value { result ≡ count_by (is_verdict which) replies.now }
    ensures within { result ≤ length replies.now }
{
    let mut count = 0;
    for at in 0..replies.len() {
        count += one_reply(which, &replies[at]);
    }
    count
}

/// How many replies of all sessions have the verdict.
pub fn count_of(which: Verdict, replies: &[Sequence<Reply>]) -> u32
    requires { AreFew replies.now }
    ensures { result ≡ count_of which replies.now }
{
    let mut count = 0;
    for at in 0..replies.len() {
        count += count_in(which, replies[at].as_slice()) as u32;
    }
    count
}

fn is_frame(entry: &Entry) -> bool
    ensures { result ≡ is_frame entry.now }
{
    match &entry.act {
        Act::Edit(_) | Act::Undo => false,
        Act::Frame(_) => true,
        Act::End => false,
    }
}

/// One for a frame, else none.
fn one_frame(entry: &Entry) -> usize
    ensures { result ≡ (if is_frame entry.now then 1 else 0) }
{
    if is_frame(entry) { 1 } else { 0 }
}

/// How many frames a history has.
pub fn frame_count(history: &[Entry]) -> usize
    ensures value { result ≡ frame_count history.now }
    ensures within { result ≤ length history.now }
{
    let mut count = 0;
    for at in 0..history.len() {
        count += one_frame(&history[at]);
    }
    count
}
