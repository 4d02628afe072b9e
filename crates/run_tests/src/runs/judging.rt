//! Outcomes of runs beside workers, judged by plain code.
use doc_book::{Act, Entry, Reply};
use editor_run::Outcome;
use layout_worker::{Last, Tally};
use script_text::{Command, Line};
use units::Sequence;

/// What stands before and behind End.
#[derive(Clone, Copy)]
struct Bounds {
    workers: u8,
    /// The budget of frames.
    frames: u32,
    /// The place of End.
    end: u32,
}

/// The place of End, or where there is none how many entries there are.
fn end_of(entries: &[Entry]) -> u32 {
    let mut place: u32 = 0;
    for entry in entries {
        match entry.act {
            Act::End => return place,
            _ => {}
        }
        place = u32::saturating_add(place, 1);
    }
    place
}

fn is_frame(entry: &Entry) -> bool {
    match entry.act {
        Act::Frame(_) => true,
        _ => false,
    }
}

/// How many entries are by this caller.
fn count_by(entries: &[Entry], who: u8) -> u32 {
    let mut count: u32 = 0;
    for entry in entries {
        if entry.who == who {
            count = u32::saturating_add(count, 1);
        }
    }
    count
}

/// How many frames stand before End, those of sessions and workers.
fn frames_before_end(entries: &[Entry]) -> u32 {
    let mut count: u32 = 0;
    for entry in entries {
        if is_frame(entry) && entry.who != 0 {
            count = u32::saturating_add(count, 1);
        }
    }
    count
}

/// The entry is a session's, or a worker's frame with line 0.
fn is_callers(entry: &Entry, workers: u8) -> bool {
    let by_session = 1 <= entry.who && entry.who <= 8;
    let by_worker = u8::wrapping_sub(entry.who, 11) < workers;
    by_session || (by_worker && entry.line == 0 && is_frame(entry))
}

/// Sessions and workers made what stands before End, the run itself the rest.
fn callers_are_right(entries: &[Entry], bounds: Bounds) -> bool {
    let mut place: u32 = 0;
    for entry in entries {
        let right = if place < bounds.end {
            is_callers(entry, bounds.workers)
        } else {
            entry.who == 0 && entry.line == 0
        };
        if !right {
            return false;
        }
        place = u32::saturating_add(place, 1);
    }
    bounds.end < place
}

/// The place of the entry that a reply names.
fn named(reply: &Reply) -> Option<u32> {
    match reply {
        Reply::Accepted { place } => Some(*place),
        Reply::Published { place } => Some(*place),
        _ => None,
    }
}

/// How many entries stood as the reply was given, without its own.
fn front_at(reply: &Reply) -> u32 {
    match reply {
        Reply::Accepted { place } => *place,
        Reply::Published { place } => *place,
        Reply::Refused(refused) => refused.front,
        Reply::Idle { front } => *front,
        Reply::Spent { front } => *front,
        Reply::Stale { front } => *front,
        Reply::Answer(answer) => answer.front,
    }
}

/// How many entries the session has seen after the reply.
fn front_after(reply: &Reply) -> u32 {
    match named(reply) {
        Some(place) => u32::saturating_add(place, 1),
        None => front_at(reply),
    }
}

/// The reply is one that the command can have.
fn has_form(command: &Command, reply: &Reply) -> bool {
    let entered = match reply {
        Reply::Accepted { .. } | Reply::Refused(_) => true,
        _ => false,
    };
    let told = match reply {
        Reply::Answer(_) | Reply::Refused(_) => true,
        _ => false,
    };
    match command {
        Command::Edit(_) | Command::Undo => entered,
        Command::Layout => !entered && !told,
        Command::Where(_) => told,
    }
}

/// Where the reply names an entry, it is one of the session and the line.
fn names_its_entry(entries: &[Entry], line: &Line, reply: &Reply) -> bool {
    let Some(place) = named(reply) else {
        return true;
    };
    match entries.get(place as usize) {
        Some(entry) => entry.who == line.session && entry.line == line.number,
        None => false,
    }
}

/// The session has a reply for each of its lines, of the line's form and in order, none behind End. The entries that they
/// name are its own ones.
fn session_is_right(
    entries: &[Entry],
    bounds: Bounds,
    lines: &[Line],
    session: u8,
    replies: &[Reply],
) -> bool {
    let mut seen: u32 = 0;
    let mut own: u32 = 0;
    let mut at: usize = 0;
    for line in lines {
        if line.session == session {
            let Some(reply) = replies.get(at) else {
                return false;
            };
            let in_order = seen <= front_at(reply) && front_after(reply) <= bounds.end;
            if !in_order
                || !has_form(&line.command, reply)
                || !names_its_entry(entries, line, reply)
            {
                return false;
            }
            if named(reply).is_some() {
                own = u32::saturating_add(own, 1);
            }
            seen = front_after(reply);
            at = usize::saturating_add(at, 1);
        }
    }
    at == replies.len() && own == count_by(entries, session)
}

/// There are eight sessions, and each is right.
fn sessions_are_right(
    entries: &[Entry],
    bounds: Bounds,
    lines: &[Line],
    lists: &[Sequence<Reply>],
) -> bool {
    let mut session: u8 = 1;
    for replies in lists {
        if !session_is_right(entries, bounds, lines, session, replies.as_slice()) {
            return false;
        }
        session = u8::saturating_add(session, 1);
    }
    lists.len() == 8
}

/// How often the bell rang: for each edit and undo that was entered, and for End.
fn rings_for(entries: &[Entry]) -> u64 {
    let mut count: u64 = 0;
    for entry in entries {
        if !is_frame(entry) {
            count = u64::saturating_add(count, 1);
        }
    }
    count
}

/// The tally counts the worker's entries, and says that the document was ended, or the budget used up. A worker that finds
/// nothing to lay out rests for another ring, so it found nothing no more often than the bell rang.
fn tally_is_right(entries: &[Entry], bounds: Bounds, worker: u8, tally: &Tally) -> bool {
    let ended = match tally.last {
        Last::Ending => true,
        Last::Spent => frames_before_end(entries) == bounds.frames,
        Last::Memory => false,
    };
    ended && tally.published == count_by(entries, worker) && tally.idle <= rings_for(entries)
}

/// There is a tally for each worker, and each is right.
fn tallies_are_right(entries: &[Entry], bounds: Bounds, tallies: &[Tally]) -> bool {
    let mut worker: u8 = 11;
    for tally in tallies {
        if !tally_is_right(entries, bounds, worker, tally) {
            return false;
        }
        worker = u8::saturating_add(worker, 1);
    }
    tallies.len() == usize::from(bounds.workers)
}

/// The outcome is that of a run which succeeded, beside so many workers and with this budget of frames.
pub fn is_right(outcome: &Outcome, workers: u8, frames: u32) -> bool {
    let Some(book) = &outcome.book else {
        return false;
    };
    let Some(script) = &outcome.script else {
        return false;
    };
    let entries = book.history();
    let bounds = Bounds {
        workers,
        frames,
        end: end_of(entries),
    };
    outcome.status == 0
        && callers_are_right(entries, bounds)
        && sessions_are_right(entries, bounds, script.lines(), outcome.replies.as_slice())
        && tallies_are_right(entries, bounds, outcome.tallies.as_slice())
}

/// The third reply of session 1, which the outcome has.
pub fn third_reply(outcome: &Outcome) -> Option<&Reply> {
    let first = outcome.replies.as_slice().get(0)?;
    first.as_slice().get(2)
}
