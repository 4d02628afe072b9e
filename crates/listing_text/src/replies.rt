//! The lines of the replies.
ghost use Rattle.std.specs.Prelude.{◌≡◌, ◌∷◌, ◌++◌, [], codes, length, decimal, IfOk, OnOk};
ghost use Rattle.std.specs.Fmt.{signed_decimal};
ghost use Rattle.script_text.specs.Commands.{command_words};
ghost use Rattle.script_text.specs.Grammar.{axis_word};
ghost use Rattle.doc_book.specs.Listing.{counted_word, refusal_words, spot_words, reply_words, text_line, text_lines, reply_lines, session_lines, sessions_lines};
ghost use Rattle.script_text.specs.Words.{behind};
ghost use Rattle.listing_text.specs.Putting.{Puts};
ghost use Rattle.listing_text.specs.Replies.{SessionsHaveReplies};

use crate::putting::put;
use crate::walks::add_infeasible;
use crate::words::{add_count, add_number, add_word, axis_word, begin_with};
use byte_edge::{Sink, SinkStop};
use doc_book::{Answer, Reply, Spot};
use edit_rules::{Counted, Refusal};
use script_text::{Line, command_text};
use std::alloc::{AllocError, Global};
use units::{Axis, Memory, Sequence};

fn counted_word(what: Counted) -> &'static [u8]
    ensures { result.now ≡ counted_word what }
{
    match what {
        Counted::Shapes => b"shapes",
        Counted::Guides => b"guides",
        Counted::Links => b"links",
        Counted::Groups => b"groups",
        Counted::Compounds => b"compounds",
        Counted::Pages => b"pages",
        Counted::Members => b"members",
        Counted::Seps => b"seps",
        Counted::Entries => b"entries",
    }
}

/// Adds the words of a refusal.
fn add_refusal(text: &mut Vec<u8>, refusal: &Refusal) -> Result<(), AllocError>
    ensures { OnOk result (text.new.items ≡ text.old.items ++ behind (refusal_words refusal.now)) }
{
    match refusal {
        Refusal::Range { value } => {
            add_word(text, b"range")?;
            add_number(text, i64::from(*value))
        }
        Refusal::Unknown { name } => {
            add_word(text, b"unknown")?;
            add_word(text, name.bytes())
        }
        Refusal::Taken { name } => {
            add_word(text, b"taken")?;
            add_word(text, name.bytes())
        }
        Refusal::Kind { name } => {
            add_word(text, b"kind")?;
            add_word(text, name.bytes())
        }
        Refusal::Twice { name } => {
            add_word(text, b"twice")?;
            add_word(text, name.bytes())
        }
        Refusal::InUse { by } => {
            add_word(text, b"inuse")?;
            add_word(text, by.bytes())
        }
        Refusal::Limit { what, count } => {
            add_word(text, b"limit")?;
            add_word(text, counted_word(*what))?;
            add_count(text, *count)
        }
        Refusal::Infeasible { axis, walk } => add_infeasible(text, *axis, walk),
        Refusal::Ended { place } => {
            add_word(text, b"ended")?;
            add_count(text, *place)
        }
        Refusal::NothingToUndo => add_word(text, b"nothing"),
        Refusal::Memory => Ok(()),
    }
}

/// Adds a word and a count.
fn add_counted(text: &mut Vec<u8>, word: &[u8], count: u32) -> Result<(), AllocError>
    ensures { OnOk result (text.new.items ≡ text.old.items ++ behind (word.now ∷ decimal count ∷ [])) }
{
    add_word(text, word)?;
    add_count(text, count)
}

/// Adds a number on X and a number on Y.
fn add_pair(text: &mut Vec<u8>, x: i64, y: i64) -> Result<(), AllocError>
    ensures { OnOk result (text.new.items ≡ text.old.items ++ behind (signed_decimal x ∷ signed_decimal y ∷ [])) }
{
    add_number(text, x)?;
    add_number(text, y)
}

/// Adds the words of the corner of a shape.
fn add_corner(text: &mut Vec<u8>, x: i64, y: i64) -> Result<(), AllocError>
    ensures { OnOk result (text.new.items ≡ text.old.items ++ behind (codes "at" ∷ signed_decimal x ∷ signed_decimal y ∷ [])) }
{
    add_word(text, b"at")?;
    add_pair(text, x, y)
}

/// Adds the words of a guideline.
fn add_guide(text: &mut Vec<u8>, axis: Axis, at: i64) -> Result<(), AllocError>
    ensures { OnOk result (text.new.items ≡ text.old.items ++ behind (codes "guide" ∷ axis_word axis ∷ signed_decimal at ∷ [])) }
{
    add_word(text, b"guide")?;
    add_word(text, axis_word(axis))?;
    add_number(text, at)
}

/// Adds the words of a group or page.
fn add_area(
    text: &mut Vec<u8>,
    x_low: i64,
    y_low: i64,
    x_high: i64,
    y_high: i64,
) -> Result<(), AllocError>
    ensures { OnOk result (text.new.items ≡ text.old.items
        ++ behind (codes "area" ∷ signed_decimal x_low ∷ signed_decimal y_low ∷ signed_decimal x_high ∷ signed_decimal y_high ∷ [])) }
{
    add_word(text, b"area")?;
    add_pair(text, x_low, y_low)?;
    add_pair(text, x_high, y_high)
}

/// Adds the words of a spot.
fn add_spot(text: &mut Vec<u8>, spot: Spot) -> Result<(), AllocError>
    ensures { OnOk result (text.new.items ≡ text.old.items ++ behind (spot_words spot)) }
{
    match spot {
        Spot::Shape { x, y } => add_corner(text, x, y),
        Spot::Guide { axis, at } => add_guide(text, axis, at),
        Spot::Area {
            x_low,
            y_low,
            x_high,
            y_high,
        } => add_area(text, x_low, y_low, x_high, y_high),
    }
}

/// Adds the words of an answer.
fn add_answer(text: &mut Vec<u8>, answer: Answer) -> Result<(), AllocError>
    ensures { OnOk result (text.new.items ≡ text.old.items ++ behind (spot_words answer.spot ++ decimal answer.front ∷ [])) }
{
    add_spot(text, answer.spot)?;
    add_count(text, answer.front)
}

/// Adds the words of a reply.
fn add_reply(text: &mut Vec<u8>, reply: &Reply) -> Result<(), AllocError>
    ensures { OnOk result (text.new.items ≡ text.old.items ++ behind (reply_words reply.now)) }
{
    match reply {
        Reply::Accepted { place } => add_counted(text, b"accepted", *place),
        Reply::Published { place } => add_counted(text, b"published", *place),
        Reply::Refused(refused) => {
            add_counted(text, b"refused", refused.front)?;
            add_refusal(text, &refused.refusal)
        }
        Reply::Idle { front } => add_counted(text, b"idle", *front),
        Reply::Spent { front } => add_counted(text, b"spent", *front),
        Reply::Stale { front } => add_counted(text, b"stale", *front),
        Reply::Answer(answer) => add_answer(text, *answer),
    }
}

/// The line of a reply: the session, the number of the line, its command, and the reply.
fn reply_text(alloc: Global, session: usize, line: &Line, reply: &Reply) -> Result<Vec<u8>, Memory>
    ensures { IfOk result (λ text. text.items
        ≡ text_line (decimal session ∷ decimal line.now.number ∷ (command_words line.now.command ++ codes "=" ∷ reply_words reply.now))) }
{
    let mut text = Vec::new(alloc);
    begin_with(&mut text, session)?;
    add_count(&mut text, line.number)?;
    add_word(&mut text, &command_text(alloc, &line.command)?)?;
    add_word(&mut text, b"=")?;
    add_reply(&mut text, reply)?;
    text.push(b'\n')?;
    Ok(text)
}

/// Puts the line of a reply.
fn put_reply<K: Sink>(
    alloc: Global,
    session: usize,
    line: &Line,
    reply: &Reply,
    sink: &mut K,
) -> Result<(), SinkStop>
    ensures { Puts (K.put sink.old) (K.put sink.new) (K.faults sink.old) (K.faults sink.new)
        (text_line (decimal session ∷ decimal line.now.number ∷ (command_words line.now.command ++ codes "=" ∷ reply_words reply.now))) result }
{
    let Ok(text) = reply_text(alloc, session, line, reply) else {
        return Err(SinkStop::Memory);
    };
    put(sink, &text)
}

/// Puts the lines of the replies to a session's lines.
fn put_session<K: Sink>(
    alloc: Global,
    session: usize,
    lines: &[Line],
    replies: &[Reply],
    sink: &mut K,
) -> Result<(), SinkStop>
    requires { length replies.now ≡ length (session_lines session lines.now) }
    ensures { Puts (K.put sink.old) (K.put sink.new) (K.faults sink.old) (K.faults sink.new)
        (text_lines (reply_lines session (session_lines session lines.now) replies.now)) result }
{
    let mut next = 0;
    for at in 0..lines.len() {
        let line = &lines[at];
        if usize::from(line.session) != session {
            continue;
        }
        put_reply(alloc, session, line, &replies[next], sink)?;
        next += 1;
    }
    Ok(())
}

/// Puts the lines of the replies to the lines of each session, session 1 first.
pub fn put_replies<K: Sink>(
    alloc: Global,
    lines: &[Line],
    replies: &[Sequence<Reply>],
    sink: &mut K,
) -> Result<(), SinkStop>
    requires { SessionsHaveReplies 1 lines.now replies.now }
    ensures { Puts (K.put sink.old) (K.put sink.new) (K.faults sink.old) (K.faults sink.new)
        (text_lines (sessions_lines 1 lines.now replies.now)) result }
{
    for index in 0..replies.len() {
        put_session(alloc, index + 1, lines, replies[index].as_slice(), sink)?;
    }
    Ok(())
}
