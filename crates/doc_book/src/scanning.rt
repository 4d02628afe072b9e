//! What a look over the entries of a history finds.
ghost use Rattle.std.specs.Prelude.{if◌then◌else◌, ◌≡◌, ◌<◌, ◌^◌, Some, length, position, IfSome};
ghost use Rattle.doc_book.specs.History.{end_place, frame_count, after_end, is_end, is_frame};

use crate::entries::{Act, Entry};

fn is_end(entry: &Entry) -> bool
    ensures { result ≡ is_end entry.now }
{
    match &entry.act {
        Act::Edit(_) | Act::Undo => false,
        Act::Frame(_) => false,
        Act::End => true,
    }
}

fn is_frame(entry: &Entry) -> bool
    ensures { result ≡ is_frame entry.now }
{
    match &entry.act {
        Act::Edit(_) | Act::Undo => false,
        Act::Frame(_) => true,
        Act::End => false,
    }
}

/// The place of End, where it stands.
pub fn end_place(history: &[Entry]) -> Option<u32>
    requires { length history.now < 2 ^ 32 }
    ensures { result ≡ end_place history.now }
{
    let place = end_index(history)?;
    Some(place as u32)
}

fn end_index(history: &[Entry]) -> Option<usize>
    ensures value { result ≡ position is_end history.now }
    ensures within { IfSome result (λ place. place < length history.now) }
{
    history.iter().position(|entry| is_end(entry))
}

/// How many frames there are.
pub fn frame_count(history: &[Entry]) -> usize
    ensures { result ≡ frame_count history.now }
{
    let mut count = 0;
    for at in 0..history.len() {
        count += one_frame(&history[at]);
    }
    count
}

/// One for a frame, else none.
fn one_frame(entry: &Entry) -> usize
    ensures { result ≡ (if is_frame entry.now then 1 else 0) }
{
    if is_frame(entry) { 1 } else { 0 }
}

/// How many entries stand after End.
pub fn finishing_count(history: &[Entry]) -> usize
    requires { length history.now < 2 ^ 32 }
    ensures { result ≡ length (after_end history.now) }
{
    match end_place(history) {
        Some(place) => behind(history, place),
        None => 0,
    }
}

fn behind(history: &[Entry], place: u32) -> usize
    requires { end_place history.now ≡ Some place }
    ensures { result ≡ length (after_end history.now) }
{
    history.len() - 1 - place as usize
}
