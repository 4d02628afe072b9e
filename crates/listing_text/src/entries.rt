//! The lines of the entries of a history.
ghost use Rattle.std.specs.Prelude.{◌≡◌, ◌∷◌, ◌++◌, [], ℕ, decimal, IfOk, OnOk};
ghost use Rattle.edit_rules.specs.Effects.{scene_of};
ghost use Rattle.doc_book.specs.History.{edits_after};
ghost use Rattle.doc_book.specs.Legal.{IsLegal};
ghost use Rattle.doc_book.specs.Listing.{act_words, text_line, text_lines, lines_of, entry_lines};
ghost use Rattle.script_text.specs.Words.{behind};
ghost use Rattle.listing_text.specs.Steps.{IsAccepting, IsPlacing};
ghost use Rattle.listing_text.specs.Putting.{Puts};

use crate::frames::add_lines_below;
use crate::putting::put;
use crate::words::{add_count, add_word, begin_with};
use byte_edge::{Sink, SinkStop};
use doc_book::{Act, Entry};
use scene_model::Scene;
use script_text::edit_text;
use std::alloc::Global;
use undo_store::Stand;
use units::Memory;

/// Adds the words of an act.
#[tactic(auto, using(crate::proofs::Lines::behind_spaced))]
fn add_act(alloc: Global, text: &mut Vec<u8>, act: &Act) -> Result<(), Memory>
    ensures { OnOk result (text.new.items ≡ text.old.items ++ behind (act_words act.now)) }
{
    match act {
        Act::Edit(edit) => add_word(text, &edit_text(alloc, edit)?)?,
        Act::Undo => add_word(text, b"undo")?,
        Act::Frame(_) => add_word(text, b"frame")?,
        Act::End => add_word(text, b"end")?,
    }
    Ok(())
}

/// Adds the first line of an entry: its place, who made it, the line that asked for it, and its act.
fn add_entry(alloc: Global, text: &mut Vec<u8>, place: usize, entry: &Entry) -> Result<(), Memory>
    ensures { OnOk result (text.new.items ≡ text.old.items
        ++ text_line (decimal place ∷ decimal entry.now.who ∷ decimal entry.now.line ∷ act_words entry.now.act)) }
{
    begin_with(text, place)?;
    add_count(text, u32::from(entry.who))?;
    add_count(text, entry.line)?;
    add_act(alloc, text, &entry.act)?;
    text.push(b'\n')?;
    Ok(())
}

/// The lines of the entry at a place of the history, whose scene is this one.
fn entry_text(alloc: Global, scene: &Scene, place: usize, entry: &Entry) -> Result<Vec<u8>, Memory>
    requires { IsPlacing scene.now entry.now.act }
    ensures { IfOk result (λ text. text.items ≡ text_lines (lines_of scene.now place entry.now)) }
{
    let mut text = Vec::new(alloc);
    add_entry(alloc, &mut text, place, entry)?;
    add_lines_below(&mut text, scene, &entry.act)?;
    Ok(text)
}

/// Takes the standing edits on, behind the act.
fn advance(alloc: Global, stand: &mut Stand, act: &Act) -> Result<(), Memory>
    requires { IsAccepting stand.old act.now }
    ensures { OnOk result (stand.new ≡ edits_after stand.old act.now) }
{
    match act {
        Act::Edit(edit) => stand.push(alloc, edit.copy(alloc)?),
        Act::Undo => {
            stand.undo(alloc)?;
            Ok(())
        }
        Act::Frame(_) => Ok(()),
        Act::End => Ok(()),
    }
}

/// The lines of the entry at a place. It takes the standing edits on, behind the entry.
fn next_text(
    alloc: Global,
    stand: &mut Stand,
    place: usize,
    entry: &Entry,
) -> Result<Vec<u8>, Memory>
    requires accepting { IsAccepting stand.old entry.now.act }
    requires placing { IsPlacing (scene_of stand.old) entry.now.act }
    ensures text { IfOk result (λ text. text.items ≡ text_lines (lines_of (scene_of stand.old) place entry.now)) }
    ensures edits { OnOk result (stand.new ≡ edits_after stand.old entry.now.act) }
{
    let text = entry_text(alloc, stand.scene(), place, entry)?;
    advance(alloc, stand, &entry.act)?;
    Ok(text)
}

/// Puts the lines of the entry at a place. It takes the standing edits on, behind the entry.
fn put_entry<K: Sink>(
    alloc: Global,
    stand: &mut Stand,
    place: usize,
    entry: &Entry,
    sink: &mut K,
) -> Result<(), SinkStop>
    requires accepting { IsAccepting stand.old entry.now.act }
    requires placing { IsPlacing (scene_of stand.old) entry.now.act }
    ensures puts { Puts (K.put sink.old) (K.put sink.new) (K.faults sink.old) (K.faults sink.new) (text_lines (lines_of (scene_of stand.old) place entry.now)) result }
    ensures edits { OnOk result (stand.new ≡ edits_after stand.old entry.now.act) }
{
    let Ok(text) = next_text(alloc, stand, place, entry) else {
        return Err(SinkStop::Memory);
    };
    put(sink, &text)
}

/// Puts the lines of the entries of a legal history.
pub fn put_entries<K: Sink>(alloc: Global, history: &[Entry], sink: &mut K) -> Result<(), SinkStop>
    requires { (budget : ℕ) × IsLegal history.now budget }
    ensures { Puts (K.put sink.old) (K.put sink.new) (K.faults sink.old) (K.faults sink.new) (text_lines (entry_lines [] 0 history.now)) result }
{
    let mut stand = Stand::new(alloc);
    for place in 0..history.len() {
        put_entry(alloc, &mut stand, place, &history[place], sink)?;
    }
    Ok(())
}
