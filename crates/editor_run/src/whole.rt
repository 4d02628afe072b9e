//! Playing a script to the end of its document.
ghost use Rattle.std.specs.Prelude.{◌≡◌, ◌≤◌, None, [], ◌∷◌, ◌++◌, IfOk, OnOk};
ghost use Rattle.doc_book.specs.declared.entries.Act.TheVariants as act;
ghost use Rattle.doc_book.specs.Growing.{entry_of};
ghost use Rattle.doc_book.specs.History.{end_place};
ghost use Rattle.doc_book.specs.Legal.{most_frames};
ghost use Rattle.editor_run.specs.Played.{IsPlayedToEnd};

use crate::finishing::finish_all;
use doc_book::{Book, Reply};
use layout_worker::Tally;
use script_text::Script;
use session_run::play_alone;
use std::alloc::Global;
use std::thread::Threads;
use units::{Memory, Sequence};

/// A document that was played to its end, with the replies by session and the tallies of the workers.
#[derive(Drop)]
pub struct Played {
    pub book: Book,
    pub replies: Sequence<Sequence<Reply>>,
    pub tallies: Sequence<Tally>,
}

/// Plays the lines of a script in file order, ends the document and finishes it.
pub fn play_whole<R: Threads + Sync>(
    rt: &R,
    alloc: Global,
    frames: u32,
    script: &Script,
) -> Result<Played, Memory>
    requires { frames ≤ most_frames }
    ensures { IfOk result (λ p. IsPlayedToEnd frames 0 script.now p.book p.replies p.tallies) }
{
    // Asked for what its type keeps, which the proof needs.
    let _lines = script.lines();
    let mut book = Book::new(alloc, frames);
    let lists = play_alone(rt, alloc, &mut book, script)?;
    end(&mut book)?;
    finish_all(rt, alloc, &mut book)?;
    // Asked for what its type keeps, which the proof needs.
    let _legal = book.history();
    Ok(Played {
        book,
        replies: Sequence::of(lists),
        tallies: Sequence::new(alloc),
    })
}

/// Ends the document, which wasn't ended.
fn end(book: &mut Book) -> Result<(), Memory>
    requires { end_place book.old.history ≡ None }
    ensures { OnOk result (book.new ≡ record book.old { history = book.old.history ++ entry_of 0 0 act.End ∷ [] }) }
{
    match book.end() {
        Ok(_) => Ok(()),
        Err(_) => Err(Memory),
    }
}
