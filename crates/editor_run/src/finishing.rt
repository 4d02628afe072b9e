//! Finishing a document: frames after End, until the places have settled.
ghost use Rattle.std.specs.Prelude.{◌≡◌, ◌⊎◌, ◌<◌, ◌≤◌, ◌++◌, ◌∷◌, [], List, Ok, true, false, length, IsSome, OnOk};
ghost use Rattle.std.specs.List.{AllByRecursion};
ghost use Rattle.doc_book.specs.Finished.{IsFinished, IsFinishing};
ghost use Rattle.doc_book.specs.History.{end_place, after_end, IsSettled};
ghost use Rattle.editor_run.specs.Finishing.{GrowsOnce, IsDone, GrowsByFinishing};

use doc_book::{Book, Finish};
use std::alloc::Global;
use std::thread::Threads;
use units::Memory;

/// One step: whether a frame was entered.
fn finish_once<R: Threads + Sync>(rt: &R, alloc: Global, book: &mut Book) -> Result<bool, Memory>
    requires ended { IsSome (end_place book.old.history) }
    ensures more { result ≡ Ok true → GrowsOnce book.old book.new }
    ensures done { result ≡ Ok false → IsDone book.old book.new }
{
    match book.finish(rt, alloc) {
        Finish::Published { .. } => Ok(true),
        Finish::Settled { .. } | Finish::Full { .. } => Ok(false),
        Finish::Memory => Err(Memory),
    }
}

/// Frames by caller 0, until the last changed no place or 64 stand after End. The document was ended by its last
/// entry.
pub fn finish_all<R: Threads + Sync>(rt: &R, alloc: Global, book: &mut Book) -> Result<(), Memory>
    requires ended { IsSome (end_place book.old.history) }
    requires last { after_end book.old.history ≡ [] }
    ensures finished { OnOk result (IsFinished book.new.history) }
    ensures grown { OnOk result (GrowsByFinishing book.old book.new) }
{
    while finish_once(rt, alloc, book)? {}
    Ok(())
}
