//! Playing a script beside workers, to the end of its document.
ghost use Rattle.std.specs.Prelude.{◌≤◌, IfOk};
ghost use Rattle.doc_book.specs.Legal.{most_frames};
ghost use Rattle.editor_run.specs.Played.{IsPlayedToEnd};

use crate::finishing::finish_all;
use crate::whole::Played;
use concurrent_run::{Beside, run_beside};
use gate_bell::Gate;
use script_text::Script;
use std::sync::Wait;
use std::thread::Threads;
use units::Memory;

/// Plays the sessions of a script beside each other and beside so many workers, ends the document and finishes it.
pub fn play_beside<R: AllocGlobal + Threads + Wait + Sync, G: Gate + Sync>(
    rt: &R,
    gate: &G,
    frames: u32,
    workers: u8,
    script: &Script,
) -> Result<Played, Memory>
    requires frames { frames ≤ most_frames }
    requires workers { (1 ≤ workers) × (workers ≤ 8) }
    ensures { IfOk result (λ p. IsPlayedToEnd frames workers script.now p.book p.replies p.tallies) }
{
    let beside = run_beside(rt, gate, frames, workers, script)?;
    let Beside {
        mut book,
        replies,
        tallies,
    } = beside;
    finish_all(rt, rt.alloc(), &mut book)?;
    // Asked for what its type keeps, which the proof needs.
    let _legal = book.history();
    Ok(Played {
        book,
        replies,
        tallies,
    })
}
