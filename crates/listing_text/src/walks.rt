//! The cycle that shows why an edit can't be met.
ghost use Rattle.std.specs.Prelude.{◌≡◌, ◌∷◌, ◌++◌, [], codes, map, if◌then◌else◌, OnOk};
ghost use Rattle.script_text.specs.Grammar.{axis_word};
ghost use Rattle.script_text.specs.Words.{behind};
ghost use Rattle.doc_book.specs.Listing.{arc_word};

use crate::words::{add_word, axis_word, begin_with};
use cycle_test::CycleArc;
use edit_rules::Walk;
use std::alloc::AllocError;
use units::Axis;

/// `-` of an arc that is taken back, else `+`.
fn direction(back: bool) -> u8
    ensures { result ≡ (if back then 45 else 43) }
{
    if back { b'-' } else { b'+' }
}

/// Adds an arc: the number of its separation, and whether it is taken back.
fn add_arc(text: &mut Vec<u8>, arc: &CycleArc) -> Result<(), AllocError>
    ensures { OnOk result (text.new.items ≡ text.old.items ++ 32 ∷ arc_word arc.now) }
{
    text.extend_from_slice(b" #")?;
    begin_with(text, usize::from(arc.sep))?;
    text.push(direction(arc.back))?;
    Ok(())
}

/// Adds the words of a cycle on an axis.
pub fn add_infeasible(text: &mut Vec<u8>, axis: Axis, walk: &Walk) -> Result<(), AllocError>
    ensures { OnOk result (text.new.items ≡ text.old.items ++ behind (codes "infeasible" ∷ axis_word axis ∷ map arc_word walk.now)) }
{
    add_word(text, b"infeasible")?;
    add_word(text, axis_word(axis))?;
    add_walk(text, walk.arcs())
}

/// Adds the arcs, each behind a space.
fn add_walk(text: &mut Vec<u8>, arcs: &[CycleArc]) -> Result<(), AllocError>
    ensures { OnOk result (text.new.items ≡ text.old.items ++ behind (map arc_word arcs.now)) }
{
    for at in 0..arcs.len() {
        add_arc(text, &arcs[at])?;
    }
    Ok(())
}
