//! Where a layout starts.
ghost use Rattle.std.specs.Prelude.{◌≡◌, ◌≤◌, IfOk, length};
ghost use Rattle.doc_book.specs.Hints.{is_pushing, pushing, no_hints, hints_of};

use frac128::Frac;
use frame_store::Frame;
use std::alloc::Global;
use units::{Memory, Sequence};

/// The separations with which a layout starts on each axis, by their numbers: those whose multiplier wasn't 0 in the last
/// frame. Any numbers are right, also those that an edit has shifted since; good ones make the way to the projection short.
#[derive(Drop)]
pub struct Hints {
    pub x: Sequence<u16>,
    pub y: Sequence<u16>,
}

/// A list with the same numbers.
fn copied(alloc: Global, numbers: &[u16]) -> Result<Sequence<u16>, Memory>
    ensures { IfOk result (λ copy. copy ≡ numbers.now) }
{
    Ok(Sequence::of(Vec::from_slice(alloc, numbers)?))
}

fn is_pushing(multiplier: &Frac) -> bool
    ensures { result ≡ is_pushing multiplier.now }
{
    multiplier.num() != 0
}

/// The numbers of the separations whose multiplier isn't 0, in order.
fn pushing(alloc: Global, multipliers: &[Frac]) -> Result<Sequence<u16>, Memory>
    requires few { length multipliers.now ≤ 2048 }
    ensures { IfOk result (λ numbers. numbers ≡ pushing multipliers.now) }
{
    let mut numbers = Vec::new(alloc);
    for number in 0..multipliers.len() {
        if is_pushing(&multipliers[number]) {
            numbers.push(number as u16)?;
        }
    }
    Ok(Sequence::of(numbers))
}

impl Hints {
    /// No separations.
    pub fn none(alloc: Global) -> Hints
        ensures { result ≡ no_hints }
    {
        Hints {
            x: Sequence::new(alloc),
            y: Sequence::new(alloc),
        }
    }

    /// The separations that push in a frame.
    pub fn of(alloc: Global, frame: &Frame) -> Result<Hints, Memory>
        requires on_x { length frame.now.x.multipliers ≤ 2048 }
        requires on_y { length frame.now.y.multipliers ≤ 2048 }
        ensures { IfOk result (λ hints. hints ≡ hints_of frame.now) }
    {
        Ok(Hints {
            x: pushing(alloc, frame.x.multipliers.as_slice())?,
            y: pushing(alloc, frame.y.multipliers.as_slice())?,
        })
    }

    /// Hints equal to these.
    pub fn copy(&self, alloc: Global) -> Result<Hints, Memory>
        ensures { IfOk result (λ copy. copy ≡ self.now) }
    {
        Ok(Hints {
            x: copied(alloc, self.x.as_slice())?,
            y: copied(alloc, self.y.as_slice())?,
        })
    }
}
