//! Why an edit is refused.
ghost use Rattle.std.specs.Prelude.{◌≡◌};

use crate::walks::Walk;
use units::{Axis, Memory, Name};

/// What a limit counts.
#[derive(Clone, Copy, Debug, PartialEq, Eq)]
pub enum Counted {
    Shapes,
    Guides,
    Links,
    Groups,
    Compounds,
    Pages,
    Members,
    /// The separations of an axis.
    Seps,
    Entries,
}

/// Why an edit or an undo is refused.
#[derive(Debug, Drop, PartialEq)]
pub enum Refusal {
    /// A number of the edit, the first outside its range.
    Range { value: i32 },
    /// The name must stand, and doesn't.
    Unknown { name: Name },
    /// The new name stands already.
    Taken { name: Name },
    /// The item of this name stands as another kind than is wanted.
    Kind { name: Name },
    /// The name equals an earlier one of a list whose names must differ.
    Twice { name: Name },
    /// The item that was to be removed is used by the item of this name.
    InUse { by: Name },
    /// So many stand already, and no more may; or the edit lists more members than that.
    Limit { what: Counted, count: u32 },
    /// No placement would fit the edited scene on the axis: its separations have this positive cycle.
    Infeasible { axis: Axis, walk: Walk },
    /// The document was ended, by the entry at this place of the history.
    Ended { place: u32 },
    /// No edit stands that an undo could take off.
    NothingToUndo,
    /// Want of memory.
    Memory,
}

impl From<Memory> for Refusal {
    ghost use Rattle.edit_rules.specs.declared.refusals.Refusal.TheVariants as refusal;

    ghost from_gives = { λ _ e. e ≡ refusal.Memory };

    fn from(_: Memory) -> Self {
        Refusal::Memory
    }
}
