//! Places and desired places.
ghost use Rattle.std.specs.Prelude.{◌≡◌, [], IfOk};

use std::alloc::Global;
use units::{Memory, Sequence};

/// Where the variables of each axis stand, by their numbers, in whole diagram units.
#[derive(Drop)]
pub struct Places {
    pub x: Sequence<i64>,
    pub y: Sequence<i64>,
}

/// Where the variables of each axis are to stand, by their numbers, in whole diagram units.
#[derive(Drop)]
pub struct Desired {
    pub x: Sequence<i64>,
    pub y: Sequence<i64>,
}

/// A list with the same numbers.
pub fn copied(alloc: Global, numbers: &[i64]) -> Result<Sequence<i64>, Memory>
    ensures { IfOk result (λ copy. copy ≡ numbers.now) }
{
    Ok(Sequence::of(Vec::from_slice(alloc, numbers)?))
}

impl Places {
    /// The places of no variables.
    pub fn none(alloc: Global) -> Places
        ensures { result ≡ record { x = []; y = [] } }
    {
        Places {
            x: Sequence::new(alloc),
            y: Sequence::new(alloc),
        }
    }

    /// Places equal to these.
    pub fn copy(&self, alloc: Global) -> Result<Places, Memory>
        ensures { IfOk result (λ copy. copy ≡ self.now) }
    {
        Ok(Places {
            x: copied(alloc, self.x.as_slice())?,
            y: copied(alloc, self.y.as_slice())?,
        })
    }
}
