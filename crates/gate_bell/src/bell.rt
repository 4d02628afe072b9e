//! A bell, and rests until it has rung.
ghost use Rattle.std.specs.Prelude.{◌≡◌, ◌<◌, ◌+◌, ◌-◌, ◌^◌, min};

use std::sync::{Condvar, Mutex, Wait};

/// A bell that counts its rings, from 0. Who rests at it says up to which count it has heard, and is woken when there
/// is a ring more. So no ring is lost between two rests, in which nobody listens.
///
/// It is an event count: Reed and Kanodia, "Synchronization with eventcounts and sequencers" (1979).
#[derive(Drop)]
pub struct Bell {
    rings: Mutex<u64>,
    rung: Condvar,
}

/// Counts a ring. A count of 2^64 - 1 stays.
fn count_ring(rings: &mut u64)
    ensures { rings.new ≡ min (rings.old + 1) (2 ^ 64 - 1) }
{
    *rings = rings.saturating_add(1);
}

impl Bell {
    /// A bell that hasn't rung.
    pub fn new() -> Bell {
        Bell::rung_before(0)
    }

    /// A bell that has rung so often.
    pub(crate) fn rung_before(rings: u64) -> Bell {
        Bell {
            rings: Mutex::new(rings),
            rung: Condvar::new(),
        }
    }

    /// Rings once and wakes all who rest. At 2^64 - 1 the count stays.
    pub fn ring<R: Wait>(&self, rt: &R) {
        count_ring(&mut self.rings.lock(rt));
        self.rung.notify_all();
    }

    /// Waits until the bell has rung more than `heard` times, and gives the count of rings. It doesn't return where
    /// `heard` is 2^64 - 1.
    pub fn rest<R: Wait>(&self, rt: &R, heard: u64) -> u64
        ensures { heard < result }
    {
        let rings = self.rings.lock(rt);
        *self.rung.wait_while(rt, rings, |rings| *rings <= heard)
    }
}
