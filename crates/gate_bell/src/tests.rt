//! What no clause says: that rings are counted, that a rest ends, and that it ends only after a ring.
use super::*;
use std::sync::Wait;
use std::sync::atomic::{AtomicU64, Ordering};
use std::thread;
use std::thread::Threads;

// A gate at which a caller rests until the bell has rung more often than the point's number says.
#[derive(Drop)]
struct BellGate<'a, R> {
    rt: &'a R,
    bell: &'a Bell,
}

impl<R: Wait> Gate for BellGate<'_, R> {
    fn arrive(&self, point: u8, _who: u8) {
        let _rings = self.bell.rest(self.rt, u64::from(point));
    }
}

fn pass_all<G: Gate>(gate: &G, who: u8) {
    for point in [BEFORE_LOOK, AFTER_SOLVING, AFTER_REPLY] {
        gate.arrive(point, who);
    }
}

// One passes the points of the gate beside another one who rings; gives what the one saw behind the gate.
fn pass_beside<R: Threads + Wait + Sync>(rt: &R) -> u64 {
    let bell = Bell::new();
    let rung = AtomicU64::new(0);
    let gate = BellGate { rt, bell: &bell };
    let (seen, ()) = thread::join(
        rt,
        || {
            pass_all(&gate, 1);
            rung.load(Ordering::SeqCst)
        },
        || {
            for rings in 1..=4 {
                rung.store(rings, Ordering::SeqCst);
                bell.ring(rt);
            }
        },
    );
    seen
}

#[test]
fn rings_are_counted(rt: HostRuntime) {
    let bell = Bell::new();
    for rings in 1..=3 {
        bell.ring(&rt);
        assert_eq!(rt; bell.rest(&rt, 0), rings);
    }
    assert_eq!(rt; bell.rest(&rt, 2), 3);
}

#[test]
fn the_last_count_stays(rt: HostRuntime) {
    let bell = Bell::rung_before(u64::MAX - 1);
    for _ in 0..2 {
        bell.ring(&rt);
        assert_eq!(rt; bell.rest(&rt, u64::MAX - 1), u64::MAX);
    }
}

#[test]
fn a_rest_ends_behind_its_ring(rt: HostRuntime) {
    pass_all(&OpenGate, 11);
    assert_eq!(rt; pass_beside(&rt), 4);
}
