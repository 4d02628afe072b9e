//! Gates that hold a caller until another has come as far. They hold for a limited number of turns, so that every run ends,
//! and note where the limit was met.
use gate_bell::{AFTER_REPLY, AFTER_SOLVING, Gate};
use std::sync::atomic::{AtomicU64, Ordering};

/// The most turns for which a caller is held.
const TURNS: u32 = 100_000_000;

/// A count of arrivals that others may wait for.
#[derive(Drop)]
pub struct Arrivals {
    count: AtomicU64,
}

impl Arrivals {
    pub fn new() -> Arrivals {
        Arrivals {
            count: AtomicU64::new(0),
        }
    }

    pub fn note(&self) {
        self.count.fetch_add(1, Ordering::SeqCst);
    }

    /// How many there were.
    pub fn count(&self) -> u64 {
        self.count.load(Ordering::SeqCst)
    }

    /// Holds the caller until there were so many, for a limited number of turns. Says whether there were.
    pub fn hold(&self, wanted: u64) -> bool {
        for _ in 0..TURNS {
            if self.count() >= wanted {
                return true;
            }
        }
        false
    }
}

/// Holds a session behind its first reply until a worker has made a frame, and the worker, as it has made its first one,
/// until the session is past two replies.
#[derive(Drop)]
pub struct WorkerGate {
    pub replied: Arrivals,
    pub past: Arrivals,
    pub solved: Arrivals,
    pub late: Arrivals,
}

impl WorkerGate {
    pub fn new() -> WorkerGate {
        WorkerGate {
            replied: Arrivals::new(),
            past: Arrivals::new(),
            solved: Arrivals::new(),
            late: Arrivals::new(),
        }
    }

    fn hold_session(&self) {
        self.replied.note();
        if !self.solved.hold(1) {
            self.late.note();
        }
        self.past.note();
    }

    fn hold_worker(&self) {
        self.solved.note();
        if !self.past.hold(2) {
            self.late.note();
        }
    }
}

impl Gate for WorkerGate {
    fn arrive(&self, point: u8, _who: u8) {
        if point == AFTER_REPLY {
            self.hold_session();
        }
        if point == AFTER_SOLVING {
            self.hold_worker();
        }
    }
}

/// Holds each of two sessions behind its first reply until the other one has a reply too.
#[derive(Drop)]
pub struct SessionGate {
    pub first: Arrivals,
    pub second: Arrivals,
    pub late: Arrivals,
}

impl SessionGate {
    pub fn new() -> SessionGate {
        SessionGate {
            first: Arrivals::new(),
            second: Arrivals::new(),
            late: Arrivals::new(),
        }
    }

    fn meet(&self, own: &Arrivals, other: &Arrivals) {
        own.note();
        if !other.hold(1) {
            self.late.note();
        }
    }
}

impl Gate for SessionGate {
    fn arrive(&self, point: u8, who: u8) {
        if point != AFTER_REPLY {
            return;
        }
        if who == 1 {
            self.meet(&self.first, &self.second);
        } else {
            self.meet(&self.second, &self.first);
        }
    }
}
