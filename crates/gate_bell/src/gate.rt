//! Gates: points of a run at which a test may hold a caller.

/// The point at which a worker is about to look for a job.
pub const BEFORE_LOOK: u8 = 1;

/// The point at which a worker has solved a job and hasn't published it yet.
pub const AFTER_SOLVING: u8 = 2;

/// The point at which a session has the reply to an edit or undo.
pub const AFTER_REPLY: u8 = 3;

/// What callers pass at the points of a run. It answers nothing, and no contract speaks of it: a run means the same at
/// every gate. A test may hold a caller there until others have come as far as it wants them; such a gate waits.
pub trait Gate {
    /// A caller has come to a point: `BEFORE_LOOK`, `AFTER_SOLVING` or `AFTER_REPLY`. `who` is the caller's number, 1
    /// to 8 of a session and 11 to 18 of a worker.
    fn arrive(&self, point: u8, who: u8);
}

/// A gate at which nobody is held.
#[derive(Clone, Copy, Debug)]
pub struct OpenGate;

impl Gate for OpenGate {
    fn arrive(&self, _point: u8, _who: u8) {}
}
