//! Who calls at the document: elements of slices, each of which keeps its right to call and what came of it.
ghost use Rattle.std.specs.Prelude.{◌≡◌};

use doc_book::Reply;
use layout_worker::Tally;
use shared_book::Pass;
use units::Sequence;

/// A session.
pub(crate) struct Session {
    pub(crate) pass: Pass,
    /// None before it is played, and where memory was wanting.
    pub(crate) replies: Option<Sequence<Reply>>,
}

impl Drop for Session {
    fn drop(self) {
        let Session { pass, replies } = self;
        drop(pass);
        drop(replies);
    }
}

impl Session {
    pub(crate) fn into_parts(self) -> (Pass, Option<Sequence<Reply>>)
        ensures { (result.0 ≡ self.pass) × (result.1 ≡ self.replies) }
    {
        let Session { pass, replies } = self;
        (pass, replies)
    }
}

/// A worker.
pub(crate) struct Worker {
    pub(crate) pass: Pass,
    /// Until it has worked, the tally of one who lacked memory.
    pub(crate) tally: Tally,
}

impl Drop for Worker {
    fn drop(self) {
        let Worker { pass, tally: _ } = self;
        drop(pass);
    }
}

impl Worker {
    pub(crate) fn into_parts(self) -> (Pass, Tally)
        ensures { (result.0 ≡ self.pass) × (result.1 ≡ self.tally) }
    {
        let Worker { pass, tally } = self;
        (pass, tally)
    }
}
