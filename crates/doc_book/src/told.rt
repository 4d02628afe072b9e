//! What a caller was told.
ghost use Rattle.std.specs.Prelude.{◌≡◌};
ghost use Rattle.doc_book.specs.Turns.{untold, told_look, told_publish};

use crate::looking::Look;
use crate::publishing::Publish;

/// What a caller was told by its looks and publications so far. A count of 2^64 - 1 stays.
#[derive(Clone, Copy, Debug, PartialEq, Eq)]
pub struct Told {
    /// How many of its publications were stale.
    pub stale: u64,
    /// How many of its looks found nothing to lay out.
    pub idle: u64,
    /// The front of the job that its last look gave, until it is published or given up.
    pub job: Option<u32>,
}

impl Told {
    /// Nothing.
    pub fn new() -> Told
        ensures { result ≡ untold }
    {
        Told {
            stale: 0,
            idle: 0,
            job: None,
        }
    }

    /// Notes the answer to a look.
    pub fn note_look(&mut self, look: &Look)
        ensures { self.new ≡ told_look self.old look.now }
    {
        match look {
            Look::Job(job) => self.job = Some(job.front()),
            Look::Idle { .. } => self.idle = self.idle.saturating_add(1),
            Look::Spent { .. } => (),
            Look::Ending { .. } => (),
            Look::Memory => (),
        }
    }

    /// Notes the answer to a publication: no job is out any more.
    pub fn note_publish(&mut self, answer: &Publish)
        ensures { self.new ≡ told_publish self.old answer.now }
    {
        self.job = None;
        match answer {
            Publish::Published { .. } => (),
            Publish::Stale { .. } => self.stale = self.stale.saturating_add(1),
            Publish::Memory { .. } => (),
        }
    }
}
