//! What a worker came to.

/// The answer after which a worker stops.
#[derive(Clone, Copy, Debug, PartialEq, Eq)]
pub enum Last {
    /// The document was ended.
    Ending,
    /// The budget of frames was used up.
    Spent,
    /// Want of memory.
    Memory,
}

/// What a worker came to. A count of 2^64 - 1 stays.
#[derive(Clone, Copy, Debug, PartialEq, Eq)]
pub struct Tally {
    /// How many frames it published.
    pub published: u32,
    /// How many of its publications were stale.
    pub stale: u64,
    /// How many of its looks found nothing to lay out.
    pub idle: u64,
    /// The answer after which it stopped.
    pub last: Last,
}
