//! What the words of a command line ask for.

/// What the words ask for.
#[derive(Clone, Copy, Debug, PartialEq, Eq)]
pub struct Plan {
    /// How many layout workers run beside the sessions: 0 to 8, and 0 where a script is made.
    pub workers: u8,
    /// The budget of frames before End: 0 to 512.
    pub frames: u32,
    /// Whether the picture is written in place of the listing.
    pub svg: bool,
    /// The number of the script that is made in place of reading one: 1 to 1,000,000.
    pub made: Option<u32>,
}

/// Why there is no plan.
#[derive(Clone, Copy, Debug, PartialEq, Eq)]
pub enum PlanStop {
    /// The command doesn't take the words, or they ask for help.
    Refused,
    /// Want of memory.
    Memory,
}
