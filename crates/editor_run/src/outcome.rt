//! What a run comes to.
ghost use Rattle.std.specs.Prelude.{◌≡◌};

use byte_edge::ReadStop;
use doc_book::{Book, Reply};
use layout_worker::Tally;
use script_text::{ReadFault, Script, ScriptFault};
use thiserror::Error;
use units::{Memory, Sequence};

/// Why a run failed.
#[derive(Clone, Copy, Debug, PartialEq, Eq, Error)]
pub enum Fault {
    /// The words after the program's name aren't ones that it takes.
    #[error("words refused")]
    Words,
    /// A read of the source failed.
    #[error("source failed")]
    Source,
    /// The bytes of the source spell no script.
    #[error("line {}: {:?}", .0.line, .0.kind)]
    Script(ScriptFault),
    /// Want of memory.
    #[error("no memory")]
    Memory,
    /// A write of the sink failed.
    #[error("sink failed")]
    Sink,
    /// The source gave more than 1,048,576 bytes.
    #[error("input too long")]
    Long,
}

impl Fault {
    ghost use Rattle.editor_run.specs.Outcomes.{status_of};

    /// The exit status of the fault, from 2 to 7.
    pub fn status(self) -> u8
        ensures { result ≡ status_of self }
    {
        match self {
            Fault::Words => 2,
            Fault::Script(_) => 3,
            Fault::Source => 4,
            Fault::Memory => 5,
            Fault::Sink => 6,
            Fault::Long => 7,
        }
    }
}

impl From<ReadStop> for Fault {
    ghost use Rattle.editor_run.specs.Outcomes.{fault_of_stop};

    ghost from_gives = { λ stop fault. fault ≡ fault_of_stop stop };

    fn from(stop: ReadStop) -> Self {
        match stop {
            ReadStop::Failed => Fault::Source,
            ReadStop::TooLong => Fault::Long,
            ReadStop::Memory => Fault::Memory,
        }
    }
}

impl From<Memory> for Fault {
    ghost use Rattle.editor_run.specs.declared.outcome.Fault.TheVariants as fault_value;

    ghost from_gives = { λ memory fault. fault ≡ fault_value.Memory };

    fn from(_: Memory) -> Self {
        Fault::Memory
    }
}

impl From<ReadFault> for Fault {
    ghost use Rattle.editor_run.specs.Outcomes.{fault_of_read};

    ghost from_gives = { λ cause fault. fault ≡ fault_of_read cause };

    fn from(cause: ReadFault) -> Self {
        match cause {
            ReadFault::Fault(fault) => Fault::Script(fault),
            ReadFault::Memory => Fault::Memory,
        }
    }
}

/// What a run comes to.
#[derive(Drop)]
pub struct Outcome {
    /// The exit status: 0 on success, else that of the fault.
    pub status: u8,
    /// None on status 0.
    pub fault: Option<Fault>,
    /// The finished document, on status 0 and where the sink failed.
    pub book: Option<Book>,
    /// The script, on status 0 and where the sink failed.
    pub script: Option<Script>,
    /// The replies by session: eight lists, session 1 first, on status 0 and where the sink failed.
    pub replies: Sequence<Sequence<Reply>>,
    /// The tallies of the workers, that of worker 11 first, on status 0 and where the sink failed: one each.
    pub tallies: Sequence<Tally>,
}
