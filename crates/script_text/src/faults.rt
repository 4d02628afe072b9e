//! Why bytes are not read as a script.
ghost use Rattle.std.specs.Prelude.{◌≡◌};

use std::alloc::AllocFailed;
use units::Memory;

/// What is wrong with a line, in the order in which it is asked: the kind of a fault is the first that holds.
#[derive(Clone, Copy, Debug, PartialEq, Eq)]
pub enum FaultKind {
    /// The line before it is `end`, and bytes follow that.
    After,
    /// The bytes end before the line.
    Missing,
    /// The bytes end within the line: it has no LF.
    Cut,
    /// It is line 1, and not `dunnart 1`.
    Header,
    /// It has more than 2,048 bytes.
    Long,
    /// 2,000 command lines stand before it.
    TooMany,
    /// It doesn't begin with the digit of a session and a space.
    Session,
    /// Its word is that of no command.
    Command,
    /// Its fields are not those of its command.
    Fields,
}

/// The fault of bytes that spell no script.
#[derive(Clone, Copy, Debug, PartialEq, Eq)]
pub struct ScriptFault {
    /// The number of the line, from 1 on: 1 to 2,003.
    pub line: u32,
    pub kind: FaultKind,
}

/// Why no line is read.
#[derive(Clone, Copy, Debug, PartialEq, Eq)]
pub enum LineFault {
    /// What is wrong with it.
    Kind(FaultKind),
    /// Want of memory.
    Memory,
}

impl From<FaultKind> for LineFault {
    ghost use Rattle.script_text.specs.declared.faults.LineFault.TheVariants as no_line;

    ghost from_gives = { λ kind e. e ≡ no_line.Kind kind };

    fn from(kind: FaultKind) -> Self {
        LineFault::Kind(kind)
    }
}

impl From<Memory> for LineFault {
    ghost use Rattle.script_text.specs.declared.faults.LineFault.TheVariants as no_line;

    ghost from_gives = { λ _ e. e ≡ no_line.Memory };

    fn from(_: Memory) -> Self {
        LineFault::Memory
    }
}

/// Why no script is read.
#[derive(Clone, Copy, Debug, PartialEq, Eq)]
pub enum ReadFault {
    /// The bytes spell no script.
    Fault(ScriptFault),
    /// Want of memory.
    Memory,
}

impl From<Memory> for ReadFault {
    ghost use Rattle.script_text.specs.declared.faults.ReadFault.TheVariants as cause;

    ghost from_gives = { λ _ e. e ≡ cause.Memory };

    fn from(_: Memory) -> Self {
        ReadFault::Memory
    }
}

impl<T: Drop> From<AllocFailed<T>> for ReadFault {
    ghost use Rattle.script_text.specs.declared.faults.ReadFault.TheVariants as cause;

    ghost from_gives = { λ _ e. e ≡ cause.Memory };

    fn from(_: AllocFailed<T>) -> Self {
        ReadFault::Memory
    }
}
