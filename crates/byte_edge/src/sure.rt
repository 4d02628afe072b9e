// Sources and sinks over memory that never fail.
ghost use Rattle.std.specs.Prelude.{◌≡◌, ◌<◌, ◌≤◌, ◌+◌, ◌-◌, ◌++◌, [], length, take, drop, min, Some, true, IfOk, OnOk, OnErr, IsOk, IsTrue, IsErr, IfErr};
ghost use Rattle.std.specs.Io.KnownBytes.{append_known};
ghost use Rattle.byte_edge.specs.Given.{Gives};

use crate::listed::give;
use crate::{Failed, Sink, SinkStop, Source};
use std::alloc::Global;
use std::marker::Model;

/// A source over bytes in memory that never fails.
#[derive(Drop)]
pub struct SureSource {
    bytes: Vec<u8>,
    given: usize,
}

impl Model for SureSource {
    ghost use Rattle.std.specs.Prelude.{◌≤◌, vec_len};
    ghost use Rattle.byte_edge.specs.Totals.{SureBytes};

    ghost Value = { SureBytes };

    ghost view = { λ s. record { all = s.bytes.items; given = s.given } };

    ghost invariant = { λ s. s.given ≤ vec_len s.bytes };
}

impl SureSource {
    /// All the bytes are still to come.
    pub fn new(bytes: Vec<u8>) -> SureSource
        ensures { result ≡ record { all = bytes.items; given = 0 } }
    {
        SureSource { bytes, given: 0 }
    }
}

impl Source for SureSource {
    ghost left = { λ s. Some (drop s.given s.all) };

    ghost given = { λ s. s.given };

    ghost faults = { λ _. 0 };

    fn read(&mut self, buf: &mut [u8]) -> Result<usize, Failed>
        ensures fits { IfOk result (λ n. n ≤ length buf.new) }
        ensures moved { IfOk result (λ n. Gives (Some (drop self.old.given self.old.all)) (Some (drop self.new.given self.new.all)) self.old.given self.new.given (take n buf.new)) }
        ensures end { IfOk result (λ n. n ≡ 0 → 0 < length buf.new → drop self.old.given self.old.all ≡ []) }

        // It always gives as much as there is room for.
        ensures sure { IsOk result }
        ensures count { IfOk result (λ n. n ≡ min (length self.old.all - self.old.given) (length buf.old)) }
        ensures ok { IfOk result (λ n. self.new ≡ record self.old { given = self.old.given + n }) }
    {
        let count = give(&self.bytes[self.given..], buf);
        self.given += count;
        Ok(count)
    }
}

/// A sink into memory that takes each piece whole and never fails.
#[derive(Drop)]
pub struct SureSink {
    bytes: Vec<u8>,
}

impl Model for SureSink {
    ghost use Rattle.std.specs.Prelude.{List, ℕ};

    ghost Value = { List ℕ };

    ghost view = { λ s. s.bytes.items };
}

impl SureSink {
    /// It has taken nothing.
    pub fn new(alloc: Global) -> SureSink
        ensures { result ≡ [] }
    {
        SureSink {
            bytes: Vec::new(alloc),
        }
    }

    /// The bytes taken so far.
    pub fn bytes(&self) -> &[u8]
        ensures { result.now ≡ self.now }
    {
        &self.bytes
    }
}

impl Sink for SureSink {
    ghost put = { λ s. Some s };

    ghost faults = { λ _. 0 };

    ghost takes_memory = { true };

    fn write(&mut self, piece: &[u8]) -> Result<usize, SinkStop>
        // It always takes the whole piece where there is memory.
        ensures whole { IfOk result (λ n. n ≡ length piece.now) }
        ensures ok { OnOk result (self.new ≡ self.old ++ piece.now) }
        ensures err { OnErr result (self.new ≡ self.old) }
        ensures memory_alone { IfErr result (λ stop. stop ≡ SinkStop.Memory) }
    {
        self.bytes.extend_from_slice(piece)?;
        Ok(piece.len())
    }
}
