// Sources and sinks over memory that never fail, and move only a few bytes a call.
ghost use Rattle.std.specs.Prelude.{◌≡◌, ◌<◌, ◌≤◌, ◌+◌, ◌-◌, ◌++◌, [], length, take, drop, min, Some, true, IfOk, OnOk, OnErr, IsOk, IsTrue, IfErr};
ghost use Rattle.std.specs.Io.KnownBytes.{append_known};
ghost use Rattle.byte_edge.specs.Given.{Gives};

use crate::listed::give;
use crate::{Failed, Sink, SinkStop, Source};
use std::alloc::Global;
use std::marker::Model;

/// A source over bytes in memory that gives at most `step` bytes a call, and never fails.
#[derive(Drop)]
pub struct SlowSource {
    bytes: Vec<u8>,
    given: usize,
    step: u32,
}

impl Model for SlowSource {
    ghost use Rattle.std.specs.Prelude.{◌≤◌, vec_len};
    ghost use Rattle.byte_edge.specs.Totals.{SlowBytes};

    ghost Value = { SlowBytes };

    ghost view = { λ s. record { all = s.bytes.items; given = s.given; step = s.step } };

    ghost invariant = { λ s. (s.given ≤ vec_len s.bytes) × (1 ≤ s.step) };
}

impl SlowSource {
    /// All the bytes are still to come, `step` of them a call; `step` is at least 1.
    pub fn new(bytes: Vec<u8>, step: u32) -> SlowSource
        requires { 1 ≤ step }
        ensures { result ≡ record { all = bytes.items; given = 0; step = step } }
    {
        SlowSource {
            bytes,
            given: 0,
            step,
        }
    }
}

impl Source for SlowSource {
    ghost left = { λ s. Some (drop s.given s.all) };

    ghost given = { λ s. s.given };

    ghost faults = { λ _. 0 };

    fn read(&mut self, buf: &mut [u8]) -> Result<usize, Failed>
        ensures fits { IfOk result (λ n. n ≤ length buf.new) }
        ensures moved { IfOk result (λ n. Gives (Some (drop self.old.given self.old.all)) (Some (drop self.new.given self.new.all)) self.old.given self.new.given (take n buf.new)) }
        ensures end { IfOk result (λ n. n ≡ 0 → 0 < length buf.new → drop self.old.given self.old.all ≡ []) }

        // It always gives as much as there is room for, up to its step.
        ensures sure { IsOk result }
        ensures count { IfOk result (λ n. n ≡ min (min (length self.old.all - self.old.given) self.old.step) (length buf.old)) }
        ensures ok { IfOk result (λ n. self.new ≡ record self.old { given = self.old.given + n }) }
    {
        let rest = &self.bytes[self.given..];
        let count = give(front(rest, self.step), buf);
        self.given += count;
        Ok(count)
    }
}

// The first bytes, at most `step` of them.
fn front(bytes: &[u8], step: u32) -> &[u8]
    ensures { result.now ≡ take (min (length bytes.now) step) bytes.now }
{
    let count = bytes.len().min(step as usize);
    &bytes[..count]
}

/// A sink into memory that takes at most `step` bytes of a piece, and never fails.
#[derive(Drop)]
pub struct SlowSink {
    bytes: Vec<u8>,
    step: u32,
}

impl Model for SlowSink {
    ghost use Rattle.std.specs.Prelude.{◌≤◌};
    ghost use Rattle.byte_edge.specs.Totals.{SlowBytesPut};

    ghost Value = { SlowBytesPut };

    ghost view = { λ s. record { put = s.bytes.items; step = s.step } };

    ghost invariant = { λ s. 1 ≤ s.step };
}

impl SlowSink {
    /// It has taken nothing, and takes `step` bytes a call; `step` is at least 1.
    pub fn new(alloc: Global, step: u32) -> SlowSink
        requires { 1 ≤ step }
        ensures { result ≡ record { put = []; step = step } }
    {
        SlowSink {
            bytes: Vec::new(alloc),
            step,
        }
    }

    /// The bytes taken so far.
    pub fn bytes(&self) -> &[u8]
        ensures { result.now ≡ self.now.put }
    {
        &self.bytes
    }
}

impl Sink for SlowSink {
    ghost put = { λ s. Some s.put };

    ghost faults = { λ _. 0 };

    ghost takes_memory = { true };

    fn write(&mut self, piece: &[u8]) -> Result<usize, SinkStop>
        ensures fits { IfOk result (λ n. n ≤ length piece.now) }
        ensures takes_some { IfOk result (λ n. n ≡ 0 → piece.now ≡ []) }
        ensures grown { IfOk result (λ n. Some self.new.put ≡ append_known (Some self.old.put) (take n piece.now)) }

        // It takes the whole piece, up to its step, where there is memory.
        ensures count { IfOk result (λ n. n ≡ min (length piece.now) self.old.step) }
        ensures ok { IfOk result (λ n. self.new ≡ record self.old { put = self.old.put ++ take n piece.now }) }
        ensures err { OnErr result (self.new ≡ self.old) }
        ensures memory_alone { IfErr result (λ stop. stop ≡ SinkStop.Memory) }
    {
        let taken = front(piece, self.step);
        self.bytes.extend_from_slice(taken)?;
        Ok(taken.len())
    }
}
