// Sources and sinks over memory, whose listed calls fail.
ghost use Rattle.std.specs.Prelude.{◌≡◌, ◌↔◌, ◌<◌, ◌≤◌, ◌+◌, ◌-◌, ◌++◌, [], length, take, drop, min, None, Some, true, IfOk, OnOk, IfErr, OnErr, IsErr, IsTrue, Contains, if◌then◌else◌};
ghost use Rattle.std.specs.Io.KnownBytes.{append_known};
ghost use Rattle.byte_edge.specs.Count.{HasRisen, count_on};
ghost use Rattle.byte_edge.specs.Given.{Gives};

use crate::{Failed, Sink, SinkStop, Source};
use std::marker::Model;

/// A source over bytes in memory. The calls of `read` whose numbers, from 1, are listed fail; no other call does.
#[derive(Drop)]
pub struct MemSource {
    bytes: Vec<u8>,
    given: usize,
    fail: Vec<u32>,
    calls: u64,
    faults: u64,
}

impl Model for MemSource {
    ghost use Rattle.std.specs.Prelude.{◌≤◌, vec_len};
    ghost use Rattle.byte_edge.specs.Totals.{ListedSource};

    ghost Value = { ListedSource };

    ghost view = { λ s. record { all = s.bytes.items; given = s.given; fail = s.fail.items; calls = s.calls; faults = s.faults } };

    ghost invariant = { λ s. s.given ≤ vec_len s.bytes };
}

impl MemSource {
    /// All the bytes are still to come, and no call was made.
    pub fn new(bytes: Vec<u8>, fail: Vec<u32>) -> MemSource
        ensures { result ≡ record { all = bytes.items; given = 0; fail = fail.items; calls = 0; faults = 0 } }
    {
        MemSource {
            bytes,
            given: 0,
            fail,
            calls: 0,
            faults: 0,
        }
    }
}

impl Source for MemSource {
    ghost left = { λ s. Some (drop s.given s.all) };

    ghost given = { λ s. s.given };

    ghost faults = { λ s. s.faults };

    fn read(&mut self, buf: &mut [u8]) -> Result<usize, Failed>
        ensures fits { IfOk result (λ n. n ≤ length buf.new) }
        ensures moved { IfOk result (λ n. Gives (Some (drop self.old.given self.old.all)) (Some (drop self.new.given self.new.all)) self.old.given self.new.given (take n buf.new)) }
        ensures end { IfOk result (λ n. n ≡ 0 → 0 < length buf.new → drop self.old.given self.old.all ≡ []) }
        ensures calm { OnOk result (self.new.faults ≡ self.old.faults) }
        ensures failed { OnErr result (HasRisen self.old.faults self.new.faults) }
        ensures never_falls { self.old.faults ≤ self.new.faults }
        ensures left_kept { OnErr result (Some (drop self.new.given self.new.all) ≡ Some (drop self.old.given self.old.all)) }
        ensures given_kept { OnErr result (self.new.given ≡ self.old.given) }

        // It fails exactly at the calls that are listed, and else gives as much as there is room for.
        ensures listed { IsErr result ↔ Contains self.old.fail (count_on self.old.calls 1) }
        ensures count { IfOk result (λ n. n ≡ min (length self.old.all - self.old.given) (length buf.old)) }
        ensures ok { IfOk result (λ n. self.new ≡ record self.old { calls = count_on self.old.calls 1; given = self.old.given + n }) }
        ensures err { OnErr result (self.new ≡ record self.old { calls = count_on self.old.calls 1; faults = count_on self.old.faults 1 }) }
    {
        if next_call_fails(&self.fail, &mut self.calls, &mut self.faults) {
            return Err(Failed);
        }
        let count = give(&self.bytes[self.given..], buf);
        self.given += count;
        Ok(count)
    }
}

// Counts one more call. Where its number is listed, it is to fail, and the fault is counted.
fn next_call_fails(fail: &[u32], calls: &mut u64, faults: &mut u64) -> bool
    ensures listed { IsTrue result ↔ Contains fail.now (count_on calls.old 1) }
    ensures calls { calls.new ≡ count_on calls.old 1 }
    ensures faults { faults.new ≡ (if result then count_on faults.old 1 else faults.old) }
{
    *calls = calls.saturating_add(1);
    let call = *calls;
    let fails = fail.iter().any(|&number| u64::from(number) == call);
    if fails {
        *faults = faults.saturating_add(1);
    }
    fails
}

// Copies the front of the bytes to the front of the buffer, as many as both have.
pub(crate) fn give(bytes: &[u8], buf: &mut [u8]) -> usize
    ensures count { result ≡ min (length bytes.now) (length buf.old) }
    ensures copied { buf.new ≡ take result bytes.now ++ drop result buf.old }
{
    let count = bytes.len().min(buf.len());
    buf[..count].copy_from_slice(&bytes[..count]);
    count
}

/// A sink into memory, which takes each piece whole. The calls of `write` whose numbers, from 1, are listed fail.
#[derive(Drop)]
pub struct MemSink {
    bytes: Vec<u8>,
    fail: Vec<u32>,
    calls: u64,
    faults: u64,
}

impl Model for MemSink {
    ghost use Rattle.byte_edge.specs.Totals.{ListedSink};

    ghost Value = { ListedSink };

    ghost view = { λ s. record { put = s.bytes.items; fail = s.fail.items; calls = s.calls; faults = s.faults } };
}

impl MemSink {
    /// It has taken nothing, and no call was made. The bytes to come lie where the list lies.
    pub fn new(fail: Vec<u32>) -> MemSink
        ensures { result ≡ record { put = []; fail = fail.items; calls = 0; faults = 0 } }
    {
        let alloc = *fail.allocator();
        MemSink {
            bytes: Vec::new(alloc),
            fail,
            calls: 0,
            faults: 0,
        }
    }

    /// The bytes taken so far.
    pub fn bytes(&self) -> &[u8]
        ensures { result.now ≡ self.now.put }
    {
        &self.bytes
    }
}

impl Sink for MemSink {
    ghost put = { λ s. Some s.put };

    ghost faults = { λ s. s.faults };

    ghost takes_memory = { true };

    fn write(&mut self, piece: &[u8]) -> Result<usize, SinkStop>
        ensures fits { IfOk result (λ n. n ≤ length piece.now) }
        ensures takes_some { IfOk result (λ n. n ≡ 0 → piece.now ≡ []) }
        ensures grown { IfOk result (λ n. Some self.new.put ≡ append_known (Some self.old.put) (take n piece.now)) }
        ensures calm { OnOk result (self.new.faults ≡ self.old.faults) }
        ensures failed { result ≡ Err SinkStop.Failed → HasRisen self.old.faults self.new.faults }
        ensures memory { result ≡ Err SinkStop.Memory → IsTrue true }
        ensures memory_calm { result ≡ Err SinkStop.Memory → self.new.faults ≡ self.old.faults }
        ensures never_falls { self.old.faults ≤ self.new.faults }
        ensures put_kept { OnErr result (Some self.new.put ≡ Some self.old.put) }

        // It fails exactly at the calls that are listed, and else takes the whole piece where there is memory.
        ensures listed { result ≡ Err SinkStop.Failed → Contains self.old.fail (count_on self.old.calls 1) }
        ensures fails { Contains self.old.fail (count_on self.old.calls 1) → result ≡ Err SinkStop.Failed }
        ensures whole { IfOk result (λ n. n ≡ length piece.now) }
        ensures ok { OnOk result (self.new ≡ record self.old { calls = count_on self.old.calls 1; put = self.old.put ++ piece.now }) }
        ensures err { result ≡ Err SinkStop.Failed → self.new ≡ record self.old { calls = count_on self.old.calls 1; faults = count_on self.old.faults 1 } }
        ensures memory_kept { result ≡ Err SinkStop.Memory → self.new ≡ record self.old { calls = count_on self.old.calls 1 } }
    {
        if next_call_fails(&self.fail, &mut self.calls, &mut self.faults) {
            return Err(SinkStop::Failed);
        }
        self.bytes.extend_from_slice(piece)?;
        Ok(piece.len())
    }
}
