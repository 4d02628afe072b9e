// The readers and writers of std as sources and sinks. What they read and write is not told.
ghost use Rattle.std.specs.Prelude.{◌≡◌, ◌<◌, ◌≤◌, [], length, take, None, false, IfOk, OnOk, OnErr, IfErr, IsTrue};
ghost use Rattle.byte_edge.specs.Count.{HasRisen, count_on};
ghost use Rattle.byte_edge.specs.Given.{Gives};

use crate::{Failed, Sink, SinkStop, Source};
use std::io::{Read, Write};
use std::marker::Model;

/// A reader of std as a source. It counts each error of the reader, and tells nothing of the bytes to come.
#[derive(Drop)]
pub struct StdSource<R> {
    inner: R,
    given: u64,
    faults: u64,
}

impl<R> Model for StdSource<R> {
    ghost use Rattle.byte_edge.specs.Totals.{ReaderCounts};

    ghost Value = { ReaderCounts };

    ghost view = { λ s. record { given = s.given; faults = s.faults } };
}

impl<R> StdSource<R> {
    /// Nothing was read, and nothing failed.
    pub fn new(inner: R) -> StdSource<R>
        ensures { result ≡ record { given = 0; faults = 0 } }
    {
        StdSource {
            inner,
            given: 0,
            faults: 0,
        }
    }
}

impl<R: Read> Source for StdSource<R> {
    ghost left = { λ _. None };

    ghost given = { λ s. s.given };

    ghost faults = { λ s. s.faults };

    fn read(&mut self, buf: &mut [u8]) -> Result<usize, Failed>
        ensures fits { IfOk result (λ n. n ≤ length buf.new) }
        ensures moved { IfOk result (λ n. Gives None None self.old.given self.new.given (take n buf.new)) }
        ensures calm { OnOk result (self.new.faults ≡ self.old.faults) }
        ensures failed { OnErr result (HasRisen self.old.faults self.new.faults) }
        ensures never_falls { self.old.faults ≤ self.new.faults }
        ensures given_kept { OnErr result (self.new.given ≡ self.old.given) }

        // The one count goes on by the bytes that the reader gave, the other by one at each of its errors.
        ensures ok { IfOk result (λ n. self.new ≡ record self.old { given = count_on self.old.given n }) }
        ensures err { OnErr result (self.new ≡ record self.old { faults = count_on self.old.faults 1 }) }
    {
        match self.inner.read(buf) {
            Ok(count) => {
                self.given = self.given.saturating_add(count as u64);
                Ok(count)
            }
            Err(_) => {
                self.faults = self.faults.saturating_add(1);
                Err(Failed)
            }
        }
    }
}

/// A writer of std as a sink. It counts each error of the writer, and each call in which it takes nothing of a piece
/// that isn't empty. It tells nothing of the bytes that it took, and takes no memory.
#[derive(Drop)]
pub struct StdSink<W> {
    inner: W,
    faults: u64,
}

impl<W> Model for StdSink<W> {
    ghost use Rattle.std.specs.Prelude.{ℕ};

    ghost Value = { ℕ };

    ghost view = { λ s. s.faults };
}

impl<W> StdSink<W> {
    /// Nothing failed.
    pub fn new(inner: W) -> StdSink<W>
        ensures { result ≡ 0 }
    {
        StdSink { inner, faults: 0 }
    }
}

impl<W: Write> Sink for StdSink<W> {
    ghost put = { λ _. None };

    ghost faults = { λ s. s };

    ghost takes_memory = { false };

    fn write(&mut self, piece: &[u8]) -> Result<usize, SinkStop>
        ensures fits { IfOk result (λ n. n ≤ length piece.now) }
        ensures takes_some { IfOk result (λ n. n ≡ 0 → piece.now ≡ []) }
        ensures never_falls { self.old ≤ self.new }
        ensures failed { result ≡ Err SinkStop.Failed → HasRisen self.old self.new }

        // Each stop is counted: an error of the writer, or that it took nothing.
        ensures ok { OnOk result (self.new ≡ self.old) }
        ensures err { OnErr result (self.new ≡ count_on self.old 1) }
        ensures failed_alone { IfErr result (λ stop. stop ≡ SinkStop.Failed) }
    {
        match self.inner.write(piece) {
            Ok(count) if count > 0 || piece.is_empty() => Ok(count),
            _ => {
                self.faults = self.faults.saturating_add(1);
                Err(SinkStop::Failed)
            }
        }
    }
}
