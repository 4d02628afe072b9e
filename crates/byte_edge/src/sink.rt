// What bytes are written to.
ghost use Rattle.std.specs.Prelude.{◌≡◌, ◌≤◌, ℕ, Bool, List, [], Option, length, take, IfOk, OnOk, OnErr, IsTrue};
ghost use Rattle.std.specs.Io.KnownBytes.{append_known};
ghost use Rattle.byte_edge.specs.Count.{HasRisen};
ghost use Rattle.byte_edge.specs.declared.sink.SinkStop.TheVariants.{Memory};

use std::alloc::AllocError;

/// Why a sink took nothing more.
#[derive(Clone, Copy, Debug, PartialEq, Eq)]
pub enum SinkStop {
    /// The write failed. The sink has counted it.
    Failed,
    /// There was no memory for the bytes.
    Memory,
}

impl From<AllocError> for SinkStop {
    ghost from_gives = { λ _ stop. stop ≡ Memory };

    fn from(_: AllocError) -> Self {
        SinkStop::Memory
    }
}

/// A sink of bytes.
pub trait Sink {
    /// The bytes taken so far, where the sink tells them. One that tells them goes on telling them.
    ghost put: { Self → Option (List ℕ) };

    /// How often writing has failed. The count never falls, and stays at 2^64 - 1.
    ghost faults: { Self → ℕ };

    /// Whether it takes memory for the bytes, so that it may answer `Memory`.
    ghost takes_memory: { Bool };

    /// Takes bytes from the front of the piece, at least one of a piece that isn't empty, and answers how many.
    /// After a stop the sink has none of them.
    fn write(&mut self, piece: &[u8]) -> Result<usize, SinkStop>
        ensures fits { IfOk result (λ n. n ≤ length piece.now) }
        ensures takes_some { IfOk result (λ n. n ≡ 0 → piece.now ≡ []) }
        ensures grown { IfOk result (λ n. put self.new ≡ append_known (put self.old) (take n piece.now)) }
        ensures calm { OnOk result (faults self.new ≡ faults self.old) }

        // Failed comes only where the faults rose in this call, and Memory only where memory is taken.
        ensures failed { result ≡ Err SinkStop.Failed → HasRisen (faults self.old) (faults self.new) }
        ensures memory { result ≡ Err SinkStop.Memory → IsTrue takes_memory }
        ensures memory_calm { result ≡ Err SinkStop.Memory → faults self.new ≡ faults self.old }
        ensures never_falls { faults self.old ≤ faults self.new }
        ensures put_kept { OnErr result (put self.new ≡ put self.old) };
}
