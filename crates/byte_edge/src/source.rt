// What bytes are read from.
ghost use Rattle.std.specs.Prelude.{◌≡◌, ◌<◌, ◌≤◌, ℕ, List, Option, length, take, IfOk, OnOk, OnErr};
ghost use Rattle.std.specs.Io.KnownBytes.{IsAtEnd};
ghost use Rattle.byte_edge.specs.Count.{HasRisen};
ghost use Rattle.byte_edge.specs.Given.{Gives};

/// A read failed. The source has counted it.
#[derive(Clone, Copy, Debug, PartialEq, Eq)]
pub struct Failed;

/// A source of bytes.
pub trait Source {
    /// The bytes still to come, where the source tells them. One that tells them goes on telling them.
    ghost left: { Self → Option (List ℕ) };

    /// How many bytes it has given. The count stays at 2^64 - 1.
    ghost given: { Self → ℕ };

    /// How often reading has failed. The count never falls, and stays at 2^64 - 1.
    ghost faults: { Self → ℕ };

    /// Moves the next bytes to the front of the buffer, at most as many as it has room for, and answers how many.
    /// For a buffer that isn't empty 0 means the end. After `Failed` the same bytes are still to come.
    fn read(&mut self, buf: &mut [u8]) -> Result<usize, Failed>
        ensures fits { IfOk result (λ n. n ≤ length buf.new) }
        ensures moved { IfOk result (λ n. Gives (left self.old) (left self.new) (given self.old) (given self.new) (take n buf.new)) }
        ensures end { IfOk result (λ n. n ≡ 0 → 0 < length buf.new → IsAtEnd (left self.old)) }
        ensures calm { OnOk result (faults self.new ≡ faults self.old) }

        // Failed comes only where the faults rose in this call.
        ensures failed { OnErr result (HasRisen (faults self.old) (faults self.new)) }
        ensures never_falls { faults self.old ≤ faults self.new }
        ensures left_kept { OnErr result (left self.new ≡ left self.old) }
        ensures given_kept { OnErr result (given self.new ≡ given self.old) };
}
