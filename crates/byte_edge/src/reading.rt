// Reading a source to its end.
ghost use Rattle.std.specs.Prelude.{◌≡◌, ◌≢◌, ◌<◌, ◌≤◌, ◌+◌, ◌⊎◌, length, vec_len, IfOk, OnOk, IfSome};
ghost use Rattle.std.specs.Io.KnownBytes.{IsAtEnd};
ghost use Rattle.byte_edge.specs.Count.{HasRisen, HasRisenPast};
ghost use Rattle.byte_edge.specs.Given.{Gives, GivesPast, GivesWithin};
ghost use Rattle.byte_edge.specs.declared.reading.ReadStop.TheVariants as stop;

use crate::{Failed, Source};
use std::alloc::{AllocError, Global};

/// Why a source wasn't read to its end.
#[derive(Clone, Copy, Debug, PartialEq, Eq)]
pub enum ReadStop {
    /// A read failed.
    Failed,
    /// The source gave more bytes than the limit.
    TooLong,
    /// There was no memory for the bytes.
    Memory,
}

impl From<Failed> for ReadStop {
    ghost from_gives = { λ _ e. e ≡ stop.Failed };

    fn from(_: Failed) -> Self {
        ReadStop::Failed
    }
}

impl From<AllocError> for ReadStop {
    ghost from_gives = { λ _ e. e ≡ stop.Memory };

    fn from(_: AllocError) -> Self {
        ReadStop::Memory
    }
}

/// All bytes of a source to its end, which are at most `limit`.
///
/// `Failed` comes only where a read failed, `TooLong` as soon as more than `limit` bytes were given before any
/// failure: the source has then given at most 4,096 bytes more than the limit. Whatever the answer, a source that
/// told what is still to come goes on telling it.
pub fn read_all<S: Source>(alloc: Global, source: &mut S, limit: usize) -> Result<Vec<u8>, ReadStop>
    // The answer is all that was still to come, and nothing is left.
    ensures gives { IfOk result (λ bytes. Gives (S.left source.old) (S.left source.new) (S.given source.old) (S.given source.new) bytes.items) }
    ensures all { IfOk result (λ bytes. IfSome (S.left source.old) (λ left. bytes.items ≡ left)) }
    ensures end { OnOk result (IsAtEnd (S.left source.new)) }
    ensures short { IfOk result (λ bytes. vec_len bytes ≤ limit) }

    // TooLong comes exactly where more than the limit was given. After every other answer at most the limit was given.
    ensures past { result ≡ Err ReadStop.TooLong → GivesPast limit (S.left source.old) (S.left source.new) (S.given source.old) (S.given source.new) }
    ensures within { result ≢ Err ReadStop.TooLong → GivesWithin limit (S.left source.old) (S.left source.new) (S.given source.old) (S.given source.new) }

    // After TooLong at most one buffer of 4,096 bytes more than the limit was given.
    ensures one_buffer { result ≡ Err ReadStop.TooLong → GivesWithin (limit + 4096) (S.left source.old) (S.left source.new) (S.given source.old) (S.given source.new) }

    // The same in what the source told, and in its count of bytes.
    ensures too_long { result ≡ Err ReadStop.TooLong → IfSome (S.left source.old) (λ left. limit < length left) }
    ensures long { IfSome (S.left source.old) (λ left. limit < length left → ¬ HasRisen (S.faults source.old) (S.faults source.new)
        → (result ≡ Err ReadStop.TooLong) ⊎ (result ≡ Err ReadStop.Memory)) }
    ensures counted_past { result ≡ Err ReadStop.TooLong → HasRisenPast limit (S.given source.old) (S.given source.new) }
    ensures counted_within { result ≢ Err ReadStop.TooLong → S.given source.new ≤ S.given source.old + limit }

    // Failed comes only where the faults rose in this call. Otherwise they stay.
    ensures failed { result ≡ Err ReadStop.Failed → HasRisen (S.faults source.old) (S.faults source.new) }
    ensures calm { result ≢ Err ReadStop.Failed → S.faults source.new ≡ S.faults source.old }
    ensures never_falls { S.faults source.old ≤ S.faults source.new }
{
    let mut bytes = Vec::new(alloc);
    let mut buf = [0u8; 4096];
    'turns: loop {
        let count = source.read(&mut buf)?;
        if count == 0 {
            return Ok(bytes);
        }
        if count > limit - bytes.len() {
            return Err(ReadStop::TooLong);
        }
        bytes.extend_from_slice(&buf[..count])?;
    }
}
