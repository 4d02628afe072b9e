// Writing bytes to a sink.
ghost use Rattle.std.specs.Prelude.{◌≡◌, ◌≤◌, OnOk, OnErr, IsTrue};
ghost use Rattle.std.specs.Io.KnownBytes.{append_known};
ghost use Rattle.byte_edge.specs.Count.{HasRisen};
ghost use Rattle.byte_edge.specs.Taken.{TakesPart};

use crate::{Sink, SinkStop};

/// Puts all the bytes into a sink. After a stop the sink has a part of them, from the front.
///
/// `Failed` comes only where a write failed, and `Memory` only where the sink takes memory: the call itself takes none.
/// Whatever the answer, a sink that told what it has goes on telling it.
pub fn put_all<K: Sink>(sink: &mut K, bytes: &[u8]) -> Result<(), SinkStop>
    ensures whole { OnOk result (K.put sink.new ≡ append_known (K.put sink.old) bytes.now) }
    ensures part { OnErr result (TakesPart (K.put sink.old) (K.put sink.new) bytes.now) }
    ensures calm { OnOk result (K.faults sink.new ≡ K.faults sink.old) }

    // Failed comes only where the faults rose in this call, and Memory only where the sink takes memory.
    ensures failed { result ≡ Err SinkStop.Failed → HasRisen (K.faults sink.old) (K.faults sink.new) }
    ensures memory { result ≡ Err SinkStop.Memory → IsTrue K.takes_memory }
    ensures memory_calm { result ≡ Err SinkStop.Memory → K.faults sink.new ≡ K.faults sink.old }
    ensures never_falls { K.faults sink.old ≤ K.faults sink.new }
{
    let mut at = 0;
    while at < bytes.len() {
        let count = sink.write(&bytes[at..])?;
        at += count;
    }
    Ok(())
}
