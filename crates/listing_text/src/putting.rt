//! Putting a text into a sink.
ghost use Rattle.std.specs.Prelude.{◌≡◌};
ghost use Rattle.listing_text.specs.Putting.{Puts};

use byte_edge::{Sink, SinkStop, put_all};

/// Puts the text.
pub fn put<K: Sink>(sink: &mut K, text: &[u8]) -> Result<(), SinkStop>
    ensures { Puts (K.put sink.old) (K.put sink.new) (K.faults sink.old) (K.faults sink.new) text.now result }
{
    put_all(sink, text)
}
