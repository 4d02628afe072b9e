//! Writing a listing.
ghost use Rattle.std.specs.Prelude.{◌≡◌, ◌≤◌, OnOk, OnErr, Err};
ghost use Rattle.std.specs.Io.KnownBytes.{append_known};
ghost use Rattle.byte_edge.specs.Count.{HasRisen};
ghost use Rattle.byte_edge.specs.Taken.{TakesPart};
ghost use Rattle.byte_edge.specs.declared.sink.SinkStop.TheVariants as stop;
ghost use Rattle.doc_book.specs.Listing.{listing_text};
ghost use Rattle.listing_text.specs.Putting.{Puts};
ghost use Rattle.listing_text.specs.Replies.{ScriptHasReplies};

use crate::entries::put_entries;
use crate::putting::put;
use crate::replies::put_replies;
use byte_edge::{Sink, SinkStop};
use doc_book::{Book, Reply};
use script_text::Script;
use std::alloc::Global;
use units::Sequence;

/// Puts the listing.
fn put_listing<K: Sink>(
    alloc: Global,
    book: &Book,
    script: &Script,
    replies: &[Sequence<Reply>],
    sink: &mut K,
) -> Result<(), SinkStop>
    requires { ScriptHasReplies script.now replies.now }
    ensures { Puts (K.put sink.old) (K.put sink.new) (K.faults sink.old) (K.faults sink.new) (listing_text script.now book.now.history replies.now) result }
{
    put(sink, b"listing 1\n")?;
    put_entries(alloc, book.history(), sink)?;
    put(sink, b"replies\n")?;
    put_replies(alloc, script.lines(), replies, sink)?;
    put(sink, b"done\n")
}

/// Writes the listing of a book, a script and the replies to its lines: a list for each of the eight sessions, session 1
/// first, with a reply for each line of the session, of which none is a refusal for want of memory. It names the
/// variables of a frame by the scene of the history before it.
///
/// After a stop the sink has a part of the listing, from the front. `Failed` comes only where a write failed, and
/// the sink has counted it; `Memory` where memory ran out.
pub fn write_listing<K: Sink>(
    alloc: Global,
    book: &Book,
    script: &Script,
    replies: &[Sequence<Reply>],
    sink: &mut K,
) -> Result<(), SinkStop>
    requires { ScriptHasReplies script.now replies.now }
    ensures whole { OnOk result (K.put sink.new ≡ append_known (K.put sink.old) (listing_text script.now book.now.history replies.now)) }
    ensures part { OnErr result (TakesPart (K.put sink.old) (K.put sink.new) (listing_text script.now book.now.history replies.now)) }
    ensures calm { OnOk result (K.faults sink.new ≡ K.faults sink.old) }

    // Failed comes only where the faults rose in this call.
    ensures failed { result ≡ Err stop.Failed → HasRisen (K.faults sink.old) (K.faults sink.new) }
    ensures memory_calm { result ≡ Err stop.Memory → K.faults sink.new ≡ K.faults sink.old }
    ensures never_falls { K.faults sink.old ≤ K.faults sink.new }
{
    put_listing(alloc, book, script, replies, sink)
}
