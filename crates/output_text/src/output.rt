//! Writing the output of a run.
ghost use Rattle.std.specs.Prelude.{if◌then◌else◌, ◌≡◌, ◌≤◌, Err, OnErr, OnOk};
ghost use Rattle.std.specs.Io.KnownBytes.{append_known};
ghost use Rattle.byte_edge.specs.Count.{HasRisen};
ghost use Rattle.byte_edge.specs.Taken.{TakesPart};
ghost use Rattle.byte_edge.specs.declared.sink.SinkStop.TheVariants as stop;
ghost use Rattle.doc_book.specs.Finished.{IsFinished};
ghost use Rattle.doc_book.specs.Listing.{listing_text};
ghost use Rattle.listing_text.specs.Putting.{Puts};
ghost use Rattle.listing_text.specs.Replies.{ScriptHasReplies};
ghost use Rattle.summary_text.specs.Summary.{summary_text};
ghost use Rattle.output_text.specs.Output.{output_text, picture_text};

use byte_edge::{Sink, SinkStop};
use command_line::Plan;
use doc_book::{Book, Reply};
use listing_text::write_listing;
use script_text::Script;
use std::alloc::Global;
use summary_text::write_summary;
use svg_text::write_svg;
use units::Sequence;

/// Puts the picture of the last frame.
fn put_picture<K: Sink>(book: &Book, sink: &mut K) -> Result<(), SinkStop>
    requires { IsFinished book.now.history }
    ensures { Puts (K.put sink.old) (K.put sink.new) (K.faults sink.old) (K.faults sink.new) (picture_text book.now.history) result }
{
    // Asked for what its type keeps, which the proof needs.
    let _legal = book.history();
    let scene = book.scene();
    let places = book.places();
    write_svg(scene, places, sink)
}

/// Puts the summary of the run on the made script of this number.
fn put_summary<K: Sink>(
    number: u32,
    book: &Book,
    script: &Script,
    replies: &[Sequence<Reply>],
    sink: &mut K,
) -> Result<(), SinkStop>
    requires finished { IsFinished book.now.history }
    requires replies { ScriptHasReplies script.now replies.now }
    ensures { Puts (K.put sink.old) (K.put sink.new) (K.faults sink.old) (K.faults sink.new) (summary_text number book.now.history replies.now) result }
{
    // Asked for what its type keeps, which the proof needs.
    let _few = script.lines();
    write_summary(number, book, replies, sink)
}

/// Puts the listing.
fn put_listing<K: Sink>(
    alloc: Global,
    book: &Book,
    script: &Script,
    replies: &[Sequence<Reply>],
    sink: &mut K,
) -> Result<(), SinkStop>
    requires { ScriptHasReplies script.now replies.now }
    ensures { Puts (K.put sink.old) (K.put sink.new) (K.faults sink.old) (K.faults sink.new) (listing_text script.now book.now.history replies.now) result }
{
    write_listing(alloc, book, script, replies, sink)
}

/// Puts the output of a run on a script that was read.
fn put_read<K: Sink>(
    alloc: Global,
    svg: bool,
    book: &Book,
    script: &Script,
    replies: &[Sequence<Reply>],
    sink: &mut K,
) -> Result<(), SinkStop>
    requires finished { IsFinished book.now.history }
    requires replies { ScriptHasReplies script.now replies.now }
    ensures { Puts (K.put sink.old) (K.put sink.new) (K.faults sink.old) (K.faults sink.new)
        (if svg then picture_text book.now.history else listing_text script.now book.now.history replies.now) result }
{
    if svg {
        put_picture(book, sink)
    } else {
        put_listing(alloc, book, script, replies, sink)
    }
}

/// Puts the output.
fn put_output<K: Sink>(
    alloc: Global,
    plan: Plan,
    book: &Book,
    script: &Script,
    replies: &[Sequence<Reply>],
    sink: &mut K,
) -> Result<(), SinkStop>
    requires finished { IsFinished book.now.history }
    requires replies { ScriptHasReplies script.now replies.now }
    ensures { Puts (K.put sink.old) (K.put sink.new) (K.faults sink.old) (K.faults sink.new)
        (output_text plan script.now book.now.history replies.now) result }
{
    match plan.made {
        Some(number) => put_summary(number, book, script, replies, sink),
        None => put_read(alloc, plan.svg, book, script, replies, sink),
    }
}

/// Writes the output that a plan asks for, of a finished document, a script and the replies to its lines: a list for each
/// of the eight sessions, session 1 first, with a reply for each line of the session, of which none is a refusal for want
/// of memory. With a made script it is the summary, else with `svg` the picture of the last frame, else the listing.
///
/// After a stop the sink has a part of the output, from the front. `Failed` comes only where a write failed, and
/// the sink has counted it; `Memory` where memory ran out.
pub fn write_output<K: Sink>(
    alloc: Global,
    plan: Plan,
    book: &Book,
    script: &Script,
    replies: &[Sequence<Reply>],
    sink: &mut K,
) -> Result<(), SinkStop>
    requires finished { IsFinished book.now.history }
    requires replies { ScriptHasReplies script.now replies.now }
    ensures whole { OnOk result (K.put sink.new ≡ append_known (K.put sink.old) (output_text plan script.now book.now.history replies.now)) }
    ensures part { OnErr result (TakesPart (K.put sink.old) (K.put sink.new) (output_text plan script.now book.now.history replies.now)) }
    ensures calm { OnOk result (K.faults sink.new ≡ K.faults sink.old) }

    // Failed comes only where the faults rose in this call.
    ensures failed { result ≡ Err stop.Failed → HasRisen (K.faults sink.old) (K.faults sink.new) }
    ensures memory_calm { result ≡ Err stop.Memory → K.faults sink.new ≡ K.faults sink.old }
    ensures never_falls { K.faults sink.old ≤ K.faults sink.new }
{
    put_output(alloc, plan, book, script, replies, sink)
}
