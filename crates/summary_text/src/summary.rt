//! Writing the summary.
ghost use Rattle.std.specs.Prelude.{◌≡◌, ◌≤◌, Err, IfSome, IsTrue, OnErr, OnOk, pos};
ghost use Rattle.std.specs.Io.KnownBytes.{append_known};
ghost use Rattle.std.specs.Option.{option_map_or};
ghost use Rattle.byte_edge.specs.Count.{HasRisen};
ghost use Rattle.byte_edge.specs.Taken.{TakesPart};
ghost use Rattle.byte_edge.specs.declared.sink.SinkStop.TheVariants as stop;
ghost use Rattle.doc_book.specs.History.{places_at, scene_at};
ghost use Rattle.svg_text.specs.Picture.{length_of};
ghost use Rattle.svg_text.specs.Points.{IsWide};
ghost use Rattle.svg_text.specs.Putting.{Puts};
ghost use Rattle.summary_text.specs.Counts.{AreFew};
ghost use Rattle.summary_text.specs.LastFrame.{EndsInFrame};
ghost use Rattle.summary_text.specs.Summary.{shapes_length, six_lines, summary_text};

use crate::counting::{Verdict, count_of, frame_count};
use byte_edge::{Sink, SinkStop};
use doc_book::{Book, Reply};
use svg_text::Piece::{Number, Text};
use svg_text::{Span, put_pieces, shapes_span};
use units::{Axis, Sequence};

/// The numbers of a summary.
#[derive(Drop)]
struct Numbers {
    /// The number of the made script.
    number: u32,
    accepted: u32,
    refused: u32,
    frames: u32,
    /// How far the shapes reach on X, in whole diagram units, and on Y.
    width: i64,
    height: i64,
}

/// Puts the six lines.
fn put_lines<K: Sink>(numbers: &Numbers, sink: &mut K) -> Result<(), SinkStop>
    ensures { Puts K.takes_memory (K.put sink.old) (K.put sink.new) (K.faults sink.old) (K.faults sink.new)
        (six_lines numbers.now.number numbers.now.accepted numbers.now.refused numbers.now.frames numbers.now.width numbers.now.height) result }
{
    let number = i64::from(numbers.number);
    let accepted = i64::from(numbers.accepted);
    let refused = i64::from(numbers.refused);
    let frames = i64::from(numbers.frames);
    let width = numbers.width;
    let height = numbers.height;
    let pieces = [
        Text(b"made "),
        Number(number),
        Text(b"\nlines 344\naccepted "),
        Number(accepted),
        Text(b"\nrefused "),
        Number(refused),
        Text(b"\nframes "),
        Number(frames),
        Text(b"\nspan "),
        Number(width),
        Text(b" "),
        Number(height),
        Text(b"\n"),
    ];
    put_pieces(sink, &pieces)
}

/// How long the span is; 0 where there is none.
fn length_of(span: Option<Span>) -> i64
    requires { IfSome span IsWide }
    ensures { result ≡ option_map_or length_of span (pos 0) }
{
    match span {
        Some(span) => span.high - span.low,
        None => 0,
    }
}

/// How far the shapes reach on an axis where the last frame drew them.
fn shapes_length(book: &Book, axis: Axis) -> i64
    requires { EndsInFrame book.now.history }
    ensures { result ≡ shapes_length (scene_at book.now.history) axis (places_at book.now.history) }
{
    // Asked for what its type keeps, which the proof needs.
    let _legal = book.history();
    length_of(shapes_span(book.scene(), axis, book.places()))
}

fn put_summary<K: Sink>(
    number: u32,
    book: &Book,
    replies: &[Sequence<Reply>],
    sink: &mut K,
) -> Result<(), SinkStop>
    requires framed { EndsInFrame book.now.history }
    requires few { AreFew replies.now }
    ensures { Puts K.takes_memory (K.put sink.old) (K.put sink.new) (K.faults sink.old) (K.faults sink.new)
        (summary_text number book.now.history replies.now) result }
{
    let accepted = count_of(Verdict::Accepted, replies);
    let refused = count_of(Verdict::Refused, replies);
    let frames = frame_count(book.history()) as u32;
    let width = shapes_length(book, Axis::X);
    let height = shapes_length(book, Axis::Y);
    let numbers = Numbers {
        number,
        accepted,
        refused,
        frames,
        width,
        height,
    };
    put_lines(&numbers, sink)
}

/// Writes the summary of the run on the made script of this number, from a document whose last entry is a frame and the
/// replies by session: at most eight lists of at most 2,000. It takes no memory of its own.
///
/// After a stop the sink has a part of the summary, from the front. `Failed` comes only where a write failed, and the
/// sink has counted it; `Memory` only where the sink takes memory.
pub fn write_summary<K: Sink>(
    number: u32,
    book: &Book,
    replies: &[Sequence<Reply>],
    sink: &mut K,
) -> Result<(), SinkStop>
    requires framed { EndsInFrame book.now.history }
    requires few { AreFew replies.now }
    ensures whole { OnOk result (K.put sink.new ≡ append_known (K.put sink.old) (summary_text number book.now.history replies.now)) }
    ensures part { OnErr result (TakesPart (K.put sink.old) (K.put sink.new) (summary_text number book.now.history replies.now)) }
    ensures calm { OnOk result (K.faults sink.new ≡ K.faults sink.old) }

    // Failed comes only where the faults rose in this call, and Memory only where the sink takes memory.
    ensures failed { result ≡ Err stop.Failed → HasRisen (K.faults sink.old) (K.faults sink.new) }
    ensures memory { result ≡ Err stop.Memory → IsTrue K.takes_memory }
    ensures memory_calm { result ≡ Err stop.Memory → K.faults sink.new ≡ K.faults sink.old }
    ensures never_falls { K.faults sink.old ≤ K.faults sink.new }
{
    put_summary(number, book, replies, sink)
}
