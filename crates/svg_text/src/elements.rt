//! The elements of the picture.
ghost use Rattle.std.specs.Prelude.{◌≡◌, ◌-ℤ◌};
ghost use Rattle.svg_text.specs.Picture.{diamond_text, ellipse_text, head_text, label_text, length_of, line_text, rect_text};
ghost use Rattle.svg_text.specs.Points.{IsVeryWide};
ghost use Rattle.svg_text.specs.Putting.{Puts};

use crate::pieces::Piece::{Number, Text};
use crate::pieces::put_pieces;
use crate::spans::Span;
use byte_edge::{Sink, SinkStop};
use units::Pt;

/// How long a span is.
fn length_of(span: Span) -> i64
    requires { IsVeryWide span }
    ensures { result ≡ length_of span }
{
    span.high - span.low
}

/// Puts the first line: the parts of the axes that the picture shows.
pub fn put_head<K: Sink>(sink: &mut K, x: Span, y: Span) -> Result<(), SinkStop>
    requires x { IsVeryWide x }
    requires y { IsVeryWide y }
    ensures { Puts K.takes_memory (K.put sink.old) (K.put sink.new) (K.faults sink.old) (K.faults sink.new) (head_text x y) result }
{
    let width = length_of(x);
    let height = length_of(y);
    let pieces = [
        Text(b"<svg xmlns=\"http://www.w3.org/2000/svg\" viewBox=\""),
        Number(x.low),
        Text(b" "),
        Number(y.low),
        Text(b" "),
        Number(width),
        Text(b" "),
        Number(height),
        Text(b"\">\n"),
    ];
    put_pieces(sink, &pieces)
}

/// Puts a rectangle.
pub fn put_rect<'a, K: Sink>(
    sink: &mut K,
    class: &'a [u8],
    x: Span,
    y: Span,
    fill: &'a [u8],
    stroke: &'a [u8],
) -> Result<(), SinkStop>
    requires x { IsVeryWide x }
    requires y { IsVeryWide y }
    ensures { Puts K.takes_memory (K.put sink.old) (K.put sink.new) (K.faults sink.old) (K.faults sink.new) (rect_text class.now x y fill.now stroke.now) result }
{
    let pieces = [
        Text(b"<rect class=\""),
        Text(class),
        Text(b"\" x=\""),
        Number(x.low),
        Text(b"\" y=\""),
        Number(y.low),
        Text(b"\" width=\""),
        Number(length_of(x)),
        Text(b"\" height=\""),
        Number(length_of(y)),
        Text(b"\" fill=\""),
        Text(fill),
        Text(b"\" stroke=\""),
        Text(stroke),
        Text(b"\"/>\n"),
    ];
    put_pieces(sink, &pieces)
}

/// Puts a line.
pub fn put_line<'a, K: Sink>(
    sink: &mut K,
    class: &'a [u8],
    from: Pt,
    to: Pt,
    stroke: &'a [u8],
) -> Result<(), SinkStop>
    ensures { Puts K.takes_memory (K.put sink.old) (K.put sink.new) (K.faults sink.old) (K.faults sink.new) (line_text class.now from to stroke.now) result }
{
    let pieces = [
        Text(b"<line class=\""),
        Text(class),
        Text(b"\" x1=\""),
        Number(from.x),
        Text(b"\" y1=\""),
        Number(from.y),
        Text(b"\" x2=\""),
        Number(to.x),
        Text(b"\" y2=\""),
        Number(to.y),
        Text(b"\" stroke=\""),
        Text(stroke),
        Text(b"\"/>\n"),
    ];
    put_pieces(sink, &pieces)
}

/// Puts the ellipse of an oval, with half its width and half its height.
pub fn put_ellipse<K: Sink>(sink: &mut K, middle: Pt, rx: i64, ry: i64) -> Result<(), SinkStop>
    ensures { Puts K.takes_memory (K.put sink.old) (K.put sink.new) (K.faults sink.old) (K.faults sink.new) (ellipse_text middle rx ry) result }
{
    let pieces = [
        Text(b"<ellipse class=\"shape\" cx=\""),
        Number(middle.x),
        Text(b"\" cy=\""),
        Number(middle.y),
        Text(b"\" rx=\""),
        Number(rx),
        Text(b"\" ry=\""),
        Number(ry),
        Text(b"\" fill=\"white\" stroke=\"black\"/>\n"),
    ];
    put_pieces(sink, &pieces)
}

/// Puts the polygon of a diamond: its upper, right, lower and left corner.
pub fn put_diamond<K: Sink>(sink: &mut K, middle: Pt, x: Span, y: Span) -> Result<(), SinkStop>
    ensures { Puts K.takes_memory (K.put sink.old) (K.put sink.new) (K.faults sink.old) (K.faults sink.new) (diamond_text middle x y) result }
{
    let pieces = [
        Text(b"<polygon class=\"shape\" points=\""),
        Number(middle.x),
        Text(b","),
        Number(y.low),
        Text(b" "),
        Number(x.high),
        Text(b","),
        Number(middle.y),
        Text(b" "),
        Number(middle.x),
        Text(b","),
        Number(y.high),
        Text(b" "),
        Number(x.low),
        Text(b","),
        Number(middle.y),
        Text(b"\" fill=\"white\" stroke=\"black\"/>\n"),
    ];
    put_pieces(sink, &pieces)
}

/// Puts the name of a shape.
pub fn put_label<K: Sink>(sink: &mut K, middle: Pt, name: &[u8]) -> Result<(), SinkStop>
    ensures { Puts K.takes_memory (K.put sink.old) (K.put sink.new) (K.faults sink.old) (K.faults sink.new) (label_text middle name.now) result }
{
    let pieces = [
        Text(b"<text x=\""),
        Number(middle.x),
        Text(b"\" y=\""),
        Number(middle.y),
        Text(b"\" text-anchor=\"middle\">"),
        Text(name),
        Text(b"</text>\n"),
    ];
    put_pieces(sink, &pieces)
}
