//! The picture of a scene: an SVG text. Texts that are put in pieces, and the span of the shapes, serve other texts too.
#![tactic(auto)]

mod bounds;
mod elements;
mod items;
mod laws;
mod picture;
mod pieces;
mod points;
mod spans;

pub use bounds::shapes_span;
pub use laws::bounds_law;
pub use picture::write_svg;
pub use pieces::{Piece, put_pieces};
pub use spans::Span;
