//! The pieces of a text between the places of a byte.
ghost use Rattle.std.specs.Prelude.{◌≡◌, ◌∷◌, [], ◌↔◌, ◌==◌, ◌≤◌, IsTrue, MatchOption, length};
ghost use Rattle.std.specs.List.{position_or_len};
ghost use Rattle.script_text.specs.Pieces.{pieces, pieces_of};

use std::marker::Model;

/// A cursor over the pieces that are still to come. Contracts see it as the list of them.
#[derive(Drop)]
pub struct Pieces<'a> {
    rest: Option<&'a [u8]>,
    by: u8,
}

impl<'a> Model for Pieces<'a> {
    ghost use Rattle.std.specs.Prelude.{List, ℕ};
    ghost use Rattle.script_text.specs.Pieces.{pieces_left};

    ghost Value = { List (List ℕ) };

    ghost view = { pieces_left };
}

/// The place of the first such byte, or the length where there is none.
fn first_place(bytes: &[u8], by: u8) -> usize
    ensures place { result ≡ position_or_len (λ b. b == by) bytes.now }
    ensures within { result ≤ length bytes.now }
{
    for (i, b) in bytes.iter().enumerate() {
        if *b == by {
            return i;
        }
    }
    bytes.len()
}

/// The first piece, and what stands behind it.
fn cut(bytes: &[u8], by: u8) -> (&[u8], Option<&[u8]>)
    ensures { pieces by bytes.now ≡ result.0.now ∷ pieces_of by result.1 }
{
    let at = first_place(bytes, by);
    if at == bytes.len() {
        return (bytes, None);
    }
    (&bytes[..at], Some(&bytes[at + 1..]))
}

impl<'a> Pieces<'a> {
    /// The pieces of the bytes.
    pub fn new(bytes: &'a [u8], by: u8) -> Pieces<'a>
        ensures { result ≡ pieces by bytes.now }
    {
        Pieces {
            rest: Some(bytes),
            by,
        }
    }

    /// Whether no piece is left.
    pub fn is_done(&self) -> bool
        ensures { IsTrue result ↔ (self.now ≡ []) }
    {
        self.rest.is_none()
    }

    /// Takes the first piece: None exactly where no piece is left.
    pub fn next(&mut self) -> Option<&'a [u8]>
        ensures { MatchOption result ((self.old ≡ []) × (self.new ≡ [])) (λ piece. self.old ≡ piece.now ∷ self.new) }
    {
        let (piece, rest) = cut(self.rest?, self.by);
        self.rest = rest;
        Some(piece)
    }
}
