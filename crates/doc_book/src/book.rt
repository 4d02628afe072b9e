//! The book: a document that keeps its history legal.
ghost use Rattle.std.specs.Prelude.{◌≡◌, ◌↔◌, ◌≤◌, ◌<◌, ◌^◌, IsTrue, length};
ghost use Rattle.units.specs.declared.geometry.Axis.TheVariants as axes;
ghost use Rattle.scene_model.specs.Variables.{variables};
ghost use Rattle.doc_book.specs.Document.{Document, opened};
ghost use Rattle.doc_book.specs.Hints.{hints_at};
ghost use Rattle.doc_book.specs.History.{scene_at, places_at, IsSettled};
ghost use Rattle.doc_book.specs.Layable.{IsLayable};
ghost use Rattle.doc_book.specs.Legal.{most_frames, IsLegal};

use crate::entries::Entry;
use crate::hints::Hints;
use frame_store::Places;
use scene_model::Scene;
use std::alloc::Global;
use std::marker::Model;
use undo_store::Stand;

/// The most frames that a budget allows before End.
pub const MOST_FRAMES: u32 = 512;

/// A document: the history of its entries, with the standing edits, their scene, the places that it leads to, and the
/// separations that push in its last frame. Its type keeps that the history is legal by its budget, and that all else is of
/// the history. Contracts see the history and the budget.
pub struct Book {
    pub(crate) history: Vec<Entry>,
    pub(crate) stand: Stand,
    pub(crate) places: Places,
    pub(crate) budget: u32,
    /// Whether the last entry is a frame that changed no place.
    pub(crate) settled: bool,
    /// The separations that push in the last frame.
    pub(crate) hints: Hints,
}

impl Model for Book {
    ghost use Rattle.doc_book.specs.Document.{Document};
    ghost use Rattle.doc_book.specs.Kept.{IsBook};

    ghost Value = { Document };

    ghost view = { λ a. record { history = a.history.items; budget = a.budget } };

    ghost invariant = { λ a. IsBook a.history.items a.budget a.stand a.places a.settled a.hints };
}

// Written out, so that each exit of a function that owns a book is one call.
impl Drop for Book {
    fn drop(self) {
        let Book {
            history,
            stand,
            places,
            budget: _,
            settled: _,
            hints,
        } = self;
        drop(history);
        drop(stand);
        drop(places);
        drop(hints);
    }
}

impl Book {
    /// The document without entries, with a budget of frames before End: at most 512 (`MOST_FRAMES`).
    pub fn new(alloc: Global, frames: u32) -> Book
        requires { frames ≤ most_frames }
        ensures { result ≡ opened frames }
    {
        Book {
            history: Vec::new(alloc),
            stand: Stand::new(alloc),
            places: Places::none(alloc),
            budget: frames,
            settled: false,
            hints: Hints::none(alloc),
        }
    }

    /// The entries, in order.
    pub fn history(&self) -> &[Entry]
        ensures value { result.now ≡ self.now.history }
        ensures legal { IsLegal self.now.history self.now.budget }
        ensures short { length self.now.history < 2 ^ 32 }
    {
        &self.history
    }

    /// How many entries the history has.
    pub fn front(&self) -> u32
        ensures value { result ≡ length self.now.history }
        ensures legal { IsLegal self.now.history self.now.budget }
        ensures short { length self.now.history < 2 ^ 32 }
    {
        self.history.len() as u32
    }

    /// The budget: how many frames may come before End.
    pub fn budget(&self) -> u32
        ensures { result ≡ self.now.budget }
    {
        self.budget
    }

    pub(crate) fn is_settled(&self) -> bool
        ensures { IsTrue result ↔ IsSettled self.now.history }
    {
        self.settled
    }

    /// The separations that push in the last frame, where the next layout starts.
    pub(crate) fn hints(&self) -> &Hints
        ensures { result.now ≡ hints_at self.now.history }
    {
        &self.hints
    }

    /// The scene of the history.
    pub fn scene(&self) -> &Scene
        ensures { result.now ≡ scene_at self.now.history }
    {
        self.stand.scene()
    }

    /// Where the variables stand after the history, in whole diagram units: a place for each. A frame can be made of the scene
    /// and these places.
    pub fn places(&self) -> &Places
        ensures value { result.now ≡ places_at self.now.history }
        ensures on_x { length result.now.x ≡ length (variables (scene_at self.now.history) axes.X) }
        ensures on_y { length result.now.y ≡ length (variables (scene_at self.now.history) axes.Y) }
        ensures layable { IsLayable (scene_at self.now.history) (places_at self.now.history) }
    {
        &self.places
    }
}
