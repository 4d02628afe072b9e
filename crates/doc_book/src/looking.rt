//! Looks: whether there is a frame to make.
ghost use Rattle.std.specs.Prelude.{◌≡◌, ◌<◌, ◌^◌, IfOk, length};
ghost use Rattle.doc_book.specs.Calls.{IsLooked, IsPresent};
ghost use Rattle.doc_book.specs.Legal.{IsLegal};

use crate::book::Book;
use crate::hints::Hints;
use crate::scanning::{end_place, frame_count};
use frame_store::Places;
use scene_model::Scene;
use std::alloc::Global;
use std::marker::Model;
use units::Memory;

/// A frame to make: the scene and places of a document, the front at which they were taken, and the separations that push in
/// the last frame before, with which the layout starts. Its type keeps that a frame can be made: there is a place for each
/// variable, and the separations of the scene are few enough, and feasible.
pub struct Job {
    pub(crate) front: u32,
    pub(crate) scene: Scene,
    pub(crate) places: Places,
    pub(crate) hints: Hints,
}

impl Model for Job {
    ghost use Rattle.doc_book.specs.Jobs.{JobOf, IsJob};

    ghost Value = { JobOf };

    ghost view = { λ a. record { front = a.front; scene = a.scene; places = a.places; hints = a.hints } };

    ghost invariant = { λ a. IsJob (record { front = a.front; scene = a.scene; places = a.places; hints = a.hints }) };
}

// Written out, so that each exit of a function that owns a job is one call.
impl Drop for Job {
    fn drop(self) {
        let Job {
            front: _,
            scene,
            places,
            hints,
        } = self;
        drop(scene);
        drop(places);
        drop(hints);
    }
}

impl Job {
    /// How many entries the history had.
    pub fn front(&self) -> u32
        ensures { result ≡ self.now.front }
    {
        self.front
    }
}

/// What a look answers.
#[derive(Drop)]
pub enum Look {
    /// There is a frame to make, of this scene and these places.
    Job(Job),
    /// The last entry is a frame that changed no place.
    Idle { front: u32 },
    /// The budget, so many frames, is used up.
    Spent { frames: u32, front: u32 },
    /// The document was ended, by the entry at this place.
    Ending { place: u32, front: u32 },
    /// Want of memory.
    Memory,
}

impl Book {
    /// Looks whether there is a frame to make. In this order: Ending exactly after End; Spent exactly where the budget of
    /// frames stands; Idle exactly where the last entry is a frame that changed no place; else a job of the present front with
    /// the document's scene and places, and the separations that push in its last frame, or Memory.
    pub fn look(&self, alloc: Global) -> Look
        ensures answer { IsLooked self.now result }
        ensures legal { IsLegal self.now.history self.now.budget }
        ensures short { length self.now.history < 2 ^ 32 }
    {
        let front = self.front();
        if let Some(place) = end_place(self.history()) {
            return Look::Ending { place, front };
        }
        if frame_count(self.history()) >= self.budget() as usize {
            return Look::Spent {
                frames: self.budget(),
                front,
            };
        }
        if self.is_settled() {
            return Look::Idle { front };
        }
        match self.job(alloc) {
            Ok(job) => Look::Job(job),
            Err(_) => Look::Memory,
        }
    }

    /// The job of the present front.
    pub(crate) fn job(&self, alloc: Global) -> Result<Job, Memory>
        ensures { IfOk result (λ job. IsPresent self.now job) }
    {
        let scene = self.scene().copy(alloc)?;
        let places = self.places().copy(alloc)?;
        let hints = self.hints().copy(alloc)?;
        Ok(Job {
            front: self.front(),
            scene,
            places,
            hints,
        })
    }
}
