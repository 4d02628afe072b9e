//! Frames of the document, and its finishing.
ghost use Rattle.std.specs.Prelude.{◌≡◌, ◌<◌, ◌^◌, length, [], ◌∷◌, ◌++◌, IsSome, IfOk, IfErr, OnOk, OnErr};
ghost use Rattle.doc_book.specs.declared.entries.Act.TheVariants as act;
ghost use Rattle.doc_book.specs.Frames.{IsFrameOf};
ghost use Rattle.doc_book.specs.Growing.{entry_of};
ghost use Rattle.doc_book.specs.Hints.{hints_of};
ghost use Rattle.doc_book.specs.History.{end_place, scene_at, places_at};
ghost use Rattle.doc_book.specs.Calls.{IsPublished, IsFinishing};
ghost use Rattle.doc_book.specs.Jobs.{IsJobOf, IsSolved};
ghost use Rattle.doc_book.specs.Legal.{HasRoom, IsLegal};
ghost use Rattle.doc_book.specs.Turns.{is_published};

use crate::book::Book;
use crate::editing::add;
use crate::entries::{Act, Entry};
use crate::framing::frame_of;
use crate::hints::Hints;
use crate::looking::Job;
use crate::scanning::finishing_count;
use frame_store::{Frame, drawn, settled};
use std::alloc::Global;
use std::marker::Model;
use std::thread::Threads;
use units::Memory;

/// The most frames after End.
pub const MOST_FINISHING: usize = 64;

/// A job with the frame that was made of it. Its type keeps that the frame is legal for the scene and places of the job.
pub struct Solved {
    job: Job,
    frame: Frame,
}

impl Model for Solved {
    ghost use Rattle.doc_book.specs.Jobs.{SolvedOf, IsSolved};

    ghost Value = { SolvedOf };

    ghost view = { λ a. record { job = a.job; frame = a.frame } };

    ghost invariant = { λ a. IsSolved (record { job = a.job; frame = a.frame }) };
}

// Written out, so that each exit of a function that owns a solved job is one call.
impl Drop for Solved {
    fn drop(self) {
        let Solved { job, frame } = self;
        drop(job);
        drop(frame);
    }
}

impl Solved {
    /// Makes the frame of a job, the parts of both axes beside each other where threads can be had. It is lent no document. Answers `Memory` for want of memory alone, and then the job is dropped.
    pub fn of<R: Threads + Sync>(rt: &R, alloc: Global, job: Job) -> Result<Solved, Memory>
        ensures { IfOk result (λ solved. solved.job ≡ job) }
    {
        let frame = frame_of(rt, alloc, &job.scene, &job.places, &job.hints)?;
        Ok(Solved { job, frame })
    }

    /// How many entries the history had as the job was given.
    pub fn front(&self) -> u32
        ensures { result ≡ self.now.job.front }
    {
        self.job.front()
    }

    /// The frame alone.
    fn into_frame(self) -> Frame
        ensures { result ≡ self.frame }
    {
        let Solved { job, frame } = self;
        drop(job);
        frame
    }

    /// The frame.
    pub fn frame(&self) -> &Frame
        ensures value { result.now ≡ self.now.frame }
        ensures legal { IsSolved self.now }
    {
        &self.frame
    }
}

/// The answer to a publication.
#[derive(Drop)]
pub enum Publish {
    /// The frame was entered, and stands at this place of the history.
    Published { place: u32 },
    /// The history went on since the job was given, to this front.
    Stale { front: u32, back: Solved },
    /// Want of memory.
    Memory { back: Solved },
}

impl Publish {
    /// Whether the frame was entered.
    pub fn is_published(&self) -> bool
        ensures { result ≡ is_published self.now }
    {
        match self {
            Publish::Published { .. } => true,
            Publish::Stale { .. } => false,
            Publish::Memory { .. } => false,
        }
    }
}

/// The answer to a step of finishing. Each place is that of the last entry as the call ends.
#[derive(Clone, Copy, Debug, PartialEq, Eq)]
pub enum Finish {
    /// A frame was entered.
    Published { place: u32 },
    /// The last entry is a frame that changed no place.
    Settled { place: u32 },
    /// 64 frames stand after End.
    Full { place: u32 },
    /// Want of memory.
    Memory,
}

impl Book {
    /// Publishes a frame by caller `who` for line `line`. Its job was given by a look of this history. Stale exactly where the
    /// history went on since, with its front, and it takes no memory; else the frame is entered, or Memory. The frame that
    /// isn't entered is handed back.
    pub fn publish(&mut self, alloc: Global, who: u8, line: u32, solved: Solved) -> Publish
        requires { IsJobOf self.old.history self.old.budget solved.job.front solved.job.scene solved.job.places }
        ensures answer { IsPublished self.old self.new who line solved result }
        ensures legal_before { IsLegal self.old.history self.old.budget }
        ensures legal { IsLegal self.new.history self.new.budget }
        ensures short { length self.new.history < 2 ^ 32 }
    {
        // Asked for, before and behind, what its type keeps, which the proof needs.
        let _before = self.front();
        let answer = self.published(alloc, who, line, solved);
        let _behind = self.front();
        answer
    }

    fn published(&mut self, alloc: Global, who: u8, line: u32, solved: Solved) -> Publish
        requires { IsJobOf self.old.history self.old.budget solved.job.front solved.job.scene solved.job.places }
        ensures { IsPublished self.old self.new who line solved result }
    {
        let front = self.front();
        if solved.front() < front {
            return Publish::Stale {
                front,
                back: solved,
            };
        }
        // Asked for what its type keeps, which the proof needs.
        let _legal = solved.frame();
        match self.enter_frame(alloc, who, line, solved) {
            Ok(()) => return Publish::Published { place: front },
            Err(back) => return Publish::Memory { back },
        }
    }

    /// One step of finishing the document, which was ended: Settled exactly where the last entry is a frame that changed no
    /// place; Full exactly where not so and 64 frames stand after End; else a frame by caller 0 with line 0 is entered, or Memory.
    pub fn finish<R: Threads + Sync>(&mut self, rt: &R, alloc: Global) -> Finish
        requires { IsSome (end_place self.old.history) }
        ensures answer { IsFinishing self.old self.new result }
        ensures legal_before { IsLegal self.old.history self.old.budget }
        ensures legal { IsLegal self.new.history self.new.budget }
        ensures short { length self.new.history < 2 ^ 32 }
    {
        // Asked for, before and behind, what its type keeps, which the proof needs.
        let _before = self.front();
        let answer = self.finished(rt, alloc);
        let _behind = self.front();
        answer
    }

    fn finished<R: Threads + Sync>(&mut self, rt: &R, alloc: Global) -> Finish
        requires { IsSome (end_place self.old.history) }
        ensures { IsFinishing self.old self.new result }
    {
        let front = self.front();
        if self.is_settled() {
            return Finish::Settled { place: front - 1 };
        }
        if finishing_count(self.history()) >= MOST_FINISHING {
            return Finish::Full { place: front - 1 };
        }
        let Ok(solved) = self.solved(rt, alloc) else {
            return Finish::Memory;
        };
        match self.enter_frame(alloc, 0, 0, solved) {
            Ok(()) => return Finish::Published { place: front },
            Err(_back) => return Finish::Memory,
        }
    }

    /// The frame of the present scene and places.
    fn solved<R: Threads + Sync>(&self, rt: &R, alloc: Global) -> Result<Solved, Memory>
        ensures { IfOk result (λ solved. IsFrameOf (scene_at self.now.history) (places_at self.now.history) solved.frame) }
    {
        let job = self.job(alloc)?;
        let solved = Solved::of(rt, alloc, job)?;
        // Asked for what its type keeps, which the proof needs.
        let _legal = solved.frame();
        Ok(solved)
    }

    /// The separations that push in a frame of the present scene and places.
    fn next_hints(&self, alloc: Global, frame: &Frame) -> Result<Hints, Memory>
        requires { IsFrameOf (scene_at self.now.history) (places_at self.now.history) frame.now }
        ensures { IfOk result (λ hints. hints ≡ hints_of frame.now) }
    {
        // Asked for what its type keeps, which the proof needs.
        let _places = self.places();
        Hints::of(alloc, frame)
    }

    /// All growths come first, so that want of memory changes nothing.
    fn enter_frame(
        &mut self,
        alloc: Global,
        who: u8,
        line: u32,
        solved: Solved,
    ) -> Result<(), Solved>
        requires room { HasRoom self.old.history self.old.budget }
        requires legal { IsFrameOf (scene_at self.old.history) (places_at self.old.history) solved.frame }
        ensures entered { OnOk result (self.new ≡ record self.old { history = self.old.history ++ entry_of who line (act.Frame solved.frame) ∷ [] }) }
        ensures unchanged { OnErr result (self.new ≡ self.old) }
        ensures back { IfErr result (λ back. back ≡ solved) }
    {
        let Ok(places) = drawn(alloc, &solved.frame) else {
            return Err(solved);
        };
        let Ok(hints) = self.next_hints(alloc, &solved.frame) else {
            return Err(solved);
        };
        if self.history.reserve(1).is_err() {
            return Err(solved);
        }
        let settled = settled(&solved.frame, &self.places);
        let frame = solved.into_frame();
        add(
            &mut self.history,
            Entry {
                who,
                line,
                act: Act::Frame(frame),
            },
        );
        self.places = places;
        self.settled = settled;
        self.hints = hints;
        Ok(())
    }
}
