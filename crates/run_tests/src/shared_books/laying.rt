//! Frames at a shared book.
ghost use Rattle.std.specs.Prelude.{◌≡◌, Some, IfSome};
ghost use Rattle.doc_book.specs.Jobs.{IsJobOf};

use doc_book::{Look, Publish, Solved};
use edit_rules::Edit;
use scene_model::Form;
use shared_book::{Pass, SharedBook};
use std::alloc::Global;
use std::sync::Wait;
use std::thread::Threads;
use units::Name;

/// A box of 10 by 10 at (x, 0).
pub fn a_box(name: Name, x: i32) -> Edit {
    Edit::Put {
        name,
        form: Form::Box,
        x,
        y: 0,
        w: 10,
        h: 10,
    }
}

/// What a publication answers.
#[derive(Clone, Copy, PartialEq, Eq)]
pub enum Laid {
    Published { place: u32 },
    Stale { front: u32, made: u32 },
    Memory,
}

pub fn told(answer: Publish) -> Laid {
    match answer {
        Publish::Published { place } => Laid::Published { place },
        Publish::Stale { front, back } => Laid::Stale {
            front,
            made: back.front(),
        },
        Publish::Memory { back: _ } => Laid::Memory,
    }
}

/// The frame of a job, where a look gives one.
#[tactic(auto, using(crate::proofs::Looking::turn_job))]
pub fn look_and_solve<R: Threads + Wait + Sync>(
    rt: &R,
    alloc: Global,
    book: &SharedBook,
    pass: &mut Pass,
) -> Option<Solved>
    requires { pass.old.table ≡ Some book.now }
    ensures same { pass.new.table ≡ Some book.now }
    ensures job { IfSome result (λ solved. IsJobOf pass.new.seen book.now.terms.frames solved.job.front solved.job.scene solved.job.places) }
{
    let Look::Job(job) = book.look(rt, alloc, pass) else {
        return None;
    };
    let Ok(solved) = Solved::of(rt, alloc, job) else {
        return None;
    };
    Some(solved)
}
