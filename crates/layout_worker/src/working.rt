//! The rounds of a worker.
ghost use Rattle.std.specs.Prelude.{◌≡◌, ℕ, List, length, Some, None};
ghost use Rattle.doc_book.specs.Jobs.{IsJobOf};
ghost use Rattle.doc_book.specs.Turns.{untold};
ghost use Rattle.layout_worker.specs.Working.{IsWorked, IsLast, IsRound};

use crate::tallies::{Last, Tally};
use doc_book::{Desk, Job, Look, Publish, Solved};
use gate_bell::{AFTER_SOLVING, BEFORE_LOOK, Bell, Gate};
use std::alloc::Global;
use std::sync::Wait;
use std::thread::Threads;

/// What one round came to.
pub(crate) enum Round {
    /// A frame was published.
    Published,
    /// The frame came too late.
    Stale,
    /// There was nothing to lay out.
    Idle,
    /// The worker stops.
    Last(Last),
}

/// Works as caller `who` at its desk until the document is ended, the budget of frames is used up, or memory is wanting:
/// looks, makes the frame that a look found to be made, for which the desk isn't called, and publishes it with line 0.
/// Where there is nothing to lay out it rests until the bell has rung once more than it has heard; the rings before its
/// first rest count from 0, so that none is lost. It arrives at the gate before each look, and when a frame is made.
/// The tally's counts are those of this work.
pub fn work<D: Desk, G: Gate, R: Threads + Wait + Sync>(
    rt: &R,
    alloc: Global,
    desk: &mut D,
    gate: &G,
    bell: &Bell,
    who: u8,
) -> Tally
    requires caller { (D.at desk.old).who ≡ who }
    requires told { (D.at desk.old).told ≡ untold }
    ensures worked { (mine : List ℕ) × IsWorked (D.at desk.old) (D.at desk.new) mine × (length mine ≡ result.published) }
    ensures told { (result.stale ≡ (D.at desk.new).told.stale) × (result.idle ≡ (D.at desk.new).told.idle) }
    ensures last { IsLast (D.at desk.new) result.last }
    ensures key { D.key desk.new ≡ D.key desk.old }
{
    let mut published = 0;
    let mut stale = 0;
    let mut idle = 0;
    let mut heard = 0;
    for _ in rt.forever() {
        match one_round(rt, alloc, desk, gate, who) {
            Round::Published => published += 1,
            Round::Stale => stale = u64::saturating_add(stale, 1),
            Round::Idle => {
                idle = u64::saturating_add(idle, 1);
                heard = bell.rest(rt, heard);
            }
            Round::Last(last) => {
                return Tally {
                    published,
                    stale,
                    idle,
                    last,
                };
            }
        }
    }
    unreachable!()
}

/// Looks, and where there is a frame to make, makes and publishes it.
fn one_round<R: Threads + Sync, D: Desk, G: Gate>(
    rt: &R,
    alloc: Global,
    desk: &mut D,
    gate: &G,
    who: u8,
) -> Round
    requires { (D.at desk.old).told.job ≡ None }
    ensures round { IsRound (D.at desk.old) (D.at desk.new) result }
    ensures key { D.key desk.new ≡ D.key desk.old }
{
    gate.arrive(BEFORE_LOOK, who);
    match desk.look(alloc) {
        Look::Job(job) => solve(rt, alloc, desk, gate, who, job),
        Look::Idle { .. } => Round::Idle,
        Look::Spent { .. } => Round::Last(Last::Spent),
        Look::Ending { .. } => Round::Last(Last::Ending),
        Look::Memory => Round::Last(Last::Memory),
    }
}

/// Makes the frame of the job that is out, and publishes it. The desk isn't called between the look and the publication.
fn solve<R: Threads + Sync, D: Desk, G: Gate>(
    rt: &R,
    alloc: Global,
    desk: &mut D,
    gate: &G,
    who: u8,
    job: Job,
) -> Round
    requires told { (D.at desk.old).told.job ≡ Some job.front }
    requires job { IsJobOf (D.at desk.old).seen (D.at desk.old).budget job.front job.scene job.places }
    ensures round { IsRound (D.at desk.old) (D.at desk.new) result }
    ensures key { D.key desk.new ≡ D.key desk.old }
{
    let Ok(solved) = Solved::of(rt, alloc, job) else {
        return Round::Last(Last::Memory);
    };
    gate.arrive(AFTER_SOLVING, who);
    match desk.publish(alloc, 0, solved) {
        Publish::Published { .. } => Round::Published,
        Publish::Stale { .. } => Round::Stale,
        Publish::Memory { .. } => Round::Last(Last::Memory),
    }
}
