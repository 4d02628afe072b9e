//! The lines of one session, played at a desk.
ghost use Rattle.std.specs.Prelude.{◌≡◌, Some, None, length, IfOk};
ghost use Rattle.script_text.specs.declared.scripts.Command.TheVariants as command;
ghost use Rattle.doc_book.specs.Jobs.{IsJobOf};
ghost use Rattle.doc_book.specs.Listing.{session_lines};
ghost use Rattle.doc_book.specs.Turns.{untold};
ghost use Rattle.session_run.specs.AtDesk.{IsKeptAt, IsRepliedAt, IsPlayedAt};

use crate::answering::{entered, told};
use doc_book::{Desk, Job, Look, Publish, Refused, Reply, Solved};
use edit_rules::{Edit, Refusal};
use gate_bell::{AFTER_REPLY, Gate};
use script_text::{Command, Line};
use std::alloc::Global;
use std::thread::Threads;
use units::{Memory, Name, Sequence};

/// Plays those of the lines that are of session `who` at its desk, in order, and gives a reply for each; the lines of other
/// sessions are passed over, so that all sessions can be lent one script. A `layout` line is one look and, where there is a
/// frame to make, its making, for which the desk isn't called, and one publication. It waits only as the desk and the gate
/// do: at the gate after each reply to an edit or undo. For want of memory the lines so far have been played, and the one
/// at which it came may have been.
pub fn play<R: Threads + Sync, D: Desk, G: Gate>(
    rt: &R,
    alloc: Global,
    desk: &mut D,
    gate: &G,
    who: u8,
    lines: &[Line],
) -> Result<Sequence<Reply>, Memory>
    requires caller { (D.at desk.old).who ≡ who }
    requires told { (D.at desk.old).told ≡ untold }
    ensures played { IfOk result (λ replies. IsPlayedAt (D.at desk.old) (D.at desk.new) (session_lines who lines.now) replies) }
    ensures kept { IsKeptAt (D.at desk.old) (D.at desk.new) }
    ensures key { D.key desk.new ≡ D.key desk.old }
{
    let mut replies = Sequence::new(alloc);
    for line in lines {
        if line.session == who {
            let reply = reply_to(rt, alloc, desk, gate, line)?;
            replies.push(reply)?;
        }
    }
    Ok(replies)
}

/// Plays a line of the desk's caller.
fn reply_to<R: Threads + Sync, D: Desk, G: Gate>(
    rt: &R,
    alloc: Global,
    desk: &mut D,
    gate: &G,
    line: &Line,
) -> Result<Reply, Memory>
    requires { (D.at desk.old).told.job ≡ None }
    ensures replied { IfOk result (λ reply. IsRepliedAt (D.at desk.old) (D.at desk.new) line.now reply) }
    ensures kept { IsKeptAt (D.at desk.old) (D.at desk.new) }
    ensures key { D.key desk.new ≡ D.key desk.old }
{
    match &line.command {
        Command::Edit(edit) => {
            let edit = edit.copy(alloc)?;
            let reply = edit_for(alloc, desk, line, edit)?;
            gate.arrive(AFTER_REPLY, line.session);
            Ok(reply)
        }
        Command::Undo => {
            let reply = undo_for(alloc, desk, line)?;
            gate.arrive(AFTER_REPLY, line.session);
            Ok(reply)
        }
        Command::Layout => lay_out_for(rt, alloc, desk, line),
        Command::Where(name) => Ok(ask_for(desk, line, name)),
    }
}

/// Enters the edit of a line.
fn edit_for<D: Desk>(alloc: Global, desk: &mut D, line: &Line, edit: Edit) -> Result<Reply, Memory>
    requires line { line.now.command ≡ command.Edit edit }
    requires told { (D.at desk.old).told.job ≡ None }
    ensures replied { IfOk result (λ reply. IsRepliedAt (D.at desk.old) (D.at desk.new) line.now reply) }
    ensures kept { IsKeptAt (D.at desk.old) (D.at desk.new) }
    ensures key { D.key desk.new ≡ D.key desk.old }
{
    entered(desk.edit(alloc, line.number, edit))
}

/// Undoes for a line.
fn undo_for<D: Desk>(alloc: Global, desk: &mut D, line: &Line) -> Result<Reply, Memory>
    requires line { line.now.command ≡ command.Undo }
    requires told { (D.at desk.old).told.job ≡ None }
    ensures replied { IfOk result (λ reply. IsRepliedAt (D.at desk.old) (D.at desk.new) line.now reply) }
    ensures kept { IsKeptAt (D.at desk.old) (D.at desk.new) }
    ensures key { D.key desk.new ≡ D.key desk.old }
{
    entered(desk.undo(alloc, line.number))
}

/// Asks for a line where the item of this name stands.
fn ask_for<D: Desk>(desk: &mut D, line: &Line, name: &Name) -> Reply
    requires line { line.now.command ≡ command.Where name.now }
    requires told { (D.at desk.old).told.job ≡ None }
    ensures replied { IsRepliedAt (D.at desk.old) (D.at desk.new) line.now result }
    ensures kept { IsKeptAt (D.at desk.old) (D.at desk.new) }
    ensures key { D.key desk.new ≡ D.key desk.old }
{
    told(desk.ask(name))
}

/// Looks for a line, and where there is a frame to make, makes and publishes it.
fn lay_out_for<R: Threads + Sync, D: Desk>(
    rt: &R,
    alloc: Global,
    desk: &mut D,
    line: &Line,
) -> Result<Reply, Memory>
    requires line { line.now.command ≡ command.Layout }
    requires told { (D.at desk.old).told.job ≡ None }
    ensures replied { IfOk result (λ reply. IsRepliedAt (D.at desk.old) (D.at desk.new) line.now reply) }
    ensures kept { IsKeptAt (D.at desk.old) (D.at desk.new) }
    ensures key { D.key desk.new ≡ D.key desk.old }
{
    match desk.look(alloc) {
        Look::Job(job) => publish_for(rt, alloc, desk, line, job),
        Look::Idle { front } => Ok(Reply::Idle { front }),
        Look::Spent { front, .. } => Ok(Reply::Spent { front }),
        Look::Ending { place, front } => Ok(Reply::Refused(Refused {
            refusal: Refusal::Ended { place },
            front,
        })),
        Look::Memory => Err(Memory),
    }
}

/// Makes the frame of the job that is out, and publishes it for a line. The desk isn't called while it is made.
fn publish_for<R: Threads + Sync, D: Desk>(
    rt: &R,
    alloc: Global,
    desk: &mut D,
    line: &Line,
    job: Job,
) -> Result<Reply, Memory>
    requires line { line.now.command ≡ command.Layout }
    requires told { (D.at desk.old).told.job ≡ Some job.front }
    requires job { IsJobOf (D.at desk.old).seen (D.at desk.old).budget job.front job.scene job.places }
    requires all { length (D.at desk.old).seen ≡ job.front }
    ensures replied { IfOk result (λ reply. IsRepliedAt (D.at desk.old) (D.at desk.new) line.now reply) }
    ensures kept { IsKeptAt (D.at desk.old) (D.at desk.new) }
    ensures key { D.key desk.new ≡ D.key desk.old }
{
    let solved = Solved::of(rt, alloc, job)?;
    match desk.publish(alloc, line.number, solved) {
        Publish::Published { place } => Ok(Reply::Published { place }),
        Publish::Stale { front, .. } => Ok(Reply::Stale { front }),
        Publish::Memory { .. } => Err(Memory),
    }
}
