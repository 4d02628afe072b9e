//! The run by a plan: without workers, or beside them.
ghost use Rattle.std.specs.Prelude.{◌≡◌, ◌≤◌, IsSome, Some};
ghost use Rattle.command_line.specs.Plans.{IsInRange};
ghost use Rattle.editor_run.specs.Ends.{reading_of, writing_of};
ghost use Rattle.editor_run.specs.Runs.{IsRun, HasCauses, IsComplete};
ghost use Rattle.editor_run.specs.declared.outcome.Fault.TheVariants as fault;

use crate::beside::play_beside;
use crate::input::script_of;
use crate::outcome::{Fault, Outcome};
use crate::results::{failed, write_out};
use crate::whole::play_whole;
use byte_edge::{Sink, Source};
use command_line::Plan;
use gate_bell::Gate;
use std::sync::Wait;
use std::thread::Threads;

/// Serves a plan without workers: reads the script that the source gives, or makes the one of the plan, plays its lines in
/// order, ends the document, finishes it, and writes the output of the plan: the listing, with `svg` the picture of the
/// last frame, and of a made script the summary. It waits for nobody and always returns. A made script reads nothing.
///
/// Statuses: 0 on success; 3 where the bytes spell no script, with the line and the kind of their fault; 4 where a read
/// failed; 5 for want of memory; 6 where a write failed, with a front part of the output written; 7 where the source
/// gave more than 1,048,576 bytes. On 3, 4 and 7 nothing is written, on 5 nothing or a front part of the output.
pub fn run_alone<R: AllocGlobal + Threads + Sync, S: Source, K: Sink>(
    rt: &R,
    plan: Plan,
    source: &mut S,
    sink: &mut K,
) -> Outcome
    requires in_range { IsInRange plan }
    requires alone { plan.workers ≡ 0 }

    // What a run is, on status 0 and where the sink failed.
    ensures run { IsRun plan (reading_of S.left S.given S.faults source.old source.new) (writing_of K.put K.faults sink.old sink.new) result }

    // Each status has its cause. No words are looked at.
    ensures causes { HasCauses plan (reading_of S.left S.given S.faults source.old source.new) (writing_of K.put K.faults sink.old sink.new) (sink.new ≡ sink.old) result }
    ensures no_words { result.fault ≡ Some fault.Words → ⊥ }
    ensures unread { IsSome plan.made → source.new ≡ source.old }

    // Where no read and no write failed, and a script is made or one within the length is spelled, the run succeeds or lacks
    // memory.
    ensures complete { IsComplete plan (reading_of S.left S.given S.faults source.old source.new) (writing_of K.put K.faults sink.old sink.new) result }
{
    let alloc = rt.alloc();
    let script = match script_of(alloc, plan, source) {
        Ok(script) => script,
        Err(fault) => return failed(alloc, fault),
    };
    let played = match play_whole(rt, alloc, plan.frames, &script) {
        Ok(played) => played,
        Err(_) => return failed(alloc, Fault::Memory),
    };
    write_out(alloc, plan, script, played, sink)
}

/// Serves a plan with workers, which makes no script: as `run_alone`, but the sessions are played beside each other and
/// beside the plan's workers, each in a thread of its own; End comes when all sessions have their replies. It waits for them,
/// and owes no return. Sessions and workers arrive at the gate.
///
/// The statuses are those of `run_alone`. Want of memory in one session or worker is status 5, and stops no other.
pub fn run_beside<R: AllocGlobal + Threads + Wait + Sync, S: Source, K: Sink, G: Gate + Sync>(
    rt: &R,
    plan: Plan,
    source: &mut S,
    sink: &mut K,
    gate: &G,
) -> Outcome
    requires in_range { IsInRange plan }
    requires workers { 1 ≤ plan.workers }

    // What a run is, on status 0 and where the sink failed.
    ensures run { IsRun plan (reading_of S.left S.given S.faults source.old source.new) (writing_of K.put K.faults sink.old sink.new) result }

    // Each status has its cause. No words are looked at.
    ensures causes { HasCauses plan (reading_of S.left S.given S.faults source.old source.new) (writing_of K.put K.faults sink.old sink.new) (sink.new ≡ sink.old) result }
    ensures no_words { result.fault ≡ Some fault.Words → ⊥ }

    // Where no read and no write failed, and a script within the length is spelled, a run that returns succeeds or lacks
    // memory.
    ensures complete { IsComplete plan (reading_of S.left S.given S.faults source.old source.new) (writing_of K.put K.faults sink.old sink.new) result }
{
    let alloc = rt.alloc();
    let script = match script_of(alloc, plan, source) {
        Ok(script) => script,
        Err(fault) => return failed(alloc, fault),
    };
    let played = match play_beside(rt, gate, plan.frames, plan.workers, &script) {
        Ok(played) => played,
        Err(_) => return failed(alloc, Fault::Memory),
    };
    write_out(alloc, plan, script, played, sink)
}

/// Serves a plan: alone where it has no workers, else beside them.
pub(crate) fn serve<R: AllocGlobal + Threads + Wait + Sync, S: Source, K: Sink, G: Gate + Sync>(
    rt: &R,
    plan: Plan,
    source: &mut S,
    sink: &mut K,
    gate: &G,
) -> Outcome
    requires { IsInRange plan }
    ensures run { IsRun plan (reading_of S.left S.given S.faults source.old source.new) (writing_of K.put K.faults sink.old sink.new) result }
    ensures causes { HasCauses plan (reading_of S.left S.given S.faults source.old source.new) (writing_of K.put K.faults sink.old sink.new) (sink.new ≡ sink.old) result }
    ensures no_words { result.fault ≡ Some fault.Words → ⊥ }
    ensures unread { IsSome plan.made → source.new ≡ source.old }
    ensures complete { IsComplete plan (reading_of S.left S.given S.faults source.old source.new) (writing_of K.put K.faults sink.old sink.new) result }
{
    if plan.workers == 0 {
        run_alone(rt, plan, source, sink)
    } else {
        run_beside(rt, plan, source, sink, gate)
    }
}
