//! The run of the program.
ghost use Rattle.std.specs.Prelude.{◌≡◌, ◌⊎◌, IsSome, Some, map};
ghost use Rattle.std.specs.String.{string_bytes};
ghost use Rattle.command_line.specs.Command.{TakesWords};
ghost use Rattle.command_line.specs.Plans.{plan_of};
ghost use Rattle.editor_run.specs.Ends.{reading_of, writing_of};
ghost use Rattle.editor_run.specs.Runs.{IsRun, HasCauses, IsComplete};
ghost use Rattle.editor_run.specs.declared.outcome.Fault.TheVariants as fault;

use crate::outcome::{Fault, Outcome};
use crate::results::failed;
use crate::serving::serve;
use byte_edge::{Sink, Source};
use command_line::{PlanStop, plan_from};
use gate_bell::Gate;
use std::sync::Wait;
use std::thread::Threads;

/// The run of the program by its words, the program's name first: with words that the command takes it is the run by the
/// plan that they ask for, alone or beside workers; else, also where they ask for help, the status is 2, nothing is read
/// and nothing is written. Want of memory for the words is status 5. With workers it waits, and owes no return.
pub fn run<R: AllocGlobal + Threads + Wait + Sync, S: Source, K: Sink, G: Gate + Sync>(
    rt: &R,
    words: Vec<String>,
    source: &mut S,
    sink: &mut K,
    gate: &G,
) -> Outcome
    // What a run is, on status 0 and where the sink failed.
    ensures run { IsRun (plan_of (map string_bytes words.items)) (reading_of S.left S.given S.faults source.old source.new) (writing_of K.put K.faults sink.old sink.new) result }

    // Each status has its cause: words are refused exactly where the command doesn't take them.
    ensures causes { HasCauses (plan_of (map string_bytes words.items)) (reading_of S.left S.given S.faults source.old source.new) (writing_of K.put K.faults sink.old sink.new) (sink.new ≡ sink.old) result }
    ensures words_refused { result.fault ≡ Some fault.Words → (TakesWords (map string_bytes words.items) → ⊥) }
    ensures words_taken { TakesWords (map string_bytes words.items) ⊎ (result.fault ≡ Some fault.Words) ⊎ (result.fault ≡ Some fault.Memory) }

    // Nothing is read and nothing is written where the command doesn't take the words, whatever the status. Where a script is
    // made nothing is read.
    ensures unread { (TakesWords (map string_bytes words.items) → ⊥) → source.new ≡ source.old }
    ensures unwritten { (TakesWords (map string_bytes words.items) → ⊥) → sink.new ≡ sink.old }
    ensures made { IsSome (plan_of (map string_bytes words.items)).made → source.new ≡ source.old }

    // Where words are taken, no read and no write failed, and a script is made or one within the length is spelled, a run
    // that returns succeeds or lacks memory.
    ensures complete { TakesWords (map string_bytes words.items) → IsComplete (plan_of (map string_bytes words.items)) (reading_of S.left S.given S.faults source.old source.new) (writing_of K.put K.faults sink.old sink.new) result }
{
    match plan_from(rt.alloc(), &words) {
        Ok(plan) => serve(rt, plan, source, sink, gate),
        Err(PlanStop::Refused) => failed(rt.alloc(), Fault::Words),
        Err(PlanStop::Memory) => failed(rt.alloc(), Fault::Memory),
    }
}
