//! What a run comes to at each of its ends.
ghost use Rattle.std.specs.Prelude.{◌≡◌, ◌⊎◌, None, Some};
ghost use Rattle.byte_edge.specs.Count.{HasRisen};
ghost use Rattle.command_line.specs.Plans.{IsInRange};
ghost use Rattle.editor_run.specs.Ends.{Reading, writing_of};
ghost use Rattle.editor_run.specs.Input.{IsInput, HasReadCauses};
ghost use Rattle.editor_run.specs.Outcomes.{failure, ran};
ghost use Rattle.editor_run.specs.Played.{IsPlayedToEnd};
ghost use Rattle.editor_run.specs.Runs.{IsRun, HasCauses};
ghost use Rattle.editor_run.specs.declared.outcome.Fault.TheVariants as fault;

use crate::outcome::{Fault, Outcome};
use crate::whole::Played;
use byte_edge::{Sink, SinkStop};
use command_line::Plan;
use output_text::write_output;
use script_text::Script;
use std::alloc::Global;
use units::Sequence;

/// The outcome of a fault, where no script was played.
pub fn failed(alloc: Global, fault: Fault) -> Outcome
    ensures { result ≡ failure fault }
{
    Outcome {
        status: fault.status(),
        fault: Some(fault),
        book: None,
        script: None,
        replies: Sequence::new(alloc),
        tallies: Sequence::new(alloc),
    }
}

/// The outcome of a script that was played.
fn finished(script: Script, played: Played, fault: Option<Fault>) -> Outcome
    ensures { result ≡ ran script played.book played.replies played.tallies fault }
{
    Outcome {
        status: fault.map_or(0, Fault::status),
        fault,
        book: Some(played.book),
        script: Some(script),
        replies: played.replies,
        tallies: played.tallies,
    }
}

/// Writes the output of a plan whose script was played, and gives the outcome.
pub fn write_out<K: Sink>(
    alloc: Global,
    plan: Plan,
    script: Script,
    played: Played,
    sink: &mut K,
) -> Outcome
    requires in_range { IsInRange plan }
    requires played { IsPlayedToEnd plan.frames plan.workers script played.book played.replies played.tallies }

    // By whatever reading the script was read or made.
    ensures run { (reading : Reading) → IsInput plan reading script → IsRun plan reading (writing_of K.put K.faults sink.old sink.new) result }
    ensures causes { (reading : Reading) → IsInput plan reading script → HasReadCauses reading None → HasCauses plan reading (writing_of K.put K.faults sink.old sink.new) (sink.new ≡ sink.old) result }
    ensures no_words { result.fault ≡ Some fault.Words → ⊥ }
    ensures ends { ¬ HasRisen (K.faults sink.old) (K.faults sink.new) → (result.status ≡ 0) ⊎ (result.status ≡ 5) }
{
    match write_output(
        alloc,
        plan,
        &played.book,
        &script,
        played.replies.as_slice(),
        sink,
    ) {
        Ok(()) => finished(script, played, None),
        Err(SinkStop::Failed) => finished(script, played, Some(Fault::Sink)),
        Err(SinkStop::Memory) => failed(alloc, Fault::Memory),
    }
}
