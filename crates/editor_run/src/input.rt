//! The script of a run: read, or made.
ghost use Rattle.std.specs.Prelude.{◌≡◌, ◌⊎◌, Err, IfOk, IsOk, IsSome, MatchResult};
ghost use Rattle.std.specs.Result.{result_err};
ghost use Rattle.editor_run.specs.Ends.{reading_of};
ghost use Rattle.editor_run.specs.Input.{IsInput, IsRead, HasReadCauses, WhereGiven, WhereSpelled};
ghost use Rattle.made_script.specs.Made.{made_lines};
ghost use Rattle.editor_run.specs.declared.outcome.Fault.TheVariants as fault;

use crate::outcome::Fault;
use byte_edge::{Source, read_all};
use command_line::Plan;
use made_script::made;
use script_text::{Script, read};
use std::alloc::Global;

/// The most bytes of a script.
pub const MOST_BYTES: usize = 1_048_576;

/// The script of a plan: the made one of its number, where it has one, and then nothing is read; else the one that the
/// source gives to its end.
pub fn script_of<S: Source>(alloc: Global, plan: Plan, source: &mut S) -> Result<Script, Fault>
    ensures input { IfOk result (IsInput plan (reading_of S.left S.given S.faults source.old source.new)) }
    ensures causes { HasReadCauses (reading_of S.left S.given S.faults source.old source.new) (result_err result) }
    ensures complete { WhereGiven plan (reading_of S.left S.given S.faults source.old source.new) ((IsOk result) ⊎ (result ≡ Err fault.Memory)) }
    ensures unread { IsSome plan.made → source.new ≡ source.old }
    ensures neither { (result ≡ Err fault.Words) ⊎ (result ≡ Err fault.Sink) → ⊥ }
{
    match plan.made {
        Some(number) => make(alloc, number),
        None => input(alloc, source),
    }
}

/// The made script of a number.
fn make(alloc: Global, number: u32) -> Result<Script, Fault>
    ensures { MatchResult result (λ script. script ≡ made_lines number) (λ f. f ≡ fault.Memory) }
{
    match made(alloc, number) {
        Ok(script) => Ok(script),
        Err(_) => Err(Fault::Memory),
    }
}

/// The script that the source gives to its end.
fn input<S: Source>(alloc: Global, source: &mut S) -> Result<Script, Fault>
    ensures read { IfOk result (IsRead (reading_of S.left S.given S.faults source.old source.new)) }
    ensures causes { HasReadCauses (reading_of S.left S.given S.faults source.old source.new) (result_err result) }
    ensures complete { WhereSpelled (reading_of S.left S.given S.faults source.old source.new) ((IsOk result) ⊎ (result ≡ Err fault.Memory)) }
    ensures neither { (result ≡ Err fault.Words) ⊎ (result ≡ Err fault.Sink) → ⊥ }
{
    let bytes = read_all(alloc, source, MOST_BYTES)?;
    Ok(read(alloc, &bytes)?)
}
