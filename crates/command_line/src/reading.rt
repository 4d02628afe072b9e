//! Reading the words of a command line.
ghost use Rattle.std.specs.Prelude.{◌≡◌, ◌≤◌, Err, IfNone, IfOk, IfSome, IsSome, OnOk, codes, map};
ghost use Rattle.std.specs.String.{string_bytes};
ghost use Rattle.clap.specs.Words.{found_of, kind_of, rows_of};
ghost use Rattle.clap.specs.declared.error.kind.ErrorKind.TheVariants as kind;
ghost use Rattle.command_line.specs.Command.{TakesWords};
ghost use Rattle.command_line.specs.Plans.{IsInRange, has_flag, number_at, plan_by, plan_of};
ghost use Rattle.command_line.specs.Readings.{IsRead};
ghost use Rattle.command_line.specs.declared.plans.PlanStop.TheVariants as stop;

use crate::arguments::the_command;
use crate::plans::{Plan, PlanStop};
use clap::error::ErrorKind;
use clap::{ArgMatches, Error};
use std::alloc::{AllocError, Global};

fn workers(matches: &ArgMatches) -> Option<u8>
    requires { IsRead (found_of matches.now) }
    ensures value { result ≡ number_at (codes "workers") (rows_of (found_of matches.now)) }
    ensures within { IfSome result (λ n. n ≤ 8) }
{
    matches.get_one::<u8>("workers")
}

fn frames(matches: &ArgMatches) -> Option<u32>
    requires { IsRead (found_of matches.now) }
    ensures value { result ≡ number_at (codes "frames") (rows_of (found_of matches.now)) }
    ensures within { IfSome result (λ n. n ≤ 512) }
{
    matches.get_one::<u32>("frames")
}

fn made(matches: &ArgMatches) -> Option<u32>
    requires { IsRead (found_of matches.now) }
    ensures value { result ≡ number_at (codes "make") (rows_of (found_of matches.now)) }
    ensures within { IfSome result (λ n. (1 ≤ n) × (n ≤ 1000000)) }
{
    matches.get_one::<u32>("make")
}

fn svg(matches: &ArgMatches) -> bool
    requires { IsRead (found_of matches.now) }
    ensures { result ≡ has_flag (codes "svg") (rows_of (found_of matches.now)) }
{
    matches.get_flag("svg")
}

/// The plan of some matches.
fn plan_by(matches: &ArgMatches) -> Plan
    requires { IsRead (found_of matches.now) }
    ensures plan { result ≡ plan_by (rows_of (found_of matches.now)) }
    ensures in_range { IsInRange result }
{
    let made = made(matches);
    let workers = workers(matches).unwrap_or(0);
    let frames = frames(matches).unwrap_or(64);
    Plan {
        workers: if made.is_some() { 0 } else { workers },
        frames,
        svg: svg(matches),
        made,
    }
}

/// Why a parse gave no matches.
fn stop_of(error: &Error) -> PlanStop
    ensures { result ≡ stop.Refused → (kind_of error.now ≡ kind.OutOfMemory → ⊥) }
{
    match error.kind() {
        ErrorKind::OutOfMemory => PlanStop::Memory,
        _ => PlanStop::Refused,
    }
}

/// The text of an error that isn't for want of memory.
fn text_of(alloc: Global, error: &Error) -> Result<Option<String>, AllocError>
    ensures some { IfOk result (λ text. IsSome text) }
    ensures other { OnOk result (kind_of error.now ≡ kind.OutOfMemory → ⊥) }
{
    match error.kind() {
        ErrorKind::OutOfMemory => Err(AllocError),
        _ => Ok(Some(error.to_string(alloc)?)),
    }
}

/// The plan that the words of a command line ask for, the program's name first.
///
/// `Refused` comes exactly where the command doesn't take the words; a request for help counts so. A list of no words
/// asks for the same as the program's name alone.
pub fn plan_from(alloc: Global, words: &[String]) -> Result<Plan, PlanStop>
    ensures plan { IfOk result (λ plan. plan ≡ plan_of (map string_bytes words.entry.now)) }
    ensures in_range { IfOk result IsInRange }
    ensures taken { OnOk result (TakesWords (map string_bytes words.entry.now)) }
    ensures refused { result ≡ Err stop.Refused → (TakesWords (map string_bytes words.entry.now) → ⊥) }
{
    let Ok(command) = the_command(alloc) else {
        return Err(PlanStop::Memory);
    };
    match command.try_get_matches_from(words) {
        Ok(matches) => Ok(plan_by(&matches)),
        Err(error) => Err(stop_of(&error)),
    }
}

/// What a user is told whose words the command doesn't take: for a request for help the help, else what is wrong with
/// the words and how the command is used. None exactly where it takes them.
pub fn refusal_text(alloc: Global, words: &[String]) -> Result<Option<String>, AllocError>
    ensures taken { IfOk result (λ text. IfNone text (TakesWords (map string_bytes words.entry.now))) }
    ensures refused { IfOk result (λ text. IsSome text → (TakesWords (map string_bytes words.entry.now) → ⊥)) }
{
    let command = the_command(alloc)?;
    match command.try_get_matches_from(words) {
        Ok(_) => Ok(None),
        Err(error) => text_of(alloc, &error),
    }
}
