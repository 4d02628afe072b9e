//! The command and its arguments.
ghost use Rattle.std.specs.Prelude.{◌≡◌, IfOk, false};
ghost use Rattle.clap.specs.Words.{app_of, rule_of};
ghost use Rattle.command_line.specs.Command.{flag_rule, number_rule, the_command};

use clap::builder::ValueParser;
use clap::{Arg, ArgAction, Command};
use std::alloc::{AllocError, Global};

/// An option `--NAME N` with a whole number from `least` to `most`.
fn number<'a>(alloc: Global, name: &'a str, least: u32, most: u32, help: &'a str) -> Arg<'a>
    ensures rule { rule_of result ≡ number_rule name.entry.now least most }
    ensures local { result.global ≡ false }
{
    Arg::new(alloc, name)
        .long(name)
        .value_name("N")
        .help(help)
        .action(ArgAction::Set)
        .value_parser(ValueParser::Signed(i64::from(least), i64::from(most)))
}

/// A flag `--NAME`.
fn flag<'a>(alloc: Global, name: &'a str, help: &'a str) -> Arg<'a>
    ensures rule { rule_of result ≡ flag_rule name.entry.now }
    ensures local { result.global ≡ false }
{
    Arg::new(alloc, name)
        .long(name)
        .help(help)
        .action(ArgAction::SetTrue)
        .value_parser(ValueParser::Bool)
}

// What help says of the command and of each argument.
const ABOUT: &str = "Reads a script of diagram edits, lays the diagram out and writes a listing.";

const WORKERS: &str = "Workers that lay out while sessions edit, 0 to 8 [default: 0]";

const FRAMES: &str = "Most frames before the end of the script, 0 to 512 [default: 64]";

const SVG: &str = "Writes the picture in place of the listing";

const MAKE: &str = "Makes script N, 1 to 1000000, and writes its summary; reads nothing";

/// The command. A further argument is a line here, a line of `the_command` in `specs` and a field of the plan.
pub fn the_command<'a>(alloc: Global) -> Result<Command<'a>, AllocError>
    ensures { IfOk result (λ command. app_of command ≡ the_command) }
{
    let command = Command::new(alloc, "dunnart").about(ABOUT);
    let command = command.arg(number(alloc, "workers", 0, 8, WORKERS))?;
    let command = command.arg(number(alloc, "frames", 0, 512, FRAMES))?;
    let command = command.arg(flag(alloc, "svg", SVG))?;
    let command = command.arg(number(alloc, "make", 1, 1_000_000, MAKE))?;
    Ok(command)
}
