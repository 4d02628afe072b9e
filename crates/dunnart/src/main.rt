//! The program: it reads an edit script from standard input and prints the listing of the document, its picture, or, of a made
//! script, a summary.
#![tactic(auto)]

use standard_run::run_process;
use std::process::ExitCode;

fn main(rt: HostRuntime) -> ExitCode {
    run_process(&rt)
}
