//! The program with words that it refuses, over a script that it would play: the stored run of a failure.
#![tactic(auto)]

use standard_run::run_process;
use std::process::ExitCode;

fn main(rt: HostRuntime) -> ExitCode {
    run_process(&rt)
}
