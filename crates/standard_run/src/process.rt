//! The run of the process.
ghost use Rattle.std.specs.Prelude.{◌≡◌, map};
ghost use Rattle.std.specs.Process.{exit_status};
ghost use Rattle.std.specs.String.{string_bytes};
ghost use Rattle.editor_run.specs.Ends.{reading_of, writing_of};
ghost use Rattle.standard_run.specs.Exits.{ExitsAsRun, ExitsByWords, IsStatus};

use crate::ending::{print_fault, print_refusal, without_words};
use crate::words::words;
use byte_edge::{Sink, Source, StdSink, StdSource};
use command_line::refusal_text;
use editor_run::{Fault, run};
use gate_bell::OpenGate;
use std::env::Env;
use std::io::{self, Eprint, Input, Print};
use std::process::ExitCode;
use std::sync::Wait;
use std::thread::Threads;

/// The run over the words, the standard input and the standard output of the process. A fault is printed to standard
/// error. The exit code is the status of the run. With workers it waits, and owes no return.
pub fn run_process<R: Env + AllocGlobal + Input + Print + Eprint + Threads + Wait + Sync>(
    rt: &R,
) -> ExitCode
    ensures { IsStatus (exit_status result) }
{
    let mut source = StdSource::new(rt.reader());
    let mut sink = StdSink::new(io::writer(rt));
    run_over(rt, &mut source, &mut sink)
}

/// The run over the words of the process, with this source and this sink. A fault is printed to standard error, and in
/// its place the help, where the words ask for it. The exit code is the status of the run: 2 also where a word isn't UTF-8,
/// and 5 where there is no memory for the words; then nothing is read and nothing written.
pub fn run_over<R: Env + AllocGlobal + Eprint + Threads + Wait + Sync, S: Source, K: Sink>(
    rt: &R,
    source: &mut S,
    sink: &mut K,
) -> ExitCode
    ensures { ExitsByWords (reading_of S.left S.given S.faults source.old source.new) (writing_of K.put K.faults sink.old sink.new) (source.new ≡ source.old) (sink.new ≡ sink.old) (exit_status result) }
{
    match words(rt) {
        Ok(words) => run_words(rt, words, source, sink),
        Err(error) => without_words(rt, error.kind()),
    }
}

/// The run over these words, the program's name first.
fn run_words<R: AllocGlobal + Eprint + Threads + Wait + Sync, S: Source, K: Sink>(
    rt: &R,
    words: Vec<String>,
    source: &mut S,
    sink: &mut K,
) -> ExitCode
    ensures { ExitsAsRun (map string_bytes words.items) (reading_of S.left S.given S.faults source.old source.new) (writing_of K.put K.faults sink.old sink.new) (source.new ≡ source.old) (sink.new ≡ sink.old) (exit_status result) }
{
    // What clap tells of words that are refused is made first, since the run takes the words.
    let refusal = refusal_text(rt.alloc(), &words);
    let outcome = run(rt, words, source, sink, &OpenGate);
    match outcome.fault {
        None => {}
        Some(Fault::Words) => print_refusal(rt, refusal),
        Some(fault) => print_fault(rt, fault),
    }
    ExitCode::from(outcome.status)
}
