//! How the process ends.
ghost use Rattle.std.specs.Prelude.{◌≡◌, ◌⊎◌, ◌≢◌};
ghost use Rattle.std.specs.Process.{exit_status};
ghost use Rattle.std.specs.declared.io.ErrorKind.TheVariants as kind_of_error;
ghost use Rattle.editor_run.specs.declared.outcome.Fault.TheVariants as fault;
ghost use Rattle.editor_run.specs.Outcomes.{status_of};

use editor_run::Fault;
use std::alloc::AllocError;
use std::io::{Eprint, ErrorKind};
use std::process::ExitCode;

/// Prints the fault to standard error, with a line feed behind it. Whether it is printed changes nothing.
pub fn print_fault<R: Eprint>(rt: &R, fault: Fault) {
    let _ = eprintln!(rt; "{fault}");
}

/// Prints to standard error why words are refused: the help as clap has it, where that is what clap tells; else, as where
/// there is no memory for it, the fault.
pub fn print_refusal<R: Eprint>(rt: &R, refusal: Result<Option<String>, AllocError>) {
    match refusal {
        Ok(Some(text)) => print_help(rt, &text),
        Ok(None) => print_fault(rt, Fault::Words),
        Err(_) => print_fault(rt, Fault::Words),
    }
}

/// Prints the text where it is the help, which doesn't begin as clap's errors do; else the fault.
fn print_help<R: Eprint>(rt: &R, text: &String) {
    if text.as_bytes().starts_with(b"error:".as_slice()) {
        print_fault(rt, Fault::Words);
    } else {
        let _ = eprint!(rt; "{text}");
    }
}

/// Ends a run whose words couldn't be had.
pub fn without_words<R: Eprint>(rt: &R, kind: ErrorKind) -> ExitCode
    ensures refused { kind ≡ ErrorKind.InvalidData → exit_status result ≡ 2 }
    ensures no_memory { kind ≢ ErrorKind.InvalidData → exit_status result ≡ 5 }
    ensures either { (exit_status result ≡ 2) ⊎ (exit_status result ≡ 5) }
{
    let fault = fault_of(kind);
    print_fault(rt, fault);
    ExitCode::from(fault.status())
}

/// Why the words couldn't be had: one isn't UTF-8, which is refused as every word is, or there was no memory for them.
fn fault_of(kind: ErrorKind) -> Fault
    ensures refused { kind ≡ ErrorKind.InvalidData → result ≡ Fault.Words }
    ensures no_memory { kind ≢ ErrorKind.InvalidData → result ≡ Fault.Memory }
    ensures either { (result ≡ Fault.Words) ⊎ (result ≡ Fault.Memory) }
{
    match kind {
        ErrorKind::InvalidData => Fault::Words,
        _ => Fault::Memory,
    }
}
