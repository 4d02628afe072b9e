//! The words of the command line.
ghost use Rattle.std.specs.Prelude.{◌≡◌, IfOk};
ghost use Rattle.std.specs.Vec.Iter.{into_iter_items};

use std::alloc::{AllocError, Global};
use std::env::{self, Args, Env};
use std::io;

/// The words of the command line, the program's name first.
pub fn words<R: Env + AllocGlobal>(rt: &R) -> io::Result<Vec<String>> {
    let args = env::args(rt)?;
    Ok(all_of(rt.alloc(), args)?)
}

/// All words that are still to come, in order.
fn all_of(alloc: Global, mut args: Args) -> Result<Vec<String>, AllocError>
    ensures { IfOk result (λ words. words.items ≡ into_iter_items args) }
{
    let mut words = Vec::new(alloc);
    while let Some(word) = args.next() {
        words.push(word)?;
    }
    Ok(words)
}
