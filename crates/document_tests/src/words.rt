//! What no clause says: that a plan comes with ample memory, and what a user is told.
use command_line::{Plan, PlanStop, plan_from, refusal_text};
use std::alloc::{AllocError, Global};
use std::test::Fail;

const HELP: &str = "\
Reads a script of diagram edits, lays the diagram out and writes a listing.

Usage: dunnart [OPTIONS]

Options:
      --workers <N>  Workers that lay out while sessions edit, 0 to 8 [default: 0]
      --frames <N>   Most frames before the end of the script, 0 to 512 [default: 64]
      --svg          Writes the picture in place of the listing
      --make <N>     Makes script N, 1 to 1000000, and writes its summary; reads nothing
  -h, --help         Print help
";

const NINE_WORKERS: &str = "\
error: invalid value '9' for '--workers <N>': 9 is not in 0..=8

For more information, try '--help'.
";

fn owned(alloc: Global, words: &[&str]) -> Result<Vec<String>, AllocError> {
    let mut owned = Vec::new(alloc);
    for word in words {
        owned.push(String::from_str(alloc, word)?)?;
    }
    Ok(owned)
}

/// Whether the words are taken, and ask for this plan.
fn are_taken(alloc: Global, words: &[&str], plan: Plan) -> Result<bool, Fail> {
    let words = owned(alloc, words)?;
    Ok(plan_from(alloc, &words) == Ok(plan))
}

#[test]
fn words_are_read(rt: HostRuntime) -> Result<(), Fail> {
    let alloc = rt.alloc();
    let plan = Plan {
        workers: 0,
        frames: 64,
        svg: false,
        made: None,
    };
    assert!(rt; are_taken(alloc, &["dunnart"], plan)?);
    let picture = Plan {
        workers: 2,
        frames: 3,
        svg: true,
        ..plan
    };
    let words = ["dunnart", "--workers", "2", "--frames=3", "--svg"];
    assert!(rt; are_taken(alloc, &words, picture)?);
    let made = Plan {
        made: Some(7),
        ..plan
    };
    assert!(rt; are_taken(alloc, &["dunnart", "--make", "7", "--workers", "2"], made)?);
    Ok(())
}

/// Whether the words are refused with this text.
fn are_refused(alloc: Global, words: &[&str], wanted: &str) -> Result<bool, Fail> {
    let words = owned(alloc, words)?;
    let text = refusal_text(alloc, &words)?.ok_or("a text")?;
    Ok(text.as_str() == wanted && plan_from(alloc, &words) == Err(PlanStop::Refused))
}

/// Whether there is a text of a refusal.
fn have_text(alloc: Global, words: &[&str]) -> Result<bool, Fail> {
    let words = owned(alloc, words)?;
    Ok(refusal_text(alloc, &words)?.is_some())
}

#[test]
fn refused_words(rt: HostRuntime) -> Result<(), Fail> {
    let alloc = rt.alloc();
    assert!(rt; are_refused(alloc, &["dunnart", "--workers", "9"], NINE_WORKERS)?);
    assert!(rt; are_refused(alloc, &["dunnart", "--help"], HELP)?);
    assert!(rt; !have_text(alloc, &["dunnart", "--svg"])?);
    Ok(())
}
