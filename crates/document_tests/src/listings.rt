//! What no clause says: that listings are written with ample memory.
ghost use Rattle.std.specs.Prelude.{◌≡◌, [], replicate, IfOk};

use byte_edge::SureSink;
use doc_book::{Book, Reply};
use listing_text::write_listing;
use script_text::Script;
use std::alloc::Global;
use std::test::Fail;
use units::{Memory, Sequence};

/// Eight lists without replies, one a session.
fn no_replies(alloc: Global) -> Result<Vec<Sequence<Reply>>, Memory>
    ensures { IfOk result (λ lists. lists.items ≡ replicate 8 []) }
{
    let none = || Sequence::new(alloc);
    Ok(vec![in alloc;
        none(),
        none(),
        none(),
        none(),
        none(),
        none(),
        none(),
        none(),
    ]?)
}

#[test]
fn a_listing_of_nothing_is_written(rt: HostRuntime) -> Result<(), Fail> {
    let alloc = rt.alloc();
    let book = Book::new(alloc, 64);
    let script = Script::of(Vec::new(alloc));
    let replies = no_replies(alloc)?;
    let mut sink = SureSink::new(alloc);
    let written = write_listing(alloc, &book, &script, &replies, &mut sink);
    assert!(rt; written.is_ok());
    assert_eq!(rt; sink.bytes(), b"listing 1\nreplies\ndone\n".as_slice());
    Ok(())
}
