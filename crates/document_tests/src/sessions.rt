//! What no clause says: with ample memory a session that has the document to itself has the replies that it has in file
//! order, and is at the gate behind each reply to an edit or undo. Expected values are by what the lines ask for: the box
//! stands where it was put, so that its frame changes no place.
use doc_book::{Alone, Answer, Book, Refused, Reply, Spot, Told};
use edit_rules::Refusal;
use gate_bell::{AFTER_REPLY, Gate};
use script_text::read;
use session_run::{play, play_alone};
use std::alloc::Global;
use std::sync::atomic::{AtomicU64, Ordering};
use std::test::Fail;
use std::thread::Threads;
use units::{Name, Sequence};

const LINES: &[u8] = b"dunnart 1
1 box a 3 4 40 20
1 layout
1 where a
1 layout
1 where b
1 undo
1 undo
end
";

const LINES_OF_TWO: &[u8] = b"dunnart 1
1 box a 3 4 40 20
2 undo
1 layout
1 where a
2 layout
1 layout
1 where b
1 undo
1 undo
end
";

/// A gate that counts who comes behind a reply.
#[derive(Drop)]
struct CountingGate {
    passed: AtomicU64,
}

impl Gate for CountingGate {
    fn arrive(&self, point: u8, _who: u8) {
        if point == AFTER_REPLY {
            self.passed.fetch_add(1, Ordering::SeqCst);
        }
    }
}

/// The replies to the lines of session 1, which has a desk alone.
fn played<R: Threads + Sync, G: Gate>(
    rt: &R,
    alloc: Global,
    gate: &G,
    bytes: &[u8],
) -> Result<Sequence<Reply>, Fail> {
    let script = read(alloc, bytes).ok().ok_or("a script")?;
    let mut book = Book::new(alloc, 64);
    let mut desk = Alone {
        book: &mut book,
        who: 1,
        told: Told::new(),
    };
    Ok(
        play(rt, alloc, &mut desk, gate, 1, script.lines())
            .ok()
            .ok_or("memory")?,
    )
}

/// The lists of replies to a script in file order.
fn in_file_order<R: Threads + Sync>(
    rt: &R,
    alloc: Global,
    bytes: &[u8],
) -> Result<Vec<Sequence<Reply>>, Fail> {
    let script = read(alloc, bytes).ok().ok_or("a script")?;
    let mut book = Book::new(alloc, 64);
    Ok(
        play_alone(rt, alloc, &mut book, &script)
            .ok()
            .ok_or("memory")?,
    )
}

/// The replies to the lines of session 1.
fn expected() -> Result<[Reply; 7], Fail> {
    let name = Name::of(b"b").ok_or("a name")?;
    Ok([
        Reply::Accepted { place: 0 },
        Reply::Published { place: 1 },
        Reply::Answer(Answer {
            spot: Spot::Shape { x: 3, y: 4 },
            front: 2,
        }),
        Reply::Idle { front: 2 },
        Reply::Refused(Refused {
            refusal: Refusal::Unknown { name },
            front: 2,
        }),
        Reply::Accepted { place: 2 },
        Reply::Refused(Refused {
            refusal: Refusal::NothingToUndo,
            front: 3,
        }),
    ])
}

#[test]
fn a_session_has_its_replies(rt: HostRuntime) -> Result<(), Fail> {
    let alloc = rt.alloc();
    let gate = CountingGate {
        passed: AtomicU64::new(0),
    };
    let expected = expected()?;
    let replies = played(&rt, alloc, &gate, LINES)?;
    assert_eq!(rt; replies.as_slice(), expected.as_slice());
    assert_eq!(rt; gate.passed.load(Ordering::SeqCst), 3);
    let lists = in_file_order(&rt, alloc, LINES)?;
    assert_eq!(rt;
        lists.first().map(Sequence::as_slice),
        Some(expected.as_slice())
    );
    Ok(())
}

#[test]
fn lines_of_others_are_passed_over(rt: HostRuntime) -> Result<(), Fail> {
    let alloc = rt.alloc();
    let gate = CountingGate {
        passed: AtomicU64::new(0),
    };
    let replies = played(&rt, alloc, &gate, LINES_OF_TWO)?;
    assert_eq!(rt; replies.as_slice(), expected()?.as_slice());
    assert_eq!(rt; gate.passed.load(Ordering::SeqCst), 3);
    Ok(())
}
