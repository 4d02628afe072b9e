//! Edits that can be met and edits that can't: on which axis, and how many arcs the cycle has, of which so many are taken
//! back. Each row has one positive cycle on that axis; expected values are by the sums of the gaps round it.
use doc_book::{Book, Refused};
use edit_rules::{Edit, Refusal, Walk};
use script_text::{Command, Line, read};
use std::alloc::Global;
use std::test::Fail;
use units::Axis;

/// What an edit is answered.
#[derive(Clone, Copy, PartialEq, Eq)]
enum Answered {
    Entered,
    Infeasible {
        axis: Axis,
        arcs: usize,
        back: usize,
    },
    Otherwise,
}

const fn infeasible(axis: Axis, arcs: usize, back: usize) -> Answered {
    Answered::Infeasible { axis, arcs, back }
}

fn count_back(walk: &Walk) -> usize {
    let mut count: usize = 0;
    for arc in walk.arcs() {
        if arc.back {
            count = count.wrapping_add(1);
        }
    }
    count
}

/// What the book answers to the edit.
fn answer_to(alloc: Global, book: &mut Book, edit: Edit) -> Answered {
    match book.edit(alloc, 1, 2, edit) {
        Ok(_) => Answered::Entered,
        Err(Refused { refusal, .. }) => match &refusal {
            Refusal::Infeasible { axis, walk } => {
                infeasible(*axis, walk.arcs().len(), count_back(walk))
            }
            _ => Answered::Otherwise,
        },
    }
}

/// Enters the edits of these lines, each of which is answered so.
fn enter(alloc: Global, book: &mut Book, lines: &[Line], answers: &[Answered]) -> Result<(), Fail> {
    if lines.len() != answers.len() {
        return Err("an answer to each line".into());
    }
    for (line, wanted) in lines.iter().zip(answers) {
        let Command::Edit(edit) = &line.command else {
            return Err("an edit".into());
        };
        if answer_to(alloc, book, edit.copy(alloc)?) != *wanted {
            return Err("another answer".into());
        }
    }
    Ok(())
}

/// Enters the edits of a script into an empty document; each is answered so.
fn are_answered(alloc: Global, script: &[u8], answers: &[Answered]) -> Result<(), Fail> {
    let script = read(alloc, script).ok().ok_or("a script")?;
    let mut book = Book::new(alloc, 64);
    enter(alloc, &mut book, script.lines(), answers)
}

const TWO_SEPARATIONS: &[u8] = b"\
dunnart 1
1 box a 0 0 40 10
1 box b 40 0 40 10
1 apart s x a b 10 least
1 apart t x b a -9 least
1 apart t x b a -10 least
1 apart u y a b 10 exact
1 apart v y a b 11 least
1 drop u
1 apart v y a b 11 least
end
";

#[test]
fn cycles_of_two_separations(rt: HostRuntime) -> Result<(), Fail> {
    let answers = [
        Answered::Entered,
        Answered::Entered,
        Answered::Entered,
        infeasible(Axis::X, 2, 0),
        Answered::Entered,
        Answered::Entered,
        infeasible(Axis::Y, 2, 1),
        Answered::Entered,
        Answered::Entered,
    ];
    are_answered(rt.alloc(), TWO_SEPARATIONS, &answers)
}

// A page that is too narrow, too low, and both.
const RIGID_PAGE: &[u8] = b"\
dunnart 1
1 box a 0 0 40 10
1 page p 0 0 39 9 0 rigid
1 page p 0 0 39 10 0 rigid
1 page p 0 0 40 9 0 rigid
1 box b 40 0 40 10
1 box c 80 0 40 10
1 rank r x 40 a b c
1 page p 0 0 100 100 0 rigid
1 page p 0 0 120 100 0 rigid
end
";

#[test]
fn cycles_through_a_rigid_page(rt: HostRuntime) -> Result<(), Fail> {
    let answers = [
        Answered::Entered,
        infeasible(Axis::X, 3, 1),
        infeasible(Axis::X, 3, 1),
        infeasible(Axis::Y, 3, 1),
        Answered::Entered,
        Answered::Entered,
        Answered::Entered,
        infeasible(Axis::X, 5, 1),
        Answered::Entered,
    ];
    are_answered(rt.alloc(), RIGID_PAGE, &answers)
}
