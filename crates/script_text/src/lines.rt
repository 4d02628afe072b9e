//! Reading command lines.
ghost use Rattle.std.specs.Prelude.{◌≡◌, ◌+◌, ◌≤◌, Ok, Err, MatchResult};
ghost use Rattle.script_text.specs.Reading.{line_at, line_parts, AnswersKind};

use crate::edits::command;
use crate::faults::{FaultKind, LineFault};
use crate::pieces::Pieces;
use crate::scripts::Line;
use std::alloc::Global;

/// The most bytes of a line, without its LF.
const LONGEST: usize = 2048;

/// The most command lines of a script.
const MOST_LINES: usize = 2000;

/// The digit of the last session.
const LAST_SESSION: u8 = b'8';

/// The command line behind `before` others.
pub fn line(alloc: Global, before: usize, bytes: &[u8]) -> Result<Line, LineFault>
    requires { before ≤ 2000 }
    ensures { MatchResult result (λ l. (line_at before bytes.now ≡ Ok (line_parts l)) × (l.number ≡ before + 2)) (λ e. AnswersKind (λ f. line_at before bytes.now ≡ Err f) e) }
{
    if bytes.len() > LONGEST {
        return Err(LineFault::Kind(FaultKind::Long));
    }
    if before >= MOST_LINES {
        return Err(LineFault::Kind(FaultKind::TooMany));
    }
    if bytes.len() < 2 || !(b'1'..=LAST_SESSION).contains(&bytes[0]) || bytes[1] != b' ' {
        return Err(LineFault::Kind(FaultKind::Session));
    }
    let mut words = Pieces::new(&bytes[2..], b' ');
    let command = command(alloc, &mut words)?;
    Ok(Line {
        number: before as u32 + 2,
        session: bytes[0] - b'0',
        command,
    })
}
