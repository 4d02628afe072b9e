//! Reading scripts.
ghost use Rattle.std.specs.Prelude.{ℕ, ◌≡◌, ◌∷◌, [], ◌+◌, ◌≤◌, List, codes, None, Some, MatchResult, IfOk, IfErr};
ghost use Rattle.script_text.specs.Pieces.{pieces};
ghost use Rattle.script_text.specs.Scripts.{IsScript, Spells};
ghost use Rattle.script_text.specs.Faults.{IsCause, IsFault};
ghost use Rattle.script_text.specs.Reading.{body_pieces, script_pieces, fault_at, last_kind, header_stop, end_stop, StopsBehind, Stops, Answers};
ghost use Rattle.script_text.specs.declared.scripts.Line.{Line};
ghost use Rattle.script_text.specs.declared.faults.ScriptFault.{ScriptFault as FaultValue};
ghost use Rattle.script_text.specs.declared.faults.ReadFault.TheVariants as cause;

use crate::faults::{FaultKind, LineFault, ReadFault, ScriptFault};
use crate::lines::line;
use crate::pieces::Pieces;
use crate::scripts::{Line, Script};
use std::alloc::Global;

/// The fault of this kind in the line of this number.
fn fault(line: usize, kind: FaultKind) -> ReadFault
    requires { line ≤ 2003 }
    ensures { result ≡ cause.Fault (fault_at line kind) }
{
    ReadFault::Fault(ScriptFault {
        line: line as u32,
        kind,
    })
}

/// The bytes end before or within this line.
fn cut_off(bytes: &[u8]) -> FaultKind
    ensures { result ≡ last_kind bytes.now }
{
    if bytes.is_empty() {
        FaultKind::Missing
    } else {
        FaultKind::Cut
    }
}

/// Nothing follows `end`, which stands behind `before` command lines.
fn close(lines: &mut Pieces<'_>, before: usize) -> Result<(), ReadFault>
    requires { before ≤ 2000 }
    ensures { MatchResult result (λ _. end_stop before lines.old ≡ None) (λ e. Answers (λ f. end_stop before lines.old ≡ Some f) e) }
{
    match lines.next() {
        Some([]) if lines.is_done() => Ok(()),
        _ => Err(fault(before + 3, FaultKind::After)),
    }
}

/// The command lines up to the line `end`.
fn commands(alloc: Global, lines: &mut Pieces<'_>) -> Result<Vec<Line>, ReadFault>
    requires { lines.old ≡ [] → ⊥ }
    ensures { MatchResult result (λ v. IsScript v.items × (lines.old ≡ body_pieces v.items)) (λ e. Answers (λ f. StopsBehind lines.old f) e) }
{
    let mut script = Vec::new(alloc);
    while let Some(bytes) = lines.next() {
        let before = script.len();
        if lines.is_done() {
            return Err(fault(before + 2, cut_off(bytes)));
        }
        if bytes == b"end".as_slice() {
            close(lines, before)?;
            return Ok(script);
        }
        let line = match line(alloc, before, bytes) {
            Ok(line) => line,
            Err(LineFault::Kind(kind)) => return Err(fault(before + 2, kind)),
            Err(LineFault::Memory) => return Err(ReadFault::Memory),
        };
        script.push(line)?;
    }
    Err(fault(1, FaultKind::Missing))
}

/// The header's line.
fn header(lines: &mut Pieces<'_>) -> Result<(), ReadFault>
    ensures { MatchResult result (λ _. (lines.old ≡ codes "dunnart 1" ∷ lines.new) × (lines.new ≡ [] → ⊥)) (λ e. Answers (λ f. header_stop lines.old ≡ Some f) e) }
{
    let Some(bytes) = lines.next() else {
        return Err(fault(1, FaultKind::Missing));
    };
    if lines.is_done() {
        return Err(fault(1, cut_off(bytes)));
    }
    if bytes != b"dunnart 1".as_slice() {
        return Err(fault(1, FaultKind::Header));
    }
    Ok(())
}

/// All lines of a script.
fn all_lines(alloc: Global, bytes: &[u8]) -> Result<Vec<Line>, ReadFault>
    ensures { MatchResult result (λ v. IsScript v.items × (pieces 10 bytes.now ≡ script_pieces v.items)) (λ e. Answers (λ f. Stops (pieces 10 bytes.now) f) e) }
{
    let mut lines = Pieces::new(bytes, b'\n');
    header(&mut lines)?;
    commands(alloc, &mut lines)
}

/// The script that the bytes spell: the line `dunnart 1`, at most 2,000 command lines, and the line `end`, each
/// with a LF, and nothing behind them. A command line is the session's digit and a command, its words divided by
/// one space. A fault comes exactly where the bytes spell no script. Its line is the one behind the greatest number
/// of whole first lines with which some script begins; its kind is the first that holds.
pub fn read(alloc: Global, bytes: &[u8]) -> Result<Script, ReadFault>
    // What is read is spelled so.
    ensures spelled { IfOk result (λ script. Spells bytes.now script) }
    // What is spelled so is read, unless memory runs out.
    ensures found { (lines : List Line) → Spells bytes.now lines → MatchResult result (λ script. script ≡ lines) (λ e. e ≡ cause.Memory) }
    // A fault is that of the bytes, which spell no script.
    ensures fault { IfErr result (λ e. IsCause bytes.now e) }
{
    Ok(Script::of(all_lines(alloc, bytes)?))
}

/// The law that bytes spell at most one script.
pub fn one_script()
    ensures { (bytes : List ℕ) (a b : List Line) → Spells bytes a → Spells bytes b → a ≡ b }
{}

/// The law that bytes have at most one fault.
pub fn one_fault()
    ensures { (bytes : List ℕ) (a b : FaultValue) → IsFault bytes a → IsFault bytes b → a ≡ b }
{}
