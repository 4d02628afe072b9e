//! What the tests are made of: edits, as a script has them, and whether a scene accepts them.
use edit_rules::{Edit, Refusal, apply, check, has_moves_left};
use scene_model::Scene;
use script_text::{Command, read};
use std::alloc::Global;
use std::test::Fail;
use units::{Memory, Name};

pub fn name(text: &[u8]) -> Result<Name, Fail> {
    Ok(Name::of(text).ok_or("a name")?)
}

/// The edit of a line, without its session.
pub fn edit_of(alloc: Global, line: &str) -> Result<Edit, Fail> {
    let text = format!(in alloc; "dunnart 1\n1 {line}\nend\n")?;
    let script = read(alloc, text.as_bytes()).ok().ok_or("a script")?;
    let first = script.lines().first().ok_or("a line")?;
    match &first.command {
        Command::Edit(edit) => Ok(edit.copy(alloc)?),
        Command::Undo | Command::Layout | Command::Where(_) => Err("an edit".into()),
    }
}

/// Why the edit is refused, or None after it was applied.
fn play(scene: &mut Scene, edit: Edit) -> Result<Option<Refusal>, Memory> {
    if let Err(refusal) = check(scene, &edit) {
        return Ok(Some(refusal));
    }
    if !has_moves_left(scene, &edit) {
        return Err(Memory);
    }
    apply(scene, edit)?;
    Ok(None)
}

/// Applies the edit of a line, which the scene accepts.
pub fn draw(scene: &mut Scene, alloc: Global, line: &str) -> Result<(), Fail> {
    if play(scene, edit_of(alloc, line)?)?.is_some() {
        return Err("accepted".into());
    }
    Ok(())
}

/// Applies the edits of these lines, which the scene accepts.
pub fn draw_all(scene: &mut Scene, alloc: Global, lines: &[&str]) -> Result<(), Fail> {
    for line in lines {
        draw(scene, alloc, line)?;
    }
    Ok(())
}

/// Fails with this word where it doesn't hold.
pub fn expect(holds: bool, word: &str) -> Result<(), Fail> {
    if !holds {
        return Err(word.into());
    }
    Ok(())
}
