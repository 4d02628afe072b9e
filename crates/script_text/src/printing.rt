//! The texts of commands and of scripts.
ghost use Rattle.std.specs.Prelude.{ℕ, ◌≡◌, ◌≤◌, List, ◌∷◌, ◌++◌, [], OnOk, IfOk};
ghost use Rattle.std.specs.Fmt.{signed_decimal};
ghost use Rattle.script_text.specs.Words.{spaced, behind};
ghost use Rattle.script_text.specs.Keywords.{keyword_word};
ghost use Rattle.script_text.specs.Grammar.{axis_word, align_word, exact_word, rigid_word};
ghost use Rattle.script_text.specs.Commands.{edit_words, command_words};
ghost use Rattle.script_text.specs.Scripts.{Spells, line_text, with_lf};
ghost use Rattle.script_text.specs.declared.scripts.Line.{Line as LineValue};
ghost use Rattle.script_text.specs.declared.keywords.Keyword.TheVariants as keyword;

use crate::choices::{align_word, axis_word, exact_word, rigid_word};
use crate::keywords::{Keyword, add_keyword, edit_keyword};
use crate::scripts::{Command, Line, Script};
use edit_rules::Edit;
use scene_model::AlignLine;
use std::alloc::{AllocError, Global};
use units::{Axis, Members, Memory, Name};

/// Adds a space and the word.
fn add_word(text: &mut Vec<u8>, word: &[u8]) -> Result<(), AllocError>
    ensures { OnOk result (text.new.items ≡ text.old.items ++ 32 ∷ word.now) }
{
    text.push(b' ')?;
    text.extend_from_slice(word)?;
    Ok(())
}

/// Adds a space and the number.
fn add_number(alloc: Global, text: &mut Vec<u8>, number: i32) -> Result<(), AllocError>
    ensures { OnOk result (text.new.items ≡ text.old.items ++ 32 ∷ signed_decimal number) }
{
    let digits = format!(in alloc; "{number}")?;
    add_word(text, digits.as_bytes())
}

/// Adds the names, each with a space before it.
fn add_names(text: &mut Vec<u8>, names: &[Name]) -> Result<(), AllocError>
    ensures { OnOk result (text.new.items ≡ text.old.items ++ behind names.now) }
{
    for name in names {
        add_word(text, name.bytes())?;
    }
    Ok(())
}

/// The text of a command without fields.
fn word_text(alloc: Global, keyword: Keyword) -> Result<Vec<u8>, Memory>
    ensures { IfOk result (λ text. text.items ≡ spaced (keyword_word keyword ∷ [])) }
{
    let mut text = Vec::new(alloc);
    add_keyword(&mut text, keyword)?;
    Ok(text)
}

/// The text of a command with a name.
fn name_text(alloc: Global, keyword: Keyword, name: &Name) -> Result<Vec<u8>, Memory>
    ensures { IfOk result (λ text. text.items ≡ spaced (keyword_word keyword ∷ name.now ∷ [])) }
{
    let mut text = word_text(alloc, keyword)?;
    add_word(&mut text, name.bytes())?;
    Ok(text)
}

/// The text of a command with a name and a number.
fn number_text(alloc: Global, keyword: Keyword, name: &Name, number: i32) -> Result<Vec<u8>, Memory>
    ensures { IfOk result (λ text. text.items ≡ spaced (keyword_word keyword ∷ name.now ∷ signed_decimal number ∷ [])) }
{
    let mut text = name_text(alloc, keyword, name)?;
    add_number(alloc, &mut text, number)?;
    Ok(text)
}

/// The text of a command with a name and two numbers.
fn pair_text(
    alloc: Global,
    keyword: Keyword,
    name: &Name,
    first: i32,
    second: i32,
) -> Result<Vec<u8>, Memory>
    ensures { IfOk result (λ text. text.items
        ≡ spaced (keyword_word keyword ∷ name.now ∷ signed_decimal first ∷ signed_decimal second ∷ [])) }
{
    let mut text = number_text(alloc, keyword, name, first)?;
    add_number(alloc, &mut text, second)?;
    Ok(text)
}

/// The text of a command with a name and four numbers.
fn put_text(
    alloc: Global,
    keyword: Keyword,
    name: &Name,
    x: i32,
    y: i32,
    w: i32,
    h: i32,
) -> Result<Vec<u8>, Memory>
    ensures { IfOk result (λ text. text.items ≡ spaced (keyword_word keyword ∷ name.now ∷ signed_decimal x
        ∷ signed_decimal y ∷ signed_decimal w ∷ signed_decimal h ∷ [])) }
{
    let mut text = pair_text(alloc, keyword, name, x, y)?;
    add_number(alloc, &mut text, w)?;
    add_number(alloc, &mut text, h)?;
    Ok(text)
}

/// The text of a page.
fn page_text(
    alloc: Global,
    name: &Name,
    x: i32,
    y: i32,
    w: i32,
    h: i32,
    margin: i32,
    rigid: bool,
) -> Result<Vec<u8>, Memory>
    ensures { IfOk result (λ text. text.items ≡ spaced (keyword_word keyword.Page ∷ name.now ∷ signed_decimal x
        ∷ signed_decimal y ∷ signed_decimal w ∷ signed_decimal h ∷ signed_decimal margin ∷ rigid_word rigid ∷ [])) }
{
    let mut text = put_text(alloc, Keyword::Page, name, x, y, w, h)?;
    add_number(alloc, &mut text, margin)?;
    add_word(&mut text, rigid_word(rigid))?;
    Ok(text)
}

/// The text of a link.
fn link_text(alloc: Global, name: &Name, a: &Name, b: &Name) -> Result<Vec<u8>, Memory>
    ensures { IfOk result (λ text. text.items ≡ spaced (keyword_word keyword.Link ∷ name.now ∷ a.now ∷ b.now ∷ [])) }
{
    let mut text = name_text(alloc, Keyword::Link, name)?;
    add_word(&mut text, a.bytes())?;
    add_word(&mut text, b.bytes())?;
    Ok(text)
}

/// The text of a command with a name, an axis and a number.
fn axis_text(
    alloc: Global,
    keyword: Keyword,
    name: &Name,
    axis: Axis,
    number: i32,
) -> Result<Vec<u8>, Memory>
    ensures { IfOk result (λ text. text.items
        ≡ spaced (keyword_word keyword ∷ name.now ∷ axis_word axis ∷ signed_decimal number ∷ [])) }
{
    let mut text = name_text(alloc, keyword, name)?;
    add_word(&mut text, axis_word(axis))?;
    add_number(alloc, &mut text, number)?;
    Ok(text)
}

/// The text of a command with a name, an axis, a number and members.
fn row_text(
    alloc: Global,
    keyword: Keyword,
    name: &Name,
    axis: Axis,
    gap: i32,
    members: &Members,
) -> Result<Vec<u8>, Memory>
    ensures { IfOk result (λ text. text.items
        ≡ spaced (keyword_word keyword ∷ name.now ∷ axis_word axis ∷ signed_decimal gap ∷ members.now)) }
{
    let mut text = axis_text(alloc, keyword, name, axis, gap)?;
    add_names(&mut text, members.list())?;
    Ok(text)
}

/// The text of an alignment.
fn align_text(
    alloc: Global,
    name: &Name,
    guide: &Name,
    line: AlignLine,
    members: &Members,
) -> Result<Vec<u8>, Memory>
    ensures { IfOk result (λ text. text.items
        ≡ spaced (keyword_word keyword.Align ∷ name.now ∷ guide.now ∷ align_word line ∷ members.now)) }
{
    let mut text = name_text(alloc, Keyword::Align, name)?;
    add_word(&mut text, guide.bytes())?;
    add_word(&mut text, align_word(line))?;
    add_names(&mut text, members.list())?;
    Ok(text)
}

/// The text of a separation of two.
fn apart_text(
    alloc: Global,
    name: &Name,
    axis: Axis,
    a: &Name,
    b: &Name,
    gap: i32,
    exact: bool,
) -> Result<Vec<u8>, Memory>
    ensures { IfOk result (λ text. text.items ≡ spaced (keyword_word keyword.Apart ∷ name.now ∷ axis_word axis ∷ a.now ∷ b.now
        ∷ signed_decimal gap ∷ exact_word exact ∷ [])) }
{
    let mut text = name_text(alloc, Keyword::Apart, name)?;
    add_word(&mut text, axis_word(axis))?;
    add_word(&mut text, a.bytes())?;
    add_word(&mut text, b.bytes())?;
    add_number(alloc, &mut text, gap)?;
    add_word(&mut text, exact_word(exact))?;
    Ok(text)
}

/// The text of a group.
fn group_text(alloc: Global, name: &Name, pad: i32, members: &Members) -> Result<Vec<u8>, Memory>
    ensures { IfOk result (λ text. text.items
        ≡ spaced (keyword_word keyword.Group ∷ name.now ∷ signed_decimal pad ∷ members.now)) }
{
    let mut text = number_text(alloc, Keyword::Group, name, pad)?;
    add_names(&mut text, members.list())?;
    Ok(text)
}

/// The text of an edit: its word and its fields, divided by one space, as in a script, without the
/// session and without LF.
pub fn edit_text(alloc: Global, edit: &Edit) -> Result<Vec<u8>, Memory>
    ensures { IfOk result (λ text. text.items ≡ spaced (edit_words edit.now)) }
{
    let keyword = edit_keyword(edit);
    match edit {
        Edit::Put {
            name,
            x,
            y,
            w,
            h,
            ..
        } => put_text(alloc, keyword, name, *x, *y, *w, *h),
        Edit::Size { name, w, h } => pair_text(alloc, keyword, name, *w, *h),
        Edit::Move { name, x, y } => pair_text(alloc, keyword, name, *x, *y),
        Edit::Shift { name, at } => number_text(alloc, keyword, name, *at),
        Edit::Hold { name }
        | Edit::Free { name }
        | Edit::Remove { name }
        | Edit::Unlink { name }
        | Edit::Drop { name } => name_text(alloc, keyword, name),
        Edit::Join { name, a, b } => link_text(alloc, name, a, b),
        Edit::Guide { name, axis, at } => axis_text(alloc, keyword, name, *axis, *at),
        Edit::Align {
            name,
            guide,
            line,
            members,
        } => align_text(alloc, name, guide, *line, members),
        Edit::Spread {
            name,
            axis,
            gap,
            members,
        }
        | Edit::Rank {
            name,
            axis,
            gap,
            members,
        } => row_text(alloc, keyword, name, *axis, *gap, members),
        Edit::Apart {
            name,
            axis,
            a,
            b,
            gap,
            exact,
        } => apart_text(alloc, name, *axis, a, b, *gap, *exact),
        Edit::Group { name, pad, members } => group_text(alloc, name, *pad, members),
        Edit::Page {
            name,
            x,
            y,
            w,
            h,
            margin,
            rigid,
        } => page_text(alloc, name, *x, *y, *w, *h, *margin, *rigid),
    }
}

/// The text of a command: its word and its fields, divided by one space, as in a script, without the session and
/// without LF.
pub fn command_text(alloc: Global, command: &Command) -> Result<Vec<u8>, Memory>
    ensures { IfOk result (λ text. text.items ≡ spaced (command_words command.now)) }
{
    match command {
        Command::Edit(edit) => edit_text(alloc, edit),
        Command::Undo => word_text(alloc, Keyword::Undo),
        Command::Layout => word_text(alloc, Keyword::Layout),
        Command::Where(name) => name_text(alloc, Keyword::Where, name),
    }
}

/// Adds the line with its LF.
fn add_line(alloc: Global, text: &mut Vec<u8>, line: &Line) -> Result<(), Memory>
    requires { line.now.session ≤ 8 }
    ensures { OnOk result (text.new.items ≡ text.old.items ++ with_lf (line_text line.now)) }
{
    let command = command_text(alloc, &line.command)?;
    text.push(b'0' + line.session)?;
    text.push(b' ')?;
    text.extend_from_slice(&command)?;
    text.push(b'\n')?;
    Ok(())
}

/// The bytes of a script: they spell it, and no others do.
pub fn print(alloc: Global, script: &Script) -> Result<Vec<u8>, Memory>
    ensures { IfOk result (λ bytes. Spells bytes.items script.now) }
{
    let mut text = Vec::from_slice(alloc, b"dunnart 1\n")?;
    for line in script.lines() {
        add_line(alloc, &mut text, line)?;
    }
    text.extend_from_slice(b"end\n")?;
    Ok(text)
}

/// The law that a script has one spelling.
pub fn one_spelling()
    ensures { (a b : List ℕ) (lines : List LineValue) → Spells a lines → Spells b lines → a ≡ b }
{}
