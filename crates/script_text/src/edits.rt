//! Reading edits by their fields, and commands.
ghost use Rattle.std.specs.Prelude.{◌≡◌, [], ◌∷◌, Some, None, MatchOption, MatchResult, IfOk, Ok, Err};
ghost use Rattle.script_text.specs.Commands.{NameField, NumberField, ChoiceField, MembersField, edit_keyword, edit_fields, form_keyword};
ghost use Rattle.script_text.specs.Grammar.{AxisChoice, axis_word, put_slots, pair_slots, shift_slots, guide_slots, name_slots, link_slots, align_slots, row_slots, apart_slots, group_slots, page_slots};
ghost use Rattle.script_text.specs.Reading.{fields_at, parts, command_at, AnswersKind};
ghost use Rattle.script_text.specs.declared.keywords.Keyword.TheVariants as keyword;
ghost use Rattle.script_text.specs.declared.scripts.Command.TheVariants as commands;
ghost use Rattle.script_text.specs.declared.faults.FaultKind.TheVariants as kind;
ghost use Rattle.script_text.specs.declared.faults.LineFault.TheVariants as no_line;

use crate::faults::{FaultKind, LineFault};
use crate::fields::{
    align_line_field, axis_field, end, exact_field, members_field, name_field, number_field,
    rigid_field,
};
use crate::keywords::{Keyword, read_keyword};
use crate::pieces::Pieces;
use crate::scripts::Command;
use edit_rules::Edit;
use scene_model::Form;
use std::alloc::Global;
use units::{Axis, Members, Memory, Name};

fn put(form: Form, words: &mut Pieces<'_>) -> Option<Edit>
    ensures { MatchOption result (fields_at put_slots words.old ≡ None)
        (λ e. (edit_keyword e ≡ form_keyword form) × (fields_at put_slots words.old ≡ Some (edit_fields e))) }
{
    let edit = Edit::Put {
        name: name_field(words)?,
        form,
        x: number_field(words)?,
        y: number_field(words)?,
        w: number_field(words)?,
        h: number_field(words)?,
    };
    end(words)?;
    Some(edit)
}

fn size(words: &mut Pieces<'_>) -> Option<Edit>
    ensures { MatchOption result (fields_at pair_slots words.old ≡ None)
        (λ e. (edit_keyword e ≡ keyword.Size) × (fields_at pair_slots words.old ≡ Some (edit_fields e))) }
{
    let edit = Edit::Size {
        name: name_field(words)?,
        w: number_field(words)?,
        h: number_field(words)?,
    };
    end(words)?;
    Some(edit)
}

fn corner(words: &mut Pieces<'_>) -> Option<Edit>
    ensures { MatchOption result (fields_at pair_slots words.old ≡ None)
        (λ e. (edit_keyword e ≡ keyword.Move) × (fields_at pair_slots words.old ≡ Some (edit_fields e))) }
{
    let edit = Edit::Move {
        name: name_field(words)?,
        x: number_field(words)?,
        y: number_field(words)?,
    };
    end(words)?;
    Some(edit)
}

fn shift(words: &mut Pieces<'_>) -> Option<Edit>
    ensures { MatchOption result (fields_at shift_slots words.old ≡ None)
        (λ e. (edit_keyword e ≡ keyword.Shift) × (fields_at shift_slots words.old ≡ Some (edit_fields e))) }
{
    let edit = Edit::Shift {
        name: name_field(words)?,
        at: number_field(words)?,
    };
    end(words)?;
    Some(edit)
}

fn guide(words: &mut Pieces<'_>) -> Option<Edit>
    ensures { MatchOption result (fields_at guide_slots words.old ≡ None)
        (λ e. (edit_keyword e ≡ keyword.Guide) × (fields_at guide_slots words.old ≡ Some (edit_fields e))) }
{
    let edit = Edit::Guide {
        name: name_field(words)?,
        axis: axis_field(words)?,
        at: number_field(words)?,
    };
    end(words)?;
    Some(edit)
}

/// A name, and no word behind it.
fn one_name(words: &mut Pieces<'_>) -> Option<Name>
    ensures { MatchOption result (fields_at name_slots words.old ≡ None)
        (λ n. fields_at name_slots words.old ≡ Some (NameField n ∷ [])) }
{
    let name = name_field(words)?;
    end(words)?;
    Some(name)
}

fn hold(words: &mut Pieces<'_>) -> Option<Edit>
    ensures { MatchOption result (fields_at name_slots words.old ≡ None)
        (λ e. (edit_keyword e ≡ keyword.Hold) × (fields_at name_slots words.old ≡ Some (edit_fields e))) }
{
    let name = one_name(words)?;
    Some(Edit::Hold { name })
}

fn free(words: &mut Pieces<'_>) -> Option<Edit>
    ensures { MatchOption result (fields_at name_slots words.old ≡ None)
        (λ e. (edit_keyword e ≡ keyword.Free) × (fields_at name_slots words.old ≡ Some (edit_fields e))) }
{
    let name = one_name(words)?;
    Some(Edit::Free { name })
}

fn remove(words: &mut Pieces<'_>) -> Option<Edit>
    ensures { MatchOption result (fields_at name_slots words.old ≡ None)
        (λ e. (edit_keyword e ≡ keyword.Remove) × (fields_at name_slots words.old ≡ Some (edit_fields e))) }
{
    let name = one_name(words)?;
    Some(Edit::Remove { name })
}

fn unlink(words: &mut Pieces<'_>) -> Option<Edit>
    ensures { MatchOption result (fields_at name_slots words.old ≡ None)
        (λ e. (edit_keyword e ≡ keyword.Unlink) × (fields_at name_slots words.old ≡ Some (edit_fields e))) }
{
    let name = one_name(words)?;
    Some(Edit::Unlink { name })
}

fn drop_item(words: &mut Pieces<'_>) -> Option<Edit>
    ensures { MatchOption result (fields_at name_slots words.old ≡ None)
        (λ e. (edit_keyword e ≡ keyword.Drop) × (fields_at name_slots words.old ≡ Some (edit_fields e))) }
{
    let name = one_name(words)?;
    Some(Edit::Drop { name })
}

fn link(words: &mut Pieces<'_>) -> Option<Edit>
    ensures { MatchOption result (fields_at link_slots words.old ≡ None)
        (λ e. (edit_keyword e ≡ keyword.Link) × (fields_at link_slots words.old ≡ Some (edit_fields e))) }
{
    let edit = Edit::Join {
        name: name_field(words)?,
        a: name_field(words)?,
        b: name_field(words)?,
    };
    end(words)?;
    Some(edit)
}

fn apart(words: &mut Pieces<'_>) -> Option<Edit>
    ensures { MatchOption result (fields_at apart_slots words.old ≡ None)
        (λ e. (edit_keyword e ≡ keyword.Apart) × (fields_at apart_slots words.old ≡ Some (edit_fields e))) }
{
    let edit = Edit::Apart {
        name: name_field(words)?,
        axis: axis_field(words)?,
        a: name_field(words)?,
        b: name_field(words)?,
        gap: number_field(words)?,
        exact: exact_field(words)?,
    };
    end(words)?;
    Some(edit)
}

fn page(words: &mut Pieces<'_>) -> Option<Edit>
    ensures { MatchOption result (fields_at page_slots words.old ≡ None)
        (λ e. (edit_keyword e ≡ keyword.Page) × (fields_at page_slots words.old ≡ Some (edit_fields e))) }
{
    let edit = Edit::Page {
        name: name_field(words)?,
        x: number_field(words)?,
        y: number_field(words)?,
        w: number_field(words)?,
        h: number_field(words)?,
        margin: number_field(words)?,
        rigid: rigid_field(words)?,
    };
    end(words)?;
    Some(edit)
}

fn align(alloc: Global, words: &mut Pieces<'_>) -> Result<Option<Edit>, Memory>
    ensures { IfOk result (λ o. MatchOption o (fields_at align_slots words.old ≡ None)
        (λ e. (edit_keyword e ≡ keyword.Align) × (fields_at align_slots words.old ≡ Some (edit_fields e)))) }
{
    let Some(name) = name_field(words) else {
        return Ok(None);
    };
    let Some(guide) = name_field(words) else {
        return Ok(None);
    };
    let Some(line) = align_line_field(words) else {
        return Ok(None);
    };
    let Some(members) = members_field(alloc, words)? else {
        return Ok(None);
    };
    Ok(Some(Edit::Align {
        name,
        guide,
        line,
        members,
    }))
}

/// What stands behind the words of a spread and of a rank.
#[derive(Drop)]
struct RowFields {
    name: Name,
    axis: Axis,
    gap: i32,
    members: Members,
}

fn row(alloc: Global, words: &mut Pieces<'_>) -> Result<Option<RowFields>, Memory>
    ensures { IfOk result (λ o. MatchOption o (fields_at row_slots words.old ≡ None)
        (λ r. fields_at row_slots words.old ≡ Some (NameField r.name ∷ ChoiceField AxisChoice (axis_word r.axis) ∷ NumberField r.gap ∷ MembersField r.members ∷ []))) }
{
    let Some(name) = name_field(words) else {
        return Ok(None);
    };
    let Some(axis) = axis_field(words) else {
        return Ok(None);
    };
    let Some(gap) = number_field(words) else {
        return Ok(None);
    };
    let Some(members) = members_field(alloc, words)? else {
        return Ok(None);
    };
    Ok(Some(RowFields {
        name,
        axis,
        gap,
        members,
    }))
}

fn spread(alloc: Global, words: &mut Pieces<'_>) -> Result<Option<Edit>, Memory>
    ensures { IfOk result (λ o. MatchOption o (fields_at row_slots words.old ≡ None)
        (λ e. (edit_keyword e ≡ keyword.Spread) × (fields_at row_slots words.old ≡ Some (edit_fields e)))) }
{
    let Some(row) = row(alloc, words)? else {
        return Ok(None);
    };
    Ok(Some(Edit::Spread {
        name: row.name,
        axis: row.axis,
        gap: row.gap,
        members: row.members,
    }))
}

fn rank(alloc: Global, words: &mut Pieces<'_>) -> Result<Option<Edit>, Memory>
    ensures { IfOk result (λ o. MatchOption o (fields_at row_slots words.old ≡ None)
        (λ e. (edit_keyword e ≡ keyword.Rank) × (fields_at row_slots words.old ≡ Some (edit_fields e)))) }
{
    let Some(row) = row(alloc, words)? else {
        return Ok(None);
    };
    Ok(Some(Edit::Rank {
        name: row.name,
        axis: row.axis,
        gap: row.gap,
        members: row.members,
    }))
}

fn group(alloc: Global, words: &mut Pieces<'_>) -> Result<Option<Edit>, Memory>
    ensures { IfOk result (λ o. MatchOption o (fields_at group_slots words.old ≡ None)
        (λ e. (edit_keyword e ≡ keyword.Group) × (fields_at group_slots words.old ≡ Some (edit_fields e)))) }
{
    let Some(name) = name_field(words) else {
        return Ok(None);
    };
    let Some(pad) = number_field(words) else {
        return Ok(None);
    };
    let Some(members) = members_field(alloc, words)? else {
        return Ok(None);
    };
    Ok(Some(Edit::Group { name, pad, members }))
}

/// The command of the edit whose fields were read.
fn edit_command(edit: Option<Edit>) -> Result<Command, LineFault>
    ensures { MatchOption edit (result ≡ Err (no_line.Kind kind.Fields)) (λ e. result ≡ Ok (commands.Edit e)) }
{
    let edit = edit.ok_or(FaultKind::Fields)?;
    Ok(Command::Edit(edit))
}

/// The command with these words.
pub fn command(alloc: Global, words: &mut Pieces<'_>) -> Result<Command, LineFault>
    ensures { MatchResult result (λ c. command_at words.old ≡ Ok (parts c)) (λ e. AnswersKind (λ f. command_at words.old ≡ Err f) e) }
{
    let word = words.next().ok_or(FaultKind::Command)?;
    let keyword = read_keyword(word).ok_or(FaultKind::Command)?;
    match keyword {
        Keyword::Box => edit_command(put(Form::Box, words)),
        Keyword::Oval => edit_command(put(Form::Oval, words)),
        Keyword::Diamond => edit_command(put(Form::Diamond, words)),
        Keyword::Size => edit_command(size(words)),
        Keyword::Move => edit_command(corner(words)),
        Keyword::Shift => edit_command(shift(words)),
        Keyword::Hold => edit_command(hold(words)),
        Keyword::Free => edit_command(free(words)),
        Keyword::Remove => edit_command(remove(words)),
        Keyword::Link => edit_command(link(words)),
        Keyword::Unlink => edit_command(unlink(words)),
        Keyword::Guide => edit_command(guide(words)),
        Keyword::Align => edit_command(align(alloc, words)?),
        Keyword::Spread => edit_command(spread(alloc, words)?),
        Keyword::Rank => edit_command(rank(alloc, words)?),
        Keyword::Apart => edit_command(apart(words)),
        Keyword::Group => edit_command(group(alloc, words)?),
        Keyword::Page => edit_command(page(words)),
        Keyword::Drop => edit_command(drop_item(words)),
        Keyword::Undo => {
            end(words).ok_or(FaultKind::Fields)?;
            Ok(Command::Undo)
        }
        Keyword::Layout => {
            end(words).ok_or(FaultKind::Fields)?;
            Ok(Command::Layout)
        }
        Keyword::Where => {
            let name = one_name(words).ok_or(FaultKind::Fields)?;
            Ok(Command::Where(name))
        }
    }
}
