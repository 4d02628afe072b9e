//! Reading the fields of a command.
ghost use Rattle.std.specs.Prelude.{◌≡◌, [], false, true, Some, None, MatchOption, IfOk};
ghost use Rattle.std.specs.List.{list_all};
ghost use Rattle.units.specs.Name.{is_name};
ghost use Rattle.script_text.specs.Commands.{NameField, NumberField, ChoiceField, MembersField};
ghost use Rattle.script_text.specs.Grammar.{AxisChoice, AlignLineChoice, ExactnessChoice, StiffnessChoice, NameSlot, NumberSlot, ChoiceSlot, MembersSlot, axis_word, align_word, exact_word, rigid_word};
ghost use Rattle.script_text.specs.Reading.{field_at, ends_at};

use crate::choices::{read_align_line, read_axis, read_exact, read_rigid};
use crate::numbers::number;
use crate::pieces::Pieces;
use scene_model::AlignLine;
use std::alloc::Global;
use units::{Axis, Members, Memory, Name};

/// A name.
pub fn name_field(words: &mut Pieces<'_>) -> Option<Name>
    ensures { MatchOption result (field_at NameSlot words.old ≡ None) (λ n. field_at NameSlot words.old ≡ Some (NameField n, words.new)) }
{
    Name::of(words.next()?)
}

/// A number.
pub fn number_field(words: &mut Pieces<'_>) -> Option<i32>
    ensures { MatchOption result (field_at NumberSlot words.old ≡ None) (λ z. field_at NumberSlot words.old ≡ Some (NumberField z, words.new)) }
{
    number(words.next()?)
}

/// The word of an axis.
pub fn axis_field(words: &mut Pieces<'_>) -> Option<Axis>
    ensures { MatchOption result (field_at (ChoiceSlot AxisChoice) words.old ≡ None)
        (λ a. field_at (ChoiceSlot AxisChoice) words.old ≡ Some (ChoiceField AxisChoice (axis_word a), words.new)) }
{
    read_axis(words.next()?)
}

/// The word of a shape's line.
pub fn align_line_field(words: &mut Pieces<'_>) -> Option<AlignLine>
    ensures { MatchOption result (field_at (ChoiceSlot AlignLineChoice) words.old ≡ None)
        (λ l. field_at (ChoiceSlot AlignLineChoice) words.old ≡ Some (ChoiceField AlignLineChoice (align_word l), words.new)) }
{
    read_align_line(words.next()?)
}

/// The word for exactly a gap, or for at least a gap.
pub fn exact_field(words: &mut Pieces<'_>) -> Option<bool>
    ensures { MatchOption result (field_at (ChoiceSlot ExactnessChoice) words.old ≡ None)
        (λ e. field_at (ChoiceSlot ExactnessChoice) words.old ≡ Some (ChoiceField ExactnessChoice (exact_word e), words.new)) }
{
    read_exact(words.next()?)
}

/// The word for a page that keeps its size, or for one that may grow.
pub fn rigid_field(words: &mut Pieces<'_>) -> Option<bool>
    ensures { MatchOption result (field_at (ChoiceSlot StiffnessChoice) words.old ≡ None)
        (λ r. field_at (ChoiceSlot StiffnessChoice) words.old ≡ Some (ChoiceField StiffnessChoice (rigid_word r), words.new)) }
{
    read_rigid(words.next()?)
}

/// All words that are left, where each is a name.
fn names(alloc: Global, words: &mut Pieces<'_>) -> Result<Option<Vec<Name>>, Memory>
    ensures { IfOk result (λ o. MatchOption o (list_all is_name words.old ≡ false)
        (λ names. (list_all is_name words.old ≡ true) × (names.items ≡ words.old) × (words.new ≡ []))) }
{
    let mut names = Vec::new(alloc);
    while let Some(word) = words.next() {
        let Some(name) = Name::of(word) else {
            return Ok(None);
        };
        names.push(name)?;
    }
    Ok(Some(names))
}

/// All words that are left, where they are one name or more.
pub fn members_field(alloc: Global, words: &mut Pieces<'_>) -> Result<Option<Members>, Memory>
    ensures { IfOk result (λ o. MatchOption o (field_at MembersSlot words.old ≡ None)
        (λ members. field_at MembersSlot words.old ≡ Some (MembersField members, words.new))) }
{
    let Some(names) = names(alloc, words)? else {
        return Ok(None);
    };
    Ok(Members::of(names))
}

/// No word is left.
pub fn end(words: &Pieces<'_>) -> Option<()>
    ensures { MatchOption result (ends_at words.now ≡ None) (λ _. ends_at words.now ≡ Some []) }
{
    if words.is_done() { Some(()) } else { None }
}
