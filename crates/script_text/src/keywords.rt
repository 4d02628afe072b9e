//! The words of commands: one table for the reader and the printer.
ghost use Rattle.std.specs.Prelude.{◌≡◌, ◌++◌, OnOk};
ghost use Rattle.script_text.specs.Keywords.{keyword_word};
ghost use Rattle.script_text.specs.Commands.{form_keyword, edit_keyword};
ghost use Rattle.script_text.specs.Reading.{keyword_of};

use edit_rules::Edit;
use keyword_table::{Words, arms};
use scene_model::Form;
use std::alloc::AllocError;

/// The word of a command.
#[derive(Clone, Copy, Debug, PartialEq, Eq)]
pub enum Keyword {
    Box,
    Oval,
    Diamond,
    Size,
    Move,
    Shift,
    Hold,
    Free,
    Remove,
    Link,
    Unlink,
    Guide,
    Align,
    Spread,
    Rank,
    Apart,
    Group,
    Page,
    Drop,
    Undo,
    Layout,
    Where,
}

// The one table of the words of commands.
macro_rules! keywords {
    ($($ask:tt)*) => {
        arms!(($($ask)*)
            b"box" => Keyword::Box,
            b"oval" => Keyword::Oval,
            b"diamond" => Keyword::Diamond,
            b"size" => Keyword::Size,
            b"move" => Keyword::Move,
            b"shift" => Keyword::Shift,
            b"hold" => Keyword::Hold,
            b"free" => Keyword::Free,
            b"remove" => Keyword::Remove,
            b"link" => Keyword::Link,
            b"unlink" => Keyword::Unlink,
            b"guide" => Keyword::Guide,
            b"align" => Keyword::Align,
            b"spread" => Keyword::Spread,
            b"rank" => Keyword::Rank,
            b"apart" => Keyword::Apart,
            b"group" => Keyword::Group,
            b"page" => Keyword::Page,
            b"drop" => Keyword::Drop,
            b"undo" => Keyword::Undo,
            b"layout" => Keyword::Layout,
            b"where" => Keyword::Where,
        )
    };
}

/// The command with this word, if there is one.
pub fn read_keyword(word: &[u8]) -> Option<Keyword>
    ensures { result ≡ keyword_of word.now }
{
    let words = Words::<22>::new(&keywords!(words));
    keywords!(read words.find(word))
}

/// Adds the word of a command.
pub fn add_keyword(text: &mut Vec<u8>, keyword: Keyword) -> Result<(), AllocError>
    ensures { OnOk result (text.new.items ≡ text.old.items ++ keyword_word keyword) }
{
    let words = Words::<22>::new(&keywords!(words));
    text.extend_from_slice(words.word(keywords!(print keyword)))?;
    Ok(())
}

fn form_keyword(form: Form) -> Keyword
    ensures { result ≡ form_keyword form }
{
    match form {
        Form::Box => Keyword::Box,
        Form::Oval => Keyword::Oval,
        Form::Diamond => Keyword::Diamond,
    }
}

/// The command of an edit; that of a new shape is the one of its form.
pub fn edit_keyword(edit: &Edit) -> Keyword
    ensures { result ≡ edit_keyword edit.now }
{
    match edit {
        Edit::Put { form, .. } => form_keyword(*form),
        Edit::Size { .. } => Keyword::Size,
        Edit::Move { .. } => Keyword::Move,
        Edit::Shift { .. } => Keyword::Shift,
        Edit::Hold { .. } => Keyword::Hold,
        Edit::Free { .. } => Keyword::Free,
        Edit::Remove { .. } => Keyword::Remove,
        Edit::Join { .. } => Keyword::Link,
        Edit::Unlink { .. } => Keyword::Unlink,
        Edit::Guide { .. } => Keyword::Guide,
        Edit::Align { .. } => Keyword::Align,
        Edit::Spread { .. } => Keyword::Spread,
        Edit::Rank { .. } => Keyword::Rank,
        Edit::Apart { .. } => Keyword::Apart,
        Edit::Group { .. } => Keyword::Group,
        Edit::Page { .. } => Keyword::Page,
        Edit::Drop { .. } => Keyword::Drop,
    }
}
