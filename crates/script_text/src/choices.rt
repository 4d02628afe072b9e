//! The words of choices: a table for each choice, for the reader and the printer.
ghost use Rattle.std.specs.Prelude.{◌≡◌, false, MatchOption};
ghost use Rattle.script_text.specs.Grammar.{AxisChoice, AlignLineChoice, ExactnessChoice, StiffnessChoice, is_choice, axis_word, align_word, exact_word, rigid_word};

use keyword_table::{Words, arms};
use scene_model::AlignLine;
use units::Axis;

/// At least a gap, or exactly that.
#[derive(Clone, Copy)]
enum Exactness {
    Least,
    Exact,
}

/// Whether a page may grow.
#[derive(Clone, Copy)]
enum Stiffness {
    Soft,
    Rigid,
}

// The one table of the words of axes.
macro_rules! axes {
    ($($ask:tt)*) => {
        arms!(($($ask)*)
            b"x" => Axis::X,
            b"y" => Axis::Y,
        )
    };
}

// The one table of the words of a shape's lines.
macro_rules! align_lines {
    ($($ask:tt)*) => {
        arms!(($($ask)*)
            b"low" => AlignLine::Low,
            b"mid" => AlignLine::Mid,
            b"high" => AlignLine::High,
        )
    };
}

macro_rules! exactnesses {
    ($($ask:tt)*) => {
        arms!(($($ask)*)
            b"least" => Exactness::Least,
            b"exact" => Exactness::Exact,
        )
    };
}

macro_rules! stiffnesses {
    ($($ask:tt)*) => {
        arms!(($($ask)*)
            b"soft" => Stiffness::Soft,
            b"rigid" => Stiffness::Rigid,
        )
    };
}

/// The axis with this word, if there is one.
pub fn read_axis(word: &[u8]) -> Option<Axis>
    ensures { MatchOption result (is_choice AxisChoice word.now ≡ false) (λ a. word.now ≡ axis_word a) }
{
    let words = Words::<2>::new(&axes!(words));
    axes!(read words.find(word))
}

/// A shape's line with this word, if there is one.
pub fn read_align_line(word: &[u8]) -> Option<AlignLine>
    ensures { MatchOption result (is_choice AlignLineChoice word.now ≡ false) (λ l. word.now ≡ align_word l) }
{
    let words = Words::<3>::new(&align_lines!(words));
    align_lines!(read words.find(word))
}

/// Whether the word says exactly a gap, or at least a gap; None where it is neither word.
pub fn read_exact(word: &[u8]) -> Option<bool>
    ensures { MatchOption result (is_choice ExactnessChoice word.now ≡ false) (λ e. word.now ≡ exact_word e) }
{
    let words = Words::<2>::new(&exactnesses!(words));
    match exactnesses!(read words.find(word))? {
        Exactness::Least => Some(false),
        Exactness::Exact => Some(true),
    }
}

/// Whether the word says that a page keeps its size, or that it may grow; None where it is neither word.
pub fn read_rigid(word: &[u8]) -> Option<bool>
    ensures { MatchOption result (is_choice StiffnessChoice word.now ≡ false) (λ r. word.now ≡ rigid_word r) }
{
    let words = Words::<2>::new(&stiffnesses!(words));
    match stiffnesses!(read words.find(word))? {
        Stiffness::Soft => Some(false),
        Stiffness::Rigid => Some(true),
    }
}

/// The word of an axis.
pub fn axis_word(axis: Axis) -> &'static [u8]
    ensures { result.now ≡ axis_word axis }
{
    let words: [&'static [u8]; 2] = axes!(words);
    words[axes!(print axis)]
}

/// The word of a shape's line.
pub fn align_word(line: AlignLine) -> &'static [u8]
    ensures { result.now ≡ align_word line }
{
    let words: [&'static [u8]; 3] = align_lines!(words);
    words[align_lines!(print line)]
}

/// The word for exactly a gap, or for at least a gap.
pub fn exact_word(exact: bool) -> &'static [u8]
    ensures { result.now ≡ exact_word exact }
{
    let words: [&'static [u8]; 2] = exactnesses!(words);
    let exactness = if exact {
        Exactness::Exact
    } else {
        Exactness::Least
    };
    words[exactnesses!(print exactness)]
}

/// The word for a page that keeps its size, or for one that may grow.
pub fn rigid_word(rigid: bool) -> &'static [u8]
    ensures { result.now ≡ rigid_word rigid }
{
    let words: [&'static [u8]; 2] = stiffnesses!(words);
    let stiffness = if rigid {
        Stiffness::Rigid
    } else {
        Stiffness::Soft
    };
    words[stiffnesses!(print stiffness)]
}
