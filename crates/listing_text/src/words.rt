//! Words of a line.
ghost use Rattle.std.specs.Prelude.{◌≡◌, ◌∷◌, ◌++◌, [], decimal, OnOk};
ghost use Rattle.std.specs.Fmt.{signed_decimal};
ghost use Rattle.script_text.specs.Grammar.{axis_word};
ghost use Rattle.doc_book.specs.Listing.{fraction_word};

use frac128::Frac;
use itoa::Buffer;
use std::alloc::AllocError;
use units::Axis;

/// Adds a space and the word.
pub fn add_word(text: &mut Vec<u8>, word: &[u8]) -> Result<(), AllocError>
    ensures { OnOk result (text.new.items ≡ text.old.items ++ 32 ∷ word.now) }
{
    text.push(b' ')?;
    text.extend_from_slice(word)?;
    Ok(())
}

/// Adds a space and the count.
pub fn add_count(text: &mut Vec<u8>, count: u32) -> Result<(), AllocError>
    ensures { OnOk result (text.new.items ≡ text.old.items ++ 32 ∷ decimal count) }
{
    let mut buffer = Buffer::new();
    add_word(text, buffer.format(count).as_bytes())
}

/// Adds a space and the number, with `-` before it below 0.
pub fn add_number(text: &mut Vec<u8>, number: i64) -> Result<(), AllocError>
    ensures { OnOk result (text.new.items ≡ text.old.items ++ 32 ∷ signed_decimal number) }
{
    let mut buffer = Buffer::new();
    add_word(text, buffer.format(number).as_bytes())
}

/// Adds a space and the fraction, as N where its denominator is 1, else as N/D.
pub fn add_fraction(text: &mut Vec<u8>, fraction: &Frac) -> Result<(), AllocError>
    ensures { OnOk result (text.new.items ≡ text.old.items ++ 32 ∷ fraction_word fraction.now) }
{
    let mut buffer = Buffer::new();
    add_word(text, buffer.format(fraction.num()).as_bytes())?;
    if fraction.unsigned_den() != 1 {
        text.push(b'/')?;
        add_digits(text, fraction.unsigned_den())?;
    }
    Ok(())
}

/// Adds the digits of the number.
fn add_digits(text: &mut Vec<u8>, number: u64) -> Result<(), AllocError>
    ensures { OnOk result (text.new.items ≡ text.old.items ++ decimal number) }
{
    let mut buffer = Buffer::new();
    text.extend_from_slice(buffer.format(number).as_bytes())
}

/// Begins a line with the number.
pub fn begin_with(text: &mut Vec<u8>, number: usize) -> Result<(), AllocError>
    ensures { OnOk result (text.new.items ≡ text.old.items ++ decimal number) }
{
    let mut buffer = Buffer::new();
    text.extend_from_slice(buffer.format(number).as_bytes())
}

/// The word of an axis.
pub fn axis_word(axis: Axis) -> &'static [u8]
    ensures { result.now ≡ axis_word axis }
{
    match axis {
        Axis::X => b"x",
        Axis::Y => b"y",
    }
}
