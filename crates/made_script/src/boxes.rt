//! Names of items.
ghost use Rattle.std.specs.Prelude.{◌≡◌, ◌<◌, ◌^◌, IsTrue};
ghost use Rattle.units.specs.Name.{is_letter};
ghost use Rattle.made_script.specs.Draws.{after};
ghost use Rattle.made_script.specs.Steps.{box_of, item_name, one_box, other_box};

use crate::draws::Draws;
use itoa::Buffer;
use units::Name;

/// The name of a letter and a number.
pub fn item_name(letter: u8, number: u32) -> Name
    requires letter { IsTrue (is_letter letter) }
    requires small { number < 10 ^ 9 }
    ensures { result ≡ item_name letter number }
{
    let mut buffer = Buffer::new();
    let digits = buffer.format(number).as_bytes();
    let mut bytes = [letter; 24];
    bytes[1..=digits.len()].copy_from_slice(digits);
    Name::of(&bytes[..=digits.len()]).unwrap()
}

/// The name of a box.
pub fn box_of(number: u32) -> Name
    requires { number < 10 ^ 9 }
    ensures { result ≡ box_of number }
{
    item_name(b'b', number)
}

/// The names of two different boxes.
pub fn two_boxes(draws: &mut Draws) -> (Name, Name)
    ensures state { draws.new.state ≡ after 2 draws.old.state }
    ensures one { result.0 ≡ one_box (after 1 draws.old.state) }
    ensures other { result.1 ≡ other_box (after 1 draws.old.state) (after 2 draws.old.state) }
{
    let first = draws.below(96);
    let second = draws.below(95);
    (box_of(first + 1), box_of((first + 1 + second) % 96 + 1))
}
