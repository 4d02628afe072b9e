//! Names of an edit that must differ.
ghost use Rattle.std.specs.Prelude.{◌≡◌, []};
ghost use Rattle.edit_rules.specs.Naming.{row_names};
ghost use Rattle.edit_rules.specs.Refusals.{first_twice, twice_among};

use crate::naming::Row;
use crate::refusals::Refusal;
use scene_model::is_among;
use units::Name;

/// The first name of the row that equals an earlier one.
pub fn twice_refusal(row: &Row) -> Option<Refusal>
    ensures { result ≡ twice_among (row_names row.now) }
{
    match row {
        Row::Nothing => None,
        Row::Pair(a, b) => twice_among(&[*a, *b]),
        Row::Members(names) => twice_among(names),
    }
}

fn twice_among(names: &[Name]) -> Option<Refusal>
    ensures { result ≡ twice_among names.now }
{
    let name = first_twice(names)?;
    Some(Refusal::Twice { name })
}

/// The first of the names that equals an earlier one.
fn first_twice(names: &[Name]) -> Option<Name>
    ensures { result ≡ first_twice [] names.now }
{
    for at in 0..names.len() {
        let name = names[at];
        if is_among(&names[..at], &name) {
            return Some(name);
        }
    }
    None
}
