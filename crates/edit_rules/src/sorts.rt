//! What the names of an edit stand as.
ghost use Rattle.std.specs.Prelude.{◌≡◌, find, not};
ghost use Rattle.edit_rules.specs.Naming.{is_sort_of, has_sort_of, is_of_kind, each_as, naming_of, row_names};
ghost use Rattle.edit_rules.specs.Refusals.{kind_among};

use crate::naming::{Kind, Names, Row};
use crate::refusals::Refusal;
use scene_model::{Scene, Sort, Wanted};
use units::Name;

/// Whether an item of this sort is of the kind, wherever it is placed.
fn is_sort_of(kind: Kind, sort: Sort) -> bool
    ensures { result ≡ is_sort_of kind sort }
{
    match kind {
        Kind::Shape => matches!(sort, Sort::Shape),
        Kind::Guide => matches!(sort, Sort::Guide),
        Kind::Placed(_) => matches!(sort, Sort::Shape | Sort::Guide),
        Kind::ShapeOrGuide => matches!(sort, Sort::Shape | Sort::Guide),
        Kind::Link => matches!(sort, Sort::Link),
        Kind::Constraint => matches!(sort, Sort::Compound | Sort::Group | Sort::Page),
    }
}

/// Whether the item of this name is of such a sort.
fn has_sort_of(scene: &Scene, kind: Kind, name: &Name) -> bool
    ensures { result ≡ has_sort_of scene.now kind name.now }
{
    match scene.lookup(name) {
        Some(item) => is_sort_of(kind, item.sort),
        None => false,
    }
}

/// Whether the name stands as what is wanted.
fn is_of_kind(scene: &Scene, kind: Kind, name: &Name) -> bool
    ensures { result ≡ is_of_kind scene.now kind name.now }
{
    match kind {
        Kind::Placed(axis) => scene.stands_as(Wanted::Placed(axis), name),
        Kind::Shape => has_sort_of(scene, Kind::Shape, name),
        Kind::Guide => has_sort_of(scene, Kind::Guide, name),
        Kind::ShapeOrGuide => has_sort_of(scene, Kind::ShapeOrGuide, name),
        Kind::Link => has_sort_of(scene, Kind::Link, name),
        Kind::Constraint => has_sort_of(scene, Kind::Constraint, name),
    }
}

/// The first name that stands as another kind than is wanted.
pub fn kind_refusal(scene: &Scene, names: &Names) -> Option<Refusal>
    ensures { result ≡ kind_among scene.now (naming_of names.now).asks }
{
    if let Some(ask) = &names.first {
        if !is_of_kind(scene, ask.kind, &ask.name) {
            return Some(Refusal::Kind { name: ask.name });
        }
    }
    kind_in_row(scene, names.kind, &names.row)
}

fn kind_in_row(scene: &Scene, kind: Kind, row: &Row) -> Option<Refusal>
    ensures { result ≡ kind_among scene.now (each_as kind (row_names row.now)) }
{
    match row {
        Row::Nothing => None,
        Row::Pair(a, b) => first_other_kind(scene, kind, &[*a, *b]),
        Row::Members(names) => first_other_kind(scene, kind, names),
    }
}

/// The first of the names that stands as another kind than is wanted.
#[tactic(auto, using(crate::proofs::ListedNames::kind_of_each))]
fn first_other_kind(scene: &Scene, kind: Kind, names: &[Name]) -> Option<Refusal>
    ensures { result ≡ kind_among scene.now (each_as kind names.now) }
{
    let name = first_unfit(scene, kind, names)?;
    Some(Refusal::Kind { name })
}

fn first_unfit(scene: &Scene, kind: Kind, names: &[Name]) -> Option<Name>
    ensures { result ≡ find (λ name. not (is_of_kind scene.now kind name)) names.now }
{
    for at in 0..names.len() {
        let name = names[at];
        if !is_of_kind(scene, kind, &name) {
            return Some(name);
        }
    }
    None
}
