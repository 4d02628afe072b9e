//! Whether the names of an edit stand: names that must, the name of a new item, and who uses an item.
ghost use Rattle.std.specs.Prelude.{◌≡◌, map, if◌then◌else◌, None, Some};
ghost use Rattle.std.specs.Option.{option_map};
ghost use Rattle.scene_model.specs.Items.{stands};
ghost use Rattle.scene_model.specs.Uses.{user_of};
ghost use Rattle.edit_rules.specs.declared.naming.Ask.{Ask as AskValue};
ghost use Rattle.edit_rules.specs.declared.refusals.Refusal.TheVariants.{Taken, InUse};
ghost use Rattle.edit_rules.specs.Naming.{naming_of, row_names};
ghost use Rattle.edit_rules.specs.Refusals.{unknown_among, taken_refusal, in_use_refusal};

use crate::naming::{Names, NewItem, Row};
use crate::refusals::Refusal;
use scene_model::Scene;
use units::Name;

/// Whether an item of this name stands.
fn stands(scene: &Scene, name: &Name) -> bool
    ensures { result ≡ stands scene.now name.now }
{
    scene.lookup(name).is_some()
}

/// The first name that must stand and doesn't.
#[tactic(auto, using(crate::proofs::ListedNames::names_of_each))]
pub fn unknown_refusal(scene: &Scene, names: &Names) -> Option<Refusal>
    ensures { result ≡ unknown_among scene.now (map (λ (ask : AskValue). ask.name) (naming_of names.now).asks) }
{
    if let Some(ask) = &names.first {
        if !stands(scene, &ask.name) {
            return Some(Refusal::Unknown { name: ask.name });
        }
    }
    unknown_in_row(scene, &names.row)
}

fn unknown_in_row(scene: &Scene, row: &Row) -> Option<Refusal>
    ensures { result ≡ unknown_among scene.now (row_names row.now) }
{
    match row {
        Row::Nothing => None,
        Row::Pair(a, b) => first_unknown(scene, &[*a, *b]),
        Row::Members(names) => first_unknown(scene, names),
    }
}

/// The first of the names that doesn't stand.
fn first_unknown(scene: &Scene, names: &[Name]) -> Option<Refusal>
    ensures { result ≡ unknown_among scene.now names.now }
{
    let name = names.iter().find(|name| !stands(scene, name))?;
    Some(Refusal::Unknown { name: *name })
}

/// The name of the new item, where it stands already.
pub fn taken_refusal(scene: &Scene, makes: &Option<NewItem>) -> Option<Refusal>
    ensures { result ≡ taken_refusal scene.now makes.now }
{
    match makes {
        Some(item) => taken(scene, &item.name),
        None => None,
    }
}

fn taken(scene: &Scene, name: &Name) -> Option<Refusal>
    ensures { result ≡ (if stands scene.now name.now then Some (Taken name.now) else None) }
{
    if !stands(scene, name) {
        return None;
    }
    Some(Refusal::Taken { name: *name })
}

/// The first item that uses the one that no other may use.
pub fn in_use_refusal(scene: &Scene, frees: &Option<Name>) -> Option<Refusal>
    ensures { result ≡ in_use_refusal scene.now frees.now }
{
    match frees {
        Some(name) => used(scene, name),
        None => None,
    }
}

fn used(scene: &Scene, name: &Name) -> Option<Refusal>
    ensures { result ≡ option_map InUse (user_of scene.now name.now) }
{
    let by = scene.user_of(name)?;
    Some(Refusal::InUse { by })
}
