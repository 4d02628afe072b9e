//! The limits of a scene.
ghost use Rattle.std.specs.Prelude.{◌≡◌};
ghost use Rattle.scene_model.specs.Diagram.{most_of};
ghost use Rattle.edit_rules.specs.Naming.{row_names};
ghost use Rattle.edit_rules.specs.Refusals.{counted_as, first_of, members_refusal, count_refusal, full_refusal, limit_refusals};

use crate::naming::{NewItem, Row};
use crate::refusals::{Counted, Refusal};
use scene_model::{Scene, Sort};

/// The most members of a compound or group.
const MOST_MEMBERS: u32 = 64;

/// The first limit on members or sorts that the new item would pass.
pub fn limit_refusal(scene: &Scene, row: &Row, makes: &Option<NewItem>) -> Option<Refusal>
    ensures { result ≡ first_of (limit_refusals scene.now (row_names row.now) makes.now) }
{
    if let Some(refusal) = members_refusal(row) {
        return Some(refusal);
    }
    full_refusal(scene, makes)
}

/// More members than a compound or group may have.
fn members_refusal(row: &Row) -> Option<Refusal>
    ensures { result ≡ members_refusal (row_names row.now) }
{
    if row.len() <= MOST_MEMBERS as usize {
        return None;
    }
    Some(Refusal::Limit {
        what: Counted::Members,
        count: MOST_MEMBERS,
    })
}

/// The limit on the sort of the new item, where so many stand.
fn full_refusal(scene: &Scene, makes: &Option<NewItem>) -> Option<Refusal>
    ensures { result ≡ full_refusal scene.now makes.now }
{
    match makes {
        Some(item) => count_refusal(scene, item.sort),
        None => None,
    }
}

/// The limit on a sort, where so many stand.
fn count_refusal(scene: &Scene, sort: Sort) -> Option<Refusal>
    ensures { result ≡ count_refusal scene.now sort }
{
    let most = most_of(sort);
    if scene.count(sort) < most {
        return None;
    }
    Some(Refusal::Limit {
        what: counted_as(sort),
        count: u32::from(most),
    })
}

/// The most items of a sort that a diagram has.
fn most_of(sort: Sort) -> u16
    ensures { result ≡ most_of sort }
{
    match sort {
        Sort::Shape => 128,
        Sort::Guide => 64,
        Sort::Link => 256,
        Sort::Compound => 128,
        Sort::Group => 32,
        Sort::Page => 1,
    }
}

/// What the limit on a sort counts.
fn counted_as(sort: Sort) -> Counted
    ensures { result ≡ counted_as sort }
{
    match sort {
        Sort::Shape => Counted::Shapes,
        Sort::Guide => Counted::Guides,
        Sort::Link => Counted::Links,
        Sort::Compound => Counted::Compounds,
        Sort::Group => Counted::Groups,
        Sort::Page => Counted::Pages,
    }
}
