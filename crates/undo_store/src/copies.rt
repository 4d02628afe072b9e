//! Copies of items.
ghost use Rattle.std.specs.Prelude.{◌≡◌, Some, IfOk, IsSome};
ghost use Rattle.scene_model.specs.Items.{thing_at};

use scene_model::{Compound, Group, Item, Scene, Sort, Thing};
use std::alloc::Global;
use units::Memory;

/// An item equal to this one.
pub fn copy_of(alloc: Global, thing: &Thing) -> Result<Thing, Memory>
    ensures { IfOk result (λ copy. copy ≡ thing.now) }
{
    let copy = match thing {
        Thing::Shape(shape) => Thing::Shape(*shape),
        Thing::Guide(guide) => Thing::Guide(*guide),
        Thing::Link(link) => Thing::Link(*link),
        Thing::Compound(compound) => Thing::Compound(copy_of_compound(alloc, compound)?),
        Thing::Group(group) => Thing::Group(copy_of_group(alloc, group)?),
        Thing::Page(page) => Thing::Page(*page),
    };
    Ok(copy)
}

/// An item equal to the one of this sort and number, which stands.
pub fn copy_of_item(alloc: Global, scene: &Scene, item: Item) -> Result<Thing, Memory>
    requires { IsSome (thing_at scene.now item.sort item.at) }
    ensures { IfOk result (λ copy. thing_at scene.now item.sort item.at ≡ Some copy) }
{
    // Asked for what its type keeps, which the proof needs.
    let _pages = scene.count(Sort::Page);
    match item.sort {
        Sort::Shape => Ok(Thing::Shape(*scene.shape(item.at))),
        Sort::Guide => Ok(Thing::Guide(*scene.guide(item.at))),
        Sort::Link => Ok(Thing::Link(*scene.link(item.at))),
        Sort::Compound => Ok(Thing::Compound(copy_of_compound(alloc, scene.compound(item.at))?)),
        Sort::Group => Ok(Thing::Group(copy_of_group(alloc, scene.group(item.at))?)),
        Sort::Page => Ok(Thing::Page(*scene.page().unwrap())),
    }
}

fn copy_of_compound(alloc: Global, compound: &Compound) -> Result<Compound, Memory>
    ensures { IfOk result (λ copy. copy ≡ compound.now) }
{
    Ok(Compound {
        name: compound.name,
        rule: compound.rule.copy(alloc)?,
    })
}

fn copy_of_group(alloc: Global, group: &Group) -> Result<Group, Memory>
    ensures { IfOk result (λ copy. copy ≡ group.now) }
{
    Ok(Group {
        name: group.name,
        pad: group.pad,
        members: group.members.copy(alloc)?,
        low: group.low,
        high: group.high,
    })
}
