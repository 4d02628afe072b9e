//! How many separations there would be with an item more, without making it, the scene or the list.
ghost use Rattle.std.specs.Prelude.{◌≡◌, ◌≤◌, ℤ, Bool, length};
ghost use Rattle.scene_model.specs.declared.items.AlignLine.{AlignLine as Line};
ghost use Rattle.scene_model.specs.declared.items.Shape.{Shape};
ghost use Rattle.scene_model.specs.declared.items.Group.{Group};
ghost use Rattle.scene_model.specs.declared.items.Page.{Page};
ghost use Rattle.scene_model.specs.declared.items.Rule.TheVariants as rule;
ghost use Rattle.scene_model.specs.declared.items.Thing.TheVariants as thing;
ghost use Rattle.scene_model.specs.Names.{NameOf};
ghost use Rattle.scene_model.specs.Uses.{most_members};
ghost use Rattle.sep_gen.specs.Counted.{count_with};

use crate::counting::{count, of_aligned, of_apart, of_grouped, of_paged, of_row};
use scene_model::{Scene, Sort};
use units::{Axis, Members, Name};

/// How many separations the scene has on the axis with a further shape: two more where a page stands.
pub fn count_with_shape(scene: &Scene, axis: Axis) -> u32
    ensures { (shape : Shape) → result ≡ count_with scene.now axis (thing.Shape shape) }
{
    count(scene, axis) + 2 * u32::from(scene.count(Sort::Page))
}

/// How many separations the scene has on the axis with a further alignment of at most 64 members to the guideline.
pub fn count_with_align(scene: &Scene, axis: Axis, guide: &Name, members: &Members) -> u32
    requires { length members.now ≤ most_members }
    ensures { (name : NameOf) (line : Line)
        → result ≡ count_with scene.now axis (thing.Compound (record { name = name; rule = rule.Align guide.now line members.now })) }
{
    count(scene, axis) + of_aligned(scene, axis, guide, members)
}

/// How many separations the scene has on the axis with a further spread or rank, of its own axis, of at most 64 members.
pub fn count_with_row(scene: &Scene, axis: Axis, own: Axis, members: &Members) -> u32
    requires { length members.now ≤ most_members }
    ensures spread { (name : NameOf) (gap : ℤ)
        → result ≡ count_with scene.now axis (thing.Compound (record { name = name; rule = rule.Spread own gap members.now })) }
    ensures rank { (name : NameOf) (gap : ℤ)
        → result ≡ count_with scene.now axis (thing.Compound (record { name = name; rule = rule.Rank own gap members.now })) }
{
    count(scene, axis) + of_row(axis, own, members)
}

/// How many separations the scene has on the axis with two items more set apart on their own axis.
pub fn count_with_apart(scene: &Scene, axis: Axis, own: Axis) -> u32
    ensures { (name a b : NameOf) (gap : ℤ) (exact : Bool)
        → result ≡ count_with scene.now axis (thing.Compound (record { name = name; rule = rule.Apart own a b gap exact })) }
{
    count(scene, axis) + of_apart(axis, own)
}

/// How many separations the scene has on the axis with a further group of at most 64 members.
pub fn count_with_group(scene: &Scene, axis: Axis, members: &Members) -> u32
    requires { length members.now ≤ most_members }
    ensures { (group : Group) → group.members ≡ members.now → result ≡ count_with scene.now axis (thing.Group group) }
{
    count(scene, axis) + of_grouped(members)
}

/// How many separations the scene has on the axis with a further page.
pub fn count_with_page(scene: &Scene, axis: Axis, rigid: bool) -> u32
    ensures { (page : Page) → page.rigid ≡ rigid → result ≡ count_with scene.now axis (thing.Page page) }
{
    count(scene, axis) + of_paged(scene.count(Sort::Shape), rigid)
}
