//! Whether two scenes are the same.
ghost use Rattle.std.specs.Prelude.{◌<◌};
ghost use Rattle.scene_model.specs.Items.{count_of};

use scene_model::{Scene, Sort};

/// Whether the items of this sort and number are equal.
fn is_same(one: &Scene, other: &Scene, sort: Sort, at: u16) -> bool
    requires in_one { at < count_of one.now sort }
    requires in_other { at < count_of other.now sort }
{
    match sort {
        Sort::Shape => *one.shape(at) == *other.shape(at),
        Sort::Guide => *one.guide(at) == *other.guide(at),
        Sort::Link => *one.link(at) == *other.link(at),
        Sort::Compound => *one.compound(at) == *other.compound(at),
        Sort::Group => *one.group(at) == *other.group(at),
        Sort::Page => one.page() == other.page(),
    }
}

/// Whether the items of this sort are equal, in order.
fn have_same(one: &Scene, other: &Scene, sort: Sort) -> bool {
    let count = one.count(sort);
    if other.count(sort) != count {
        return false;
    }
    for at in 0..count {
        if !is_same(one, other, sort, at) {
            return false;
        }
    }
    true
}

/// Whether all items are equal, in order.
pub fn are_same(one: &Scene, other: &Scene) -> bool {
    have_same(one, other, Sort::Shape)
        && have_same(one, other, Sort::Guide)
        && have_same(one, other, Sort::Link)
        && have_same(one, other, Sort::Compound)
        && have_same(one, other, Sort::Group)
        && have_same(one, other, Sort::Page)
}
