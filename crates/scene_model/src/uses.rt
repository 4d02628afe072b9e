//! What items use other items.
ghost use Rattle.std.specs.Prelude.{◌≡◌, ◌&&◌, List, map, find};
ghost use Rattle.std.specs.List.{list_any};
ghost use Rattle.std.specs.Option.{option_map};
ghost use Rattle.scene_model.specs.Names.{same_name, same_axis};
ghost use Rattle.scene_model.specs.Uses.{has_shape, has_guide, has_guide_on, stands_as, Use, is_used_in, rule_uses, User, user_of};

use crate::items::{Compound, Group, Guide, Link, Rule};
use crate::naming::{HasName, NamedItems};
use crate::scene::Scene;
use units::{Axis, Name};

/// What a name that an item uses must stand as.
#[derive(Clone, Copy, Debug, PartialEq, Eq)]
pub enum Wanted {
    Shape,
    Guide,
    /// A shape, or a guideline of this axis.
    Placed(Axis),
}

impl Scene {
    /// Whether the name stands as what is wanted.
    pub fn stands_as(&self, wanted: Wanted, name: &Name) -> bool
        ensures { result ≡ stands_as self.now.shapes self.now.guides wanted name.now }
    {
        match wanted {
            Wanted::Shape => self.has_shape(name),
            Wanted::Guide => self.has_guide(name),
            Wanted::Placed(axis) => self.has_shape(name) || self.has_guide_on(axis, name),
        }
    }

    /// Whether a guideline of this name stands and has this axis.
    pub fn has_guide_on(&self, axis: Axis, name: &Name) -> bool
        ensures { result ≡ has_guide_on axis self.now.guides name.now }
    {
        has_guide_on(&self.guides, axis, name)
    }

    fn has_shape(&self, name: &Name) -> bool
        ensures { result ≡ has_shape self.now.shapes name.now }
    {
        self.shapes.has(name)
    }

    fn has_guide(&self, name: &Name) -> bool
        ensures { result ≡ has_guide self.now.guides name.now }
    {
        self.guides.has(name)
    }

    /// The name of the first item that uses the item of this name: the first among the links, then among the compounds,
    /// then among the groups, each in the order of making. None exactly where no item uses it.
    pub fn user_of(&self, name: &Name) -> Option<Name>
        ensures { result ≡ user_of self.now name.now }
    {
        let link = first_user(&self.links, name);
        let compound = first_user(&self.compounds, name);
        let group = first_user(&self.groups, name);
        link.or(compound).or(group)
    }
}

fn has_guide_on(guides: &NamedItems<Guide>, axis: Axis, name: &Name) -> bool
    ensures { result ≡ has_guide_on axis guides.now name.now }
{
    for number in 0..guides.len() {
        if is_guide_on(guides.at(number).unwrap(), axis, name) {
            return true;
        }
    }
    false
}

fn is_guide_on(guide: &Guide, axis: Axis, name: &Name) -> bool
    ensures { result ≡ (same_name name.now guide.now.name && same_axis guide.now.axis axis) }
{
    *name == guide.name && guide.axis == axis
}

/// What uses other items by name.
pub trait Uses: Sized {
    /// What it uses.
    ghost uses_of: { Self → List Use };

    /// Whether it uses the item of this name.
    fn uses(&self, name: &Name) -> bool
        ensures { result ≡ is_used_in (uses_of self.now) name.now };
}

/// Whether the name is among the names.
pub fn is_among(names: &[Name], name: &Name) -> bool
    ensures { result ≡ list_any (same_name name.now) names.now }
{
    names.contains(name)
}

impl Uses for Link {
    ghost use Rattle.scene_model.specs.Uses.{link_uses};

    ghost uses_of = { link_uses };

    fn uses(&self, name: &Name) -> bool {
        *name == self.a || *name == self.b
    }
}

impl Uses for Compound {
    ghost use Rattle.scene_model.specs.declared.items.Compound.{Compound};
    ghost use Rattle.scene_model.specs.Uses.{rule_uses};

    ghost uses_of = { λ (c : Compound). rule_uses c.rule };

    fn uses(&self, name: &Name) -> bool {
        rule_uses(&self.rule, name)
    }
}

#[tactic(auto, using(crate::proofs::Using::used_each))]
fn rule_uses(rule: &Rule, name: &Name) -> bool
    ensures { result ≡ is_used_in (rule_uses rule.now) name.now }
{
    match rule {
        Rule::Align { guide, members, .. } => name == guide || is_among(members.list(), name),
        Rule::Spread { members, .. } => is_among(members.list(), name),
        Rule::Rank { members, .. } => is_among(members.list(), name),
        Rule::Apart { a, b, .. } => name == a || name == b,
    }
}

impl Uses for Group {
    ghost use Rattle.scene_model.specs.Uses.{group_uses};

    ghost uses_of = { group_uses };

    #[tactic(auto, using(crate::proofs::Using::used_each))]
    fn uses(&self, name: &Name) -> bool {
        is_among(self.members.list(), name)
    }
}

/// The name of the first of the items that uses the item of this name.
fn first_user<T: HasName + Uses>(items: &NamedItems<T>, name: &Name) -> Option<Name>
    ensures { result ≡ option_map (λ (u : User). u.name) (find (λ (u : User). is_used_in u.uses name.now) (map (λ x. record { name = T.name_of x; uses = T.uses_of x }) items.now)) }
{
    for number in 0..items.len() {
        let item = items.at(number).unwrap();
        if item.uses(name) {
            return Some(item.name());
        }
    }
    None
}
