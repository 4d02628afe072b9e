//! Whether a placement meets the constraints of a scene.
ghost use Rattle.std.specs.Prelude.{◌≡◌, ◌↔◌, ◌<◌, ◌≤ℤ◌, ◌<ℤ◌, ◌^◌, IsTrue, pos, nat_abs, length, All};
ghost use Rattle.std.specs.List.{AllByRecursion};
ghost use Rattle.scene_model.specs.Names.{AllNeighbours};
ghost use Rattle.scene_model.specs.Meaning.{IsOnGuide, IsBehind, IsExactlyBehind, IsAtLeastBehind, IsWithin, MeetsRule, MeetsCompound, MeetsGroup, IsOnPage, MeetsPage, Fits};
ghost use Rattle.scene_model.specs.Sound.{HasGap, IsCoordinate, IsBorder, IsPage};
ghost use Rattle.scene_model.specs.Variables.{variables};
ghost use Rattle.compound_sense.specs.Placed.{IsPlaced, IsNear};

use crate::placed::Placed;
use scene_model::{AlignLine, Group, Page, Rule, Scene, Sort};
use units::{Axis, Name};

/// Whether the placement fits the scene on the axis: variable i stands at `places[i] / q`. There is a place for each
/// variable, within 2^60 of 0, and q is at least 1 and below 2^30.
pub fn holds(scene: &Scene, axis: Axis, places: &[i64], q: i64) -> bool
    requires as_long { length places.now ≡ length (variables scene.now axis) }
    requires above { pos 1 ≤ℤ q }
    requires small { q <ℤ pos (2 ^ 30) }
    requires near { All IsNear places.now }
    ensures { IsTrue result ↔ Fits scene.now axis places.now (nat_abs q) }
{
    let placed = Placed {
        scene,
        axis,
        places,
        denominator: q as u32,
    };
    placed.meets_compounds() && placed.meets_groups() && placed.meets_pages()
}

impl<'a> Placed<'a> {
    fn meets_compounds(&self) -> bool
        requires { IsPlaced self.now }
        ensures { IsTrue result ↔ AllByRecursion (MeetsCompound self.now.scene.now self.now.axis self.now.places.now self.now.denominator) self.now.scene.now.compounds }
    {
        for at in 0..self.scene.count(Sort::Compound) {
            if !self.meets_rule(&self.scene.compound(at).rule) {
                return false;
            }
        }
        true
    }

    fn meets_rule(&self, rule: &Rule) -> bool
        requires known { IsPlaced self.now }
        requires gap { HasGap rule.now }
        ensures { IsTrue result ↔ MeetsRule self.now.scene.now self.now.axis self.now.places.now self.now.denominator rule.now }
    {
        match rule {
            Rule::Align {
                guide,
                line,
                members,
            } => {
                if self.scene.has_guide_on(self.axis, guide) {
                    return self.are_on_guide(guide, *line, members.list());
                }
            }
            Rule::Spread { axis, gap, members } => {
                if *axis == self.axis {
                    return self.is_spread(*gap, members.list());
                }
            }
            Rule::Rank { axis, gap, members } => {
                if *axis == self.axis {
                    return self.is_rank(*gap, members.list());
                }
            }
            Rule::Apart {
                axis,
                a,
                b,
                gap,
                exact,
            } => {
                if *axis == self.axis {
                    return self.is_behind(*gap, *exact, a, b);
                }
            }
        }
        true
    }

    fn are_on_guide(&self, guide: &Name, line: AlignLine, members: &[Name]) -> bool
        requires { IsPlaced self.now }
        ensures { IsTrue result ↔ AllByRecursion (IsOnGuide self.now.scene.now self.now.axis self.now.places.now self.now.denominator guide.now line) members.now }
    {
        for member in members {
            if !self.is_on_guide(guide, line, member) {
                return false;
            }
        }
        true
    }

    /// Whether each member but the first stands exactly so far behind the one before it.
    fn is_spread(&self, gap: i32, members: &[Name]) -> bool
        requires known { IsPlaced self.now }
        requires gap { IsCoordinate gap }
        ensures { IsTrue result ↔ AllNeighbours (IsExactlyBehind self.now.scene.now self.now.axis self.now.places.now self.now.denominator gap) members.now }
    {
        self.is_row(gap, true, members)
    }

    /// Whether each member but the first stands at least so far behind the one before it.
    fn is_rank(&self, gap: i32, members: &[Name]) -> bool
        requires known { IsPlaced self.now }
        requires gap { IsCoordinate gap }
        ensures { IsTrue result ↔ AllNeighbours (IsAtLeastBehind self.now.scene.now self.now.axis self.now.places.now self.now.denominator gap) members.now }
    {
        self.is_row(gap, false, members)
    }

    /// Whether each member but the first stands at least, or exactly, so far behind the one before it.
    fn is_row(&self, gap: i32, exact: bool, members: &[Name]) -> bool
        requires known { IsPlaced self.now }
        requires gap { IsCoordinate gap }
        ensures { IsTrue result ↔ AllNeighbours (IsBehind self.now.scene.now self.now.axis self.now.places.now self.now.denominator gap exact) members.now }
    {
        for at in 1..members.len() {
            if !self.is_behind(gap, exact, &members[at - 1], &members[at]) {
                return false;
            }
        }
        true
    }

    fn meets_groups(&self) -> bool
        requires { IsPlaced self.now }
        ensures { IsTrue result ↔ AllByRecursion (MeetsGroup self.now.scene.now self.now.axis self.now.places.now self.now.denominator) self.now.scene.now.groups }
    {
        for at in 0..self.scene.count(Sort::Group) {
            if !self.meets_group(self.scene.group(at)) {
                return false;
            }
        }
        true
    }

    fn meets_group(&self, group: &Group) -> bool
        requires known { IsPlaced self.now }
        requires pad { IsBorder group.now.pad }
        ensures { IsTrue result ↔ MeetsGroup self.now.scene.now self.now.axis self.now.places.now self.now.denominator group.now }
    {
        self.are_within(&group.name, group.pad, group.members.list())
            && self.is_ordered(&group.name)
    }

    fn are_within(&self, area: &Name, inset: i32, members: &[Name]) -> bool
        requires known { IsPlaced self.now }
        requires inset { IsBorder inset }
        ensures { IsTrue result ↔ AllByRecursion (IsWithin self.now.scene.now self.now.axis self.now.places.now self.now.denominator area.now inset) members.now }
    {
        for member in members {
            if !self.is_within(area, inset, member) {
                return false;
            }
        }
        true
    }

    fn meets_pages(&self) -> bool
        requires { IsPlaced self.now }
        ensures { IsTrue result ↔ AllByRecursion (MeetsPage self.now.scene.now self.now.axis self.now.places.now self.now.denominator) self.now.scene.now.pages }
    {
        if self.scene.count(Sort::Page) == 0 {
            return true;
        }
        self.meets_page(self.scene.page().unwrap())
    }

    fn meets_page(&self, page: &Page) -> bool
        requires known { IsPlaced self.now }
        requires page { IsPage page.now }
        ensures { IsTrue result ↔ MeetsPage self.now.scene.now self.now.axis self.now.places.now self.now.denominator page.now }
    {
        self.are_on_page(page)
            && self.is_ordered(&page.name)
            && (!page.rigid || self.has_declared_size(page))
    }

    fn are_on_page(&self, page: &Page) -> bool
        requires known { IsPlaced self.now }
        requires page { IsPage page.now }
        ensures { IsTrue result ↔ AllByRecursion (IsOnPage self.now.scene.now self.now.axis self.now.places.now self.now.denominator page.now) self.now.scene.now.shapes }
    {
        for at in 0..self.scene.count(Sort::Shape) {
            if !self.is_within(&page.name, page.margin, &self.scene.shape(at).name) {
                return false;
            }
        }
        true
    }
}
