//! A scene on one of its axes, with a placement of its variables: where they stand, and what is true of two of them.
ghost use Rattle.std.specs.Prelude.{◌≡◌, ◌↔◌, ◌≤◌, ◌≤ℤ◌, ◌+ℤ◌, ◌^◌, IsTrue, pos, nat_abs};
ghost use Rattle.scene_model.specs.declared.variables.VariableName.TheVariants.{LowEdge, HighEdge};
ghost use Rattle.scene_model.specs.Meaning.{place, low_place, high_place, scaled, size_of, IsOnGuide, IsBehind, IsWithin, IsOrdered, HasDeclaredSize};
ghost use Rattle.scene_model.specs.Sound.{IsCoordinate, IsBorder, IsPage};
ghost use Rattle.scene_model.specs.Variables.{number_or_count};
ghost use Rattle.compound_sense.specs.Placed.{IsPlaced, IsNear};

use crate::arithmetic::{is_apart, is_at, is_inside, is_up_to};
use scene_model::{AlignLine, Page, Scene, Sort, VariableName};
use units::{Axis, Name};

/// A scene on one of its axes, with a placement of its variables: variable i stands at `places[i]` over the denominator.
#[derive(Drop)]
pub(crate) struct Placed<'a> {
    pub(crate) scene: &'a Scene,
    pub(crate) axis: Axis,
    /// Within 2^60 of 0.
    pub(crate) places: &'a [i64],
    /// 1 to 2^30 - 1.
    pub(crate) denominator: u32,
}

impl<'a> Placed<'a> {
    /// The number of the variable of a name; of a name that no variable has, how many variables there are.
    fn number(&self, name: &VariableName) -> u16
        ensures { result ≡ number_or_count self.now.scene.now self.now.axis name.now }
    {
        match self.scene.variable_number(self.axis, name) {
            Some(number) => number,
            None => self.scene.vars(self.axis),
        }
    }

    /// Where the variable of a name stands, times the denominator; 0 where there is none.
    fn place(&self, name: VariableName) -> i64
        requires { IsPlaced self.now }
        ensures value { result ≡ place self.now.scene.now self.now.axis self.now.places.now self.now.denominator name }
        ensures near { IsNear result }
    {
        match self.places.get(self.number(&name) as usize) {
            Some(place) => *place,
            None => 0,
        }
    }

    /// A length, times the denominator.
    fn scaled(&self, units: i32) -> i64
        requires known { IsPlaced self.now }
        requires near { nat_abs units ≤ 1000000 }
        ensures value { result ≡ scaled self.now.denominator units }
        ensures near { nat_abs result ≤ 2 ^ 50 }
    {
        i64::from(self.denominator) * i64::from(units)
    }

    /// The size of the shape of this name; 0 where none stands.
    fn size(&self, shape: &Name) -> i32
        ensures value { result ≡ size_of self.now.scene.now self.now.axis shape.now }
        ensures low { pos 0 ≤ℤ result }
        ensures high { result ≤ℤ pos 10000 }
    {
        let number = self.number(&VariableName::OfItem(*shape));
        if number >= self.scene.count(Sort::Shape) {
            return 0;
        }
        self.scene.shape(number).size(self.axis)
    }

    /// Whether a line of the shape lies on the guideline.
    pub(crate) fn is_on_guide(&self, guide: &Name, line: AlignLine, shape: &Name) -> bool
        requires { IsPlaced self.now }
        ensures { IsTrue result ↔ IsOnGuide self.now.scene.now self.now.axis self.now.places.now self.now.denominator guide.now line shape.now }
    {
        let offset = self.scaled(line.offset(self.size(shape)));
        is_at(
            self.place(VariableName::OfItem(*shape)),
            offset,
            self.place(VariableName::OfItem(*guide)),
        )
    }

    /// Whether the second item stands at least, or exactly, so far behind the first.
    pub(crate) fn is_behind(&self, gap: i32, exact: bool, a: &Name, b: &Name) -> bool
        requires known { IsPlaced self.now }
        requires gap { IsCoordinate gap }
        ensures { IsTrue result ↔ IsBehind self.now.scene.now self.now.axis self.now.places.now self.now.denominator gap exact a.now b.now }
    {
        is_apart(
            self.place(VariableName::OfItem(*a)),
            self.place(VariableName::OfItem(*b)),
            self.scaled(gap),
            exact,
        )
    }

    /// Whether the interval of the shape lies within the edges of the group or page, inset.
    pub(crate) fn is_within(&self, area: &Name, inset: i32, shape: &Name) -> bool
        requires known { IsPlaced self.now }
        requires inset { IsBorder inset }
        ensures { IsTrue result ↔ IsWithin self.now.scene.now self.now.axis self.now.places.now self.now.denominator area.now inset shape.now }
    {
        self.begins_within(area, inset, shape) && self.ends_within(area, inset, shape)
    }

    /// Whether the interval of the shape begins behind the low edge, inset.
    fn begins_within(&self, area: &Name, inset: i32, shape: &Name) -> bool
        requires known { IsPlaced self.now }
        requires inset { IsBorder inset }
        ensures { IsTrue result ↔ ((place self.now.scene.now self.now.axis self.now.places.now self.now.denominator (LowEdge area.now) +ℤ scaled self.now.denominator inset)
            ≤ℤ low_place self.now.scene.now self.now.axis self.now.places.now self.now.denominator shape.now) }
    {
        is_up_to(
            self.place(VariableName::LowEdge(*area)),
            self.scaled(inset),
            self.place(VariableName::OfItem(*shape)),
        )
    }

    /// Whether the interval of the shape ends before the high edge, inset.
    fn ends_within(&self, area: &Name, inset: i32, shape: &Name) -> bool
        requires known { IsPlaced self.now }
        requires inset { IsBorder inset }
        ensures { IsTrue result ↔ ((high_place self.now.scene.now self.now.axis self.now.places.now self.now.denominator shape.now +ℤ scaled self.now.denominator inset)
            ≤ℤ place self.now.scene.now self.now.axis self.now.places.now self.now.denominator (HighEdge area.now)) }
    {
        is_inside(
            self.place(VariableName::OfItem(*shape)),
            self.scaled(self.size(shape)),
            self.scaled(inset),
            self.place(VariableName::HighEdge(*area)),
        )
    }

    /// Whether the low edge of the group or page is at most its high edge.
    pub(crate) fn is_ordered(&self, area: &Name) -> bool
        requires { IsPlaced self.now }
        ensures { IsTrue result ↔ IsOrdered self.now.scene.now self.now.axis self.now.places.now self.now.denominator area.now }
    {
        self.place(VariableName::LowEdge(*area)) <= self.place(VariableName::HighEdge(*area))
    }

    /// Whether the page has its declared size.
    pub(crate) fn has_declared_size(&self, page: &Page) -> bool
        requires known { IsPlaced self.now }
        requires page { IsPage page.now }
        ensures { IsTrue result ↔ HasDeclaredSize self.now.scene.now self.now.axis self.now.places.now self.now.denominator page.now }
    {
        is_apart(
            self.place(VariableName::LowEdge(page.name)),
            self.place(VariableName::HighEdge(page.name)),
            self.scaled(page.size(self.axis)),
            true,
        )
    }
}
