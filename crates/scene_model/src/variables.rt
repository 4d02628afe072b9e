//! The variables of an axis.
ghost use Rattle.std.specs.Prelude.{◌≡◌, ◌+◌, ◌<◌, ◌≤◌, ◌+ℤ◌, ◌++◌, map, Some, IfSome, if◌then◌else◌, length, slice_get, position, option_copied};
ghost use Rattle.std.specs.List.{flat_map};
ghost use Rattle.std.specs.Option.{option_map};
ghost use Rattle.scene_model.specs.declared.variables.Variable.{Variable as VariableValue};
ghost use Rattle.scene_model.specs.declared.variables.VariableName.TheVariants.{OfItem, LowEdge, HighEdge};
ghost use Rattle.scene_model.specs.Names.{along, same_name, same_axis};
ghost use Rattle.scene_model.specs.Diagram.{guide_names, group_names, page_names};
ghost use Rattle.scene_model.specs.Sound.{IsSound};
ghost use Rattle.scene_model.specs.Items.{thing_at};
ghost use Rattle.scene_model.specs.Variables.{variables, shape_variable, guide_variable, group_variables, page_variables, guides_on, variable_number, variable_found, number_of_thing};

use crate::items::{Group, Guide, Item, Page, Shape, Sort};
use crate::scene::Scene;
use units::{Axis, Name};

/// What a variable places.
#[derive(Clone, Copy, Debug, PartialEq, Eq, Hash)]
pub enum VariableName {
    /// The place of the shape or guideline of this name.
    OfItem(Name),
    /// The low edge of the group or page of this name.
    LowEdge(Name),
    /// The high edge of the group or page of this name.
    HighEdge(Name),
}

/// A variable of one axis.
#[derive(Clone, Copy, Debug, PartialEq, Eq)]
pub struct Variable {
    pub name: VariableName,
    /// How hard it is to move: a shape, guideline or edge of a group weighs 1, a held shape 1000, an edge of the page
    /// 100.
    pub weight: u32,
    /// Where it was declared, in diagram units; an edge of a group where it lay as the group was made.
    pub anchor: i64,
    /// How often an edit moved it.
    pub moves: u32,
}

impl Scene {
    /// How many variables the axis has: at most 258.
    #[tactic(auto, using(crate::proofs::Axes::variables_counted))]
    pub fn vars(&self, axis: Axis) -> u16
        ensures value { result ≡ length (variables self.now axis) }
        ensures sound { IsSound self.now }
    {
        self.first_edge(axis) + 2 * (self.count(Sort::Group) + self.count(Sort::Page))
    }

    /// The variable of this number, which is below `vars`: the weight, the anchor (in diagram units) and the count of
    /// moves of what it places.
    pub fn variable(&self, axis: Axis, var: u16) -> Variable
        requires { var < length (variables self.now axis) }
        ensures { slice_get (variables self.now axis) var ≡ Some result }
    {
        let shapes = self.count(Sort::Shape);
        if var < shapes {
            return shape_variable(self.shape(var), axis);
        }
        let first_edge = self.first_edge(axis);
        if var < first_edge {
            return self.guide_variable(axis, var - shapes);
        }
        self.edge(axis, var - first_edge)
    }

    /// The weight of the variable of this number, which is below `vars`.
    pub fn weight(&self, axis: Axis, var: u16) -> u32
        requires { var < length (variables self.now axis) }
        ensures { option_map (λ (v : VariableValue). v.weight) (slice_get (variables self.now axis) var) ≡ Some result }
    {
        self.variable(axis, var).weight
    }

    /// The anchor of the variable of this number, which is below `vars`, in diagram units.
    pub fn anchor(&self, axis: Axis, var: u16) -> i64
        requires { var < length (variables self.now axis) }
        ensures { option_map (λ (v : VariableValue). v.anchor) (slice_get (variables self.now axis) var) ≡ Some result }
    {
        self.variable(axis, var).anchor
    }

    /// The number of the variable of this name on the axis: None exactly where no variable has it.
    pub fn variable_number(&self, axis: Axis, name: &VariableName) -> Option<u16>
        ensures value { result ≡ variable_number self.now axis name.now }
        ensures within { IfSome result (λ at. at < length (variables self.now axis)) }
    {
        match name {
            VariableName::OfItem(name) => self.number_of_item(axis, name),
            VariableName::LowEdge(name) => self.edge_named(axis, name, false),
            VariableName::HighEdge(name) => self.edge_named(axis, name, true),
        }
    }

    /// The number on the axis of the variable of this item, or of its high or low edge (`high` counts for groups and the
    /// page alone). None exactly where the item has no variable there: a guideline has one on its own axis alone, links
    /// and compounds have none, and neither has an item that doesn't stand.
    pub fn var_of(&self, axis: Axis, item: Item, high: bool) -> Option<u16>
        ensures value { result ≡ number_of_thing self.now axis (thing_at self.now item.sort item.at) high }
        ensures within { IfSome result (λ at. at < length (variables self.now axis)) }
    {
        match self.variable_of(item, high) {
            Some(name) => self.variable_number(axis, &name),
            None => None,
        }
    }

    /// The name of the variable of this item, or of its high or low edge.
    fn variable_of(&self, item: Item, high: bool) -> Option<VariableName>
        ensures { result ≡ variable_found (thing_at self.now item.sort item.at) high }
    {
        let number = usize::from(item.at);
        match item.sort {
            Sort::Shape => Some(VariableName::OfItem(self.shapes.at(number)?.name)),
            Sort::Guide => Some(VariableName::OfItem(self.guides.at(number)?.name)),
            Sort::Link => None,
            Sort::Compound => None,
            Sort::Group => Some(edge_of(self.groups.at(number)?.name, high)),
            Sort::Page => Some(edge_of(self.pages.at(number)?.name, high)),
        }
    }

    fn page_at(&self, at: u16) -> &Page
        requires { at < length self.now.pages }
        ensures { slice_get self.now.pages at ≡ Some result.now }
    {
        self.pages.at(at as usize).unwrap()
    }

    /// The number of the first variable of an edge: behind those of the shapes and of the guidelines of the axis.
    fn first_edge(&self, axis: Axis) -> u16
        ensures value { result ≡ length self.now.shapes + length (guides_on axis self.now.guides) }
        ensures few { result ≤ 192 }
    {
        self.count(Sort::Shape) + self.guides_on(axis)
    }

    fn guides_on(&self, axis: Axis) -> u16
        ensures value { result ≡ length (guides_on axis self.now.guides) }
        ensures few { result ≤ 64 }
    {
        let mut passed = 0;
        for at in 0..self.count(Sort::Guide) {
            if is_on(self.guide(at), axis) {
                passed += 1;
            }
        }
        passed
    }

    /// The guideline of this number among those of the axis.
    fn guide_on(&self, axis: Axis, number: u16) -> Option<&Guide>
        ensures { option_copied result ≡ slice_get (guides_on axis self.now.guides) number }
    {
        let mut left = number;
        for at in 0..self.count(Sort::Guide) {
            let guide = self.guide(at);
            if is_on(guide, axis) {
                if left == 0 {
                    return Some(guide);
                }
                left -= 1;
            }
        }
        None
    }

    /// The number of the guideline of this name among those of the axis.
    fn guide_named(&self, axis: Axis, name: &Name) -> Option<u16>
        ensures value { result ≡ position (same_name name.now) (guide_names (guides_on axis self.now.guides)) }
        ensures few { IfSome result (λ number. number ≤ 64) }
    {
        let mut passed = 0;
        for at in 0..self.count(Sort::Guide) {
            let guide = self.guide(at);
            if is_on(guide, axis) {
                if *name == guide.name {
                    return Some(passed);
                }
                passed += 1;
            }
        }
        None
    }

    fn guide_variable(&self, axis: Axis, number: u16) -> Variable
        requires { number < length (guides_on axis self.now.guides) }
        ensures { slice_get (map guide_variable (guides_on axis self.now.guides)) number ≡ Some result }
    {
        guide_variable(self.guide_on(axis, number).unwrap())
    }

    /// The variable of this number among those of the edges.
    fn edge(&self, axis: Axis, number: u16) -> Variable
        requires { number < length (flat_map (group_variables axis) self.now.groups ++ flat_map (page_variables axis) self.now.pages) }
        ensures { slice_get (flat_map (group_variables axis) self.now.groups ++ flat_map (page_variables axis) self.now.pages) number ≡ Some result }
    {
        let area = number / 2;
        let high = number % 2 == 1;
        let groups = self.count(Sort::Group);
        if area < groups {
            return group_edge(self.group(area), axis, high);
        }
        page_edge(self.page_at(area - groups), axis, high)
    }

    fn number_of_item(&self, axis: Axis, name: &Name) -> Option<u16>
        ensures value { result ≡ variable_number self.now axis (OfItem name.now) }
        ensures within { IfSome result (λ at. at < length (variables self.now axis)) }
    {
        match self.shapes.number_of(name) {
            Some(at) => return Some(at as u16),
            None => {}
        }
        let number = self.guide_named(axis, name)?;
        Some(self.count(Sort::Shape) + number)
    }

    fn edge_named(&self, axis: Axis, name: &Name, high: bool) -> Option<u16>
        ensures value { result ≡ variable_number self.now axis (if high then HighEdge name.now else LowEdge name.now) }
        ensures within { IfSome result (λ at. at < length (variables self.now axis)) }
    {
        let area = self.area_named(name)?;
        let low_edge = self.first_edge(axis) + 2 * area;
        Some(if high { low_edge + 1 } else { low_edge })
    }

    /// The number of the group or page of this name, the groups first.
    fn area_named(&self, name: &Name) -> Option<u16>
        ensures value { result ≡ position (same_name name.now) (group_names self.now.groups ++ page_names self.now.pages) }
        ensures few { IfSome result (λ number. number ≤ 33) }
    {
        match self.groups.number_of(name) {
            Some(at) => return Some(at as u16),
            None => {}
        }
        let at = self.pages.number_of(name)?;
        Some(self.count(Sort::Group) + at as u16)
    }
}

fn is_on(guide: &Guide, axis: Axis) -> bool
    ensures { result ≡ same_axis guide.now.axis axis }
{
    guide.axis == axis
}

fn edge_of(name: Name, high: bool) -> VariableName
    ensures { result ≡ (if high then HighEdge name else LowEdge name) }
{
    if high {
        VariableName::HighEdge(name)
    } else {
        VariableName::LowEdge(name)
    }
}

fn shape_variable(shape: &Shape, axis: Axis) -> Variable
    ensures { result ≡ shape_variable axis shape.now }
{
    let anchor = match axis {
        Axis::X => i64::from(shape.x),
        Axis::Y => i64::from(shape.y),
    };
    Variable {
        name: VariableName::OfItem(shape.name),
        weight: if shape.held { 1000 } else { 1 },
        anchor,
        moves: shape.moves,
    }
}

fn guide_variable(guide: &Guide) -> Variable
    ensures { result ≡ guide_variable guide.now }
{
    Variable {
        name: VariableName::OfItem(guide.name),
        weight: 1,
        anchor: i64::from(guide.at),
        moves: guide.moves,
    }
}

fn group_edge(group: &Group, axis: Axis, high: bool) -> Variable
    ensures { slice_get (group_variables axis group.now) (if high then 1 else 0) ≡ Some result }
{
    let corner = if high { group.high } else { group.low };
    Variable {
        name: edge_of(group.name, high),
        weight: 1,
        anchor: match axis {
            Axis::X => corner.x,
            Axis::Y => corner.y,
        },
        moves: 0,
    }
}

fn page_edge(page: &Page, axis: Axis, high: bool) -> Variable
    ensures { slice_get (page_variables axis page.now) (if high then 1 else 0) ≡ Some result }
{
    Variable {
        name: edge_of(page.name, high),
        weight: 100,
        anchor: if high {
            page_high(page, axis)
        } else {
            page_low(page, axis)
        },
        moves: 0,
    }
}

fn page_low(page: &Page, axis: Axis) -> i64
    ensures { result ≡ along axis page.now.x page.now.y }
{
    match axis {
        Axis::X => i64::from(page.x),
        Axis::Y => i64::from(page.y),
    }
}

fn page_high(page: &Page, axis: Axis) -> i64
    ensures { result ≡ along axis (page.now.x +ℤ page.now.w) (page.now.y +ℤ page.now.h) }
{
    match axis {
        Axis::X => i64::from(page.x) + i64::from(page.w),
        Axis::Y => i64::from(page.y) + i64::from(page.h),
    }
}
