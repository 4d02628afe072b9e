//! The items of a diagram.
ghost use Rattle.std.specs.Prelude.{◌≡◌, IfOk};
ghost use Rattle.scene_model.specs.Items.{sort_of};

use crate::naming::HasName;
use std::alloc::Global;
use units::{Axis, Members, Memory, Name, Pt};

/// The outline of a shape.
#[derive(Clone, Copy, Debug, PartialEq, Eq)]
pub enum Form {
    Box,
    Oval,
    Diamond,
}

/// A shape: an outlined node of the diagram.
#[derive(Clone, Copy, Debug, PartialEq, Eq)]
pub struct Shape {
    pub name: Name,
    pub form: Form,
    /// The anchor's place on X, the low (left) edge as declared: within 1,000,000 diagram units of 0.
    pub x: i32,
    /// The anchor's place on Y, the low (upper) edge as declared: within 1,000,000 diagram units of 0.
    pub y: i32,
    /// The width, 1 to 10,000 diagram units.
    pub w: i32,
    /// The height, 1 to 10,000 diagram units.
    pub h: i32,
    /// Whether the shape is held: layout moves it a thousand times less readily.
    pub held: bool,
    /// How often the shape was moved by an edit.
    pub moves: u32,
}

/// A guideline: a line across the diagram, at one place of its axis, to which shapes can be aligned.
#[derive(Clone, Copy, Debug, PartialEq, Eq)]
pub struct Guide {
    pub name: Name,
    /// The axis on which the guideline has its place.
    pub axis: Axis,
    /// The anchor, its place as declared: within 1,000,000 diagram units of 0.
    pub at: i32,
    /// How often the guideline was shifted by an edit.
    pub moves: u32,
}

/// A link: a connector between two shapes.
#[derive(Clone, Copy, Debug, PartialEq, Eq)]
pub struct Link {
    pub name: Name,
    pub a: Name,
    pub b: Name,
}

/// The line of a shape that lies on a guideline.
#[derive(Clone, Copy, Debug, PartialEq, Eq)]
pub enum AlignLine {
    /// The low edge.
    Low,
    /// The middle: half the size, rounded down, behind the low edge.
    Mid,
    /// The high edge.
    High,
}

/// What a compound constraint asks of its members.
#[derive(Debug, Drop, PartialEq)]
pub enum Rule {
    /// A line of each member lies on the guideline.
    Align {
        guide: Name,
        line: AlignLine,
        /// Different shapes.
        members: Members,
    },
    /// Each member but the first stands exactly the gap behind the one before it.
    Spread {
        axis: Axis,
        /// Within 1,000,000 diagram units of 0.
        gap: i32,
        /// Different shapes or guidelines of the axis.
        members: Members,
    },
    /// Each member but the first stands at least the gap behind the one before it.
    Rank {
        axis: Axis,
        /// Within 1,000,000 diagram units of 0.
        gap: i32,
        /// Different shapes or guidelines of the axis.
        members: Members,
    },
    /// B stands at least, or exactly, the gap behind A: different shapes or guidelines of the axis.
    Apart {
        axis: Axis,
        a: Name,
        b: Name,
        /// Within 1,000,000 diagram units of 0.
        gap: i32,
        exact: bool,
    },
}

/// A compound constraint.
#[derive(Debug, Drop, PartialEq)]
pub struct Compound {
    pub name: Name,
    pub rule: Rule,
}

/// A group: an area around its members.
#[derive(Debug, Drop, PartialEq)]
pub struct Group {
    pub name: Name,
    /// How far the members keep inside its edges: 0 to 10,000 diagram units.
    pub pad: i32,
    /// Different shapes.
    pub members: Members,
    /// The low corner's anchor, taken when the group was made: within 1,020,000 diagram units of 0.
    pub low: Pt,
    /// The high corner's anchor, taken when the group was made: within 1,020,000 diagram units of 0.
    pub high: Pt,
}

/// The page: an area around all shapes.
#[derive(Clone, Copy, Debug, PartialEq, Eq)]
pub struct Page {
    pub name: Name,
    /// The low (left) edge as declared: within 1,000,000 diagram units of 0.
    pub x: i32,
    /// The low (upper) edge as declared: within 1,000,000 diagram units of 0.
    pub y: i32,
    /// The declared width, 1 to 1,000,000 diagram units.
    pub w: i32,
    /// The declared height, 1 to 1,000,000 diagram units.
    pub h: i32,
    /// How far the shapes keep inside the page: 0 to 10,000 diagram units.
    pub margin: i32,
    /// Whether the page keeps its declared size.
    pub rigid: bool,
}

impl HasName for Shape {
    ghost name_of = { λ s. s.name };

    fn name(&self) -> Name {
        self.name
    }

    fn copy(&self, _alloc: Global) -> Result<Self, Memory> {
        Ok(*self)
    }
}

impl HasName for Guide {
    ghost name_of = { λ g. g.name };

    fn name(&self) -> Name {
        self.name
    }

    fn copy(&self, _alloc: Global) -> Result<Self, Memory> {
        Ok(*self)
    }
}

impl HasName for Link {
    ghost name_of = { λ l. l.name };

    fn name(&self) -> Name {
        self.name
    }

    fn copy(&self, _alloc: Global) -> Result<Self, Memory> {
        Ok(*self)
    }
}

impl Rule {
    /// A rule equal to this one.
    pub fn copy(&self, alloc: Global) -> Result<Rule, Memory>
        ensures { IfOk result (λ copy. copy ≡ self.now) }
    {
        match self {
            Rule::Align {
                guide,
                line,
                members,
            } => Ok(Rule::Align {
                guide: *guide,
                line: *line,
                members: members.copy(alloc)?,
            }),
            Rule::Spread { axis, gap, members } => Ok(Rule::Spread {
                axis: *axis,
                gap: *gap,
                members: members.copy(alloc)?,
            }),
            Rule::Rank { axis, gap, members } => Ok(Rule::Rank {
                axis: *axis,
                gap: *gap,
                members: members.copy(alloc)?,
            }),
            Rule::Apart {
                axis,
                a,
                b,
                gap,
                exact,
            } => Ok(Rule::Apart {
                axis: *axis,
                a: *a,
                b: *b,
                gap: *gap,
                exact: *exact,
            }),
        }
    }
}

impl HasName for Compound {
    ghost name_of = { λ c. c.name };

    fn name(&self) -> Name {
        self.name
    }

    fn copy(&self, alloc: Global) -> Result<Self, Memory> {
        Ok(Compound {
            name: self.name,
            rule: self.rule.copy(alloc)?,
        })
    }
}

impl HasName for Group {
    ghost name_of = { λ g. g.name };

    fn name(&self) -> Name {
        self.name
    }

    fn copy(&self, alloc: Global) -> Result<Self, Memory> {
        Ok(Group {
            name: self.name,
            pad: self.pad,
            members: self.members.copy(alloc)?,
            low: self.low,
            high: self.high,
        })
    }
}

impl HasName for Page {
    ghost name_of = { λ p. p.name };

    fn name(&self) -> Name {
        self.name
    }

    fn copy(&self, _alloc: Global) -> Result<Self, Memory> {
        Ok(*self)
    }
}

/// A sort of item.
#[derive(Clone, Copy, Debug, PartialEq, Eq)]
pub enum Sort {
    Shape,
    Guide,
    Link,
    Compound,
    Group,
    Page,
}

/// Which item: its sort, and its number among those of the sort, in the order of making.
#[derive(Clone, Copy, Debug, PartialEq, Eq)]
pub struct Item {
    pub sort: Sort,
    pub at: u16,
}

/// An item of any sort.
#[derive(Debug, Drop, PartialEq)]
pub enum Thing {
    Shape(Shape),
    Guide(Guide),
    Link(Link),
    Compound(Compound),
    Group(Group),
    Page(Page),
}

impl Thing {
    /// The sort of the item.
    pub fn sort(&self) -> Sort
        ensures { result ≡ sort_of self.now }
    {
        match self {
            Thing::Shape(_) => Sort::Shape,
            Thing::Guide(_) => Sort::Guide,
            Thing::Link(_) => Sort::Link,
            Thing::Compound(_) => Sort::Compound,
            Thing::Group(_) => Sort::Group,
            Thing::Page(_) => Sort::Page,
        }
    }
}
