//! What an edit says of items by name.
ghost use Rattle.std.specs.Prelude.{◌≡◌, ◌∷◌, [], length, slice_get, None, Some};
ghost use Rattle.scene_model.specs.declared.items.Sort.TheVariants as sorts;
ghost use Rattle.edit_rules.specs.declared.naming.Kind.TheVariants as kinds;
ghost use Rattle.edit_rules.specs.Naming.{naming, naming_of, row_names, alone, changing, freeing, making, aligning};

use crate::edits::Edit;
use scene_model::Sort;
use units::{Axis, Name};

/// What a name of an edit must stand as.
#[derive(Clone, Copy, Debug, PartialEq, Eq)]
pub enum Kind {
    Shape,
    Guide,
    /// A shape, or a guideline of this axis.
    Placed(Axis),
    /// A shape, or a guideline of either axis.
    ShapeOrGuide,
    Link,
    /// A compound, a group or the page.
    Constraint,
}

/// A name that must stand, and what it must stand as.
#[derive(Clone, Copy, Debug, PartialEq, Eq)]
pub struct Ask {
    pub kind: Kind,
    pub name: Name,
}

/// A new item: its name, and its sort.
#[derive(Clone, Copy, Debug, PartialEq, Eq)]
pub struct NewItem {
    pub name: Name,
    pub sort: Sort,
}

/// Names that must differ, in the order of the line.
#[derive(Clone, Copy)]
pub enum Row<'a> {
    Nothing,
    /// A and B.
    Pair(Name, Name),
    /// The members.
    Members(&'a [Name]),
}

impl<'a> Row<'a> {
    /// How many names there are.
    pub fn len(&self) -> usize
        ensures { result ≡ length (row_names self.now) }
    {
        match self {
            Row::Nothing => 0,
            Row::Pair(..) => 2,
            Row::Members(names) => names.len(),
        }
    }

    /// The name at this place.
    pub fn at(&self, place: usize) -> Option<Name>
        ensures { result ≡ slice_get (row_names self.now) place }
    {
        match self {
            Row::Nothing => None,
            Row::Pair(a, b) => match place {
                0 => Some(*a),
                1 => Some(*b),
                _ => None,
            },
            Row::Members(names) => names.get(place).copied(),
        }
    }
}

/// What an edit says of items by name.
#[derive(Clone, Copy)]
pub struct Names<'a> {
    /// The name in front of the row, which must stand: of the item that is changed or taken away, or of the guideline
    /// of an alignment.
    pub first: Option<Ask>,
    /// What each name of the row must stand as.
    pub kind: Kind,
    pub row: Row<'a>,
    /// The new item.
    pub makes: Option<NewItem>,
    /// The item that no other may use.
    pub frees: Option<Name>,
}

impl<'a> Names<'a> {
    fn alone(sort: Sort, name: Name) -> Names<'a>
        ensures { naming_of result ≡ alone sort name }
    {
        Names {
            first: None,
            kind: Kind::Shape,
            row: Row::Nothing,
            makes: Some(NewItem { name, sort }),
            frees: None,
        }
    }

    fn changing(kind: Kind, name: Name) -> Names<'a>
        ensures { naming_of result ≡ changing kind name }
    {
        Names {
            first: Some(Ask { kind, name }),
            kind,
            row: Row::Nothing,
            makes: None,
            frees: None,
        }
    }

    fn freeing(kind: Kind, name: Name) -> Names<'a>
        ensures { naming_of result ≡ freeing kind name }
    {
        Names {
            first: Some(Ask { kind, name }),
            kind,
            row: Row::Nothing,
            makes: None,
            frees: Some(name),
        }
    }

    fn pair(sort: Sort, name: Name, kind: Kind, a: Name, b: Name) -> Names<'a>
        ensures { naming_of result ≡ making sort name kind (a ∷ b ∷ []) }
    {
        Names {
            first: None,
            kind,
            row: Row::Pair(a, b),
            makes: Some(NewItem { name, sort }),
            frees: None,
        }
    }

    fn making(sort: Sort, name: Name, kind: Kind, members: &'a [Name]) -> Names<'a>
        ensures { naming_of result ≡ making sort name kind members.now }
    {
        Names {
            first: None,
            kind,
            row: Row::Members(members),
            makes: Some(NewItem { name, sort }),
            frees: None,
        }
    }

    fn aligning(name: Name, guide: Name, members: &'a [Name]) -> Names<'a>
        ensures { naming_of result ≡ aligning name guide members.now }
    {
        Names {
            first: Some(Ask {
                kind: Kind::Guide,
                name: guide,
            }),
            kind: Kind::Shape,
            row: Row::Members(members),
            makes: Some(NewItem {
                name,
                sort: Sort::Compound,
            }),
            frees: None,
        }
    }
}

/// What each edit says of items by name.
pub fn names_of(edit: &Edit) -> Names<'_>
    ensures { naming_of result ≡ naming edit.now }
{
    match edit {
        Edit::Put { name, .. } => Names::alone(Sort::Shape, *name),
        Edit::Size { name, .. } => Names::changing(Kind::Shape, *name),
        Edit::Move { name, .. } => Names::changing(Kind::Shape, *name),
        Edit::Shift { name, .. } => Names::changing(Kind::Guide, *name),
        Edit::Hold { name } => Names::changing(Kind::Shape, *name),
        Edit::Free { name } => Names::changing(Kind::Shape, *name),
        Edit::Remove { name } => Names::freeing(Kind::ShapeOrGuide, *name),
        Edit::Join { name, a, b } => Names::pair(Sort::Link, *name, Kind::Shape, *a, *b),
        Edit::Unlink { name } => Names::changing(Kind::Link, *name),
        Edit::Guide { name, .. } => Names::alone(Sort::Guide, *name),
        Edit::Align {
            name,
            guide,
            members,
            ..
        } => Names::aligning(*name, *guide, members.list()),
        Edit::Spread {
            name,
            axis,
            members,
            ..
        } => Names::making(Sort::Compound, *name, Kind::Placed(*axis), members.list()),
        Edit::Rank {
            name,
            axis,
            members,
            ..
        } => Names::making(Sort::Compound, *name, Kind::Placed(*axis), members.list()),
        Edit::Apart {
            name,
            axis,
            a,
            b,
            ..
        } => Names::pair(Sort::Compound, *name, Kind::Placed(*axis), *a, *b),
        Edit::Group { name, members, .. } => {
            Names::making(Sort::Group, *name, Kind::Shape, members.list())
        }
        Edit::Page { name, .. } => Names::alone(Sort::Page, *name),
        Edit::Drop { name } => Names::changing(Kind::Constraint, *name),
    }
}
