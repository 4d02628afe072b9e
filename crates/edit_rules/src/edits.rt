//! Edits.
ghost use Rattle.std.specs.Prelude.{◌≡◌, IfOk};

use scene_model::{AlignLine, Form};
use std::alloc::Global;
use units::{Axis, Members, Memory, Name};

/// An edit of a diagram. A new item has a name of its own, different from all names that stand.
#[derive(Debug, Drop, PartialEq)]
pub enum Edit {
    /// Puts a new shape: its low corner at (x, y), so wide and so high, in diagram units.
    Put {
        name: Name,
        form: Form,
        /// Within 1,000,000 of 0.
        x: i32,
        /// Within 1,000,000 of 0.
        y: i32,
        /// 1 to 10,000.
        w: i32,
        /// 1 to 10,000.
        h: i32,
    },
    /// Makes a shape so wide and so high, in diagram units. Its anchor and its count of moves stay.
    Size {
        name: Name,
        /// 1 to 10,000.
        w: i32,
        /// 1 to 10,000.
        h: i32,
    },
    /// Moves the low corner of a shape to (x, y), in diagram units. It counts as a move also where the corner stays.
    Move {
        name: Name,
        /// Within 1,000,000 of 0.
        x: i32,
        /// Within 1,000,000 of 0.
        y: i32,
    },
    /// Shifts a guideline to a place of its axis, in diagram units. It counts as a move also where the place stays.
    Shift {
        name: Name,
        /// Within 1,000,000 of 0.
        at: i32,
    },
    /// Holds a shape, so that layout moves it less readily. A held shape may be held again.
    Hold {
        name: Name,
    },
    /// Frees a shape from its hold. A free shape may be freed again.
    Free {
        name: Name,
    },
    /// Removes a shape or guideline that no item uses.
    Remove {
        name: Name,
    },
    /// Joins two different shapes by a new link.
    Join {
        name: Name,
        a: Name,
        b: Name,
    },
    /// Takes a link away.
    Unlink {
        name: Name,
    },
    /// Puts a new guideline at a place of an axis, in diagram units.
    Guide {
        name: Name,
        axis: Axis,
        /// Within 1,000,000 of 0.
        at: i32,
    },
    /// Aligns different shapes to a guideline by their low edges, middles or high edges.
    Align {
        name: Name,
        guide: Name,
        line: AlignLine,
        members: Members,
    },
    /// Spreads different shapes or guidelines of an axis: each exactly the gap behind the one before it.
    Spread {
        name: Name,
        axis: Axis,
        /// Within 1,000,000 diagram units of 0.
        gap: i32,
        members: Members,
    },
    /// Ranks different shapes or guidelines of an axis: each at least the gap behind the one before it.
    Rank {
        name: Name,
        axis: Axis,
        /// Within 1,000,000 diagram units of 0.
        gap: i32,
        members: Members,
    },
    /// Sets two different shapes or guidelines of an axis apart: B at least, or exactly, the gap behind A.
    Apart {
        name: Name,
        axis: Axis,
        a: Name,
        b: Name,
        /// Within 1,000,000 diagram units of 0.
        gap: i32,
        exact: bool,
    },
    /// Groups different shapes: they keep so far inside the group's edges.
    Group {
        name: Name,
        /// 0 to 10,000 diagram units.
        pad: i32,
        members: Members,
    },
    /// Puts the page: its low corner at (x, y), so wide and so high, in diagram units. All shapes keep so far inside.
    Page {
        name: Name,
        /// Within 1,000,000 of 0.
        x: i32,
        /// Within 1,000,000 of 0.
        y: i32,
        /// 1 to 1,000,000.
        w: i32,
        /// 1 to 1,000,000.
        h: i32,
        /// 0 to 10,000.
        margin: i32,
        /// Whether the page keeps its declared size.
        rigid: bool,
    },
    /// Drops a compound, a group or the page.
    Drop {
        name: Name,
    },
}

impl Edit {
    /// An edit equal to this one.
    pub fn copy(&self, alloc: Global) -> Result<Edit, Memory>
        ensures { IfOk result (λ copy. copy ≡ self.now) }
    {
        let copy = match self {
            Edit::Put {
                name,
                form,
                x,
                y,
                w,
                h,
            } => Edit::Put {
                name: *name,
                form: *form,
                x: *x,
                y: *y,
                w: *w,
                h: *h,
            },
            Edit::Size { name, w, h } => Edit::Size {
                name: *name,
                w: *w,
                h: *h,
            },
            Edit::Move { name, x, y } => Edit::Move {
                name: *name,
                x: *x,
                y: *y,
            },
            Edit::Shift { name, at } => Edit::Shift {
                name: *name,
                at: *at,
            },
            Edit::Hold { name } => Edit::Hold { name: *name },
            Edit::Free { name } => Edit::Free { name: *name },
            Edit::Remove { name } => Edit::Remove { name: *name },
            Edit::Join { name, a, b } => Edit::Join {
                name: *name,
                a: *a,
                b: *b,
            },
            Edit::Unlink { name } => Edit::Unlink { name: *name },
            Edit::Guide { name, axis, at } => Edit::Guide {
                name: *name,
                axis: *axis,
                at: *at,
            },
            Edit::Align {
                name,
                guide,
                line,
                members,
            } => Edit::Align {
                name: *name,
                guide: *guide,
                line: *line,
                members: members.copy(alloc)?,
            },
            Edit::Spread {
                name,
                axis,
                gap,
                members,
            } => Edit::Spread {
                name: *name,
                axis: *axis,
                gap: *gap,
                members: members.copy(alloc)?,
            },
            Edit::Rank {
                name,
                axis,
                gap,
                members,
            } => Edit::Rank {
                name: *name,
                axis: *axis,
                gap: *gap,
                members: members.copy(alloc)?,
            },
            Edit::Apart {
                name,
                axis,
                a,
                b,
                gap,
                exact,
            } => Edit::Apart {
                name: *name,
                axis: *axis,
                a: *a,
                b: *b,
                gap: *gap,
                exact: *exact,
            },
            Edit::Group { name, pad, members } => Edit::Group {
                name: *name,
                pad: *pad,
                members: members.copy(alloc)?,
            },
            Edit::Page {
                name,
                x,
                y,
                w,
                h,
                margin,
                rigid,
            } => Edit::Page {
                name: *name,
                x: *x,
                y: *y,
                w: *w,
                h: *h,
                margin: *margin,
                rigid: *rigid,
            },
            Edit::Drop { name } => Edit::Drop { name: *name },
        };
        Ok(copy)
    }
}
