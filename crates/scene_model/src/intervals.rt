//! The interval that a shape takes on an axis, its lines, and the size of the page.
ghost use Rattle.std.specs.Prelude.{◌≡◌, ◌≤ℤ◌, pos};
ghost use Rattle.scene_model.specs.Sound.{IsShape, IsExtent, IsPage, IsPageExtent};
ghost use Rattle.scene_model.specs.Variables.{low, size, high, mid, page_size};
ghost use Rattle.scene_model.specs.Meaning.{line_offset};

use crate::items::{AlignLine, Page, Shape};
use units::Axis;

impl Shape {
    /// The low edge on the axis as declared, in diagram units: x or y.
    pub fn low(&self, axis: Axis) -> i32
        ensures { result ≡ low axis self.now }
    {
        match axis {
            Axis::X => self.x,
            Axis::Y => self.y,
        }
    }

    /// The width or height, 1 to 10,000 diagram units.
    pub fn size(&self, axis: Axis) -> i32
        requires { IsShape self.now }
        ensures value { result ≡ size axis self.now }
        ensures range { IsExtent result }
    {
        match axis {
            Axis::X => self.w,
            Axis::Y => self.h,
        }
    }

    /// The high edge on the axis as declared, in diagram units: the size behind the low edge.
    pub fn high(&self, axis: Axis) -> i64
        requires { IsShape self.now }
        ensures { result ≡ high axis self.now }
    {
        i64::from(self.low(axis)) + i64::from(self.size(axis))
    }

    /// The middle on the axis as declared, in diagram units: half the size, rounded down, behind the low edge.
    pub fn mid(&self, axis: Axis) -> i64
        requires { IsShape self.now }
        ensures { result ≡ mid axis self.now }
    {
        i64::from(self.low(axis)) + i64::from(AlignLine::Mid.offset(self.size(axis)))
    }
}

impl AlignLine {
    /// How far this line of a shape of this size lies behind the low edge of the shape, in diagram units.
    pub fn offset(self, size: i32) -> i32
        requires { pos 0 ≤ℤ size }
        ensures value { result ≡ line_offset self size }
        ensures low { pos 0 ≤ℤ result }
        ensures high { result ≤ℤ size }
    {
        match self {
            AlignLine::Low => 0,
            AlignLine::Mid => size / 2,
            AlignLine::High => size,
        }
    }
}

impl Page {
    /// The declared width or height, 1 to 1,000,000 diagram units.
    pub fn size(&self, axis: Axis) -> i32
        requires { IsPage self.now }
        ensures value { result ≡ page_size axis self.now }
        ensures range { IsPageExtent result }
    {
        match axis {
            Axis::X => self.w,
            Axis::Y => self.h,
        }
    }
}
