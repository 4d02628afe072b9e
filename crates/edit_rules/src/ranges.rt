//! The ranges of an edit's numbers.
ghost use Rattle.std.specs.Prelude.{◌≡◌, ◌∷◌, [], find};
ghost use Rattle.std.specs.Option.{option_map};
ghost use Rattle.edit_rules.specs.Ranges.{coordinate, extent, page_extent, border, is_outside, numbers};

use crate::edits::Edit;

/// A number with the range that it must lie in, both ends included.
#[derive(Clone, Copy, Debug, PartialEq, Eq)]
pub struct Ranged {
    pub value: i32,
    pub least: i32,
    pub most: i32,
}

impl Ranged {
    /// A place or gap: within 1,000,000 diagram units of 0.
    pub fn coordinate(value: i32) -> Ranged
        ensures { result ≡ coordinate value }
    {
        Ranged {
            value,
            least: -1_000_000,
            most: 1_000_000,
        }
    }

    /// The width or height of a shape: 1 to 10,000 diagram units.
    pub fn extent(value: i32) -> Ranged
        ensures { result ≡ extent value }
    {
        Ranged {
            value,
            least: 1,
            most: 10_000,
        }
    }

    /// The width or height of a page: 1 to 1,000,000 diagram units.
    pub fn page_extent(value: i32) -> Ranged
        ensures { result ≡ page_extent value }
    {
        Ranged {
            value,
            least: 1,
            most: 1_000_000,
        }
    }

    /// A pad or margin: 0 to 10,000 diagram units.
    pub fn border(value: i32) -> Ranged
        ensures { result ≡ border value }
    {
        Ranged {
            value,
            least: 0,
            most: 10_000,
        }
    }

    fn is_outside(&self) -> bool
        ensures { result ≡ is_outside self.now }
    {
        self.value < self.least || self.most < self.value
    }
}

/// The first of the numbers that lies outside its range.
fn first_outside(numbers: &[Ranged]) -> Option<i32>
    ensures { result ≡ option_map (λ r. r.value) (find is_outside numbers.now) }
{
    let outside = numbers.iter().find(|number| number.is_outside())?;
    Some(outside.value)
}

/// The first number of the edit that lies outside its range.
pub fn first_number_outside(edit: &Edit) -> Option<i32>
    ensures { result ≡ option_map (λ r. r.value) (find is_outside (numbers edit.now)) }
{
    match edit {
        Edit::Put { x, y, w, h, .. } => first_of_shape(*x, *y, *w, *h),
        Edit::Size { w, h, .. } => first_of_size(*w, *h),
        Edit::Move { x, y, .. } => first_of_corner(*x, *y),
        Edit::Shift { at, .. } | Edit::Guide { at, .. } => first_of_place(*at),
        Edit::Spread { gap, .. } | Edit::Rank { gap, .. } | Edit::Apart { gap, .. } => {
            first_of_place(*gap)
        }
        Edit::Group { pad, .. } => first_of_pad(*pad),
        Edit::Page {
            x,
            y,
            w,
            h,
            margin,
            ..
        } => first_of_page(*x, *y, *w, *h, *margin),
        Edit::Hold { .. }
        | Edit::Free { .. }
        | Edit::Remove { .. }
        | Edit::Join { .. }
        | Edit::Unlink { .. }
        | Edit::Align { .. }
        | Edit::Drop { .. } => None,
    }
}

fn first_of_shape(x: i32, y: i32, w: i32, h: i32) -> Option<i32>
    ensures { result ≡ option_map (λ r. r.value) (find is_outside (coordinate x ∷ coordinate y ∷ extent w ∷ extent h ∷ [])) }
{
    first_outside(&[
        Ranged::coordinate(x),
        Ranged::coordinate(y),
        Ranged::extent(w),
        Ranged::extent(h),
    ])
}

fn first_of_size(w: i32, h: i32) -> Option<i32>
    ensures { result ≡ option_map (λ r. r.value) (find is_outside (extent w ∷ extent h ∷ [])) }
{
    first_outside(&[Ranged::extent(w), Ranged::extent(h)])
}

fn first_of_corner(x: i32, y: i32) -> Option<i32>
    ensures { result ≡ option_map (λ r. r.value) (find is_outside (coordinate x ∷ coordinate y ∷ [])) }
{
    first_outside(&[Ranged::coordinate(x), Ranged::coordinate(y)])
}

fn first_of_place(place: i32) -> Option<i32>
    ensures { result ≡ option_map (λ r. r.value) (find is_outside (coordinate place ∷ [])) }
{
    first_outside(&[Ranged::coordinate(place)])
}

fn first_of_pad(pad: i32) -> Option<i32>
    ensures { result ≡ option_map (λ r. r.value) (find is_outside (border pad ∷ [])) }
{
    first_outside(&[Ranged::border(pad)])
}

fn first_of_page(x: i32, y: i32, w: i32, h: i32, margin: i32) -> Option<i32>
    ensures { result ≡ option_map (λ r. r.value) (find is_outside (coordinate x ∷ coordinate y ∷ page_extent w ∷ page_extent h ∷ border margin ∷ [])) }
{
    first_outside(&[
        Ranged::coordinate(x),
        Ranged::coordinate(y),
        Ranged::page_extent(w),
        Ranged::page_extent(h),
        Ranged::border(margin),
    ])
}
