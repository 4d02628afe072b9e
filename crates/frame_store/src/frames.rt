//! Frames.
ghost use Rattle.std.specs.Prelude.{◌≡◌, ◌↔◌, IfOk, IsTrue, All, map};
ghost use Rattle.frac128.specs.Fraction.{floor_of};
ghost use Rattle.multiplier_check.specs.Certificate.{IsNear};
ghost use Rattle.frame_store.specs.Frames.{drawn, HasNearPlaces};

use crate::places::{Desired, Places};
use frac128::Frac;
use multiplier_check::Certificate;
use std::alloc::Global;
use units::{Memory, Sequence};

/// One step of the layout: the places that it proposed, and on each axis the nearest places that satisfy the
/// constraints, with the multipliers that show it.
#[derive(Drop)]
pub struct Frame {
    pub desired: Desired,
    pub x: Certificate,
    pub y: Certificate,
}

/// The drawn places of a frame: the floors of its fractions. Floors keep every separation, since all gaps are
/// whole. Its places lie within 2^31 of 0, as those of a certificate that shows do.
pub fn drawn(alloc: Global, frame: &Frame) -> Result<Places, Memory>
    requires { HasNearPlaces frame.now }
    ensures { IfOk result (λ places. places ≡ drawn frame.now) }
{
    Ok(Places {
        x: floors(alloc, frame.x.places.as_slice())?,
        y: floors(alloc, frame.y.places.as_slice())?,
    })
}

/// Whether the drawn places of the frame are those before it. It takes no memory. The places of the frame lie
/// within 2^31 of 0, as those of a certificate that shows do.
pub fn settled(frame: &Frame, before: &Places) -> bool
    requires { HasNearPlaces frame.now }
    ensures { IsTrue result ↔ (drawn frame.now ≡ before.now) }
{
    are_floors(frame.x.places.as_slice(), before.x.as_slice())
        && are_floors(frame.y.places.as_slice(), before.y.as_slice())
}

/// The floors of fractions.
fn floors(alloc: Global, fractions: &[Frac]) -> Result<Sequence<i64>, Memory>
    requires { All IsNear fractions.now }
    ensures { IfOk result (λ numbers. numbers ≡ map floor_of fractions.now) }
{
    let mut numbers = Vec::new(alloc);
    for fraction in fractions {
        numbers.push(floor(fraction))?;
    }
    Ok(Sequence::of(numbers))
}

/// Whether the floors of the fractions are these numbers.
fn are_floors(fractions: &[Frac], numbers: &[i64]) -> bool
    requires { All IsNear fractions.now }
    ensures { IsTrue result ↔ (map floor_of fractions.now ≡ numbers.now) }
{
    if fractions.len() != numbers.len() {
        return false;
    }
    for (index, fraction) in fractions.iter().enumerate() {
        if floor(fraction) != numbers[index] {
            return false;
        }
    }
    true
}

/// The floor of a fraction within 2^31 of 0.
fn floor(fraction: &Frac) -> i64
    requires { IsNear fraction.now }
    ensures { result ≡ floor_of fraction.now }
{
    // Asked for what its type keeps, which the proof needs.
    let _den = fraction.unsigned_den();
    fraction.floor()
}
