//! The common case: places found by values that rise, without the paths that show a cycle.
ghost use Rattle.std.specs.Prelude.{◌≡◌, ◌<◌, ◌≤◌, length, All, IfOk, IfSome, IsTrue};
ghost use Rattle.units.specs.Problem.{IsSeparation};
ghost use Rattle.units.specs.Separation.{Satisfies, SatisfiesAll};

use std::alloc::{AllocError, Global};
use units::{Sep, Sequence};

/// Places that satisfy the list, where values that rise from 0 come to rest within one round more than there are
/// variables; nothing where they don't. The rounds keep no paths, and what they come to is looked at once.
pub fn risen(alloc: Global, n: u16, seps: &[Sep]) -> Result<Option<Sequence<i64>>, AllocError>
    requires sound { All (λ separation. IsSeparation n separation) seps.now }
    ensures { IfOk result (λ found. IfSome found (λ places. (length places ≡ n) × SatisfiesAll places 1 seps.now)) }
{
    let mut places = zeros(alloc, n)?;
    for _ in 0..=n {
        if !raise_all(&mut places, seps) {
            break;
        }
    }
    Ok(if are_met(&places, seps) {
        Some(Sequence::of(places))
    } else {
        None
    })
}

/// Every variable at 0.
fn zeros(alloc: Global, n: u16) -> Result<Vec<i64>, AllocError>
    ensures { IfOk result (λ places. length places.items ≡ n) }
{
    let mut places = Vec::with_capacity(alloc, n as usize)?;
    for _ in 0..n {
        places.push(0)?;
    }
    Ok(places)
}

/// Lets each separation raise the values at its ends once, in order. Whether some value rose.
fn raise_all(places: &mut Vec<i64>, seps: &[Sep]) -> bool
    requires sound { All (λ separation. IsSeparation (length places.old.items) separation) seps.now }
    ensures { length places.new.items ≡ length places.old.items }
{
    let mut raised = false;
    for at in 0..seps.len() {
        if raise(places, seps[at]) {
            raised = true;
        }
    }
    raised
}

/// Lets a separation raise the value on its right and, where it is exact, the one on its left.
fn raise(places: &mut Vec<i64>, sep: Sep) -> bool
    requires { IsSeparation (length places.old.items) sep }
    ensures { length places.new.items ≡ length places.old.items }
{
    let gap = i64::from(sep.gap);
    let forwards = lift(places, sep.left, sep.right, gap);
    let back = sep.exact && lift(places, sep.right, sep.left, -gap);
    forwards || back
}

/// Raises the value of one variable to that of another and a gap, where it is below.
fn lift(places: &mut Vec<i64>, from: u16, to: u16, gap: i64) -> bool
    requires from { from < length places.old.items }
    requires to { to < length places.old.items }
    ensures { length places.new.items ≡ length places.old.items }
{
    let asked = i64::saturating_add(places[from as usize], gap);
    if asked <= places[to as usize] {
        return false;
    }
    places[to as usize] = asked;
    true
}

/// Whether the places satisfy the list.
fn are_met(places: &[i64], seps: &[Sep]) -> bool
    requires sound { All (λ separation. IsSeparation (length places.now) separation) seps.now }
    ensures { IsTrue result → SatisfiesAll places.now 1 seps.now }
{
    for at in 0..seps.len() {
        if !is_met(places, seps[at]) {
            return false;
        }
    }
    true
}

/// Whether the places satisfy a separation.
fn is_met(places: &[i64], sep: Sep) -> bool
    requires { IsSeparation (length places.now) sep }
    ensures { IsTrue result → Satisfies places.now 1 sep }
{
    let apart = i64::checked_sub(places[sep.right as usize], places[sep.left as usize]);
    let gap = i64::from(sep.gap);
    match apart {
        None => false,
        Some(apart) => {
            if sep.exact {
                apart == gap
            } else {
                gap <= apart
            }
        }
    }
}
