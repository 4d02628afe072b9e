//! The answer.
ghost use Rattle.std.specs.Prelude.{◌≡◌, ◌↔◌, length, ◌≤◌, All, IfOk, IsTrue, replicate, []};
ghost use Rattle.units.specs.Problem.{IsSeparation};
ghost use Rattle.units.specs.Separation.{SatisfiesAll};
ghost use Rattle.cycle_test.specs.Cycle.{IsPositiveCycle, HasPositiveCycle};
ghost use Rattle.cycle_test.specs.Feasibility.{IfPlaces, IfCycle, is_cycle};
ghost use Rattle.cycle_test.specs.Search.{values};

use crate::CycleArc;
use crate::reach::{Reach, Relaxation};
use crate::rising::risen;
use crate::sweep::sweep;
use std::alloc::{AllocError, Global};
use units::{Memory, Sep, Sequence};

/// Whether a list of separations can be satisfied.
#[derive(Drop)]
pub enum Verdict {
    /// Whole places in diagram units, one for each variable, that satisfy the list.
    Places(Sequence<i64>),
    /// A positive cycle of the list.
    Cycle(Sequence<CycleArc>),
}

/// Every variable at 0.
fn unreached(alloc: Global, n: u16) -> Result<Vec<Reach>, AllocError>
    ensures { IfOk result (λ reaches. reaches.items ≡ replicate n (record { value = 0; path = [] })) }
{
    let mut reaches = Vec::with_capacity(alloc, n as usize)?;
    for _ in 0..n {
        reaches.push(Reach {
            value: 0,
            path: Sequence::new(alloc),
        })?;
    }
    Ok(reaches)
}

/// The values as places.
fn places_of(alloc: Global, reaches: &[Reach]) -> Result<Sequence<i64>, AllocError>
    ensures { IfOk result (λ places. places ≡ values reaches.now) }
{
    let mut places = Vec::with_capacity(alloc, reaches.len())?;
    for reach in reaches {
        places.push(i64::from(reach.value))?;
    }
    Ok(Sequence::of(places))
}

/// Decides whether the separations between `n` variables can be satisfied, and shows why: whole places in diagram
/// units, one for each variable, that satisfy the list (exact separations in both directions), or a positive cycle
/// of the list. A cycle comes exactly where one exists. There are at most 258 variables and 2,048 separations, each
/// between two different variables below `n`, with a gap within 1,000,000 diagram units of 0. Answers `Memory` for
/// want of memory alone.
///
/// The method is a longest-path relaxation (Bellman and Ford). It runs without paths first; where the values don't come
/// to rest, it runs again, and each value keeps the path that it rests on, so that a cycle shows itself at the first arc
/// that closes one.
pub fn test(alloc: Global, n: u16, seps: &[Sep]) -> Result<Verdict, Memory>
    requires variables { n ≤ 258 }
    requires count { length seps.now ≤ 2048 }
    requires sound { All (λ separation. IsSeparation n separation) seps.now }
    ensures counted { IfOk result (λ verdict. IfPlaces verdict (λ places. length places ≡ n)) }
    ensures satisfied { IfOk result (λ verdict. IfPlaces verdict (λ places. SatisfiesAll places 1 seps.now)) }
    ensures positive { IfOk result (λ verdict. IfCycle verdict (λ arcs. IsPositiveCycle seps.now arcs)) }
    ensures exactly { IfOk result (λ verdict. IsTrue (is_cycle verdict) ↔ HasPositiveCycle seps.now) }
{
    if let Some(places) = risen(alloc, n, seps)? {
        return Ok(Verdict::Places(places));
    }
    let mut reaches = unreached(alloc, n)?;
    'rounds: loop {
        match sweep(alloc, seps, &mut reaches)? {
            Relaxation::AtRest => return Ok(Verdict::Places(places_of(alloc, &reaches)?)),
            Relaxation::Raised => {}
            Relaxation::Cycle(arcs) => return Ok(Verdict::Cycle(arcs)),
        }
    }
}
