//! One round over the list.
ghost use Rattle.std.specs.Prelude.{◌<◌, length, ◌≤◌, All, IfOk};
ghost use Rattle.units.specs.Problem.{IsSeparation};
ghost use Rattle.units.specs.Separation.{Satisfies, SatisfiesAll, separation_at};
ghost use Rattle.cycle_test.specs.Search.{IsState, IsRelaxation, values};

use crate::CycleArc;
use crate::reach::{Reach, Relaxation};
use crate::relax::relax;
use std::alloc::{AllocError, Global};
use units::Sep;

/// Tries a separation forwards and, where it is exact, back.
fn relax_separation(
    alloc: Global,
    seps: &[Sep],
    reaches: &mut Vec<Reach>,
    sep: u16,
) -> Result<Relaxation, AllocError>
    requires few { length reaches.old.items ≤ 258 }
    requires state { IsState seps.now reaches.old.items }
    requires sound { All (λ separation. IsSeparation (length reaches.old.items) separation) seps.now }
    requires among { sep < length seps.now }
    ensures { IfOk result (IsRelaxation seps.now reaches.old.items reaches.new.items (Satisfies (values reaches.old.items) 1 (separation_at seps.now sep))) }
{
    match relax(alloc, seps, reaches, CycleArc { sep, back: false })? {
        Relaxation::AtRest => {}
        other => return Ok(other),
    }
    if seps[sep as usize].exact {
        return relax(alloc, seps, reaches, CycleArc { sep, back: true });
    }
    Ok(Relaxation::AtRest)
}

/// Tries each separation once, in order.
pub fn sweep(
    alloc: Global,
    seps: &[Sep],
    reaches: &mut Vec<Reach>,
) -> Result<Relaxation, AllocError>
    requires few { length reaches.old.items ≤ 258 }
    requires count { length seps.now ≤ 2048 }
    requires state { IsState seps.now reaches.old.items }
    requires sound { All (λ separation. IsSeparation (length reaches.old.items) separation) seps.now }
    ensures { IfOk result (IsRelaxation seps.now reaches.old.items reaches.new.items (SatisfiesAll (values reaches.old.items) 1 seps.now)) }
{
    let mut raised = false;
    for sep in 0..seps.len() as u16 {
        match relax_separation(alloc, seps, reaches, sep)? {
            Relaxation::AtRest => {}
            Relaxation::Raised => raised = true,
            Relaxation::Cycle(arcs) => return Ok(Relaxation::Cycle(arcs)),
        }
    }
    Ok(if raised {
        Relaxation::Raised
    } else {
        Relaxation::AtRest
    })
}
