//! One arc of the search.
ghost use Rattle.std.specs.Prelude.{◌≡◌, ◌<◌, length, ◌≤◌, All, IfOk, pos, ◌+ℤ◌, ◌≤ℤ◌};
ghost use Rattle.units.specs.Problem.{IsSeparation};
ghost use Rattle.cycle_test.specs.Cycle.{IsArc, start_of, end_of, gap_of};
ghost use Rattle.cycle_test.specs.Search.{IsState, IsRelaxation, IsContent, asked_by};

use crate::CycleArc;
use crate::reach::{Reach, Relaxation, extended, path_of, value_of, visit};
use std::alloc::{AllocError, Global};
use units::Sep;

/// What an arc asks the value at its end to be, at least.
fn asked_by(seps: &[Sep], reaches: &[Reach], arc: CycleArc) -> i64
    requires sound { All (λ separation. IsSeparation (length reaches.now) separation) seps.now }
    requires arc { IsArc seps.now arc }
    ensures { result ≡ asked_by seps.now reaches.now arc }
{
    i64::from(value_of(reaches, arc.start(seps))) + i64::from(arc.gap(seps))
}

/// Raises the value at the end of an arc where the arc asks for more, or closes a cycle where its path comes by there.
pub fn relax(
    alloc: Global,
    seps: &[Sep],
    reaches: &mut Vec<Reach>,
    arc: CycleArc,
) -> Result<Relaxation, AllocError>
    requires few { length reaches.old.items ≤ 258 }
    requires state { IsState seps.now reaches.old.items }
    requires sound { All (λ separation. IsSeparation (length reaches.old.items) separation) seps.now }
    requires arc { IsArc seps.now arc }
    ensures { IfOk result (IsRelaxation seps.now reaches.old.items reaches.new.items (IsContent seps.now reaches.old.items arc)) }
{
    let from = arc.start(seps);
    let to = arc.end(seps);
    let asked = asked_by(seps, reaches, arc);
    if asked <= i64::from(value_of(reaches, to)) {
        return Ok(Relaxation::AtRest);
    }
    let path = path_of(reaches, from);
    match visit(seps, path, from, to) {
        Some(k) => return Ok(Relaxation::Cycle(extended(alloc, &path[k..], arc)?)),
        None => {}
    }
    let path = extended(alloc, path, arc)?;
    reaches[to as usize] = Reach {
        value: asked as u32,
        path,
    };
    Ok(Relaxation::Raised)
}
