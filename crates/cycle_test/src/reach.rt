//! How far a variable is pushed, and by which arcs.
ghost use Rattle.std.specs.Prelude.{◌≡◌, ◌<◌, ◌≤◌, ◌++◌, ◌∷◌, [], length, nat_eq, false, IfOk, MatchOption, slice_index_or};
ghost use Rattle.std.specs.List.{All, list_any};
ghost use Rattle.cycle_test.specs.Cycle.{IsArc, starts};
ghost use Rattle.cycle_test.specs.Search.{reach_at, value_at};

use crate::CycleArc;
use std::alloc::{AllocError, Global};
use units::{Sep, Sequence};

/// A variable's value, and the path of arcs whose gaps add up to it.
#[derive(Drop)]
pub struct Reach {
    pub value: u32,
    pub path: Sequence<CycleArc>,
}

/// What relaxing an arc, a separation or the whole list came to.
#[derive(Drop)]
pub enum Relaxation {
    /// Nothing asked for more.
    AtRest,
    /// Some value rose.
    Raised,
    /// An arc closed a positive cycle.
    Cycle(Sequence<CycleArc>),
}

/// The value of a variable.
pub fn value_of(reaches: &[Reach], variable: u16) -> u32
    requires { variable < length reaches.now }
    ensures { result ≡ value_at reaches.now variable }
{
    reaches[variable as usize].value
}

/// The path to a variable.
pub fn path_of(reaches: &[Reach], variable: u16) -> &[CycleArc]
    requires { variable < length reaches.now }
    ensures { result.now ≡ (reach_at reaches.now variable).path }
{
    reaches[variable as usize].path.as_slice()
}

/// The arcs, and one more.
pub fn extended(
    alloc: Global,
    arcs: &[CycleArc],
    arc: CycleArc,
) -> Result<Sequence<CycleArc>, AllocError>
    ensures { IfOk result (λ longer. longer ≡ arcs.now ++ arc ∷ []) }
{
    let mut longer = Vec::with_capacity(alloc, arcs.len() + 1)?;
    longer.extend_from_slice(arcs)?;
    longer.push(arc)?;
    Ok(Sequence::of(longer))
}

/// Where on a path that ends in `last` the variable is visited: before the arc of this number, or at the end.
pub fn visit(seps: &[Sep], path: &[CycleArc], last: u16, variable: u16) -> Option<usize>
    requires { All (IsArc seps.now) path.now }
    ensures { MatchOption result
        (list_any (nat_eq variable) (starts seps.now path.now ++ last ∷ []) ≡ false)
        (λ k. (k ≤ length path.now) × (slice_index_or (starts seps.now path.now ++ last ∷ []) k 0 ≡ variable)) }
{
    for (k, arc) in path.iter().enumerate() {
        if arc.start(seps) == variable {
            return Some(k);
        }
    }
    if last == variable {
        Some(path.len())
    } else {
        None
    }
}
