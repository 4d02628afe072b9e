//! Sums over the block of a variable, for use alone: each call computes its answer afresh.
ghost use Rattle.std.specs.Prelude.{◌≡◌, ◌↔◌, ◌<◌, ◌≤◌, ◌*◌, ◌^◌, IsTrue, ◌-ℤ◌, ◌*ℤ◌, ◌<ℤ◌, ℕ, pos, nat_abs, length, IfOk, Contains, true, false};
ghost use Rattle.std.specs.List.{All};
ghost use Rattle.block_sums.specs.Blocks.{IsOpen, IsWeight, HasSums, IsMean, IsPull, without};
ghost use Rattle.units.specs.Separation.{separation_at};
ghost use Rattle.block_sums.specs.Ends.{end_of};
ghost use Rattle.block_sums.specs.Legs.{IsBlockTree};
ghost use Rattle.block_sums.specs.Loads.{sum_of, sizes};

use crate::chains::{chain, end_of};
use crate::legs::Leg;
use crate::loads::{own_moments, own_weights};
use crate::reach::reach;
use crate::stops::{product, twice_less};
use frac128::Frac;
use std::alloc::{AllocError, Global};
use units::{Memory, Problem};

/// The block of a variable as a tree.
pub(crate) fn tree(
    alloc: Global,
    problem: &Problem,
    active: &[u16],
    root: u16,
) -> Result<Vec<Leg>, AllocError>
    requires below { All (λ k. k < length problem.now.separations) active.now }
    requires root { root < length problem.now.desired }
    ensures tree { IfOk result (λ legs. IsBlockTree problem.now.separations active.now root legs.items) }
    ensures short { IfOk result (λ legs. length legs.items ≤ 258) }
    ensures within { IfOk result (λ legs. All (λ leg. leg.variable < length problem.now.desired) legs.items) }
    ensures near { IfOk result (λ legs. All (λ leg. nat_abs leg.offset ≤ 257000000) legs.items) }
{
    let count = problem.desired().len();
    let lefts = chain(alloc, count, problem.seps(), active, false)?;
    let rights = chain(alloc, count, problem.seps(), active, true)?;
    reach(alloc, count, problem.seps(), active, &lefts, &rights, root)
}

/// The sum of loads.
fn total(loads: &[i64]) -> i64
    requires { sizes loads.now < 2 ^ 62 }
    ensures value { result ≡ sum_of loads.now }
    ensures small { nat_abs result ≤ sizes loads.now }
{
    let mut sum = 0;
    for load in loads {
        sum += *load;
    }
    sum
}

/// The weight of a block, and its moment: the sum of the weighted wishes for the place of the root.
#[derive(Clone, Copy, Debug)]
struct Sums {
    weight: i64,
    moment: i64,
}

/// The weight and the moment of the block of a variable.
fn sums_of(alloc: Global, problem: &Problem, active: &[u16], root: u16) -> Result<Sums, AllocError>
    requires below { All (λ k. k < length problem.now.separations) active.now }
    requires root { root < length problem.now.desired }
    ensures sums { IfOk result (λ sums. HasSums problem.now active.now root sums.weight sums.moment) }
    ensures above { IfOk result (λ sums. pos 0 <ℤ sums.weight) }
    ensures light { IfOk result (λ sums. nat_abs sums.weight ≤ 258000) }
    ensures near { IfOk result (λ sums. nat_abs sums.moment ≤ 66822000000000) }
{
    let legs = tree(alloc, problem, active, root)?;
    Ok(Sums {
        weight: total(&own_weights(alloc, problem, &legs)?),
        moment: total(&own_moments(alloc, problem, &legs)?),
    })
}

/// The weight of the block of `v`, 1 to 258,000. The conditions are those of [`crate::block`].
pub fn weight(alloc: Global, problem: &Problem, active: &[u16], v: u16) -> Result<i64, Memory>
    requires open { IsOpen problem.now active.now }
    requires variable { v < length problem.now.desired }
    ensures { IfOk result (IsWeight problem.now active.now v) }
{
    Ok(sums_of(alloc, problem, active, v)?.weight)
}

/// The best place of `v` in diagram units, in lowest terms: where its block, with the separations of the list tight, has the least
/// weighted squared distance from the desired places. The conditions are those of [`crate::block`].
///
/// Source: the place of a block in "Fast Node Overlap Removal" (Dwyer, Marriott, Stuckey 2005).
pub fn mean(alloc: Global, problem: &Problem, active: &[u16], v: u16) -> Result<Frac, Memory>
    requires open { IsOpen problem.now active.now }
    requires variable { v < length problem.now.desired }
    ensures { IfOk result (IsMean problem.now active.now v) }
{
    let sums = sums_of(alloc, problem, active, v)?;
    Ok(Frac::of(i128::from(sums.moment), sums.weight).reduced())
}

/// A list without one separation.
fn left_out(alloc: Global, active: &[u16], sep: u16) -> Result<Vec<u16>, AllocError>
    ensures { IfOk result (λ rest. rest.items ≡ without active.now sep) }
{
    active.iter().copied().filter(|k| *k != sep).collect(alloc)
}

/// The weight of the block of the right end of `sep`, or of its left end where `right` is false, with `sep` left out of the list.
/// `sep` is in the list; the other conditions are those of [`crate::block`].
pub fn side(
    alloc: Global,
    problem: &Problem,
    active: &[u16],
    sep: u16,
    right: bool,
) -> Result<i64, Memory>
    requires open { IsOpen problem.now active.now }
    requires among { Contains active.now sep }
    ensures { IfOk result (IsWeight problem.now (without active.now sep) (end_of (separation_at problem.now.separations sep) right)) }
{
    let rest = left_out(alloc, active, sep)?;
    let end = end_of(&problem.seps()[sep as usize], right);
    Ok(sums_of(alloc, problem, &rest, end)?.weight)
}

/// The numerator of a pull over the weight of the whole block: of its weight and moment, and those of the side of the right end.
fn pulled(whole: Sums, side: Sums) -> i128
    requires whole_weight { nat_abs whole.weight ≤ 258000 }
    requires whole_moment { nat_abs whole.moment ≤ 66822000000000 }
    requires side_weight { nat_abs side.weight ≤ 258000 }
    requires side_moment { nat_abs side.moment ≤ 66822000000000 }
    ensures value { result ≡ pos 2 *ℤ (whole.moment *ℤ side.weight -ℤ side.moment *ℤ whole.weight) }
    ensures small { nat_abs result < 2 ^ 66 }
{
    twice_less(
        product(whole.moment, side.weight),
        product(side.moment, whole.weight),
    )
}

/// The multiplier of `sep` with its block at its best place, in lowest terms: what it has to exert on the side of its right end, so
/// that this side stands still. It is in weights times diagram units. The conditions are those of [`side`].
pub fn pull(alloc: Global, problem: &Problem, active: &[u16], sep: u16) -> Result<Frac, Memory>
    requires open { IsOpen problem.now active.now }
    requires among { Contains active.now sep }
    ensures { IfOk result (IsPull problem.now active.now sep) }
{
    let rest = left_out(alloc, active, sep)?;
    let right = problem.seps()[sep as usize].right;
    let whole = sums_of(alloc, problem, active, right)?;
    let side = sums_of(alloc, problem, &rest, right)?;
    Ok(Frac::of(pulled(whole, side), whole.weight).reduced())
}
