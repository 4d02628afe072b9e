//! Reaching the block of a variable.
ghost use Rattle.std.specs.Prelude.{◌≡◌, ◌<◌, ◌≤◌, ◌+◌, ◌*◌, ◌+ℤ◌, length, IfOk, true, false, not, nat_abs, slice_index_or};
ghost use Rattle.std.specs.List.{All};
ghost use Rattle.units.specs.Problem.{IsSeparation};
ghost use Rattle.block_sums.specs.Ends.{end_of, end_at, AreChains};
ghost use Rattle.block_sums.specs.Legs.{leg_at, variable_at, stride, IsGrown, IsLonger, IsCleared, IsBlockTree};

use crate::chains::{Chains, end_of};
use crate::legs::Leg;
use std::alloc::{AllocError, Global};
use units::Sep;

/// How far a walk over a separation leads, where it is tight.
fn stride(sep: &Sep, along: bool) -> i64
    requires { nat_abs sep.now.gap ≤ 1000000 }
    ensures value { result ≡ stride sep.now along }
    ensures near { nat_abs result ≤ 1000000 }
{
    let gap = i64::from(sep.gap);
    if along { gap } else { -gap }
}

/// An offset, and a stride more.
fn further(offset: i64, stride: i64) -> i64
    requires offset { nat_abs offset ≤ 257000000 }
    requires stride { nat_abs stride ≤ 1000000 }
    ensures { result ≡ offset +ℤ stride }
{
    offset + stride
}

/// The leg over a separation from the leg of this number.
fn leg_over(from: &Leg, at: usize, number: u16, sep: &Sep, along: bool) -> Leg
    requires at { at < 258 }
    requires near { nat_abs from.now.offset ≤ 1000000 * at }
    requires gap { nat_abs sep.now.gap ≤ 1000000 }
    ensures variable { result.variable ≡ end_of sep.now along }
    ensures parent { result.parent ≡ at }
    ensures sep { result.sep ≡ number }
    ensures along { result.along ≡ along }
    ensures offset { result.offset ≡ from.now.offset +ℤ stride sep.now along }
{
    Leg {
        variable: end_of(sep, along),
        parent: at as u16,
        sep: number,
        along,
        offset: further(from.offset, stride(sep, along)),
    }
}

/// Crosses the active separation at a place of the list, from a variable that was reached.
fn cross(
    seps: &[Sep],
    active: &[u16],
    legs: &mut Vec<Leg>,
    reached: &mut [bool],
    root: u16,
    at: usize,
    place: usize,
    along: bool,
) -> Result<(), AllocError>
    requires below { All (λ k. k < length seps.now) active.now }
    requires sound { All (λ sep. IsSeparation (length reached.old) sep) seps.now }
    requires short { length reached.old ≤ 258 }
    requires at { at < length legs.old.items }
    requires place { place < length active.now }
    requires from { end_at seps.now active.now (not along) place ≡ variable_at legs.old.items at }
    requires grown { IsGrown seps.now active.now root legs.old.items reached.old }
    ensures grown { IfOk result (λ _. IsGrown seps.now active.now root legs.new.items reached.new) }
    ensures longer { IfOk result (λ _. IsLonger legs.old.items legs.new.items reached.old reached.new) }
    ensures there { IfOk result (λ _. slice_index_or reached.new (end_at seps.now active.now along place) false ≡ true) }
{
    let number = active[place];
    let sep = seps[number as usize];
    if reached[end_of(&sep, along) as usize] {
        return Ok(());
    }
    let leg = leg_over(&legs[at], at, number, &sep, along);
    legs.push(leg)?;
    reached[leg.variable as usize] = true;
    Ok(())
}

/// Crosses each active separation that leaves a variable on one side.
fn visit(
    seps: &[Sep],
    active: &[u16],
    chains: &Chains,
    legs: &mut Vec<Leg>,
    reached: &mut [bool],
    root: u16,
    at: usize,
    along: bool,
) -> Result<(), AllocError>
    requires below { All (λ k. k < length seps.now) active.now }
    requires sound { All (λ sep. IsSeparation (length reached.old) sep) seps.now }
    requires short { length reached.old ≤ 258 }
    requires at { at < length legs.old.items }
    requires within { variable_at legs.old.items at < length reached.old }
    requires chained { AreChains seps.now active.now (not along) (length reached.old) chains.now }
    requires grown { IsGrown seps.now active.now root legs.old.items reached.old }
    ensures grown { IfOk result (λ _. IsGrown seps.now active.now root legs.new.items reached.new) }
    ensures longer { IfOk result (λ _. IsLonger legs.old.items legs.new.items reached.old reached.new) }
    ensures cleared { IfOk result (λ _. IsCleared seps.now active.now reached.new (variable_at legs.old.items at) along) }
{
    let mut link = chains.lasts[legs[at].variable as usize];
    while link != 0 {
        let place = link - 1;
        cross(seps, active, legs, reached, root, at, place, along)?;
        link = chains.befores[place];
    }
    Ok(())
}

/// Grows a tree until nothing leads out of it.
fn spread(
    seps: &[Sep],
    active: &[u16],
    lefts: &Chains,
    rights: &Chains,
    legs: &mut Vec<Leg>,
    reached: &mut [bool],
    root: u16,
) -> Result<(), AllocError>
    requires below { All (λ k. k < length seps.now) active.now }
    requires sound { All (λ sep. IsSeparation (length reached.old) sep) seps.now }
    requires short { length reached.old ≤ 258 }
    requires lefts { AreChains seps.now active.now false (length reached.old) lefts.now }
    requires rights { AreChains seps.now active.now true (length reached.old) rights.now }
    requires grown { IsGrown seps.now active.now root legs.old.items reached.old }
    ensures tree { IfOk result (λ _. IsBlockTree seps.now active.now root legs.new.items) }
    ensures short { IfOk result (λ _. length legs.new.items ≤ length reached.old) }
    ensures within { IfOk result (λ _. All (λ leg. leg.variable < length reached.old) legs.new.items) }
    ensures near { IfOk result (λ _. All (λ leg. nat_abs leg.offset ≤ 257000000) legs.new.items) }
{
    let mut at = 0;
    while at < legs.len() {
        visit(seps, active, lefts, legs, reached, root, at, true)?;
        visit(seps, active, rights, legs, reached, root, at, false)?;
        at += 1;
    }
    Ok(())
}

/// The block of a variable as a tree.
pub fn reach(
    alloc: Global,
    count: usize,
    seps: &[Sep],
    active: &[u16],
    lefts: &Chains,
    rights: &Chains,
    root: u16,
) -> Result<Vec<Leg>, AllocError>
    requires below { All (λ k. k < length seps.now) active.now }
    requires sound { All (λ sep. IsSeparation count sep) seps.now }
    requires short { count ≤ 258 }
    requires root { root < count }
    requires lefts { AreChains seps.now active.now false count lefts.now }
    requires rights { AreChains seps.now active.now true count rights.now }
    ensures tree { IfOk result (λ legs. IsBlockTree seps.now active.now root legs.items) }
    ensures short { IfOk result (λ legs. length legs.items ≤ count) }
    ensures within { IfOk result (λ legs. All (λ leg. leg.variable < count) legs.items) }
    ensures near { IfOk result (λ legs. All (λ leg. nat_abs leg.offset ≤ 257000000) legs.items) }
{
    let mut reached = vec![in alloc; false; count]?;
    let mut legs = Vec::with_capacity(alloc, count)?;
    reached[root as usize] = true;
    legs.push(Leg {
        variable: root,
        parent: 0,
        sep: 0,
        along: false,
        offset: 0,
    })?;
    spread(seps, active, lefts, rights, &mut legs, &mut reached, root)?;
    Ok(legs)
}
