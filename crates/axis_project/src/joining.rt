//! The parts of an axis: which variables are joined by chains of separations.
ghost use Rattle.std.specs.Prelude.{◌≡◌, ◌<◌, ◌≤◌, All, ℕ, IfOk, length, map, slice_index};
ghost use Rattle.units.specs.Problem.{IsSeparation};
ghost use Rattle.axis_project.specs.Parts.{ArePartsOf};
ghost use Rattle.axis_project.specs.Labels.{renamed, joined};

use std::alloc::Global;
use units::{Memory, Sep};

/// Each variable as a part of its own.
fn alone(alloc: Global, n: u16) -> Result<Vec<u16>, Memory>
    ensures as_long { IfOk result (λ labels. length labels.items ≡ n) }
    ensures own { IfOk result (λ labels. (v : ℕ) → v < n → slice_index labels.items v ≡ v) }
{
    let mut labels = Vec::with_capacity(alloc, n as usize)?;
    for var in 0..n {
        labels.push(var)?;
    }
    Ok(labels)
}

/// The label, or another one in its place.
fn renamed(label: u16, from: u16, to: u16) -> u16
    ensures { result ≡ renamed from to label }
{
    if label == from { to } else { label }
}

/// Writes another label wherever one stands.
fn relabel(labels: &mut Vec<u16>, from: u16, to: u16)
    ensures { labels.new.items ≡ map (renamed from to) labels.old.items }
{
    for at in 0..labels.len() {
        labels[at] = renamed(labels[at], from, to);
    }
}

/// Gives what a separation joins one label, the lesser one.
fn join(labels: &mut Vec<u16>, sep: Sep)
    requires left { sep.left < length labels.old.items }
    requires right { sep.right < length labels.old.items }
    ensures { labels.new.items ≡ joined labels.old.items sep }
{
    let left = labels[sep.left as usize];
    let right = labels[sep.right as usize];
    if left < right {
        relabel(labels, right, left);
    } else {
        relabel(labels, left, right);
    }
}

/// For each of `n` variables the least variable that a chain of separations, each followed either way, joins it to. So variables with
/// the same answer make up a part of the axis, and no separation stands between two parts. There are at most 258 variables and 2,048
/// separations, each between two different variables below `n`, with a gap within 1,000,000 diagram units of 0. Answers `Memory`
/// for want of memory alone.
pub fn parts(alloc: Global, n: u16, seps: &[Sep]) -> Result<Vec<u16>, Memory>
    requires variables { n ≤ 258 }
    requires count { length seps.now ≤ 2048 }
    requires sound { All (λ separation. IsSeparation n separation) seps.now }
    ensures { IfOk result (λ parts. ArePartsOf n seps.now parts.items) }
{
    let mut labels = alone(alloc, n)?;
    for at in 0..seps.len() {
        join(&mut labels, seps[at]);
    }
    Ok(labels)
}
