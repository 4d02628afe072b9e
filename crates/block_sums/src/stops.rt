//! The force at which the growth of a force on a separation stops.
ghost use Rattle.std.specs.Prelude.{◌≡◌, ◌<◌, ◌≤◌, ◌*◌, ◌^◌, ◌↔◌, ℕ, length, pos, neg_ℤ, ◌*ℤ◌, ◌-ℤ◌, ◌+ℤ◌, ◌<ℤ◌, ◌≤ℤ◌, nat_abs, IsTrue, true, false, Some, IfSome};
ghost use Rattle.std.specs.List.{All};
ghost use Rattle.units.specs.Separation.{separation_at};
ghost use Rattle.block_sums.specs.Legs.{leg_at};
ghost use Rattle.block_sums.specs.Loads.{load_at};
ghost use Rattle.block_sums.specs.Solving.{HasBounds, HasSmallMarks, signed, rest_at, share_at};
ghost use Rattle.block_sums.specs.Stops.{IsFalling, IsThreshold, IsSmall, IsNoLater, IsFirst, IsEarlier, IsClosingForce, IsLookedAt};

use crate::legs::Leg;
use crate::sweeps::{BlockSums, Pushed};
use units::Sep;

/// The force at which the multiplier of a separation falls to 0, as a fraction: `rest` over `fall`.
#[derive(Clone, Copy, Debug)]
pub struct Threshold {
    /// The number of the separation.
    pub sep: u16,
    /// Its multiplier without force, times the weight of its block.
    pub rest: i128,
    /// What a unit of force takes from it, times the weight of its block.
    pub fall: i64,
}

/// The product of a moment and a weight.
pub(crate) fn product(moment: i64, weight: i64) -> i128
    requires moment { nat_abs moment ≤ 66822000000000 }
    requires weight { nat_abs weight ≤ 258000 }
    ensures value { result ≡ moment *ℤ weight }
    ensures small { nat_abs result ≤ 17240076000000000000 }
{
    i128::from(moment) * i128::from(weight)
}

/// Twice the difference of two products.
pub(crate) fn twice_less(first: i128, second: i128) -> i128
    requires first { nat_abs first ≤ 17240076000000000000 }
    requires second { nat_abs second ≤ 17240076000000000000 }
    ensures value { result ≡ pos 2 *ℤ (first -ℤ second) }
    ensures small { nat_abs result < 2 ^ 66 }
{
    2 * (first - second)
}

/// The product of a mark and a weight.
fn marked(mark: i64, weight: i64) -> i64
    requires mark { nat_abs mark ≤ 258 }
    requires weight { nat_abs weight ≤ 258000 }
    ensures value { result ≡ mark *ℤ weight }
    ensures small { nat_abs result ≤ 66564000 }
{
    mark * weight
}

/// A difference.
fn less(first: i64, second: i64) -> i64
    requires first { nat_abs first ≤ 66564000 }
    requires second { nat_abs second ≤ 66564000 }
    ensures value { result ≡ first -ℤ second }
    ensures small { nat_abs result < 2 ^ 27 }
{
    first - second
}

/// A large number with the sign of the way in which a separation is walked.
fn signed(along: bool, number: i128) -> i128
    requires { nat_abs number < 2 ^ 66 }
    ensures value { result ≡ signed along number }
    ensures small { nat_abs result < 2 ^ 66 }
{
    if along { number } else { -number }
}

/// A small number with the sign of the way in which a separation is walked.
fn signed_small(along: bool, number: i64) -> i64
    requires { nat_abs number < 2 ^ 27 }
    ensures value { result ≡ signed along number }
    ensures small { nat_abs result < 2 ^ 27 }
{
    if along { number } else { -number }
}

/// The multiplier of the separation of a leg without force, times the weight of its block.
pub fn rest_at(block: &BlockSums, at: usize) -> i128
    requires at { at < length block.now.legs.items }
    requires bounded { HasBounds block.now }
    ensures value { result ≡ rest_at block.now.legs.items block.now.weights.items block.now.moments.items at }
    ensures small { nat_abs result < 2 ^ 66 }
{
    let whole = product(block.moments[0], block.weights[at]);
    let hanging = product(block.moments[at], block.weights[0]);
    signed(block.legs[at].along, twice_less(whole, hanging))
}

/// What a unit of force adds to it.
fn share_at(pushed: &Pushed, at: usize) -> i64
    requires at { at < length pushed.now.block.legs.items }
    requires bounded { HasBounds pushed.now.block }
    requires small { HasSmallMarks pushed.now }
    ensures value { result ≡ share_at pushed.now.block.legs.items pushed.now.block.weights.items pushed.now.marks.items at }
    ensures small { nat_abs result < 2 ^ 27 }
{
    let whole = marked(pushed.marks[0], pushed.block.weights[at]);
    let hanging = marked(pushed.marks[at], pushed.block.weights[0]);
    signed_small(pushed.block.legs[at].along, less(whole, hanging))
}

/// The force at which the multiplier of the separation of a leg falls to 0: None where it doesn't fall, or may be below 0.
fn threshold_at(seps: &[Sep], pushed: &Pushed, at: usize) -> Option<Threshold>
    requires above { 0 < at }
    requires at { at < length pushed.now.block.legs.items }
    requires among { (leg_at pushed.now.block.legs.items at).sep < length seps.now }
    requires bounded { HasBounds pushed.now.block }
    requires small { HasSmallMarks pushed.now }
    ensures { IsLookedAt seps.now pushed.now.block.legs.items pushed.now.block.weights.items pushed.now.block.moments.items pushed.now.marks.items at result }
{
    let sep = pushed.block.legs[at].sep;
    if seps[sep as usize].exact {
        return None;
    }
    let share = share_at(pushed, at);
    if share >= 0 {
        return None;
    }
    Some(Threshold {
        sep,
        rest: rest_at(&pushed.block, at),
        fall: -share,
    })
}

/// A rest times a fall.
fn crossed(rest: i128, fall: i64) -> i128
    requires rest { nat_abs rest < 2 ^ 66 }
    requires fall { nat_abs fall < 2 ^ 27 }
    ensures value { result ≡ rest *ℤ fall }
    ensures small { nat_abs result < 2 ^ 93 }
{
    rest * i128::from(fall)
}

/// Whether the first force is below the second.
pub fn is_below(first: &Threshold, second: &Threshold) -> bool
    requires first { IsSmall first.now }
    requires second { IsSmall second.now }
    ensures { IsTrue result ↔ ((first.now.rest *ℤ second.now.fall) <ℤ (second.now.rest *ℤ first.now.fall)) }
{
    crossed(first.rest, second.fall) < crossed(second.rest, first.fall)
}

/// The earlier of two thresholds. Of two at one force it is the first.
fn earlier(first: Option<Threshold>, second: Option<Threshold>) -> Option<Threshold>
    requires first { IfSome first IsSmall }
    requires second { IfSome second IsSmall }
    ensures { IsEarlier first second result }
{
    let Some(one) = first else {
        return second;
    };
    let Some(other) = second else {
        return first;
    };
    if is_below(&other, &one) {
        return second;
    }
    first
}

/// The first threshold of a block, or of one that was found before.
pub fn first_fall(seps: &[Sep], pushed: &Pushed, before: Option<Threshold>) -> Option<Threshold>
    requires before { IfSome before IsSmall }
    requires among { (j : ℕ) → 0 < j → j < length pushed.now.block.legs.items → (leg_at pushed.now.block.legs.items j).sep < length seps.now }
    requires bounded { HasBounds pushed.now.block }
    requires small { HasSmallMarks pushed.now }
    ensures { IsFirst seps.now pushed.now.block.legs.items pushed.now.block.weights.items pushed.now.block.moments.items pushed.now.marks.items (length pushed.now.block.legs.items) before result }
{
    let mut first = before;
    for at in 1..pushed.block.legs.len() {
        first = earlier(first, threshold_at(seps, pushed, at));
    }
    first
}

/// A gap times a weight.
fn stretched(gap: i32, weight: i64) -> i64
    requires gap { nat_abs gap ≤ 1000000 }
    requires weight { nat_abs weight ≤ 258000 }
    ensures value { result ≡ gap *ℤ weight }
    ensures small { nat_abs result ≤ 258000000000 }
{
    i64::from(gap) * weight
}

/// Twice the sum of two numbers less a third.
fn twice_sum(first: i128, second: i128, third: i128) -> i128
    requires first { nat_abs first ≤ 17240076000000000000 }
    requires second { nat_abs second ≤ 66564000000000000 }
    requires third { nat_abs third ≤ 17240076000000000000 }
    ensures value { result ≡ pos 2 *ℤ ((first +ℤ second) -ℤ third) }
    ensures small { nat_abs result < 2 ^ 66 }
{
    2 * (first + second - third)
}

/// The product of a stretched gap and a weight.
fn stretched_twice(stretched: i64, weight: i64) -> i128
    requires stretched { nat_abs stretched ≤ 258000000000 }
    requires weight { nat_abs weight ≤ 258000 }
    ensures value { result ≡ stretched *ℤ weight }
    ensures small { nat_abs result ≤ 66564000000000000 }
{
    i128::from(stretched) * i128::from(weight)
}

/// The sum of two weights.
fn together(first: i64, second: i64) -> i64
    requires first { nat_abs first ≤ 258000 }
    requires second { nat_abs second ≤ 258000 }
    ensures { result ≡ first +ℤ second }
{
    first + second
}

/// The force that closes the gap of a separation between two blocks of these weights and moments.
pub fn closing_force(
    sep: u16,
    gap: i32,
    left_weight: i64,
    left_moment: i64,
    right_weight: i64,
    right_moment: i64,
) -> Threshold
    requires gap { nat_abs gap ≤ 1000000 }
    requires left_weight { nat_abs left_weight ≤ 258000 }
    requires right_weight { nat_abs right_weight ≤ 258000 }
    requires left_moment { nat_abs left_moment ≤ 66822000000000 }
    requires right_moment { nat_abs right_moment ≤ 66822000000000 }
    requires left_above { pos 0 <ℤ left_weight }
    requires right_above { pos 0 <ℤ right_weight }
    ensures sep { result.sep ≡ sep }
    ensures force { IsClosingForce gap left_weight left_moment right_weight right_moment result }
    ensures small { IsSmall result }
{
    let pushed = product(left_moment, right_weight);
    let missing = stretched_twice(stretched(gap, left_weight), right_weight);
    let pulled = product(right_moment, left_weight);
    Threshold {
        sep,
        rest: twice_sum(pushed, missing, pulled),
        fall: together(left_weight, right_weight),
    }
}
