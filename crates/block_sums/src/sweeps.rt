//! The sums of a block, in one sweep.
ghost use Rattle.std.specs.Prelude.{◌≡◌, ◌≢◌, ◌<◌, ◌≤◌, ◌*◌, ◌^◌, ℕ, length, IfOk, true, false, nat_abs, pos, ◌<ℤ◌};
ghost use Rattle.std.specs.List.{All};
ghost use Rattle.units.specs.Separation.{separation_at};
ghost use Rattle.block_sums.specs.Ends.{AreChains};
ghost use Rattle.block_sums.specs.Legs.{leg_at};
ghost use Rattle.block_sums.specs.Loads.{load_at, sizes, sum_of, IsGathered};
ghost use Rattle.block_sums.specs.Solving.{Active, IsActive, IsSweep, HasBounds, TellsRest, AreMarks, AreSmall, HasSmallMarks, TellsStates};

use crate::chains::Chains;
use crate::legs::Leg;
use crate::loads::{gather, own_marks, own_moments, own_weights};
use crate::reach::reach;
use std::alloc::{AllocError, Global};
use units::Problem;

/// The block of a variable, and what each of its legs carries.
#[derive(Drop)]
pub struct BlockSums {
    /// The tree of the block.
    pub legs: Vec<Leg>,
    /// For each leg the weight of its variable and of all that hang on it, 1 to 258,000.
    pub weights: Vec<i64>,
    /// For each leg the weighted wishes of the same variables for the place of the root, within 2^46 of 0.
    pub moments: Vec<i64>,
}

/// A block on which a separation pushes that is being closed.
#[derive(Drop)]
pub struct Pushed {
    /// The block.
    pub block: BlockSums,
    /// For each leg 1 where the right end of the separation is its variable or hangs on it, less 1 where the left end does.
    pub marks: Vec<i64>,
}

/// Loads that are gathered.
fn gathered(mut loads: Vec<i64>, legs: &[Leg]) -> Vec<i64>
    requires some { 0 < length legs.now }
    requires as_long { length loads.items ≡ length legs.now }
    requires sooner { (j : ℕ) → 0 < j → j < length legs.now → (leg_at legs.now j).parent < j }
    requires small { sizes loads.items < 2 ^ 62 }
    ensures gathered { IsGathered legs.now loads.items result.items }
    ensures bounded { (j : ℕ) → nat_abs (load_at result.items j) ≤ sizes loads.items }
    ensures whole { load_at result.items 0 ≡ sum_of loads.items }
{
    gather(&mut loads, legs);
    loads
}

/// The sums of the block of a variable among the active separations.
///
/// One pass reaches the variables in order, one adds what each carries to the one that it hangs on, the last first. What the
/// sums say of the state at rest is the clause `tells`.
pub fn sweep(
    alloc: Global,
    problem: &Problem,
    active: &[u16],
    lefts: &Chains,
    rights: &Chains,
    root: u16,
) -> Result<BlockSums, AllocError>
    requires active { IsActive problem.now active.now }
    requires root { root < length problem.now.desired }
    requires lefts { AreChains problem.now.separations active.now false (length problem.now.desired) lefts.now }
    requires rights { AreChains problem.now.separations active.now true (length problem.now.desired) rights.now }
    ensures sums { IfOk result (λ block. IsSweep problem.now active.now root block.legs.items block.weights.items block.moments.items) }
    ensures bounded { IfOk result (λ block. HasBounds block) }
    ensures heavy { IfOk result (λ block. pos 0 <ℤ load_at block.weights.items 0) }
    ensures within { IfOk result (λ block. All (λ leg. leg.variable < length problem.now.desired) block.legs.items) }
    ensures tells { IfOk result (λ block. TellsRest problem.now active.now block.legs.items block.weights.items block.moments.items) }
{
    let legs = reach(
        alloc,
        problem.desired().len(),
        problem.seps(),
        active,
        lefts,
        rights,
        root,
    )?;
    let weights = gathered(own_weights(alloc, problem, &legs)?, &legs);
    let moments = gathered(own_moments(alloc, problem, &legs)?, &legs);
    Ok(BlockSums {
        legs,
        weights,
        moments,
    })
}

/// What the ends of the separation `closing` exert on the legs of a block.
fn marks_of(
    alloc: Global,
    problem: &Problem,
    legs: &[Leg],
    closing: u16,
) -> Result<Vec<i64>, AllocError>
    requires some { 0 < length legs.now }
    requires short { length legs.now ≤ 258 }
    requires sooner { (j : ℕ) → 0 < j → j < length legs.now → (leg_at legs.now j).parent < j }
    requires closing { closing < length problem.now.separations }
    ensures apart { (separation_at problem.now.separations closing).left ≢ (separation_at problem.now.separations closing).right }
    ensures marks { IfOk result (λ marks. AreMarks problem.now closing legs.now marks.items) }
    ensures small { IfOk result (λ marks. AreSmall legs.now marks.items) }
{
    let sep = problem.seps()[closing as usize];
    Ok(gathered(own_marks(alloc, sep.left, sep.right, legs)?, legs))
}

/// The sums of the block of a variable while the separation `closing` is being closed.
pub fn sweep_pushed(
    alloc: Global,
    problem: &Problem,
    active: &[u16],
    lefts: &Chains,
    rights: &Chains,
    closing: u16,
    root: u16,
) -> Result<Pushed, AllocError>
    requires active { IsActive problem.now active.now }
    requires root { root < length problem.now.desired }
    requires closing { closing < length problem.now.separations }
    requires off { ¬ Active active.now closing }
    requires lefts { AreChains problem.now.separations active.now false (length problem.now.desired) lefts.now }
    requires rights { AreChains problem.now.separations active.now true (length problem.now.desired) rights.now }
    ensures sums { IfOk result (λ s. IsSweep problem.now active.now root s.block.legs.items s.block.weights.items s.block.moments.items) }
    ensures marks { IfOk result (λ s. AreMarks problem.now closing s.block.legs.items s.marks.items) }
    ensures bounded { IfOk result (λ s. HasBounds s.block) }
    ensures small { IfOk result (λ s. HasSmallMarks s) }
    ensures heavy { IfOk result (λ s. pos 0 <ℤ load_at s.block.weights.items 0) }
    ensures within { IfOk result (λ s. All (λ leg. leg.variable < length problem.now.desired) s.block.legs.items) }
    ensures tells { IfOk result (λ s. TellsStates problem.now active.now closing s.block.legs.items s.block.weights.items s.block.moments.items s.marks.items) }
{
    let block = sweep(alloc, problem, active, lefts, rights, root)?;
    let marks = marks_of(alloc, problem, &block.legs, closing)?;
    Ok(Pushed { block, marks })
}
