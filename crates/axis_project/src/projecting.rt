//! The projection of a scene on an axis.
ghost use Rattle.std.specs.Prelude.{◌≡◌, ◌≤◌, All, IfOk, length, nat_abs};
ghost use Rattle.scene_model.specs.Separations.{separations};
ghost use Rattle.scene_model.specs.Variables.{variables};
ghost use Rattle.multiplier_check.specs.Certificate.{IsCertificate};
ghost use Rattle.multiplier_check.specs.Placement.{IsProjection};
ghost use Rattle.sep_gen.specs.Feasibility.{IsFeasibleAxis};
ghost use Rattle.vpsc_solve.specs.Stops.{IsFeasible};
ghost use Rattle.axis_project.specs.Projection.{weights, problem_of, IsShown};

use multiplier_check::Certificate;
use scene_model::Scene;
use sep_gen::compile;
use std::alloc::Global;
use units::{Axis, Memory, Problem};
use vpsc_solve::solve_from;

/// The weights of the variables of the axis, in order.
#[tactic(auto, using(crate::proofs::Projected::weights_next))]
fn weights(alloc: Global, scene: &Scene, axis: Axis) -> Result<Vec<u32>, Memory>
    ensures { IfOk result (λ list. list.items ≡ weights scene.now axis) }
{
    let count = scene.vars(axis);
    let mut list = Vec::with_capacity(alloc, count as usize)?;
    for var in 0..count {
        list.push(scene.weight(axis, var))?;
    }
    Ok(list)
}

/// The problem of the axis: its weights, the desired places, and the separations of the scene.
pub(crate) fn problem_of(
    alloc: Global,
    scene: &Scene,
    axis: Axis,
    desired: &[i64],
) -> Result<Problem, Memory>
    requires as_long { length desired.now ≡ length (variables scene.now axis) }
    requires near { All (λ d. nat_abs d ≤ 2000000) desired.now }
    requires few { length (separations scene.now axis) ≤ 2048 }
    ensures { IfOk result (λ problem. problem ≡ problem_of scene.now axis desired.now) }
{
    // Asked for what its type keeps, which the proof needs.
    let _variables = scene.vars(axis);
    let weights = weights(alloc, scene, axis)?;
    let separations = compile(alloc, scene, axis)?;
    let desired = desired.to_vec(alloc)?;
    Ok(Problem::new(weights, desired, separations))
}

/// As `project`, beginning with the separations that the hint numbers, as those that were tight in an earlier projection. The
/// condition and the answer are those of `project`, for every hint: numbers may come in any order, more than once, and be of no
/// separation. Where several certificates show the projection, the hint may decide which one is answered.
pub fn project_from(
    alloc: Global,
    scene: &Scene,
    axis: Axis,
    desired: &[i64],
    hint: &[u16],
) -> Result<Certificate, Memory>
    requires as_long { length desired.now ≡ length (variables scene.now axis) }
    requires near { All (λ d. nat_abs d ≤ 2000000) desired.now }
    requires few { length (separations scene.now axis) ≤ 2048 }
    requires feasible { IsFeasibleAxis scene.now axis }
    ensures { IfOk result (IsShown scene.now axis desired.now) }
{
    let problem = problem_of(alloc, scene, axis, desired)?;
    solve_from(alloc, &problem, hint)
}

/// **The projection of the scene on the axis**, with a certificate that shows it: of all placements that fit the scene, the one of
/// least weighted squared distance from the desired places. There is one desired place for each variable of the axis, in diagram
/// units, within 2,000,000 of 0; the axis has at most 2,048 separations (`sep_gen::count` tells), and no positive cycle among them
/// (`cycle_test::test` tells). Answers `Memory` for want of memory alone. It always returns.
///
/// The problem is that of "Fast Node Overlap Removal" (Dwyer, Marriott and Stuckey 2005). The certificate speaks of the separations
/// of the scene; by the compilation law (`sep_gen::compilation_law`) what satisfies them is what fits.
pub fn project(
    alloc: Global,
    scene: &Scene,
    axis: Axis,
    desired: &[i64],
) -> Result<Certificate, Memory>
    requires as_long { length desired.now ≡ length (variables scene.now axis) }
    requires near { All (λ d. nat_abs d ≤ 2000000) desired.now }
    requires few { length (separations scene.now axis) ≤ 2048 }
    requires feasible { IsFeasibleAxis scene.now axis }
    ensures { IfOk result (IsShown scene.now axis desired.now) }
{
    project_from(alloc, scene, axis, desired, &[])
}
