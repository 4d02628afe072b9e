//! The projections of both axes at once, component by component.
ghost use Rattle.std.specs.Prelude.{◌≡◌, ◌≤◌, ◌++◌, All, IfOk, length, nat_abs};
ghost use Rattle.std.specs.List.{AllZip};
ghost use Rattle.units.specs.declared.geometry.Axis.TheVariants.{X, Y};
ghost use Rattle.scene_model.specs.Separations.{separations};
ghost use Rattle.scene_model.specs.Variables.{variables};
ghost use Rattle.multiplier_check.specs.Certificate.{IsCertificate};
ghost use Rattle.multiplier_check.specs.Placement.{IsProjection};
ghost use Rattle.sep_gen.specs.Feasibility.{IsFeasibleAxis};
ghost use Rattle.vpsc_solve.specs.Stops.{IsFeasible};
ghost use Rattle.axis_project.specs.Apart.{IsTakenApart, components, problems};
ghost use Rattle.axis_project.specs.Projection.{IsShown};

use crate::apart::{Apart, Component, add_components, taken_apart};
use crate::gather::together;
use crate::projecting::problem_of;
use multiplier_check::Certificate;
use rayon::prelude::*;
use scene_model::Scene;
use std::alloc::Global;
use std::thread::Threads;
use units::{Axis, Memory, Problem};
use vpsc_solve::solve_from;

/// The certificates of the components, in order.
fn solved_all<R: Threads + Sync>(
    rt: &R,
    alloc: Global,
    list: &[Component],
) -> Result<Vec<Certificate>, Memory>
    requires { All (λ component. IsFeasible component.problem) list.now }
    ensures { IfOk result (λ certificates. AllZip (λ component certificate. IsCertificate component.problem certificate) list.now certificates.items) }
{
    list.par_iter()
        .map(
            |component: &Component| -> Result<Certificate, Memory>
                requires { IsFeasible component.now.problem }
                ensures { IfOk result (IsCertificate component.now.problem) }
            { solve_from(alloc, &component.problem, &component.hint) },
        )
        .collect::<Result<Vec<Certificate>, Memory>>(rt, alloc)?
}

/// The components of two problems in one list, those of the first in front.
fn components_of(
    alloc: Global,
    x: &Problem,
    y: &Problem,
    x_apart: &Apart,
    y_apart: &Apart,
    hint_x: &[u16],
    hint_y: &[u16],
) -> Result<Vec<Component>, Memory>
    requires x { IsTakenApart x.now x_apart.now }
    requires y { IsTakenApart y.now y_apart.now }
    ensures { IfOk result (λ list. problems list.items ≡ components x.now x_apart.now.keys.items x_apart.now.count ++ components y.now y_apart.now.keys.items y_apart.now.count) }
{
    let mut list = Vec::new(alloc);
    add_components(alloc, x, x_apart, hint_x, &mut list)?;
    add_components(alloc, y, y_apart, hint_y, &mut list)?;
    Ok(list)
}

/// The projections of two problems, whose components are solved at once.
fn solved_both<R: Threads + Sync>(
    rt: &R,
    alloc: Global,
    x: &Problem,
    y: &Problem,
    hint_x: &[u16],
    hint_y: &[u16],
) -> Result<(Certificate, Certificate), Memory>
    requires feasible_x { IsFeasible x.now }
    requires feasible_y { IsFeasible y.now }
    ensures shows_x { IfOk result (λ both. IsCertificate x.now both.0) }
    ensures shows_y { IfOk result (λ both. IsCertificate y.now both.1) }
    ensures projection_x { IfOk result (λ both. IsProjection x.now both.0.places) }
    ensures projection_y { IfOk result (λ both. IsProjection y.now both.1.places) }
{
    let x_apart = taken_apart(alloc, x)?;
    let y_apart = taken_apart(alloc, y)?;
    let list = components_of(alloc, x, y, &x_apart, &y_apart, hint_x, hint_y)?;
    let certificates = solved_all(rt, alloc, &list)?;
    let of_x = together(alloc, x, &x_apart, &certificates, 0)?;
    let of_y = together(
        alloc,
        y,
        &y_apart,
        &certificates,
        usize::from(x_apart.count),
    )?;
    Ok((of_x, of_y))
}

/// **The projections of the scene on both axes**, that on X first, each with a certificate that shows it. Conditions and answers are
/// those of `project_from`, on X for `x` and `hint_x`, on Y for `y` and `hint_y`: one desired place for each variable of the axis, in
/// diagram units, within 2,000,000 of 0; at most 2,048 separations, and no positive cycle among them; any hint. Answers `Memory` for
/// want of memory alone.
///
/// Each axis falls into components, the variables of one part with the separations between them. Those of both axes form one list,
/// over which a map runs that may use several threads; how many, nothing says. By the law of components (`components_law`) their
/// certificates, put together, show the projection of the whole. It always returns: the work of a thread waits for nobody.
pub fn project_both<R: Threads + Sync>(
    rt: &R,
    alloc: Global,
    scene: &Scene,
    x: &[i64],
    y: &[i64],
    hint_x: &[u16],
    hint_y: &[u16],
) -> Result<(Certificate, Certificate), Memory>
    requires as_long_x { length x.now ≡ length (variables scene.now X) }
    requires as_long_y { length y.now ≡ length (variables scene.now Y) }
    requires near_x { All (λ d. nat_abs d ≤ 2000000) x.now }
    requires near_y { All (λ d. nat_abs d ≤ 2000000) y.now }
    requires few_x { length (separations scene.now X) ≤ 2048 }
    requires few_y { length (separations scene.now Y) ≤ 2048 }
    requires feasible_x { IsFeasibleAxis scene.now X }
    requires feasible_y { IsFeasibleAxis scene.now Y }
    ensures x { IfOk result (λ both. IsShown scene.now X x.now both.0) }
    ensures y { IfOk result (λ both. IsShown scene.now Y y.now both.1) }
{
    let of_x = problem_of(alloc, scene, Axis::X, x)?;
    let of_y = problem_of(alloc, scene, Axis::Y, y)?;
    solved_both(rt, alloc, &of_x, &of_y, hint_x, hint_y)
}
