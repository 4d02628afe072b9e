//! Whether places fit a scene.
ghost use Rattle.std.specs.Prelude.{◌≡◌, ◌⊎◌, ◌≤◌, None, Some, length, MatchOption, MatchResult, IfOk};
ghost use Rattle.scene_model.specs.Separations.{separations};
ghost use Rattle.cycle_test.specs.Cycle.{IsPositiveCycle};
ghost use Rattle.edit_rules.specs.Refusals.{most_separations};
ghost use Rattle.edit_rules.specs.declared.refusals.Refusal.TheVariants as refusal;
ghost use Rattle.doc_book.specs.Kept.{IsUncrowded};
ghost use Rattle.sep_gen.specs.Feasibility.{IsFeasibleAxis};
ghost use Rattle.doc_book.specs.Verdicts.{IsFeasibility};

use cycle_test::{Verdict, test};
use edit_rules::{Refusal, Walk};
use scene_model::Scene;
use sep_gen::compile;
use std::alloc::Global;
use units::{Axis, Memory};

/// A positive cycle of the separations of the scene on the axis, where there is one.
fn cycle_on(alloc: Global, scene: &Scene, axis: Axis) -> Result<Option<Walk>, Memory>
    requires { length (separations scene.now axis) ≤ most_separations }
    ensures { IfOk result (λ cycle. MatchOption cycle (IsFeasibleAxis scene.now axis) (λ walk. IsPositiveCycle (separations scene.now axis) walk)) }
{
    let variables = scene.vars(axis);
    let list = compile(alloc, scene, axis)?;
    match test(alloc, variables, &list)? {
        Verdict::Places(_) => Ok(None),
        Verdict::Cycle(arcs) => Ok(Some(Walk::of(arcs.into_vec()))),
    }
}

/// Refuses a scene that no placement fits: Infeasible, on X where there is a positive cycle, else on Y. Memory comes for
/// want of memory alone.
pub fn infeasibility(alloc: Global, scene: &Scene) -> Result<(), Refusal>
    requires { IsUncrowded scene.now }
    ensures { MatchResult result (λ _. IsFeasibility scene.now None) (λ r. (r ≡ refusal.Memory) ⊎ IsFeasibility scene.now (Some r)) }
{
    if let Some(walk) = cycle_on(alloc, scene, Axis::X)? {
        return Err(Refusal::Infeasible {
            axis: Axis::X,
            walk,
        });
    }
    if let Some(walk) = cycle_on(alloc, scene, Axis::Y)? {
        return Err(Refusal::Infeasible {
            axis: Axis::Y,
            walk,
        });
    }
    Ok(())
}
