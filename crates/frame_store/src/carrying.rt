//! The carry rule.
ghost use Rattle.std.specs.Prelude.{◌≡◌, ◌<◌, List, ℤ, IfOk, length, map, None, slice_get, Some, position};
ghost use Rattle.units.specs.declared.geometry.Axis.TheVariants as axes;
ghost use Rattle.scene_model.specs.Variables.{variables, same_variable};
ghost use Rattle.scene_model.specs.declared.variables.Variable.{Variable as VariableValue};
ghost use Rattle.frame_store.specs.Carry.{carried, kept_place, kept_at, is_unmoved};

use crate::places::Places;
use scene_model::{Scene, Variable, VariableName};
use std::alloc::Global;
use units::{Axis, Memory, Sequence};

/// The places after an edit that leads from one scene to another: a variable that stands in both with the same
/// anchor and the same count of moves keeps its place, every other takes its anchor.
pub fn carry(
    alloc: Global,
    before: &Scene,
    after: &Scene,
    places: &Places,
) -> Result<Places, Memory>
    requires on_x { length places.now.x ≡ length (variables before.now axes.X) }
    requires on_y { length places.now.y ≡ length (variables before.now axes.Y) }
    ensures { IfOk result (λ next. next ≡ carried before.now after.now places.now) }
{
    Ok(Places {
        x: carry_axis(alloc, before, after, Axis::X, places.x.as_slice())?,
        y: carry_axis(alloc, before, after, Axis::Y, places.y.as_slice())?,
    })
}

fn carry_axis(
    alloc: Global,
    before: &Scene,
    after: &Scene,
    axis: Axis,
    places: &[i64],
) -> Result<Sequence<i64>, Memory>
    requires { length places.now ≡ length (variables before.now axis) }
    ensures { IfOk result (λ next. next ≡ map (kept_place (variables before.now axis) places.now) (variables after.now axis)) }
{
    let mut next = Vec::new(alloc);
    for var in 0..after.vars(axis) {
        next.push(kept(before, axis, places, after.variable(axis, var)))?;
    }
    Ok(Sequence::of(next))
}

fn kept(before: &Scene, axis: Axis, places: &[i64], variable: Variable) -> i64
    requires { length places.now ≡ length (variables before.now axis) }
    ensures { result ≡ kept_place (variables before.now axis) places.now variable }
{
    let Some(at) = before.variable_number(axis, &variable.name) else {
        return variable.anchor;
    };
    let stood = before.variable(axis, at);
    if is_unmoved(&stood, &variable) {
        places[at as usize]
    } else {
        variable.anchor
    }
}

fn is_unmoved(before: &Variable, after: &Variable) -> bool
    ensures { result ≡ is_unmoved before.now after.now }
{
    before.anchor == after.anchor && before.moves == after.moves
}
