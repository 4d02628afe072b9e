//! What two boxes of which one stands at least 20 behind the other mean.
ghost use Rattle.std.specs.Prelude.{pos, ◌≤ℤ◌, ◌<ℤ◌, ◌^◌, All};
ghost use Rattle.compound_sense.specs.Placed.{IsNear};

use crate::made_scenes::add_two_apart;
use compound_sense::holds;
use scene_model::Scene;
use std::test::Fail;
use units::Axis;

/// Whether the answer for the two places is the wanted one.
fn answers(scene: &Scene, places: &[i64], q: i64, wanted: bool) -> Result<(), Fail>
    requires above { pos 1 ≤ℤ q }
    requires small { q <ℤ pos (2 ^ 30) }
    requires near { All IsNear places.now }
{
    if places.len() != usize::from(scene.vars(Axis::X)) {
        return Err("two variables".into());
    }
    if holds(scene, Axis::X, places, q) != wanted {
        return Err("the wanted answer".into());
    }
    Ok(())
}

fn rows(scene: &Scene) -> Result<(), Fail> {
    answers(scene, &[-8, 12], 1, true)?;
    answers(scene, &[-17, 23], 2, true)?;
    answers(scene, &[-17, 22], 2, false)
}

#[test]
fn meaning_of_two_apart(rt: HostRuntime) -> Result<(), Fail> {
    let mut scene = Scene::empty(rt.alloc());
    add_two_apart(&mut scene, false)?;
    rows(&scene)
}
