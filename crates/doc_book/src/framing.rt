//! The frame of a scene and its places.
ghost use Rattle.std.specs.Prelude.{IfOk};
ghost use Rattle.doc_book.specs.Frames.{IsFrameOf};
ghost use Rattle.doc_book.specs.Layable.{IsLayable};

use crate::hints::Hints;
use axis_project::project_both;
use frame_store::{Frame, Places};
use scene_model::Scene;
use std::alloc::Global;
use std::thread::Threads;
use stress_step::propose;
use units::Memory;

/// The frame of a scene at these places: its desired places are the proposal of less stress (`stress_step::propose`), and
/// on each axis its certificate shows their projection in the scene. The hints say where the search for it starts. Answers
/// `Memory` for want of memory alone.
pub fn frame_of<R: Threads + Sync>(
    rt: &R,
    alloc: Global,
    scene: &Scene,
    places: &Places,
    hints: &Hints,
) -> Result<Frame, Memory>
    requires { IsLayable scene.now places.now }
    ensures { IfOk result (λ frame. IsFrameOf scene.now places.now frame) }
{
    let desired = propose(alloc, scene, places)?;
    let (x, y) = project_both(
        rt,
        alloc,
        scene,
        desired.x.as_slice(),
        desired.y.as_slice(),
        hints.x.as_slice(),
        hints.y.as_slice(),
    )?;
    Ok(Frame { desired, x, y })
}
