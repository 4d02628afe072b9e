//! A history is played again without its frames, and each frame is checked against the scene before it.
ghost use Rattle.std.specs.Prelude.{◌≤◌, IsTrue, All, nat_abs};
ghost use Rattle.units.specs.Problem.{IsSeparation};

use doc_book::{Act, Book, Entry};
use frame_store::Frame;
use multiplier_check::{Certificate, shows};
use scene_model::Scene;
use sep_gen::{compile, count};
use std::alloc::Global;
use std::test::Fail;
use units::{Axis, Memory, Problem, Sep};

/// Whether the weights are within the bounds of a problem.
fn are_weights(weights: &[u32]) -> bool
    ensures { IsTrue result → All (λ w. (1 ≤ w) × (w ≤ 1000)) weights.now }
{
    weights.iter().all(|weight| 1 <= *weight && *weight <= 1000)
}

/// Whether the desired places are.
fn are_near(desired: &[i64]) -> bool
    ensures { IsTrue result → All (λ d. nat_abs d ≤ 2000000) desired.now }
{
    desired
        .iter()
        .all(|place| -2_000_000 <= *place && *place <= 2_000_000)
}

/// Whether the separations are.
fn are_sound(count: u16, seps: &[Sep]) -> bool
    ensures { IsTrue result → All (λ separation. IsSeparation count separation) seps.now }
{
    seps.iter().all(|sep| {
        sep.left < count
            && sep.right < count
            && sep.left != sep.right
            && -1_000_000 <= sep.gap
            && sep.gap <= 1_000_000
    })
}

/// The weights of the variables of the axis.
fn weights(alloc: Global, scene: &Scene, axis: Axis) -> Result<Vec<u32>, Memory> {
    let mut list = Vec::new(alloc);
    for var in 0..scene.vars(axis) {
        list.push(scene.weight(axis, var))?;
    }
    Ok(list)
}

/// The problem of these lists, where they are within its bounds.
fn bounded(
    alloc: Global,
    weights: Vec<u32>,
    desired: &[i64],
    seps: Vec<Sep>,
) -> Result<Problem, Fail> {
    if desired.len() > 258 || seps.len() > 2048 {
        return Err("short lists".into());
    }
    if weights.len() != desired.len() {
        return Err("a place for each variable".into());
    }
    if !are_weights(&weights) {
        return Err("weights".into());
    }
    if !are_near(desired) {
        return Err("near places".into());
    }
    if !are_sound(desired.len() as u16, &seps) {
        return Err("separations".into());
    }
    Ok(Problem::new(weights, desired.to_vec(alloc)?, seps))
}

/// Whether the certificate shows the projection of the scene on the axis.
fn is_shown(
    alloc: Global,
    scene: &Scene,
    axis: Axis,
    desired: &[i64],
    certificate: &Certificate,
) -> Result<bool, Fail> {
    if count(scene, axis) > 2048 {
        return Err("few separations".into());
    }
    let weights = weights(alloc, scene, axis)?;
    let seps = compile(alloc, scene, axis)?;
    let problem = bounded(alloc, weights, desired, seps)?;
    Ok(shows(&problem, certificate))
}

/// Whether the certificates of the frame show the projections of the scene.
fn is_right(alloc: Global, scene: &Scene, frame: &Frame) -> Result<bool, Fail> {
    let on_x = is_shown(alloc, scene, Axis::X, frame.desired.x.as_slice(), &frame.x)?;
    let on_y = is_shown(alloc, scene, Axis::Y, frame.desired.y.as_slice(), &frame.y)?;
    Ok(on_x && on_y)
}

/// Whether the entry follows what was played: an edit or undo is accepted again, and a frame is right.
fn follows(alloc: Global, played: &mut Book, entry: &Entry) -> Result<bool, Fail> {
    match &entry.act {
        Act::Edit(edit) => {
            let edit = edit.copy(alloc)?;
            return Ok(played.edit(alloc, entry.who, entry.line, edit).is_ok());
        }
        Act::Undo => return Ok(played.undo(alloc, entry.who, entry.line).is_ok()),
        Act::Frame(frame) => return is_right(alloc, played.scene(), frame),
        Act::End => return Ok(true),
    }
}

/// Whether each entry follows those before it.
pub fn all_follow(alloc: Global, history: &[Entry]) -> Result<bool, Fail> {
    let mut played = Book::new(alloc, 0);
    for entry in history {
        if !follows(alloc, &mut played, entry)? {
            return Ok(false);
        }
    }
    Ok(true)
}
