//! The breadth-first search from one shape, level by level.
ghost use Rattle.std.specs.Prelude.{◌≡◌, ◌<◌, ◌≤◌, ◌+◌, ◌&&◌, ◌==◌, length, nat_eq, IfOk, All, [], slice_index_or};
ghost use Rattle.std.specs.List.{list_any};
ghost use Rattle.scene_model.specs.Diagram.{Diagram};
ghost use Rattle.hop_graph.specs.Links.{is_linked};
ghost use Rattle.hop_graph.specs.Walks.{any_below, where_passed};
ghost use Rattle.hop_graph.specs.Search.{IsAdjacency, IsFound, IsMarked, has_distance};

use scene_model::{Scene, Sort};
use std::alloc::{AllocError, Global};
use units::Sequence;

/// The greatest hop distance that counts.
const FARTHEST: u8 = 60;

/// Gives each target that was not reached before this distance.
fn mark(row: &mut [Option<u8>], targets: &[u16], hops: u8)
    requires { All (λ target. target < length row.old) targets.now }
    ensures { IsMarked row.old hops (λ j. list_any (nat_eq j) targets.now) row.new }
{
    for target in targets {
        if row[*target as usize].is_none() {
            row[*target as usize] = Some(hops);
        }
    }
}

/// Whether the shape of this number has this distance.
fn has_distance(row: &[Option<u8>], shape: u16, level: u8) -> bool
    requires { shape < length row.now }
    ensures { result ≡ has_distance row.now level shape }
{
    match row[shape as usize] {
        Some(hops) => hops == level,
        None => false,
    }
}

/// Gives each neighbour of a shape at this distance, where it was not reached before, one more.
fn spread(scene: &Scene, row: &mut [Option<u8>], adjacency: &[Sequence<u16>], level: u8)
    requires low { level < 60 }
    requires counted { length row.old ≡ length scene.now.shapes }
    requires adjacent { IsAdjacency scene.now adjacency.now }
    ensures { IsMarked row.old (level + 1) (λ j. any_below (λ i. has_distance row.old level i && is_linked scene.now i j) (length scene.now.shapes)) row.new }
{
    for shape in 0..scene.count(Sort::Shape) {
        if has_distance(row, shape, level) {
            mark(row, adjacency[shape as usize].as_slice(), level + 1);
        }
    }
}

/// The distance of a shape by a walk with no link.
fn at_start(start: u16, shape: u16) -> Option<u8>
    ensures { result ≡ where_passed 0 (start == shape) }
{
    if start == shape { Some(0) } else { None }
}

/// A row in which the start alone is reached.
fn start_row(alloc: Global, scene: &Scene, start: u16) -> Result<Vec<Option<u8>>, AllocError>
    requires { start < length scene.now.shapes }
    ensures { IfOk result (λ row. IsFound scene.now start 0 row.items) }
{
    let mut row = Vec::new(alloc);
    for shape in 0..scene.count(Sort::Shape) {
        row.push(at_start(start, shape))?;
    }
    Ok(row)
}

/// Whether a shape has this distance.
fn any_has_distance(scene: &Scene, row: &[Option<u8>], level: u8) -> bool
    requires { length row.now ≡ length scene.now.shapes }
    ensures { result ≡ any_below (has_distance row.now level) (length scene.now.shapes) }
{
    for shape in 0..scene.count(Sort::Shape) {
        if has_distance(row, shape, level) {
            return true;
        }
    }
    false
}

/// The hop distances from a shape. Where no shape has a distance none has a greater one, and the search ends.
pub fn search(
    alloc: Global,
    scene: &Scene,
    adjacency: &[Sequence<u16>],
    start: u16,
) -> Result<Vec<Option<u8>>, AllocError>
    requires within { start < length scene.now.shapes }
    requires adjacent { IsAdjacency scene.now adjacency.now }
    ensures { IfOk result (λ row. IsFound scene.now start 60 row.items) }
{
    let mut row = start_row(alloc, scene, start)?;
    for level in 0..FARTHEST {
        if !any_has_distance(scene, &row, level) {
            return Ok(row);
        }
        spread(scene, &mut row, adjacency, level);
    }
    Ok(row)
}
