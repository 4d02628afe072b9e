//! Whether items can be moved once more.
ghost use Rattle.std.specs.Prelude.{◌↔◌, IsTrue};
ghost use Rattle.edit_rules.specs.Moves.{CanMove, HasMovesLeft};

use crate::edits::Edit;
use scene_model::{Scene, Sort};
use units::Name;

/// Whether the item that a move or shift names was moved fewer than 2^32 - 1 times, so that it can be moved once more.
/// After fewer edits than that it is so.
pub fn has_moves_left(scene: &Scene, edit: &Edit) -> bool
    ensures { IsTrue result ↔ HasMovesLeft scene.now edit.now }
{
    match edit {
        Edit::Move { name, .. } => can_move(scene, name),
        Edit::Shift { name, .. } => can_move(scene, name),
        Edit::Put { .. }
        | Edit::Size { .. }
        | Edit::Hold { .. }
        | Edit::Free { .. }
        | Edit::Remove { .. }
        | Edit::Join { .. }
        | Edit::Unlink { .. }
        | Edit::Guide { .. }
        | Edit::Align { .. }
        | Edit::Spread { .. }
        | Edit::Rank { .. }
        | Edit::Apart { .. }
        | Edit::Group { .. }
        | Edit::Page { .. }
        | Edit::Drop { .. } => true,
    }
}

/// Whether the item of this name, if one stands, can be moved once more.
fn can_move(scene: &Scene, name: &Name) -> bool
    ensures { IsTrue result ↔ CanMove scene.now name.now }
{
    let item = match scene.lookup(name) {
        Some(item) => item,
        None => return true,
    };
    match item.sort {
        Sort::Shape => scene.shape(item.at).moves < u32::MAX,
        Sort::Guide => scene.guide(item.at).moves < u32::MAX,
        Sort::Link | Sort::Compound | Sort::Group | Sort::Page => true,
    }
}
