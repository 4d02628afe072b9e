//! Edits that can't make a scene infeasible.
ghost use Rattle.std.specs.Prelude.{◌≡◌, None, true};
ghost use Rattle.units.specs.declared.geometry.Axis.{Axis as AxisValue};
ghost use Rattle.scene_model.specs.Diagram.{Diagram};
ghost use Rattle.scene_model.specs.Sound.{IsSound};
ghost use Rattle.sep_gen.specs.Feasibility.{IsFeasibleAxis};
ghost use Rattle.edit_rules.specs.declared.edits.Edit.{Edit as EditValue};
ghost use Rattle.edit_rules.specs.Effects.{edited};
ghost use Rattle.edit_rules.specs.Refusals.{refusal_of};
ghost use Rattle.edit_rules.specs.Steady.{is_steady};

use crate::edits::Edit;

impl Edit {
    /// Whether the edit can't make a feasible scene infeasible: it leaves the separations as they were, or takes some
    /// away.
    pub fn is_steady(&self) -> bool
        ensures { result ≡ is_steady self.now }
    {
        match self {
            Edit::Put { .. } => false,
            Edit::Size { .. } => false,
            Edit::Move { .. } => true,
            Edit::Shift { .. } => true,
            Edit::Hold { .. } => true,
            Edit::Free { .. } => true,
            Edit::Remove { .. } => true,
            Edit::Join { .. } => true,
            Edit::Unlink { .. } => true,
            Edit::Guide { .. } => false,
            Edit::Align { .. } => false,
            Edit::Spread { .. } => false,
            Edit::Rank { .. } => false,
            Edit::Apart { .. } => false,
            Edit::Group { .. } => false,
            Edit::Page { .. } => false,
            Edit::Drop { .. } => true,
        }
    }
}

/// A steady edit that a sound scene accepts leaves each axis feasible that was.
pub fn steady_law()
    ensures { (d : Diagram) (e : EditValue) (axis : AxisValue) → is_steady e ≡ true → IsSound d → refusal_of d e ≡ None
        → IsFeasibleAxis d axis → IsFeasibleAxis (edited e d) axis }
{}
