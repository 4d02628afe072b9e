//! The law of drawn places.
ghost use Rattle.std.specs.Prelude.{◌≡◌, ◌++◌, ◌∷◌, [], ℕ, List, true};
ghost use Rattle.units.specs.declared.geometry.Axis.{Axis as AxisValue};
ghost use Rattle.scene_model.specs.Diagram.{Diagram};
ghost use Rattle.scene_model.specs.Meaning.{Fits};
ghost use Rattle.frame_store.specs.declared.frames.Frame.{Frame as FrameValue};
ghost use Rattle.frame_store.specs.declared.places.Places.{Places as PlacesValue};
ghost use Rattle.frame_store.specs.Frames.{drawn};
ghost use Rattle.stress_step.specs.Spots.{on_axis};
ghost use Rattle.doc_book.specs.declared.entries.Entry.{Entry as EntryValue};
ghost use Rattle.doc_book.specs.Frames.{IsFrameOf};
ghost use Rattle.doc_book.specs.History.{scene_at, places_at, is_frame};
ghost use Rattle.doc_book.specs.Legal.{IsLegal};

/// **The law of drawn places**: the drawn places of a frame, whole diagram units, meet every constraint of its scene. So do
/// the places of a legal history whose last entry is a frame: what a reader of the picture sees fits.
///
/// The projection fits by its certificate, so it satisfies the separations (the compilation law); then its floors satisfy
/// them (the floor law), and so fit.
pub fn drawn_law()
    ensures frame { (scene : Diagram) (places : PlacesValue) (frame : FrameValue) → IsFrameOf scene places frame
        → (axis : AxisValue) → Fits scene axis (on_axis axis (drawn frame)) 1 }
    ensures history { (h : List EntryValue) (budget : ℕ) (last : EntryValue) → IsLegal (h ++ last ∷ []) budget → is_frame last ≡ true
        → (axis : AxisValue) → Fits (scene_at (h ++ last ∷ [])) axis (on_axis axis (places_at (h ++ last ∷ []))) 1 }
{}
