//! Laws of the definitions alone.
ghost use Rattle.std.specs.Prelude.{◌≡◌, ℕ, List, [], ◌∷◌, ◌++◌, None, Some};
ghost use Rattle.std.specs.List.{AllByRecursion};
ghost use Rattle.units.specs.declared.geometry.Axis.{Axis as AxisValue};
ghost use Rattle.scene_model.specs.Separations.{separations};
ghost use Rattle.cycle_test.specs.Feasibility.{HasPlaces};
ghost use Rattle.sep_gen.specs.Feasibility.{IsFeasibleAxis};
ghost use Rattle.edit_rules.specs.declared.edits.Edit.{Edit as EditValue};
ghost use Rattle.edit_rules.specs.declared.refusals.Refusal.{Refusal as RefusalValue};
ghost use Rattle.script_text.specs.declared.scripts.Line.{Line as LineValue};
ghost use Rattle.doc_book.specs.declared.entries.Act.TheVariants as act;
ghost use Rattle.doc_book.specs.declared.entries.Entry.{Entry as EntryValue};
ghost use Rattle.doc_book.specs.declared.replies.Reply.{Reply as ReplyValue};
ghost use Rattle.doc_book.specs.Document.{Document, opened};
ghost use Rattle.doc_book.specs.Events.{Event, Said, replies_to, made_calls};
ghost use Rattle.doc_book.specs.Growing.{entry_of};
ghost use Rattle.doc_book.specs.History.{standing, scene_at};
ghost use mathlib.Core.List.{IsPrefix};
ghost use Rattle.doc_book.specs.Law.{AreEntriesOf, AreRightSaid};
ghost use Rattle.doc_book.specs.Legal.{IsLegal};
ghost use Rattle.doc_book.specs.Listing.{session_lines};
ghost use Rattle.doc_book.specs.Plays.{IsPlayed, IsByCalls, IsFresh, AreCounted, session_replies};
ghost use Rattle.doc_book.specs.Replies.{AreRightReplies, OwnEntriesAre, own_entries, own_places, made_places};
ghost use Rattle.doc_book.specs.Standing.{AreAccepted};
ghost use Rattle.doc_book.specs.Steps.{IsRun};
ghost use Rattle.doc_book.specs.Verdicts.{IsVerdict};

/// **The law of every run of events**, for every budget and every list of calls, whatever they are answered: the
/// history is legal; whatever stood at some time still stands, in front of what came later; each caller owns, in order,
/// exactly the entries of its accepted and published calls; and each reply to a call that is read as a line is right
/// at the last history.
pub fn run_law()
    ensures legal { (budget : ℕ) (calls : List Event) (said : List Said) (last : Document)
        → IsRun (opened budget) last calls said → IsLegal last.history budget }
    ensures kept { (calls : List Event) (said : List Said) (earlier later : Document)
        → IsRun earlier later calls said → IsPrefix earlier.history later.history }
    ensures places { (budget : ℕ) (calls : List Event) (said : List Said) (last : Document) (who : ℕ)
        → IsRun (opened budget) last calls said → own_places last.history who ≡ made_places (replies_to who calls said) }
    ensures entries { (budget : ℕ) (calls : List Event) (said : List Said) (last : Document) (who : ℕ)
        → IsRun (opened budget) last calls said → AreEntriesOf (made_calls who calls said) (own_entries last.history who) }
    ensures named { (budget : ℕ) (calls : List Event) (said : List Said) (last : Document) (who : ℕ)
        → IsRun (opened budget) last calls said → OwnEntriesAre last.history who (replies_to who calls said) }
    ensures replies { (budget : ℕ) (calls : List Event) (said : List Said) (last : Document)
        → IsRun (opened budget) last calls said → AreRightSaid last.history budget calls said }
{}

/// **The law of undo**: an edit that an undo follows, whoever made the two, leaves the standing edits and the scene as
/// they were.
pub fn undo_law()
    ensures standing { (history : List EntryValue) (edit : EditValue) (who line undoer later : ℕ)
        → standing (history ++ entry_of who line (act.Edit edit) ∷ entry_of undoer later act.Undo ∷ []) ≡ standing history }
    ensures scene { (history : List EntryValue) (edit : EditValue) (who line undoer later : ℕ)
        → scene_at (history ++ entry_of who line (act.Edit edit) ∷ entry_of undoer later act.Undo ∷ []) ≡ scene_at history }
{}

/// **The law of one thread**: lines that are played in file order, each for its session, are a run of calls with the
/// same replies. Each session owns the entries that its replies name, in order; its replies are right at the last
/// history, each given when it had seen what the one before it showed; each reply was given at as many entries as the
/// replies before it made, over all sessions; and none is stale.
pub fn play_law()
    ensures calls { (budget : ℕ) (lines : List LineValue) (replies : List ReplyValue) (last : Document)
        → IsPlayed (opened budget) last lines replies → IsByCalls (opened budget) last replies }
    ensures places { (budget : ℕ) (lines : List LineValue) (replies : List ReplyValue) (last : Document) (session : ℕ)
        → IsPlayed (opened budget) last lines replies
        → own_places last.history session ≡ made_places (session_replies session lines replies) }
    ensures named { (budget : ℕ) (lines : List LineValue) (replies : List ReplyValue) (last : Document) (session : ℕ)
        → IsPlayed (opened budget) last lines replies
        → OwnEntriesAre last.history session (session_replies session lines replies) }
    ensures replies { (budget : ℕ) (lines : List LineValue) (replies : List ReplyValue) (last : Document) (session : ℕ)
        → IsPlayed (opened budget) last lines replies
        → AreRightReplies last.history budget session 0 (session_lines session lines) (session_replies session lines replies) }
    ensures counted { (budget : ℕ) (lines : List LineValue) (replies : List ReplyValue) (last : Document)
        → IsPlayed (opened budget) last lines replies → AreCounted 0 replies }
    ensures fresh { (budget : ℕ) (lines : List LineValue) (replies : List ReplyValue) (last : Document)
        → IsPlayed (opened budget) last lines replies → AllByRecursion IsFresh replies }
{}

/// **The law of feasible scenes**: each standing edit of a legal history was accepted by the scene of the standing edits
/// before it, also where undos came between. So the scene has no positive cycle on either axis, and some whole places satisfy its separations.
pub fn feasible_law()
    ensures accepted { (h : List EntryValue) (budget : ℕ) → IsLegal h budget → AreAccepted (standing h) }
    ensures feasible { (h : List EntryValue) (budget : ℕ) → IsLegal h budget → (axis : AxisValue) → IsFeasibleAxis (scene_at h) axis }
    ensures placed { (h : List EntryValue) (budget : ℕ) → IsLegal h budget → (axis : AxisValue) → HasPlaces (separations (scene_at h) axis) }
{}

/// An edit that a history accepts is refused for no cause.
pub fn verdict_law()
    ensures { (h : List EntryValue) (e : EditValue) (r : RefusalValue) → IsVerdict h e None → IsVerdict h e (Some r) → ⊥ }
{}
