//! Laws of recording, whatever the delegate is.
ghost use Rattle.std.specs.Prelude.{◌≡◌, Bool, true, List, [], None, Some};
ghost use Rattle.proof_trees.specs.Entries.{root_place};
ghost use Rattle.proof_trees.specs.Recorded.{Recorded};
ghost use Rattle.proof_trees.specs.Recorder.{entries_of, next_of, records};
ghost use Rattle.proof_trees.specs.Whole.{is_whole};
ghost use Rattle.proof_trees.specs.declared.entry.Entry.{Entry};
ghost use Rattle.proof_trees.specs.declared.recorder.Recorder.{Recorder};
ghost use Rattle.proof_trees.specs.declared.run_record.Place.{Place};

use crate::recording::Recording;
use search_context::context::Delegate;

/// A delegate that records has the scripts of the delegate that it records.
pub fn recording_keeps_scripts<D: Delegate>()
    ensures { ⟦<Recording<D> as Delegate>⟧.script ≡ D.script }
{}

/// What is recorded of a goal until no run is left open begins with the goal's first run, at level 0, and ends with the end
/// of a run of that level.
pub fn recorded_is_whole<I, R>()
    ensures { (goal : I) (next : Place) (entries : List (Entry I R)) → Recorded goal (Some []) next entries →
        (same : I → I → Bool) → same goal goal ≡ true → is_whole same goal entries ≡ true }
{}

/// A recorder that records, and has seen nothing, has seen that no run of any goal was started yet. From there a search shows
/// what it has seen once it answers.
pub fn new_recorder_has_seen_none<D: Delegate>()
    ensures { (recorder : Recorder D.ProofTreeBuilder D.Cx.Input D.Cx.Result) (goal : D.Cx.Input) →
        records recorder ≡ true → entries_of recorder ≡ [] → next_of recorder ≡ root_place →
        ⟦<Recording<D> as Delegate>⟧.sees recorder goal None }
{}

/// Where a recorder has seen a call that works a goal out come to its end, what it recorded is whole.
pub fn answered_is_whole<D: Delegate>()
    ensures { (recorder : Recorder D.ProofTreeBuilder D.Cx.Input D.Cx.Result) (goal : D.Cx.Input) →
        ⟦<Recording<D> as Delegate>⟧.sees recorder goal (Some []) →
        (same : D.Cx.Input → D.Cx.Input → Bool) → same goal goal ≡ true →
        is_whole same goal (entries_of recorder) ≡ true }
{}
