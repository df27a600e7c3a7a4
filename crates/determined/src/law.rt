//! Where a delegate is decisive, each goal of a closed list has one of the two graphs.
ghost use Rattle.std.specs.Prelude.{◌≡◌, ℕ, true, false, Bool, List, Option, Contains};
ghost use Rattle.determined.specs.Below.{IsDecisive, Question, verdicts};
ghost use Rattle.determined.specs.Closed.{ExactlyOne, HasProof, HasRefutation, IsClosed, IsExact};
ghost use Rattle.determined.specs.Kept.{KeepsRule};
ghost use Rattle.determined.specs.Given.{HasProofOver, HasRefutationOver, IsClosedButGiven};

use search_context::context::{Cx, Delegate};

/// Each goal of a closed list has a proof graph or a refutation graph, and not both.
pub fn has_one<D: Delegate>()
    ensures { (cx : D.Cx) (goals : List D.Cx.Input) (most : ℕ) →
        IsDecisive (verdicts D.Cx.Cx) (D.script cx) → IsClosed (D.script cx) goals most →
        (goal : D.Cx.Input) → Contains goals goal →
        ExactlyOne (HasProof (D.Cx.proves cx) goal) (HasRefutation (D.Cx.refutes cx) goal) }
{}

/// So a result that is yes if such a goal has a proof graph, and no if it has a refutation graph, says which of the
/// two it has. The answers of a search that meets no limit are such results, over a cache of decided results.
pub fn answer_is_exact<D: Delegate>()
    ensures { (cx : D.Cx) (goals : List D.Cx.Input) (most : ℕ) →
        IsDecisive (verdicts D.Cx.Cx) (D.script cx) → IsClosed (D.script cx) goals most →
        (goal : D.Cx.Input) → Contains goals goal → (r : D.Cx.Result) →
        (HasProof (D.Cx.proves cx) goal → D.Cx.is_yes r ≡ true) →
        (HasRefutation (D.Cx.refutes cx) goal → D.Cx.is_no r ≡ true) →
        IsExact (verdicts D.Cx.Cx) (D.Cx.proves cx) (D.Cx.refutes cx) goal r }
{}

/// Where some questions are given, the same holds of graphs that stop at these: a proof graph may rest on given
/// questions that are true, and a refutation graph on those that are false.
pub fn has_one_over_given<D: Delegate>()
    ensures { (cx : D.Cx) (given : Question D.Cx.Input → Option Bool) (goals : List D.Cx.Input)
        (most : ℕ) →
        IsDecisive (verdicts D.Cx.Cx) (D.script cx) → IsClosedButGiven given (D.script cx) goals most →
        (goal : D.Cx.Input) → Contains goals goal →
        ExactlyOne (HasProofOver given (D.Cx.proves cx) goal)
        (HasRefutationOver given (D.Cx.refutes cx) goal) }
{}

/// Where rules change, each goal that stays keeps what it has of the two graphs. A goal stays if its rules are what they
/// were, and ask goals that stay alone: then its graph, without what leads to other goals, is one by the rules after.
pub fn graphs_stay<X: Cx>()
    ensures proof { (is_gone : X.Input → Bool) (before after : X) →
        KeepsRule is_gone (X.proves before) (X.proves after) → (goal : X.Input) → is_gone goal ≡ false →
        HasProof (X.proves before) goal → HasProof (X.proves after) goal }
    ensures refutation { (is_gone : X.Input → Bool) (before after : X) →
        KeepsRule is_gone (X.refutes before) (X.refutes after) → (goal : X.Input) → is_gone goal ≡ false →
        HasRefutation (X.refutes before) goal → HasRefutation (X.refutes after) goal }
{}
