//! What goals mean: all that a context of outcomes is told of them.
ghost use Rattle.std.specs.Prelude.{◌≡◌, true, List};
ghost use Rattle.delegate_parts.specs.Below.{Question, IsWithin, Overlap};
ghost use Rattle.delegate_parts.specs.Laws.{AreVerdicts};

use crate::outcome::Outcome;
use search_context::context::{Cx, Verdict};
use std::hash::Hash;

/// Goals, and what they mean.
///
/// The laws at the end are those of `Cx`: a goal that is proved (refuted) by some questions is so by more; what proves
/// a goal and what refutes it share a question; and `==` of goals is equality.
pub trait Goals: Copy {
    /// A goal.
    type Input: Eq + Hash + Copy;

    /// The goal holds where each of these questions does.
    ghost proves: { Self → Self.Input → List (Question Self.Input) → Type 0 };

    /// The goal does not hold where none of these questions does.
    ghost refutes: { Self → Self.Input → List (Question Self.Input) → Type 0 };

    ghost proves_more: { (goals : Self) (goal : Self.Input) (some more : List (Question Self.Input)) → IsWithin some more → proves goals goal some → proves goals goal more };

    ghost refutes_more: { (goals : Self) (goal : Self.Input) (some more : List (Question Self.Input)) → IsWithin some more → refutes goals goal some → refutes goals goal more };

    ghost clash: { (goals : Self) (goal : Self.Input) (held failed : List (Question Self.Input)) → proves goals goal held → refutes goals goal failed → Overlap held failed };

    ghost same_input: { (x y : Self.Input) → Self.Input.eq x y ≡ true → x ≡ y };
}

/// A context whose results are outcomes, with their verdicts.
pub trait Outcomes: Cx<Result = Outcome, AmbiguityInfo = ()> {
    ghost same_verdicts: { AreVerdicts Self.is_yes Self.is_no };
}

/// The context of these goals. Its results are outcomes, and have no tokens.
#[derive(Clone, Copy, Debug)]
pub struct ContextOf<G>(pub G);

impl<G: Goals> Cx for ContextOf<G> {
    ghost use Rattle.std.proofs.Common.{rules};
    ghost use Rattle.delegate_parts.specs.Laws as laws;
    ghost use Rattle.delegate_parts.specs.Outcome as outcomes;

    type Input = G::Input;

    type Result = Outcome;

    type AmbiguityInfo = ();

    type DepNodeIndex = ();

    ghost proves = { λ cx. G.proves cx.0 };

    ghost refutes = { λ cx. G.refutes cx.0 };

    ghost is_yes = { outcomes.is_yes };

    ghost is_no = { outcomes.is_no };

    ghost token = { λ cx goal. tt };

    ghost proves_more = { λ cx. G.proves_more cx.0 };

    ghost refutes_more = { λ cx. G.refutes_more cx.0 };

    ghost clash = { λ cx. G.clash cx.0 };

    ghost one_sort = { laws.one_sort };

    ghost same_input = { G.same_input };

    ghost same_result = { Prim.search rules };

    fn dep_node(self, _input: G::Input) {}

    fn sort(self, outcome: Outcome) -> Verdict {
        outcome.verdict()
    }
}

impl<G: Goals> Outcomes for ContextOf<G> {
    ghost use Rattle.delegate_parts.specs.Laws.{own_verdicts};

    ghost same_verdicts = { own_verdicts };
}
