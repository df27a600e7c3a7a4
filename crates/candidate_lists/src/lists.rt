//! Goals that are given by lists of candidates, and the context and the delegate that are made of them.
ghost use Rattle.std.specs.Prelude.{◌≡◌, ◌≤◌, ◌<◌, ◌^◌, ◌+◌, ℕ, true, List, IfSome};
ghost use Rattle.candidate_lists.specs.Below.{Question};

use crate::frame::CandidateFrame;
use delegate_parts::{ContextOf, DelegateOf, Frames, Goals, Outcome};
use search_context::context::{NoMemory, Reply, Request};
use search_context::path::PathKind;
use std::hash::Hash;

/// Goals, and the candidates that each has. A reference to what has the rules implements it.
///
/// The one law is that `==` of goals is equality, which `search rules` shows where it is derived.
pub trait CandidateLists: Copy {
    ghost use Rattle.candidate_lists.specs.Candidate.{Candidate, mark_at, question_at};
    ghost use Rattle.candidate_lists.specs.Frame.{steps_for};

    /// A goal.
    type Input: Eq + Hash + Copy;

    /// What stands in a candidate for a question, as `Question Goal` itself.
    ghost Asking: { Type 0 };

    /// The question that it stands for.
    ghost question_of: { Asking → Question Self.Input };

    /// The candidates of a goal, in the order in which they are tried.
    ghost candidates_of: { Self → Self.Input → List (Candidate Asking) };

    /// How many steps a goal's frame has at most: two, four for each candidate, and one for each of its questions.
    ghost most: { Self → ℕ };

    /// Whether the goal's candidate at this place no longer counts once one without a mark holds, if there is such a
    /// candidate. Where no candidate has a mark, this is `Some(false)` at each place that has one.
    fn mark(self, goal: Self::Input, candidate: usize) -> Option<bool>
        ensures value { result ≡ mark_at (candidates_of self goal) candidate }
        ensures few { IfSome result (λ _. candidate + 1 < 2 ^ 32) }
        ensures within { steps_for (candidates_of self goal) ≤ most self };

    /// The question at a place of the goal's candidate at another: the kind of the step, and the goal. There is none where
    /// the candidate has no more of them, or the goal no such candidate.
    fn question(
        self,
        goal: Self::Input,
        candidate: usize,
        place: usize,
    ) -> Option<(PathKind, Self::Input)>
        ensures value { result ≡ question_at question_of (candidates_of self goal) candidate place }
        ensures few { IfSome result (λ _. place + 1 < 2 ^ 32) };

    ghost same_input: { (x y : Self.Input) → Self.Input.eq x y ≡ true → x ≡ y };
}

/// What has goals that are given by candidates.
#[derive(Clone, Copy, Debug)]
pub struct AnyOf<T>(pub T);

/// The context of such goals, as `ContextOf(AnyOf(mine))`. Its results are outcomes, and have no tokens.
pub type CandidatesContext<T> = ContextOf<AnyOf<T>>;

/// The delegate of such goals. A goal has the greater of 1 and `LIMIT` runs at most, and the provisional cache may be
/// used unless `PROVISIONAL` is 0.
pub type CandidatesDelegate<T, const LIMIT: usize, const PROVISIONAL: usize> = DelegateOf<
    AnyOf<T>,
    LIMIT,
    PROVISIONAL,
>;

impl<T: CandidateLists> Goals for AnyOf<T> {
    ghost use Rattle.candidate_lists.specs.Candidate.{Proves, Refutes};
    ghost use Rattle.candidate_lists.specs.Laws.Meanings as meanings;

    type Input = T::Input;

    ghost proves = { λ lists goal held. Proves T.question_of (T.candidates_of lists.0 goal) held };

    ghost refutes = { λ lists goal failed. Refutes T.question_of (T.candidates_of lists.0 goal) failed };

    ghost proves_more = { λ lists goal. meanings.Proves-more T.question_of (T.candidates_of lists.0 goal) };

    ghost refutes_more = { λ lists goal. meanings.Refutes-more T.question_of (T.candidates_of lists.0 goal) };

    ghost clash = { λ lists goal. meanings.clash T.question_of (T.candidates_of lists.0 goal) };

    ghost same_input = { T.same_input };
}

impl<T: CandidateLists> Frames for AnyOf<T> {
    ghost use Rattle.candidate_lists.specs.Frame.{script_of};
    ghost use Rattle.candidate_lists.specs.Standing.{Stands, frame_left};
    ghost use Rattle.candidate_lists.specs.Laws.Runs as runs;

    type Cx = CandidatesContext<T>;

    type Frame = CandidateFrame<T>;

    const MOST_RUNS_OVERFLOW: bool = true;

    ghost MOST_RUNS_OVERFLOW = { true };

    ghost script = { λ cx goal. script_of T.question_of (T.candidates_of cx.0.0 goal) };

    ghost stands = { λ frame cx goal replies. Stands T.question_of T.candidates_of frame cx.0.0 goal replies };

    ghost left = { frame_left T.candidates_of };

    ghost width = { λ cx. T.most cx.0.0 };

    ghost yes_is_proved = { λ cx goal. runs.yes_is_proved T.question_of (T.candidates_of cx.0.0 goal) };

    ghost no_is_refuted = { λ cx goal. runs.no_is_refuted T.question_of (T.candidates_of cx.0.0 goal) };

    fn start(cx: CandidatesContext<T>, input: T::Input) -> Result<CandidateFrame<T>, NoMemory> {
        Ok(CandidateFrame::new(cx.0.0, input))
    }

    // A search steps frames of runs, and of replays. What is called in two places is not inlined unasked.
    #[inline(always)]
    fn step(
        frame: &mut CandidateFrame<T>,
        reply: Reply<Outcome>,
    ) -> Result<Request<T::Input, Outcome>, NoMemory> {
        Ok(frame.step(reply))
    }
}
