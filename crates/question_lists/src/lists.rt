//! Goals that are given by lists of questions, and the context and the delegate that are made of them.
ghost use Rattle.std.specs.Prelude.{◌≡◌, ◌≤◌, ◌<◌, ℕ, true, Some, List, length, slice_get};
ghost use Rattle.question_lists.specs.Below.{Question};
ghost use Rattle.question_lists.specs.Frame.{request_of};

use crate::frame::State;
use crate::needs::Needs;
use delegate_parts::{ContextOf, DelegateOf, Frames, Goals, Outcome};
use search_context::context::{NoMemory, Reply, Request};
use search_context::path::PathKind;
use std::hash::Hash;

/// Goals, the questions that each has, and whether it needs all of them or any one. A reference to what has the rules
/// implements it.
///
/// The one law is that `==` of goals is equality, which `search rules` shows where it is derived.
pub trait QuestionLists: Copy {
    ghost use Rattle.question_lists.specs.declared.needs.Needs.{Needs};

    /// A goal. It holds no references, since two that are equal have to be the same.
    type Input: Eq + Hash + Copy;

    /// Which of its questions a goal needs.
    ghost needs_of: { Self → Self.Input → Needs };

    /// The questions of a goal, in the order in which they are asked.
    ghost questions_of: { Self → Self.Input → List (Question Self.Input) };

    /// How many questions a goal has at most.
    ghost most: { Self → ℕ };

    /// Which of its questions the goal needs.
    fn needs(self, goal: Self::Input) -> Needs
        ensures { result ≡ needs_of self goal };

    /// How many questions the goal has.
    fn count(self, goal: Self::Input) -> usize
        ensures value { result ≡ length (questions_of self goal) }
        ensures within { result ≤ most self };

    /// The question at a place, which is less than their number: the kind of the step, and the goal.
    fn question(self, goal: Self::Input, place: usize) -> (PathKind, Self::Input)
        requires { place < length (questions_of self goal) }
        ensures { slice_get (questions_of self goal) place
            ≡ Some (record { kind = result.0; goal = result.1 }) };

    ghost same_input: { (x y : Self.Input) → Self.Input.eq x y ≡ true → x ≡ y };
}

/// What has goals that are given by lists.
#[derive(Clone, Copy, Debug)]
pub struct Listed<T>(pub T);

/// The context of such goals, as `ContextOf(Listed(&mine))`. Its results are outcomes, and have no tokens.
pub type ListsContext<T> = ContextOf<Listed<T>>;

/// The delegate of such goals. A goal has the greater of 1 and `LIMIT` runs at most, and the provisional cache may be
/// used unless `PROVISIONAL` is 0.
pub type ListsDelegate<T, const LIMIT: usize, const PROVISIONAL: usize> = DelegateOf<
    Listed<T>,
    LIMIT,
    PROVISIONAL,
>;

impl<T: QuestionLists> Goals for Listed<T> {
    ghost use Rattle.question_lists.specs.Needs.{Proves, Refutes};
    ghost use Rattle.question_lists.specs.Meanings as meanings;

    type Input = T::Input;

    ghost proves = { λ lists goal held. Proves (T.needs_of lists.0 goal) (T.questions_of lists.0 goal) held };

    ghost refutes = { λ lists goal failed. Refutes (T.needs_of lists.0 goal) (T.questions_of lists.0 goal) failed };

    ghost proves_more = { λ lists goal. meanings.Proves-more (T.needs_of lists.0 goal) (T.questions_of lists.0 goal) };

    ghost refutes_more = { λ lists goal. meanings.Refutes-more (T.needs_of lists.0 goal) (T.questions_of lists.0 goal) };

    ghost clash = { λ lists goal. meanings.clash (T.needs_of lists.0 goal) (T.questions_of lists.0 goal) };

    ghost same_input = { T.same_input };
}

/// One run of a goal.
#[derive(Drop)]
pub struct ListFrame<T: QuestionLists> {
    lists: T,
    goal: T::Input,
    state: State,
}

impl<T: QuestionLists> Frames for Listed<T> {
    ghost use Rattle.std.specs.Prelude.{◌+◌};
    ghost use Rattle.question_lists.specs.Frame.{script_of, steps_left};
    ghost use Rattle.question_lists.specs.Standing.{Stands};
    ghost use Rattle.question_lists.specs.Runs as runs;

    type Cx = ListsContext<T>;

    type Frame = ListFrame<T>;

    const MOST_RUNS_OVERFLOW: bool = true;

    ghost MOST_RUNS_OVERFLOW = { true };

    ghost script = { λ cx goal. script_of (T.needs_of cx.0.0 goal) (T.questions_of cx.0.0 goal) };

    ghost stands = { λ frame cx goal replies. Stands T.needs_of frame cx.0.0 goal replies };

    ghost left = { λ frame. steps_left (length (T.questions_of frame.lists frame.goal)) frame.state };

    ghost width = { λ cx. T.most cx.0.0 + 1 };

    ghost yes_is_proved = { λ cx goal. runs.yes_is_proved (T.needs_of cx.0.0 goal) (T.questions_of cx.0.0 goal) };

    ghost no_is_refuted = { λ cx goal. runs.no_is_refuted (T.needs_of cx.0.0 goal) (T.questions_of cx.0.0 goal) };

    fn start(cx: ListsContext<T>, input: T::Input) -> Result<ListFrame<T>, NoMemory> {
        let lists = cx.0.0;
        let _count = lists.count(input);
        Ok(ListFrame {
            lists,
            goal: input,
            state: State::new(),
        })
    }

    fn step(
        frame: &mut ListFrame<T>,
        reply: Reply<Outcome>,
    ) -> Result<Request<T::Input, Outcome>, NoMemory> {
        let needs = frame.lists.needs(frame.goal);
        let count = frame.lists.count(frame.goal);
        frame.state = frame.state.after(needs, count, reply);
        Ok(request_of(frame.lists, frame.goal, needs, frame.state))
    }
}

// The request of the goal's frame in this state.
fn request_of<T: QuestionLists>(
    lists: T,
    goal: T::Input,
    needs: Needs,
    state: State,
) -> Request<T::Input, Outcome>
    requires { needs ≡ T.needs_of lists goal }
    ensures { result ≡ request_of needs (T.questions_of lists goal) state }
{
    match state.next_place() {
        Some(place) if place < lists.count(goal) => {
            let (kind, asked) = lists.question(goal, place);
            Request::Evaluate(kind, asked)
        }
        _ => Request::Done(state.outcome(needs)),
    }
}
