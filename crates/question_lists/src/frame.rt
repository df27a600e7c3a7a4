//! The frame of a goal: it asks the goal's questions in order, until one answer is enough or none is left.
ghost use Rattle.std.specs.Prelude.{◌≡◌, ◌<◌};
ghost use Rattle.question_lists.specs.Below.{Answer, Outcome};
ghost use Rattle.question_lists.specs.Frame.{fresh, next_place, outcome_of, with_reply};

use crate::needs::Needs;
use delegate_parts::Outcome;
use search_context::context::Reply;

/// What a frame remembers between two steps.
#[derive(Clone, Copy, Debug, PartialEq, Eq)]
pub struct State {
    /// Whether the frame has begun.
    begun: bool,
    /// The place of the next question, which is the number of answers so far.
    place: usize,
    /// Whether some answer is enough for the goal's result: a no where it needs all, a yes where it needs any.
    has_enough: bool,
    /// Whether each answer is of the other verdict.
    is_full: bool,
}

impl State {
    /// The state of a frame that has had no reply.
    pub(crate) fn new() -> State
        ensures { result ≡ fresh }
    {
        State {
            begun: false,
            place: 0,
            has_enough: false,
            is_full: true,
        }
    }

    /// The state after one more reply, where an answer is one to a question of the goal, which has so many.
    pub(crate) fn after(self, needs: Needs, count: usize, reply: Reply<Outcome>) -> State
        requires { (r : Outcome) → reply ≡ Answer r → self.place < count }
        ensures { result ≡ with_reply needs self reply }
    {
        match reply {
            Reply::Begin => State {
                begun: true,
                ..self
            },
            Reply::Answer(outcome) => State {
                place: self.place + 1,
                has_enough: self.has_enough || outcome == needs.early_outcome(),
                is_full: self.is_full && outcome == needs.full_outcome(),
                ..self
            },
            Reply::Noted => self,
        }
    }

    /// The result by the answers so far.
    pub(crate) fn outcome(self, needs: Needs) -> Outcome
        ensures { result ≡ outcome_of needs self }
    {
        if self.has_enough {
            needs.early_outcome()
        } else if self.is_full {
            needs.full_outcome()
        } else {
            Outcome::Maybe
        }
    }

    /// The place of the next question, unless some answer is enough.
    pub(crate) fn next_place(self) -> Option<usize>
        ensures { result ≡ next_place self }
    {
        if self.has_enough {
            None
        } else {
            Some(self.place)
        }
    }
}
