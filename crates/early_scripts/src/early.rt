//! Rules whose script stops early: a candidate is left at its first answer that is not yes, and the goal at its first
//! candidate that holds. A mark makes no difference.
ghost use Rattle.std.specs.Prelude.{◌≡◌};
ghost use Rattle.early_scripts.specs.Early.{fresh, request_of, with_answer, with_reply};

use delegate_parts::{DelegateOf, Frames, Lends, Outcome};
use rule_tables::delegate::Table;
use rule_tables::{Candidates, Goal, Rules};
use search_context::context::{NoMemory, Reply, Request};
use std::marker::PhantomData;

/// Where a frame stands between two steps.
#[derive(Clone, Copy)]
pub struct State {
    /// Whether the frame has begun.
    begun: bool,
    /// The candidate whose questions are asked.
    candidate: usize,
    /// Its question that is asked.
    question: usize,
    /// Each candidate before this one has a question that was answered no.
    each_fails: bool,
}

impl State {
    /// The state of a frame that has had no reply.
    fn new() -> State
        ensures { result ≡ fresh }
    {
        State {
            begun: false,
            candidate: 0,
            question: 0,
            each_fails: true,
        }
    }

    /// The state after one more reply.
    fn after(self, candidates: &Candidates<'_>, reply: Reply<Outcome>) -> State
        ensures { result ≡ with_reply candidates.now self reply }
    {
        match reply {
            Reply::Begin => State {
                begun: true,
                ..self
            },
            Reply::Answer(outcome) => self.with_answer(candidates, outcome),
            Reply::Noted => self,
        }
    }

    // A yes leads to the candidate's next question, and another answer to the next candidate.
    fn with_answer(self, candidates: &Candidates<'_>, outcome: Outcome) -> State
        ensures { result ≡ with_answer candidates.now self outcome }
    {
        match candidates.get(self.candidate) {
            None => self,
            Some(candidate) => match candidate.question(self.question) {
                None => self,
                Some(_) => match outcome {
                    Outcome::Yes => State {
                        question: self.question + 1,
                        ..self
                    },
                    Outcome::No => State {
                        candidate: self.candidate + 1,
                        question: 0,
                        ..self
                    },
                    Outcome::Maybe | Outcome::Overflow => State {
                        candidate: self.candidate + 1,
                        question: 0,
                        each_fails: false,
                        ..self
                    },
                },
            },
        }
    }

    /// The request of a frame in this state.
    fn request(self, candidates: &Candidates<'_>) -> Request<Goal, Outcome>
        ensures { result ≡ request_of candidates.now self }
    {
        match candidates.get(self.candidate) {
            None if self.each_fails => Request::Done(Outcome::No),
            None => Request::Done(Outcome::Maybe),
            Some(candidate) => match candidate.question(self.question) {
                None => Request::Done(Outcome::Yes),
                Some(asking) => Request::Evaluate(asking.kind, asking.goal),
            },
        }
    }
}

/// A goal that is worked out.
#[derive(Clone, Copy)]
pub struct EarlyFrame<T> {
    lender: T,
    goal: Goal,
    state: State,
}

/// How the goals of the rules that a `T` lends are worked out, where a script stops early.
pub struct Early<T> {
    lender: PhantomData<T>,
}

/// The delegate of such rules. A goal has the greater of 1 and `LIMIT` runs at most, and the provisional cache may be used
/// unless `PROVISIONAL` is 0.
pub type EarlyDelegate<T, const LIMIT: usize, const PROVISIONAL: usize> = DelegateOf<
    Early<T>,
    LIMIT,
    PROVISIONAL,
>;

impl<T: Lends<Rules>> Frames for Early<T> {
    ghost use Rattle.std.specs.Prelude.{true};
    ghost use Rattle.early_scripts.specs.Early.{EarlyFrameStands, early_script, frame_left, steps_within};
    ghost use Rattle.early_scripts.specs.EarlyLaws as laws;

    type Cx = Table<T>;

    type Frame = EarlyFrame<T>;

    const MOST_RUNS_OVERFLOW: bool = true;

    ghost MOST_RUNS_OVERFLOW = { true };

    ghost script = { early_script T.lent_by };

    ghost stands = { EarlyFrameStands T.lent_by };

    ghost left = { frame_left T.lent_by };

    ghost width = { λ cx. steps_within (T.lent_by cx.lender) };

    ghost yes_is_proved = { λ cx. laws.yes_is_proved (T.lent_by cx.lender) };

    ghost no_is_refuted = { λ cx. laws.no_is_refuted (T.lent_by cx.lender) };

    fn start(cx: Table<T>, input: Goal) -> Result<EarlyFrame<T>, NoMemory> {
        Ok(EarlyFrame {
            lender: cx.lender,
            goal: input,
            state: State::new(),
        })
    }

    fn step(
        frame: &mut EarlyFrame<T>,
        reply: Reply<Outcome>,
    ) -> Result<Request<Goal, Outcome>, NoMemory> {
        let candidates = frame.lender.lent().candidates(frame.goal);
        frame.state = frame.state.after(&candidates, reply);
        Ok(frame.state.request(&candidates))
    }
}
