//! Goals that count down. A goal is a number: 0 holds, and any other goal asks the number below it, once or twice,
//! and holds if that does.
ghost use Rattle.std.specs.Prelude.{◌≡◌};
ghost use Rattle.test_delegates.specs.Countdown as countdown;

use delegate_parts::{ContextOf, DelegateOf, Frames, Goals, Outcome};
use search_parts::context::{NoMemory, Reply, Request};
use search_parts::path::PathKind;

/// A number as a goal.
#[derive(Clone, Copy, Debug, PartialEq, Eq, Hash)]
pub struct Count(pub u32);

/// What two answers come to: yes if both are yes, no if one is no, and else maybe.
fn both(one: Outcome, other: Outcome) -> Outcome
    ensures { result ≡ countdown.both one other }
{
    match (one, other) {
        (Outcome::Yes, Outcome::Yes) => Outcome::Yes,
        (Outcome::No, _) | (_, Outcome::No) => Outcome::No,
        _ => Outcome::Maybe,
    }
}

/// Goals that count down.
#[derive(Clone, Copy)]
pub struct Countdown {
    /// Whether a goal asks the number below it twice.
    pub asks_twice: bool,
}

/// Their delegate, which has one run of a goal and no provisional cache.
pub type CountdownDelegate = DelegateOf<Countdown, 1, 0>;

impl Goals for Countdown {
    ghost use Rattle.std.proofs.Common.{rules};

    type Input = Count;

    ghost proves = { λ goals. countdown.Proves };

    ghost refutes = { λ goals. countdown.Refutes };

    ghost proves_more = { λ goals. countdown.proves_more };

    ghost refutes_more = { λ goals. countdown.refutes_more };

    ghost clash = { λ goals. countdown.clash };

    ghost same_input = { Prim.search rules };
}

/// How far a frame has come.
#[derive(Clone, Copy, PartialEq, Eq)]
pub enum Stage {
    New,
    Once,
    Twice,
    Over,
}

impl Stage {
    ghost use Rattle.test_delegates.specs.CountFrames.{next_stage};

    fn next(self) -> Stage
        ensures { result ≡ next_stage self }
    {
        match self {
            Stage::New => Stage::Once,
            Stage::Once => Stage::Twice,
            Stage::Twice | Stage::Over => Stage::Over,
        }
    }
}

/// A frame of a goal.
#[derive(Drop)]
pub struct Frame {
    asks_twice: bool,
    goal: Count,
    stage: Stage,
    /// What the answers so far come to.
    outcome: Outcome,
}

impl Frame {
    ghost use Rattle.test_delegates.specs.CountFrames.{request_at};

    fn request(&self) -> Request<Count, Outcome>
        ensures { result ≡ request_at self.now.asks_twice self.now.goal self.now.stage
            self.now.outcome }
    {
        if self.goal.0 == 0 {
            return Request::Done(Outcome::Yes);
        }
        let below = Request::Evaluate(PathKind::Inductive, Count(self.goal.0 - 1));
        match self.stage {
            Stage::New => below,
            Stage::Once if self.asks_twice => below,
            _ => Request::Done(self.outcome),
        }
    }
}

impl Frames for Countdown {
    ghost use Rattle.std.specs.Prelude.{true};
    ghost use Rattle.test_delegates.specs.CountFrames.{count_script, Stands, steps_left};
    ghost use Rattle.test_delegates.specs.CountLaws.{yes_is_proved, no_is_refuted};

    type Cx = ContextOf<Countdown>;

    type Frame = Frame;

    const MOST_RUNS_OVERFLOW: bool = true;

    ghost MOST_RUNS_OVERFLOW = { true };

    ghost script = { λ cx. count_script cx.0 };

    ghost stands = { λ frame cx. Stands frame cx.0 };

    ghost left = { λ frame. steps_left frame.stage };

    ghost width = { λ cx. 3 };

    ghost yes_is_proved = { λ cx. yes_is_proved cx.0 };

    ghost no_is_refuted = { λ cx. no_is_refuted cx.0 };

    fn start(cx: ContextOf<Countdown>, input: Count) -> Result<Frame, NoMemory> {
        Ok(Frame {
            asks_twice: cx.0.asks_twice,
            goal: input,
            stage: Stage::New,
            outcome: Outcome::Yes,
        })
    }

    fn step(frame: &mut Frame, reply: Reply<Outcome>) -> Result<Request<Count, Outcome>, NoMemory> {
        if let Reply::Answer(outcome) = reply {
            frame.outcome = both(frame.outcome, outcome);
        }
        let request = frame.request();
        frame.stage = frame.stage.next();
        Ok(request)
    }
}
