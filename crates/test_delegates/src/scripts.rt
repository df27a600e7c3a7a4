//! Goals with scripts. A goal makes the requests of its script one after the other, in whatever order they
//! stand, and whatever it is replied; at the script's end it holds.
ghost use Rattle.std.specs.Prelude.{◌≡◌};

use delegate_parts::{ContextOf, DelegateOf, Frames, Goals, Outcome};
use search_parts::context::{NoMemory, Reply, Request};
use search_parts::path::PathKind;

/// A goal: the place of its script.
#[derive(Clone, Copy, Debug, PartialEq, Eq, Hash)]
pub struct Goal(pub usize);

/// A line of a script: what its goal requests there.
#[derive(Clone, Copy, PartialEq, Eq)]
pub enum Line {
    Evaluate(PathKind, Goal),
    EnterCandidate,
    FinishCandidate,
    Ignore(usize),
    /// The goal holds, and later lines are not read.
    End,
}

impl Line {
    ghost use Rattle.test_delegates.specs.Scripts.{request_of};

    fn request(self) -> Request<Goal, Outcome>
        ensures { result ≡ request_of self }
    {
        match self {
            Line::Evaluate(kind, goal) => Request::Evaluate(kind, goal),
            Line::EnterCandidate => Request::EnterCandidate,
            Line::FinishCandidate => Request::FinishCandidate,
            Line::Ignore(candidate) => Request::Ignore(candidate),
            Line::End => Request::Done(Outcome::Yes),
        }
    }
}

/// The scripts of three goals. A script ends after its last line, and any other goal has no lines.
#[derive(Clone, Copy)]
pub struct Scripts {
    pub lines: [[Line; 5]; 3],
}

impl Scripts {
    ghost use Rattle.test_delegates.specs.Scripts.{line_at};

    fn line(self, goal: Goal, place: usize) -> Line
        ensures { result ≡ line_at self goal place }
    {
        if goal.0 < 3 && place < 5 {
            self.lines[goal.0][place]
        } else {
            Line::End
        }
    }
}

impl Goals for Scripts {
    ghost use Rattle.std.proofs.Common.{rules};
    ghost use Rattle.test_delegates.specs.Scripts as scripts;

    type Input = Goal;

    ghost proves = { scripts.Proves };

    ghost refutes = { scripts.Refutes };

    ghost proves_more = { λ goals goal some more within held. held };

    ghost refutes_more = { λ goals goal some more within failed. failed };

    ghost clash = { scripts.clash };

    ghost same_input = { Prim.search rules };
}

/// A frame of a goal.
#[derive(Drop)]
pub struct Frame {
    scripts: Scripts,
    goal: Goal,
    /// The place of the next line.
    place: usize,
}

/// The delegate of goals with scripts. A goal has the greater of 1 and `LIMIT` runs at most.
pub type ScriptsDelegate<const LIMIT: usize> = DelegateOf<Scripts, LIMIT, 1>;

// A goal that had its most runs comes to maybe, while a question that is refused for want of depth is answered
// overflow, so that the two can be told apart.
impl Frames for Scripts {
    ghost use Rattle.std.specs.Prelude.{false};
    ghost use Rattle.test_delegates.specs.Scripts.{script_of, Stands, lines_left, yes_is_proved, no_is_refuted};

    type Cx = ContextOf<Scripts>;

    type Frame = Frame;

    const MOST_RUNS_OVERFLOW: bool = false;

    ghost MOST_RUNS_OVERFLOW = { false };

    ghost script = { λ cx. script_of cx.0 };

    ghost stands = { λ frame cx. Stands frame cx.0 };

    ghost left = { λ frame. lines_left frame.place };

    ghost width = { λ cx. 6 };

    ghost yes_is_proved = { λ cx. yes_is_proved cx.0 };

    ghost no_is_refuted = { λ cx. no_is_refuted cx.0 };

    fn start(cx: ContextOf<Scripts>, input: Goal) -> Result<Frame, NoMemory> {
        Ok(Frame {
            scripts: cx.0,
            goal: input,
            place: 0,
        })
    }

    fn step(frame: &mut Frame, _reply: Reply<Outcome>) -> Result<Request<Goal, Outcome>, NoMemory> {
        let line = frame.scripts.line(frame.goal, frame.place);
        frame.place += 1;
        Ok(line.request())
    }
}
