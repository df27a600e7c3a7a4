//! Goals that ask themselves. A goal is a path kind: it asks itself over a step of this kind, and its
//! result is the answer.
ghost use Rattle.std.specs.Prelude.{◌≡◌, false, Some, IfOk, OnOk, OnErr, slice_get};
ghost use Rattle.test_delegates.specs.Below.{open_goal, with_run, IsNodeOf};
ghost use Rattle.test_delegates.specs.Words.{loop_run};

use delegate_parts::{ContextOf, DelegateOf, Frames, Goals, Outcome};
use search_parts::context::{Edge, NoMemory, NodeId, Reply, Request};
use search_parts::global_cache::GlobalCache;
use search_parts::path::PathKind;
use std::alloc::Global;

/// Goals that ask themselves.
#[derive(Clone, Copy)]
pub struct Loops;

/// Their context.
pub type LoopsContext = ContextOf<Loops>;

/// Their delegate, which has eight runs of a goal and the provisional cache.
pub type LoopsDelegate = DelegateOf<Loops, 8, 1>;

impl Goals for Loops {
    ghost use Rattle.std.proofs.Common.{rules};
    ghost use Rattle.test_delegates.specs.Loops as loops;

    type Input = PathKind;

    ghost proves = { λ goals. loops.HasItsQuestion };

    ghost refutes = { λ goals. loops.HasItsQuestion };

    ghost proves_more = { λ goals. loops.asks_more };

    ghost refutes_more = { λ goals. loops.asks_more };

    ghost clash = { λ goals. loops.clash };

    ghost same_input = { Prim.search rules };
}

/// How far a frame has come.
#[derive(Clone, Copy, PartialEq, Eq)]
pub enum Stage {
    New,
    Asked,
    Done,
}

impl Stage {
    ghost use Rattle.test_delegates.specs.Frames.{next_stage};

    fn next(self) -> Stage
        ensures { result ≡ next_stage self }
    {
        match self {
            Stage::New => Stage::Asked,
            Stage::Asked | Stage::Done => Stage::Done,
        }
    }
}

/// A frame of a goal.
#[derive(Drop)]
pub struct Frame {
    goal: PathKind,
    stage: Stage,
}

impl Frame {
    ghost use Rattle.test_delegates.specs.Frames.{request_at};

    fn request(&self, reply: Reply<Outcome>) -> Request<PathKind, Outcome>
        ensures { result ≡ request_at self.now.goal self.now.stage reply }
    {
        match (self.stage, reply) {
            (Stage::New, _) => Request::Evaluate(self.goal, self.goal),
            (_, Reply::Answer(outcome)) => Request::Done(outcome),
            _ => Request::Done(Outcome::Maybe),
        }
    }
}

impl Frames for Loops {
    ghost use Rattle.std.specs.Prelude.{true};
    ghost use Rattle.test_delegates.specs.Frames.{loop_script, Stands, steps_left, yes_is_proved, no_is_refuted};

    type Cx = LoopsContext;

    type Frame = Frame;

    const MOST_RUNS_OVERFLOW: bool = true;

    ghost MOST_RUNS_OVERFLOW = { true };

    ghost script = { λ cx. loop_script };

    ghost stands = { λ frame cx. Stands frame };

    ghost left = { λ frame. steps_left frame.stage };

    ghost width = { λ cx. 2 };

    ghost yes_is_proved = { λ cx. yes_is_proved };

    ghost no_is_refuted = { λ cx. no_is_refuted };

    fn start(_cx: LoopsContext, input: PathKind) -> Result<Frame, NoMemory> {
        Ok(Frame {
            goal: input,
            stage: Stage::New,
        })
    }

    fn step(
        frame: &mut Frame,
        reply: Reply<Outcome>,
    ) -> Result<Request<PathKind, Outcome>, NoMemory> {
        let request = frame.request(reply);
        frame.stage = frame.stage.next();
        Ok(request)
    }
}

/// Ends the run of an open node whose goal got this answer to its question of itself. The edge leads to
/// the target, which is a node of the goal too. `NoMemory` leaves the cache as it was.
#[tactic(auto, using(crate::proofs::Looped::loop_asks))]
pub fn finish_towards(
    cache: &mut GlobalCache<LoopsDelegate>,
    alloc: Global,
    node: NodeId,
    goal: PathKind,
    target: NodeId,
    outcome: Outcome,
) -> Result<(), NoMemory>
    requires is_open { open_goal cache.old.nodes node.0 ≡ Some goal }
    requires target { IsNodeOf cache.old.nodes target.0 goal }
    ensures ended { OnOk result
        (cache.new ≡ record cache.old {
          nodes = with_run cache.old.nodes node.0 (loop_run goal target.0 outcome);
        }) }
    ensures refused { OnErr result (cache.new ≡ cache.old) }
{
    let replies = vec![in alloc; Reply::Begin, Reply::Answer(outcome)]?;
    let edge = Edge {
        kind: goal,
        input: goal,
        target: target.0,
    };
    let edges = vec![in alloc; edge]?;
    cache.finish_node(node, replies, edges, outcome);
    Ok(())
}

/// The same with an edge to the node itself.
pub fn finish_loop(
    cache: &mut GlobalCache<LoopsDelegate>,
    alloc: Global,
    node: NodeId,
    goal: PathKind,
    outcome: Outcome,
) -> Result<(), NoMemory>
    requires { open_goal cache.old.nodes node.0 ≡ Some goal }
    ensures ended { OnOk result
        (cache.new ≡ record cache.old {
          nodes = with_run cache.old.nodes node.0 (loop_run goal node.0 outcome);
        }) }
    ensures refused { OnErr result (cache.new ≡ cache.old) }
{
    finish_towards(cache, alloc, node, goal, node, outcome)
}

/// A node of a run of the goal that got this answer. `NoMemory` may leave an open node.
pub fn answered_loop(
    cache: &mut GlobalCache<LoopsDelegate>,
    alloc: Global,
    goal: PathKind,
    outcome: Outcome,
) -> Result<NodeId, NoMemory>
    ensures { IfOk result
        (λ node. slice_get cache.new.nodes node.0 ≡ Some (record {
          goal = goal;
          run = Some (loop_run goal node.0 outcome);
          gone = false;
        })) }
{
    let node = cache.open_node(goal)?;
    finish_loop(cache, alloc, node, goal, outcome)?;
    Ok(node)
}
