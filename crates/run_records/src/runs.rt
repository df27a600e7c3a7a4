//! One run of a goal: its frame, its node and its record, and the frame's next step.
ghost use Rattle.std.specs.Prelude.{◌≡◌, ◌∷◌, All, Contains, IfOk, IfErr, List, None, OnOk};
ghost use Rattle.search_context.specs.Delegate.{left_open, SeesOn};
ghost use Rattle.run_records.specs.Below.{CanTake, NodeId, verdicts};
ghost use Rattle.run_records.specs.Words.{HasRunNodes, IsRunFault, IsVerdict, RunSteps};

use crate::candidates::FinishedCandidates;
use crate::progress::Progress;
use crate::spare::SpareMemory;
use search_context::context::{Cx, Delegate, Fault, NoMemory, NodeId, Reply, Request, Verdict};

/// A reply for the newest frame, and a node, which counts for a definite answer alone.
#[derive(Clone, Copy)]
pub struct Received<R> {
    pub reply: Reply<R>,
    pub node: Option<NodeId>,
}

impl<R> Received<R> {
    /// A reply that is no definite answer.
    pub fn without_node(reply: Reply<R>) -> Received<R>
        ensures { result ≡ record { reply = reply; node = None } }
    {
        Received { reply, node: None }
    }
}

/// What becomes of the result of a goal that is done and rests on no other goal.
#[derive(Clone, Copy)]
pub enum Fate<R> {
    /// It is stored in the global cache.
    Stored,
    /// It is not stored: a tree of the goal is recorded.
    NotStored,
    /// It is compared with this result, which is stored of the goal already.
    Compared(R),
}

/// One run of a goal: the frame that works it out, the node that stands for it, and what it has done. A deep stack has very
/// many, so the small fields stand together.
#[derive(Drop)]
pub struct Run<X: Cx, F: Drop> {
    pub frame: F,
    pub node: NodeId,
    pub progress: Progress<X::Input, X::Result>,
    /// How many runs of the goal have ended before this one.
    pub finished_runs: usize,
    /// What its finished candidates used of the goals on the stack.
    pub candidates: FinishedCandidates,
    /// Whether a question was refused below the goal in a run before this one.
    pub met_overflow_before: bool,
    /// What becomes of the goal's result. All its runs have the same one.
    pub fate: Fate<X::Result>,
}

/// Gives the frame of a run its reply, and answers its request.
#[inline(always)]
pub fn step_run<D: Delegate>(
    run: &mut Run<D::Cx, D::Frame>,
    cx: D::Cx,
    received: Received<<D::Cx as Cx>::Result>,
    spare: &mut SpareMemory<<D::Cx as Cx>::Input, <D::Cx as Cx>::Result>,
    inspect: &mut D::ProofTreeBuilder,
) -> Result<
    Request<<D::Cx as Cx>::Input, <D::Cx as Cx>::Result>,
    Fault<<D::Cx as Cx>::Input, <D::Cx as Cx>::Result>,
>
    requires can_take { CanTake D.stands D.script run.old.frame received.reply }
    ensures stepped { IfOk result (λ request.
        RunSteps D.Delegate D.Cx.Cx cx received request run.old run.new) }
    ensures fault { IfErr result (λ fault.
        IsRunFault D.Delegate D.Cx.Cx cx received run.old fault) }
    ensures same_starts { D.starts inspect.new ≡ D.starts inspect.old }
    ensures same_noop { D.noop inspect.new ≡ D.noop inspect.old }
    ensures seen { IfOk result (λ request. (below : List D.Frame) → SeesOn D.sees inspect.old inspect.new
        (run.old.frame ∷ below) (left_open request (run.new.frame ∷ below))) }
{
    let verdict = sort_of(cx, received.reply);
    spare.lend_lists(&mut run.progress, received.reply);
    run.progress
        .receive(received.reply, verdict, received.node)?;
    let request = D::step(&mut run.frame, received.reply, inspect)?;
    if let Some(number) = run.progress.order_fault(request) {
        return Err(Fault::Protocol(number));
    }
    run.progress.note_request(request);
    Ok(request)
}

/// Appends the runs' own nodes and those of their definite answers.
pub fn push_run_nodes<X: Cx, F: Drop>(
    runs: &[Run<X, F>],
    nodes: &mut Vec<NodeId>,
) -> Result<(), NoMemory>
    ensures kept { (n : NodeId) → Contains nodes.old.items n → Contains nodes.new.items n }
    ensures runs { OnOk result (All (HasRunNodes nodes.new.items) runs.now) }
{
    for run in runs {
        nodes.push(run.node)?;
        run.progress.push_targets(nodes)?;
    }
    Ok(())
}

/// The verdict of an answer; any other reply says neither yes nor no.
pub fn sort_of<X: Cx>(cx: X, reply: Reply<X::Result>) -> Verdict
    ensures { IsVerdict (verdicts X.Cx) reply result }
{
    match reply {
        Reply::Answer(outcome) => cx.sort(outcome),
        Reply::Begin => Verdict::Neither,
        Reply::Noted => Verdict::Neither,
    }
}
