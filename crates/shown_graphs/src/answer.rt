//! One question: it is asked, and the graph of a definite answer is checked before anything is shown of it.
ghost use Rattle.std.specs.Prelude.{◌≡◌, IfOk, IfSome, None, Ok, Some};
ghost use Rattle.delegate_parts.specs.Builder.{started_in};
ghost use Rattle.shown_graphs.specs.Asked.{HasReason, IsToldAs};
ghost use Rattle.shown_graphs.specs.Below.{HasGraph, verdicts};
ghost use Rattle.graph_pages.specs.Checked.{IsRightlyShown, ShowsGraph, outcome_of, reason_of};
ghost use Rattle.watched_runs.specs.Reasons.{IsReason, was_run};
ghost use Rattle.watched_runs.specs.Watch.{inner_of};

use delegate_parts::{Builder, Outcomes};
use graph_pages::{Came, accepts, without_graph};
use rule_tables::{Goal, Outcome};
use search_context::context::{Answer, Delegate, Fault, NoMemory, NodeId};
use search_context::path::PathKind;
use search_graph::graph::SearchGraph;
use search_parts::global_cache::GlobalCache;
use std::alloc::Global;
use watched_runs::{Progress, Reason, Watcher, Watching};

/// Asks the goal at this depth, and checks the graph of a definite answer. The watcher is that of all questions over the
/// cache.
pub(crate) fn ask<X, D, P>(
    alloc: Global,
    cache: &mut GlobalCache<Watching<X, D, P>>,
    watcher: &mut Watcher<Goal, P>,
    depth: usize,
    goal: Goal,
) -> Came
where
    X: Outcomes<Input = Goal>,
    D: Delegate<Cx = X, ProofTreeBuilder = Builder>,
    P: Progress,
    ensures right { IsRightlyShown (verdicts X.Cx) (D.script cache.old.cx) (depth, goal) result }

    // The reason of what is neither yes nor no fits the call and what it came to.
    ensures reason { HasReason ⟦<Watching<X, D, P> as Delegate>⟧ X.Cx ⟦<Goal as PartialEq>⟧.eq
        ⟦<Outcome as PartialEq>⟧.eq goal depth cache.old cache.new
        (D.starts (inner_of watcher.old)) (D.starts (inner_of watcher.new))
        (D.noop (inner_of watcher.old))
        (was_run (started_in (inner_of watcher.old)) (inner_of watcher.new)) result }
    ensures same_context { cache.new.cx ≡ cache.old.cx }
{
    let mut graph = SearchGraph::<Watching<X, D, P>>::new(alloc, depth);
    let before = watcher.started();
    let came = graph.evaluate_goal(cache, goal, PathKind::Inductive, watcher);
    let reason = reason_noted(watcher, came, before, graph.limits_met());
    told::<X, D, P>(alloc, cache, goal, came, reason)
}

// Why a call came to neither yes nor no, if it did, as the watcher has it.
fn reason_noted<P: Progress>(
    watcher: &mut Watcher<Goal, P>,
    came: Result<Answer<Outcome>, Fault<Goal, Outcome>>,
    before: u64,
    is_limited: bool,
) -> Reason<Goal>
    ensures reason { IfOk came (λ answer.
        IsReason (was_run before (inner_of watcher.old)) is_limited answer.result result) }
    ensures same { inner_of watcher.new ≡ inner_of watcher.old }
{
    match came {
        Ok(answer) => watcher.reason(answer.result, before, is_limited),
        Err(_) => Reason::Unnoted,
    }
}

// What is told of what the call came to: an answer by its outcome, with its graph if it is definite, and a fault as it is.
fn told<X, D, P>(
    alloc: Global,
    cache: &GlobalCache<Watching<X, D, P>>,
    goal: Goal,
    came: Result<Answer<Outcome>, Fault<Goal, Outcome>>,
    reason: Reason<Goal>,
) -> Came
where
    X: Outcomes<Input = Goal>,
    D: Delegate<Cx = X, ProofTreeBuilder = Builder>,
    P: Progress,
    ensures same { IsToldAs came result }
    ensures reason { IfSome (reason_of result) (λ told. told ≡ reason) }
    ensures graph { IfOk came (λ answer.
        HasGraph (verdicts X.Cx) cache.now.nodes goal answer.result answer.node) →
        ShowsGraph (verdicts X.Cx) (D.script cache.now.cx) goal result }
{
    match came {
        Ok(answer) => match checked::<X, D, P>(alloc, cache, goal, answer, reason) {
            Ok(shown) => shown,
            Err(NoMemory) => Came::Fault(Fault::Memory),
        },
        Err(fault) => Came::Fault(fault),
    }
}

// The answer, with its graph if it is definite.
fn checked<X, D, P>(
    alloc: Global,
    cache: &GlobalCache<Watching<X, D, P>>,
    goal: Goal,
    answer: Answer<Outcome>,
    reason: Reason<Goal>,
) -> Result<Came, NoMemory>
where
    X: Outcomes<Input = Goal>,
    D: Delegate<Cx = X, ProofTreeBuilder = Builder>,
    P: Progress,
    ensures outcome { IfOk result (λ came. outcome_of came ≡ Ok answer.result) }
    ensures reason { IfOk result (λ came. IfSome (reason_of came) (λ told. told ≡ reason)) }
    ensures graph { HasGraph (verdicts X.Cx) cache.now.nodes goal answer.result answer.node →
        IfOk result (ShowsGraph (verdicts X.Cx) (D.script cache.now.cx) goal) }
{
    match answer.node {
        Some(node) => with_graph::<X, D, P>(alloc, cache, goal, answer.result, node),
        None => Ok(without_graph(answer.result, reason)),
    }
}

// The outcome with the graph of this node, if it is handed out and the checker accepts it.
fn with_graph<X, D, P>(
    alloc: Global,
    cache: &GlobalCache<Watching<X, D, P>>,
    goal: Goal,
    outcome: Outcome,
    node: NodeId,
) -> Result<Came, NoMemory>
where
    X: Outcomes<Input = Goal>,
    D: Delegate<Cx = X, ProofTreeBuilder = Builder>,
    P: Progress,
    ensures outcome { IfOk result (λ came. outcome_of came ≡ Ok outcome) }
    ensures reason { IfOk result (λ came. reason_of came ≡ None) }
    ensures graph { HasGraph (verdicts X.Cx) cache.now.nodes goal outcome (Some node) →
        IfOk result (ShowsGraph (verdicts X.Cx) (D.script cache.now.cx) goal) }
{
    let handed = cache.graph_of(node)?;
    match handed {
        Some(graph) => {
            // They are counted, so each place is a number of 64 bits.
            let _count = graph.nodes.len();
            let cx = cache.cx();
            if accepts::<X, D>(alloc, cx, &graph, goal, outcome)? {
                Ok(Came::Graph {
                    outcome,
                    nodes: graph.nodes,
                })
            } else {
                Ok(Came::Unchecked(outcome))
            }
        }
        None => Ok(Came::Unchecked(outcome)),
    }
}
