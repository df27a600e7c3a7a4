//! How a goal is asked.
ghost use Rattle.sessions.specs.Questions.{AreCountedStarts, IsAsked};

use delegate_parts::{Builder, Outcome};
use search_graph::graph::SearchGraph;
use search_graph::law::limits::price;
use search_parts::context::{Cx, Delegate, Fault, NodeId};
use search_parts::global_cache::GlobalCache;
use search_parts::path::PathKind;

/// What a question came to.
#[derive(Clone, Copy, Debug, PartialEq, Eq)]
pub struct Asked {
    pub outcome: Outcome,
    /// Whether a goal was cut off now, since it had no depth left or its most runs. What an earlier question stored may have
    /// been cut off, too.
    pub limits_met: bool,
    /// How many runs of goals were started.
    pub started: u64,
    /// The root of the graph of a yes or a no.
    pub node: Option<NodeId>,
}

/// Asks the goal at this depth. The search graph may be any: it is as good as a new one, and has the memory of its last call.
pub(crate) fn ask<X, D>(
    cache: &mut GlobalCache<D>,
    graph: &mut SearchGraph<D>,
    depth: usize,
    goal: u32,
) -> Result<Asked, Fault<u32, Outcome>>
where
    X: Cx<Input = u32, Result = Outcome>,
    D: Delegate<Cx = X, ProofTreeBuilder = Builder>,
    // Where starts are those that the builder counts, this is what the search promises.
    ensures asked { AreCountedStarts D.starts D.noop → IsAsked D.Delegate X.Cx
        ⟦<u32 as PartialEq>⟧.eq ⟦<Outcome as PartialEq>⟧.eq cache.old depth goal result cache.new }
{
    price::<D>();

    graph.renew(depth);
    let mut builder = Builder::new(true);
    let answer = graph.evaluate_goal(cache, goal, PathKind::Inductive, &mut builder)?;
    Ok(Asked {
        outcome: answer.result,
        limits_met: graph.limits_met(),
        started: builder.started(),
        node: answer.node,
    })
}
