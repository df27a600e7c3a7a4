//! The calls of a search without what they promise. The promises of a search are long, and a test needs none of them: it looks
//! at what came of a call. So these hand no promise on, and what calls them is proved without any.

use graph_check::check_graph;
use search_graph::graph::SearchGraph;
use search_parts::context::{Answer, Cx, Delegate, Fault, NoMemory, NodeId, ProofGraph, Verdict};
use search_parts::global_cache::GlobalCache;
use search_parts::path::PathKind;
use std::alloc::Global;

/// A cache that holds nothing.
pub fn new_cache<X, D>(alloc: Global, cx: X) -> GlobalCache<D>
where
    X: Cx,
    D: Delegate<Cx = X>,
{
    GlobalCache::new(alloc, cx)
}

/// A graph for a root question at this depth.
pub fn new_graph<X, D>(alloc: Global, depth: usize) -> SearchGraph<D>
where
    X: Cx,
    D: Delegate<Cx = X>,
{
    SearchGraph::new(alloc, depth)
}

/// Asks the goal on the graph, by a step of this kind.
pub fn evaluate<X, D>(
    graph: &mut SearchGraph<D>,
    cache: &mut GlobalCache<D>,
    goal: X::Input,
    step: PathKind,
    builder: &mut D::ProofTreeBuilder,
) -> Result<Answer<X::Result>, Fault<X::Input, X::Result>>
where
    X: Cx,
    D: Delegate<Cx = X>,
{
    graph.evaluate_goal(cache, goal, step, builder)
}

/// Asks the questions as a list.
pub fn evaluate_list<X, D>(
    cache: &mut GlobalCache<D>,
    list: &[(usize, X::Input, PathKind)],
    builder: &mut D::ProofTreeBuilder,
    answers: &mut Vec<Result<Answer<X::Result>, Fault<X::Input, X::Result>>>,
) -> Result<(), NoMemory>
where
    X: Cx,
    D: Delegate<Cx = X>,
{
    SearchGraph::<D>::evaluate_list(cache, list, builder, answers)
}

/// Whether no goal is under evaluation.
pub fn is_idle<X, D>(graph: &SearchGraph<D>) -> bool
where
    X: Cx,
    D: Delegate<Cx = X>,
{
    graph.is_empty() && graph.debug_current_depth() == 0
}

/// Whether the checker accepts the graph.
fn accepts<X, D>(
    alloc: Global,
    cx: X,
    graph: &ProofGraph<X>,
    goal: X::Input,
    verdict: Verdict,
    builder: &mut D::ProofTreeBuilder,
) -> Result<bool, NoMemory>
where
    X: Cx,
    D: Delegate<Cx = X>,
{
    check_graph::<D>(alloc, cx, graph, goal, verdict, builder)
}

/// Whether a graph of the node is handed out, and the checker accepts it.
pub fn has_accepted_graph<X, D>(
    alloc: Global,
    cache: &GlobalCache<D>,
    goal: X::Input,
    verdict: Verdict,
    node: NodeId,
    builder: &mut D::ProofTreeBuilder,
) -> Result<bool, NoMemory>
where
    X: Cx,
    D: Delegate<Cx = X>,
{
    match cache.graph_of(node)? {
        Some(graph) => accepts::<X, D>(alloc, cache.cx(), &graph, goal, verdict, builder),
        None => Ok(false),
    }
}
