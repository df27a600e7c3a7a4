//! The closed walks of a graph: which kinds they have.
ghost use Rattle.std.specs.Prelude.{◌≡◌, ◌↔◌, ◌<◌, ◌+◌, length, All, IsTrue, IfOk, MatchOption};
ghost use Rattle.std.specs.List.{list_any};
ghost use Rattle.graph_check.specs.Below.{rank_of, AreClosed, CyclesHaveKind, goal_nodes_of, successor_lists};
ghost use Rattle.graph_check.specs.Words.{HasCycle, HasInnerEdge, IsBetween, IsGreater, IsLesser, leads_to, steps_over, targets_over};

use path_kinds::path::PathKind;
use search_context::context::{Edge, NoMemory, Node};
use std::alloc::{AllocError, Global};
use strong_components::components;

/// Whether every closed walk has this kind: none has a greater one, and none a lesser one.
pub(crate) fn cycles_have_kind<I, R>(
    alloc: Global,
    nodes: &[Node<I, R>],
    kind: PathKind,
) -> Result<bool, NoMemory>
    requires { AreClosed (goal_nodes_of nodes.now) }
    ensures { IfOk result (λ all. IsTrue all ↔ CyclesHaveKind kind (goal_nodes_of nodes.now)) }
{
    Ok(!has_greater_cycle(alloc, nodes, kind)? && !has_lesser_cycle(alloc, nodes, kind)?)
}

fn has_greater_cycle<I, R>(
    alloc: Global,
    nodes: &[Node<I, R>],
    kind: PathKind,
) -> Result<bool, NoMemory>
    requires { AreClosed (goal_nodes_of nodes.now) }
    ensures { IfOk result (λ found.
        IsTrue found ↔ HasCycle (IsGreater kind) (goal_nodes_of nodes.now)) }
{
    match kind_above(kind) {
        Some(least) => has_cycle(alloc, nodes, least, PathKind::ForcedAmbiguity),
        None => Ok(false),
    }
}

fn has_lesser_cycle<I, R>(
    alloc: Global,
    nodes: &[Node<I, R>],
    kind: PathKind,
) -> Result<bool, NoMemory>
    requires { AreClosed (goal_nodes_of nodes.now) }
    ensures { IfOk result (λ found.
        IsTrue found ↔ HasCycle (IsLesser kind) (goal_nodes_of nodes.now)) }
{
    match kind_below(kind) {
        Some(most) => has_cycle(alloc, nodes, PathKind::Inductive, most),
        None => Ok(false),
    }
}

// The next greater kind.
fn kind_above(kind: PathKind) -> Option<PathKind>
    ensures { MatchOption result (rank_of kind ≡ 3) (λ next. rank_of next ≡ rank_of kind + 1) }
{
    match kind {
        PathKind::Inductive => Some(PathKind::Unknown),
        PathKind::Unknown => Some(PathKind::Coinductive),
        PathKind::Coinductive => Some(PathKind::ForcedAmbiguity),
        PathKind::ForcedAmbiguity => None,
    }
}

// The next lesser kind.
fn kind_below(kind: PathKind) -> Option<PathKind>
    ensures { MatchOption result (rank_of kind ≡ 0) (λ next. rank_of next + 1 ≡ rank_of kind) }
{
    match kind {
        PathKind::Inductive => None,
        PathKind::Unknown => Some(PathKind::Inductive),
        PathKind::Coinductive => Some(PathKind::Unknown),
        PathKind::ForcedAmbiguity => Some(PathKind::Coinductive),
    }
}

// Whether some closed walk has a kind from `least` to `most`. It has if an edge of such a kind lies on one over
// edges up to `most`, which is so exactly if the edge stays in its strongly connected component.
fn has_cycle<I, R>(
    alloc: Global,
    nodes: &[Node<I, R>],
    least: PathKind,
    most: PathKind,
) -> Result<bool, NoMemory>
    requires { AreClosed (goal_nodes_of nodes.now) }
    ensures { IfOk result (λ found.
        IsTrue found ↔ HasCycle (IsBetween least most) (goal_nodes_of nodes.now)) }
{
    let steps = steps_up_to(alloc, nodes, most)?;
    let numbers = components(alloc, &steps)?;
    Ok(has_inner_edge(nodes, &numbers, least, most))
}

// Where the edges of kinds up to `most` lead, from each node.
fn steps_up_to<I, R>(
    alloc: Global,
    nodes: &[Node<I, R>],
    most: PathKind,
) -> Result<Vec<Vec<usize>>, AllocError>
    ensures { IfOk result (λ steps.
        successor_lists steps.items ≡ steps_over most (goal_nodes_of nodes.now)) }
{
    let mut steps = Vec::with_capacity(alloc, nodes.len())?;
    for node in nodes {
        steps.push(targets_up_to(alloc, &node.edges, most)?)?;
    }
    Ok(steps)
}

fn targets_up_to<I>(
    alloc: Global,
    edges: &[Edge<I>],
    most: PathKind,
) -> Result<Vec<usize>, AllocError>
    ensures { IfOk result (λ targets. targets.items ≡ targets_over most edges.now) }
{
    edges
        .iter()
        .filter(|edge| edge.kind <= most)
        .map(|edge| edge.target)
        .collect(alloc)
}

// Whether some edge of a kind from `least` to `most` leads to a node of the same number.
fn has_inner_edge<I, R>(
    nodes: &[Node<I, R>],
    numbers: &[usize],
    least: PathKind,
    most: PathKind,
) -> bool
    requires each { length numbers.now ≡ length nodes.now }
    requires closed { AreClosed (goal_nodes_of nodes.now) }
    ensures { IsTrue result ↔ HasInnerEdge numbers.now least most (goal_nodes_of nodes.now) }
{
    for (place, node) in nodes.iter().enumerate() {
        if has_edge_to(&node.edges, numbers, numbers[place], least, most) {
            return true;
        }
    }
    false
}

// Whether some edge of a kind from `least` to `most` leads to a node of this number.
fn has_edge_to<I>(
    edges: &[Edge<I>],
    numbers: &[usize],
    number: usize,
    least: PathKind,
    most: PathKind,
) -> bool
    requires { All (λ e. e.target < length numbers.now) edges.now }
    ensures { result ≡ list_any (leads_to numbers.now number least most) edges.now }
{
    edges.iter().any(|edge| {
        least <= edge.kind && edge.kind <= most && numbers[edge.target] == number
    })
}
