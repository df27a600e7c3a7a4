//! What is new in a graph: the nodes that are reached by way of nodes which were not shown yet, and those at which it goes
//! no further.
ghost use Rattle.std.specs.Prelude.{◌≡◌, IfOk, IfSome, IsTrue, length, Some, true};
ghost use Rattle.table_runs.specs.Parts.{AllAreShown, IsOfSort, KnownAreShown};
ghost use Rattle.table_runs.specs.Right.{AreShown, SomeGraphShows};
ghost use Rattle.table_runs.specs.Shown.{shown_of};

use delegate_parts::{Builder, Outcome};
use graph_check::check_part;
use indexmap::IndexSet;
use rule_tables::Goal;
use search_parts::context::{Cx, Delegate, Edge, NoMemory, Node, NodeId, ProofGraph, Verdict};
use search_parts::global_cache::GlobalCache;
use std::alloc::Global;
use std::collections::HashMap;

/// Of a goal the outcome that was shown of it last, with the node by whose graph it was.
pub(super) type Shown = HashMap<Goal, (Outcome, NodeId)>;

/// A part of a graph.
#[derive(Drop)]
pub(super) struct Part<X: Cx> {
    pub(super) graph: ProofGraph<X>,
    /// Whether the node at each place was shown before.
    pub(super) known: Vec<bool>,
    /// The number of the node at each place.
    found: IndexSet<NodeId>,
}

/// What is new in the graph of the node, itself first. `None` where a node isn't finished.
pub(super) fn part_of<X, D>(
    alloc: Global,
    cache: &GlobalCache<D>,
    shown: &Shown,
    root: NodeId,
    sort: Verdict,
) -> Result<Option<Part<X>>, NoMemory>
where
    X: Cx<Input = Goal, Result = Outcome>,
    D: Delegate<Cx = X, ProofTreeBuilder = Builder>,
    ensures each { IfOk result (λ part. IfSome part (λ p. length p.known.items ≡ length p.graph.nodes.items)) }
    ensures known { AreShown X.Cx cache.now.cx shown.now.entries → IfOk result (λ part. IfSome part (λ p.
        KnownAreShown X.Cx cache.now.cx sort p.known.items p.graph.nodes.items)) }
{
    let mut found = IndexSet::new(alloc);
    found.insert(root)?;
    let mut nodes = Vec::new(alloc);
    let mut known = Vec::new(alloc);
    for place in 0..usize::MAX {
        let Some(id) = found.get_index(place).copied() else {
            break;
        };
        let Some(node) = cache.node(id) else {
            return Ok(None);
        };
        let is_known = was_shown::<X>(cache.cx(), shown, node, id, sort);
        nodes.push(copied(alloc, &mut found, node, is_known)?)?;
        known.push(is_known)?;
    }
    Ok(Some(Part {
        graph: ProofGraph { nodes },
        known,
        found,
    }))
}

// Whether the goal of the node was shown, with its outcome, which is of this sort.
fn was_shown<X: Cx<Input = Goal, Result = Outcome>>(
    cx: X,
    shown: &Shown,
    node: &Node<Goal, Outcome>,
    id: NodeId,
    sort: Verdict,
) -> bool
    ensures of_sort { result ≡ true → IsOfSort X.Cx sort node.now.result }
    ensures shown { AreShown X.Cx cx shown.now.entries → result ≡ true →
        SomeGraphShows X.Cx cx node.now.input node.now.result }
{
    cx.sort(node.result) == sort && is_remembered(shown, node.input, node.result, id)
}

/// Whether it is remembered that the graph of this node shows the outcome of the goal.
pub(super) fn is_remembered(shown: &Shown, goal: Goal, outcome: Outcome, node: NodeId) -> bool
    ensures { result ≡ true →
        shown_of ⟦<Goal as PartialEq>⟧.eq shown.now.entries goal ≡ Some (outcome, node) }
{
    match shown.get(&goal) {
        Some(known) => known.0 == outcome && known.1 == node,
        None => false,
    }
}

// A copy of the node, whose edges lead to the places of their targets. Of one that is known it is not told what it rests
// on.
fn copied(
    alloc: Global,
    found: &mut IndexSet<NodeId>,
    node: &Node<Goal, Outcome>,
    is_known: bool,
) -> Result<Node<Goal, Outcome>, NoMemory>
    ensures input { IfOk result (λ copy. copy.input ≡ node.now.input) }
    ensures outcome { IfOk result (λ copy. copy.result ≡ node.now.result) }
{
    if is_known {
        return Ok(Node {
            input: node.input,
            replies: Vec::new(alloc),
            edges: Vec::new(alloc),
            result: node.result,
        });
    }
    Ok(Node {
        input: node.input,
        replies: Vec::from_slice(alloc, &node.replies)?,
        edges: placed(alloc, found, &node.edges)?,
        result: node.result,
    })
}

// The edges with the places of their targets.
fn placed(
    alloc: Global,
    found: &mut IndexSet<NodeId>,
    edges: &[Edge<Goal>],
) -> Result<Vec<Edge<Goal>>, NoMemory> {
    let mut placed = Vec::with_capacity(alloc, edges.len())?;
    for edge in edges {
        let (target, _) = found.insert_full(NodeId(edge.target))?;
        placed.push(Edge {
            kind: edge.kind,
            input: edge.input,
            target,
        })?;
    }
    Ok(placed)
}

/// Remembers that the goals of the part's nodes are shown, each with its outcome.
pub(super) fn remember<X: Cx<Input = Goal, Result = Outcome>>(
    shown: &mut Shown,
    part: &Part<X>,
) -> Result<(), NoMemory>
    ensures { (cx : X) → AllAreShown X.Cx cx part.now.graph.nodes.items →
        AreShown X.Cx cx shown.old.entries → AreShown X.Cx cx shown.new.entries }
{
    for (place, node) in part.graph.nodes.iter().enumerate() {
        if let Some(id) = part.found.get_index(place) {
            remember_node::<X>(shown, node, *id)?;
        }
    }
    Ok(())
}

// Remembers that the goal of the node is shown, with its outcome.
fn remember_node<X: Cx<Input = Goal, Result = Outcome>>(
    shown: &mut Shown,
    node: &Node<Goal, Outcome>,
    id: NodeId,
) -> Result<(), NoMemory>
    ensures { (cx : X) → SomeGraphShows X.Cx cx node.now.input node.now.result →
        AreShown X.Cx cx shown.old.entries → AreShown X.Cx cx shown.new.entries }
{
    shown.insert(node.input, (node.result, id))?;
    Ok(())
}

/// Whether the checker accepts the part by the rules of this context.
pub(super) fn is_part_shown<X, D>(
    alloc: Global,
    cx: X,
    part: &Part<X>,
    sort: Verdict,
) -> Result<bool, NoMemory>
where
    X: Cx<Input = Goal, Result = Outcome>,
    D: Delegate<Cx = X, ProofTreeBuilder = Builder>,
    requires { length part.now.known.items ≡ length part.now.graph.nodes.items }
    ensures { KnownAreShown X.Cx cx sort part.now.known.items part.now.graph.nodes.items → IfOk result (λ shown.
        IsTrue shown → AllAreShown X.Cx cx part.now.graph.nodes.items) }
{
    // The frames that the check starts are none of the search's.
    let mut builder = Builder::new(true);
    check_part::<D>(
        alloc,
        cx,
        &part.graph,
        part.known.as_slice(),
        sort,
        &mut builder,
    )
}

/// Whether the first node of the part is of this goal, with this outcome.
pub(super) fn is_first<X: Cx<Input = Goal, Result = Outcome>>(
    part: &Part<X>,
    goal: Goal,
    outcome: Outcome,
) -> bool
    ensures { (cx : X) → AllAreShown X.Cx cx part.now.graph.nodes.items → IsTrue result →
        SomeGraphShows X.Cx cx goal outcome }
{
    match part.graph.nodes.first() {
        Some(node) => node.input == goal && node.result == outcome,
        None => false,
    }
}
