//! Where the edges of a graph lead.
ghost use Rattle.std.specs.Prelude.{◌↔◌, All, IsTrue};
ghost use Rattle.graph_check.specs.Below.{HasGoal, AreClosed, goal_nodes_of};

use search_context::context::{Cx, Edge, Node};

/// Whether there is a first node, and it is of this goal.
pub(crate) fn is_rooted<X: Cx>(nodes: &[Node<X::Input, X::Result>], input: X::Input) -> bool
    ensures { IsTrue result ↔ HasGoal (goal_nodes_of nodes.now) 0 input }
{
    has_goal::<X>(nodes, 0, input)
}

/// Whether each edge leads to a node of the goal that it asks.
pub(crate) fn are_closed<X: Cx>(nodes: &[Node<X::Input, X::Result>]) -> bool
    ensures { IsTrue result ↔ AreClosed (goal_nodes_of nodes.now) }
{
    for node in nodes {
        if !reach_their_goals::<X>(nodes, &node.edges) {
            return false;
        }
    }
    true
}

fn reach_their_goals<X: Cx>(nodes: &[Node<X::Input, X::Result>], edges: &[Edge<X::Input>]) -> bool
    ensures { IsTrue result
        ↔ All (λ e. HasGoal (goal_nodes_of nodes.now) e.target e.input) edges.now }
{
    for edge in edges {
        if !has_goal::<X>(nodes, edge.target, edge.input) {
            return false;
        }
    }
    true
}

// Whether the node at the place is there, and is of this goal.
fn has_goal<X: Cx>(nodes: &[Node<X::Input, X::Result>], place: usize, goal: X::Input) -> bool
    ensures { IsTrue result ↔ HasGoal (goal_nodes_of nodes.now) place goal }
{
    match nodes.get(place) {
        Some(node) => node.input == goal,
        None => false,
    }
}
