//! What is reached from a node, as data that can be looked at without the list.
ghost use Rattle.std.specs.Prelude.{◌≡◌, ℕ, ◌<◌, map, length, slice_index, MatchOption, IfOk, slice_get, Some};
ghost use Rattle.graph_nodes.specs.Below.{Edge};
ghost use Rattle.graph_nodes.specs.Words.{Finds, IsCopyFrom, IsWhole, original_node, ended_node};

use crate::found::Found;
use crate::node_list::NodeList;
use search_context::context::{NoMemory, Node, NodeId};
use std::alloc::Global;
use std::hash::Hash;

/// What is reached from a node of the list, if all of that is finished: the node itself first and the others in any
/// order, each once. Their edges lead to places of what is handed out. The time is linear in what is copied, but for
/// look-ups in a map.
pub fn copied_nodes<I: Copy + Eq + Hash, R: Copy>(
    nodes: &NodeList<I, R>,
    root: NodeId,
) -> Result<Option<Vec<Node<I, R>>>, NoMemory>
    ensures { IfOk result (λ copy. MatchOption copy (IsWhole nodes.now root.0 → ⊥)
        (λ copy. IsCopyFrom nodes.now root.0 copy.items)) }
{
    let alloc = nodes.allocator();
    let mut found = Found::new(alloc);
    found.place_of(root.0)?;
    let mut copy = Vec::new(alloc);
    while let Some(number) = found.number_at(copy.len()) {
        let Some(finished) = nodes.finished(number) else {
            return Ok(None);
        };
        copy.push(copied(alloc, &mut found, finished)?)?;
    }
    Ok(Some(copy))
}

// A copy of the node, whose edges lead to the places of their targets.
fn copied<I: Copy, R: Copy>(
    alloc: Global,
    found: &mut Found,
    node: &Node<I, R>,
) -> Result<Node<I, R>, NoMemory>
    ensures same { IfOk result (λ copy.
        ended_node node.now ≡ original_node (slice_index found.new) copy) }
    ensures inside { IfOk result (λ copy. (i : ℕ) (e : Edge I) →
        slice_get copy.edges.items i ≡ Some e → e.target < length found.new) }
    ensures finds { Finds found.old found.new (map (λ e. e.target) node.now.edges.items) }
{
    Ok(Node {
        input: node.input,
        replies: Vec::from_slice(alloc, &node.replies)?,
        edges: found.placed(alloc, &node.edges)?,
        result: node.result,
    })
}
