//! The nodes to which the goals lead.
ghost use Rattle.std.specs.Prelude.{All, Contains, OnOk};
ghost use Rattle.open_goals.specs.Below.{NodeId, HasRunNodes};
ghost use Rattle.open_goals.specs.Nodes.{HasCycleNode, HasNodes};

use crate::goals::OpenGoals;
use run_records::runs::push_run_nodes;
use search_context::context::{Cx, NoMemory, NodeId};
use search_stack::depth::StackDepth;
use search_stack::stack::Stack;

impl<X: Cx, F: Drop> OpenGoals<X, F> {
    /// Appends the nodes that the goals lead to: those of their runs, those to which the answers of their cycles
    /// lead, and those of their runs' definite answers, also in ignored candidates. A refusal may leave a part of
    /// them appended.
    ///
    /// Once a goal is run again, the answers of its cycles lead to the node of its provisional result, which is not
    /// that of its run. It counts before the first such answer, since a cycle may come to it at any time.
    pub fn push_nodes(&self, nodes: &mut Vec<NodeId>) -> Result<(), NoMemory>
        ensures kept { (n : NodeId) → Contains nodes.old.items n → Contains nodes.new.items n }
        ensures nodes { OnOk result (All (HasNodes nodes.new.items) self.now) }
    {
        push_cycle_nodes(&self.stack, nodes)?;
        push_run_nodes(self.runs.as_slice(), nodes)
    }
}

/// Appends the nodes to which the answers of the goals' cycles lead.
fn push_cycle_nodes<X: Cx>(stack: &Stack<X>, nodes: &mut Vec<NodeId>) -> Result<(), NoMemory>
    ensures kept { (n : NodeId) → Contains nodes.old.items n → Contains nodes.new.items n }
    ensures cycles { OnOk result (All (HasCycleNode nodes.new.items) stack.now) }
{
    for place in 0..stack.len() {
        if let Some(node) = stack[StackDepth::new(place)].state.node {
            nodes.push(node)?;
        }
    }
    Ok(())
}
