//! The nodes to which entries lead.
ghost use Rattle.std.specs.Prelude.{◌≡◌, ◌++◌, All, Contains, IfSome, OnOk};
ghost use Rattle.search_context.specs.declared.context.NodeId.{NodeId};
ghost use Rattle.provisional_cache.specs.Words.{entries_at, lists_of, nodes_in, nodes_of};

use crate::{ProvisionalCache, ProvisionalCacheEntry};
use search_context::context::{Cx, Delegate, NoMemory, NodeId};
use std::collections::HashMap;
use std::hash::Hash;

impl<D: Delegate> ProvisionalCache<D> {
    /// Appends the nodes of all entries. A refusal may leave a part of them appended.
    pub fn push_nodes(&self, nodes: &mut Vec<NodeId>) -> Result<(), NoMemory>
        ensures kept { (n : NodeId) → Contains nodes.old.items n → Contains nodes.new.items n }
        ensures nodes { OnOk result ((input : D.Cx.Input)
            → All (λ entry. IfSome entry.node (Contains nodes.new.items))
            (entries_at D.Cx.Input.eq self.now input)) }
        ensures no_others { OnOk result (nodes.new.items ≡ nodes.old.items ++ nodes_in self.now) }
    {
        push_nodes_of_lists(&self.lists, nodes)
    }
}

// Appends the nodes of the entries in all lists.
fn push_nodes_of_lists<I: Eq + Hash + Copy, X: Cx>(
    lists: &HashMap<I, Vec<ProvisionalCacheEntry<X>>>,
    nodes: &mut Vec<NodeId>,
) -> Result<(), NoMemory>
    ensures kept { (n : NodeId) → Contains nodes.old.items n → Contains nodes.new.items n }
    ensures pushed { OnOk result (nodes.new.items
        ≡ nodes.old.items ++ nodes_in (lists_of lists.now.entries)) }
{
    for (_, entries) in lists.iter() {
        let Ok(()) = push_nodes_of_list(entries.as_slice(), nodes) else {
            return Err(NoMemory);
        };
    }
    Ok(())
}

// Appends the nodes of the entries of a list.
fn push_nodes_of_list<X: Cx>(
    entries: &[ProvisionalCacheEntry<X>],
    nodes: &mut Vec<NodeId>,
) -> Result<(), NoMemory>
    ensures kept { (n : NodeId) → Contains nodes.old.items n → Contains nodes.new.items n }
    ensures pushed { OnOk result (nodes.new.items ≡ nodes.old.items ++ nodes_of entries.now) }
{
    for entry in entries {
        if let Some(node) = entry.node {
            nodes.push(node)?;
        }
    }
    Ok(())
}
