//! The nodes that a call writes.
ghost use Rattle.std.specs.Prelude.{◌≡◌, OnErr, OnOk};
ghost use Rattle.search_state.specs.Drafts.{HasNoDrafts, noted};

use global_cache::GlobalCache;
use heap_room::list_bytes;
use search_context::context::{Delegate, NoMemory, NodeId};
use std::alloc::Global;

/// So many nodes a call writes at least before they are looked through for the first time.
const FEW: usize = 1024;

/// What a call knows of the nodes that it writes. They stand behind those that were there when it began, and most of
/// them are let go again, since its answers do not rest on them.
#[derive(Drop)]
pub struct Drafts {
    /// The number of the first one.
    pub first: usize,
    /// The nodes of the results that the call has stored. What these lead to stays.
    pub stored: Vec<NodeId>,
    /// How many nodes were held when the call began.
    held_before: usize,
    /// At how many nodes that are held it is worth to look for some that can be let go.
    limit: usize,
}

impl Drafts {
    /// None, of a call over this cache that begins now. It takes no memory yet.
    pub fn new<D: Delegate>(alloc: Global, cache: &GlobalCache<D>) -> Drafts
        ensures { HasNoDrafts cache.now.nodes result }
    {
        let mut drafts = Drafts::none(alloc);
        drafts.begin(cache);
        drafts
    }

    /// None, where no call has begun.
    pub fn none(alloc: Global) -> Drafts {
        Drafts {
            first: 0,
            stored: Vec::new(alloc),
            held_before: 0,
            limit: 0,
        }
    }

    /// Forgets those of the last call: one over this cache begins now. The memory of the list stays.
    pub(crate) fn begin<D: Delegate>(&mut self, cache: &GlobalCache<D>)
        ensures { HasNoDrafts cache.now.nodes self.new }
    {
        self.first = cache.next_node();
        self.stored.clear();
        self.held_before = cache.nodes_in_memory();
        self.limit = self.held_before.saturating_add(FEW);
    }

    /// How many bytes of the heap the list of nodes has room in.
    pub(crate) fn held_bytes(&self) -> usize {
        list_bytes(&self.stored)
    }

    /// How many nodes the call has written, one for each run.
    pub(crate) fn written<D: Delegate>(&self, cache: &GlobalCache<D>) -> usize {
        cache.next_node().saturating_sub(self.first)
    }

    /// Notes the node of a result that is about to be stored. A refusal leaves the drafts as they were.
    pub fn note_stored(&mut self, node: Option<NodeId>) -> Result<(), NoMemory>
        ensures first { self.new.first ≡ self.old.first }
        ensures noted { OnOk result (self.new.stored.items ≡ noted node self.old.stored.items) }
        ensures refused { OnErr result (self.new.stored.items ≡ self.old.stored.items) }
    {
        if let Some(node) = node {
            self.stored.push(node)?;
        }
        Ok(())
    }

    /// Whether so many nodes are held that it is worth to look for some that can be let go.
    pub fn are_many(&self, held: usize) -> bool {
        self.limit <= held
    }

    /// Notes that they were looked through, and so many nodes are held now. They are looked through again once the call
    /// holds twice as many, so that all looking takes no longer than the writing of the nodes.
    pub fn looked_through(&mut self, held: usize)
        ensures first { self.new.first ≡ self.old.first }
        ensures stored { self.new.stored ≡ self.old.stored }
    {
        let left = held.saturating_sub(self.held_before);
        self.limit = held.saturating_add(left.max(FEW));
    }
}
