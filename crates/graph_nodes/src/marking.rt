//! Which nodes are reached from some roots, by their places among the nodes that are held.
ghost use Rattle.std.specs.Prelude.{◌≡◌, ◌∷◌, ◌++◌, [], ◌<◌, ◌≤◌, ℕ, drop, length, take, map, slice_get, IfOk, OnOk};
ghost use Rattle.graph_nodes.specs.Words.{AreMarked, AreNone, AreWaiting, IsClosed, IsRising, kept, Marks as Marking, MarksFrom, targets_of, with_root};

use crate::hints::Hints;
use crate::node_list::{Held, Slot};
use search_context::context::{Edge, NoMemory, NodeId};
use smallvec::SmallVec;
use std::alloc::Global;

/// Of so many nodes it is found out without memory of the heap. Most calls write no more.
const FEW: usize = 16;

/// The nodes that were found so far.
#[derive(Drop)]
struct Marks {
    /// Of each place, whether its node was found.
    marked: SmallVec<bool, FEW>,
    /// The places of those that are still to be followed, of which the one that was found last comes first.
    waiting: SmallVec<usize, FEW>,
    /// Where nodes were found.
    hints: Hints,
}

impl Marks {
    // No node is found yet.
    fn new(alloc: Global, count: usize) -> Result<Marks, NoMemory>
        ensures { IfOk result (λ marks. AreNone count marks.marked.items marks.waiting.items) }
    {
        Ok(Marks {
            marked: SmallVec::from_elem(alloc, false, count)?,
            waiting: SmallVec::with_capacity(alloc, count)?,
            hints: Hints::new(alloc, count)?,
        })
    }

    // Marks the node with this number, if it is held. It is looked for from the place `near` on.
    fn mark<I, R>(
        &mut self,
        held: &[Held<I, R>],
        near: usize,
        number: usize,
    ) -> Result<(), NoMemory>
        requires rising { IsRising held.now }
        requires each { length self.old.marked.items ≡ length held.now }
        requires waiting { AreWaiting self.old.marked.items self.old.waiting.items }
        ensures waiting { OnOk result (AreWaiting self.new.marked.items self.new.waiting.items) }
        ensures marks { OnOk result (Marking held.now (number ∷ [])
            self.old.marked.items self.new.marked.items self.old.waiting.items self.new.waiting.items) }
    {
        let Some(place) = self.hints.find(held, near, number) else {
            return Ok(());
        };
        if self.marked.as_slice()[place] {
            return Ok(());
        }
        self.waiting.push(place)?;
        self.marked.as_mut_slice()[place] = true;
        Ok(())
    }

    // Marks what these edges lead to, where that is held. It is looked for from the place of the node
    // that they leave on, since most of it stands near there.
    fn mark_targets<I, R>(
        &mut self,
        held: &[Held<I, R>],
        near: usize,
        edges: &[Edge<I>],
    ) -> Result<(), NoMemory>
        requires rising { IsRising held.now }
        requires each { length self.old.marked.items ≡ length held.now }
        requires waiting { AreWaiting self.old.marked.items self.old.waiting.items }
        ensures waiting { OnOk result (AreWaiting self.new.marked.items self.new.waiting.items) }
        ensures marks { OnOk result (Marking held.now (map (λ e. e.target) edges.now)
            self.old.marked.items self.new.marked.items self.old.waiting.items self.new.waiting.items) }
    {
        for edge in edges {
            self.mark(held, near, edge.target)?;
        }
        Ok(())
    }

    // Marks what the node of this slot leads to, where that is held. The node stands at the place `near`.
    fn mark_behind<I, R>(
        &mut self,
        held: &[Held<I, R>],
        near: usize,
        slot: &Slot<I, R>,
    ) -> Result<(), NoMemory>
        requires rising { IsRising held.now }
        requires each { length self.old.marked.items ≡ length held.now }
        requires waiting { AreWaiting self.old.marked.items self.old.waiting.items }
        ensures waiting { OnOk result (AreWaiting self.new.marked.items self.new.waiting.items) }
        ensures marks { OnOk result (Marking held.now (targets_of slot.now)
            self.old.marked.items self.new.marked.items self.old.waiting.items self.new.waiting.items) }
    {
        match slot {
            Slot::Open(_) => Ok(()),
            Slot::Finished(node) => self.mark_targets(held, near, &node.edges),
        }
    }

    // Marks the node with this number, if it is held, and all that is reached from it. It is looked for from
    // the place `near` on.
    fn mark_from<I, R>(
        &mut self,
        held: &[Held<I, R>],
        near: usize,
        number: usize,
    ) -> Result<(), NoMemory>
        requires rising { IsRising held.now }
        requires each { length self.old.marked.items ≡ length held.now }
        requires none_waits { length self.old.waiting.items ≡ 0 }
        requires closed { IsClosed held.now self.old.marked.items }
        ensures none_waits { OnOk result (length self.new.waiting.items ≡ 0) }
        ensures closed { OnOk result (IsClosed held.now self.new.marked.items) }
        ensures marks { OnOk result (MarksFrom held.now number
            self.old.marked.items self.new.marked.items) }
    {
        self.mark(held, near, number)?;
        while let Some(place) = self.waiting.pop() {
            let entry = &held[place];
            self.mark_behind(held, place, &entry.slot)?;
        }
        Ok(())
    }

    // Marks all that is reached from the roots, and from the last one, if there is one, where nothing is marked yet.
    fn mark_all<I, R>(
        &mut self,
        held: &[Held<I, R>],
        roots: &[NodeId],
        last: Option<NodeId>,
    ) -> Result<(), NoMemory>
        requires rising { IsRising held.now }
        requires none { AreNone (length held.now) self.old.marked.items self.old.waiting.items }
        ensures { OnOk result (AreMarked held.now (map (λ r. r.0) (with_root last roots.now))
            self.new.marked.items) }
    {
        // Roots are looked for from the end on, since most of them are new. Each is followed at once: what it leads
        // to stands near it most of the time.
        let end = held.len().saturating_sub(1);
        for root in roots {
            self.mark_from(held, end, root.0)?;
        }
        match last {
            Some(root) => self.mark_from(held, end, root.0),
            None => Ok(()),
        }
    }
}

// Of each of these nodes, whether it is reached by their edges from one of the roots, or from the last one, if there is
// one. Numbers that none of them has are passed over.
pub(super) fn marked_from<I, R>(
    alloc: Global,
    held: &[Held<I, R>],
    roots: &[NodeId],
    last: Option<NodeId>,
) -> Result<SmallVec<bool, FEW>, NoMemory>
    requires { IsRising held.now }
    ensures { IfOk result (λ marked.
        AreMarked held.now (map (λ r. r.0) (with_root last roots.now)) marked.items) }
{
    let mut marks = Marks::new(alloc, held.len())?;
    marks.mark_all(held, roots, last)?;
    let Marks {
        marked,
        waiting: _,
        hints: _,
    } = marks;
    Ok(marked)
}

// Of what stands from this place on, only what is marked is left, in its order.
pub(super) fn keep_from<T: Drop>(items: &mut Vec<T>, place: usize, marked: &[bool])
    requires within { place ≤ length items.old.items }
    requires each { length marked.now ≡ length (drop place items.old.items) }
    ensures { items.new.items
        ≡ take place items.old.items ++ kept marked.now (drop place items.old.items) }
{
    let count = keep_marked(&mut items[place..], marked);
    items.truncate(place + count);
}

// Moves what is marked to the front, in its order, and answers how much that is.
fn keep_marked<T>(items: &mut [T], marked: &[bool]) -> usize
    requires { length items.old ≡ length marked.now }
    ensures within { result ≤ length items.old }
    ensures count { result ≡ length (kept marked.now items.old) }
    ensures kept { (i : ℕ) → i < result →
        slice_get items.new i ≡ slice_get (kept marked.now items.old) i }
{
    let mut count = 0;
    for place in 0..marked.len() {
        if marked[place] {
            items.swap(count, place);
            count += 1;
        }
    }
    count
}
