//! The list of numbered nodes, of which only those are held that were not let go.
ghost use Rattle.std.specs.Prelude.{◌≡◌, ◌∷◌, ◌++◌, ◌*◌, ◌<◌, ◌≤◌, ℕ, Bool, [], length, count_by, slice_get, Some, IfOk, IsSome, MatchOption, OnOk, OnErr};
ghost use Rattle.std.specs.Option.{is_some, option_map};
ghost use Rattle.graph_nodes.specs.Words.{open_node as new_node, open_goal, finished_node, with_run, ended_node, ended_run, node_of, is_held, with_root, AreLive, Collected, IsGone, KeepsOtherNodes, StayBefore, is_among};
ghost use Rattle.heap_room.specs.Bytes.{CoversBytes};

use crate::forgotten_goals::{is_forgotten, let_go_from, note_forgotten, shown_count};
use crate::held::{place_from, place_of};
use crate::marking::{keep_from, marked_from};
use crate::room::is_far_more;
use heap_room::{list_bytes, map_bytes};
use search_context::context::{Edge, NoMemory, Node, NodeId, Reply};
use std::alloc::Global;
use std::collections::{HashMap, HashSet};
use std::hash::Hash;
use std::marker::Model;

/// Of so few nodes what is forgotten is let go at once.
const FEW: usize = 256;

/// What is forgotten is let go once one in so many of the nodes that are held may be.
const PART: usize = 16;

/// A node that is held.
#[derive(Drop)]
pub(super) enum Slot<I, R> {
    /// The goal of a run that has not ended.
    Open(I),
    /// A run that has ended.
    Finished(Node<I, R>),
}

impl<I: Copy, R: Drop> Slot<I, R> {
    /// The node's goal.
    pub(super) fn input(&self) -> I
        ensures { result ≡ (node_of self.now).goal }
    {
        match self {
            Slot::Open(input) => *input,
            Slot::Finished(node) => node.input,
        }
    }
}

impl<I, R> Slot<I, R> {
    /// How many bytes of the heap the node's replies and edges hold.
    fn run_bytes(&self) -> usize {
        match self {
            Slot::Open(_) => 0,
            Slot::Finished(node) => {
                list_bytes(&node.replies).saturating_add(list_bytes(&node.edges))
            }
        }
    }
}

/// A node that is held, with its number.
#[derive(Drop)]
pub(super) struct Held<I, R> {
    /// The number, which never changes.
    pub(super) number: usize,
    /// The node.
    pub(super) slot: Slot<I, R>,
}

/// Nodes by their numbers, which count from 0 and are never given out again. Memory is held for those
/// alone that were not let go. In clauses it is the list of all numbers, where one whose node was let go
/// is a node that is gone. Since a node of a clause has a goal, each of these is shown with one and the
/// same, the first that ever was opened: so what is gone never changes.
///
/// The nodes of a goal that is forgotten are gone at once, but their memory is let go later, that of many at a time: so to
/// forget takes no time for what stays.
#[derive(Drop)]
pub struct NodeList<I: Eq + Hash, R> {
    held: Vec<Held<I, R>>,
    next: usize,
    first_goal: Option<I>,
    /// Of each goal that was forgotten since memory was let go, the number that was next then.
    forgotten: HashMap<I, usize>,
    /// The number that was next when a goal was forgotten last. No node from it on is gone that is still held.
    first_kept: usize,
    /// The number that was next when all that is held was looked at last.
    looked_from: usize,
}

impl<I: Eq + Hash, R> Model for NodeList<I, R> {
    ghost use Rattle.std.specs.Prelude.{◌≤◌, List};
    ghost use Rattle.graph_nodes.specs.Nodes.{CacheNode};
    ghost use Rattle.graph_nodes.specs.Held.{AreHeld, nodes_of};
    ghost use Rattle.graph_nodes.specs.Shown.{AreEarlier, shown};

    ghost Value = { List (CacheNode I R) };

    ghost view = { λ l. nodes_of l.first_goal (shown I.eq l.forgotten.entries l.held.items) l.next };

    ghost invariant = { λ l. AreHeld l.first_goal l.held.items l.next
        × AreEarlier I.eq l.forgotten.entries l.first_kept × l.first_kept ≤ l.next };
}

impl<I: Copy + Eq + Hash, R: Drop> NodeList<I, R> {
    ghost use Rattle.graph_nodes.specs.Bytes.{node_bytes};

    /// No nodes. It takes no memory yet.
    pub fn new(alloc: Global) -> Self
        ensures { result ≡ [] }
    {
        NodeList {
            held: Vec::new(alloc),
            next: 0,
            first_goal: None,
            forgotten: HashMap::new(alloc),
            first_kept: 0,
            looked_from: 0,
        }
    }

    /// What the list takes its memory from.
    pub fn allocator(&self) -> Global {
        *self.held.allocator()
    }

    /// The number that the next node gets.
    pub fn next_number(&self) -> usize
        ensures { result ≡ length self.now }
    {
        self.next
    }

    /// How many nodes are held. Where there is still memory of goals that were forgotten, the time is linear in the nodes.
    pub fn held_count(&self) -> usize
        ensures { result ≡ count_by is_held self.now }
    {
        if self.forgotten.is_empty() {
            return self.held.len();
        }
        shown_count(&self.held, &self.forgotten)
    }

    /// Of how many nodes there is memory: of those that are held, and of some that were forgotten.
    pub fn count_in_memory(&self) -> usize
        ensures { count_by is_held self.now ≤ result }
    {
        self.held.len()
    }

    /// How many bytes of the heap the list holds: its room, and the replies and the edges of the nodes, also of those that were
    /// forgotten and not let go yet. The time is linear in all these.
    pub fn held_bytes(&self) -> usize
        ensures { CoversBytes (count_by is_held self.now * node_bytes I.row R.row) result }
    {
        list_bytes(&self.held)
            .saturating_add(run_bytes(self.held.as_slice()))
            .saturating_add(map_bytes(&self.forgotten))
    }

    /// Appends an open node of the goal and answers its number.
    pub fn push(&mut self, input: I) -> Result<usize, NoMemory>
        ensures number { IfOk result (λ number. number ≡ length self.old) }
        ensures pushed { IfOk result (λ _. self.new ≡ self.old ++ new_node input ∷ []) }
        ensures refused { OnErr result (self.new ≡ self.old) }
    {
        let number = self.next;
        let Some(next) = number.checked_add(1) else {
            return Err(NoMemory);
        };
        self.held.push(Held {
            number,
            slot: Slot::Open(input),
        })?;
        self.next = next;
        self.first_goal = self.first_goal.or(Some(input));
        Ok(number)
    }

    /// Lets go of all nodes, and counts from 0 again. The memory stays for those that come, but for a list that is far
    /// longer than what was in it.
    pub fn clear(&mut self)
        ensures { self.new ≡ [] }
    {
        if is_far_more(self.held.capacity(), self.held.len()) {
            self.held = Vec::new(*self.held.allocator());
        }
        self.held.clear();
        self.next = 0;
        self.first_goal = None;
        self.forgotten = HashMap::new(*self.held.allocator());
        self.first_kept = 0;
        self.looked_from = 0;
    }

    // The node, if it is held.
    fn get(&self, number: usize) -> Option<&Slot<I, R>>
        ensures { MatchOption result (IsGone (slice_get self.now number))
            (λ slot. slice_get self.now number ≡ Some (node_of slot.now)) }
    {
        let Some(place) = place_of(&self.held, number) else {
            return None;
        };
        let entry = &self.held[place];
        if number < self.first_kept && is_forgotten(entry, &self.forgotten) {
            return None;
        }
        Some(&entry.slot)
    }

    /// Whether the node is held and its run has not ended.
    pub fn is_open(&self, number: usize) -> bool
        ensures { result ≡ is_some (open_goal self.now number) }
    {
        matches!(self.get(number), Some(Slot::Open(_)))
    }

    /// The node, if it is held and its run has ended.
    pub fn finished(&self, number: usize) -> Option<&Node<I, R>>
        ensures { option_map (λ n. ended_node n.now) result ≡ finished_node self.now number }
    {
        match self.get(number) {
            Some(Slot::Finished(node)) => Some(node),
            _ => None,
        }
    }

    /// Ends the run of an open node. It takes no memory.
    pub fn finish(&mut self, number: usize, replies: Vec<Reply<R>>, edges: Vec<Edge<I>>, outcome: R)
        requires is_open { IsSome (open_goal self.old number) }
        ensures { self.new ≡ with_run self.old number
            (ended_run replies.items edges.items outcome) }
    {
        let place = place_of(&self.held, number).unwrap();
        let input = self.held[place].slot.input();
        let slot = Slot::Finished(Node {
            input,
            replies,
            edges,
            result: outcome,
        });
        self.held[place] = Held { number, slot };
    }

    /// Lets go of the nodes from the number `first` on that are not reached from a root, or from the last one, if there is
    /// one. `NoMemory` where there was none to find out which these are, which leaves the list as it was.
    pub fn collect(
        &mut self,
        first: usize,
        roots: &[NodeId],
        last: Option<NodeId>,
    ) -> Result<(), NoMemory>
        requires { StayBefore first self.old }
        ensures collected { OnOk result ((live : ℕ → Bool) ×
            AreLive self.old first (with_root last roots.now) live
            × Collected live self.old self.new) }
        ensures earlier { (at : ℕ) → at < first →
            slice_get self.new at ≡ slice_get self.old at }
        ensures as_many { length self.new ≡ length self.old }
        ensures refused { OnErr result (self.new ≡ self.old) }
    {
        let_go_from(&mut self.held, &mut self.forgotten, self.first_kept, first);
        let alloc = *self.held.allocator();
        let split = place_from(&self.held, first);
        let marked = marked_from(alloc, &self.held[split..], roots, last)?;
        keep_from(&mut self.held, split, marked.as_slice());
        Ok(())
    }
}

impl<I: Copy + Eq + Hash, R: Drop> NodeList<I, R> {
    /// Lets go of each node whose goal is gone, whether its run has ended or not. It needs no memory, and the list keeps its own
    /// for the nodes that come.
    ///
    /// Most of the time it is only noted which goals are gone, and what is held for their nodes is let go later, at once with what
    /// comes to be gone until then. Where there is no memory for the notes it is let go now. So over many calls the time is
    /// linear in the goals that are gone and the nodes that are pushed, and where each goal has one node, no more than a
    /// sixteenth of those in memory are gone.
    pub fn forget(&mut self, gone: &HashSet<I>)
        ensures { KeepsOtherNodes (is_among I.eq gone.now.keys) self.old self.new }
    {
        if gone.is_empty() {
            return;
        }
        if self.is_worth_letting_go(gone.len()) {
            self.let_go(gone);
            return;
        }
        self.first_kept = self.next;
        if let Err(NoMemory) = note_forgotten(&mut self.forgotten, gone, self.next) {
            self.let_go(gone);
        }
    }

    // Whether so much may be gone, with so many goals more, that it is worth to look at all that is held.
    fn is_worth_letting_go(&self, gone: usize) -> bool {
        let pushed = self.next.saturating_sub(self.looked_from);
        let changed = self
            .forgotten
            .len()
            .saturating_add(gone)
            .saturating_add(pushed);
        let held = self.held.len();
        held < FEW || held / PART <= changed
    }

    // Lets go of the nodes of these goals and of all that were forgotten.
    fn let_go(&mut self, gone: &HashSet<I>)
        ensures { KeepsOtherNodes (is_among I.eq gone.now.keys) self.old self.new }
    {
        let forgotten = &self.forgotten;
        self.held.retain(|entry| !is_gone(entry, gone) && !is_forgotten(entry, forgotten));
        self.forgotten = HashMap::new(*self.held.allocator());
        self.first_kept = 0;
        self.looked_from = self.next;
    }
}

// Whether the node's goal is gone.
fn is_gone<I: Copy + Eq + Hash, R: Drop>(entry: &Held<I, R>, gone: &HashSet<I>) -> bool
    ensures { result ≡ is_among I.eq gone.now.keys (node_of entry.now.slot).goal }
{
    gone.contains(&entry.slot.input())
}

/// How many bytes of the heap the replies and the edges of these nodes hold.
fn run_bytes<I, R>(held: &[Held<I, R>]) -> usize {
    let mut bytes = 0_usize;
    for node in held {
        bytes = bytes.saturating_add(node.slot.run_bytes());
    }
    bytes
}
