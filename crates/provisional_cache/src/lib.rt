//! The provisional cache: answers that rest on goals under evaluation.
//!
//! | File of `specs/` | Has |
//! |---|---|
//! | `Provisional` | the lists of entries, by goal |
//! | `Reuse` | which entries may be used, and which a rerun clears |
//! | `Rebasing`, `EntryChange` | what becomes of an entry when a goal that it rests on is done |
//! | `Nodes` | the nodes to which entries lead |
#![tactic(auto)]

ghost use Rattle.std.specs.Prelude.{◌≡◌, ◌≢◌, ◌↔◌, ◌<◌, ◌≤◌, not, [], length, All, IsTrue, IfSome, OnOk, OnErr};
ghost use Rattle.std.specs.List.{filter, filter_map, find};
ghost use Rattle.std.specs.Option.{option_copied};
ghost use Rattle.provisional_cache.specs.Below.{highest};
ghost use Rattle.provisional_cache.specs.Words.{entries_at, lists_of, AppendsEntry, PutsLast, rebased, changed_for, may_be_used, depends_on};

mod changed_lists;
mod clearing;
mod concerned;
mod kinds;
mod lookup;
mod nodes;
mod rebasing;

use cycle_heads::depth::StackDepth;
use cycle_heads::heads::CycleHeads;
use heap_room::map_bytes;
use path_kinds::path::PathKind;
use search_context::context::{Cx, Delegate, NoMemory, NodeId};
use search_stack::stack::{Stack, StackEntry};
use std::alloc::Global;
use std::collections::HashMap;
use std::hash::Hash;
use std::marker::Model;

/// An answer that rests on goals on the stack. Ports `ProvisionalCacheEntry`.
#[derive(Drop)]
pub struct ProvisionalCacheEntry<X: Cx> {
    /// Whether a question was refused below the answer's goal.
    pub encountered_overflow: bool,
    /// The goals on the stack that the answer rests on: one at least, in a cache.
    pub heads: CycleHeads,
    /// The kind of the path from the highest head to the answer's goal.
    pub path_from_head: PathKind,
    /// The answer.
    pub result: X::Result,
    /// The node of a definite answer.
    pub node: Option<NodeId>,
}

/// Why a goal is done, by which the entries that rest on it are rebased. Ports `RebaseReason`.
#[derive(Drop)]
pub enum RebaseReason<X: Cx> {
    /// No cycle through the goal was used.
    NoCycleUsages,
    /// The goal's result is ambiguous.
    Ambiguity(X::AmbiguityInfo),
    /// The goal had its most runs, and its result isn't stable.
    Overflow,
    /// The goal reached its fixpoint: its first run came to the initial result of cycles of this kind,
    /// or a later run to the provisional result (`None`).
    ReachedFixpoint(Option<PathKind>),
}

/// The answers that rest on goals on the stack, by goal: for each goal a list of entries, the oldest
/// first. Ports the field `provisional_cache` of `SearchGraph`.
#[derive(Drop)]
pub struct ProvisionalCache<D: Delegate> {
    alloc: Global,
    lists: HashMap<<D::Cx as Cx>::Input, Vec<ProvisionalCacheEntry<D::Cx>>>,
}

impl<D: Delegate> Model for ProvisionalCache<D> {
    ghost use Rattle.provisional_cache.specs.Provisional.{lists_of, Lists, AreEntryLists};
    ghost use Rattle.provisional_cache.specs.declared.ProvisionalCacheEntry.{ProvisionalCacheEntry};

    ghost Value = { Lists D.Cx.Input (ProvisionalCacheEntry D.Cx D.Cx.Input D.Cx.Result D.Cx.AmbiguityInfo D.Cx.DepNodeIndex) };

    ghost view = { λ c. lists_of c.lists.entries };

    ghost invariant = { λ c. AreEntryLists D.Cx.Input.eq (lists_of c.lists.entries) };
}

impl<D: Delegate> ProvisionalCache<D> {
    /// A cache without entries. It takes no memory yet.
    pub fn new(alloc: Global) -> ProvisionalCache<D>
        ensures { result ≡ [] }
    {
        ProvisionalCache {
            alloc,
            lists: HashMap::new(alloc),
        }
    }

    /// Whether no goal has an entry.
    pub fn is_empty(&self) -> bool
        ensures lists { IsTrue result ↔ (self.now ≡ []) }
        ensures entries { IsTrue result
            ↔ ((input : D.Cx.Input) → entries_at D.Cx.Input.eq self.now input ≡ []) }
    {
        self.lists.is_empty()
    }

    /// How many bytes of the heap the cache has room in, without what its entries hold.
    pub fn room_bytes(&self) -> usize {
        map_bytes(&self.lists)
    }

    /// The entries of the goal, the oldest first; none where it has none.
    #[inline(always)]
    pub fn entries_of(&self, input: <D::Cx as Cx>::Input) -> &[ProvisionalCacheEntry<D::Cx>]
        ensures entries { result.now ≡ entries_at D.Cx.Input.eq self.now input }
        ensures heads { All (λ entry. entry.heads ≢ []) result.now }
    {
        match self.lists.get(&input) {
            Some(entries) => entries.as_slice(),
            None => &[],
        }
    }

    /// The entry that answers the goal, asked over the step by the last goal on the stack: the first one
    /// whose path kind is that from its highest head through the step. One that met overflow is passed
    /// over unless the asking goal has a head as low. Takes no memory. Ports `lookup_provisional_cache`,
    /// without what it writes to the stack.
    pub fn lookup(
        &self,
        input: <D::Cx as Cx>::Input,
        stack: &Stack<D::Cx>,
        step: PathKind,
    ) -> Option<&ProvisionalCacheEntry<D::Cx>>
        requires { All (λ entry. IfSome (highest entry.heads) (λ head. head.0.0 < length stack.now))
            (entries_at D.Cx.Input.eq self.now input) }
        ensures { option_copied result
            ≡ find (may_be_used stack.now step) (entries_at D.Cx.Input.eq self.now input) }
    {
        lookup::first_usable(self.entries_of(input), stack, step)
    }

    /// Clears the entries that depend on the result of the goal at `index`, which is to be rerun: those
    /// whose highest head is that goal, with usages. The others stay, in order. Takes no memory. Ports
    /// `clear_dependent_provisional_results_for_rerun`.
    pub fn clear_for_rerun(&mut self, index: StackDepth)
        ensures { (input : D.Cx.Input) → entries_at D.Cx.Input.eq self.new input
            ≡ filter (λ entry. not (depends_on index entry)) (entries_at D.Cx.Input.eq self.old input) }
    {
        clearing::remove_users(&mut self.lists, index);
    }

    /// Rebases the entries that rest on the goal `done`, which was popped for this reason:
    /// each becomes what the rule of `specs/Rebasing.antt` gives, or is dropped, and the others stay, in
    /// order. On a refusal the cache is empty afterwards. Ports `rebase_provisional_cache_entries`.
    pub fn rebase(
        &mut self,
        cx: D::Cx,
        done: &StackEntry<D::Cx>,
        stack: &Stack<D::Cx>,
        reason: RebaseReason<D::Cx>,
    ) -> Result<(), NoMemory>
        requires on_stack { All (λ head. head.0.0 < length stack.now) done.now.state.heads }
        requires within { (input : D.Cx.Input)
            → All (λ entry. All (λ head. head.0.0 ≤ length stack.now) entry.heads)
            (entries_at D.Cx.Input.eq self.old input) }
        ensures ok { OnOk result ((input : D.Cx.Input) → entries_at D.Cx.Input.eq self.new input
            ≡ filter_map (rebased stack.now done.now (changed_for (D.propagated cx input) (D.fixpoint_overflow cx input) reason)) (entries_at D.Cx.Input.eq self.old input)) }
        ensures err { OnErr result (self.new ≡ []) }
    {
        if !concerned::concerns_lists(&self.lists, stack.next_index()) {
            return Ok(());
        }
        rebasing::rebase_lists::<D>(self.alloc, cx, &mut self.lists, done, stack, &reason)
    }

    /// Appends an entry, which rests on a head, to the list of the goal. A refusal leaves the cache as
    /// it was.
    pub fn push(
        &mut self,
        input: <D::Cx as Cx>::Input,
        entry: ProvisionalCacheEntry<D::Cx>,
    ) -> Result<(), NoMemory>
        requires { entry.heads ≢ [] }
        ensures ok { OnOk result (AppendsEntry D.Cx.Input.eq self.old self.new input entry) }
        ensures err { OnErr result (self.new ≡ self.old) }
    {
        append(&mut self.lists, self.alloc, input, entry)
    }
}

// Appends an entry to the list of the input.
fn append<I: Eq + Hash + Copy, E: Drop>(
    lists: &mut HashMap<I, Vec<E>>,
    alloc: Global,
    input: I,
    entry: E,
) -> Result<(), NoMemory>
    ensures ok { OnOk result
        (PutsLast I.eq (lists_of lists.old.entries) (lists_of lists.new.entries) input entry) }
    ensures err { OnErr result (lists_of lists.new.entries ≡ lists_of lists.old.entries) }
{
    if let Some(entries) = lists.get_mut(&input) {
        entries.push(entry)?;
        return Ok(());
    }
    let mut entries = Vec::new(alloc);
    entries.push(entry)?;
    lists.insert(input, entries)?;
    Ok(())
}
