//! What becomes of entries when a goal that they rest on is done.
ghost use Rattle.std.specs.Prelude.{◌≡◌, ◌≢◌, ◌≤◌, ◌<◌, [], ℕ, if◌then◌else◌, cond, length, All, IfSome, is_some, None, OnErr, OnOk, Some};
ghost use Rattle.std.specs.List.{filter_map};
ghost use Rattle.std.specs.Map.{lookup};
ghost use Rattle.std.specs.Option.{option_map};
ghost use Rattle.provisional_cache.specs.Below.{has_usages, highest};
ghost use Rattle.provisional_cache.specs.Words.{entries_at, lists_of, but_highest, from_new_head, left_of, rebased, rebased_unused, rebased_used, changed_for, with_unused, with_used, CanBeRebased, IsLeft, changed_by};

use crate::changed_lists::{ListRule, change_lists};
use crate::concerned::concerns_list;
use crate::kinds::keeps_kinds;
use crate::{ProvisionalCacheEntry, RebaseReason};
use cycle_heads::heads::{CycleHead, CycleHeads};
use cycle_heads::usages::HeadUsages;
use path_kinds::path::{PathKind, PathsToNested};
use search_context::context::{Cx, Delegate, NoMemory};
use search_stack::stack::{Stack, StackEntry};
use std::alloc::Global;
use std::collections::HashMap;

/// What becomes of an entry that used the goal that is done.
#[derive(Drop)]
pub(super) enum EntryChange<X: Cx> {
    /// The entry is dropped.
    Dropped,
    /// The result becomes this one, without a node.
    Replaced(X::Result),
    /// It stays as it is.
    Unchanged,
    /// It stays as it is where the goal was used by cycles of this kind alone, and else is dropped.
    UnchangedIfSingle(PathKind),
}

impl<X: Cx> EntryChange<X> {
    // Changes the entry, which used the goal that is done so often. Answers whether it is left.
    fn change_entry(&self, usages: HeadUsages, entry: &mut ProvisionalCacheEntry<X>) -> bool
        ensures changed { cond result (Some entry.new) None ≡ changed_by self.now usages entry.old }
        ensures heads { entry.new.heads ≡ entry.old.heads }
    {
        match self {
            EntryChange::Dropped => false,
            EntryChange::Replaced(result) => {
                entry.result = *result;
                entry.node = None;
                true
            }
            EntryChange::Unchanged => true,
            EntryChange::UnchangedIfSingle(kind) => usages.is_single(*kind),
        }
    }
}

// What becomes of the entries that used this goal, which is done for the reason.
pub(super) fn change_for<D: Delegate>(
    cx: D::Cx,
    input: <D::Cx as Cx>::Input,
    reason: &RebaseReason<D::Cx>,
) -> EntryChange<D::Cx>
    ensures { changed_by result
        ≡ changed_for (D.propagated cx input) (D.fixpoint_overflow cx input) reason.now }
{
    match reason {
        RebaseReason::NoCycleUsages => EntryChange::Dropped,
        RebaseReason::Ambiguity(info) => {
            EntryChange::Replaced(D::propagate_ambiguity(cx, input, *info))
        }
        RebaseReason::Overflow => EntryChange::Replaced(D::fixpoint_overflow_result(cx, input)),
        RebaseReason::ReachedFixpoint(None) => EntryChange::Unchanged,
        RebaseReason::ReachedFixpoint(Some(kind)) => EntryChange::UnchangedIfSingle(*kind),
    }
}

// A goal that is done, and by what entries that rest on it are rebased.
#[derive(Drop)]
struct Rebasing<'a, D: Delegate> {
    alloc: Global,
    cx: D::Cx,
    done: &'a StackEntry<D::Cx>,
    stack: &'a Stack<D::Cx>,
    reason: &'a RebaseReason<D::Cx>,
}

impl<'a, D: Delegate> ListRule<<D::Cx as Cx>::Input, ProvisionalCacheEntry<D::Cx>>
    for Rebasing<'a, D> {
    ghost accepts = { λ r entries. All (CanBeRebased (length r.stack.now)) entries
        × All (λ head. head.0.0 < length r.stack.now) r.done.now.state.heads };

    ghost becomes = { λ r input. rebased r.stack.now r.done.now
        (changed_for (D.propagated r.cx input) (D.fixpoint_overflow r.cx input) r.reason.now) };

    fn change_list(
        &self,
        input: <D::Cx as Cx>::Input,
        entries: &mut Vec<ProvisionalCacheEntry<D::Cx>>,
    ) -> bool {
        if !concerns_list(entries.as_slice(), self.stack.next_index()) {
            return true;
        }
        let entry_change = change_for::<D>(self.cx, input, self.reason);
        rebase_list(self.alloc, entries, self.done, self.stack, &entry_change)
    }
}

// Rebases the entries where they stand, goal by goal. On a refusal no list is left.
pub(super) fn rebase_lists<D: Delegate>(
    alloc: Global,
    cx: D::Cx,
    lists: &mut HashMap<<D::Cx as Cx>::Input, Vec<ProvisionalCacheEntry<D::Cx>>>,
    done: &StackEntry<D::Cx>,
    stack: &Stack<D::Cx>,
    reason: &RebaseReason<D::Cx>,
) -> Result<(), NoMemory>
    requires can { All (λ e. All (CanBeRebased (length stack.now)) e.1.items) lists.old.entries }
    requires on_stack { All (λ head. head.0.0 < length stack.now) done.now.state.heads }
    ensures rebased { OnOk result ((input : D.Cx.Input)
        → entries_at D.Cx.Input.eq (lists_of lists.new.entries) input
        ≡ filter_map
        (rebased stack.now done.now
        (changed_for (D.propagated cx input) (D.fixpoint_overflow cx input) reason.now))
        (entries_at D.Cx.Input.eq (lists_of lists.old.entries) input)) }
    ensures left { OnOk result ((input : D.Cx.Input)
        → IfSome (lookup (D.Cx.Input.eq input) (lists_of lists.new.entries)) (λ entries. entries ≢ [])) }
    ensures err { OnErr result (lists_of lists.new.entries ≡ []) }
{
    let rule = Rebasing::<D> {
        alloc,
        cx,
        done,
        stack,
        reason,
    };
    change_lists(lists, &rule)
}

// Rebases the entries of one goal. Those that are left stay in order. Answers whether the list stays: where an entry is
// left, and, without entries, where memory was refused.
fn rebase_list<X: Cx>(
    alloc: Global,
    entries: &mut Vec<ProvisionalCacheEntry<X>>,
    done: &StackEntry<X>,
    stack: &Stack<X>,
    entry_change: &EntryChange<X>,
) -> bool
    requires can { All (CanBeRebased (length stack.now)) entries.old.items }
    requires on_stack { All (λ head. head.0.0 < length stack.now) done.now.state.heads }
    ensures { IsLeft result entries.new.items
        (filter_map (rebased stack.now done.now (changed_by entry_change.now)) entries.old.items) }
{
    let Ok(()) = rebase_each(alloc, entries.as_mut_slice(), done, stack, entry_change) else {
        entries.clear();
        return true;
    };
    entries.retain(|entry| is_left(entry));
    !entries.is_empty()
}

// Whether the entry is left: it has heads.
fn is_left<X: Cx>(entry: &ProvisionalCacheEntry<X>) -> bool
    ensures { result ≡ is_some (left_of entry.now) }
{
    !entry.heads.is_empty()
}

// Rebases each of the entries. One that isn't left has no heads afterwards.
fn rebase_each<X: Cx>(
    alloc: Global,
    entries: &mut [ProvisionalCacheEntry<X>],
    done: &StackEntry<X>,
    stack: &Stack<X>,
    entry_change: &EntryChange<X>,
) -> Result<(), NoMemory>
    requires can { All (CanBeRebased (length stack.now)) entries.old }
    requires on_stack { All (λ head. head.0.0 < length stack.now) done.now.state.heads }
    ensures { OnOk result (filter_map left_of entries.new
        ≡ filter_map (rebased stack.now done.now (changed_by entry_change.now)) entries.old) }
{
    for entry in entries.iter_mut() {
        let Ok(()) = rebase_entry(alloc, entry, done, stack, entry_change) else {
            return Err(NoMemory);
        };
    }
    Ok(())
}

// Makes of the entry what is left of it after the pop. One that isn't left has no heads afterwards.
fn rebase_entry<X: Cx>(
    alloc: Global,
    entry: &mut ProvisionalCacheEntry<X>,
    done: &StackEntry<X>,
    stack: &Stack<X>,
    entry_change: &EntryChange<X>,
) -> Result<(), NoMemory>
    requires can { CanBeRebased (length stack.now) entry.old }
    requires on_stack { All (λ head. head.0.0 < length stack.now) done.now.state.heads }
    ensures { OnOk result
        (left_of entry.new ≡ rebased stack.now done.now (changed_by entry_change.now) entry.old) }
{
    let (depth, head) = entry.heads.highest_cycle_head();
    if depth != stack.next_index() {
        return Ok(());
    }
    let Ok(()) = replace_head(alloc, entry, head, done, stack, entry_change) else {
        return Err(NoMemory);
    };
    lead_from_new_head(entry, done, stack);
    Ok(())
}

// Puts the heads of the goal that is done in the place of that goal, which is the entry's highest head and is given.
// An entry that isn't left has no heads afterwards.
//
// If the entry didn't use that head, its result is the same whatever that goal came to. Still that goal's heads are
// recorded, without usages: a goal that uses the entry must not be stored while they are under evaluation.
//
// If it did, it is as if the goal that is done were worked out anew below the entry. So each cycle that goes from one
// of its heads through it and back has to be of the same kind when it goes through the entry, too; and the heads get the
// paths from the entry through it, so that the next pop compares these as well.
fn replace_head<X: Cx>(
    alloc: Global,
    entry: &mut ProvisionalCacheEntry<X>,
    head: CycleHead,
    done: &StackEntry<X>,
    stack: &Stack<X>,
    entry_change: &EntryChange<X>,
) -> Result<(), NoMemory>
    requires can { CanBeRebased (length stack.now) entry.old }
    requires on_stack { All (λ head. head.0.0 < length stack.now) done.now.state.heads }
    ensures becomes { OnOk result (from_new_head stack.now done.now entry.new
        ≡ (if has_usages head.usages
        then rebased_used stack.now done.now (changed_by entry_change.now) entry.old head
        else rebased_unused stack.now done.now entry.old)) }
    ensures within { OnOk result
        (IfSome (highest entry.new.heads) (λ head. head.0.0 < length stack.now)) }
{
    if head.usages.is_empty() {
        return replace_unused(&mut entry.heads, &done.state.heads);
    }
    if keeps_kinds(entry.path_from_head, head.paths_to_head, done, stack)
        && entry_change.change_entry(head.usages, entry)
    {
        return replace_used(&mut entry.heads, head.paths_to_head, &done.state.heads);
    }
    give_up(&mut entry.heads, alloc);
    Ok(())
}

// Takes all heads away.
fn give_up(heads: &mut CycleHeads, alloc: Global)
    ensures { heads.new ≡ [] }
{
    *heads = CycleHeads::new(alloc);
}

// Records the heads of the goal that is done in place of the highest one, over the path of no step and without usages.
fn replace_unused(heads: &mut CycleHeads, done: &CycleHeads) -> Result<(), NoMemory>
    requires some { heads.old ≢ [] }
    ensures recorded { OnOk result (heads.new ≡ with_unused done.now (but_highest heads.old)) }
    ensures within { (size : ℕ) → All (λ head. head.0.0 ≤ size) heads.old
        → All (λ head. head.0.0 < size) done.now
        → OnOk result (IfSome (highest heads.new) (λ head. head.0.0 < size)) }
{
    let _ = heads.remove_highest_cycle_head();
    let mut guess = 0;
    for (depth, _) in done.as_slice() {
        guess = heads.insert_near(guess, *depth, PathsToNested::EMPTY, HeadUsages::default())?;
    }
    Ok(())
}

// Records the heads of the goal that is done in place of the highest one, with its usages, over the paths to that goal
// and on.
fn replace_used(
    heads: &mut CycleHeads,
    to_done: PathsToNested,
    done: &CycleHeads,
) -> Result<(), NoMemory>
    requires some { heads.old ≢ [] }
    ensures recorded { OnOk result
        (heads.new ≡ with_used done.now to_done (but_highest heads.old)) }
    ensures within { (size : ℕ) → All (λ head. head.0.0 ≤ size) heads.old
        → All (λ head. head.0.0 < size) done.now
        → OnOk result (IfSome (highest heads.new) (λ head. head.0.0 < size)) }
{
    let _ = heads.remove_highest_cycle_head();
    let mut guess = 0;
    for (depth, head) in done.as_slice() {
        let paths = to_done.extend_with_paths(head.paths_to_head);
        guess = heads.insert_near(guess, *depth, paths, head.usages)?;
    }
    Ok(())
}

// Makes the path of the entry that from its new highest head, if it has one.
fn lead_from_new_head<X: Cx>(
    entry: &mut ProvisionalCacheEntry<X>,
    done: &StackEntry<X>,
    stack: &Stack<X>,
)
    requires there { IfSome (highest entry.old.heads) (λ head. head.0.0 < length stack.now) }
    ensures { left_of entry.new ≡ from_new_head stack.now done.now entry.old }
{
    let Some(head) = entry.heads.opt_highest_cycle_head_index() else {
        return;
    };
    let from_head = stack.path_kind(done.step_kind_from_parent(), head);
    entry.path_from_head = entry.path_from_head.extend(from_head);
}
