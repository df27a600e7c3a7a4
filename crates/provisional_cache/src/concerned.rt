//! Which entries a goal that is done concerns: those whose highest head it is.
ghost use Rattle.std.specs.Prelude.{◌≡◌, nat_eq, All, Some};
ghost use Rattle.std.specs.List.{list_any};
ghost use Rattle.std.specs.Map.{lookup};
ghost use Rattle.provisional_cache.specs.Words.{lists_of, highest_passes};

use crate::ProvisionalCacheEntry;
use cycle_heads::depth::StackDepth;
use search_context::context::Cx;
use std::collections::HashMap;
use std::hash::Hash;

// Whether an entry of a list is concerned by the goal at the depth. Each list is found at its goal.
pub(super) fn concerns_lists<I: Eq + Hash + Copy, X: Cx>(
    lists: &HashMap<I, Vec<ProvisionalCacheEntry<X>>>,
    depth: StackDepth,
) -> bool
    ensures concerned { result ≡ list_any
        (λ list. list_any (λ entry. highest_passes (λ at _. nat_eq at depth.0) entry.heads) list.1)
        (lists_of lists.now.entries) }
    ensures found { All (λ e. lookup (I.eq e.0) lists.now.entries ≡ Some e.1) lists.now.entries }
{
    for (_, entries) in lists.iter() {
        if concerns_list(entries.as_slice(), depth) {
            return true;
        }
    }
    false
}

// Whether an entry is concerned by the goal at the depth.
pub(super) fn concerns_list<X: Cx>(entries: &[ProvisionalCacheEntry<X>], depth: StackDepth) -> bool
    ensures { result ≡ list_any (λ entry.
        highest_passes (λ at _. nat_eq at depth.0) entry.heads) entries.now }
{
    for entry in entries {
        if concerns_entry(entry, depth) {
            return true;
        }
    }
    false
}

// Whether the highest head of the entry is at the depth.
fn concerns_entry<X: Cx>(entry: &ProvisionalCacheEntry<X>, depth: StackDepth) -> bool
    ensures { result ≡ highest_passes (λ at _. nat_eq at depth.0) entry.now.heads }
{
    match entry.heads.opt_highest_cycle_head_index() {
        Some(highest) => highest == depth,
        None => false,
    }
}
