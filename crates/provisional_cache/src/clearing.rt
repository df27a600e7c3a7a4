//! Which entries are cleared when a goal is rerun.
ghost use Rattle.std.specs.Prelude.{◌≡◌, ◌≢◌, ◌↔◌, [], not, IfSome, IsTrue};
ghost use Rattle.std.specs.Map.{lookup};
ghost use Rattle.std.specs.List.{filter};
ghost use Rattle.provisional_cache.specs.Words.{entries_at, lists_of, is_used_at, depends_on};

use crate::ProvisionalCacheEntry;
use cycle_heads::depth::StackDepth;
use cycle_heads::heads::CycleHeads;
use search_context::context::Cx;
use std::collections::HashMap;
use std::hash::Hash;

// Removes the entries that rest on the result of the goal at the depth, and lists that are left empty.
pub(super) fn remove_users<I: Eq + Hash + Copy, X: Cx>(
    lists: &mut HashMap<I, Vec<ProvisionalCacheEntry<X>>>,
    depth: StackDepth,
)
    ensures others { (input : I) → entries_at I.eq (lists_of lists.new.entries) input
        ≡ filter (λ entry. not (depends_on depth entry)) (entries_at I.eq (lists_of lists.old.entries) input) }
    ensures left { (input : I)
        → IfSome (lookup (I.eq input) (lists_of lists.new.entries)) (λ entries. entries ≢ []) }
{
    lists.retain(
        |_, entries|
            ensures others { entries.new.items
                ≡ filter (λ entry. not (depends_on depth entry)) entries.old.items }
            ensures left { IsTrue result ↔ (entries.new.items ≢ []) }
        { remove_users_of_list(entries, depth) },
    );
}

// Removes the entries that rest on the result of the goal at the depth. Answers whether others are left.
fn remove_users_of_list<X: Cx>(
    entries: &mut Vec<ProvisionalCacheEntry<X>>,
    depth: StackDepth,
) -> bool
    ensures others { entries.new.items
        ≡ filter (λ entry. not (depends_on depth entry)) entries.old.items }
    ensures left { IsTrue result ↔ (entries.new.items ≢ []) }
{
    entries.retain(|entry| !is_used_at(&entry.heads, depth));
    !entries.is_empty()
}

// Whether the highest head is at the depth, and was used.
fn is_used_at(heads: &CycleHeads, depth: StackDepth) -> bool
    ensures { result ≡ is_used_at depth heads.now }
{
    if heads.is_empty() {
        return false;
    }
    let (highest, head) = heads.highest_cycle_head();
    highest == depth && !head.usages.is_empty()
}
