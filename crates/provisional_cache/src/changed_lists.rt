//! A map of lists that is changed where it stands.
ghost use Rattle.std.specs.Prelude.{◌≡◌, ◌≢◌, [], List, Option, false, All, IfSome, IsTrue, OnErr, OnOk};
ghost use Rattle.std.specs.List.{filter_map};
ghost use Rattle.std.specs.HashMap.{IsUnique};
ghost use Rattle.std.specs.Map.{lookup};
ghost use Rattle.std.specs.Map.Calls.{CallableOnEachPair, CalledAtPair, RetainsPairs, TakesPair};
ghost use Rattle.provisional_cache.specs.Words.{entries_at, lists_of, IsLeft};

use search_context::context::NoMemory;
use std::collections::HashMap;
use std::hash::Hash;

// What becomes of the elements of lists, by goal.
pub(super) trait ListRule<I, E> {
    // The list may be changed.
    ghost accepts: { Self → List E → Type 0 };

    // What an element of the goal's list becomes.
    ghost becomes: { Self → I → E → Option E };

    // Changes the list of the goal. Answers whether it stays: where an element is left, and, without
    // elements, where memory was refused.
    fn change_list(&self, input: I, items: &mut Vec<E>) -> bool
        requires { accepts self.now items.old.items }
        ensures { IsLeft result items.new.items
            (filter_map (becomes self.now input) items.old.items) };
}

// Changes each list by the rule. On a refusal no list is left.
pub(super) fn change_lists<I: Eq + Hash + Copy, E: Drop, R: ListRule<I, E>>(
    lists: &mut HashMap<I, Vec<E>>,
    rule: &R,
) -> Result<(), NoMemory>
    requires by_value { (x y : I) → IsTrue (I.eq x y) → x ≡ y }
    requires can { All (λ e. R.accepts rule.now e.1.items) lists.old.entries }
    ensures changed { OnOk result ((input : I) → entries_at I.eq (lists_of lists.new.entries) input
        ≡ filter_map (R.becomes rule.now input) (entries_at I.eq (lists_of lists.old.entries) input)) }
    ensures left { OnOk result ((input : I)
        → IfSome (lookup (I.eq input) (lists_of lists.new.entries)) (λ items. items ≢ [])) }
    ensures err { OnErr result (lists_of lists.new.entries ≡ []) }
{
    retain_lists(
        lists,
        |input, items|
            requires there { R.accepts rule.now items.old.items }
        { rule.change_list(*input, items) },
    );
    if has_empty_list(lists) {
        lists.clear();
        return Err(NoMemory);
    }
    Ok(())
}

// `retain`, by a closure that calls leave as it is. What is asked of the closure has a name here.
fn retain_lists<I: Eq + Hash + Copy, V: Drop, F: FnMut(&I, &mut V) -> bool>(
    lists: &mut HashMap<I, V>,
    keep: F,
)
    requires callable { CallableOnEachPair (CalledAtPair F.FnMut) (TakesPair F.FnMut)
        keep lists.old.entries }
    ensures filtered { RetainsPairs (CalledAtPair F.FnMut)
        keep lists.old.entries lists.new.entries }
    ensures was_unique { IsUnique I.eq lists.old }
{
    lists.retain(keep);
}

// Whether a list has no element.
fn has_empty_list<I: Eq + Hash + Copy, E>(lists: &HashMap<I, Vec<E>>) -> bool
    ensures { result ≡ false → All (λ e. e.1.items ≢ []) lists.now.entries }
{
    for (_, items) in lists.iter() {
        if items.is_empty() {
            return true;
        }
    }
    false
}
