//! Which of a goal's entries may be used when it is asked again.
ghost use Rattle.std.specs.Prelude.{◌≡◌, ◌≢◌, ◌<◌, [], All, IfSome, length};
ghost use Rattle.std.specs.List.{find};
ghost use Rattle.std.specs.Option.{option_copied};
ghost use Rattle.provisional_cache.specs.Below.{highest};
ghost use Rattle.provisional_cache.specs.Words.{has_head_up_to, may_be_used};

use crate::ProvisionalCacheEntry;
use cycle_heads::depth::StackDepth;
use cycle_heads::heads::CycleHeads;
use path_kinds::path::PathKind;
use search_context::context::Cx;
use search_stack::stack::Stack;

// The first entry that may be used for a goal that is asked over the step.
pub(super) fn first_usable<'a, X: Cx>(
    entries: &'a [ProvisionalCacheEntry<X>],
    stack: &Stack<X>,
    step: PathKind,
) -> Option<&'a ProvisionalCacheEntry<X>>
    requires heads { All (λ entry. entry.heads ≢ []) entries.now }
    requires on_stack { All (λ entry.
        IfSome (highest entry.heads) (λ head. head.0.0 < length stack.now)) entries.now }
    ensures { option_copied result ≡ find (may_be_used stack.now step) entries.now }
{
    for entry in entries {
        if may_be_used(entry, stack, step) {
            return Some(entry);
        }
    }
    None
}

// Whether the entry may be used for a goal that is asked over the step.
//
// A stored result names the goals below it that are on the way to a cycle or a refused question, and not the
// others. Were an entry used for one of these, the stored result would be another one there, and nothing would
// show that it must be passed over. An entry that met no overflow closed a cycle at any depth, so its goal is
// named; one that met overflow may have done so for want of depth alone. So that is used only where the asking
// goal has a head as low, and thus is in the same cycle already. This is stricter than it has to be.
fn may_be_used<X: Cx>(entry: &ProvisionalCacheEntry<X>, stack: &Stack<X>, step: PathKind) -> bool
    requires heads { entry.now.heads ≢ [] }
    requires on_stack { IfSome (highest entry.now.heads) (λ head. head.0.0 < length stack.now) }
    ensures { result ≡ may_be_used stack.now step entry.now }
{
    let head = entry.heads.highest_cycle_head_index();
    if entry.encountered_overflow && !has_head_up_to(&stack.last().state.heads, head) {
        return false;
    }
    entry.path_from_head == stack.path_kind(step, head)
}

// Whether there is a head at the depth or below it.
fn has_head_up_to(heads: &CycleHeads, depth: StackDepth) -> bool
    ensures { result ≡ has_head_up_to depth.0 heads.now }
{
    match heads.opt_lowest_cycle_head_index() {
        Some(lowest) => lowest <= depth,
        None => false,
    }
}
