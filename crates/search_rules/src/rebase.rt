//! Provisional entries are rebased when a goal that they rest on is popped.
ghost use Rattle.std.specs.Prelude.{◌≡◌, ◌≤◌, ◌<◌, length, All, OnOk};
ghost use Rattle.search_rules.specs.Below.{entries_at};
ghost use Rattle.search_rules.specs.Words.{rebased_for, LeavesReady};

use provisional_cache::{ProvisionalCache, RebaseReason};
use search_context::context::{Cx, Delegate, NoMemory};
use search_stack::stack::{Stack, StackEntry};

/// Rebases the entries that rest on the goal `done`, which was popped from above the stack: for the reason, if it
/// was used as a head. Else there are none. Where each entry could be used while the goal was on the stack, its
/// answer is right and the reason true, each entry that is left can be used without it.
pub fn rebase_entries<D: Delegate>(
    provisional: &mut ProvisionalCache<D>,
    cx: D::Cx,
    done: &StackEntry<D::Cx>,
    stack: &Stack<D::Cx>,
    reason: Option<RebaseReason<D::Cx>>,
) -> Result<(), NoMemory>
    requires on_stack { All (λ head. head.0.0 < length stack.now) done.now.state.heads }
    requires within { (input : D.Cx.Input) →
        All (λ entry. All (λ head. head.0.0 ≤ length stack.now) entry.heads)
        (entries_at D.Cx.Input.eq provisional.old input) }
    ensures exact { OnOk result
        ((input : D.Cx.Input) → entries_at D.Cx.Input.eq provisional.new input
        ≡ rebased_for (D.propagated cx input)
        (D.fixpoint_overflow cx input) reason stack.now done.now
        (entries_at D.Cx.Input.eq provisional.old input)) }
    ensures ready { OnOk result (LeavesReady D.Delegate D.Cx.Cx D.Cx.Input.eq cx reason done.now
        stack.now provisional.old provisional.new) }
{
    match reason {
        Some(reason) => provisional.rebase(cx, done, stack, reason),
        None => Ok(()),
    }
}
