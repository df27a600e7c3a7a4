//! What becomes of a goal whose run has ended.
ghost use Rattle.std.specs.Prelude.{◌≡◌, ◌↔◌, ◌<◌, ◌+◌, ◌^◌, IsTrue, IsSome, IfSome, Err, None};
ghost use Rattle.search_rules.specs.declared.end_of_run.Unstable.TheVariants.{Again};
ghost use Rattle.search_rules.specs.EndOfRun.{ReachedFixpoint};
ghost use Rattle.search_rules.specs.Words.{IsReason, IsEndOfRun, IsStable};

use cycle_heads::usages::HeadUsages;
use path_kinds::path::PathKind;
use provisional_cache::RebaseReason;
use search_context::context::{Cx, Delegate};
use search_stack::stack::EntryState;

/// What becomes of a goal whose run has ended with a result that isn't stable.
#[derive(Clone, Copy)]
pub enum Unstable {
    /// The goal had its most runs.
    AtLimit,
    /// It is run again.
    Again,
}

/// What becomes of a goal in this state, of which so many runs ended before the one that came to this result. If
/// the goal is done, the reason says why it does not need another run, where it was used as a head.
pub fn end_of_run<D: Delegate>(
    state: &EntryState<D::Cx>,
    finished_runs: usize,
    outcome: <D::Cx as Cx>::Result,
) -> Result<Option<RebaseReason<D::Cx>>, Unstable>
    ensures is_end { IsEndOfRun D.Cx.Result.eq D.initial_kind D.ambiguity D.FIXPOINT_STEP_LIMIT
        state.now.provisional_result state.now.usages finished_runs outcome result }
    ensures fits { result ≡ Err Again → finished_runs + 1 < 2 ^ 64 }
{
    // A goal to which no cycle led is no head, so no entry rests on it, and a further run would see no other
    // provisional result.
    let Some(usages) = state.usages else {
        return Ok(None);
    };
    let stable = stable_reason::<D>(state.provisional_result, usages, outcome);
    if let Some(reason) = stable {
        return Ok(Some(reason));
    }
    // This run is one of the most runs, so a limit of 0 allows one run, as a limit of 1 does.
    if finished_runs < D::FIXPOINT_STEP_LIMIT.saturating_sub(1) {
        Err(Unstable::Again)
    } else {
        Err(Unstable::AtLimit)
    }
}

/// Why a further run after this result would change nothing or isn't worth it, if either is so.
fn stable_reason<D: Delegate>(
    provisional_result: Option<<D::Cx as Cx>::Result>,
    usages: HeadUsages,
    outcome: <D::Cx as Cx>::Result,
) -> Option<RebaseReason<D::Cx>>
    ensures reason { IfSome result
        (IsReason D.Cx.Result.eq D.initial_kind D.ambiguity provisional_result usages outcome) }
    ensures unstable { result ≡ None →
        IsStable D.Cx.Result.eq D.initial_kind D.ambiguity provisional_result usages outcome → ⊥ }
{
    // The first reason wins, since entries are rebased by it: at a fixpoint those that used the goal are right
    // as they are, and any other reason would drop or change them.
    if reached_fixpoint::<D>(provisional_result, usages, outcome) {
        let kind = initial_kind::<D>(provisional_result, outcome);
        return Some(RebaseReason::ReachedFixpoint(kind));
    }
    if usages.is_empty() {
        return Some(RebaseReason::NoCycleUsages);
    }
    // An ambiguous goal isn't run again: to answer ambiguous is always right, and reruns of ambiguous goals
    // below each other cost more and more.
    match D::is_ambiguous_result(outcome) {
        Some(info) => Some(RebaseReason::Ambiguity(info)),
        None => None,
    }
}

/// The kind of cycles whose initial result the run came to, if it was its goal's first run.
fn initial_kind<D: Delegate>(
    provisional_result: Option<<D::Cx as Cx>::Result>,
    outcome: <D::Cx as Cx>::Result,
) -> Option<PathKind>
    ensures first { provisional_result ≡ None → result ≡ D.initial_kind outcome }
    ensures later { IsSome provisional_result → result ≡ None }
{
    match provisional_result {
        Some(_) => None,
        None => D::is_initial_provisional_result(outcome),
    }
}

/// Whether the run came to the result that these cycles of its own goal were answered with. Ports
/// `SearchGraph::reached_fixpoint`.
fn reached_fixpoint<D: Delegate>(
    provisional_result: Option<<D::Cx as Cx>::Result>,
    usages: HeadUsages,
    outcome: <D::Cx as Cx>::Result,
) -> bool
    ensures { IsTrue result ↔ ReachedFixpoint D.Cx.Result.eq D.initial_kind provisional_result
        usages outcome }
{
    match (
        provisional_result,
        D::is_initial_provisional_result(outcome),
    ) {
        (Some(earlier), _) => earlier == outcome,
        (None, Some(kind)) => usages.is_single(kind),
        (None, None) => false,
    }
}
