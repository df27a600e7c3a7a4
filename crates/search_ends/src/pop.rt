//! A goal is popped, with its result.
ghost use Rattle.std.specs.Prelude.{◌≡◌, ◌<◌, ◌+◌, ◌^◌, ℕ, is_some, length, IfOk, IfErr, OnOk, Some};
ghost use Rattle.std.specs.Option.{option_map};
ghost use Rattle.search_rules.specs.Fates.{is_compared};
ghost use Rattle.between_moves.specs.Scopes.{HoldScopes, HoldsNewest};
ghost use Rattle.search_ends.specs.Below.{fates_of, newest, HaveExpected, Memory, IsNewestPlainTo, MayPutNewest, GivesAnswer, GivesNested, LeavesAnswer, ChangesCache, verdicts};
ghost use Rattle.search_ends.specs.Words.{Fails, MayPop, NewestFailsToStore, Notes, Pops};

use crate::store::store_answer;
use global_cache::GlobalCache;
use goal_changes::Next;
use open_goals::goals::{OpenGoals, Popped};
use path_kinds::path::PathKind;
use provisional_cache::RebaseReason;
use run_records::runs::{Fate, Received, Run};
use search_context::context::{Answer, Cx, Delegate, Fault, NoMemory, Reply};
use search_rules::nodes::result_node;
use search_rules::rebase::rebase_entries;
use search_stack::result::EvaluationResult;
use search_state::evaluation::Evaluation;
use search_state::scopes::HeldScopes;

/// Pops the newest goal with this result, and gives that to the goal below it. Provisional entries that rest
/// on the goal are rebased for the reason, which there is where it was used as a head.
pub(crate) fn pop_goal<D: Delegate>(
    evaluation: &mut Evaluation<D>,
    cache: &mut GlobalCache<D>,
    outcome: <D::Cx as Cx>::Result,
    reason: Option<RebaseReason<D::Cx>>,
) -> Result<Next<<D::Cx as Cx>::Result>, Fault<<D::Cx as Cx>::Input, <D::Cx as Cx>::Result>>
    requires may { MayPop D.Delegate D.Cx.Cx D.Cx.Input.eq outcome reason cache.old evaluation.old }
    requires expected { HaveExpected (D.scoped cache.old.cx) (D.script cache.old.cx)
        D.Cx.Input.eq cache.old.results (fates_of evaluation.old.goals) }
    requires held { HoldScopes (fates_of evaluation.old.goals) evaluation.old.scopes }
    ensures popped { IfOk result (λ next.
        Pops D.Delegate D.Cx.Cx D.Cx.Input.eq outcome reason cache.old evaluation.old next cache.new
        evaluation.new) }
    ensures stored { MayPutNewest D.Cx.Input.eq evaluation.old.goals outcome cache.old.results
        cache.new.results }
    ensures cache { ChangesCache D.Cx.Input.eq evaluation.old.goals cache.old cache.new }
    ensures noted { Notes (verdicts D.Cx.Cx) D.Cx.Input.eq cache.old evaluation.old.drafts result
        cache.new evaluation.new.drafts }
    ensures rest { evaluation.new ≡ record evaluation.old {
      goals = evaluation.new.goals;
      scopes = evaluation.new.scopes;
      provisional = evaluation.new.provisional;
      drafts = evaluation.new.drafts;
    } }
    ensures fails { IfErr result (Fails D.Delegate D.Cx.Cx D.Cx.Input.eq outcome cache.old
        cache.new evaluation.new.drafts) }
    ensures whose { IfErr result (NewestFailsToStore D.Cx.Input.eq cache.old.results
        evaluation.old.goals) }
    ensures plain { (n : ℕ) → IsNewestPlainTo (D.script cache.old.cx) n evaluation.old.goals →
        IfErr result (λ fault. fault ≡ Memory) }
{
    // The scope is bound first, so it is dropped last, when the goal's frame is gone and its result compared.
    let scope = release_scope(&mut evaluation.scopes, &evaluation.goals);
    let Popped { entry, run } = evaluation.goals.pop();
    let Run {
        frame: _,
        node: own_node,
        progress,
        finished_runs: _,
        met_overflow_before,
        candidates,
        fate,
    } = run;
    let step = entry.step_kind_from_parent();
    let mut encountered_overflow = entry.state.encountered_overflow;
    encountered_overflow |= met_overflow_before;
    let input = entry.input();
    let node = result_node::<D>(
        cache,
        input,
        &entry.state,
        own_node,
        &progress,
        outcome,
        &mut evaluation.lean,
    )?;
    evaluation.spare.keep_progress(progress);
    evaluation.spare.keep_candidates(candidates);
    entry.state.heads.are_rising();
    // First the entries are rebased, since the goal's own entry must not be rebased over the goal itself;
    // the answer is moved into the cache last.
    let stack = evaluation.goals.stack();
    rebase_entries::<D>(
        &mut evaluation.provisional,
        cache.cx(),
        &entry,
        stack,
        reason,
    )?;
    let mut answer = EvaluationResult::finalize(entry, encountered_overflow, outcome, node);
    let next = give_answer(&mut evaluation.goals, step, &mut answer)?;
    let held = scope.as_ref();
    store_answer(evaluation, cache, step, input, answer, fate, held)?;
    Ok(next)
}

/// Takes the newest goal's own scope, which it holds if its result is to be compared.
fn release_scope<X: Cx, F: Drop, S: Drop>(
    scopes: &mut HeldScopes<S>,
    goals: &OpenGoals<X, F>,
) -> Option<S>
    requires some { 0 < length goals.now }
    requires held { HoldScopes (fates_of goals.now) scopes.old }
    ensures released { HoldsNewest (fates_of goals.now) scopes.new scopes.old }
    ensures own { option_map (λ s. is_compared s.1.fate) (newest goals.now)
        ≡ Some (is_some result) }
{
    match goals.last_run().fate {
        Fate::Compared(_) => Some(scopes.release()),
        Fate::Stored | Fate::NotStored => None,
    }
}

/// Gives the answer of a goal that was popped to the goal below it, which asked for it by this step. Where
/// none is left, it is the answer to the call.
fn give_answer<X: Cx, F: Drop>(
    goals: &mut OpenGoals<X, F>,
    step: PathKind,
    answer: &mut EvaluationResult<X>,
) -> Result<Next<X::Result>, NoMemory>
    requires fits { 0 < length goals.old → answer.old.required_depth + 1 < 2 ^ 64 }
    ensures given { IfOk result (λ next. GivesAnswer step answer.old goals.old next goals.new) }
    ensures nested { OnOk result (GivesNested X.Input.eq step answer.old.nested_goals goals.old
        goals.new) }
    ensures left { LeavesAnswer answer.old answer.new }
{
    let outcome = answer.result;
    let node = answer.node;
    if goals.len() == 0 {
        return Ok(Next::Finished(Answer {
            result: outcome,
            node,
        }));
    }
    goals.note_answer(step, answer)?;
    Ok(Next::Step(Received {
        reply: Reply::Answer(outcome),
        node,
    }))
}
