//! The newest goal's run ends.
ghost use Rattle.std.specs.Prelude.{IfOk, Some};
ghost use Rattle.search_context.specs.Delegate.{SeesOn, without_newest};
ghost use Rattle.goal_changes.specs.Frames.{frames_of};
ghost use Rattle.search_ends.specs.Below.{Done, fates_of, HaveExpected, KeepsBuilder, HasRequest};
ghost use Rattle.search_ends.specs.Words.{RunEnds};
ghost use Rattle.between_moves.specs.Scopes.{HoldScopes};

use crate::pop::pop_goal;
use crate::rerun::run_again;
use global_cache::GlobalCache;
use goal_changes::Next;
use provisional_cache::RebaseReason;
use run_records::runs::Received;
use search_context::context::{Cx, Delegate, Fault, Reply};
use search_rules::end_of_run::{Unstable, end_of_run};
use search_state::evaluation::Evaluation;

/// Ends the newest goal's run, which came to this result: the goal is run again, or is popped and its
/// result given to the goal below it.
pub fn finish_run<D: Delegate>(
    evaluation: &mut Evaluation<D>,
    cache: &mut GlobalCache<D>,
    outcome: <D::Cx as Cx>::Result,
    inspect: &mut D::ProofTreeBuilder,
) -> Result<Next<<D::Cx as Cx>::Result>, Fault<<D::Cx as Cx>::Input, <D::Cx as Cx>::Result>>
    requires made { HasRequest D.Delegate D.Cx.Cx D.Cx.Input.eq cache.old.cx (Done outcome)
        cache.old evaluation.old (D.starts inspect.old) }
    requires expected { HaveExpected (D.scoped cache.old.cx) (D.script cache.old.cx)
        D.Cx.Input.eq cache.old.results (fates_of evaluation.old.goals) }
    requires held { HoldScopes (fates_of evaluation.old.goals) evaluation.old.scopes }
    ensures ended { RunEnds D.Delegate D.Cx.Cx D.Cx.Input.eq D.Cx.Result.eq outcome
        cache.old evaluation.old (D.starts inspect.old) result
        cache.new evaluation.new (D.starts inspect.new) }
    ensures builder { KeepsBuilder D.starts D.noop inspect.old inspect.new }
    ensures seen { IfOk result (λ next. SeesOn D.sees inspect.old inspect.new
        (without_newest (frames_of evaluation.old.goals)) (frames_of evaluation.new.goals)) }
{
    let finished_runs = evaluation.goals.last_run().finished_runs;
    match end_of_run::<D>(&evaluation.goals.last_entry().state, finished_runs, outcome) {
        Ok(reason) => pop_goal(evaluation, cache, outcome, reason),
        Err(Unstable::AtLimit) => {
            evaluation.limits_met = true;
            let input = evaluation.goals.last_entry().input();
            let overflow = D::fixpoint_overflow_result(cache.cx(), input);
            let reason = Some(RebaseReason::Overflow);
            pop_goal(evaluation, cache, overflow, reason)
        }
        Err(Unstable::Again) => {
            run_again(evaluation, cache, outcome, inspect)?;
            Ok(Next::Step(Received::without_node(Reply::Begin)))
        }
    }
}
