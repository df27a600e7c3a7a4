//! The evaluation of a goal: one loop over the goals under evaluation.
ghost use Rattle.std.specs.Prelude.{◌≡◌, [], is_some, IfOk, None, OnOk, Some};
ghost use Rattle.path_kinds.specs.declared.path.PathKind.TheVariants.{Inductive};
ghost use Rattle.search_context.specs.Delegate.{SeesOn};
ghost use Rattle.goal_changes.specs.Frames.{frames_of};
ghost use Rattle.between_moves.specs.Scopes.{HoldScopes};
ghost use Rattle.search_rules.specs.Fates.{is_compared};
ghost use Rattle.search_graph.specs.Below.{IsFated, KeepsBuilder, HasReply, HaveExpected, fates_of};
ghost use Rattle.search_graph.specs.Called.{Evaluated};
ghost use Rattle.search_graph.specs.Ran.{Advanced, Ran, Turned, ended};
ghost use Rattle.search_graph.specs.Turns.{HasDrafts, IsAtOutset};

use crate::law::{is_sound, keeps_laws};
use global_cache::GlobalCache;
use goal_changes::Next;
use open_goals::goals::step;
use path_kinds::path::PathKind;
use run_records::runs::{Fate, Received};
use search_context::context::{Answer, Cx, Delegate, Fault, Reply, Request};
use search_ends::run_end::finish_run;
use search_questions::collecting::{collect_at_end, collect_drafts, give_up};
use search_questions::question::{ask, push_goal};
use search_rules::look_up::{Consulted, consult};
use search_state::evaluation::Evaluation;

/// The kind of the step that asks the first goal of a call: no path leads over it, so it is as good as any other.
const FIRST_STEP: PathKind = PathKind::Inductive;

/// The answer to the goal: a stored result, if the builder lets one be used and it is not to be validated, or else
/// what the goal is worked out to.
pub(crate) fn evaluate<D: Delegate>(
    evaluation: &mut Evaluation<D>,
    cache: &mut GlobalCache<D>,
    input: <D::Cx as Cx>::Input,
    inspect: &mut D::ProofTreeBuilder,
) -> Result<Answer<<D::Cx as Cx>::Result>, Fault<<D::Cx as Cx>::Input, <D::Cx as Cx>::Result>>
    requires outset { IsAtOutset cache.old evaluation.old }
    ensures evaluated { Evaluated D.Delegate D.Cx.Cx D.Cx.Input.eq D.Cx.Result.eq
        (D.noop inspect.old) (D.noop inspect.old) Inductive input cache.old evaluation.old
        (D.starts inspect.old) result cache.new evaluation.new (D.starts inspect.new) }
    ensures released { IfOk result (λ answer. evaluation.new.scopes ≡ []) }
    ensures builder { KeepsBuilder D.starts D.noop inspect.old inspect.new }
{
    let stack = evaluation.goals.stack();
    let depth = evaluation.root_depth;
    let Consulted {
        stored,
        fate,
        scope,
    } = consult::<D>(
        cache,
        &evaluation.provisional,
        stack,
        FIRST_STEP,
        input,
        depth,
        inspect,
    );
    if let Some(stored) = stored {
        return Ok(Answer {
            result: stored.result,
            node: stored.node,
        });
    }
    work_out::<D>(evaluation, cache, input, fate, scope, inspect)
}

/// Works the goal out, with the goals that it asks, to its answer. Its result meets this fate, and the scope is held until
/// it is popped.
pub(crate) fn work_out<D: Delegate>(
    evaluation: &mut Evaluation<D>,
    cache: &mut GlobalCache<D>,
    input: <D::Cx as Cx>::Input,
    fate: Fate<<D::Cx as Cx>::Result>,
    scope: Option<D::ValidationScope>,
    inspect: &mut D::ProofTreeBuilder,
) -> Result<Answer<<D::Cx as Cx>::Result>, Fault<<D::Cx as Cx>::Input, <D::Cx as Cx>::Result>>
    requires outset { IsAtOutset cache.old evaluation.old }
    requires fated { IsFated (D.scoped cache.old.cx) (D.script cache.old.cx) D.Cx.Input.eq
        cache.old.results (D.noop inspect.old)
        (record { goal = input; depth = evaluation.old.root_depth.0; fate = fate }) }
    requires in_scope { is_some scope ≡ is_compared fate }
    ensures ran { Ran D.Delegate D.Cx.Cx D.Cx.Input.eq D.Cx.Result.eq (D.noop inspect.old)
        Inductive input fate cache.old evaluation.old (D.starts inspect.old) (ended result)
        cache.new evaluation.new (D.starts inspect.new) }
    ensures released { IfOk result (λ answer. evaluation.new.scopes ≡ []) }
    ensures builder { KeepsBuilder D.starts D.noop inspect.old inspect.new }
    ensures seen { D.sees inspect.old input None → OnOk result (D.sees inspect.new input (Some [])) }
{
    let depth = evaluation.root_depth;
    keeps_laws::<D>();
    is_sound(cache);
    // The scope is held first: where that is refused, no node was opened that would have to go again.
    evaluation.scopes.hold(scope)?;
    push_goal(evaluation, cache, FIRST_STEP, input, depth, fate, inspect)?;
    let mut received = Received::without_node(Reply::Begin);
    loop {
        match take_turn::<D>(evaluation, cache, received, inspect)? {
            Next::Step(next) => received = next,
            Next::Finished(answer) => return Ok(answer),
        }
    }
}

/// One turn of the loop: a move, after which nodes are let go to which nothing leads any more. After a fault these are all
/// that no goal leads to of which a result is stored. This is the only place where nodes are let go; a move only adds nodes.
fn take_turn<D: Delegate>(
    evaluation: &mut Evaluation<D>,
    cache: &mut GlobalCache<D>,
    received: Received<<D::Cx as Cx>::Result>,
    inspect: &mut D::ProofTreeBuilder,
) -> Result<Next<<D::Cx as Cx>::Result>, Fault<<D::Cx as Cx>::Input, <D::Cx as Cx>::Result>>
    requires reply { HasReply D.Delegate D.Cx.Cx D.Cx.Input.eq cache.old.cx received
        cache.old evaluation.old (D.starts inspect.old) }
    requires expected { HaveExpected (D.scoped cache.old.cx) (D.script cache.old.cx)
        D.Cx.Input.eq cache.old.results (fates_of evaluation.old.goals) }
    requires held { HoldScopes (fates_of evaluation.old.goals) evaluation.old.scopes }
    requires drafts { HasDrafts D.Cx.Input.eq cache.old evaluation.old }
    ensures turned { Turned D.Delegate D.Cx.Cx D.Cx.Input.eq D.Cx.Result.eq (D.noop inspect.old)
        received cache.old evaluation.old (D.starts inspect.old) result
        cache.new evaluation.new (D.starts inspect.new) }
    ensures builder { KeepsBuilder D.starts D.noop inspect.old inspect.new }
    ensures seen { IfOk result (λ next. SeesOn D.sees inspect.old inspect.new
        (frames_of evaluation.old.goals) (frames_of evaluation.new.goals)) }
{
    match advance::<D>(evaluation, cache, received, inspect) {
        Ok(Next::Step(given)) => {
            collect_drafts(evaluation, cache, given.node);
            Ok(Next::Step(given))
        }
        Ok(Next::Finished(answer)) => {
            collect_at_end(evaluation, cache, answer.node)?;
            Ok(Next::Finished(answer))
        }
        Err(fault) => {
            give_up(evaluation, cache)?;
            Err(fault)
        }
    }
}

/// Gives the newest frame its reply, and does what it requests.
fn advance<D: Delegate>(
    evaluation: &mut Evaluation<D>,
    cache: &mut GlobalCache<D>,
    received: Received<<D::Cx as Cx>::Result>,
    inspect: &mut D::ProofTreeBuilder,
) -> Result<Next<<D::Cx as Cx>::Result>, Fault<<D::Cx as Cx>::Input, <D::Cx as Cx>::Result>>
    requires reply { HasReply D.Delegate D.Cx.Cx D.Cx.Input.eq cache.old.cx received
        cache.old evaluation.old (D.starts inspect.old) }
    requires expected { HaveExpected (D.scoped cache.old.cx) (D.script cache.old.cx)
        D.Cx.Input.eq cache.old.results (fates_of evaluation.old.goals) }
    requires held { HoldScopes (fates_of evaluation.old.goals) evaluation.old.scopes }
    ensures advanced { Advanced D.Delegate D.Cx.Cx D.Cx.Input.eq D.Cx.Result.eq
        (D.noop inspect.old) received cache.old evaluation.old (D.starts inspect.old) result
        cache.new evaluation.new (D.starts inspect.new) }
    ensures builder { KeepsBuilder D.starts D.noop inspect.old inspect.new }
    ensures seen { IfOk result (λ next. SeesOn D.sees inspect.old inspect.new
        (frames_of evaluation.old.goals) (frames_of evaluation.new.goals)) }
{
    let cx = cache.cx();
    cache.has_runs();
    let request = step::<D>(
        &mut evaluation.goals,
        cx,
        received,
        &mut evaluation.spare,
        inspect,
    )?;
    match request {
        Request::Evaluate(kind, input) => {
            let next = ask(evaluation, cache, kind, input, inspect)?;
            Ok(Next::Step(next))
        }
        Request::Done(outcome) => finish_run(evaluation, cache, outcome, inspect),
        request => {
            evaluation
                .goals
                .note_candidate(request, &mut evaluation.spare)?;
            Ok(Next::Step(Received::without_node(Reply::Noted)))
        }
    }
}
