//! What is answered without memory: a question whose result is stored, and the calls on candidates of a graph that has no goals.
//! Where one request may be refused, as `tests/memory` does it, what these calls answer shows that they make none.

use crate::bare_calls::{evaluate, is_idle, new_cache, new_graph};
use crate::failed::{Failed, ensure};
use delegate_parts::{Builder, Outcome};
use rule_tables::delegate::Table;
use rule_tables::{Goal, Rules, TableDelegate};
use search_graph::graph::SearchGraph;
use search_parts::context::{Answer, Cx, Delegate, Fault};
use search_parts::global_cache::{GlobalCache, NestedTest};
use search_parts::parts::{AvailableDepth, CandidateHeadUsages, NestedGoals};
use search_parts::path::PathKind;
use std::alloc::Global;

/// Lets each stored result be used, whatever it rests on.
struct Anything;

impl<X: Cx> NestedTest<X> for Anything {
    ghost use Rattle.std.specs.Prelude.{true};

    ghost accepts = { λ _ _. true };

    fn accepts(&self, _nested_goals: &NestedGoals<X::Input>) -> bool {
        true
    }
}

/// What came of asking a goal on a graph of its own.
#[derive(Clone, Copy)]
struct Asked {
    answer: Result<Answer<Outcome>, Fault<Goal, Outcome>>,
    is_idle: bool,
    is_limit_met: bool,
}

/// What is seen of a goal that was asked twice.
#[derive(Clone, Copy, PartialEq, Eq)]
struct Seen {
    first: Outcome,
    is_answered_again: bool,
    is_started_again: bool,
    is_limit_met: bool,
    is_idle: bool,
    stored: Option<Outcome>,
    found: Option<Outcome>,
}

/// What the text's first question comes to, if it comes to it again without memory.
pub fn answer_again(alloc: Global, text: &[u8]) -> Result<Outcome, Failed> {
    let rules = Rules::read(alloc, text)?;
    let Some((depth, goal)) = rules.questions().first().copied() else {
        return Err(Failed::Malformed);
    };
    let cx = Table { lender: &rules };
    let seen = see_with::<Table<&Rules>, TableDelegate<'_, 8, 1>>(alloc, cx, depth, goal);
    outcome_of(seen)
}

/// What the goal came to, if nothing is wrong.
fn outcome_of(seen: Option<Seen>) -> Result<Outcome, Failed> {
    let Some(seen) = seen else {
        return Err(Failed::Memory);
    };
    let wanted = Seen {
        first: seen.first,
        is_answered_again: true,
        is_started_again: false,
        is_limit_met: false,
        is_idle: true,
        stored: Some(seen.first),
        found: Some(seen.first),
    };
    ensure(
        seen == wanted,
        "what is stored is not answered without memory",
    )?;
    Ok(seen.first)
}

/// What is seen of the goal, or nothing where memory was out at first.
fn see_with<X, D>(alloc: Global, cx: X, depth: usize, goal: Goal) -> Option<Seen>
where
    X: Cx<Input = Goal, Result = Outcome>,
    D: Delegate<Cx = X, ProofTreeBuilder = Builder>,
{
    let mut cache = new_cache::<X, D>(alloc, cx);
    see_over::<X, D>(alloc, &mut cache, depth, goal)
}

/// Fills the cache, and asks for what needs no memory then.
fn see_over<X, D>(
    alloc: Global,
    cache: &mut GlobalCache<D>,
    depth: usize,
    goal: Goal,
) -> Option<Seen>
where
    X: Cx<Input = Goal, Result = Outcome>,
    D: Delegate<Cx = X, ProofTreeBuilder = Builder>,
{
    let mut builder = Builder::new(true);
    let Ok(first) = ask::<X, D>(alloc, cache, depth, goal, &mut builder).answer else {
        return None;
    };
    let started = builder.started();
    let again = ask::<X, D>(alloc, cache, depth, goal, &mut builder);
    Some(Seen {
        first: first.result,
        is_answered_again: again.answer == Ok(first),
        is_started_again: builder.started() != started,
        is_limit_met: again.is_limit_met,
        is_idle: again.is_idle && answers_candidates::<X, D>(alloc, depth),
        stored: stored_of::<X, D>(cache, depth, goal),
        found: found_of::<X, D>(cache, depth, goal),
    })
}

fn ask<X, D>(
    alloc: Global,
    cache: &mut GlobalCache<D>,
    depth: usize,
    goal: Goal,
    builder: &mut Builder,
) -> Asked
where
    X: Cx<Input = Goal, Result = Outcome>,
    D: Delegate<Cx = X, ProofTreeBuilder = Builder>,
{
    let mut graph = new_graph::<X, D>(alloc, depth);
    Asked {
        answer: evaluate::<X, D>(&mut graph, cache, goal, PathKind::Inductive, builder),
        is_idle: is_idle::<X, D>(&graph),
        is_limit_met: graph.limits_met(),
    }
}

/// Whether a graph without goals refuses to enter a candidate and to finish one, and lets uses of none be ignored.
fn answers_candidates<X, D>(alloc: Global, depth: usize) -> bool
where
    X: Cx<Input = Goal, Result = Outcome>,
    D: Delegate<Cx = X, ProofTreeBuilder = Builder>,
{
    let mut graph = new_graph::<X, D>(alloc, depth);
    graph.enter_single_candidate() == Err(Fault::Protocol(5))
        && graph.finish_single_candidate().is_err()
        && graph.ignore_candidate_head_usages(CandidateHeadUsages::new(alloc)) == Ok(())
}

/// What is stored of the goal.
fn stored_of<X, D>(cache: &GlobalCache<D>, depth: usize, goal: Goal) -> Option<Outcome>
where
    X: Cx<Input = Goal, Result = Outcome>,
    D: Delegate<Cx = X, ProofTreeBuilder = Builder>,
{
    match cache.success_of(goal) {
        Some((outcome, _)) => Some(outcome),
        None => cache.overflow_at(goal, depth),
    }
}

/// What the cache answers on the goal, whatever its result rests on.
fn found_of<X, D>(cache: &GlobalCache<D>, depth: usize, goal: Goal) -> Option<Outcome>
where
    X: Cx<Input = Goal, Result = Outcome>,
    D: Delegate<Cx = X, ProofTreeBuilder = Builder>,
{
    match cache.get(goal, AvailableDepth(depth), &Anything) {
        Some(found) => Some(found.result),
        None => None,
    }
}
