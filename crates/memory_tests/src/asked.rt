//! The questions of a table, some of which may be refused memory.

use crate::bare_calls::{
    evaluate, evaluate_list, has_accepted_graph, is_idle, new_cache, new_graph,
};
use crate::failed::{Failed, ensure};
use crate::stored::Stored;
use delegate_parts::{Builder, Outcome};
use rule_tables::{Goal, Rules};
use search_graph::graph::SearchGraph;
use search_parts::context::{Answer, Cx, Delegate, Fault, NoMemory};
use search_parts::global_cache::GlobalCache;
use search_parts::path::PathKind;
use std::alloc::{AllocError, Global};

type Query = (usize, Goal, PathKind);

/// What a table is asked, and what its questions came to.
#[derive(Drop)]
pub struct Asked {
    /// The questions, the same at half their depths, and the questions again.
    queries: Vec<Query>,
    /// What was stored when the newest query was asked.
    stored: Stored,
    outcomes: Vec<Outcome>,
}

impl Asked {
    /// A table that has not been asked.
    pub fn new(alloc: Global, rules: &Rules) -> Result<Asked, AllocError> {
        let queries = queries_of(alloc, rules)?;
        let outcomes = Vec::with_capacity(alloc, queries.len())?;
        let stored = Stored::new(alloc, rules)?;
        Ok(Asked {
            queries,
            stored,
            outcomes,
        })
    }

    /// What the queries came to.
    pub fn outcomes(&self) -> &[Outcome] {
        self.outcomes.as_slice()
    }

    /// Asks all queries over one cache, again over another one, and as a list. A question that is refused memory has to leave
    /// the search as it should, and is asked again. Where one request for memory at most is refused, the answers have to be
    /// the same each time.
    pub fn ask<X, D>(&mut self, alloc: Global, cx: X) -> Result<(), Failed>
    where
        X: Cx<Input = Goal, Result = Outcome>,
        D: Delegate<Cx = X, ProofTreeBuilder = Builder>,
    {
        self.ask_in_turn::<X, D>(alloc, cx)?;
        self.ask_in_turn::<X, D>(alloc, cx)?;
        self.ask_as_list::<X, D>(alloc, cx)
    }

    fn ask_in_turn<X, D>(&mut self, alloc: Global, cx: X) -> Result<(), Failed>
    where
        X: Cx<Input = Goal, Result = Outcome>,
        D: Delegate<Cx = X, ProofTreeBuilder = Builder>,
    {
        let mut cache = new_cache::<X, D>(alloc, cx);
        self.ask_over::<X, D>(alloc, &mut cache)
    }

    fn ask_over<X, D>(&mut self, alloc: Global, cache: &mut GlobalCache<D>) -> Result<(), Failed>
    where
        X: Cx<Input = Goal, Result = Outcome>,
        D: Delegate<Cx = X, ProofTreeBuilder = Builder>,
    {
        for place in 0..self.queries.len() {
            self.ask_at::<X, D>(alloc, cache, place)?;
        }
        Ok(())
    }

    /// Asks the query of this place over the cache.
    fn ask_at<X, D>(
        &mut self,
        alloc: Global,
        cache: &mut GlobalCache<D>,
        place: usize,
    ) -> Result<(), Failed>
    where
        X: Cx<Input = Goal, Result = Outcome>,
        D: Delegate<Cx = X, ProofTreeBuilder = Builder>,
    {
        let Some(query) = self.queries.get(place).copied() else {
            return Ok(());
        };
        self.stored.look::<X, D>(cache);
        let answer = ask::<X, D>(alloc, cache, query, &self.stored)?;
        show::<X, D>(alloc, cache, query, answer)?;
        note(&mut self.outcomes, place, answer.result)
    }

    fn ask_as_list<X, D>(&mut self, alloc: Global, cx: X) -> Result<(), Failed>
    where
        X: Cx<Input = Goal, Result = Outcome>,
        D: Delegate<Cx = X, ProofTreeBuilder = Builder>,
    {
        let mut cache = new_cache::<X, D>(alloc, cx);
        let mut answers = Vec::new(alloc);
        self.list_over::<X, D>(&mut cache, &mut answers)
    }

    /// Asks the queries as a list over the cache. One that is refused as a whole has to leave all as it was, and is asked again.
    fn list_over<X, D>(
        &mut self,
        cache: &mut GlobalCache<D>,
        answers: &mut Vec<Result<Answer<Outcome>, Fault<Goal, Outcome>>>,
    ) -> Result<(), Failed>
    where
        X: Cx<Input = Goal, Result = Outcome>,
        D: Delegate<Cx = X, ProofTreeBuilder = Builder>,
    {
        let queries = self.queries.as_slice();
        let mut builder = Builder::new(true);
        if evaluate_list::<X, D>(cache, queries, &mut builder, answers).is_err() {
            self.stored.look::<X, D>(cache);
            let is_left = answers.is_empty() && builder.started() == 0 && self.stored.is_empty();
            ensure(is_left, "a refused list changes something")?;
            if evaluate_list::<X, D>(cache, queries, &mut builder, answers).is_err() {
                return Err(Failed::Wrong("a list is not answered when it is asked again"));
            }
        }
        ensure_same(answers.as_slice(), self.outcomes.as_slice())
    }
}

fn queries_of(alloc: Global, rules: &Rules) -> Result<Vec<Query>, AllocError> {
    let mut queries = Vec::new(alloc);
    for divisor in [1usize, 2, 1] {
        for (depth, goal) in rules.questions() {
            let depth = depth.checked_div(divisor).unwrap_or(0);
            queries.push((depth, *goal, PathKind::Inductive))?;
        }
    }
    Ok(queries)
}

/// Notes what the query of this place came to. If it was asked before, it has to come to the same.
fn note(outcomes: &mut Vec<Outcome>, place: usize, outcome: Outcome) -> Result<(), Failed> {
    match outcomes.get(place) {
        Some(known) => ensure(*known == outcome, "another answer over another cache"),
        None => Ok(outcomes.push(outcome)?),
    }
}

/// The answer to the query.
fn ask<X, D>(
    alloc: Global,
    cache: &mut GlobalCache<D>,
    query: Query,
    stored: &Stored,
) -> Result<Answer<Outcome>, Failed>
where
    X: Cx<Input = Goal, Result = Outcome>,
    D: Delegate<Cx = X, ProofTreeBuilder = Builder>,
{
    let (depth, goal, step) = query;
    let mut graph = new_graph::<X, D>(alloc, depth);
    ask_on::<X, D>(&mut graph, cache, goal, step, stored)
}

/// Asks the goal on the graph. If that is refused memory, it has to leave the graph without goals and each stored result where
/// it was, and is asked again.
fn ask_on<X, D>(
    graph: &mut SearchGraph<D>,
    cache: &mut GlobalCache<D>,
    goal: Goal,
    step: PathKind,
    stored: &Stored,
) -> Result<Answer<Outcome>, Failed>
where
    X: Cx<Input = Goal, Result = Outcome>,
    D: Delegate<Cx = X, ProofTreeBuilder = Builder>,
{
    let mut builder = Builder::new(true);
    match evaluate::<X, D>(graph, cache, goal, step, &mut builder) {
        Ok(answer) => return Ok(answer),
        Err(fault) => {
            ensure_left(fault, is_idle::<X, D>(graph), stored.is_kept::<X, D>(cache))?;
        }
    }
    match evaluate::<X, D>(graph, cache, goal, step, &mut builder) {
        Ok(answer) => Ok(answer),
        Err(_) => Err(Failed::Wrong("a question is not answered when it is asked again")),
    }
}

/// Asks that a question met a fault of memory, and left the search as it has to.
fn ensure_left(fault: Fault<Goal, Outcome>, is_idle: bool, is_kept: bool) -> Result<(), Failed> {
    ensure(matches!(fault, Fault::Memory), "a fault of another cause")?;
    ensure(is_idle, "goals under evaluation after a fault")?;
    ensure(is_kept, "a stored result is lost")
}

/// Asks that the answer's graph shows it, again where that is refused memory.
fn show<X, D>(
    alloc: Global,
    cache: &GlobalCache<D>,
    query: Query,
    answer: Answer<Outcome>,
) -> Result<(), Failed>
where
    X: Cx<Input = Goal, Result = Outcome>,
    D: Delegate<Cx = X, ProofTreeBuilder = Builder>,
{
    let Some(node) = answer.node else {
        return ensure(!is_definite(answer.result), "a node is missing");
    };
    let (_, goal, _) = query;
    let mut builder = Builder::new(true);
    let verdict = answer.result.verdict();
    let mut shown = has_accepted_graph::<X, D>(alloc, cache, goal, verdict, node, &mut builder);
    if shown.is_err() {
        shown = has_accepted_graph::<X, D>(alloc, cache, goal, verdict, node, &mut builder);
    }
    ensure_shown(answer.result, shown)
}

fn is_definite(outcome: Outcome) -> bool {
    matches!(outcome, Outcome::Yes | Outcome::No)
}

/// Asks that an answer with a node is definite, and its graph accepted.
fn ensure_shown(outcome: Outcome, shown: Result<bool, NoMemory>) -> Result<(), Failed> {
    ensure(is_definite(outcome), "a node too many")?;
    match shown {
        Ok(is_shown) => ensure(is_shown, "no graph that the checker accepts"),
        Err(NoMemory) => Err(Failed::Wrong("a graph is not checked when it is asked for again")),
    }
}

/// Asks that the list's answers are these, but where one was refused memory.
fn ensure_same(
    answers: &[Result<Answer<Outcome>, Fault<Goal, Outcome>>],
    wanted: &[Outcome],
) -> Result<(), Failed> {
    ensure(answers.len() == wanted.len(), "another number of answers")?;
    let mut refused = 0u32;
    for (answer, outcome) in answers.iter().zip(wanted) {
        match answer {
            Ok(answer) if answer.result == *outcome => {}
            Ok(_) => return Err(Failed::Wrong("another answer in a list")),
            Err(Fault::Memory) => refused = refused.saturating_add(1),
            Err(_) => return Err(Failed::Wrong("a fault of another cause in a list")),
        }
    }
    ensure(refused <= 1, "more than one question of a list is refused")
}
