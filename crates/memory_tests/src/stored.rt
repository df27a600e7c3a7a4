//! What a cache has stored, as it was at some moment.

use delegate_parts::Outcome;
use rule_tables::{Goal, Rules};
use search_parts::context::{Cx, Delegate};
use search_parts::global_cache::GlobalCache;
use std::alloc::{AllocError, Global};

/// The most goals of a table that are looked at.
const MOST_GOALS: usize = 1000;

/// Results that met overflow are looked for at the depths below this one.
const DEPTHS: usize = 12;

/// Where a cache may have a result: a goal's success, or its result that met overflow at this depth.
type Place = (Goal, Option<usize>);

/// The results that a cache has stored of some goals.
#[derive(Drop)]
pub struct Stored {
    results: Vec<(Place, Option<Outcome>)>,
}

impl Stored {
    /// Nothing is stored of the table's goals.
    pub fn new(alloc: Global, rules: &Rules) -> Result<Stored, AllocError> {
        let goals = goals_of(alloc, rules)?;
        let count = goals.len().saturating_mul(DEPTHS.saturating_add(1));
        let mut results = Vec::with_capacity(alloc, count)?;
        for goal in &goals {
            add_places(&mut results, *goal)?;
        }
        Ok(Stored { results })
    }

    /// Whether nothing is stored.
    pub fn is_empty(&self) -> bool {
        for (_, outcome) in &self.results {
            if outcome.is_some() {
                return false;
            }
        }
        true
    }

    /// Looks at what is stored now.
    pub fn look<X, D>(&mut self, cache: &GlobalCache<D>)
    where
        X: Cx<Input = Goal, Result = Outcome>,
        D: Delegate<Cx = X>,
    {
        for (place, outcome) in self.results.as_mut_slice() {
            *outcome = result_at::<X, D>(cache, *place);
        }
    }

    /// Whether all that was stored is still there with an equal result.
    pub fn is_kept<X, D>(&self, cache: &GlobalCache<D>) -> bool
    where
        X: Cx<Input = Goal, Result = Outcome>,
        D: Delegate<Cx = X>,
    {
        for (place, outcome) in &self.results {
            if outcome.is_some() && result_at::<X, D>(cache, *place) != *outcome {
                return false;
            }
        }
        true
    }
}

/// Adds each place of the goal.
fn add_places(results: &mut Vec<(Place, Option<Outcome>)>, goal: Goal) -> Result<(), AllocError> {
    results.push(((goal, None), None))?;
    for depth in 0..DEPTHS {
        results.push(((goal, Some(depth)), None))?;
    }
    Ok(())
}

/// What the cache has in this place.
fn result_at<X, D>(cache: &GlobalCache<D>, place: Place) -> Option<Outcome>
where
    X: Cx<Input = Goal, Result = Outcome>,
    D: Delegate<Cx = X>,
{
    match place {
        (goal, Some(depth)) => cache.overflow_at(goal, depth),
        (goal, None) => success_in::<X, D>(cache, goal),
    }
}

/// The success that the cache has of the goal.
fn success_in<X, D>(cache: &GlobalCache<D>, goal: Goal) -> Option<Outcome>
where
    X: Cx<Input = Goal, Result = Outcome>,
    D: Delegate<Cx = X>,
{
    let (outcome, _) = cache.success_of(goal)?;
    Some(outcome)
}

/// The goals that the table's questions lead to.
fn goals_of(alloc: Global, rules: &Rules) -> Result<Vec<Goal>, AllocError> {
    let mut goals = Vec::new(alloc);
    for (_, goal) in rules.questions() {
        add(&mut goals, *goal)?;
    }
    for place in 0..MOST_GOALS {
        let Some(goal) = goals.get(place).copied() else {
            break;
        };
        add_asked(&mut goals, rules, goal)?;
    }
    Ok(goals)
}

/// Adds the goals that the goal's candidates ask.
fn add_asked(goals: &mut Vec<Goal>, rules: &Rules, goal: Goal) -> Result<(), AllocError> {
    let candidates = rules.candidates(goal);
    for place in 0..candidates.count() {
        if let Some(candidate) = candidates.get(place) {
            for asking in candidate.questions() {
                add(goals, asking.goal)?;
            }
        }
    }
    Ok(())
}

fn add(goals: &mut Vec<Goal>, goal: Goal) -> Result<(), AllocError> {
    if goals.len() < MOST_GOALS && !goals.contains(&goal) {
        goals.push(goal)?;
    }
    Ok(())
}
