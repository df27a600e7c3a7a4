//! Whether rules that were read are those of goals.

use graph_data::reading::Claims;
use rule_tables::rules::Asking;
use rule_tables::{Candidates as RuleCandidates, Goal, Rules};
use search_context::context::NoMemory;
use search_context::path::PathKind;
use std::alloc::Global;
use std::io::Write;
use trait_goals::{Candidate, Goals};

/// Whether the goals that are asked and that are in graphs are among the first goals, so many, and the rules are the candidates of
/// these. A goal that asks itself by forced ambiguity alone may have any: that says nothing of it.
pub(super) fn are_same_rules(
    alloc: Global,
    goals: &mut Goals,
    count: usize,
    claims: &Claims,
) -> Result<bool, NoMemory> {
    let rules = &claims.rules;
    let numbers = Numbers::new(alloc, rules, count)?;
    for goal in 0..count {
        let Some(named) = numbers.goal(goal) else {
            continue;
        };
        let candidates = rules.candidates(named);
        if is_unknown(&candidates, named) {
            continue;
        }
        goals.expand(alloc, goal)?;
        if !has_same(goals, goal, &candidates, &numbers) {
            return Ok(false);
        }
    }
    for claim in claims.all.iter() {
        if !numbers.has(rules, claim.goal) {
            return Ok(false);
        }
    }
    Ok(true)
}

// The goals of rules that are named by the numbers of goals.
#[derive(Drop)]
struct Numbers {
    goals: Vec<Option<Goal>>,
}

impl Numbers {
    // Those of the first goals, so many.
    fn new(alloc: Global, rules: &Rules, count: usize) -> Result<Numbers, NoMemory> {
        let mut goals = Vec::with_capacity(alloc, count)?;
        let mut name = Vec::new(alloc);
        for number in 0..count {
            name.clear();
            if write!(name, "{number}").is_err() {
                return Err(NoMemory);
            }
            goals.push(rules.goal(name.as_slice()))?;
        }
        Ok(Numbers { goals })
    }

    // The goal that is named so, if the rules mention it.
    fn goal(&self, number: usize) -> Option<Goal> {
        self.goals.get(number).copied().unwrap_or(None)
    }

    // Whether the goal is one of them. A name with a leading zero is none.
    fn has(&self, rules: &Rules, goal: Goal) -> bool {
        let name = std::str::from_utf8(rules.name(goal).unwrap_or(b"")).unwrap_or("");
        match name.parse::<usize>() {
            Ok(number) => self.goal(number) == Some(goal),
            Err(_) => false,
        }
    }
}

// Whether the goal asks itself by forced ambiguity alone.
fn is_unknown(candidates: &RuleCandidates<'_>, goal: Goal) -> bool {
    match candidates.get(0) {
        Some(candidate) if candidates.count() == 1 => {
            let itself = Asking {
                kind: PathKind::ForcedAmbiguity,
                goal,
            };
            candidate.questions() == [itself].as_slice()
        }
        _ => false,
    }
}

fn has_same(
    goals: &Goals,
    goal: usize,
    candidates: &RuleCandidates<'_>,
    numbers: &Numbers,
) -> bool {
    let Some(known) = goals.candidates(goal) else {
        return false;
    };
    if known.all.len() != candidates.count() {
        return false;
    }
    let kind = goals.kind(goal);
    for (place, candidate) in known.all.iter().enumerate() {
        match candidates.get(place) {
            Some(rule) if asks_same(candidate, rule.questions(), kind, numbers) => {}
            _ => return false,
        }
    }
    true
}

fn asks_same(candidate: &Candidate, asked: &[Asking], kind: PathKind, numbers: &Numbers) -> bool {
    if candidate.questions.len() != asked.len() {
        return false;
    }
    for (question, asking) in candidate.questions.iter().zip(asked.iter()) {
        if asking.kind != kind || numbers.goal(*question) != Some(asking.goal) {
            return false;
        }
    }
    true
}
