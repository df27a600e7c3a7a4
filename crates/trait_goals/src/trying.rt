//! The rules of a trait are tried for a type.
ghost use Rattle.std.specs.Prelude.{◌≡◌, List, length, IfOk, IfSome};
ghost use Rattle.trait_goals.specs.Below.{Keeps, Made, Stands, Term};
ghost use Rattle.trait_goals.specs.Trying.{AreAsked, AreInside, IsTried};

use crate::asked::{Asked, Candidate};
use crate::instance::{Found, Instance, at, find_instance};
use search_context::context::NoMemory;
use std::alloc::Global;
use trait_rules::{Numbered, Rule, Terms};

/// What became of a rule that was tried for a goal.
#[derive(Debug, Drop)]
pub(crate) enum Tried {
    /// It is none for the goal's type.
    Apart,
    /// It is one, and asks these goals.
    By(Candidate),
    /// It does not tell whether it is one, or what it asks.
    Open,
}

/// No goal has as many candidates, and no candidate as many questions.
const MOST: usize = 0xffff_fffe;

// The goals that a rule asks, where these types stand in its shapes, of which there are so many.
fn ask_clauses(
    alloc: Global,
    asked: &mut Numbered<Asked>,
    rule: &Rule,
    all: &[usize],
    bound: usize,
    types: usize,
) -> Result<Option<Vec<usize>>, NoMemory>
    ensures keeps { Keeps asked.old asked.new }
    ensures asked { IfOk result (λ o. IfSome o (λ questions.
        AreAsked all.now asked.old asked.new rule.now bound (length rule.now.clauses.items) questions.items)) }
    ensures inside { (made : List Made) → types ≡ length made → AreInside made asked.old → AreInside made asked.new }
{
    let mut questions = Vec::with_capacity(alloc, rule.clauses.len())?;
    for place in 0..rule.clauses.len() {
        let Some(clause) = at(rule.clauses.as_slice(), place) else {
            return Ok(None);
        };
        let Some(subject) = at(all, clause.shape) else {
            return Ok(None);
        };
        if subject >= types {
            return Ok(None);
        }
        let number = asked.intern(Asked {
            subject,
            bound: clause.bound.for_goal(bound),
        })?;
        questions.push(number)?;
    }
    Ok(Some(questions))
}

/// Tries a rule for a goal. Types and goals that are new are added.
pub(crate) fn try_rule(
    alloc: Global,
    instance: &mut Instance,
    terms: &mut Terms,
    asked: &mut Numbered<Asked>,
    rule: &Rule,
    goal: Asked,
) -> Result<Tried, NoMemory>
    ensures made { Keeps terms.old terms.new }
    ensures asked { Keeps asked.old asked.new }
    ensures inside { AreInside terms.old asked.old → AreInside terms.new asked.new }
    ensures tried { IfOk result (λ tried. (term : Term) → Stands terms.old goal.subject term →
        IsTried terms.new asked.new rule.now goal.bound term tried) }
{
    match find_instance(instance, terms, rule, goal.subject)? {
        Found::Apart => return Ok(Tried::Apart),
        Found::Open => return Ok(Tried::Open),
        Found::Types => {}
    }
    let types = terms.len();
    let asks = ask_clauses(alloc, asked, rule, instance.types(), goal.bound, types)?;
    let Some(questions) = asks else {
        return Ok(Tried::Open);
    };
    if questions.len() > MOST - 1 {
        return Ok(Tried::Open);
    }
    Ok(Tried::By(Candidate { questions }))
}
