//! Goals become known.
ghost use Rattle.std.specs.Prelude.{◌≡◌, ◌<◌, ◌+◌, ◌^◌, true, length, IfOk, IfSome, OnOk, Some};
ghost use Rattle.std.specs.Option.{option_copied};
ghost use Rattle.trait_goals.specs.Below.{Keeps, Stands, Term};
ghost use Rattle.trait_goals.specs.Known.{Covers, known_at, lists_of};
ghost use Rattle.trait_goals.specs.Trying.{AreInside, IsKnownMore, IsNextTried, lists_in};

use crate::asked::{Asked, Candidate, Candidates};
use crate::instance::Instance;
use crate::trying::{Tried, try_rule};
use search_context::context::NoMemory;
use smallvec::SmallVec;
use std::alloc::Global;
use trait_rules::{Numbered, Rule, Rules, Terms};

/// No goal has more candidates.
const MOST: usize = 0xffff_fff0;

// Tries what stands at a place of a trait's rules. Whether all is known so far.
fn try_next(
    alloc: Global,
    instance: &mut Instance,
    terms: &mut Terms,
    asked: &mut Numbered<Asked>,
    given: Option<&Rule>,
    goal: Asked,
    all: &mut SmallVec<Candidate, 1>,
) -> Result<bool, NoMemory>
    ensures made { Keeps terms.old terms.new }
    ensures asked { Keeps asked.old asked.new }
    ensures inside { AreInside terms.old asked.old → AreInside terms.new asked.new }
    ensures few { length all.old.items + 1 < 2 ^ 32 → length all.new.items + 1 < 2 ^ 32 }
    ensures tried { IfOk result (λ is_known. is_known ≡ true → (term : Term) → Stands terms.old goal.subject term →
        IsNextTried terms.new asked.new goal.bound term (option_copied given.entry)
        (lists_in all.old.items) (lists_in all.new.items)) }
{
    let Some(rule) = given else {
        return Ok(true);
    };
    match try_rule(alloc, instance, terms, asked, rule, goal)? {
        Tried::Apart => Ok(true),
        Tried::Open => Ok(false),
        Tried::By(candidate) => {
            if all.len() >= MOST {
                return Ok(false);
            }
            all.push(candidate)?;
            Ok(true)
        }
    }
}

/// The candidates of a goal, unless some rule does not tell them. Types and goals that are new are added.
pub(crate) fn find_candidates(
    alloc: Global,
    instance: &mut Instance,
    rules: &Rules,
    terms: &mut Terms,
    asked: &mut Numbered<Asked>,
    goal: Asked,
) -> Result<Option<Candidates>, NoMemory>
    ensures made { Keeps terms.old terms.new }
    ensures asked { Keeps asked.old asked.new }
    ensures inside { AreInside terms.old asked.old → AreInside terms.new asked.new }
    ensures covers { IfOk result (λ o. IfSome o (λ candidates. (term : Term) → Stands terms.old goal.subject term →
        Covers rules.now terms.new asked.new goal.bound term (lists_of candidates))) }
{
    let Some(constructor) = terms.outermost(goal.subject) else {
        return Ok(None);
    };
    let mut all = SmallVec::new(alloc);
    for place in 0..usize::MAX {
        let Some(given) = rules.rule_at(goal.bound, constructor, place) else {
            return Ok(Some(Candidates { all }));
        };
        if !try_next(alloc, instance, terms, asked, given, goal, &mut all)? {
            return Ok(None);
        }
    }
    Ok(None)
}

/// Notes the candidates of a goal.
pub(crate) fn note_known(
    known: &mut Vec<Option<Candidates>>,
    goal: usize,
    candidates: Candidates,
) -> Result<(), NoMemory>
    ensures more { IsKnownMore known.old.items known.new.items goal candidates }
    ensures noted { OnOk result (known_at known.new.items goal ≡ Some candidates) }
{
    for _ in known.len()..goal {
        known.push(None)?;
    }
    if goal < known.len() {
        known[goal] = Some(candidates);
    } else {
        known.push(Some(candidates))?;
    }
    Ok(())
}
