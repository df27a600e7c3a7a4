//! Which rule a yes rests on, and at which question each rule of a no fails, as the edges of a node have it.
ghost use Rattle.std.specs.Prelude.{◌≡◌, ◌≢◌, ◌↔◌, true, Contains, IfNone, IfOk, IfSome, IsTrue, map};
ghost use Rattle.std.specs.HashSet.{IsFromIterResult};
ghost use Rattle.std.specs.List.{AllZip};
ghost use Rattle.graph_texts.specs.Below.{Candidate as SpecCandidate};
ghost use Rattle.graph_texts.specs.Grounds.{AreQuestions, FailsAt, Holds, IsAsked, question_of};

use rule_tables::rules::Asking;
use rule_tables::{Candidate, Candidates, Goal};
use search_context::context::{Edge, NoMemory};
use search_context::path::PathKind;
use std::alloc::{AllocError, Global};
use std::collections::HashSet;
use std::marker::Model;

/// The questions of a node's edges, on which its result rests, to be looked up.
#[derive(Drop)]
pub(crate) struct Grounds {
    asked: HashSet<(PathKind, Goal)>,
}

impl Model for Grounds {
    ghost use Rattle.std.specs.Prelude.{List};
    ghost use Rattle.graph_texts.specs.Below.{Goal, PathKind};

    ghost Value = { List (PathKind × Goal) };

    ghost view = { λ grounds. grounds.asked.keys };
}

impl Grounds {
    /// Those of these edges.
    pub(crate) fn new(alloc: Global, edges: &[Edge<Goal>]) -> Result<Grounds, NoMemory>
        ensures { IfOk result (AreQuestions edges.now) }
    {
        let asked = questions_asked(alloc, edges)?;
        Ok(Grounds { asked })
    }

    /// Whether an edge asks this.
    fn has(&self, asking: Asking) -> bool
        ensures { IsTrue result ↔ IsAsked self.now asking }
    {
        self.asked.contains(&(asking.kind, asking.goal))
    }

    // Whether all questions of the rule are asked.
    fn hold(&self, candidate: &Candidate<'_>) -> bool
        ensures { IsTrue result ↔ Holds self.now candidate.now }
    {
        let questions = candidate.questions();
        for asking in questions {
            if !self.has(*asking) {
                return false;
            }
        }
        true
    }

    // The first question of the rule that is asked.
    fn failing(&self, candidate: &Candidate<'_>) -> Option<Asking>
        ensures { FailsAt self.now candidate.now result }
    {
        let questions = candidate.questions();
        for asking in questions {
            if self.has(*asking) {
                return Some(*asking);
            }
        }
        None
    }
}

// The questions of the edges.
fn questions_asked(
    alloc: Global,
    edges: &[Edge<Goal>],
) -> Result<HashSet<(PathKind, Goal)>, AllocError>
    ensures { IfOk result (IsFromIterResult ⟦<(PathKind, Goal) as PartialEq>⟧.eq
        (map question_of edges.now)) }
{
    edges
        .iter()
        .map(|edge| (edge.kind, edge.input))
        .collect(alloc)
}

/// The rule by which a goal holds: the first one without a mark all of whose questions are asked, and where there is none, the
/// first marked one.
pub(crate) fn holding<'a>(candidates: &Candidates<'a>, grounds: &Grounds) -> Option<Candidate<'a>>
    ensures some { IfSome result (λ rule. Contains candidates.now rule × Holds grounds.now rule) }
    ensures none { IfNone result ((rule : SpecCandidate) → Contains candidates.now rule →
        ¬ Holds grounds.now rule) }
    ensures unmarked { IfSome result (λ found. found.is_marked ≡ true →
        (rule : SpecCandidate) → Contains candidates.now rule → Holds grounds.now rule →
        rule.is_marked ≡ true) }
{
    match first_holding(candidates, grounds, false) {
        Some(candidate) => Some(candidate),
        None => first_holding(candidates, grounds, true),
    }
}

// The first rule with a mark, or without one, all of whose questions are asked.
fn first_holding<'a>(
    candidates: &Candidates<'a>,
    grounds: &Grounds,
    is_marked: bool,
) -> Option<Candidate<'a>>
    ensures some { IfSome result (λ rule. Contains candidates.now rule × Holds grounds.now rule
        × (rule.is_marked ≡ is_marked)) }
    ensures none { IfNone result ((rule : SpecCandidate) → Contains candidates.now rule →
        Holds grounds.now rule → rule.is_marked ≢ is_marked) }
{
    for place in 0..candidates.count() {
        let Some(candidate) = candidates.get(place) else {
            unreachable!();
        };
        if candidate.is_marked() == is_marked && grounds.hold(&candidate) {
            return Some(candidate);
        }
    }
    None
}

/// At which question each of these rules fails, in their order.
pub(crate) fn failures(
    alloc: Global,
    candidates: &Candidates<'_>,
    grounds: &Grounds,
) -> Result<Vec<Option<Asking>>, NoMemory>
    ensures { IfOk result (λ named. AllZip (FailsAt grounds.now) candidates.now named.items) }
{
    let mut named = Vec::new(alloc);
    for place in 0..candidates.count() {
        let Some(candidate) = candidates.get(place) else {
            unreachable!();
        };
        named.push(grounds.failing(&candidate))?;
    }
    Ok(named)
}
