//! The table.
ghost use Rattle.std.specs.Prelude.{◌≡◌, ◌↔◌, ◌<◌, ◌≤◌, ◌+◌, ◌∷◌, ◌++◌, ◌^◌, ℕ, List, [], All, length, map, Some, IfOk, IfSome, IsSome, IsTrue, OnErr, OnOk, slice_get};
ghost use Rattle.std.specs.HashSet.{contains};
ghost use Rattle.std.specs.Option.{option_copied, option_map};
ghost use Rattle.candidate_lists.specs.Candidate.{mark_at, question_at};
ghost use Rattle.candidate_lists.specs.Frame.{steps_for};
ghost use Rattle.global_cache.specs.Changed.{is_among, KeepsOthers};
ghost use Rattle.rule_tables.specs.Question.{HasShortName, named};
ghost use Rattle.rule_tables.specs.Rules.{question_of};
ghost use Rattle.rule_tables.specs.Table.{AreAsked};
ghost use Rattle.open_tables.specs.Changes.{Add, Clear, HasChange, HasNoChange, IsOpenTableOf};
ghost use Rattle.open_tables.specs.Kept.{AddsCandidate, ClearsAt, ClearsCandidates, KeepsAllOtherCandidates, KeepsCandidates, KeepsNames, KeepsOtherCandidates};
ghost use Rattle.open_tables.specs.Table.{candidate_of, candidates_at, candidates_in, candidates_of, most_steps, name_of, names_of, scripts_of, AreFewer, IsConcerned, Table};

use askers::Askers;
use line_texts::Names;
use rule_tables::rules::Asking;
use rule_tables::{Goal, Question};
use search_context::context::NoMemory;
use search_context::path::PathKind;
use std::alloc::Global;
use std::collections::HashSet;
use std::marker::Model;

/// A candidate of a goal.
#[derive(Drop)]
pub(crate) struct Way {
    is_marked: bool,
    questions: Vec<Asking>,
}

/// Names as goals, and the candidates of each goal, which change. Goals have their numbers in the order in which their names
/// came, and a name stays once it was mentioned.
#[derive(Drop)]
pub struct OpenTable {
    alloc: Global,
    names: Names,
    // The candidates of each goal, by its number.
    ways: Vec<Vec<Way>>,
    // What each goal's candidates ask.
    askers: Askers<Goal>,
}

impl Model for OpenTable {
    ghost use Rattle.std.specs.Prelude.{map};
    ghost use Rattle.open_tables.specs.Table.{candidates_in, IsKept, Table};

    ghost Value = { Table };

    ghost view = { λ s. record { names = s.names; candidates = map candidates_in s.ways.items } };

    ghost invariant = { λ s. IsKept (record { names = s.names; candidates = map candidates_in s.ways.items }) s.askers };
}

impl OpenTable {
    /// A table without names. It takes no memory yet.
    pub fn new(alloc: Global) -> OpenTable
        ensures { IsOpenTableOf [] result }
    {
        OpenTable {
            alloc,
            names: Names::new(alloc),
            ways: Vec::new(alloc),
            askers: Askers::new(alloc),
        }
    }

    /// How many goals there are.
    pub fn count(&self) -> usize
        ensures { result ≡ length self.now.names }
    {
        self.names.count()
    }

    /// The goal of this name, if it was mentioned.
    pub fn goal(&self, name: &[u8]) -> Option<Goal>
        ensures { (goal : Goal) → (result ≡ Some goal) ↔ (name_of self.now goal ≡ Some name.now) }
    {
        let number = self.names.number(name)?;
        Some(Goal::at(number as u32))
    }

    /// The goal's name. A goal of another table may have none.
    pub fn name(&self, goal: Goal) -> Option<&[u8]>
        ensures { option_copied result ≡ name_of self.now goal }
    {
        self.names.text(goal.number() as usize)
    }

    /// The goal of this name, which may be new: then it has no candidates. A refusal changes nothing.
    pub fn goal_named(&mut self, name: &[u8]) -> Result<Goal, NoMemory>
        requires { length name.now ≤ 16 }
        ensures goal { IfOk result (λ goal. name_of self.new goal ≡ Some name.now) }
        ensures names { KeepsNames self.old self.new }
        ensures candidates { KeepsCandidates self.old self.new }
        ensures made { HasNoChange self.old self.new }
        ensures err { OnErr result (self.new ≡ self.old) }
    {
        if let Some(goal) = self.goal(name) {
            return Ok(goal);
        }
        if self.names.count() > u32::MAX as usize {
            return Err(NoMemory);
        }
        self.ways.reserve(1)?;
        let number = self.names.intern(name)?;
        self.ways.push_reserved(Vec::new(self.alloc));
        Ok(Goal::at(number as u32))
    }

    /// One more candidate of the goal, behind its others: its questions name goals, which may be new. A refusal changes no
    /// candidates.
    pub fn add_rule(
        &mut self,
        goal: Goal,
        is_marked: bool,
        questions: &[Question<'_>],
    ) -> Result<(), NoMemory>
        requires known { IsSome (name_of self.old goal) }
        requires questions { All HasShortName questions.now }
        ensures ok { OnOk result ((name : List ℕ) → name_of self.old goal ≡ Some name →
            HasChange (Add is_marked name (map named questions.now)) self.old self.new) }
        ensures names { KeepsNames self.old self.new }
        ensures others { KeepsOtherCandidates goal self.old self.new }
        ensures refused { OnErr result (KeepsCandidates self.old self.new) }
        ensures err { OnErr result (HasNoChange self.old self.new) }
    {
        let mut asked = Vec::with_capacity(self.alloc, questions.len())?;
        self.name_all(questions, &mut asked)?;
        self.add(goal, is_marked, asked)?;
        Ok(())
    }

    // The questions, each by its goal, which may be new.
    fn name_all(
        &mut self,
        questions: &[Question<'_>],
        asked: &mut Vec<Asking>,
    ) -> Result<(), NoMemory>
        requires questions { All HasShortName questions.now }
        requires none { asked.old.items ≡ [] }
        ensures names { KeepsNames self.old self.new }
        ensures candidates { KeepsCandidates self.old self.new }
        ensures made { HasNoChange self.old self.new }
        ensures asked { OnOk result (AreAsked (names_of self.new) asked.new.items (map named questions.now)) }
    {
        for question in questions {
            let goal = self.goal_named(question.name)?;
            asked.push(Asking {
                kind: question.kind,
                goal,
            })?;
        }
        Ok(())
    }

    /// One more candidate of the goal, behind its others. A refusal changes nothing.
    pub fn add(
        &mut self,
        goal: Goal,
        is_marked: bool,
        questions: Vec<Asking>,
    ) -> Result<(), NoMemory>
        requires known { IsSome (name_of self.old goal) }
        ensures ok { OnOk result (AddsCandidate goal
            (record { is_marked = is_marked; questions = questions.items }) self.old self.new) }
        ensures err { OnErr result (self.new ≡ self.old) }
    {
        let way = Way {
            is_marked,
            questions,
        };
        let place = goal.number() as usize;
        add_way(
            self.alloc,
            &mut self.ways[place],
            &mut self.askers,
            goal,
            way,
        )?;
        Ok(())
    }

    /// The goal's candidates are taken away. It takes no memory.
    pub fn clear(&mut self, goal: Goal)
        ensures clears { ClearsCandidates goal self.old self.new }
        ensures made { (name : List ℕ) → name_of self.old goal ≡ Some name →
            HasChange (Clear name) self.old self.new }
    {
        self.askers.clear(goal);
        clear_at(&mut self.ways, goal.number() as usize);
    }

    /// The goals that a change of these concerns, which are those that can reach one of them by asking, these among them. What
    /// was found of all others before these changed is as right after that. The time is linear in how many these are, in what
    /// asks the goals that are found, and in what asked them once and was not let go yet.
    pub fn concerned(&self, changed: &[Goal]) -> Result<HashSet<Goal>, NoMemory>
        ensures exact { IfOk result (λ gone. (goal : Goal) →
            IsTrue (contains ⟦<Goal as PartialEq>⟧.eq gone goal) ↔ IsConcerned self.now changed.now goal) }
        ensures keeps { IfOk result (λ gone. (before after : Table) →
            KeepsAllOtherCandidates changed.now before self.now → KeepsAllOtherCandidates changed.now self.now after →
            KeepsOthers (is_among ⟦<Goal as PartialEq>⟧.eq gone.keys) (scripts_of before) (scripts_of after)) }
    {
        self.askers.concerned(changed)
    }

    // Whether the goal's candidate at this place is marked, if there is one.
    pub(crate) fn mark(&self, goal: Goal, candidate: usize) -> Option<bool>
        ensures value { result ≡ mark_at (candidates_of self.now goal) candidate }
        ensures few { IfSome result (λ _. candidate + 1 < 2 ^ 32) }
        ensures within { steps_for (candidates_of self.now goal) ≤ most_steps self.now }
    {
        let way = way_at(self.ways.as_slice(), goal.number() as usize, candidate)?;
        Some(way.is_marked)
    }

    // The question at a place of the goal's candidate at another, if there is one.
    pub(crate) fn question(
        &self,
        goal: Goal,
        candidate: usize,
        place: usize,
    ) -> Option<(PathKind, Goal)>
        ensures value { result ≡ question_at question_of (candidates_of self.now goal) candidate place }
        ensures few { IfSome result (λ _. place + 1 < 2 ^ 32) }
    {
        let way = way_at(self.ways.as_slice(), goal.number() as usize, candidate)?;
        let asking = way.questions.get(place)?;
        Some((asking.kind, asking.goal))
    }
}

// One more candidate of the goal, and what it asks. A refusal changes nothing.
fn add_way(
    alloc: Global,
    ways: &mut Vec<Way>,
    askers: &mut Askers<Goal>,
    goal: Goal,
    way: Way,
) -> Result<(), NoMemory>
    ensures ways { OnOk result (ways.new.items ≡ ways.old.items ++ way ∷ []) }
    ensures asks { OnOk result (askers.new ≡
        askers.old ++ map (λ one. (goal, one)) (map (λ q. q.goal) way.questions.items)) }
    ensures few { OnOk result (AreFewer (length ways.old.items) (length way.questions.items)) }
    ensures same { OnErr result (ways.new.items ≡ ways.old.items) }
    ensures unasked { OnErr result (askers.new ≡ askers.old) }
{
    // A frame counts candidates and questions in 32 bits.
    if ways.len() >= u32::MAX as usize || way.questions.len() > u32::MAX as usize {
        return Err(NoMemory);
    }
    ways.reserve(1)?;
    let asked = goals_asked(alloc, way.questions.as_slice())?;
    askers.add(goal, asked.as_slice())?;
    ways.push_reserved(way);
    Ok(())
}

// The candidate at this place of the goal with this number, if there is one.
fn way_at(ways: &[Vec<Way>], goal: usize, candidate: usize) -> Option<&Way>
    ensures { option_map candidate_of (option_copied result) ≡
        slice_get (candidates_at (map candidates_in ways.now) goal) candidate }
{
    ways.get(goal)?.get(candidate)
}

// No candidates stand at the place.
fn clear_at(ways: &mut Vec<Vec<Way>>, place: usize)
    ensures { ClearsAt place (map candidates_in ways.old.items) (map candidates_in ways.new.items) }
{
    if place < ways.len() {
        ways[place].clear();
    }
}

// The goal of each question.
fn goals_asked(alloc: Global, questions: &[Asking]) -> Result<Vec<Goal>, NoMemory>
    ensures { IfOk result (λ goals. goals.items ≡ map (λ q. q.goal) questions.now) }
{
    let mut goals = Vec::with_capacity(alloc, questions.len())?;
    for question in questions {
        goals.push(question.goal)?;
    }
    Ok(goals)
}
