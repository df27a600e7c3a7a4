//! Whether each question about goals can be decided.
ghost use Rattle.std.specs.Prelude.{◌≡◌, ◌↔◌, ◌<◌, ℕ, All, IfOk, IsTrue, slice_index};
ghost use Rattle.std.specs.Option.{option_copied};
ghost use Rattle.search_context.specs.Decisive.{IsDecidedKind};
ghost use Rattle.strong_components.specs.Words.{successor_lists};
ghost use Rattle.trait_goals.specs.Decided.{AreAlike, AreAllAlike, AreAllDecided, HaveDecidedKinds, IsGraphOf, questions_at};
ghost use Rattle.trait_goals.specs.Known.{kind_at};

use crate::asked::Candidates;
use crate::goals::Goals;
use search_context::context::NoMemory;
use search_context::path::PathKind;
use std::alloc::Global;
use strong_components::components;

// The goals that the candidates ask, if they are known.
fn questions_of(alloc: Global, known: Option<&Candidates>) -> Result<Vec<usize>, NoMemory>
    ensures { IfOk result (λ questions. questions.items ≡ questions_at (option_copied known.entry)) }
{
    let mut questions = Vec::new(alloc);
    let Some(known) = known else {
        return Ok(questions);
    };
    for candidate in known.all.iter() {
        questions.extend_from_slice(candidate.questions.as_slice())?;
    }
    Ok(questions)
}

// What stands at a place, and zero where nothing does.
fn number_at(numbers: &[usize], place: usize) -> usize
    ensures { result ≡ slice_index numbers.now place }
{
    match numbers.get(place) {
        Some(number) => *number,
        None => 0,
    }
}

// Whether cycles of the kind are yes or no.
fn is_decided(kind: PathKind) -> bool
    ensures { IsTrue result ↔ IsDecidedKind kind }
{
    match kind {
        PathKind::Inductive | PathKind::Coinductive => true,
        PathKind::Unknown | PathKind::ForcedAmbiguity => false,
    }
}

impl Goals {
    // Whether each goal asks inductively or coinductively.
    fn have_decided_kinds(&self) -> bool
        ensures { IsTrue result ↔ HaveDecidedKinds self.now }
    {
        for goal in 0..self.len() {
            if !is_decided(self.kind(goal)) {
                return false;
            }
        }
        true
    }

    // What each goal asks.
    fn graph(&self, alloc: Global) -> Result<Vec<Vec<usize>>, NoMemory>
        ensures { IfOk result (λ graph. IsGraphOf self.now (successor_lists graph.items)) }
    {
        let mut graph = Vec::new(alloc);
        for goal in 0..self.len() {
            let questions = questions_of(alloc, self.candidates(goal))?;
            graph.push(questions)?;
        }
        Ok(graph)
    }

    // Whether the two ask by one kind, if they have the same number.
    fn are_alike(&self, numbers: &[usize], goal: usize, asked: usize) -> bool
        ensures { IsTrue result ↔ AreAlike self.now numbers.now goal asked }
    {
        number_at(numbers, goal) != number_at(numbers, asked) || self.kind(goal) == self.kind(asked)
    }

    // Whether the goal and each of those that it asks do.
    fn asks_alike(&self, numbers: &[usize], goal: usize, questions: &[usize]) -> bool
        ensures { IsTrue result ↔ All (AreAlike self.now numbers.now goal) questions.now }
    {
        questions
            .iter()
            .all(|asked| self.are_alike(numbers, goal, *asked))
    }

    // Whether all goals do.
    fn are_all_alike(&self, graph: &[Vec<usize>], numbers: &[usize]) -> bool
        ensures { IsTrue result ↔ AreAllAlike self.now (successor_lists graph.now) numbers.now }
    {
        for goal in 0..graph.len() {
            if !self.asks_alike(numbers, goal, graph[goal].as_slice()) {
                return false;
            }
        }
        true
    }

    /// Whether each question about these goals can be answered yes or no: all goals are known, each asks inductively or
    /// coinductively, and goals that lead to each other ask by one kind.
    pub fn are_all_decided(&self, alloc: Global) -> Result<bool, NoMemory>
        ensures { IfOk result (λ decided. IsTrue decided ↔ AreAllDecided self.now) }
    {
        // This is asked for what it ensures of all goals alone.
        let _asked = self.asked(0);
        if self.first_unknown(0).is_some() || !self.have_decided_kinds() {
            return Ok(false);
        }
        let graph = self.graph(alloc)?;
        let numbers = components(alloc, graph.as_slice())?;
        Ok(self.are_all_alike(graph.as_slice(), numbers.as_slice()))
    }
}
