//! The rows of a table of rules that was read from a text.
ghost use Rattle.std.specs.Prelude.{◌≡◌, ℕ, List, ◌<◌, ◌≤◌, ◌↔◌, ◌++◌, [], ◌∷◌, length, map, drop, IfOk, OnOk, IsTrue};
ghost use Rattle.line_texts.specs.Lines.{lines_of};
ghost use Rattle.rule_tables.specs.Rules.{names_of};
ghost use Rattle.rule_tables.specs.Text.{Reads};
ghost use Rattle.rule_arrays.specs.Faults.{IsTable};
ghost use Rattle.rule_arrays.specs.Rows.{Adds, AddsAll, AddsGoal, AreRowsOf, names_text, number_of, row_of};
ghost use Rattle.rule_arrays.specs.Written.{HaveRoom, sizes_of, written};
ghost use Rattle.rule_arrays.specs.Table.{table_with};

use crate::rows::{Arrays, CandidateRow, GoalRow, NOT_KNOWN, QuestionRow};
use rule_tables::rules::Asking;
use rule_tables::{Candidate, Candidates, Rules};
use search_context::context::NoMemory;
use search_context::path::PathKind;
use std::alloc::Global;

/// As many rows as a small table needs, whose lists then do not grow from one row to two, four and eight.
const FEW: usize = 16;

/// The bytes of a short name and its newline.
const SHORT: usize = 8;

/// The rows of a table, and the names of its goals.
#[derive(Drop)]
pub struct TableRows {
    pub goals: Vec<GoalRow>,
    pub candidates: Vec<CandidateRow>,
    pub questions: Vec<QuestionRow>,
    /// Each name with a newline behind it, in the order of the goals.
    pub names: Vec<u8>,
}

/// How many rows of each list there are, and how many bytes of names.
#[repr(C)]
#[derive(Clone, Copy, Debug, Default, PartialEq, Eq)]
pub struct Sizes {
    pub goals: usize,
    pub candidates: usize,
    pub questions: usize,
    pub names: usize,
}

impl TableRows {
    /// The rows of a table. A goal's place in the list of goals is its number, so they stand in the order of first mention.
    /// The rows of a table that was read from a text are in order: `first_fault` finds none. Fails also where 32 bits are too
    /// few to count the rows of a list.
    pub fn new(alloc: Global, rules: &Rules) -> Result<TableRows, NoMemory>
        ensures rows { IfOk result (λ rows. AreRowsOf rules.now
            (table_with rows.goals.items rows.candidates.items rows.questions.items)) }
        ensures in_order { (text : List ℕ) → Reads text rules.now → IfOk result (λ rows. IsTable
            (table_with rows.goals.items rows.candidates.items rows.questions.items)) }
        ensures names { IfOk result (λ rows. rows.names.items ≡ names_text (names_of rules.now)) }
        ensures lines { (text : List ℕ) → Reads text rules.now →
            IfOk result (λ rows. lines_of rows.names.items ≡ names_of rules.now ++ [] ∷ []) }
    {
        if rules.count() >= NOT_KNOWN as usize {
            return Err(NoMemory);
        }
        let mut goals = Vec::with_capacity(alloc, rules.count())?;
        let mut candidates = Vec::with_capacity(alloc, FEW)?;
        let mut questions = Vec::with_capacity(alloc, FEW)?;
        for number in 0..rules.count() {
            if let Some(goal) = rules.goal_at(number) {
                let all = rules.candidates(goal);
                add_goal(&mut goals, &mut candidates, &mut questions, &all)?;
            }
        }
        let names = names_of(alloc, rules)?;
        Ok(TableRows {
            goals,
            candidates,
            questions,
            names,
        })
    }

    /// The rows, where they are.
    pub fn arrays(&self) -> Arrays<'_>
        ensures goals { result.goals.now ≡ self.now.goals.items }
        ensures candidates { result.candidates.now ≡ self.now.candidates.items }
        ensures questions { result.questions.now ≡ self.now.questions.items }
    {
        Arrays {
            goals: self.goals.as_slice(),
            candidates: self.candidates.as_slice(),
            questions: self.questions.as_slice(),
        }
    }

    /// What `write` needs room for.
    pub fn sizes(&self) -> Sizes
        ensures { result ≡ sizes_of self.now }
    {
        Sizes {
            goals: self.goals.len(),
            candidates: self.candidates.len(),
            questions: self.questions.len(),
            names: self.names.len(),
        }
    }

    /// Writes all to the beginning of these slices, and leaves what stands behind. False exactly where one of them is too
    /// short: then nothing is written.
    pub fn write(
        &self,
        goals: &mut [GoalRow],
        candidates: &mut [CandidateRow],
        questions: &mut [QuestionRow],
        names: &mut [u8],
    ) -> bool
        ensures fits { IsTrue result ↔ HaveRoom self.now (length goals.old) (length candidates.old)
            (length questions.old) (length names.old) }
        ensures goals { goals.new ≡ written result self.now.goals.items goals.old }
        ensures candidates { candidates.new ≡ written result self.now.candidates.items candidates.old }
        ensures questions { questions.new ≡ written result self.now.questions.items questions.old }
        ensures names { names.new ≡ written result self.now.names.items names.old }
    {
        let sizes = self.sizes();
        if sizes.goals > goals.len()
            || sizes.candidates > candidates.len()
            || sizes.questions > questions.len()
            || sizes.names > names.len()
        {
            return false;
        }
        put(goals, self.goals.as_slice());
        put(candidates, self.candidates.as_slice());
        put(questions, self.questions.as_slice());
        put(names, self.names.as_slice());
        true
    }
}

// Writes the elements to the beginning of a slice.
fn put<T: Copy>(out: &mut [T], all: &[T])
    requires { length all.now ≤ length out.old }
    ensures { out.new ≡ all.now ++ drop (length all.now) out.old }
{
    out[..all.len()].copy_from_slice(all);
}

// Each name with a newline behind it.
fn names_of(alloc: Global, rules: &Rules) -> Result<Vec<u8>, NoMemory>
    ensures { IfOk result (λ names. names.items ≡ names_text (names_of rules.now)) }
{
    let mut names = Vec::with_capacity(alloc, rules.count().saturating_mul(SHORT))?;
    for number in 0..rules.count() {
        if let Some(goal) = rules.goal_at(number) {
            names.extend_from_slice(rules.name(goal).unwrap_or(b""))?;
            names.push(b'\n')?;
        }
    }
    Ok(names)
}

// One more goal, with these candidates.
fn add_goal(
    goals: &mut Vec<GoalRow>,
    candidates: &mut Vec<CandidateRow>,
    questions: &mut Vec<QuestionRow>,
    all: &Candidates<'_>,
) -> Result<(), NoMemory>
    ensures { OnOk result (AddsGoal goals.old.items goals.new.items candidates.old.items candidates.new.items
        questions.old.items questions.new.items all.now) }
{
    let first = counted(candidates.len())?;
    let count = counted(all.count())?;
    add_candidates(candidates, questions, all)?;
    goals.push(GoalRow { first, count })?;
    Ok(())
}

fn add_candidates(
    candidates: &mut Vec<CandidateRow>,
    questions: &mut Vec<QuestionRow>,
    all: &Candidates<'_>,
) -> Result<(), NoMemory>
    ensures { OnOk result (AddsAll candidates.old.items candidates.new.items
        questions.old.items questions.new.items all.now) }
{
    for place in 0..all.count() {
        if let Some(candidate) = all.get(place) {
            add_candidate(candidates, questions, &candidate)?;
        }
    }
    Ok(())
}

fn add_candidate(
    candidates: &mut Vec<CandidateRow>,
    questions: &mut Vec<QuestionRow>,
    candidate: &Candidate<'_>,
) -> Result<(), NoMemory>
    ensures { OnOk result (Adds candidates.old.items candidates.new.items
        questions.old.items questions.new.items candidate.now) }
{
    let asked = candidate.questions();
    let row = CandidateRow {
        first: counted(questions.len())?,
        count: counted(asked.len())?,
        is_marked: if candidate.is_marked() { 1 } else { 0 },
    };
    add_questions(questions, asked)?;
    candidates.push(row)?;
    Ok(())
}

fn add_questions(questions: &mut Vec<QuestionRow>, asked: &[Asking]) -> Result<(), NoMemory>
    ensures { OnOk result (questions.new.items ≡ questions.old.items ++ map row_of asked.now) }
{
    for asking in asked {
        questions.push(QuestionRow {
            kind: number_of(asking.kind),
            goal: asking.goal.number(),
        })?;
    }
    Ok(())
}

// The number of a kind.
fn number_of(kind: PathKind) -> u32
    ensures { result ≡ number_of kind }
{
    match kind {
        PathKind::Inductive => 0,
        PathKind::Unknown => 1,
        PathKind::Coinductive => 2,
        PathKind::ForcedAmbiguity => 3,
    }
}

// The number in 32 bits, of which the last one stands for what is not known.
fn counted(number: usize) -> Result<u32, NoMemory>
    ensures { IfOk result (λ it. (it ≡ number) × (it < 4294967295)) }
{
    if number < NOT_KNOWN as usize {
        Ok(number as u32)
    } else {
        Err(NoMemory)
    }
}
