//! The candidates of a goal by two tables.
ghost use Rattle.std.specs.Prelude.{◌≡◌, ◌↔◌, IsTrue};
ghost use Rattle.rule_arrays.specs.Changes.{IsChanged};
ghost use Rattle.rule_arrays.specs.Compared.{IsUnknown, candidates_in, table_in};
ghost use Rattle.rule_arrays.specs.Table.{candidate_with, candidates_of, part_of};

use crate::rows::{Arrays, CandidateRow, NOT_KNOWN, QuestionRow};

/// The candidates of a goal: their rows, and the list that has their questions.
#[derive(Clone, Copy)]
pub(super) struct Candidates<'a> {
    pub(super) rows: &'a [CandidateRow],
    questions: &'a [QuestionRow],
}

/// The row of the one candidate that a goal has where its candidates are not known, and its question.
#[derive(Clone, Copy)]
pub(super) struct Unknown {
    row: [CandidateRow; 1],
    question: [QuestionRow; 1],
}

impl Unknown {
    /// That of the goal, which asks itself by forced ambiguity.
    pub(super) fn of(goal: u32) -> Unknown
        ensures { IsUnknown goal result }
    {
        Unknown {
            row: [CandidateRow {
                first: 0,
                count: 1,
                is_marked: 0,
            }],
            question: [QuestionRow { kind: 3, goal }],
        }
    }
}

impl<'a> Candidates<'a> {
    /// Those of the goal in these rows.
    pub(super) fn of(rows: Arrays<'a>, goal: u32, unknown: &'a Unknown) -> Candidates<'a>
        requires unknown { IsUnknown goal unknown.now }
        ensures { candidates_in result ≡ candidates_of (table_in rows.entry) goal }
    {
        match rows.goals.get(goal as usize) {
            Some(row) if row.count == NOT_KNOWN => Candidates {
                rows: &unknown.row,
                questions: &unknown.question,
            },
            Some(row) => Candidates {
                rows: part_of(rows.candidates, row.first, row.count),
                questions: rows.questions,
            },
            None => Candidates {
                rows: &[],
                questions: rows.questions,
            },
        }
    }

    /// The questions of one of them.
    pub(super) fn questions(&self, row: CandidateRow) -> &'a [QuestionRow]
        ensures { result.now ≡ part_of self.now.questions.now row.first row.count }
    {
        part_of(self.questions, row.first, row.count)
    }
}

// So many elements from the first one on; where the list ends before, fewer.
fn part_of<T>(list: &[T], first: u32, count: u32) -> &[T]
    ensures { result.now ≡ part_of list.now first count }
{
    let rest = &list[(first as usize).min(list.len())..];
    &rest[..(count as usize).min(rest.len())]
}

/// Whether the goal has other candidates by the new rows than by the old ones.
pub(super) fn is_changed(old: Arrays<'_>, new: Arrays<'_>, goal: u32) -> bool
    ensures { IsTrue result ↔ IsChanged (table_in old.entry) (table_in new.entry) goal }
{
    let unknown = Unknown::of(goal);
    let old = Candidates::of(old, goal, &unknown);
    let new = Candidates::of(new, goal, &unknown);
    !are_same(old, new)
}

// Whether both are the same.
fn are_same(old: Candidates<'_>, new: Candidates<'_>) -> bool
    ensures { IsTrue result ↔ candidates_in old.entry ≡ candidates_in new.entry }
{
    if old.rows.len() != new.rows.len() {
        return false;
    }
    for place in 0..old.rows.len() {
        if !is_same(old, old.rows[place], new, new.rows[place]) {
            return false;
        }
    }
    true
}

// Whether the candidates of two rows are the same.
fn is_same(old: Candidates<'_>, row: CandidateRow, new: Candidates<'_>, other: CandidateRow) -> bool
    ensures { IsTrue result ↔ candidate_with old.entry.questions.now row ≡ candidate_with new.entry.questions.now other }
{
    let is_marked = row.is_marked != 0;
    let is_other_marked = other.is_marked != 0;
    is_marked == is_other_marked && ask_the_same(old.questions(row), new.questions(other))
}

// Whether both lists of questions are the same.
fn ask_the_same(old: &[QuestionRow], new: &[QuestionRow]) -> bool
    ensures { IsTrue result ↔ old.now ≡ new.now }
{
    if old.len() != new.len() {
        return false;
    }
    for place in 0..old.len() {
        if !is_same_question(old[place], new[place]) {
            return false;
        }
    }
    true
}

fn is_same_question(question: QuestionRow, other: QuestionRow) -> bool
    ensures { IsTrue result ↔ question ≡ other }
{
    question.kind == other.kind && question.goal == other.goal
}
