//! Rows that are not in order.
ghost use Rattle.std.specs.Prelude.{◌≡◌, ◌+◌, ◌≤◌, ◌↔◌, length, IsTrue, MatchOption};
ghost use Rattle.rule_arrays.specs.Faults.{AreAll, IsFirstBad, IsFirstFault, IsTable};
ghost use Rattle.rule_arrays.specs.Faults.{IsCandidateRow, IsGoalRow, IsQuestionRow};

use crate::rows::{CandidateRow, GoalRow, LendsArrays, NOT_KNOWN, QuestionRow};

/// The place of a row that is not in order.
#[derive(Clone, Copy, Debug, PartialEq, Eq)]
pub enum RowFault {
    /// A goal whose candidates are known and go past the end of their list, or behind 4294967294 goals.
    Goal(usize),
    /// A candidate whose questions go past the end of their list, or with a mark greater than 1.
    Candidate(usize),
    /// A question of a goal past the end of the list of goals, or with a kind greater than 3.
    Question(usize),
}

/// The first row that is not in order; goals come before candidates, and these before questions. There is none exactly
/// where the rows are a table. A search reads rows that are not in order, too: what goes past the end of a list is left
/// out, and a goal past the end does not hold.
pub fn first_fault<L: LendsArrays>(lender: L) -> Option<RowFault>
    ensures { MatchOption result (IsTable (L.table_of lender)) (IsFirstFault (L.table_of lender)) }
{
    let goals = lender.goals();
    let candidates = lender.candidates();
    let questions = lender.questions();
    if let Some(place) = first_bad_goal(goals, candidates.len()) {
        return Some(RowFault::Goal(place));
    }
    if let Some(place) = first_bad_candidate(candidates, questions.len()) {
        return Some(RowFault::Candidate(place));
    }
    let place = first_bad_question(questions, goals.len())?;
    Some(RowFault::Question(place))
}

fn first_bad_goal(goals: &[GoalRow], candidates: usize) -> Option<usize>
    ensures { MatchOption result (AreAll (IsGoalRow candidates) goals.now)
        (IsFirstBad (IsGoalRow candidates) goals.now) }
{
    for (place, row) in goals.iter().enumerate() {
        let is_within = row.count == NOT_KNOWN || is_within(row.first, row.count, candidates);
        if !is_within || place + 1 >= NOT_KNOWN as usize {
            return Some(place);
        }
    }
    None
}

fn first_bad_candidate(candidates: &[CandidateRow], questions: usize) -> Option<usize>
    ensures { MatchOption result (AreAll (IsCandidateRow questions) candidates.now)
        (IsFirstBad (IsCandidateRow questions) candidates.now) }
{
    for (place, row) in candidates.iter().enumerate() {
        if row.is_marked > 1 || !is_within(row.first, row.count, questions) {
            return Some(place);
        }
    }
    None
}

fn first_bad_question(questions: &[QuestionRow], goals: usize) -> Option<usize>
    ensures { MatchOption result (AreAll (IsQuestionRow goals) questions.now)
        (IsFirstBad (IsQuestionRow goals) questions.now) }
{
    for (place, row) in questions.iter().enumerate() {
        if row.kind > 3 || row.goal as usize >= goals {
            return Some(place);
        }
    }
    None
}

// So many elements from the first one on are among all.
fn is_within(first: u32, count: u32, all: usize) -> bool
    ensures { IsTrue result ↔ (first + count ≤ all) }
{
    first as usize + count as usize <= all
}
