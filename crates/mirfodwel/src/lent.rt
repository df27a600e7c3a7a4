//! The rows that a session is opened with.
ghost use Rattle.rule_arrays.specs.Faults.{IsTable};
ghost use Rattle.rule_arrays.specs.Table.{table_with};

use rule_arrays::{CandidateRow, GoalRow, LendsArrays, QuestionRow};

/// Rows in the caller's memory that are in order, which stay as they are for as long as the session is open. A handle
/// can't name how long that is, so it is said to be for ever. This is a struct of its own, as a search can't be held
/// whose type names a lifetime.
#[derive(Clone, Copy)]
pub struct Lent {
    pub goals: &'static [GoalRow],
    pub candidates: &'static [CandidateRow],
    pub questions: &'static [QuestionRow],
    pub ghost in_order: { IsTable (table_with goals.now candidates.now questions.now) },
}

impl LendsArrays for Lent {
    ghost table_of = { λ lent. record { goals = lent.goals.now; candidates = lent.candidates.now; questions = lent.questions.now } };

    fn goals(&self) -> &[GoalRow] {
        self.goals
    }

    fn candidates(&self) -> &[CandidateRow] {
        self.candidates
    }

    fn questions(&self) -> &[QuestionRow] {
        self.questions
    }
}
