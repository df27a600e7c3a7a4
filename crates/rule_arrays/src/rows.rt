//! The rows, and what lends them.

/// A goal, whose number is its place in the list of goals: where its candidates begin in theirs, and how many there are.
/// Goals may share candidates.
#[repr(C)]
#[derive(Clone, Copy, Debug, PartialEq, Eq)]
pub struct GoalRow {
    pub first: u32,
    /// `NOT_KNOWN` where the candidates are not known; then `first` may be anything.
    pub count: u32,
}

/// Where a goal has this number of candidates, they are not known: the goal says maybe.
pub const NOT_KNOWN: u32 = 4294967295;

/// One way in which a goal may hold: where its questions begin in their list, and how many there are.
#[repr(C)]
#[derive(Clone, Copy, Debug, PartialEq, Eq)]
pub struct CandidateRow {
    pub first: u32,
    pub count: u32,
    /// 1 where it no longer counts once a candidate without a mark holds, and else 0.
    pub is_marked: u32,
}

/// A question of a candidate.
#[repr(C)]
#[derive(Clone, Copy, Debug, PartialEq, Eq)]
pub struct QuestionRow {
    /// The step to the goal: 0 inductive, 1 unknown, 2 coinductive, 3 forced ambiguity.
    pub kind: u32,
    /// The goal's place in the list of goals.
    pub goal: u32,
}

/// What lends rows. A search is generic in it, so that none of its functions names a lifetime.
pub trait LendsArrays: Copy {
    ghost use Rattle.std.specs.Prelude.{◌≡◌};
    ghost use Rattle.rule_arrays.specs.Table.{Table};

    /// The rows that it lends.
    ghost table_of: { Self → Table };

    /// The rows of all goals.
    fn goals(&self) -> &[GoalRow]
        ensures { result.now ≡ (table_of self.now).goals };

    /// Those of all candidates.
    fn candidates(&self) -> &[CandidateRow]
        ensures { result.now ≡ (table_of self.now).candidates };

    /// Those of all questions.
    fn questions(&self) -> &[QuestionRow]
        ensures { result.now ≡ (table_of self.now).questions };
}

/// The rows of a table, in the caller's memory.
#[derive(Clone, Copy, Debug)]
pub struct Arrays<'t> {
    pub goals: &'t [GoalRow],
    pub candidates: &'t [CandidateRow],
    pub questions: &'t [QuestionRow],
}

impl<'t> LendsArrays for Arrays<'t> {
    ghost use Rattle.rule_arrays.specs.Table.{table_with};

    ghost table_of = { λ arrays. table_with arrays.goals.now arrays.candidates.now arrays.questions.now };

    fn goals(&self) -> &[GoalRow] {
        self.goals
    }

    fn candidates(&self) -> &[CandidateRow] {
        self.candidates
    }

    fn questions(&self) -> &[QuestionRow] {
        self.questions
    }
}
