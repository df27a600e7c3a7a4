//! Goals and their rules.
ghost use Rattle.std.specs.Prelude.{◌≡◌, ◌<◌, ◌≤◌, ◌^◌, length};
ghost use Rattle.rule_tables.specs.Starts.{AreStarts, rows_at};

use crate::candidates::{Candidates, Row};
use line_texts::Names;
use search_context::path::PathKind;

/// A goal, which is a name, by that name's number in the order of first mention.
#[derive(Clone, Copy, Debug, Default, PartialEq, Eq, Hash)]
pub struct Goal(pub(crate) u32);

impl Goal {
    ghost use Rattle.std.specs.Prelude.{◌≡◌};
    ghost use Rattle.rule_tables.specs.Rules.{number_of};

    /// The goal whose name has this number.
    pub fn at(number: u32) -> Goal
        ensures { number_of result ≡ number }
    {
        Goal(number)
    }

    /// The number of its name.
    pub fn number(self) -> u32
        ensures { result ≡ number_of self }
    {
        self.0
    }

    // The place of what a table has of the goal.
    pub(crate) fn place(self) -> usize
        ensures { result ≡ number_of self }
    {
        self.0 as usize
    }
}

/// A question of a candidate.
#[derive(Clone, Copy, Debug, PartialEq, Eq)]
pub struct Asking {
    /// The kind of the step to the goal.
    pub kind: PathKind,
    pub goal: Goal,
}

/// A table of rules: names as goals, the candidates of each, and the questions to be answered.
#[derive(Drop)]
pub struct Rules {
    names: Names,
    // The rows of all candidates, goal by goal.
    rows: Vec<Row>,
    // Where the rows of each goal start, and where those of the last goal end.
    starts: Vec<u32>,
    // The questions of all candidates.
    askings: Vec<Asking>,
    questions: Vec<(usize, Goal)>,
    // A goal has room for the number of each name.
    ghost countable: { length names ≤ 2 ^ 32 },
    // A frame has room for the number of each candidate.
    ghost few: { length rows.items < 2 ^ 32 },
    ghost ordered: { AreStarts starts.items (length rows.items) },
}

impl Rules {
    ghost use Rattle.std.specs.Prelude.{◌≡◌, ◌<◌, ◌↔◌, Some, IfSome, IsSome, length};
    ghost use Rattle.std.specs.Option.{option_copied};
    ghost use Rattle.rule_tables.specs.Rules.{name_of, names_of, number_of, candidates_of, questions_of};

    /// A table of these parts.
    pub(crate) fn new(
        names: Names,
        rows: Vec<Row>,
        starts: Vec<u32>,
        askings: Vec<Asking>,
        questions: Vec<(usize, Goal)>,
    ) -> Rules
        requires countable { length names ≤ 2 ^ 32 }
        requires few { length rows.items < 2 ^ 32 }
        requires ordered { AreStarts starts.items (length rows.items) }
        ensures names { result.names ≡ names }
        ensures rows { result.rows ≡ rows }
        ensures starts { result.starts ≡ starts }
        ensures askings { result.askings ≡ askings }
        ensures questions { result.questions ≡ questions }
    {
        Rules {
            names,
            rows,
            starts,
            askings,
            questions,
        }
    }

    /// The goal of this name, if the text mentions it.
    pub fn goal(&self, name: &[u8]) -> Option<Goal>
        ensures { (goal : Goal) → (result ≡ Some goal) ↔ (name_of self.now goal ≡ Some name.now) }
    {
        let number = self.names.number(name)?;
        Some(Goal(number as u32))
    }

    /// How many goals there are.
    pub fn count(&self) -> usize
        ensures { result ≡ length (names_of self.now) }
    {
        self.names.count()
    }

    /// The goal with this number. Numbers begin with 0.
    pub fn goal_at(&self, number: usize) -> Option<Goal>
        ensures some { IsSome result ↔ (number < length (names_of self.now)) }
        ensures number { IfSome result (λ goal. number_of goal ≡ number) }
    {
        if number < self.names.count() {
            Some(Goal(number as u32))
        } else {
            None
        }
    }

    /// The goal's name. A goal of another table may have none.
    pub fn name(&self, goal: Goal) -> Option<&[u8]>
        ensures { option_copied result ≡ name_of self.now goal }
    {
        self.names.text(goal.place())
    }

    /// The depth and the goal of each question, in the order of the text.
    pub fn questions(&self) -> &[(usize, Goal)]
        ensures { result.now ≡ questions_of self.now }
    {
        self.questions.as_slice()
    }

    /// The goal's candidates in the order of their rules. A goal without rules has none.
    pub fn candidates(&self, goal: Goal) -> Candidates<'_>
        ensures { result ≡ candidates_of self.now goal }
    {
        let rows = rows_at(self.starts.as_slice(), self.rows.as_slice(), goal.0);
        Candidates::new(rows, self.askings.as_slice())
    }
}

// The rows between where those of the goal with this number start and where those of the next one do.
fn rows_at<'a>(starts: &[u32], rows: &'a [Row], number: u32) -> &'a [Row]
    requires ordered { AreStarts starts.now (length rows.now) }
    ensures { result.now ≡ rows_at starts.now rows.now number }
{
    let place = number as usize;
    let Some(end) = starts.get(place + 1) else {
        return &[];
    };
    &rows[starts[place] as usize..*end as usize]
}
