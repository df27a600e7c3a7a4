//! A table that is being read. Its rules stand in the order of the text.
ghost use Rattle.std.specs.Prelude.{◌≡◌, ◌<◌, ◌≤◌, ◌^◌, length, All};
ghost use Rattle.rule_tables.specs.DraftRule.{EndsWithin, IsKnown};

use crate::candidates::Row;
use crate::reading::question::Question;
use crate::rules::{Asking, Goal, Rules};
use line_texts::Names;
use search_context::context::NoMemory;
use std::alloc::Global;

mod groups;

/// So many rules, and questions, as a small table has: its lists then do not grow from one to two, four and eight.
const FEW: usize = 16;

/// A rule, with its goal.
#[derive(Clone, Copy)]
pub(crate) struct DraftRule {
    goal: Goal,
    row: Row,
}

/// What was read so far of a table.
#[derive(Drop)]
pub(crate) struct Draft {
    names: Names,
    rules: Vec<DraftRule>,
    // The questions of all rules.
    askings: Vec<Asking>,
    questions: Vec<(usize, Goal)>,
    // A goal has room for the number of each name.
    ghost countable: { length names ≤ 2 ^ 32 },
    // A row has room for the number of each rule.
    ghost few: { length rules.items < 2 ^ 32 },
    ghost known: { All (IsKnown (length names)) rules.items },
    ghost within: { All (EndsWithin (length askings.items)) rules.items },
}

impl Draft {
    ghost use Rattle.std.specs.Prelude.{◌≡◌, [], ◌∷◌, map, Some, IfOk, OnOk};
    ghost use Rattle.rule_tables.specs.Grammar as grammar;
    ghost use Rattle.rule_tables.specs.Question.{HasShortName, named};
    ghost use Rattle.rule_tables.specs.Draft.{Adds, HasAsked, IsDraftOf, IsMadeOf, Mentions, name_of};

    /// A draft with no name in it, which has room for a small table.
    pub(crate) fn new(alloc: Global) -> Result<Draft, NoMemory>
        ensures { IfOk result (IsDraftOf []) }
    {
        let rules = Vec::with_capacity(alloc, FEW)?;
        let askings = Vec::with_capacity(alloc, FEW)?;
        Ok(Draft {
            names: Names::new(alloc),
            rules,
            askings,
            questions: Vec::new(alloc),
        })
    }

    /// One more candidate of the name.
    pub(crate) fn add_rule(
        &mut self,
        is_marked: bool,
        name: &[u8],
        questions: &[Question<'_>],
    ) -> Result<(), NoMemory>
        requires name { length name.now ≤ 16 }
        requires questions { All HasShortName questions.now }
        ensures { OnOk result
            (Adds (grammar.Rule is_marked name.now (map named questions.now)) self.old self.new) }
    {
        let goal = self.goal_named(name)?;
        let first = self.askings.len();
        self.ask(questions)?;
        // A row counts in 32 bits, and so does what says where a goal's rows start.
        if self.askings.len() > u32::MAX as usize || self.rules.len() >= u32::MAX as usize {
            return Err(NoMemory);
        }
        let row = Row {
            first: first as u32,
            count: questions.len() as u32,
            is_marked,
        };
        self.rules.push(DraftRule { goal, row })?;
        Ok(())
    }

    /// One more question to be answered.
    pub(crate) fn add_question(&mut self, depth: usize, name: &[u8]) -> Result<(), NoMemory>
        requires { length name.now ≤ 16 }
        ensures { OnOk result (Adds (grammar.Ask depth name.now) self.old self.new) }
    {
        let goal = self.goal_named(name)?;
        self.questions.push((depth, goal))?;
        Ok(())
    }

    /// The table. Its rows are put goal by goal.
    pub(crate) fn finish(self, alloc: Global) -> Result<Rules, NoMemory>
        ensures { IfOk result (IsMadeOf self) }
    {
        let (rows, starts) = groups::grouped(alloc, self.rules.as_slice(), self.names.count())?;
        Ok(Rules::new(self.names, rows, starts, self.askings, self.questions))
    }

    // The questions of one more rule.
    fn ask(&mut self, questions: &[Question<'_>]) -> Result<(), NoMemory>
        requires { All HasShortName questions.now }
        ensures { OnOk result (HasAsked self.old self.new questions.now) }
    {
        for question in questions {
            let goal = self.goal_named(question.name)?;
            self.askings.push(Asking {
                kind: question.kind,
                goal,
            })?;
        }
        Ok(())
    }

    // The goal of this name, which may be new.
    fn goal_named(&mut self, name: &[u8]) -> Result<Goal, NoMemory>
        requires { length name.now ≤ 16 }
        ensures mentions { OnOk result (Mentions self.old self.new (name.now ∷ [])) }
        ensures goal { IfOk result (λ goal. name_of self.new goal ≡ Some name.now) }
        ensures askings { self.new.askings ≡ self.old.askings }
    {
        if self.names.count() > u32::MAX as usize {
            return Err(NoMemory);
        }
        let number = self.names.intern(name)?;
        Ok(Goal(number as u32))
    }
}
