//! Who asks each goal.
ghost use Rattle.std.specs.Prelude.{◌≡◌, ◌<◌, ◌≤◌, ◌^◌, IfOk, OnOk};
ghost use Rattle.rule_arrays.specs.Askers.{AddsAskers, AreAskers, AreChains, last_of};
ghost use Rattle.rule_arrays.specs.Changes.{Asks, IsAskedIn};
ghost use Rattle.rule_arrays.specs.Compared.{table_in};

use crate::changes::compared::{Candidates, Unknown};
use crate::rows::{Arrays, QuestionRow};
use search_context::context::NoMemory;
use std::alloc::Global;

/// A goal that asks another one.
#[derive(Clone, Copy)]
pub(super) struct Link {
    pub(super) asker: u32,
    /// Where the link of an earlier asker of the same goal is: 1 more than its place, and 0 where there is none.
    pub(super) earlier: u32,
}

/// The goals that ask each of the first so many goals, in a chain for each that is asked. Places are of 32 bits, so that chains take
/// half the memory: to go through it is what takes the time.
#[derive(Drop)]
pub(super) struct Askers {
    /// Where the link of each goal's last asker is: 1 more than its place, and 0 where there is none.
    last: Vec<u32>,
    pub(super) links: Vec<Link>,
}

impl Askers {
    /// Which of so many goals ask the first ones, by these rows.
    pub(super) fn new(
        alloc: Global,
        rows: Arrays<'_>,
        count: usize,
        asked: usize,
    ) -> Result<Askers, NoMemory>
        requires few { count ≤ 2 ^ 32 }
        ensures { IfOk result (AreAskers (λ one goal. (goal < count) × Asks (table_in rows.entry) goal one) asked) }
    {
        let mut askers = Askers {
            last: vec![in alloc; 0; asked]?,
            links: Vec::with_capacity(alloc, rows.questions.len())?,
        };
        for place in 0..count {
            askers.add_goal(rows, place as u32)?;
        }
        Ok(askers)
    }

    /// Where the link of the goal's last asker is.
    pub(super) fn last_of(&self, goal: u32) -> u32
        ensures { result ≡ last_of self.now goal }
    {
        match self.last.get(goal as usize) {
            Some(at) => *at,
            None => 0,
        }
    }

    // Adds the goal to the askers of all that its candidates ask.
    fn add_goal(&mut self, rows: Arrays<'_>, goal: u32) -> Result<(), NoMemory>
        requires chains { AreChains self.old }
        ensures { OnOk result (AddsAskers (λ asked asker. (asker ≡ goal) × Asks (table_in rows.entry) goal asked)
            self.old self.new) }
    {
        let unknown = Unknown::of(goal);
        let candidates = Candidates::of(rows, goal, &unknown);
        for row in candidates.rows {
            self.add_questions(candidates.questions(*row), goal)?;
        }
        Ok(())
    }

    // Adds the goal to the askers of all that these questions are about.
    fn add_questions(&mut self, questions: &[QuestionRow], goal: u32) -> Result<(), NoMemory>
        requires chains { AreChains self.old }
        ensures { OnOk result (AddsAskers (λ asked asker. (asker ≡ goal) × IsAskedIn questions.now asked)
            self.old self.new) }
    {
        for question in questions {
            self.add(question.goal, goal)?;
        }
        Ok(())
    }

    // Adds one asker of a goal, if it is one of those whose askers are wanted.
    fn add(&mut self, asked: u32, goal: u32) -> Result<(), NoMemory>
        requires chains { AreChains self.old }
        ensures { OnOk result (AddsAskers (λ other asker. (asker ≡ goal) × (other ≡ asked)) self.old self.new) }
    {
        let place = asked as usize;
        if place < self.last.len() {
            let count = self.links.len();
            if count >= u32::MAX as usize {
                return Err(NoMemory);
            }
            let earlier = self.last[place];
            self.links.push(Link {
                asker: goal,
                earlier,
            })?;
            self.last[place] = count as u32 + 1;
        }
        Ok(())
    }
}
