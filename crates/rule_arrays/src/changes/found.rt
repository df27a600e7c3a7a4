//! Goals that are found from some on, each followed once.
ghost use Rattle.std.specs.Prelude.{◌≡◌, ◌≤◌, ◌↔◌, ℕ, IsTrue, OnOk, [], length};
ghost use Rattle.std.specs.HashSet.{contains};
ghost use Rattle.rule_arrays.specs.Askers.{AreChains, HasAsker};
ghost use Rattle.rule_arrays.specs.Found.{AreListed, Finds, FollowsAll, IsFound};

use crate::changes::askers::Askers;
use search_context::context::NoMemory;
use std::alloc::Global;
use std::collections::HashSet;

/// The goals that were found, in the order in which they were.
#[derive(Drop)]
pub(super) struct Found {
    goals: Vec<u32>,
    all: HashSet<u32>,
}

impl Found {
    /// None is found. It takes no memory yet.
    pub(super) fn new(alloc: Global) -> Found
        ensures none { result.goals.items ≡ [] }
        ensures listed { AreListed result }
    {
        Found {
            goals: Vec::new(alloc),
            all: HashSet::new(alloc),
        }
    }

    pub(super) fn is_empty(&self) -> bool
        ensures { IsTrue result ↔ length self.now.goals.items ≡ 0 }
    {
        self.goals.is_empty()
    }

    /// None of the goals has a greater number. It is 0 where none is found.
    pub(super) fn last(&self) -> u32
        ensures { (goal : ℕ) → IsFound self.now goal → goal ≤ result }
    {
        let mut last = 0;
        for goal in &self.goals {
            last = last.max(*goal);
        }
        last
    }

    /// The goal is found, if it was not before.
    pub(super) fn note(&mut self, goal: u32) -> Result<(), NoMemory>
        requires listed { AreListed self.old }
        ensures { OnOk result (Finds (λ other. other ≡ goal) self.old self.new) }
    {
        if self.all.insert(goal)? {
            self.goals.push(goal)?;
        }
        Ok(())
    }

    /// Finds all that ask a goal that is found.
    pub(super) fn follow_all(&mut self, askers: &Askers) -> Result<(), NoMemory>
        requires listed { AreListed self.old }
        requires chains { AreChains askers.now }
        ensures { OnOk result (FollowsAll askers.now self.old self.new) }
    {
        for place in 0..usize::MAX {
            let Some(goal) = self.goals.get(place).copied() else {
                break;
            };
            self.follow(askers, goal)?;
        }
        Ok(())
    }

    // Finds all that ask this goal.
    fn follow(&mut self, askers: &Askers, goal: u32) -> Result<(), NoMemory>
        requires listed { AreListed self.old }
        requires chains { AreChains askers.now }
        ensures { OnOk result (Finds (HasAsker askers.now goal) self.old self.new) }
    {
        let mut at = askers.last_of(goal);
        while at > 0 {
            let link = askers.links[at as usize - 1];
            self.note(link.asker)?;
            at = link.earlier;
        }
        Ok(())
    }

    /// The goals.
    pub(super) fn into_goals(self) -> HashSet<u32>
        requires listed { AreListed self }
        ensures { (goal : ℕ) → IsTrue (contains ⟦<u32 as PartialEq>⟧.eq result goal) ↔ IsFound self goal }
    {
        self.all
    }
}
