//! Goals that are found from one on, each followed once.
ghost use Rattle.std.specs.Prelude.{◌≡◌, ◌↔◌, ◌<◌, [], Contains, IfOk, IsTrue, OnOk, Some, length, slice_get};
ghost use Rattle.std.specs.HashSet.{contains};
ghost use Rattle.askers.specs.Found.{AreListed, Finds, FollowsAll, IsFound};
ghost use Rattle.askers.specs.Told.{AreIndexed, IsAskerAt, IsExact, told_of};
ghost use Rattle.askers.specs.declared.told.Link.{Link};

use crate::told::Told;
use path_kinds::memory::NoMemory;
use std::alloc::Global;
use std::collections::HashSet;
use std::hash::Hash;

/// The goals that were found, in the order in which they were.
#[derive(Drop)]
pub(crate) struct Found<I: Eq + Hash + Copy> {
    goals: Vec<I>,
    all: HashSet<I>,
}

impl<I: Eq + Hash + Copy> Found<I> {
    /// None is found. It takes no memory yet.
    pub(crate) fn new(alloc: Global) -> Found<I>
        ensures none { result.goals.items ≡ [] }
        ensures listed { AreListed I.eq result }
    {
        Found {
            goals: Vec::new(alloc),
            all: HashSet::new(alloc),
        }
    }

    /// The goal is found, if it was not before.
    pub(crate) fn note(&mut self, goal: I) -> Result<(), NoMemory>
        requires exact { IsExact I.eq }
        requires listed { AreListed I.eq self.old }
        ensures { OnOk result (Finds I.eq (λ other. other ≡ goal) self.old self.new) }
    {
        if self.all.insert(goal)? {
            self.goals.push(goal)?;
        }
        Ok(())
    }

    /// These goals are found.
    pub(crate) fn note_all(&mut self, goals: &[I]) -> Result<(), NoMemory>
        requires exact { IsExact I.eq }
        requires listed { AreListed I.eq self.old }
        ensures { OnOk result (Finds I.eq (λ other. Contains goals.now other) self.old self.new) }
    {
        for goal in goals {
            self.note(*goal)?;
        }
        Ok(())
    }

    /// Finds all that ask a goal that is found.
    pub(crate) fn follow_all(&mut self, told: &Told<I>) -> Result<(), NoMemory>
        requires listed { AreListed I.eq self.old }
        requires indexed { AreIndexed I.eq told.now }
        ensures { OnOk result (FollowsAll I.eq (told_of I.eq told.now) self.old self.new) }
    {
        for place in 0..usize::MAX {
            let Some(goal) = self.goals.get(place).copied() else {
                break;
            };
            self.follow(told, goal)?;
        }
        Ok(())
    }

    // Finds all that ask this goal.
    fn follow(&mut self, told: &Told<I>, goal: I) -> Result<(), NoMemory>
        requires listed { AreListed I.eq self.old }
        requires indexed { AreIndexed I.eq told.now }
        ensures { OnOk result (Finds I.eq (λ asker. Contains (told_of I.eq told.now) (asker, goal))
            self.old self.new) }
    {
        let mut at = told.last_of(goal);
        while at > 0 {
            at = self.follow_link(told, at - 1)?;
        }
        Ok(())
    }

    // Finds the goal that asks by the link at this place, if the link counts, and says where the earlier one is.
    fn follow_link(&mut self, told: &Told<I>, place: usize) -> Result<usize, NoMemory>
        requires listed { AreListed I.eq self.old }
        requires exact { IsExact I.eq }
        requires within { place < length told.now.links.items }
        ensures earlier { IfOk result (λ at. (link : Link I) →
            slice_get told.now.links.items place ≡ Some link → at ≡ link.earlier) }
        ensures found { OnOk result (Finds I.eq (IsAskerAt I.eq told.now place) self.old self.new) }
    {
        let link = told.links[place];
        if !told.counts(place, link.asker) {
            return Ok(link.earlier);
        }
        self.note(link.asker)?;
        Ok(link.earlier)
    }

    /// The goals.
    pub(crate) fn into_goals(self) -> HashSet<I>
        requires exact { IsExact I.eq }
        requires listed { AreListed I.eq self }
        ensures { (goal : I) → IsTrue (contains I.eq result goal) ↔ IsFound self goal }
    {
        self.all
    }
}
