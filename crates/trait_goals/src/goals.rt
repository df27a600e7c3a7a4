//! Goals with their numbers, and what is known of them.
ghost use Rattle.std.specs.Prelude.{◌≡◌, ◌≤◌, true, length, slice_get, IfOk, IfSome, None, Some};
ghost use Rattle.std.specs.Option.{option_copied};
ghost use Rattle.trait_goals.specs.Known.{AreRight, IsFirstUnknown, IsKnown, candidates_at, kind_at};
ghost use Rattle.trait_goals.specs.Trying.{Extends};

use crate::asked::{Asked, Candidates};
use crate::growing::{find_candidates, note_known};
use crate::instance::Instance;
use search_context::context::NoMemory;
use search_context::path::PathKind;
use std::alloc::Global;
use std::marker::Model;
use trait_rules::{Numbered, Rules, Terms};

/// Goals, of some of which the candidates are known.
#[derive(Drop)]
pub struct Goals {
    pub(crate) rules: Rules,
    pub(crate) terms: Terms,
    pub(crate) asked: Numbered<Asked>,
    pub(crate) known: Vec<Option<Candidates>>,
    instance: Instance,
}

impl Model for Goals {
    ghost use Rattle.trait_goals.specs.Known.{AreRight, Table};

    ghost Value = { Table };

    ghost view = { λ g. record { rules = g.rules; made = g.terms; asked = g.asked; known = g.known.items } };

    ghost invariant = { λ g. AreRight (record { rules = g.rules; made = g.terms; asked = g.asked; known = g.known.items }) };
}

impl Goals {
    /// No goals yet, of these types by these rules. It takes no memory.
    pub fn new(alloc: Global, rules: Rules, terms: Terms) -> Goals
        ensures rules { result.rules ≡ rules }
        ensures made { result.made ≡ terms }
    {
        // What is asked of it is that the parts of a type come first.
        let _count = terms.len();
        Goals {
            rules,
            terms,
            asked: Numbered::new(alloc),
            known: Vec::new(alloc),
            instance: Instance::new(alloc),
        }
    }

    /// The types of the goals.
    pub fn terms(&self) -> &Terms
        ensures { result.now ≡ self.now.made }
    {
        &self.terms
    }

    /// How many goals there are.
    pub fn len(&self) -> usize
        ensures { result ≡ length self.now.asked }
    {
        self.asked.len()
    }

    /// Makes room for so many goals more.
    pub fn reserve(&mut self, more: usize) -> Result<(), NoMemory>
        ensures { Extends self.old self.new }
    {
        self.asked.reserve(more)?;
        self.known.reserve(more)?;
        Ok(())
    }

    /// The number of a goal, which is the next one where the goal is new. There is none where no type has the number of the
    /// goal's.
    pub fn goal(&mut self, asked: Asked) -> Result<Option<usize>, NoMemory>
        ensures extends { Extends self.old self.new }
        ensures number { IfOk result (λ o. IfSome o (λ number. slice_get self.new.asked number ≡ Some asked)) }
        ensures none { IfOk result (λ o. o ≡ None → length self.old.made ≤ asked.subject) }
    {
        if asked.subject >= self.terms.len() {
            return Ok(None);
        }
        let number = self.asked.intern(asked)?;
        Ok(Some(number))
    }

    /// Finds the candidates of a goal, with the types and goals that they bring: it is known then. Whether all rules could be
    /// tried: else it is known only if it was before.
    pub fn expand(&mut self, alloc: Global, goal: usize) -> Result<bool, NoMemory>
        ensures extends { Extends self.old self.new }
        ensures known { IfOk result (λ is_known. is_known ≡ true → IsKnown self.new goal) }
    {
        let Some(asked) = self.asked.get(goal) else {
            return Ok(false);
        };
        let instance = &mut self.instance;
        let found = find_candidates(
            alloc,
            instance,
            &self.rules,
            &mut self.terms,
            &mut self.asked,
            asked,
        );
        // What is asked of it is that the parts of a type come first, whatever was found.
        let _count = self.terms.len();
        let Some(candidates) = found? else {
            return Ok(false);
        };
        note_known(&mut self.known, goal, candidates)?;
        Ok(true)
    }

    /// The candidates of a goal, if they are known.
    pub fn candidates(&self, goal: usize) -> Option<&Candidates>
        ensures { option_copied result ≡ candidates_at self.now goal }
    {
        match self.known.get(goal) {
            Some(known) => known.as_ref(),
            None => None,
        }
    }

    /// The first goal from this number on whose candidates are not known.
    pub fn first_unknown(&self, from: usize) -> Option<usize>
        ensures { IsFirstUnknown self.now from result }
    {
        for goal in from..self.len() {
            if self.candidates(goal).is_none() {
                return Some(goal);
            }
        }
        None
    }

    /// How a goal asks what it needs.
    pub fn kind(&self, goal: usize) -> PathKind
        ensures { result ≡ kind_at self.now goal }
    {
        match self.asked.get(goal) {
            Some(asked) => self.rules.kind(asked.bound),
            None => PathKind::Inductive,
        }
    }

    /// What the goal of this number asks.
    pub fn asked(&self, goal: usize) -> Option<Asked>
        ensures asked { result ≡ slice_get self.now.asked goal }
        ensures right { AreRight self.now }
    {
        self.asked.get(goal)
    }
}
