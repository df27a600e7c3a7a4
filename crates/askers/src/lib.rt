//! Which goals ask which, kept as they change, and which can reach a goal by asking.
//!
//! A search that knows what its goals ask can tell which of its findings a change of rules concerns: those of the goals that
//! changed, and of all that can reach such a goal. Here these are found in a time that goes by them and by what asks them.
//!
//! | File of `specs/` | Has |
//! |---|---|
//! | `Concerned` | which goals can reach one by asking |
//! | `Told` | what was told, as links, and which of these count |
//! | `Found` | goals that are found from one on |
#![tactic(auto)]

ghost use Rattle.std.specs.Prelude.{◌≡◌, ◌↔◌, ◌++◌, [], filter, map, not, IfOk, IsTrue, OnErr, OnOk};
ghost use Rattle.std.specs.HashSet.{contains};
ghost use Rattle.askers.specs.Concerned.{IsConcerned};
ghost use Rattle.askers.specs.Told.{IsExact};

mod found;
mod told;

use crate::found::Found;
use crate::told::Told;
use path_kinds::memory::NoMemory;
use std::alloc::Global;
use std::collections::HashSet;
use std::hash::Hash;
use std::marker::Model;

/// So many links are made, at least, before those that no longer count are looked for.
const FEW: usize = 64;

/// What goals ask, as they were told last: for each goal and each that it asks a pair of both, in the order in which they were
/// told. Each pair has a link; what no longer counts keeps its own, until there are a quarter more links than counted when
/// they were last gone through.
#[derive(Drop)]
pub struct Askers<I: Eq + Hash + Copy> {
    alloc: Global,
    told: Told<I>,
    // With so many links, those that no longer count are let go before the next one is made.
    most: usize,
}

impl<I: Eq + Hash + Copy> Model for Askers<I> {
    ghost use Rattle.std.specs.Prelude.{List};
    ghost use Rattle.askers.specs.Told.{told_of, AreIndexed};

    ghost Value = { List (I × I) };

    ghost view = { λ s. told_of I.eq s.told };

    ghost invariant = { λ s. AreIndexed I.eq s.told };
}

impl<I: Eq + Hash + Copy> Askers<I> {
    /// No goal asks anything. It takes no memory yet. `==` of goals has to be equality, as where it is derived.
    pub fn new(alloc: Global) -> Askers<I>
        requires exact { IsExact I.eq }
        ensures { result ≡ [] }
    {
        Askers {
            alloc,
            told: Told::new(alloc),
            most: FEW,
        }
    }

    /// The goal asks these too. A refusal leaves all as it was.
    pub fn add(&mut self, goal: I, asked: &[I]) -> Result<(), NoMemory>
        ensures ok { OnOk result (self.new ≡ self.old ++ map (λ one. (goal, one)) asked.now) }
        ensures err { OnErr result (self.new ≡ self.old) }
    {
        self.shorten()?;
        self.told.add(goal, asked)
    }

    /// The goal asks these from now on, and nothing else. A refusal leaves all as it was.
    pub fn set(&mut self, goal: I, asked: &[I]) -> Result<(), NoMemory>
        ensures ok { OnOk result (self.new ≡
            filter (λ pair. not (I.eq goal pair.0)) self.old ++ map (λ one. (goal, one)) asked.now) }
        ensures err { OnErr result (self.new ≡ self.old) }
    {
        self.shorten()?;
        self.told.set(goal, asked)
    }

    /// The goal asks nothing from now on. It takes no memory.
    pub fn clear(&mut self, goal: I)
        ensures { self.new ≡ filter (λ pair. not (I.eq goal pair.0)) self.old }
    {
        self.told.clear(goal);
    }

    /// The goals that can reach one of these by asking, these among them. The time is linear in how many these are, in what
    /// asks the goals that are found, and in the links of these that no longer count.
    pub fn concerned(&self, changed: &[I]) -> Result<HashSet<I>, NoMemory>
        ensures { IfOk result (λ concerned. (goal : I) →
            IsTrue (contains I.eq concerned goal) ↔ IsConcerned self.now changed.now goal) }
    {
        let mut found = Found::new(self.alloc);
        found.note_all(changed)?;
        found.follow_all(&self.told)?;
        Ok(found.into_goals())
    }

    // Lets go of the links that no longer count, if there are many links.
    fn shorten(&mut self) -> Result<(), NoMemory>
        ensures { self.new ≡ self.old }
    {
        if self.told.count() >= self.most {
            self.told = self.told.shortened(self.alloc)?;
            let count = self.told.count();
            self.most = count.saturating_add(count / 4).max(FEW);
        }
        Ok(())
    }
}
