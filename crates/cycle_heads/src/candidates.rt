//! What a candidate used of the goals on the stack.
ghost use Rattle.std.specs.Prelude.{◌≡◌, ◌↔◌, [], IsTrue, IsSome, IsOk, Ok, Err, OnOk, OnErr};
ghost use Rattle.cycle_heads.specs.Words.{StackDepth, merged, with_added, with_noted, at_depth, depth_cmp, IsRising, place_of};
ghost use Rattle.std.specs.BTreeMap.{insert_entry};

use crate::by_depth::{at_place, place_near, place_of};
use crate::depth::StackDepth;
use crate::short_list::ShortList;
use crate::usages::HeadUsages;
use path_kinds::memory::NoMemory;
use std::alloc::Global;
use std::marker::Model;

/// How often a candidate used each goal on the stack, by depth. Ports `CandidateHeadUsages`.
#[derive(Drop)]
pub struct CandidateHeadUsages {
    usages: ShortList<(StackDepth, HeadUsages)>,
}

impl Model for CandidateHeadUsages {
    ghost use Rattle.cycle_heads.specs.Candidates.{UsagesByHead};
    ghost use Rattle.cycle_heads.specs.Heads.{IsRising};

    ghost Value = { UsagesByHead };

    ghost view = { λ c. c.usages };

    ghost invariant = { λ c. IsRising c.usages };
}

impl CandidateHeadUsages {
    /// A candidate that used no head.
    pub fn new(alloc: Global) -> CandidateHeadUsages
        ensures { result ≡ [] }
    {
        CandidateHeadUsages {
            usages: ShortList::new(alloc),
        }
    }

    /// Forgets all heads, and keeps the memory.
    pub fn clear(&mut self)
        ensures { self.new ≡ [] }
    {
        self.usages.clear();
    }

    /// Whether no head is recorded. A head may be recorded without usages.
    pub fn is_empty(&self) -> bool
        ensures { IsTrue result ↔ (self.now ≡ []) }
    {
        self.as_slice().is_empty()
    }

    /// How many bytes of the heap it holds.
    pub fn held_bytes(&self) -> usize {
        self.usages.held_bytes()
    }

    /// The usages that are recorded for the head.
    pub fn get(&self, head: StackDepth) -> Option<HeadUsages>
        ensures { result ≡ at_depth self.now head }
    {
        let usages = self.as_slice();
        at_place(usages, head, place_of(usages, head))
    }

    /// The recorded heads with their usages, by rising depth.
    pub fn as_slice(&self) -> &[(StackDepth, HeadUsages)]
        ensures usages { result.now ≡ self.now }
        ensures rising { IsRising self.now }
    {
        self.usages.as_slice()
    }

    /// Counts one more usage of the head for each kind that isn't zero in `usages`. Only a new head
    /// takes memory, and a refusal changes nothing.
    pub fn note_usages(&mut self, head: StackDepth, usages: HeadUsages) -> Result<(), NoMemory>
        ensures ok { OnOk result (self.new ≡ with_noted self.old head usages) }
        ensures err { OnErr result (self.new ≡ self.old) }
        ensures known { IsSome (at_depth self.old head) → IsOk result }
    {
        let last = self.as_slice().len();
        self.note_usages_near(last, head, usages)?;
        Ok(())
    }

    /// Counts usages as `note_usages` does. The head is looked for at the guessed place of the list first; with a wrong
    /// guess all is the same, but takes a search. The answer is the guess for a next greater head, the place behind this
    /// one; no clause says so, since nothing but time depends on it.
    #[inline(always)]
    pub fn note_usages_near(
        &mut self,
        guess: usize,
        head: StackDepth,
        usages: HeadUsages,
    ) -> Result<usize, NoMemory>
        ensures ok { OnOk result (self.new ≡ with_noted self.old head usages) }
        ensures err { OnErr result (self.new ≡ self.old) }
        ensures known { IsSome (at_depth self.old head) → IsOk result }
    {
        let place = place_near(self.as_slice(), guess, head);
        match place {
            Ok(index) => {
                self.count_at(index, head, usages);
                Ok(index.saturating_add(1))
            }
            Err(index) => self.note_new(index, head, usages),
        }
    }

    // Counts the first usages of a head, at its place, and answers the place behind it. It stays out of
    // `note_usages_near`, which would be slower by the room that this takes.
    #[inline(never)]
    fn note_new(
        &mut self,
        index: usize,
        head: StackDepth,
        usages: HeadUsages,
    ) -> Result<usize, NoMemory>
        requires rising { IsRising self.old }
        requires place { place_of self.old head ≡ Err index }
        ensures ok { OnOk result (self.new ≡ with_noted self.old head usages) }
        ensures err { OnErr result (self.new ≡ self.old) }
    {
        let mut noted = HeadUsages::default();
        noted.add_usages_from_nested(usages);
        self.put(head, Err(index), noted)?;
        Ok(index.saturating_add(1))
    }

    // Counts usages of the head at the place, which is this one.
    fn count_at(&mut self, index: usize, head: StackDepth, usages: HeadUsages)
        requires { place_of self.old head ≡ Ok index }
        ensures { self.new ≡ with_noted self.old head usages }
    {
        let mut known = self.usages.as_slice()[index].1;
        known.add_usages_from_nested(usages);
        self.usages.set(index, (head, known));
    }

    /// Adds the counts of `other`, head by head. Where one of the two is empty, that takes no memory.
    /// A refusal changes nothing. Ports `CandidateHeadUsages::merge_usages`.
    pub fn merge_usages(&mut self, other: CandidateHeadUsages) -> Result<(), NoMemory>
        ensures ok { OnOk result
            ((head : StackDepth) → at_depth self.new head ≡ merged (at_depth self.old head) (at_depth other head)) }
        ensures err { OnErr result (self.new ≡ self.old) }
        ensures into_none { self.old ≡ [] → IsOk result }
        ensures of_none { other ≡ [] → IsOk result }
    {
        if other.is_empty() {
            return Ok(());
        }
        if self.is_empty() {
            *self = other;
            return Ok(());
        }
        let mut sums = other;
        for (head, usages) in self.as_slice() {
            sums.add(*head, *usages)?;
        }
        *self = sums;
        Ok(())
    }

    // Adds the counts of one head.
    fn add(&mut self, head: StackDepth, usages: HeadUsages) -> Result<(), NoMemory>
        ensures ok { OnOk result (self.new ≡ with_added self.old head usages) }
        ensures known { IsSome (at_depth self.old head) → IsOk result }
    {
        let place = place_of(self.as_slice(), head);
        let mut sum = usages;
        if let Some(known) = at_place(self.as_slice(), head, place) {
            sum.add_usages(known);
        }
        self.put(head, place, sum)
    }

    // Makes these the usages of the head, whose place is given.
    fn put(
        &mut self,
        head: StackDepth,
        place: Result<usize, usize>,
        usages: HeadUsages,
    ) -> Result<(), NoMemory>
        requires { place ≡ place_of self.old head }
        ensures ok { OnOk result (self.new ≡ insert_entry depth_cmp self.old head usages) }
        ensures err { OnErr result (self.new ≡ self.old) }
        ensures known { IsSome (at_depth self.old head) → IsOk result }
    {
        match place {
            Ok(index) => self.usages.set(index, (head, usages)),
            Err(index) => self.usages.insert(index, (head, usages))?,
        }
        Ok(())
    }
}
