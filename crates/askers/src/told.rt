//! What goals ask, as links from each goal that is asked.
ghost use Rattle.std.specs.Prelude.{◌≡◌, ◌++◌, ◌∷◌, ◌+◌, ◌<◌, ◌≤◌, [], filter, length, map, not, slice_get, IfOk, IsOk, IsSome, OnErr, OnOk, Some, vec_len, vec_capacity};
ghost use Rattle.std.specs.HashMap as hash;
ghost use Rattle.askers.specs.Told.{counts, first_of, last_in, last_of, told_by, told_of, AreIndexed, HasRoom, HaveEntries, IsExact, KeepsEntries, Links};
ghost use Rattle.askers.specs.declared.told.Link.{Link};

use path_kinds::memory::NoMemory;
use std::alloc::Global;
use std::collections::HashMap;
use std::hash::Hash;

/// A goal asks another one.
#[derive(Clone, Copy)]
pub(crate) struct Link<I> {
    pub(crate) asker: I,
    pub(crate) asked: I,
    /// Where the earlier link to the same goal is: 1 more than its place, and 0 where there is none.
    pub(crate) earlier: usize,
}

/// The links, a chain of them for each goal that is asked.
#[derive(Drop)]
pub(crate) struct Told<I: Eq + Hash + Copy> {
    pub(crate) links: Vec<Link<I>>,
    /// Where the last link to a goal is: 1 more than its place.
    last: HashMap<I, usize>,
    /// The place from which on the links of a goal that asks count. Those of a goal that is not here don't.
    first: HashMap<I, usize>,
}

impl<I: Eq + Hash + Copy> Told<I> {
    /// No links.
    pub(crate) fn new(alloc: Global) -> Told<I>
        requires exact { IsExact I.eq }
        ensures indexed { AreIndexed I.eq result }
        ensures told { told_of I.eq result ≡ [] }
    {
        Told {
            links: Vec::new(alloc),
            last: HashMap::new(alloc),
            first: HashMap::new(alloc),
        }
    }

    /// How many links there are.
    pub(crate) fn count(&self) -> usize
        ensures { result ≡ length self.now.links.items }
    {
        self.links.len()
    }

    /// Where the last link to the goal is.
    pub(crate) fn last_of(&self, goal: I) -> usize
        ensures { result ≡ last_of I.eq self.now goal }
    {
        match self.last.get(&goal) {
            Some(at) => *at,
            None => 0,
        }
    }

    /// Whether links of the goal count at this place.
    pub(crate) fn counts(&self, place: usize, goal: I) -> bool
        ensures { result ≡ counts (first_of I.eq self.now) place goal }
    {
        match self.first.get(&goal) {
            Some(first) => *first <= place,
            None => false,
        }
    }

    /// The goal asks these too. A refusal leaves what was told.
    pub(crate) fn add(&mut self, goal: I, asked: &[I]) -> Result<(), NoMemory>
        requires indexed { AreIndexed I.eq self.old }
        ensures indexed { AreIndexed I.eq self.new }
        ensures ok { OnOk result (told_of I.eq self.new ≡ told_of I.eq self.old ++ map (λ one. (goal, one)) asked.now) }
        ensures err { OnErr result (told_of I.eq self.new ≡ told_of I.eq self.old) }
    {
        self.reserve(goal, asked)?;
        self.push_all(goal, asked)
    }

    // The goal asks this one too. A refusal leaves what was told.
    fn add_one(&mut self, goal: I, one: I) -> Result<(), NoMemory>
        requires indexed { AreIndexed I.eq self.old }
        ensures indexed { AreIndexed I.eq self.new }
        ensures ok { OnOk result (told_of I.eq self.new ≡ told_of I.eq self.old ++ (goal, one) ∷ []) }
    {
        self.make_room(goal, 1)?;
        enter(&mut self.last, one, 0)?;
        self.push(goal, one)
    }

    /// The goal asks these, and nothing else. A refusal leaves what was told.
    pub(crate) fn set(&mut self, goal: I, asked: &[I]) -> Result<(), NoMemory>
        requires indexed { AreIndexed I.eq self.old }
        ensures indexed { AreIndexed I.eq self.new }
        ensures ok { OnOk result (told_of I.eq self.new ≡
            filter (λ pair. not (I.eq goal pair.0)) (told_of I.eq self.old) ++ map (λ one. (goal, one)) asked.now) }
        ensures err { OnErr result (told_of I.eq self.new ≡ told_of I.eq self.old) }
    {
        self.reserve(goal, asked)?;
        self.begin_anew(goal)?;
        self.push_all(goal, asked)
    }

    /// The goal asks nothing.
    pub(crate) fn clear(&mut self, goal: I)
        requires indexed { AreIndexed I.eq self.old }
        ensures indexed { AreIndexed I.eq self.new }
        ensures told { told_of I.eq self.new ≡ filter (λ pair. not (I.eq goal pair.0)) (told_of I.eq self.old) }
    {
        self.first.remove(&goal);
    }

    /// The same without links that don't count.
    pub(crate) fn shortened(&self, alloc: Global) -> Result<Told<I>, NoMemory>
        requires indexed { AreIndexed I.eq self.now }
        ensures indexed { IfOk result (AreIndexed I.eq) }
        ensures told { IfOk result (λ told. told_of I.eq told ≡ told_of I.eq self.now) }
    {
        let mut told = Told::new(alloc);
        for place in 0..self.links.len() {
            self.tell_again(place, &mut told)?;
        }
        Ok(told)
    }

    // Tells another one what the link at this place tells, if it counts.
    fn tell_again(&self, place: usize, other: &mut Told<I>) -> Result<(), NoMemory>
        requires within { place < length self.now.links.items }
        requires indexed { AreIndexed I.eq other.old }
        ensures indexed { AreIndexed I.eq other.new }
        ensures told { OnOk result ((link : Link I) → slice_get self.now.links.items place ≡ Some link →
            told_of I.eq other.new ≡ told_of I.eq other.old ++ told_by (first_of I.eq self.now) place link) }
    {
        let link = self.links[place];
        if !self.counts(place, link.asker) {
            return Ok(());
        }
        other.add_one(link.asker, link.asked)
    }

    // Makes room for links of the goal to these, so that none is refused.
    fn reserve(&mut self, goal: I, asked: &[I]) -> Result<(), NoMemory>
        requires indexed { AreIndexed I.eq self.old }
        ensures indexed { AreIndexed I.eq self.new }
        ensures told { told_of I.eq self.new ≡ told_of I.eq self.old }
        ensures room { OnOk result (HasRoom I.eq self.new goal asked.now) }
    {
        self.make_room(goal, asked.len())?;
        enter_all(&mut self.last, asked)
    }

    // Makes room for so many links of the goal, to goals that have entries.
    fn make_room(&mut self, goal: I, count: usize) -> Result<(), NoMemory>
        requires indexed { AreIndexed I.eq self.old }
        ensures indexed { AreIndexed I.eq self.new }
        ensures told { told_of I.eq self.new ≡ told_of I.eq self.old }
        ensures places { OnOk result (vec_len self.new.links + count ≤ vec_capacity self.new.links) }
        ensures begun { OnOk result (IsSome (first_of I.eq self.new goal)) }
    {
        self.links.reserve(count)?;
        enter(&mut self.first, goal, self.links.len())
    }

    // None of the goal's links counts any more. It has an entry.
    fn begin_anew(&mut self, goal: I) -> Result<(), NoMemory>
        requires indexed { AreIndexed I.eq self.old }
        requires begun { IsSome (first_of I.eq self.old goal) }
        ensures ok { IsOk result }
        ensures indexed { AreIndexed I.eq self.new }
        ensures told { told_of I.eq self.new ≡ filter (λ pair. not (I.eq goal pair.0)) (told_of I.eq self.old) }
        ensures begun { IsSome (first_of I.eq self.new goal) }
        ensures links { self.new.links ≡ self.old.links }
        ensures last { self.new.last ≡ self.old.last }
    {
        self.first.insert(goal, self.links.len())?;
        Ok(())
    }

    // Links the goal to these. There is room.
    fn push_all(&mut self, goal: I, asked: &[I]) -> Result<(), NoMemory>
        requires indexed { AreIndexed I.eq self.old }
        requires room { HasRoom I.eq self.old goal asked.now }
        ensures ok { IsOk result }
        ensures indexed { AreIndexed I.eq self.new }
        ensures told { told_of I.eq self.new ≡ told_of I.eq self.old ++ map (λ one. (goal, one)) asked.now }
    {
        for one in asked {
            self.push(goal, *one)?;
        }
        Ok(())
    }

    // Links the goal to this one. There is room, if the one has an entry.
    fn push(&mut self, goal: I, one: I) -> Result<(), NoMemory>
        requires indexed { AreIndexed I.eq self.old }
        requires begun { IsSome (first_of I.eq self.old goal) }
        requires places { vec_len self.old.links < vec_capacity self.old.links }
        ensures ok { IsSome (hash.get I.eq self.old.last one) → IsOk result }
        ensures linked { OnOk result (Links I.eq goal one self.old self.new) }
    {
        let earlier = self.last_of(one);
        self.last.insert(one, self.links.len() + 1)?;
        self.links.push_reserved(Link {
            asker: goal,
            asked: one,
            earlier,
        });
        Ok(())
    }
}

// The goal has this entry from now on, unless it has one.
fn enter<I: Eq + Hash + Copy>(
    entries: &mut HashMap<I, usize>,
    goal: I,
    entry: usize,
) -> Result<(), NoMemory>
    requires exact { IsExact I.eq }
    ensures kept { KeepsEntries entry (hash.get I.eq entries.old) (hash.get I.eq entries.new) }
    ensures entered { OnOk result (IsSome (hash.get I.eq entries.new goal)) }
{
    if entries.contains_key(&goal) {
        return Ok(());
    }
    entries.insert(goal, entry)?;
    Ok(())
}

// Each of these has an entry from now on.
fn enter_all<I: Eq + Hash + Copy>(last: &mut HashMap<I, usize>, asked: &[I]) -> Result<(), NoMemory>
    requires exact { IsExact I.eq }
    ensures same { (goal : I) → last_in (hash.get I.eq last.new) goal ≡ last_in (hash.get I.eq last.old) goal }
    ensures entries { OnOk result (HaveEntries (hash.get I.eq last.new) asked.now) }
{
    for one in asked {
        enter(last, *one, 0)?;
    }
    Ok(())
}
