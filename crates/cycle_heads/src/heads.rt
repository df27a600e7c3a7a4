//! The goals on the stack that an answer rests on.
ghost use Rattle.std.specs.Prelude.{◌≡◌, ◌≢◌, ◌<◌, ◌≤◌, ◌↔◌, [], ◌∷◌, ◌++◌, length, All, IsTrue, IsSome, IsSomeAnd, IsOk, IfSome, Ok, Err, OnOk, OnErr, Some};
ghost use Rattle.std.specs.Option.{option_map};
ghost use Rattle.cycle_heads.specs.Words.{StackDepth, CycleHead, HeadUsages, at_depth, highest, joined_head, lowest, place_of, replace_head, with_head, Heads, IsRising, count_of, without_usages};
ghost use Rattle.cycle_heads.specs.Below.{PathKind, PathsToNested};

use crate::by_depth::{at_place, place_near, place_of};
use crate::depth::StackDepth;
use crate::short_list::ShortList;
use crate::usages::HeadUsages;
use bitflags::Flags;
use path_kinds::memory::NoMemory;
use path_kinds::path::PathsToNested;
use std::alloc::Global;
use std::marker::Model;

/// How an answer rests on a goal on the stack. Ports `CycleHead`.
#[derive(Clone, Copy, Debug, Default)]
pub struct CycleHead {
    /// The paths from the answer's goal to the head.
    pub paths_to_head: PathsToNested,
    /// How often the head was used. A head without usages stays recorded.
    pub usages: HeadUsages,
}

/// The goals on the stack that an answer rests on, by rising depth. Ports `CycleHeads`.
///
/// Most answers rest on one goal at most, which takes no memory of its own. More stand in one list, which is
/// searched by halves; a new head in the middle moves those above it.
#[derive(Drop)]
pub struct CycleHeads {
    heads: ShortList<(StackDepth, CycleHead)>,
}

impl Model for CycleHeads {
    ghost use Rattle.cycle_heads.specs.Heads.{Heads, IsRising};

    ghost Value = { Heads };

    ghost view = { λ h. h.heads };

    ghost invariant = { λ h. IsRising h.heads };
}

impl CycleHeads {
    /// No heads.
    pub fn new(alloc: Global) -> CycleHeads
        ensures { result ≡ [] }
    {
        CycleHeads {
            heads: ShortList::new(alloc),
        }
    }

    /// Whether there are no heads. Ports `CycleHeads::is_empty`.
    pub fn is_empty(&self) -> bool
        ensures { IsTrue result ↔ (self.now ≡ []) }
    {
        self.as_slice().is_empty()
    }

    /// The head of the greatest depth, with its depth. Ports `CycleHeads::highest_cycle_head`.
    pub fn highest_cycle_head(&self) -> (StackDepth, CycleHead)
        requires { 0 < length self.now }
        ensures last { highest self.now ≡ Some result }
        ensures greatest { All (λ e. e.0.0 ≤ result.0.0) self.now }
    {
        *self.as_slice().last().unwrap()
    }

    /// The greatest depth of a head. Ports `CycleHeads::highest_cycle_head_index`.
    pub fn highest_cycle_head_index(&self) -> StackDepth
        requires { 0 < length self.now }
        ensures last { option_map (λ e. e.0) (highest self.now) ≡ Some result }
        ensures greatest { All (λ e. e.0.0 ≤ result.0) self.now }
    {
        self.highest_cycle_head().0
    }

    /// Takes out the head of the greatest depth. Ports `CycleHeads::remove_highest_cycle_head`.
    pub fn remove_highest_cycle_head(&mut self) -> CycleHead
        requires { 0 < length self.old }
        ensures last { (depth : StackDepth) × (self.old ≡ self.new ++ (depth, result) ∷ []) }
        ensures below { IfSome (highest self.old) (λ e. All (λ d. d.0.0 < e.0.0) self.new) }
    {
        self.heads.pop().unwrap().1
    }

    /// The depth of the head of the greatest depth, or `None` where there is none. Ports
    /// `CycleHeads::opt_highest_cycle_head_index`.
    pub fn opt_highest_cycle_head_index(&self) -> Option<StackDepth>
        ensures { result ≡ option_map (λ e. e.0) (highest self.now) }
    {
        self.as_slice().last().map(|head| head.0)
    }

    /// The depth of the head of the least depth, or `None` where there is none. Ports
    /// `CycleHeads::opt_lowest_cycle_head_index`.
    pub fn opt_lowest_cycle_head_index(&self) -> Option<StackDepth>
        ensures { result ≡ option_map (λ e. e.0) (lowest self.now) }
    {
        self.as_slice().first().map(|head| head.0)
    }

    /// Makes room for so many heads in all, so that the list is not moved again and again while it grows to that. A
    /// refusal changes nothing, either.
    pub fn make_room(&mut self, count: usize) -> Result<(), NoMemory>
        ensures { self.new ≡ self.old }
    {
        self.heads.make_room(count)
    }

    /// Records a head. One that is there already keeps its paths and counts at most one more usage
    /// of each kind. Only a new head takes memory, and a refusal changes nothing. Ports
    /// `CycleHeads::insert`.
    pub fn insert(
        &mut self,
        head: StackDepth,
        paths: PathsToNested,
        usages: HeadUsages,
    ) -> Result<(), NoMemory>
        ensures ok { OnOk result (self.new ≡ with_head self.old head paths usages) }
        ensures err { OnErr result (self.new ≡ self.old) }
        ensures known { IsSome (at_depth self.old head) → IsOk result }
    {
        let last = self.as_slice().len();
        self.insert_near(last, head, paths, usages)?;
        Ok(())
    }

    /// Records a head as `insert` does. It is looked for at the guessed place of the list first; with a wrong guess all
    /// is the same, but takes a search. The answer is the guess for a next greater head, the place behind this one; no
    /// clause says so, since nothing but time depends on it.
    #[inline(always)]
    pub fn insert_near(
        &mut self,
        guess: usize,
        head: StackDepth,
        paths: PathsToNested,
        usages: HeadUsages,
    ) -> Result<usize, NoMemory>
        ensures ok { OnOk result (self.new ≡ with_head self.old head paths usages) }
        ensures err { OnErr result (self.new ≡ self.old) }
        ensures known { IsSome (at_depth self.old head) → IsOk result }
    {
        let place = place_near(self.as_slice(), guess, head);
        match place {
            Ok(index) => {
                self.join(index, head, paths, usages);
                Ok(index.saturating_add(1))
            }
            Err(index) => self.put_new(index, head, paths, usages),
        }
    }

    // Puts in a head of a depth that has none, at its place, and answers the place behind it. It stays out of
    // `insert_near`, which would be slower by the room that this takes.
    #[inline(never)]
    fn put_new(
        &mut self,
        index: usize,
        depth: StackDepth,
        paths: PathsToNested,
        usages: HeadUsages,
    ) -> Result<usize, NoMemory>
        requires { place_of self.old depth ≡ Err index }
        ensures ok { OnOk result (self.new ≡ with_head self.old depth paths usages) }
        ensures err { OnErr result (self.new ≡ self.old) }
    {
        let new = CycleHead {
            paths_to_head: paths,
            usages,
        };
        self.heads.insert(index, (depth, new))?;
        Ok(index.saturating_add(1))
    }

    // Joins paths and usages to the head at the place, which has this depth.
    fn join(&mut self, index: usize, depth: StackDepth, paths: PathsToNested, usages: HeadUsages)
        requires { place_of self.old depth ≡ Ok index }
        ensures { self.new ≡ with_head self.old depth paths usages }
    {
        let mut known = self.heads.as_slice()[index].1;
        known.paths_to_head.insert(paths);
        known.usages.add_usages_from_nested(usages);
        self.heads.set(index, (depth, known));
    }

    // Makes the head at the place, which has this depth, another one.
    fn set(&mut self, index: usize, depth: StackDepth, head: CycleHead)
        requires { place_of self.old depth ≡ Ok index }
        ensures { self.new ≡ replace_head self.old depth head }
    {
        self.heads.set(index, (depth, head));
    }

    /// Takes away usages that were counted for the head. Ports `CycleHeads::ignore_usages`.
    pub fn ignore_usages(&mut self, head: StackDepth, usages: HeadUsages)
        requires { IsSomeAnd (at_depth self.old head)
            (λ known. (kind : PathKind) → count_of usages kind ≤ count_of known.usages kind) }
        ensures { IfSome (at_depth self.old head)
            (λ known. self.new ≡ replace_head self.old head (record known { usages = without_usages known.usages usages })) }
    {
        let place = place_of(self.as_slice(), head);
        let mut known = at_place(self.as_slice(), head, place).unwrap();
        known.usages.ignore_usages(usages);
        self.set(place.unwrap(), head, known);
    }

    /// A law: the depths rise from each head to the next. Does nothing when it is run.
    pub fn are_rising(&self)
        ensures { IsRising self.now }
    {
        let _ = self.as_slice();
    }

    /// The heads by rising depth. Stands for `CycleHeads::iter`.
    pub fn as_slice(&self) -> &[(StackDepth, CycleHead)]
        ensures heads { result.now ≡ self.now }
        ensures rising { IsRising self.now }
    {
        self.heads.as_slice()
    }
}

/// A head that is recorded, or replaced, is found at its depth, and other depths keep what they have.
pub fn heads_are_found_by_depth()
    ensures recorded { (heads : Heads) (depth : StackDepth)
        (paths : PathsToNested) (usages : HeadUsages)
        → at_depth (with_head heads depth paths usages) depth ≡ Some (joined_head (at_depth heads depth) paths usages) }
    ensures others { (heads : Heads) (depth other : StackDepth)
        (paths : PathsToNested) (usages : HeadUsages)
        → other.0 ≢ depth.0 → at_depth (with_head heads depth paths usages) other ≡ at_depth heads other }
    ensures replaced { (heads : Heads) (depth : StackDepth) (head : CycleHead)
        → IsSome (at_depth heads depth) → at_depth (replace_head heads depth head) depth ≡ Some head }
    ensures not_replaced { (heads : Heads) (depth other : StackDepth) (head : CycleHead)
        → other.0 ≢ depth.0 → at_depth (replace_head heads depth head) other ≡ at_depth heads other }
{}
