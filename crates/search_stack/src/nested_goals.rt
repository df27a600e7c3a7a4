//! The goals that were asked below a goal.
ghost use Rattle.std.specs.Prelude.{◌≡◌, ◌↔◌, ◌^◌, ◌<◌, [], length, IsTrue, IsSome, is_some, IsOk, OnOk, OnErr};
ghost use Rattle.std.specs.List.{IsDistinct};
ghost use Rattle.std.specs.Map.{keys_of};
ghost use Rattle.search_stack.specs.Below.{extended};
ghost use Rattle.goal_paths.specs.Words.{paths_at, JoinsEach, JoinsPaths};
ghost use Rattle.heap_room.specs.Bytes.{CoversBytes};

use goal_paths::held;
use goal_paths::noted_goals::{self, NotedGoals};
use path_kinds::path::{PathKind, PathsToNested};
use search_context::context::NoMemory;
use std::alloc::Global;
use std::hash::Hash;
use std::marker::Model;

/// The nested goals of a goal, with the paths to each. Ports `NestedGoals`.
///
/// A stored result is not used where one of them is on the stack, or has a provisional entry that could be
/// used: the goal, worked out there, would close a cycle that it did not close before, and so may come to
/// another result. Goals are added only once there was a cycle or a refused question. That spares the others
/// the map, which is made when the first goal comes.
///
/// Where a goal gives its nested goals to the one that asked it, only the smaller map of the two is walked, and a
/// cycle of n goals moves at most n times the logarithm of n of them, and not the square of n.
#[derive(Drop)]
pub struct NestedGoals<I: Eq + Hash + Copy> {
    goals: Option<Box<NotedGoals<I>>>,
    alloc: Global,
}

impl<I: Eq + Hash + Copy> Model for NestedGoals<I> {
    ghost use Rattle.goal_paths.specs.Nested.{NestedPaths, held};

    ghost Value = { NestedPaths I };

    ghost view = { λ g. held g.goals };
}

impl<I: Eq + Hash + Copy> NestedGoals<I> {
    /// No goals.
    pub fn new(alloc: Global) -> NestedGoals<I>
        ensures { result ≡ [] }
    {
        NestedGoals { goals: None, alloc }
    }

    /// Whether there are no goals. Ports `NestedGoals::is_empty`.
    pub fn is_empty(&self) -> bool
        ensures { IsTrue result ↔ (self.now ≡ []) }
    {
        self.len() == 0
    }

    /// How many goals there are.
    pub fn len(&self) -> usize
        ensures { result ≡ length self.now }
    {
        held::len(&self.goals)
    }

    /// How many bytes of the heap the goals hold.
    pub fn held_bytes(&self) -> usize
        ensures { CoversBytes (length self.now) result }
    {
        held::held_bytes(&self.goals)
    }

    /// Whether the goal is there. Ports `NestedGoals::contains`.
    pub fn contains(&self, input: I) -> bool
        ensures { result ≡ is_some (paths_at I.eq self.now input) }
    {
        self.get(input).is_some()
    }

    /// The paths to the goal, where it is there.
    pub fn get(&self, input: I) -> Option<PathsToNested>
        ensures { result ≡ paths_at I.eq self.now input }
    {
        match &self.goals {
            Some(goals) => goals.get(input),
            None => None,
        }
    }

    /// Joins paths to the goal, which becomes one of the goals. Only a new goal takes memory, and a
    /// refusal changes nothing. Ports `NestedGoals::insert`.
    pub fn insert(&mut self, input: I, paths: PathsToNested) -> Result<(), NoMemory>
        ensures ok { OnOk result (JoinsPaths I.eq self.old self.new input paths) }
        ensures err { OnErr result (self.new ≡ self.old) }
        ensures known { IsSome (paths_at I.eq self.old input) → IsOk result }
    {
        held::insert(&mut self.goals, self.alloc, input, paths)
    }

    /// Joins the goals of a child that was asked over the step: each path to one of them is that of
    /// the child after the step. A child without goals takes no memory, and a refusal changes nothing.
    /// Ports `NestedGoals::extend_from_child`.
    pub fn extend_from_child(
        &mut self,
        step: PathKind,
        nested: &NestedGoals<I>,
    ) -> Result<(), NoMemory>
        ensures ok { OnOk result (JoinsEach I.eq (λ paths. extended paths step) self.old
            nested.now self.new) }
        ensures err { OnErr result (self.new ≡ self.old) }
        ensures none { nested.now ≡ [] → IsOk result }
    {
        held::join_each(&mut self.goals, self.alloc, Some(step), &nested.goals)
    }

    /// The same where the child's goals are needed no more. It walks the smaller of the two maps; what it leaves to
    /// the child is left open.
    pub fn take_from_child(
        &mut self,
        step: PathKind,
        nested: &mut NestedGoals<I>,
    ) -> Result<(), NoMemory>
        ensures ok { OnOk result (JoinsEach I.eq (λ paths. extended paths step) self.old
            nested.old self.new) }
        ensures err { OnErr result (self.new ≡ self.old) }
        ensures none { nested.old ≡ [] → IsOk result }
    {
        held::take_each(&mut self.goals, self.alloc, step, &mut nested.goals)
    }

    /// Gives back the memory that is needed only where goals are added.
    pub(super) fn shrink(&mut self)
        ensures { self.new ≡ self.old }
    {
        if let Some(goals) = &mut self.goals {
            goals.shrink();
        }
    }

    /// The goals with the paths to them, in an order that is left open. Ports `NestedGoals::iter`.
    pub fn iter(&self) -> Iter<'_, I>
        ensures goals { result ≡ self.now }
        ensures distinct { IsDistinct I.eq (keys_of self.now) }
        ensures fits { length self.now < 2 ^ 63 }
    {
        let goals = match &self.goals {
            Some(goals) => Some(goals.iter()),
            None => None,
        };
        Iter { goals }
    }
}

/// The goals of a map, with the paths to each.
#[derive(Drop)]
pub struct Iter<'a, I: Copy> {
    goals: Option<noted_goals::Iter<'a, I>>,
}

impl<'a, I: Copy> Model for Iter<'a, I> {
    ghost use Rattle.goal_paths.specs.Nested.{NestedPaths, goals_in};

    ghost Value = { NestedPaths I };

    ghost view = { λ s. goals_in s.goals };
}

impl<'a, I: Copy> Iterator for Iter<'a, I> {
    ghost use Rattle.std.specs.Iterator.{YieldsFirst, item_count};

    type Item = (I, PathsToNested);

    ghost next_gives = { YieldsFirst (λ goals. goals) };

    ghost remaining = { item_count (λ goals. goals) };

    fn next(&mut self) -> Option<(I, PathsToNested)> {
        match &mut self.goals {
            Some(goals) => goals.next(),
            None => None,
        }
    }
}
