//! Goals with the paths to each: in a list while they are few, and then in a map.
ghost use Rattle.std.specs.Prelude.{◌≡◌, ◌^◌, ◌<◌, [], length, false, IsTrue, None, IsSome, IsOk, IfOk, OnOk, OnErr};
ghost use Rattle.std.specs.Option.{option_map};
ghost use Rattle.std.specs.List.{IsDistinct};
ghost use Rattle.std.specs.Map.{keys_of};
ghost use Rattle.goal_paths.specs.Below.{extended};
ghost use Rattle.goal_paths.specs.Words.{after_step, paths_at, JoinsEach, JoinsPaths};
ghost use Rattle.heap_room.specs.Bytes.{CoversBytes};

use crate::goal_list::GoalList;
use crate::mapped_goals::{self, MappedGoals};
use heap_room::bytes_for;
use path_kinds::memory::NoMemory;
use path_kinds::path::{PathKind, PathsToNested};
use std::alloc::Global;
use std::hash::Hash;
use std::marker::Model;
use std::slice;

/// How many goals may stand in a list that grows. So many are compared about as fast as one is found by its hash.
const MOST_LISTED: usize = 16;

/// Goals with the paths to each.
#[derive(Drop)]
pub struct NotedGoals<I: Eq + Hash + Copy> {
    goals: Goals<I>,
    alloc: Global,
}

/// Where the goals are. What is read alone, as a stored result is, stands in a list however many they are.
#[derive(Drop)]
enum Goals<I: Eq + Hash + Copy> {
    Few(GoalList<I>),
    Many(Box<MappedGoals<I>>),
}

impl<I: Eq + Hash + Copy> Model for NotedGoals<I> {
    ghost use Rattle.goal_paths.specs.Nested.{NestedPaths};

    ghost Value = { NestedPaths I };

    ghost use Rattle.goal_paths.specs.Kept.{goals_of};

    ghost view = { λ g. goals_of g.goals };
}

impl<I: Eq + Hash + Copy> NotedGoals<I> {
    /// No goals.
    pub fn new(alloc: Global) -> NotedGoals<I>
        ensures { result ≡ [] }
    {
        NotedGoals {
            goals: Goals::Few(GoalList::new(alloc)),
            alloc,
        }
    }

    /// How many goals there are.
    pub fn len(&self) -> usize
        ensures { result ≡ length self.now }
    {
        match &self.goals {
            Goals::Few(goals) => goals.len(),
            Goals::Many(goals) => goals.len(),
        }
    }

    /// How many bytes of the heap the goals hold.
    pub fn held_bytes(&self) -> usize
        ensures { CoversBytes (length self.now) result }
    {
        match &self.goals {
            Goals::Few(goals) => goals.held_bytes(),
            Goals::Many(goals) => {
                bytes_for::<MappedGoals<I>>(1).saturating_add(goals.held_bytes())
            }
        }
    }

    /// The paths to the goal, where it is there.
    pub fn get(&self, input: I) -> Option<PathsToNested>
        ensures { result ≡ paths_at I.eq self.now input }
    {
        match &self.goals {
            Goals::Few(goals) => goals.get(input),
            Goals::Many(goals) => goals.get(input),
        }
    }

    /// Joins paths to the goal, which becomes one of the goals. Only a new goal takes memory, and a
    /// refusal changes nothing.
    pub fn insert(&mut self, input: I, paths: PathsToNested) -> Result<(), NoMemory>
        ensures ok { OnOk result (JoinsPaths I.eq self.old self.new input paths) }
        ensures err { OnErr result (self.new ≡ self.old) }
        ensures known { IsSome (paths_at I.eq self.old input) → IsOk result }
    {
        match &mut self.goals {
            Goals::Many(goals) => goals.insert(input, paths),
            Goals::Few(goals) => {
                if goals.join_known(input, paths) {
                    return Ok(());
                }
                self.insert_new(input, paths)
            }
        }
    }

    /// Puts in a goal that is new. It stays out of `insert`, which most often finds the goal in the list.
    #[inline(never)]
    fn insert_new(&mut self, input: I, paths: PathsToNested) -> Result<(), NoMemory>
        requires { paths_at I.eq self.old input ≡ None }
        ensures ok { OnOk result (JoinsPaths I.eq self.old self.new input paths) }
        ensures err { OnErr result (self.new ≡ self.old) }
    {
        match &mut self.goals {
            Goals::Few(goals) if goals.len() < MOST_LISTED => goals.push(input, paths),
            _ => self.insert_past_list(input, paths),
        }
    }

    /// Puts a goal that is new into a map with those so far.
    #[inline(never)]
    fn insert_past_list(&mut self, input: I, paths: PathsToNested) -> Result<(), NoMemory>
        ensures ok { OnOk result (JoinsPaths I.eq self.old self.new input paths) }
        ensures err { OnErr result (self.new ≡ self.old) }
    {
        let mut goals = self.mapped()?;
        goals.insert(input, paths)?;
        self.hold(goals)
    }

    /// A map of these goals.
    fn mapped(&self) -> Result<MappedGoals<I>, NoMemory>
        ensures { IfOk result (λ goals. (input : I) → paths_at I.eq goals input
            ≡ paths_at I.eq self.now input) }
    {
        let mut goals = MappedGoals::new(self.alloc);
        goals.join_each(None, self)?;
        Ok(goals)
    }

    /// Holds these goals instead of those so far.
    fn hold(&mut self, goals: MappedGoals<I>) -> Result<(), NoMemory>
        ensures ok { OnOk result (self.new ≡ goals) }
        ensures err { OnErr result (self.new ≡ self.old) }
    {
        self.goals = Goals::Many(Box::new(self.alloc, goals)?);
        Ok(())
    }

    /// Extends the paths to each goal by the step. It may say that it can't, and changes nothing then.
    pub fn raise(&mut self, step: PathKind) -> bool
        ensures raised { IsTrue result → (input : I) → paths_at I.eq self.new input
            ≡ option_map (λ paths. extended paths step) (paths_at I.eq self.old input) }
        ensures not { result ≡ false → self.new ≡ self.old }
    {
        match &mut self.goals {
            Goals::Many(goals) => goals.raise(step),
            Goals::Few(goals) => {
                goals.raise(step);
                true
            }
        }
    }

    /// Joins each goal of others by its paths after the step, if there is one.
    pub fn join_each(
        &mut self,
        step: Option<PathKind>,
        more: &NotedGoals<I>,
    ) -> Result<(), NoMemory>
        ensures ok { OnOk result
            (JoinsEach I.eq (after_step step) self.old more.now self.new) }
        ensures err { OnErr result (self.new ≡ self.old) }
    {
        match &mut self.goals {
            Goals::Many(goals) => goals.join_each(step, more),
            Goals::Few(goals) => {
                if more.len() > MOST_LISTED.saturating_sub(goals.len()) {
                    return self.join_past_list(step, more);
                }
                goals.join_each(step, more)
            }
        }
    }

    /// The same into a map.
    fn join_past_list(
        &mut self,
        step: Option<PathKind>,
        more: &NotedGoals<I>,
    ) -> Result<(), NoMemory>
        ensures ok { OnOk result
            (JoinsEach I.eq (after_step step) self.old more.now self.new) }
        ensures err { OnErr result (self.new ≡ self.old) }
    {
        let mut goals = self.mapped()?;
        goals.join_each(step, more)?;
        self.hold(goals)
    }

    /// Gives back the memory that is needed only where goals are added. Where a list can't be had, nothing changes.
    pub fn shrink(&mut self)
        ensures { self.new ≡ self.old }
    {
        if let Goals::Few(_) = &self.goals {
            return;
        }
        if let Ok(goals) = GoalList::without_room(self.alloc, self) {
            self.goals = Goals::Few(goals);
        }
    }

    /// The goals with the paths to them, in an order that is left open.
    pub fn iter(&self) -> Iter<'_, I>
        ensures goals { result ≡ self.now }
        ensures distinct { IsDistinct I.eq (keys_of self.now) }
        ensures fits { length self.now < 2 ^ 63 }
    {
        let left = match &self.goals {
            Goals::Few(goals) => GoalsLeft::Few(goals.iter()),
            Goals::Many(goals) => GoalsLeft::Many(goals.iter()),
        };
        Iter { left }
    }
}

/// The goals with the paths to each.
#[derive(Drop)]
pub struct Iter<'a, I: Copy> {
    left: GoalsLeft<'a, I>,
}

/// Those that are still to come.
#[derive(Drop)]
enum GoalsLeft<'a, I: Copy> {
    Few(slice::Iter<'a, (I, PathsToNested)>),
    Many(mapped_goals::Left<'a, I>),
}

impl<'a, I: Copy> Model for Iter<'a, I> {
    ghost use Rattle.goal_paths.specs.Nested.{NestedPaths};

    ghost Value = { NestedPaths I };

    ghost use Rattle.goal_paths.specs.Kept.{goals_left};

    ghost view = { λ s. goals_left s.left };
}

impl<'a, I: Copy> Iterator for Iter<'a, I> {
    ghost use Rattle.std.specs.Iterator.{YieldsFirst, item_count};

    type Item = (I, PathsToNested);

    ghost next_gives = { YieldsFirst (λ goals. goals) };

    ghost remaining = { item_count (λ goals. goals) };

    fn next(&mut self) -> Option<(I, PathsToNested)> {
        match &mut self.left {
            GoalsLeft::Few(goals) => Some(*goals.next()?),
            GoalsLeft::Many(goals) => {
                let (input, noted) = goals.noted.next()?;
                Some((*input, goals.raises.paths_now(*noted)))
            }
        }
    }
}
