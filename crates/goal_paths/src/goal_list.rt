//! A list of goals with the paths to each.
ghost use Rattle.std.specs.Prelude.{◌≡◌, ◌+◌, ◌-◌, ◌^◌, ◌<◌, ◌≤◌, [], length, map, vec_len, vec_capacity, false, IsTrue, None, IfOk, OnOk, OnErr};
ghost use Rattle.std.specs.List.{IsDistinct, position};
ghost use Rattle.std.specs.Map.{keys_of};
ghost use Rattle.std.specs.Option.{option_map};
ghost use Rattle.std.specs.Slice.Iter.{iter_rest};
ghost use Rattle.goal_paths.specs.Below.{extended};
ghost use Rattle.goal_paths.specs.Words.{after_step, paths_at, JoinsEach, JoinsPaths};
ghost use Rattle.heap_room.specs.Bytes.{CoversBytes};

use crate::mapped_goals::after_step;
use crate::noted_goals::{Iter, NotedGoals};
use bitflags::Flags;
use heap_room::list_bytes;
use path_kinds::memory::NoMemory;
use path_kinds::path::{PathKind, PathsToNested};
use std::alloc::Global;
use std::hash::Hash;
use std::marker::Model;
use std::slice;

/// Goals with the paths to each, which are looked at one after the other.
#[derive(Drop)]
pub(super) struct GoalList<I: Eq + Hash + Copy> {
    goals: Vec<(I, PathsToNested)>,
}

impl<I: Eq + Hash + Copy> Model for GoalList<I> {
    ghost use Rattle.std.specs.List.{IsDistinct};
    ghost use Rattle.std.specs.Map.{keys_of};
    ghost use Rattle.goal_paths.specs.Nested.{NestedPaths};

    ghost Value = { NestedPaths I };

    ghost view = { λ g. g.goals.items };

    ghost invariant = { λ g. IsDistinct I.eq (keys_of g.goals.items) };
}

impl<I: Eq + Hash + Copy> GoalList<I> {
    /// No goals.
    pub(super) fn new(alloc: Global) -> GoalList<I>
        ensures { result ≡ [] }
    {
        GoalList {
            goals: Vec::new(alloc),
        }
    }

    /// The same goals, with no room for more.
    pub(super) fn without_room(
        alloc: Global,
        goals: &NotedGoals<I>,
    ) -> Result<GoalList<I>, NoMemory>
        ensures { IfOk result (λ list. list ≡ goals.now) }
    {
        let goals = listed(alloc, goals.len(), goals.iter())?;
        Ok(GoalList { goals })
    }

    /// How many goals there are.
    pub(super) fn len(&self) -> usize
        ensures { result ≡ length self.now }
    {
        self.goals.len()
    }

    /// How many bytes of the heap the list holds.
    pub(super) fn held_bytes(&self) -> usize
        ensures { CoversBytes (length self.now) result }
    {
        list_bytes(&self.goals)
    }

    /// The paths to the goal, where it is there.
    pub(super) fn get(&self, input: I) -> Option<PathsToNested>
        ensures { result ≡ paths_at I.eq self.now input }
    {
        let place = place_of(self.goals.as_slice(), input)?;
        Some(self.goals[place].1)
    }

    /// Joins paths to the goal, where it is there. The answer is whether it is.
    pub(super) fn join_known(&mut self, input: I, paths: PathsToNested) -> bool
        ensures known { IsTrue result → JoinsPaths I.eq self.old self.new input paths }
        ensures not { result ≡ false → self.new ≡ self.old }
        ensures absent { result ≡ false → paths_at I.eq self.old input ≡ None }
    {
        join_known(&mut self.goals, input, paths)
    }

    /// Puts in a goal that isn't there, with the paths to it. A refusal changes nothing.
    pub(super) fn push(&mut self, input: I, paths: PathsToNested) -> Result<(), NoMemory>
        requires { paths_at I.eq self.old input ≡ None }
        ensures ok { OnOk result (JoinsPaths I.eq self.old self.new input paths) }
        ensures err { OnErr result (self.new ≡ self.old) }
    {
        self.goals.push((input, paths))?;
        Ok(())
    }

    /// Extends the paths to each goal by the step.
    pub(super) fn raise(&mut self, step: PathKind)
        ensures { (input : I) → paths_at I.eq self.new input
            ≡ option_map (λ paths. extended paths step) (paths_at I.eq self.old input) }
    {
        raise_each(self.goals.as_mut_slice(), step);
    }

    /// Joins each goal of others by its paths after the step, if there is one.
    pub(super) fn join_each(
        &mut self,
        step: Option<PathKind>,
        more: &NotedGoals<I>,
    ) -> Result<(), NoMemory>
        ensures ok { OnOk result
            (JoinsEach I.eq (after_step step) self.old more.now self.new) }
        ensures err { OnErr result (self.new ≡ self.old) }
    {
        join_all(&mut self.goals, step, more)
    }

    /// The goals with the paths to them, in an order that is left open.
    pub(super) fn iter(&self) -> slice::Iter<'_, (I, PathsToNested)>
        ensures goals { iter_rest result ≡ self.now }
        ensures distinct { IsDistinct I.eq (keys_of self.now) }
        ensures fits { length self.now < 2 ^ 63 }
    {
        self.goals.iter()
    }
}

/// A list of so many goals, with no room for more.
fn listed<I: Copy>(
    alloc: Global,
    count: usize,
    goals: Iter<'_, I>,
) -> Result<Vec<(I, PathsToNested)>, NoMemory>
    requires count { count ≡ length goals }
    ensures { IfOk result (λ list. list.items ≡ goals.entry) }
{
    let mut list = Vec::with_capacity(alloc, count)?;
    for goal in goals {
        list.push_reserved(goal);
    }
    Ok(list)
}

/// Extends the paths to each goal by the step.
fn raise_each<I>(goals: &mut [(I, PathsToNested)], step: PathKind)
    ensures { goals.new ≡ map (λ goal. (goal.0, extended goal.1 step)) goals.old }
{
    for goal in goals.iter_mut() {
        goal.1 = goal.1.extend_with(step);
    }
}

/// Where the goal stands, if it is there.
fn place_of<I: Eq + Copy>(goals: &[(I, PathsToNested)], input: I) -> Option<usize>
    ensures { result ≡ position (λ goal. I.eq input goal.0) goals.now }
{
    goals.iter().position(|goal| input == goal.0)
}

/// Joins each goal of others by its paths after the step, if there is one.
fn join_all<I: Eq + Hash + Copy>(
    goals: &mut Vec<(I, PathsToNested)>,
    step: Option<PathKind>,
    more: &NotedGoals<I>,
) -> Result<(), NoMemory>
    requires { IsDistinct I.eq (keys_of goals.old.items) }
    ensures ok { OnOk result
        (JoinsEach I.eq (after_step step) goals.old.items more.now goals.new.items) }
    ensures distinct { IsDistinct I.eq (keys_of goals.new.items) }
    ensures err { OnErr result (goals.new.items ≡ goals.old.items) }
{
    goals.reserve(more.len())?;
    for (input, paths) in more.iter() {
        // There is room for each of them.
        join_listed(goals, input, after_step(step, paths));
    }
    Ok(())
}

/// Joins paths to a goal where there is room for one more.
#[inline(never)]
fn join_listed<I: Eq + Copy>(goals: &mut Vec<(I, PathsToNested)>, input: I, paths: PathsToNested)
    requires distinct { IsDistinct I.eq (keys_of goals.old.items) }
    requires room { vec_len goals.old < vec_capacity goals.old }
    ensures joins { JoinsPaths I.eq goals.old.items goals.new.items input paths }
    ensures distinct { IsDistinct I.eq (keys_of goals.new.items) }
    ensures left { vec_capacity goals.old - vec_len goals.old
        ≤ (vec_capacity goals.new - vec_len goals.new) + 1 }
{
    if join_known(goals, input, paths) {
        return;
    }
    goals.push_reserved((input, paths));
}

/// Joins paths to a goal, where it is there. The answer is whether it is.
fn join_known<I: Eq + Copy>(
    goals: &mut Vec<(I, PathsToNested)>,
    input: I,
    paths: PathsToNested,
) -> bool
    ensures known { IsTrue result → JoinsPaths I.eq goals.old.items goals.new.items input paths }
    ensures keys { keys_of goals.new.items ≡ keys_of goals.old.items }
    ensures not { result ≡ false → goals.new ≡ goals.old }
    ensures absent { result ≡ false → paths_at I.eq goals.old.items input ≡ None }
    ensures len { vec_len goals.new ≡ vec_len goals.old }
    ensures capacity { vec_capacity goals.new ≡ vec_capacity goals.old }
{
    let Some(place) = place_of(goals.as_slice(), input) else {
        return false;
    };
    let known = &mut goals[place];
    known.1 = known.1.union(paths);
    true
}
