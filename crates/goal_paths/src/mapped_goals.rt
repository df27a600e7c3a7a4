//! A map of goals whose paths are extended together.
ghost use Rattle.std.specs.Prelude.{◌≡◌, ◌+◌, ◌^◌, ◌<◌, ◌≤◌, [], length, false, IsTrue, IsSome, IsOk, OnOk, OnErr};
ghost use Rattle.std.specs.Option.{option_map};
ghost use Rattle.std.specs.HashMap.{spare};
ghost use Rattle.std.specs.List.{IsDistinct};
ghost use Rattle.std.specs.Map.{keys_of};
ghost use Rattle.goal_paths.specs.Below.{extended};
ghost use Rattle.goal_paths.specs.Words.{after_step, paths_at, paths_noted, AreNoted, JoinsEach, JoinsPaths};
ghost use Rattle.heap_room.specs.Bytes.{CoversBytes};

use crate::noted_goals::NotedGoals;
use crate::raises::{NotedPaths, Raises};
use bitflags::Flags;
use heap_room::map_bytes;
use path_kinds::memory::NoMemory;
use path_kinds::path::{PathKind, PathsToNested};
use std::alloc::Global;
use std::collections::{HashMap, hash_map};
use std::hash::Hash;
use std::marker::Model;

/// Goals with the paths to each. All paths are extended by a step in one go, which is noted beside the map.
#[derive(Drop)]
pub(super) struct MappedGoals<I: Eq + Hash + Copy> {
    noted: HashMap<I, NotedPaths>,
    raises: Raises,
    /// The goal to which the path of no step was joined last, as long as that was not extended. It is most often
    /// joined to the same goal again, which then needs no look-up.
    own: Option<I>,
}

/// The goals that are still to come, and the raises that tell the paths to them.
#[derive(Drop)]
pub(super) struct Left<'a, I: Copy> {
    pub(super) noted: hash_map::Iter<'a, I, NotedPaths>,
    pub(super) raises: Raises,
}

impl<I: Eq + Hash + Copy> Model for MappedGoals<I> {
    ghost use Rattle.goal_paths.specs.Nested.{HasOwn, NestedPaths};
    ghost use Rattle.goal_paths.specs.Raises.{paths_noted, AreNoted};

    ghost Value = { NestedPaths I };

    ghost view = { λ g. paths_noted g.raises g.noted.entries };

    ghost invariant = { λ g. AreNoted I.eq g.raises g.noted.entries
        × HasOwn I.eq (paths_noted g.raises g.noted.entries) g.own };
}

impl<I: Eq + Hash + Copy> MappedGoals<I> {
    /// No goals.
    pub(super) fn new(alloc: Global) -> MappedGoals<I>
        ensures { result ≡ [] }
    {
        MappedGoals {
            noted: HashMap::new(alloc),
            raises: Raises::new(),
            own: None,
        }
    }

    /// How many goals there are.
    pub(super) fn len(&self) -> usize
        ensures { result ≡ length self.now }
    {
        self.noted.len()
    }

    /// How many bytes of the heap the map holds.
    pub(super) fn held_bytes(&self) -> usize
        ensures { CoversBytes (length self.now) result }
    {
        map_bytes(&self.noted)
    }

    /// The paths to the goal, where it is there.
    pub(super) fn get(&self, input: I) -> Option<PathsToNested>
        ensures { result ≡ paths_at I.eq self.now input }
    {
        let noted = self.noted.get(&input)?;
        Some(self.raises.paths_now(*noted))
    }

    /// Joins paths to the goal, which becomes one of the goals. Only a new goal takes memory, and a
    /// refusal changes nothing. It stays out of `NotedGoals::insert`, which most often finds the goal
    /// in a list and would be slower by the room that this takes.
    #[inline(never)]
    pub(super) fn insert(&mut self, input: I, paths: PathsToNested) -> Result<(), NoMemory>
        ensures ok { OnOk result (JoinsPaths I.eq self.old self.new input paths) }
        ensures err { OnErr result (self.new ≡ self.old) }
        ensures known { IsSome (paths_at I.eq self.old input) → IsOk result }
    {
        if paths == PathsToNested::EMPTY && self.own == Some(input) {
            return Ok(());
        }
        join_paths(&mut self.noted, &self.raises, input, paths)?;
        if paths == PathsToNested::EMPTY {
            self.own = Some(input);
        }
        Ok(())
    }

    /// Extends the paths to each goal by the step, in one go. It may say that it can't, and changes nothing then.
    pub(super) fn raise(&mut self, step: PathKind) -> bool
        ensures raised { IsTrue result → (input : I) → paths_at I.eq self.new input
            ≡ option_map (λ paths. extended paths step) (paths_at I.eq self.old input) }
        ensures not { result ≡ false → self.new ≡ self.old }
    {
        let Some(raises) = self.raises.with_step(step) else {
            return false;
        };
        self.raises = raises;
        self.own = None;
        true
    }

    /// Joins each goal of another map by its paths after the step, if there is one.
    pub(super) fn join_each(
        &mut self,
        step: Option<PathKind>,
        more: &NotedGoals<I>,
    ) -> Result<(), NoMemory>
        ensures ok { OnOk result
            (JoinsEach I.eq (after_step step) self.old more.now self.new) }
        ensures err { OnErr result (self.new ≡ self.old) }
        ensures none { more.now ≡ [] → IsOk result }
    {
        join_all(&mut self.noted, &self.raises, step, more)?;
        Ok(())
    }

    /// The goals with the paths to them, in an order that is left open.
    pub(super) fn iter(&self) -> Left<'_, I>
        ensures goals { paths_noted result.raises result.noted ≡ self.now }
        ensures distinct { IsDistinct I.eq (keys_of self.now) }
        ensures fits { length self.now < 2 ^ 63 }
    {
        Left {
            noted: self.noted.iter(),
            raises: self.raises,
        }
    }
}

/// The paths after a step, if there is one.
pub(super) fn after_step(step: Option<PathKind>, paths: PathsToNested) -> PathsToNested
    ensures { result ≡ after_step step paths }
{
    match step {
        Some(step) => paths.extend_with(step),
        None => paths,
    }
}

/// Joins each goal of others by its paths after the step, if there is one.
fn join_all<I: Eq + Hash + Copy>(
    goals: &mut HashMap<I, NotedPaths>,
    raises: &Raises,
    step: Option<PathKind>,
    more: &NotedGoals<I>,
) -> Result<(), NoMemory>
    requires { AreNoted I.eq raises.now goals.old.entries }
    ensures ok { OnOk result (JoinsEach I.eq (after_step step)
        (paths_noted raises.now goals.old.entries) more.now
        (paths_noted raises.now goals.new.entries)) }
    ensures noted { AreNoted I.eq raises.now goals.new.entries }
    ensures err { OnErr result (goals.new.entries ≡ goals.old.entries) }
    ensures none { more.now ≡ [] → IsOk result }
{
    goals.reserve(more.len())?;
    for (input, paths) in more.iter() {
        // There is room for each of them.
        join_paths(goals, raises, input, after_step(step, paths))?;
    }
    Ok(())
}

/// Joins paths to a goal. Where there is room for one more, it isn't refused.
fn join_paths<I: Eq + Hash + Copy>(
    goals: &mut HashMap<I, NotedPaths>,
    raises: &Raises,
    input: I,
    paths: PathsToNested,
) -> Result<(), NoMemory>
    requires { AreNoted I.eq raises.now goals.old.entries }
    ensures ok { OnOk result (JoinsPaths I.eq (paths_noted raises.now goals.old.entries)
        (paths_noted raises.now goals.new.entries) input paths) }
    ensures noted { AreNoted I.eq raises.now goals.new.entries }
    ensures err { OnErr result (goals.new.entries ≡ goals.old.entries) }
    ensures known { IsSome (paths_at I.eq (paths_noted raises.now goals.old.entries) input) →
        IsOk result }
    ensures room { 0 < spare goals.old → IsOk result }
    ensures left { spare goals.old ≤ spare goals.new + 1 }
{
    if let Some(known) = goals.get_mut(&input) {
        *known = raises.note(raises.paths_now(*known).union(paths));
        return Ok(());
    }
    goals.insert(input, raises.note(paths))?;
    Ok(())
}
