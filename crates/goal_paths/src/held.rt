//! Goals in a box, which is made when the first one comes. They know of a goal only what tells it from others.
ghost use Rattle.std.specs.Prelude.{◌≡◌, [], length, false, IsTrue, None, IsSome, IsOk, OnOk, OnErr};
ghost use Rattle.std.specs.Option.{option_map};
ghost use Rattle.goal_paths.specs.Below.{extended};
ghost use Rattle.goal_paths.specs.Words.{after_step, held, paths_at, JoinsEach, JoinsPaths};
ghost use Rattle.heap_room.specs.Bytes.{CoversBytes};

use crate::noted_goals::NotedGoals;
use heap_room::bytes_for;
use path_kinds::memory::NoMemory;
use path_kinds::path::{PathKind, PathsToNested};
use std::alloc::Global;
use std::hash::Hash;
use std::mem;

/// How many goals there are.
pub fn len<I: Eq + Hash + Copy>(goals: &Option<Box<NotedGoals<I>>>) -> usize
    ensures { result ≡ length (held goals.now) }
{
    match goals {
        Some(goals) => goals.len(),
        None => 0,
    }
}

/// How many bytes of the heap the box and the goals in it hold.
pub fn held_bytes<I: Eq + Hash + Copy>(goals: &Option<Box<NotedGoals<I>>>) -> usize
    ensures { CoversBytes (length (held goals.now)) result }
{
    match goals {
        Some(goals) => bytes_for::<NotedGoals<I>>(1).saturating_add(goals.held_bytes()),
        None => 0,
    }
}

/// Joins paths to the goal, which becomes one of the goals. Only a new goal takes memory, and a refusal changes nothing.
pub fn insert<I: Eq + Hash + Copy>(
    goals: &mut Option<Box<NotedGoals<I>>>,
    alloc: Global,
    input: I,
    paths: PathsToNested,
) -> Result<(), NoMemory>
    ensures ok { OnOk result (JoinsPaths I.eq (held goals.old) (held goals.new) input paths) }
    ensures err { OnErr result (held goals.new ≡ held goals.old) }
    ensures known { IsSome (paths_at I.eq (held goals.old) input) → IsOk result }
{
    match goals {
        Some(goals) => goals.insert(input, paths),
        None => insert_first(goals, alloc, input, paths),
    }
}

/// Holds this goal alone, with these paths, instead of those so far. It stays out of `insert`, which seldom
/// makes a map and would be slower by the room that this takes.
#[inline(never)]
fn insert_first<I: Eq + Hash + Copy>(
    goals: &mut Option<Box<NotedGoals<I>>>,
    alloc: Global,
    input: I,
    paths: PathsToNested,
) -> Result<(), NoMemory>
    ensures ok { OnOk result (JoinsPaths I.eq [] (held goals.new) input paths) }
    ensures err { OnErr result (held goals.new ≡ held goals.old) }
{
    let mut first = NotedGoals::new(alloc);
    first.insert(input, paths)?;
    hold(goals, alloc, first)
}

/// Holds these goals instead of those so far.
fn hold<I: Eq + Hash + Copy>(
    goals: &mut Option<Box<NotedGoals<I>>>,
    alloc: Global,
    first: NotedGoals<I>,
) -> Result<(), NoMemory>
    ensures ok { OnOk result (held goals.new ≡ first) }
    ensures err { OnErr result (held goals.new ≡ held goals.old) }
{
    *goals = Some(Box::new(alloc, first)?);
    Ok(())
}

/// Joins each goal of others by its paths after the step, if there is one. Where there are no others it takes no memory.
#[inline(never)]
pub fn join_each<I: Eq + Hash + Copy>(
    goals: &mut Option<Box<NotedGoals<I>>>,
    alloc: Global,
    step: Option<PathKind>,
    more: &Option<Box<NotedGoals<I>>>,
) -> Result<(), NoMemory>
    ensures ok { OnOk result
        (JoinsEach I.eq (after_step step) (held goals.old) (held more.now) (held goals.new)) }
    ensures err { OnErr result (held goals.new ≡ held goals.old) }
    ensures none { held more.now ≡ [] → IsOk result }
{
    let more = match more {
        Some(more) if more.len() > 0 => more,
        _ => return Ok(()),
    };
    match goals {
        Some(goals) => goals.join_each(step, more),
        None => join_first(goals, alloc, step, more),
    }
}

/// The same where there were no goals so far.
fn join_first<I: Eq + Hash + Copy>(
    goals: &mut Option<Box<NotedGoals<I>>>,
    alloc: Global,
    step: Option<PathKind>,
    more: &NotedGoals<I>,
) -> Result<(), NoMemory>
    ensures ok { OnOk result (JoinsEach I.eq (after_step step) [] more.now (held goals.new)) }
    ensures err { OnErr result (held goals.new ≡ held goals.old) }
{
    let mut first = NotedGoals::new(alloc);
    first.join_each(step, more)?;
    hold(goals, alloc, first)
}

/// Joins the goals of a child as `join_each` does, where these are needed no more. It walks the smaller of the two maps;
/// what it leaves to the child is left open.
pub fn take_each<I: Eq + Hash + Copy>(
    goals: &mut Option<Box<NotedGoals<I>>>,
    alloc: Global,
    step: PathKind,
    nested: &mut Option<Box<NotedGoals<I>>>,
) -> Result<(), NoMemory>
    ensures ok { OnOk result
        (JoinsEach I.eq (λ paths. extended paths step) (held goals.old) (held nested.old) (held goals.new)) }
    ensures err { OnErr result (held goals.new ≡ held goals.old) }
    ensures none { held nested.old ≡ [] → IsOk result }
{
    if len(goals) < len(nested) && raise(nested, step) {
        join_each(nested, alloc, None, goals)?;
        mem::swap(goals, nested);
        return Ok(());
    }
    join_each(goals, alloc, Some(step), nested)
}

/// Extends the paths to each goal by the step, in one go. It may say that it can't, and changes nothing then.
fn raise<I: Eq + Hash + Copy>(goals: &mut Option<Box<NotedGoals<I>>>, step: PathKind) -> bool
    ensures raised { IsTrue result → (input : I) → paths_at I.eq (held goals.new) input
        ≡ option_map (λ paths. extended paths step) (paths_at I.eq (held goals.old) input) }
    ensures not { result ≡ false → held goals.new ≡ held goals.old }
{
    match goals {
        Some(goals) => goals.raise(step),
        None => true,
    }
}
