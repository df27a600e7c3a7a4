//! Rows that change: which goals that concerns.
ghost use Rattle.std.specs.Prelude.{◌≡◌, ◌<◌, ◌≤◌, ◌^◌, ◌↔◌, ℕ, IfOk, IsTrue, OnOk, length};
ghost use Rattle.std.specs.HashSet.{contains};
ghost use Rattle.rule_arrays.specs.Changes.{IsChanged, IsConcerned};
ghost use Rattle.rule_arrays.specs.Compared.{table_in};
ghost use Rattle.rule_arrays.specs.Found.{AreListed, FindsAskers, IsFound};

mod askers;
mod compared;
mod found;

use crate::changes::askers::Askers;
use crate::changes::compared::is_changed;
use crate::changes::found::Found;
use crate::rows::{Arrays, LendsArrays};
use search_context::context::NoMemory;
use std::alloc::Global;
use std::collections::HashSet;

/// As many goals as numbers can name.
const MOST: usize = 1 << 32;

/// The goals that other rows concern: whose candidates are others by the new rows than by the old ones, or that can reach such
/// a goal by questions. What is known of all others is as right by the new rows as by the old ones.
///
/// Candidates are compared by their marks and questions, in order, wherever their rows stand. A goal that one of the tables has
/// not has no candidates there. The time is linear in the goals of both tables and in their candidates and questions, of which
/// those that goals share count for each. `NoMemory` where a growth was refused, or 32 bits are too few to count the goals, or
/// what they ask.
pub fn concerned<O: LendsArrays, N: LendsArrays>(
    alloc: Global,
    old: O,
    new: N,
) -> Result<HashSet<u32>, NoMemory>
    ensures { IfOk result (λ concerned. (goal : ℕ) →
        IsTrue (contains ⟦<u32 as PartialEq>⟧.eq concerned goal)
        ↔ IsConcerned (O.table_of old) (N.table_of new) goal) }
{
    Ok(found_from(alloc, lent(&old), lent(&new))?.into_goals())
}

// What it lends.
fn lent<L: LendsArrays>(lender: &L) -> Arrays<'_>
    ensures { table_in result ≡ L.table_of lender.now }
{
    Arrays {
        goals: lender.goals(),
        candidates: lender.candidates(),
        questions: lender.questions(),
    }
}

// The goals that changed, and all that reach one.
fn found_from(alloc: Global, old: Arrays<'_>, new: Arrays<'_>) -> Result<Found, NoMemory>
    ensures listed { IfOk result AreListed }
    ensures found { IfOk result (λ found. (goal : ℕ) →
        IsFound found goal ↔ IsConcerned (table_in old.entry) (table_in new.entry) goal) }
{
    let count = goals_in(old, new)?;
    let mut found = changed_goals(alloc, old, new, count)?;
    if !found.is_empty() {
        find_askers(alloc, new, count, &mut found)?;
    }
    Ok(found)
}

// Finds all that can reach one of the goals that are found. Who asks a goal mostly stands near it or before it. So first goals
// further on are left out, of which nobody wants to know who asks them if none is found.
fn find_askers(
    alloc: Global,
    rows: Arrays<'_>,
    count: usize,
    found: &mut Found,
) -> Result<(), NoMemory>
    requires listed { AreListed found.old }
    requires few { count ≤ 2 ^ 32 }
    requires enough { length rows.goals.now ≤ count }
    ensures { OnOk result (FindsAskers (table_in rows.entry) count found.old found.new) }
{
    let near = near(found.last(), count);
    find_askers_of(alloc, rows, count, near, found)?;
    if (found.last() as usize) < near {
        return Ok(());
    }
    find_askers_of(alloc, rows, count, count, found)?;
    Ok(())
}

// So many of the goals are the first ones up to twice as far as this one, and an eighth of all.
fn near(goal: u32, count: usize) -> usize
    ensures { result ≤ count }
{
    (goal as usize * 2 + count / 8).min(count)
}

// Finds all of so many goals that can reach one of these goals by such as are among the first.
fn find_askers_of(
    alloc: Global,
    rows: Arrays<'_>,
    count: usize,
    first: usize,
    found: &mut Found,
) -> Result<(), NoMemory>
    requires listed { AreListed found.old }
    requires few { count ≤ 2 ^ 32 }
    requires enough { length rows.goals.now ≤ count }
    ensures { OnOk result (FindsAskers (table_in rows.entry) first found.old found.new) }
{
    let askers = Askers::new(alloc, rows, count, first)?;
    found.follow_all(&askers)?;
    Ok(())
}

// How many goals there are in the longer of both lists, if 32 bits are enough to count them.
fn goals_in(old: Arrays<'_>, new: Arrays<'_>) -> Result<usize, NoMemory>
    ensures old { IfOk result (λ count. length old.entry.goals.now ≤ count) }
    ensures new { IfOk result (λ count. length new.entry.goals.now ≤ count) }
    ensures few { IfOk result (λ count. count ≤ 2 ^ 32) }
{
    let count = old.goals.len().max(new.goals.len());
    if count > MOST {
        return Err(NoMemory);
    }
    Ok(count)
}

// Those of the first so many goals that changed.
fn changed_goals(
    alloc: Global,
    old: Arrays<'_>,
    new: Arrays<'_>,
    count: usize,
) -> Result<Found, NoMemory>
    requires few { count ≤ 2 ^ 32 }
    ensures listed { IfOk result AreListed }
    ensures found { IfOk result (λ found. (goal : ℕ) →
        IsFound found goal ↔ ((goal < count) × IsChanged (table_in old.entry) (table_in new.entry) goal)) }
{
    let mut found = Found::new(alloc);
    for place in 0..count {
        let goal = place as u32;
        if is_changed(old, new, goal) {
            found.note(goal)?;
        }
    }
    Ok(found)
}
