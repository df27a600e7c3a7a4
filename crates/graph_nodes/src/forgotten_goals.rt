//! Goals that were forgotten while memory is still held for their nodes.
ghost use Rattle.std.specs.Prelude.{◌≡◌, ◌≤◌, length, OnErr, OnOk};
ghost use Rattle.graph_nodes.specs.Words.{AreEarlier, Forgets, ForgetsSome, is_among, is_forgotten, IsShownFrom, shown};

use crate::node_list::Held;
use search_context::context::NoMemory;
use std::collections::{HashMap, HashSet};
use std::hash::Hash;

// Whether the node was there when its goal was forgotten. Of each goal that was, the map has the number that was next then.
pub(super) fn is_forgotten<I: Copy + Eq + Hash, R: Drop>(
    entry: &Held<I, R>,
    forgotten: &HashMap<I, usize>,
) -> bool
    ensures { result ≡ is_forgotten I.eq forgotten.now.entries entry.now }
{
    match forgotten.get(&entry.slot.input()) {
        Some(next) => entry.number < *next,
        None => false,
    }
}

// How many of these nodes were not forgotten.
pub(super) fn shown_count<I: Copy + Eq + Hash, R: Drop>(
    held: &[Held<I, R>],
    forgotten: &HashMap<I, usize>,
) -> usize
    ensures { result ≡ length (shown I.eq forgotten.now.entries held.now) }
{
    held.iter()
        .filter(|entry| !is_forgotten(entry, forgotten))
        .count()
}

// These goals are forgotten, when the number is next. Where memory is refused, only some of them are.
pub(super) fn note_forgotten<I: Copy + Eq + Hash>(
    forgotten: &mut HashMap<I, usize>,
    gone: &HashSet<I>,
    next: usize,
) -> Result<(), NoMemory>
    ensures noted { OnOk result (Forgets I.eq (is_among I.eq gone.now.keys) next
        forgotten.old.entries forgotten.new.entries) }
    ensures refused { OnErr result (ForgetsSome I.eq (is_among I.eq gone.now.keys) next
        forgotten.old.entries forgotten.new.entries) }
{
    for goal in gone {
        forgotten.insert(*goal, next)?;
    }
    Ok(())
}

// Lets go of all nodes that were forgotten, where there may be some from the number `first` on.
pub(super) fn let_go_from<I: Copy + Eq + Hash, R: Drop>(
    held: &mut Vec<Held<I, R>>,
    forgotten: &mut HashMap<I, usize>,
    newest: usize,
    first: usize,
)
    requires { AreEarlier I.eq forgotten.old.entries newest }
    ensures shown { IsShownFrom I.eq first forgotten.old.entries forgotten.new.entries
        held.old.items held.new.items }
    ensures earlier { AreEarlier I.eq forgotten.new.entries newest }
{
    if first < newest {
        held.retain(|entry| !is_forgotten(entry, forgotten));
        forgotten.clear();
    }
}
