//! The map of the stored results, by goal and place.
ghost use Rattle.std.specs.Prelude.{◌≡◌, ◌*◌, [], None, OnOk, OnErr, Some, filter, length, not};
ghost use Rattle.std.specs.HashMap.{get, Updates};
ghost use Rattle.std.specs.Option.{option_copied};
ghost use Rattle.global_cache.specs.Words.{WithOverflow, is_among, stored_at, AnswersStoring, ForgetsSuccesses, KeepsOtherResults, Puts};
ghost use Rattle.heap_room.specs.Bytes.{CoversBytes};

use crate::results::{Place, StoredResult};
use graph_nodes::room::is_far_more;
use heap_room::map_bytes;
use search_context::context::{Fault, NoMemory};
use std::alloc::Global;
use std::collections::{HashMap, HashSet};
use std::hash::Hash;
use std::marker::Model;

/// Where more than one in so many goals is gone, all results are looked at.
const PART: usize = 4;

/// The stored results, by goal and place.
#[derive(Drop)]
pub(super) struct ResultStore<I: Eq + Hash + Copy, R: Copy, T: Copy> {
    results: HashMap<(I, Place), StoredResult<I, R, T>>,
    /// Whether a result that met overflow was ever stored. Where none was, which is so for most searches, a question
    /// needs no second look-up.
    has_overflow: bool,
}

impl<I: Eq + Hash + Copy, R: Copy, T: Copy> Model for ResultStore<I, R, T> {
    ghost use Rattle.global_cache.specs.Store.{Store, TellsOverflow};
    ghost use Rattle.global_cache.specs.declared.results.StoredResult.{StoredResult};

    ghost Value = { Store I (StoredResult I R T) };

    ghost view = { λ s. s.results.entries };

    ghost invariant = { λ s. TellsOverflow I.eq s.has_overflow s.results.entries };
}

impl<I: Eq + Hash + Copy, R: Eq + Copy, T: Copy> ResultStore<I, R, T> {
    /// Nothing is stored. It takes no memory yet.
    pub(super) fn new(alloc: Global) -> ResultStore<I, R, T>
        ensures { result ≡ [] }
    {
        ResultStore {
            results: HashMap::new(alloc),
            has_overflow: false,
        }
    }

    /// Forgets all. The memory stays for what comes, but for a map that has room for far more than was in it.
    pub(super) fn clear(&mut self, alloc: Global)
        ensures { self.new ≡ [] }
    {
        if is_far_more(self.results.capacity(), self.results.len()) {
            self.results = HashMap::new(alloc);
        }
        self.results.clear();
        self.has_overflow = false;
    }

    /// Forgets what is stored of goals that are gone. It takes no memory, and the map keeps its own for what comes. The time
    /// is linear in the goals that are gone, but where a result that met overflow was ever stored: then all results are
    /// looked at, since those of a goal can stand under any depth.
    pub(super) fn forget(&mut self, gone: &HashSet<I>)
        ensures { KeepsOtherResults I.eq (is_among I.eq gone.now.keys) self.old self.new }
    {
        if gone.is_empty() {
            return;
        }
        if self.has_overflow || self.results.len() / PART <= gone.len() {
            forget_entries(&mut self.results, gone);
        } else {
            forget_successes(&mut self.results, gone);
        }
    }

    /// How many bytes of the heap the map holds, with the nested goals of each result. The time is linear in the results.
    pub(super) fn held_bytes(&self) -> usize
        ensures { CoversBytes (length self.now * 8) result }
    {
        map_bytes(&self.results).saturating_add(nested_bytes(&self.results))
    }

    /// What is stored of the goal at the place.
    pub(super) fn at(&self, input: I, place: Place) -> Option<&StoredResult<I, R, T>>
        ensures { option_copied result ≡ stored_at I.eq self.now input place }
    {
        entry_at(&self.results, &(input, place))
    }

    /// The goal's result that met overflow and is stored under this depth.
    pub(super) fn overflow_at(&self, input: I, depth: usize) -> Option<&StoredResult<I, R, T>>
        ensures { option_copied result ≡ stored_at I.eq self.now input (WithOverflow depth) }
    {
        if !self.has_overflow {
            return None;
        }
        self.at(input, Place::WithOverflow(depth))
    }

    /// Stores a result at a place of the goal, unless another result is there. A result that is there and
    /// equals it takes no memory.
    pub(super) fn put(
        &mut self,
        input: I,
        place: Place,
        found: StoredResult<I, R, T>,
    ) -> Result<(), Fault<I, R>>
        ensures ok { OnOk result (Puts I.eq self.old self.new input place found) }
        ensures err { OnErr result (self.new ≡ self.old) }
        ensures answer { AnswersStoring R.eq input
            (stored_at I.eq self.old input place) found.result.result result }
    {
        if let Err(conflict) = self.agrees(input, place, &found) {
            return Err(conflict);
        }
        match insert_entry(&mut self.results, (input, place), found) {
            Ok(()) => {
                self.has_overflow |= place.is_of_overflow();
                Ok(())
            }
            Err(NoMemory) => Err(Fault::Memory),
        }
    }

    /// `Conflict` where another result is stored at the place of the goal.
    fn agrees(
        &self,
        input: I,
        place: Place,
        found: &StoredResult<I, R, T>,
    ) -> Result<(), Fault<I, R>>
        ensures { AnswersStoring R.eq input
            (stored_at I.eq self.now input place) found.now.result.result result }
    {
        match self.at(input, place) {
            Some(known) => {
                let stored = known.result.result;
                let found = found.result.result;
                if stored == found {
                    return Ok(());
                }
                Err(Fault::Conflict {
                    input,
                    stored,
                    found,
                })
            }
            None => Ok(()),
        }
    }
}

// How many bytes of the heap the nested goals of these results hold.
fn nested_bytes<I: Eq + Hash + Copy, R: Copy, T: Copy>(
    results: &HashMap<(I, Place), StoredResult<I, R, T>>,
) -> usize {
    let mut bytes = 0_usize;
    for stored in results.values() {
        bytes = bytes.saturating_add(stored.nested_goals.held_bytes());
    }
    bytes
}

// The value at the key.
fn entry_at<'a, K: Eq + Hash, V>(map: &'a HashMap<K, V>, key: &K) -> Option<&'a V>
    ensures { option_copied result ≡ get K.eq map.now key.now }
{
    map.get(key)
}

// Forgets what stands at places of goals that are gone.
fn forget_entries<I: Copy + Eq + Hash, V: Drop>(map: &mut HashMap<(I, Place), V>, gone: &HashSet<I>)
    ensures { map.new.entries
        ≡ filter (λ e. not (is_among I.eq gone.now.keys e.0.0)) map.old.entries }
{
    map.retain(|key, _| !is_gone(key, gone));
}

// Forgets the successes of goals that are gone.
fn forget_successes<I: Copy + Eq + Hash, V: Drop>(
    map: &mut HashMap<(I, Place), V>,
    gone: &HashSet<I>,
)
    ensures { ForgetsSuccesses I.eq (is_among I.eq gone.now.keys) map.old.entries map.new.entries }
{
    for goal in gone {
        forget_entry(map, &(*goal, Place::Success));
    }
}

// Whether the goal at whose place something is stored is gone.
fn is_gone<I: Copy + Eq + Hash>(key: &(I, Place), gone: &HashSet<I>) -> bool
    ensures { result ≡ is_among I.eq gone.now.keys key.now.0 }
{
    gone.contains(&key.0)
}

// Forgets what stands at the key.
fn forget_entry<K: Eq + Hash + Drop, V: Drop>(map: &mut HashMap<K, V>, key: &K)
    ensures { Updates K.eq map.old map.new key.now None }
{
    map.remove(key);
}

// Puts the value at the key. Only where the key is new, memory can be refused.
fn insert_entry<K: Eq + Hash + Drop, V: Drop>(
    map: &mut HashMap<K, V>,
    key: K,
    value: V,
) -> Result<(), NoMemory>
    ensures updates { OnOk result (Updates K.eq map.old map.new key (Some value)) }
    ensures err { OnErr result (map.new.entries ≡ map.old.entries) }
    ensures absent { OnErr result (get K.eq map.old key ≡ None) }
{
    map.insert(key, value)?;
    Ok(())
}
