//! How many bytes of the heap lists and maps hold, by their room and the sizes of what they have room for.
#![tactic(auto)]

ghost use Rattle.std.specs.Prelude.{◌*◌, ◌≤◌, vec_capacity};
ghost use Rattle.std.specs.HashMap.{hash_map_len};
ghost use Rattle.std.specs.Mem.{type_size};
ghost use Rattle.heap_room.specs.Bytes.{CoversBytes, entry_bytes};

use std::collections::HashMap;
use std::hash::Hash;
use std_alloc::room::may_hold;

/// A map's table has groups of so many entries.
const GROUP_ENTRIES: usize = 9;

/// The bytes of each group.
const GROUP_BYTES: usize = 64;

/// A table takes room for so many groups at least.
const LEAST_GROUPS: usize = 4;

/// The bytes of each entry of the table, beside its key and its value.
const ENTRY_BYTES: usize = 8;

/// The bytes of room for so many values, or `usize::MAX` where no heap has that.
pub fn bytes_for<T>(count: usize) -> usize
    ensures { CoversBytes (count * type_size T.row) result }
{
    if may_hold::<T>(count) {
        count * size_of::<T>()
    } else {
        usize::MAX
    }
}

/// The bytes of the list's room: just what it has taken from the heap. What its elements have taken comes to that.
pub fn list_bytes<T>(list: &Vec<T>) -> usize
    ensures { CoversBytes (vec_capacity list.now * type_size T.row) result }
{
    bytes_for::<T>(list.capacity())
}

/// The bytes of the map's room. What keys and values have taken comes to that.
///
/// A map keeps its keys in a list, its values in another one, and beside these a table of groups, twice as many at each
/// growth. How many there are is told by how many entries the map has room for, which is just that while none was taken out.
/// Where many were, it can be less than what the map has taken.
pub fn map_bytes<K: Eq + Hash, V>(map: &HashMap<K, V>) -> usize
    ensures { CoversBytes (entry_bytes K.row V.row (hash_map_len map.now)) result }
{
    let groups = groups_for(map.capacity());
    let entries = groups.saturating_mul(GROUP_ENTRIES);
    bytes_for::<K>(entries)
        .saturating_add(bytes_for::<V>(entries))
        .saturating_add(entries.saturating_mul(ENTRY_BYTES))
        .saturating_add(bytes_of_groups(groups))
}

/// How many groups a table has that has room for so many entries.
fn groups_for(entries: usize) -> usize
    ensures { entries ≤ 9 * result }
{
    match entries.div_ceil(GROUP_ENTRIES) {
        0 => 0,
        groups => groups.checked_next_power_of_two().unwrap_or(usize::MAX),
    }
}

/// The bytes of so many groups.
fn bytes_of_groups(groups: usize) -> usize {
    match groups {
        0 => 0,
        _ => groups.max(LEAST_GROUPS).saturating_mul(GROUP_BYTES),
    }
}
