//! Where numbers stand among the nodes that are held.
ghost use Rattle.std.specs.Prelude.{◌≡◌, IsTrue, IfSome, MatchOption, None};
ghost use Rattle.graph_nodes.specs.Words.{HasNumber, IsRising, IsSplit, IsWindow, slot_at};

use crate::node_list::Held;

// The place of the node with this number. Where it has another one than `place_by_first` says, it is looked for from
// the end on, since most look-ups are of the newest nodes.
pub(super) fn place_of<I, R>(held: &[Held<I, R>], number: usize) -> Option<usize>
    requires { IsRising held.now }
    ensures { MatchOption result (slot_at held.now number ≡ None)
        (λ place. HasNumber held.now place number) }
{
    match place_by_first(held, number) {
        Some(place) => Some(place),
        None => place_near(held, held.len().saturating_sub(1), number),
    }
}

// The place of the node with this number where nothing was let go since the first of these nodes: as far behind that
// one's place as the number is behind that one's.
pub(super) fn place_by_first<I, R>(held: &[Held<I, R>], number: usize) -> Option<usize>
    requires { IsRising held.now }
    ensures { IfSome result (λ place. HasNumber held.now place number) }
{
    let Some(first) = held.first() else {
        return None;
    };
    let Some(place) = number.checked_sub(first.number) else {
        return None;
    };
    is_at(held, place, number).then_some(place)
}

// The place of the node with this number, which is looked for from the place `near` on: it is no farther
// from there than its number is from that one's. So the search reads few nodes, which stand together.
pub(super) fn place_near<I, R>(held: &[Held<I, R>], near: usize, number: usize) -> Option<usize>
    requires { IsRising held.now }
    ensures { MatchOption result (slot_at held.now number ≡ None)
        (λ place. HasNumber held.now place number) }
{
    let (low, high) = window_near(held, near, number);
    // It stands at an end of the window where no node was let go in between.
    let last = high.saturating_sub(1);
    if is_at(held, last, number) {
        return Some(last);
    }
    if is_at(held, low, number) {
        return Some(low);
    }
    match held[low..high].binary_search_by_key(&number, |entry| entry.number) {
        Ok(behind) => Some(low + behind),
        Err(_) => None,
    }
}

// Whether the node at the place has this number.
fn is_at<I, R>(held: &[Held<I, R>], place: usize, number: usize) -> bool
    requires { IsRising held.now }
    ensures { IsTrue result → HasNumber held.now place number }
{
    match held.get(place) {
        Some(entry) => entry.number == number,
        None => false,
    }
}

// The first place that the node with this number can have, and the one past the last: all of them, where
// no node stands at `near`.
fn window_near<I, R>(held: &[Held<I, R>], near: usize, number: usize) -> (usize, usize)
    requires { IsRising held.now }
    ensures { IsWindow held.now result.0 result.1 number }
{
    let Some(entry) = held.get(near) else {
        return (0, held.len());
    };
    if number < entry.number {
        return (near.saturating_sub(entry.number - number), near);
    }
    let ahead = number - entry.number;
    if ahead < held.len() - near {
        (near, near + ahead + 1)
    } else {
        (near, held.len())
    }
}

// How many of these nodes have numbers before the first one.
pub(super) fn place_from<I, R>(held: &[Held<I, R>], first: usize) -> usize
    requires { IsRising held.now }
    ensures { IsSplit held.now first result }
{
    match held.binary_search_by_key(&first, |entry| entry.number) {
        Ok(place) => place,
        Err(place) => place,
    }
}
