//! Lists that give memory back while they empty.
ghost use Rattle.std.specs.Prelude.{◌≡◌};

/// A list that has room for no more entries than these keeps it all.
const SMALL: usize = 8192;

/// Gives memory back where more than a quarter of a large list's room is free. A deep stack has most of the memory of a
/// search, and what is stored of its goals while they are popped then takes its place instead of coming to it. An eighth
/// of the length stays free, so that a list which grows and shrinks in turns is seldom moved.
pub fn give_room_back<T>(list: &mut Vec<T>)
    ensures { list.new.items ≡ list.old.items }
{
    let room = list.capacity();
    if room > SMALL && list.len() < room / 4 * 3 {
        list.shrink_to(list.len() + list.len() / 8);
    }
}
