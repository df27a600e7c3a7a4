//! Lists of what is recorded at places of the stack, by rising depth.
ghost use Rattle.std.specs.Prelude.{◌≡◌, IsTrue};
ghost use Rattle.cycle_heads.specs.Words.{at_depth, AreBelow, IsRising, place_of};

use crate::depth::StackDepth;

// The place of the depth in the list, or as an error the place that it would have.
#[inline(never)]
pub(crate) fn place_of<T>(entries: &[(StackDepth, T)], depth: StackDepth) -> Result<usize, usize>
    requires { IsRising entries.now }
    ensures { result ≡ place_of entries.now depth }
{
    entries.binary_search_by_key(&depth, |entry| entry.0)
}

// What the list has at the depth, whose place is given.
pub(crate) fn at_place<T: Copy>(
    entries: &[(StackDepth, T)],
    depth: StackDepth,
    place: Result<usize, usize>,
) -> Option<T>
    requires rising { IsRising entries.now }
    requires place { place ≡ place_of entries.now depth }
    ensures { result ≡ at_depth entries.now depth }
{
    match place {
        Ok(index) => Some(entries[index].1),
        Err(_) => None,
    }
}

// The place of the depth in the list, or as an error the place that it would have. It is looked for at the guessed place
// first, and right before it: a good guess spares the search.
#[inline(always)]
pub(crate) fn place_near<T>(
    entries: &[(StackDepth, T)],
    guess: usize,
    depth: StackDepth,
) -> Result<usize, usize>
    requires { IsRising entries.now }
    ensures { result ≡ place_of entries.now depth }
{
    let guess = guess.min(entries.len());
    let Some(before) = guess.checked_sub(1) else {
        return place_from(entries, guess, depth);
    };
    let known = entries[before].0;
    if known == depth {
        Ok(before)
    } else if depth < known {
        place_of(entries, depth)
    } else {
        place_from(entries, guess, depth)
    }
}

// The same, where so many entries are known to be below the depth.
#[inline(always)]
fn place_from<T>(
    entries: &[(StackDepth, T)],
    count: usize,
    depth: StackDepth,
) -> Result<usize, usize>
    requires rising { IsRising entries.now }
    requires below { AreBelow entries.now count depth }
    ensures { result ≡ place_of entries.now depth }
{
    match entries.get(count) {
        None => Err(count),
        Some(next) if next.0 == depth => Ok(count),
        Some(next) if depth < next.0 => Err(count),
        Some(_) => place_of(entries, depth),
    }
}
