//! How a name is found in a list of names, in a few steps whatever the names are.
//!
//! A list of links has slots: first the heads, no fewer than there are names, and behind them two for each name. By its
//! hash a name has a head, and what that links to is the first name that has it. A further one goes on from there to one
//! of that name's two slots, by the lowest bit of its own letters, from the name to which this links by the next bit, and
//! so on. So names with one head stand in a tree that is no deeper than a name has bits, whatever the names are.
ghost use Rattle.std.specs.Prelude.{◌≡◌, ◌+◌, ◌*◌, ◌^◌, ◌<◌, ◌≤◌, ◌↔◌, ℕ, Some, length, map, slice_get, IfOk};
ghost use Rattle.line_texts.specs.Letters.{head_of};
ghost use Rattle.line_texts.specs.Names.{text_of, AreFound, AreLinked, LeadsTo, link_of};

use crate::names::name::Name;
use std::alloc::{AllocError, Global};

/// The most heads that there may be, so that links have room in 32 bits.
const MOST_HEADS: usize = 1 << 30;

/// Which of so many heads a name with these letters has.
fn head_of(letters: u128, heads: usize) -> usize
    ensures value { result ≡ head_of letters heads }
    ensures within { 0 < heads → result < heads }
{
    let product = letters.wrapping_mul(0x9E37_79B9_7F4A_7C15_F39C_C060_5CED_C835);
    let high = (product >> 96) as u64;
    (high.wrapping_mul(heads as u64) >> 32) as usize
}

/// Where the slot links to.
fn link_at(links: &[u32], slot: usize) -> usize
    ensures { result ≡ link_of links.now slot }
{
    if slot < links.len() {
        links[slot] as usize
    } else {
        0
    }
}

/// Where the name stands in the list.
#[inline(always)]
pub(super) fn find(names: &[Name], heads: usize, links: &[u32], name: &Name) -> Option<usize>
    requires found { AreFound heads links.now names.now }
    ensures { (n : ℕ) →
        (result ≡ Some n) ↔ (slice_get (map text_of names.now) n ≡ Some (text_of name.now)) }
{
    let mut rest = name.letters();
    let mut slot = head_of(rest, heads);
    let mut link = link_at(links, slot);
    while slot < link {
        let number = link.saturating_sub(heads) / 2;
        let known = names.get(number)?;
        if *known == *name {
            return Some(number);
        }
        slot = link + (rest % 2) as usize;
        rest /= 2;
        link = link_at(links, slot);
    }
    None
}

/// Lets the way of a name with these letters lead to the name of this number. The ways to names before it stay.
pub(super) fn link(links: &mut Vec<u32>, heads: usize, letters: u128, number: usize)
    requires within { number < heads }
    requires room { length links.old.items ≡ 3 * heads }
    requires few { heads ≤ 2 ^ 30 }
    ensures room { length links.new.items ≡ length links.old.items }
    ensures linked { LeadsTo links.new.items (heads + 2 * number) (head_of letters heads) letters }
    ensures kept { (goal slot rest : ℕ) → goal + 2 ≤ heads + 2 * number →
        LeadsTo links.old.items goal slot rest → LeadsTo links.new.items goal slot rest }
{
    let goal = heads + 2 * number;
    let mut rest = letters;
    let mut slot = head_of(letters, heads);
    let mut link = links[slot] as usize;
    while slot < link && link + 2 <= goal {
        slot = link + (rest % 2) as usize;
        rest /= 2;
        link = links[slot] as usize;
    }
    links[slot] = goal as u32;
}

/// Links to all of the names, with so many heads.
pub(super) fn linked(alloc: Global, names: &[Name], heads: usize) -> Result<Vec<u32>, AllocError>
    requires { length names.now ≤ heads }
    ensures { IfOk result (λ links. AreLinked heads links.items names.now (length names.now)) }
{
    if heads > MOST_HEADS {
        return Err(AllocError);
    }
    let mut links = Vec::from_elem(alloc, 0u32, 3 * heads)?;
    for number in 0..names.len() {
        link(&mut links, heads, names[number].letters(), number);
    }
    Ok(links)
}
