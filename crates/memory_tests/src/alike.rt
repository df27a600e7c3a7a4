//! Names that a map of the library finds in one and the same place, as somebody may choose them who knows how it hashes.

use std::hash::{FoldHasher, Hasher};
use std::io;
use std::io::Write;

/// What names are made of.
const LETTERS: &[u8] = b"abcdefghijklmnopqrstuvwxyz012345";

/// The part of a hash that says where a search begins, in a table of up to 73,000 names.
const PLACE: u64 = (1 << 13) - 1;

/// Writes a rule for each of so many names, all of which have the same place.
pub fn write_alike<W: Write>(out: &mut W, count: u64) -> io::Result<()> {
    let mut written = 0u64;
    for number in 0..u64::MAX {
        if written == count {
            break;
        }
        let name = name_of(number);
        let hash = hash_of(&name);
        if (hash ^ (hash >> 32)) & PLACE == 0 {
            written = written.saturating_add(1);
            out.write_all(b"rule ")?;
            out.write_all(&name)?;
            out.write_all(b" =\n")?;
        }
    }
    Ok(())
}

/// By this hash a map looks for the name.
fn hash_of(name: &[u8]) -> u64 {
    let mut hasher = FoldHasher::default();
    hasher.write(name);
    hasher.finish()
}

/// The name of a number.
fn name_of(number: u64) -> [u8; 8] {
    let mut name = [b'_'; 8];
    let mut rest = number;
    for letter in name.iter_mut() {
        let place = (rest & 31) as usize;
        *letter = LETTERS.get(place).copied().unwrap_or(b'_');
        rest >>= 5;
    }
    name
}
