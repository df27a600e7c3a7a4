//! The alternatives of a union.
ghost use Rattle.std.specs.Prelude.{◌≡◌, ◌∷◌, ◌↔◌, ℕ, IfOk, IsTrue, List, codes, map};
ghost use Rattle.type_texts.specs.Words.{AreAlternatives, words_left};

use crate::line::LineFault;
use line_texts::{Words, is_name};
use std::alloc::Global;

/// The first alternative, and the words after the first bar: names with bars between them.
pub(super) fn alternatives_of<'a>(
    alloc: Global,
    first: &'a [u8],
    words: Words<'a>,
) -> Result<Vec<&'a [u8]>, LineFault>
    ensures spelled { IfOk result
        (λ names. AreAlternatives (first.now ∷ codes "|" ∷ words_left words.entry)
        (map (λ name. name.now) names.items)) }
    ensures malformed { result ≡ Err LineFault.Malformed → (names : List (List ℕ)) →
        AreAlternatives (first.now ∷ codes "|" ∷ words_left words.entry) names → ⊥ }
{
    if !is_name(first) {
        return Err(LineFault::Malformed);
    }
    let mut alternatives = Vec::new(alloc);
    alternatives.push(first)?;
    // Whether a name is next, and not a bar.
    let mut is_due = true;
    for word in words {
        if is_due {
            if !is_name(word) {
                return Err(LineFault::Malformed);
            }
            alternatives.push(word)?;
        } else if !is_bar(word) {
            return Err(LineFault::Malformed);
        }
        is_due = !is_due;
    }
    if is_due {
        return Err(LineFault::Malformed);
    }
    Ok(alternatives)
}

fn is_bar(word: &[u8]) -> bool
    ensures { IsTrue result ↔ word.now ≡ codes "|" }
{
    word == b"|".as_slice()
}
