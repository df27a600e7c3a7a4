//! The right side of a declaration.
ghost use Rattle.std.specs.Prelude.{◌≡◌, ◌≢◌, ◌∷◌, [], IfOk, codes, map};
ghost use Rattle.type_texts.specs.Words.{AreAlternatives, AreFields, meaning_of, named, Spell, SpellNothing, words_left};

mod alternatives;
mod fields;

use crate::line::LineFault;
use alternatives::alternatives_of;
use fields::fields_of;
use line_texts::{Words, is_name};
use std::alloc::Global;

/// What a type is, by the names of its parts.
#[derive(Drop)]
pub(crate) enum Written<'a> {
    Base(&'a [u8]),
    Top,
    Bottom,
    Function(&'a [u8], &'a [u8]),
    Record(Vec<WrittenField<'a>>),
    Union(Vec<&'a [u8]>),
}

/// A field of a record, by its name and that of its type.
#[derive(Clone, Copy)]
pub(crate) struct WrittenField<'a> {
    pub(crate) name: &'a [u8],
    pub(crate) part: &'a [u8],
}

/// The words after `=`.
pub(crate) fn written_of<'a>(alloc: Global, mut words: Words<'a>) -> Result<Written<'a>, LineFault>
    ensures spelled { IfOk result (λ written. Spell (words_left words.entry) (meaning_of written)) }
    ensures malformed { result ≡ Err LineFault.Malformed → SpellNothing (words_left words.entry) }
{
    match words.next() {
        None => Err(LineFault::Malformed),
        Some(b"{") => record_of(alloc, words),
        Some(first) => written_from(alloc, first, words),
    }
}

// The words after the opening brace.
fn record_of<'a>(alloc: Global, words: Words<'a>) -> Result<Written<'a>, LineFault>
    ensures spelled { IfOk result (λ written.
        Spell (codes "{" ∷ words_left words.entry) (meaning_of written)) }
    ensures malformed { result ≡ Err LineFault.Malformed →
        SpellNothing (codes "{" ∷ words_left words.entry) }
{
    let fields = fields_of(alloc, words)?;
    Ok(Written::Record(fields))
}

// The first word, which opens no record, and those after it.
fn written_from<'a>(
    alloc: Global,
    first: &'a [u8],
    mut words: Words<'a>,
) -> Result<Written<'a>, LineFault>
    requires opens_none { first.now ≢ codes "{" }
    ensures spelled { IfOk result (λ written.
        Spell (first.now ∷ words_left words.entry) (meaning_of written)) }
    ensures malformed { result ≡ Err LineFault.Malformed →
        SpellNothing (first.now ∷ words_left words.entry) }
{
    match words.next() {
        None => bound_of(first),
        Some(b"->") => function_of(first, words),
        Some(b"|") => Ok(Written::Union(alternatives_of(alloc, first, words)?)),
        Some(word) => base_of(first, word, words),
    }
}

// `top` or `bottom`, which stand alone.
fn bound_of<'a>(word: &'a [u8]) -> Result<Written<'a>, LineFault>
    ensures spelled { IfOk result (λ written. Spell (word.now ∷ []) (meaning_of written)) }
    ensures malformed { result ≡ Err LineFault.Malformed → SpellNothing (word.now ∷ []) }
{
    if word == b"top".as_slice() {
        Ok(Written::Top)
    } else if word == b"bottom".as_slice() {
        Ok(Written::Bottom)
    } else {
        Err(LineFault::Malformed)
    }
}

// The argument, and the words after the arrow.
fn function_of<'a>(argument: &'a [u8], mut words: Words<'a>) -> Result<Written<'a>, LineFault>
    requires opens_none { argument.now ≢ codes "{" }
    ensures spelled { IfOk result (λ written.
        Spell (argument.now ∷ codes "->" ∷ words_left words.entry) (meaning_of written)) }
    ensures malformed { result ≡ Err LineFault.Malformed →
        SpellNothing (argument.now ∷ codes "->" ∷ words_left words.entry) }
{
    let Some(result) = words.next() else {
        return Err(LineFault::Malformed);
    };
    if is_name(argument) && is_name(result) && words.next().is_none() {
        Ok(Written::Function(argument, result))
    } else {
        Err(LineFault::Malformed)
    }
}

// Two words, of which the first has to be `base`, and none after them.
fn base_of<'a>(
    first: &'a [u8],
    word: &'a [u8],
    mut words: Words<'a>,
) -> Result<Written<'a>, LineFault>
    requires opens_none { first.now ≢ codes "{" }
    requires no_arrow { word.now ≢ codes "->" }
    requires no_bar { word.now ≢ codes "|" }
    ensures spelled { IfOk result (λ written.
        Spell (first.now ∷ word.now ∷ words_left words.entry) (meaning_of written)) }
    ensures malformed { result ≡ Err LineFault.Malformed →
        SpellNothing (first.now ∷ word.now ∷ words_left words.entry) }
{
    if first == b"base".as_slice() && is_name(word) && words.next().is_none() {
        Ok(Written::Base(word))
    } else {
        Err(LineFault::Malformed)
    }
}
