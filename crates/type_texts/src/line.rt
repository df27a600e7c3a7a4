//! What a line says.
ghost use Rattle.std.specs.Prelude.{◌≡◌, ◌∷◌, IfOk, codes};
ghost use Rattle.type_texts.specs.Words.{IsMalformed, Say, SayNothing, Says, statement_of, words_left};

use crate::written::{Written, written_of};
use line_texts::{Words, is_name};
use search_context::context::NoMemory;
use std::alloc::{AllocError, AllocFailed, Global};

/// What a line says.
#[derive(Drop)]
pub(crate) enum Line<'a> {
    /// Nothing: no word stands on it, or it is a comment.
    PassedOver,
    /// What the type of this name is.
    Type {
        name: &'a [u8],
        written: Written<'a>,
    },
    /// Whether the left type is below the right one.
    Ask {
        left: &'a [u8],
        right: &'a [u8],
    },
}

/// Why a line was not read.
#[derive(Clone, Copy)]
pub(crate) enum LineFault {
    Malformed,
    Memory,
}

impl From<AllocError> for LineFault {
    ghost use Rattle.type_texts.specs.declared.line.LineFault.TheVariants.{Memory};

    ghost from_gives = { λ _ fault. fault ≡ Memory };

    fn from(_error: AllocError) -> LineFault {
        LineFault::Memory
    }
}

impl From<NoMemory> for LineFault {
    ghost use Rattle.type_texts.specs.declared.line.LineFault.TheVariants.{Memory};

    ghost from_gives = { λ _ fault. fault ≡ Memory };

    fn from(_error: NoMemory) -> LineFault {
        LineFault::Memory
    }
}

impl<T: Drop> From<AllocFailed<T>> for LineFault {
    ghost use Rattle.type_texts.specs.declared.line.LineFault.TheVariants.{Memory};

    ghost from_gives = { λ _ fault. fault ≡ Memory };

    fn from(_error: AllocFailed<T>) -> LineFault {
        LineFault::Memory
    }
}

/// Reads a line.
pub(crate) fn line_of<'a>(alloc: Global, line: &'a [u8]) -> Result<Line<'a>, LineFault>
    ensures said { IfOk result (λ said. Says line.now (statement_of said)) }
    ensures malformed { result ≡ Err LineFault.Malformed → IsMalformed line.now }
{
    let mut words = Words::new(line);
    match words.next() {
        None => Ok(Line::PassedOver),
        Some([b'#', ..]) => Ok(Line::PassedOver),
        Some(b"type") => type_of(alloc, words),
        Some(b"ask") => ask_of(words),
        Some(_) => Err(LineFault::Malformed),
    }
}

// The words after `type`.
fn type_of<'a>(alloc: Global, mut words: Words<'a>) -> Result<Line<'a>, LineFault>
    ensures said { IfOk result
        (λ said. Say (codes "type" ∷ words_left words.entry) (statement_of said)) }
    ensures malformed { result ≡ Err LineFault.Malformed →
        SayNothing (codes "type" ∷ words_left words.entry) }
{
    let Some(name) = words.next() else {
        return Err(LineFault::Malformed);
    };
    let Some(b"=") = words.next() else {
        return Err(LineFault::Malformed);
    };
    if !is_name(name) {
        return Err(LineFault::Malformed);
    }
    let written = written_of(alloc, words)?;
    Ok(Line::Type { name, written })
}

// The words after `ask`.
fn ask_of<'a>(mut words: Words<'a>) -> Result<Line<'a>, LineFault>
    ensures said { IfOk result
        (λ said. Say (codes "ask" ∷ words_left words.entry) (statement_of said)) }
    ensures malformed { result ≡ Err LineFault.Malformed →
        SayNothing (codes "ask" ∷ words_left words.entry) }
{
    let Some(left) = words.next() else {
        return Err(LineFault::Malformed);
    };
    let Some(b"<") = words.next() else {
        return Err(LineFault::Malformed);
    };
    let Some(right) = words.next() else {
        return Err(LineFault::Malformed);
    };
    if is_name(left) && is_name(right) && words.next().is_none() {
        Ok(Line::Ask { left, right })
    } else {
        Err(LineFault::Malformed)
    }
}
