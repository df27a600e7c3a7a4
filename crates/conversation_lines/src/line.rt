//! What a line says.
ghost use Rattle.std.specs.Prelude.{◌≡◌, ◌∷◌, ℕ, List, IfOk, codes, Err};
ghost use Rattle.line_texts.specs.LineWords.{words_left};
ghost use Rattle.conversation_lines.specs.Grammar.{IsForget, IsMalformed, Says};
ghost use Rattle.conversation_lines.specs.Line.{SaysForget, saying_of};

use line_texts::{Words, is_name};
use rule_tables::{Line, LineFault, line_of};
use std::alloc::Global;

/// What a line says.
#[derive(Drop)]
pub enum Said<'a> {
    /// What a line of a table's text may say.
    OfTable(Line<'a>),
    /// The candidates of the name go.
    Forget { name: &'a [u8] },
}

/// What the line says. `Malformed` where the grammar does not allow it, and `Memory` where a rule has so many questions
/// that a growth was refused.
pub fn said_by<'a>(alloc: Global, line: &'a [u8]) -> Result<Said<'a>, LineFault>
    ensures ok { IfOk result (λ said. Says line.now (saying_of said)) }
    ensures malformed { result ≡ Err LineFault.Malformed → IsMalformed line.now }
{
    let mut words = Words::new(line);
    match words.next() {
        Some(b"forget") => forgotten(words),
        _ => Ok(Said::OfTable(line_of(alloc, line)?)),
    }
}

// The words after `forget`.
fn forgotten<'a>(mut words: Words<'a>) -> Result<Said<'a>, LineFault>
    ensures ok { IfOk result (λ said. SaysForget (words_left words.entry) (saying_of said)) }
    ensures malformed { result ≡ Err LineFault.Malformed → (name : List ℕ) →
        IsForget (codes "forget" ∷ words_left words.entry) name → ⊥ }
{
    let Some(name) = words.next() else {
        return Err(LineFault::Malformed);
    };
    if is_name(name) && words.next().is_none() {
        Ok(Said::Forget { name })
    } else {
        Err(LineFault::Malformed)
    }
}
