//! How goals, outcomes and kinds of steps are written.
ghost use Rattle.std.specs.Prelude.{◌≡◌, ◌≢◌, IfNone, IfSome};
ghost use Rattle.std.specs.Str.{IsUtf8};
ghost use Rattle.path_kinds.specs.declared.path.PathKind.{PathKind as SpecKind};
ghost use Rattle.graph_texts.specs.Below.{names_of, word_of};
ghost use Rattle.graph_texts.specs.Words.{goal_text, letter_of};

use crate::labels::Labelled;
use rule_tables::{Candidate, Goal, Outcome, Rules};
use search_context::path::PathKind;
use std::io;
use std::io::Write;

/// The letter of a kind, as in the rules.
pub fn letter(kind: PathKind) -> &'static str
    ensures { result.now ≡ letter_of kind }
{
    match kind {
        PathKind::Inductive => "i",
        PathKind::Unknown => "u",
        PathKind::Coinductive => "c",
        PathKind::ForcedAmbiguity => "f",
    }
}

/// The kind of a letter, and nothing for any other text.
pub fn kind_of(letter: &str) -> Option<PathKind>
    ensures some { IfSome result (λ kind. letter.now ≡ letter_of kind) }
    ensures none { IfNone result ((kind : SpecKind) → letter.now ≢ letter_of kind) }
{
    match letter {
        "i" => Some(PathKind::Inductive),
        "u" => Some(PathKind::Unknown),
        "c" => Some(PathKind::Coinductive),
        "f" => Some(PathKind::ForcedAmbiguity),
        _ => None,
    }
}

/// The goal's name. A goal of another table has none.
pub fn name_of(rules: &Rules, goal: Goal) -> &str
    ensures { IsUtf8 (goal_text (names_of rules.now) goal) →
        result.now ≡ goal_text (names_of rules.now) goal }
{
    match rules.name(goal) {
        Some(name) => std::str::from_utf8(name).unwrap_or(""),
        None => "",
    }
}

/// The word of an outcome.
pub fn word(outcome: Outcome) -> &'static str
    ensures { result.now ≡ word_of outcome }
{
    match outcome {
        Outcome::Yes => "yes",
        Outcome::No => "no",
        Outcome::Maybe => "maybe",
        Outcome::Overflow => "overflow",
    }
}

/// Writes a rule as it stands in a table, after these words: `A = i:B c:C`.
pub(crate) fn write_rule<W: Write>(
    out: &mut W,
    before: &str,
    shown: Labelled<'_>,
    goal: Goal,
    candidate: &Candidate<'_>,
) -> io::Result<()> {
    let mark = if candidate.is_marked() { "~" } else { "" };
    let name = shown.name(goal);
    write!(out, "{before}{mark}{name} =")?;
    for asking in candidate.questions() {
        let letter = letter(asking.kind);
        let asked = shown.name(asking.goal);
        write!(out, " {letter}:{asked}")?;
    }
    Ok(())
}
