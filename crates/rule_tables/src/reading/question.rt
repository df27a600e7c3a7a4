//! A question of a rule.
ghost use Rattle.std.specs.Prelude.{◌≡◌, MatchOption};
ghost use Rattle.rule_tables.specs.Words.{NamedQuestion, IsQuestion, letter_of, named};

use line_texts::is_name;
use search_context::path::PathKind;

/// A question as a rule writes it: `K:NAME`.
#[derive(Clone, Copy)]
pub struct Question<'a> {
    pub kind: PathKind,
    pub name: &'a [u8],
}

// What stands in the places of a list that have no question.
impl<'a> Default for Question<'a> {
    fn default() -> Question<'a> {
        Question {
            kind: PathKind::Inductive,
            name: &[],
        }
    }
}

/// The question that the word is, and nothing for any other word.
pub fn question_of(word: &[u8]) -> Option<Question<'_>>
    ensures { MatchOption result ((q : NamedQuestion) → IsQuestion word.now q → ⊥)
        (λ question. IsQuestion word.now (named question)) }
{
    match word {
        [letter, b':', name @ ..] if is_name(name) => Some(Question {
            kind: kind_of(*letter)?,
            name,
        }),
        _ => None,
    }
}

// The kind of this letter.
fn kind_of(letter: u8) -> Option<PathKind>
    ensures { MatchOption result ((kind : PathKind) → letter_of kind ≡ letter → ⊥)
        (λ kind. letter_of kind ≡ letter) }
{
    match letter {
        b'i' => Some(PathKind::Inductive),
        b'u' => Some(PathKind::Unknown),
        b'c' => Some(PathKind::Coinductive),
        b'f' => Some(PathKind::ForcedAmbiguity),
        _ => None,
    }
}
