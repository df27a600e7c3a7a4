//! The results of a goal, and what a search asks of them.
ghost use Rattle.std.specs.Prelude.{◌≡◌, ◌↔◌, IsTrue};

use path_kinds::path::PathKind;
use search_context::context::Verdict;
use std::fmt;

/// What is known of a goal.
#[derive(Clone, Copy, Debug, PartialEq, Eq, Hash)]
pub enum Outcome {
    /// The goal holds.
    Yes,
    /// The goal does not hold.
    No,
    /// Neither is known.
    Maybe,
    /// The depth or the number of runs was too small.
    Overflow,
}

impl Outcome {
    ghost use Rattle.delegate_parts.specs.Outcome.{ambiguity_of, initial_outcome, is_no, is_yes, kind_of};

    /// The verdict of the outcome.
    pub fn verdict(self) -> Verdict
        ensures yes { (result ≡ Verdict.Yes) ↔ IsTrue (is_yes self) }
        ensures no { (result ≡ Verdict.No) ↔ IsTrue (is_no self) }
    {
        match self {
            Outcome::Yes => Verdict::Yes,
            Outcome::No => Verdict::No,
            Outcome::Maybe | Outcome::Overflow => Verdict::Neither,
        }
    }

    /// What the cycles of this kind are answered with in a goal's first run.
    pub fn initial(kind: PathKind) -> Outcome
        ensures { result ≡ initial_outcome kind }
    {
        match kind {
            PathKind::Coinductive => Outcome::Yes,
            PathKind::Inductive => Outcome::No,
            PathKind::Unknown | PathKind::ForcedAmbiguity => Outcome::Maybe,
        }
    }

    /// The kind of the cycles that the outcome is the first answer of.
    pub fn initial_kind(self) -> Option<PathKind>
        ensures { result ≡ kind_of self }
    {
        match self {
            Outcome::Yes => Some(PathKind::Coinductive),
            Outcome::No => Some(PathKind::Inductive),
            Outcome::Maybe | Outcome::Overflow => None,
        }
    }

    /// Whether the outcome is ambiguous. There is nothing to be said of why.
    pub fn ambiguity(self) -> Option<()>
        ensures { result ≡ ambiguity_of self }
    {
        match self {
            Outcome::Maybe | Outcome::Overflow => Some(()),
            Outcome::Yes | Outcome::No => None,
        }
    }
}

impl fmt::Display for Outcome {
    ghost use Rattle.std.specs.Prelude.{Some};
    ghost use Rattle.delegate_parts.specs.Outcome.{word_of};

    ghost output = { λ outcome. Some (word_of outcome) };

    fn fmt<W: fmt::Write>(&self, f: &mut fmt::Formatter<W>) -> fmt::Result {
        f.write_str(match self {
            Outcome::Yes => "yes",
            Outcome::No => "no",
            Outcome::Maybe => "maybe",
            Outcome::Overflow => "overflow",
        })
    }
}
