//! Which of its questions a goal needs.
ghost use Rattle.std.specs.Prelude.{◌≡◌};
ghost use Rattle.question_lists.specs.Needs.{full_outcome, early_outcome};

use delegate_parts::Outcome;

/// Which of its questions a goal needs to hold.
#[derive(Clone, Copy, Debug, PartialEq, Eq)]
pub enum Needs {
    /// All of them: a goal without questions holds.
    All,
    /// Any one of them: a goal without questions does not hold.
    Any,
}

impl Needs {
    /// What a goal comes to that has an answer which is enough.
    pub(crate) fn early_outcome(self) -> Outcome
        ensures { result ≡ early_outcome self }
    {
        match self {
            Needs::All => Outcome::No,
            Needs::Any => Outcome::Yes,
        }
    }

    /// What a goal comes to whose answers all are of the other verdict.
    pub(crate) fn full_outcome(self) -> Outcome
        ensures { result ≡ full_outcome self }
    {
        match self {
            Needs::All => Outcome::Yes,
            Needs::Any => Outcome::No,
        }
    }
}
