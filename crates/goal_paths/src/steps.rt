//! Where on the stack the last step of each kind is.
ghost use Rattle.std.specs.Prelude.{◌≡◌, ◌+◌, ◌<◌, ◌^◌};
ghost use Rattle.goal_paths.specs.Steps.{kind_past, no_steps, with_step};

use path_kinds::path::PathKind;

/// For each kind of step but the least, how many entries there are on the stack up to the last one that was
/// asked by such a step; 0 where none was. So the greatest kind of the steps above any goal is told by three
/// comparisons, however many goals are above it.
#[derive(Clone, Copy)]
pub struct LastSteps {
    unknown: usize,
    coinductive: usize,
    forced_ambiguity: usize,
}

impl LastSteps {
    /// Those of an empty stack.
    pub fn new() -> LastSteps
        ensures { result ≡ no_steps }
    {
        LastSteps {
            unknown: 0,
            coinductive: 0,
            forced_ambiguity: 0,
        }
    }

    /// The same with one more step, by which the entry after the first `below` was asked.
    pub fn with_step(self, kind: PathKind, below: usize) -> LastSteps
        requires { below + 1 < 2 ^ 64 }
        ensures { result ≡ with_step self kind below }
    {
        let mut steps = self;
        match kind {
            // The kind of a path without steps is this one, too.
            PathKind::Inductive => {}
            PathKind::Unknown => steps.unknown = below + 1,
            PathKind::Coinductive => steps.coinductive = below + 1,
            PathKind::ForcedAmbiguity => steps.forced_ambiguity = below + 1,
        }
        steps
    }

    /// The greatest kind of the steps of the entries past the first `count`.
    pub fn kind_past(self, count: usize) -> PathKind
        ensures { result ≡ kind_past self count }
    {
        if self.forced_ambiguity > count {
            PathKind::ForcedAmbiguity
        } else if self.coinductive > count {
            PathKind::Coinductive
        } else if self.unknown > count {
            PathKind::Unknown
        } else {
            PathKind::Inductive
        }
    }
}
