//! Paths that are extended together.
ghost use Rattle.std.specs.Prelude.{◌≡◌, IfSome, [], ◌∷◌};
ghost use Rattle.goal_paths.specs.Raises.{no_raises, noted_now, paths_now, raised};

use crate::steps::LastSteps;
use path_kinds::path::{PathKind, PathsToNested};

/// Paths as they were noted.
#[derive(Clone, Copy)]
pub(super) struct NotedPaths {
    paths: PathsToNested,
    /// How many raises there had been by then.
    raises: u32,
}

/// The raises of all paths of a map, each of which extends them by one step. Several steps in turn are the greatest
/// of them, so of all raises since some paths were noted the greatest step tells what has become of these.
#[derive(Clone, Copy)]
pub(super) struct Raises {
    count: u32,
    /// How many raises there were up to the last one by each kind of step.
    steps: LastSteps,
}

impl Raises {
    /// None so far.
    pub(super) fn new() -> Raises
        ensures { result ≡ no_raises }
    {
        Raises {
            count: 0,
            steps: LastSteps::new(),
        }
    }

    /// With one more raise by the step. `None` where they can't be counted any more.
    pub(super) fn with_step(self, step: PathKind) -> Option<Raises>
        ensures { IfSome result (λ raises. raises ≡ raised self step) }
    {
        let count = self.count.checked_add(1)?;
        let steps = self.steps.with_step(step, self.count as usize);
        Some(Raises { count, steps })
    }

    /// What is noted for paths that are these now.
    pub(super) fn note(self, paths: PathsToNested) -> NotedPaths
        ensures { result ≡ noted_now self paths }
    {
        NotedPaths {
            paths,
            raises: self.count,
        }
    }

    /// What the noted paths are now.
    pub(super) fn paths_now(self, noted: NotedPaths) -> PathsToNested
        ensures { result ≡ paths_now self noted }
    {
        if noted.raises >= self.count {
            return noted.paths;
        }
        let step = self.steps.kind_past(noted.raises as usize);
        noted.paths.extend_with(step)
    }
}
