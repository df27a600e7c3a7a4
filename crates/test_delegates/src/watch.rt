//! Which goals have their stored results validated, and what is seen of that.
ghost use Rattle.std.specs.Prelude.{◌≡◌, Bool};

use crate::journal::{Event, Journal};
use std::alloc::Global;
use std::cell::Cell;

/// What a test says to a search beside the goals' context, and what it sees of it.
#[derive(Drop)]
pub struct Watch<I: Copy, R: Copy> {
    /// The goals for which a scope is given.
    pub validated: Vec<I>,
    pub journal: Journal<I, R>,
    /// The goal whose frames are refused memory, if any are.
    pub refused: Cell<Option<I>>,
}

impl<I: Copy, R: Copy> Watch<I, R> {
    /// No frame is refused memory.
    pub fn new(alloc: Global, validated: Vec<I>) -> Watch<I, R> {
        Watch {
            validated,
            journal: Journal::new(alloc),
            refused: Cell::new(None),
        }
    }
}

/// What watches a search, as a reference to a `Watch` does.
pub trait Watches<I, R>: Copy {
    ghost validates: { Self → I → Bool };

    /// Whether a scope is given for the goal.
    fn is_validated(self, goal: I) -> bool
        ensures { result ≡ validates self goal };

    /// Whether the goal's frames are refused memory.
    fn is_refused(self, goal: I) -> bool;

    /// Writes a line of the goal.
    fn note(self, goal: I, event: Event<R>);
}

impl<'a, I: Copy + PartialEq, R: Copy> Watches<I, R> for &'a Watch<I, R> {
    ghost use Rattle.std.specs.List.{list_any};

    ghost validates = { λ watch goal. list_any (λ one. I.eq one goal) watch.now.validated.items };

    fn is_validated(self, goal: I) -> bool {
        self.validated.as_slice().contains(&goal)
    }

    fn is_refused(self, goal: I) -> bool {
        self.refused.get() == Some(goal)
    }

    fn note(self, goal: I, event: Event<R>) {
        self.journal.note(goal, event);
    }
}

/// Writes a line of a goal when it is dropped.
pub struct NotesItsDrop<W: Watches<I, R>, I: Copy, R: Copy> {
    pub watch: W,
    pub goal: I,
    pub event: Event<R>,
}

impl<W: Watches<I, R>, I: Copy, R: Copy> Drop for NotesItsDrop<W, I, R> {
    fn drop(self) {
        let NotesItsDrop { watch, goal, event } = self;
        watch.note(goal, event);
    }
}
