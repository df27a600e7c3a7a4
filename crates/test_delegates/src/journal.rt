//! What happens to the goals of a search, in the order in which it does.

use std::alloc::Global;
use std::cell::RefCell;

/// What happens to a goal.
#[derive(Clone, Copy, PartialEq, Eq)]
pub enum Event<R> {
    FrameStarts,
    /// The goal's frame is answered this, and goes on.
    IsAnswered(R),
    FrameIsDropped,
    ScopeIsEntered,
    ScopeIsDropped,
}

/// A goal, and what happens to it.
pub type Line<I, R> = (I, Event<R>);

/// A journal of a search. It is written through a shared reference, since a scope writes a line as it is dropped, and no
/// search lends it anything then.
#[derive(Drop)]
pub struct Journal<I: Copy, R: Copy> {
    lines: RefCell<Vec<Line<I, R>>>,
}

impl<I: Copy, R: Copy> Journal<I, R> {
    /// A journal without lines.
    pub fn new(alloc: Global) -> Journal<I, R> {
        Journal {
            lines: RefCell::new(Vec::new(alloc)),
        }
    }

    /// The line at this place, if there are so many.
    pub fn get(&self, place: usize) -> Option<Line<I, R>> {
        let lines = self.lines.try_borrow().ok()?;
        lines.get(place).copied()
    }

    /// How many lines there are.
    pub fn count(&self) -> usize {
        match self.lines.try_borrow() {
            Ok(lines) => lines.len(),
            Err(_) => 0,
        }
    }

    /// Writes a line. It is lost where memory is out.
    pub fn note(&self, goal: I, event: Event<R>) {
        if let Ok(mut lines) = self.lines.try_borrow_mut() {
            let _written = lines.push((goal, event)).is_ok();
        }
    }

    /// Forgets all lines.
    pub fn clear(&self) {
        if let Ok(mut lines) = self.lines.try_borrow_mut() {
            lines.clear();
        }
    }
}
