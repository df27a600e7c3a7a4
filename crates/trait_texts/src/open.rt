//! Types that have begun.

use crate::lexicon::Word;
use crate::refusal::{Stop, push};
use std::alloc::Global;
use std::marker::Model;
use std::mem;

/// A type that has begun: the word with which it did, and the number of its first part.
#[derive(Clone, Copy)]
pub(crate) struct Start {
    pub(crate) word: Word,
    pub(crate) first: usize,
}

/// The types that have begun, the innermost last; the shapes of types that are whole, and the traits of bounds.
#[derive(Drop)]
pub(crate) struct Open {
    starts: Vec<Start>,
    parts: Vec<usize>,
    bounds: Vec<usize>,
}

// Nothing is promised of what is in it.
impl Model for Open {
    ghost Value = { Unit {0} };

    ghost view = { λ _. tt };
}

impl Open {
    /// Nothing has begun.
    pub(crate) fn new(alloc: Global) -> Open {
        Open {
            starts: Vec::new(alloc),
            parts: Vec::new(alloc),
            bounds: Vec::new(alloc),
        }
    }

    /// A type begins behind this word.
    pub(crate) fn begin(&mut self, word: Word) -> Result<(), Stop> {
        let first = self.parts.len();
        push(&mut self.starts, Start { word, first })
    }

    /// The type that began last has all its parts.
    pub(crate) fn end(&mut self) -> Result<Start, Stop> {
        self.starts.pop().ok_or(Stop::Memory)
    }

    /// The type that began last is the one that was whole last.
    pub(crate) fn leave(&mut self) -> Result<(), Stop> {
        match self.starts.pop() {
            Some(_) => Ok(()),
            None => Err(Stop::Memory),
        }
    }

    /// The parts from this number on.
    pub(crate) fn parts_from(&self, first: usize) -> &[usize] {
        match self.parts.as_slice().split_at_checked(first) {
            Some((_, parts)) => parts,
            None => &[],
        }
    }

    /// How many parts the type has that began last.
    pub(crate) fn part_count(&self) -> usize {
        match self.starts.last() {
            Some(start) => self.parts.len().saturating_sub(start.first),
            None => 0,
        }
    }

    /// Leaves the parts out that come from this number on.
    pub(crate) fn drop_parts(&mut self, first: usize) {
        self.parts.truncate(first);
    }

    /// One more type is whole.
    pub(crate) fn put(&mut self, shape: usize) -> Result<(), Stop> {
        push(&mut self.parts, shape)
    }

    /// Takes the type that was whole last.
    pub(crate) fn take(&mut self) -> Result<usize, Stop> {
        self.parts.pop().ok_or(Stop::Memory)
    }

    /// One more bound.
    pub(crate) fn add_bound(&mut self, bound: usize) -> Result<(), Stop> {
        push(&mut self.bounds, bound)
    }

    /// The bounds.
    pub(crate) fn bounds(&self) -> &[usize] {
        self.bounds.as_slice()
    }

    /// Leaves the bounds out.
    pub(crate) fn forget_bounds(&mut self) {
        self.bounds.clear();
    }

    /// Takes the bounds.
    pub(crate) fn take_bounds(&mut self, alloc: Global) -> Vec<usize> {
        mem::replace(&mut self.bounds, Vec::new(alloc))
    }
}
