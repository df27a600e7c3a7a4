//! The item or the question that is read.

use crate::calls::Given;
use crate::draft::Draft;
use crate::lexicon::Word;
use crate::refusal::{Problem, Stop};
use crate::spelling::Owner;
use std::alloc::Global;

/// What is read, and so what bounds say.
#[derive(Clone, Copy)]
pub(crate) enum Role {
    Question,
    /// A struct or an enum, whose bounds say nothing.
    Type,
    /// An impl, or the signature of a function, which needs what its bounds say.
    Needs,
    /// A function with something in its body, or an impl that is asked about: it assumes what its bounds say, and its
    /// parameters are types of their own.
    Body(Owner),
}

/// The item or the question that is read.
#[derive(Drop)]
pub(crate) struct Item {
    pub(crate) word: Word,
    pub(crate) parameters: Vec<Word>,
    pub(crate) draft: Draft,
    pub(crate) role: Role,
    /// The shapes of the values that a function takes.
    pub(crate) values: Vec<usize>,
    /// The values that a call has been given.
    pub(crate) given: Vec<Given>,
    /// The shape of `Self`. It is one of the draft, and of `head` where the impl is asked about.
    pub(crate) own: Option<usize>,
    pub(crate) head: Draft,
    /// That of which bounds are read, and the place of its last word.
    pub(crate) subject: usize,
    pub(crate) subject_place: usize,
    /// The trait of an impl, and the trait that is declared.
    pub(crate) bound: usize,
    pub(crate) is_positive: bool,
}

impl Item {
    /// Nothing of it is read but this word.
    pub(crate) fn new(alloc: Global, word: Word, role: Role) -> Item {
        Item {
            word,
            parameters: Vec::new(alloc),
            draft: Draft::new(alloc),
            role,
            values: Vec::new(alloc),
            given: Vec::new(alloc),
            own: None,
            head: Draft::new(alloc),
            subject: 0,
            subject_place: 0,
            bound: 0,
            is_positive: true,
        }
    }

    /// The same, in the memory of the item before.
    pub(crate) fn begin(&mut self, word: Word, role: Role) {
        self.word = word;
        self.parameters.clear();
        self.draft.clear();
        self.role = role;
        self.values.clear();
        self.given.clear();
        self.own = None;
        self.subject = 0;
        self.subject_place = 0;
        self.bound = 0;
        self.is_positive = true;
    }

    /// Whether there is no such parameter, which does not stand in the type of the impl.
    pub(crate) fn check_unused(&self, place: Option<usize>) -> Result<(), Stop> {
        match self.parameters.get(place.unwrap_or(usize::MAX)) {
            Some(unused) => Err(Stop::Refused(unused.place, Problem::Unconstrained)),
            None => Ok(()),
        }
    }
}
