//! The rule of a service: what it needs, and by which kind of step each of these is asked.
ghost use Rattle.std.specs.Prelude.{◌≡◌};
ghost use Rattle.services.specs.Rule.{most_needs, needs_of, questions_of};

use crate::service::{Service, needs_at};
use delegate_parts::Lends;
use question_lists::{ListsDelegate, Needs, QuestionLists};
use search_context::path::PathKind;

/// The services that are lent, as goals: whether the one with this number can run.
#[derive(Clone, Copy)]
pub struct RunsOf<S> {
    pub lender: S,
}

/// The delegate of services, which has eight runs of a service and the provisional cache.
pub type ServicesDelegate<S> = ListsDelegate<RunsOf<S>, 8, 1>;

// A service needs all that it needs. What is no service needs any of no questions, so it can't run.
impl<S: Lends<Vec<Service>>> QuestionLists for RunsOf<S> {
    ghost use Rattle.std.proofs.Common.{rules};

    type Input = usize;

    ghost needs_of = { λ runs number. needs_of (S.lent_by runs.lender).items number };

    ghost questions_of = { λ runs number. questions_of (S.lent_by runs.lender).items number };

    ghost most = { λ runs. most_needs (S.lent_by runs.lender).items };

    ghost same_input = { Prim.search rules };

    fn needs(self, number: usize) -> Needs {
        match self.lender.lent().get(number) {
            Some(_) => Needs::All,
            None => Needs::Any,
        }
    }

    fn count(self, number: usize) -> usize {
        needs_at(self.lender.lent().as_slice(), number).len()
    }

    fn question(self, number: usize, place: usize) -> (PathKind, usize) {
        match needs_at(self.lender.lent().as_slice(), number).get(place) {
            Some(need) => (need.kind(), need.service),
            None => (PathKind::Inductive, number), // there is one
        }
    }
}
