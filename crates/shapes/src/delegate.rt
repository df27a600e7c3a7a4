//! The rule of equality: which questions a pair of shapes has.
ghost use Rattle.std.specs.Prelude.{◌≡◌};
ghost use Rattle.std.specs.Option.{option_map};
ghost use Rattle.shapes.specs.Bisimulation.{equations_of};
ghost use Rattle.shapes.specs.Rule.{matched_parts, most_parts, needs_of, parts_at, questions_of};

use crate::equations::Shapes;
use delegate_parts::Lends;
use question_lists::{ListsDelegate, Needs, QuestionLists};
use search_context::path::PathKind;

/// Two shapes, by their numbers: the question whether they are equal.
#[derive(Clone, Copy, Debug, PartialEq, Eq, Hash)]
pub struct Pair {
    pub left: usize,
    pub right: usize,
}

/// The pairs of the shapes that are lent, as goals.
#[derive(Clone, Copy)]
pub struct PairsOf<S> {
    pub lender: S,
}

/// The delegate of equality, which has eight runs of a pair and the provisional cache.
pub type ShapesDelegate<S> = ListsDelegate<PairsOf<S>, 8, 1>;

impl Shapes {
    // The parts of both shapes, if they have one label and as many parts.
    fn matched_parts(&self, pair: Pair) -> Option<(&[usize], &[usize])>
        ensures { option_map (λ m. (m.0.now, m.1.now)) result
            ≡ matched_parts (equations_of self.now) pair.left pair.right }
    {
        let left = self.equation(pair.left)?;
        let right = self.equation(pair.right)?;
        if left.label != right.label || left.parts.len() != right.parts.len() {
            return None;
        }
        Some((left.parts.as_slice(), right.parts.as_slice()))
    }

    // The parts at one place, if the shapes match and have as many.
    fn parts_at(&self, pair: Pair, place: usize) -> Option<Pair>
        ensures { result
            ≡ parts_at (matched_parts (equations_of self.now) pair.left pair.right) place }
    {
        let (left, right) = self.matched_parts(pair)?;
        Some(Pair {
            left: *left.get(place)?,
            right: *right.get(place)?,
        })
    }
}

// Where labels and numbers of parts agree, each part is asked against its fellow, coinductively; else the pair is
// refuted at once, as one that needs any of no questions.
impl<S: Lends<Shapes>> QuestionLists for PairsOf<S> {
    ghost use Rattle.std.proofs.Common.{rules};

    type Input = Pair;

    ghost needs_of = { λ pairs pair. needs_of (equations_of (S.lent_by pairs.lender)) pair };

    ghost questions_of = { λ pairs pair. questions_of (equations_of (S.lent_by pairs.lender)) pair };

    ghost most = { λ pairs. most_parts (equations_of (S.lent_by pairs.lender)) };

    ghost same_input = { Prim.search rules };

    fn needs(self, pair: Pair) -> Needs {
        match self.lender.lent().matched_parts(pair) {
            Some(_) => Needs::All,
            None => Needs::Any,
        }
    }

    fn count(self, pair: Pair) -> usize {
        match self.lender.lent().matched_parts(pair) {
            Some((left, _)) => left.len(),
            None => 0,
        }
    }

    fn question(self, pair: Pair, place: usize) -> (PathKind, Pair) {
        let asked = self.lender.lent().parts_at(pair, place).unwrap_or(pair); // there is one
        (PathKind::Coinductive, asked)
    }
}
