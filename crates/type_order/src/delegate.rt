//! The rule of subtypes: which questions a pair of types has.
ghost use Rattle.std.specs.Prelude.{◌≡◌, length, slice_get};
ghost use Rattle.type_order.specs.Subtypes.{forms_of};
ghost use Rattle.type_order.specs.Rule.{alternatives_in, case_of, fields_in, function_pairs, left_pairs, most_questions, needs_of, pairs_of, parts_in, questions_of, record_pairs, right_pairs};

use crate::fields::{Field, has_all, part_of};
use crate::types::{Form, Types};
use delegate_parts::Lends;
use question_lists::{Needs, QuestionLists};
use search_context::path::PathKind;

/// Two types, by their numbers: the question whether the left one is below the right one.
#[derive(Clone, Copy, Debug, PartialEq, Eq, Hash)]
pub struct Pair {
    pub left: usize,
    pub right: usize,
}

/// The pairs of the types that are lent, as goals.
#[derive(Clone, Copy)]
pub struct PairsOf<T> {
    pub lender: T,
}

/// How a pair is decided, by the forms of its types.
#[derive(Clone, Copy)]
pub enum Case {
    /// The left one is below the right one, whatever their parts are.
    Holds,
    /// It is not, whatever their parts are.
    Fails,
    /// It is if each alternative of the left one is below the right one.
    SplitsLeft,
    /// It is if it is below some alternative of the right one.
    SplitsRight,
    /// It is if the arguments are below each other the other way round, and the results this way.
    BetweenFunctions,
    /// It is if each field of the right one has its fellow in the left one below it.
    BetweenRecords,
}

impl Types {
    /// How the pair is decided. A union on the left is taken apart before one on the right.
    pub fn case(&self, pair: Pair) -> Case
        ensures { result ≡ case_of (forms_of self.now) pair }
    {
        match (self.form(pair.left), self.form(pair.right)) {
            (Some(Form::Bottom), _) => Case::Holds,
            (_, Some(Form::Top)) => Case::Holds,
            (Some(Form::Union(_)), _) => Case::SplitsLeft,
            (_, Some(Form::Union(_))) => Case::SplitsRight,
            (Some(Form::Base(left)), Some(Form::Base(right))) if *left == *right => Case::Holds,
            (Some(Form::Function(_, _)), Some(Form::Function(_, _))) => Case::BetweenFunctions,
            (Some(Form::Record(left)), Some(Form::Record(right))) if has_all(left, right) => {
                Case::BetweenRecords
            }
            _ => Case::Fails,
        }
    }

    // The alternatives of a union, and none of another type.
    fn alternatives(&self, number: usize) -> &[usize]
        ensures { result.now ≡ alternatives_in (slice_get (forms_of self.now) number) }
    {
        match self.form(number) {
            Some(Form::Union(alternatives)) => alternatives.as_slice(),
            _ => &[],
        }
    }

    /// The fields of a record, and none of another type.
    pub fn fields(&self, number: usize) -> &[Field]
        ensures { result.now ≡ fields_in (slice_get (forms_of self.now) number) }
    {
        match self.form(number) {
            Some(Form::Record(fields)) => fields.as_slice(),
            _ => &[],
        }
    }

    // The argument and the result of a function.
    fn parts(&self, number: usize) -> Option<(usize, usize)>
        ensures { result ≡ parts_in (slice_get (forms_of self.now) number) }
    {
        match self.form(number) {
            Some(Form::Function(argument, result)) => Some((*argument, *result)),
            _ => None,
        }
    }

    /// How many questions the pair has.
    pub fn asked_count(&self, pair: Pair) -> usize
        ensures { result ≡ length (pairs_of (forms_of self.now) pair) }
    {
        match self.case(pair) {
            Case::Holds | Case::Fails => 0,
            Case::SplitsLeft => self.alternatives(pair.left).len(),
            Case::SplitsRight => self.alternatives(pair.right).len(),
            Case::BetweenFunctions => 2,
            Case::BetweenRecords => self.fields(pair.right).len(),
        }
    }

    /// The pair that is asked at a place, if there is one.
    pub fn asked(&self, pair: Pair, place: usize) -> Option<Pair>
        ensures { result ≡ slice_get (pairs_of (forms_of self.now) pair) place }
    {
        match self.case(pair) {
            Case::Holds | Case::Fails => None,
            Case::SplitsLeft => self.asked_left(pair, place),
            Case::SplitsRight => self.asked_right(pair, place),
            Case::BetweenFunctions => self.asked_function(pair, place),
            Case::BetweenRecords => self.asked_record(pair, place),
        }
    }

    // An alternative of the left type against the right one.
    fn asked_left(&self, pair: Pair, place: usize) -> Option<Pair>
        ensures { result
            ≡ slice_get (left_pairs (slice_get (forms_of self.now) pair.left) pair.right) place }
    {
        let left = *self.alternatives(pair.left).get(place)?;
        Some(Pair { left, ..pair })
    }

    // The left type against an alternative of the right one.
    fn asked_right(&self, pair: Pair, place: usize) -> Option<Pair>
        ensures { result
            ≡ slice_get (right_pairs pair.left (slice_get (forms_of self.now) pair.right)) place }
    {
        let right = *self.alternatives(pair.right).get(place)?;
        Some(Pair { right, ..pair })
    }

    // The arguments turned round, or the results.
    fn asked_function(&self, pair: Pair, place: usize) -> Option<Pair>
        ensures { result
            ≡ slice_get (function_pairs (parts_in (slice_get (forms_of self.now) pair.left)) (parts_in (slice_get (forms_of self.now) pair.right))) place }
    {
        let left = self.parts(pair.left)?;
        let right = self.parts(pair.right)?;
        let arguments = Pair {
            left: right.0,
            right: left.0,
        };
        let results = Pair {
            left: left.1,
            right: right.1,
        };
        [arguments, results].get(place).copied()
    }

    // The fields of one name; the left one has it, too.
    fn asked_record(&self, pair: Pair, place: usize) -> Option<Pair>
        ensures { result
            ≡ slice_get (record_pairs (fields_in (slice_get (forms_of self.now) pair.left)) (fields_in (slice_get (forms_of self.now) pair.right))) place }
    {
        let fields = self.fields(pair.right);
        let name = fields.get(place)?.name;
        Some(Pair {
            left: part_of(self.fields(pair.left), name).unwrap_or(0),
            right: part_of(fields, name).unwrap_or(0),
        })
    }
}

// Everything is asked coinductively. A pair that fails needs any of no questions.
impl<T: Lends<Types>> QuestionLists for PairsOf<T> {
    ghost use Rattle.std.proofs.Common.{rules};

    type Input = Pair;

    ghost needs_of = { λ pairs pair. needs_of (forms_of (T.lent_by pairs.lender)) pair };

    ghost questions_of = { λ pairs pair. questions_of (forms_of (T.lent_by pairs.lender)) pair };

    ghost most = { λ pairs. most_questions (forms_of (T.lent_by pairs.lender)) };

    ghost same_input = { Prim.search rules };

    fn needs(self, pair: Pair) -> Needs {
        match self.lender.lent().case(pair) {
            Case::Fails | Case::SplitsRight => Needs::Any,
            _ => Needs::All,
        }
    }

    fn count(self, pair: Pair) -> usize {
        self.lender.lent().asked_count(pair)
    }

    fn question(self, pair: Pair, place: usize) -> (PathKind, Pair) {
        let asked = self.lender.lent().asked(pair, place).unwrap_or(pair); // there is one
        (PathKind::Coinductive, asked)
    }
}
