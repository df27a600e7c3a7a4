//! What is read of rules, types and questions.
ghost use Rattle.std.specs.Prelude.{◌≡◌, length, IfSome};
ghost use Rattle.trait_texts.specs.WellFormed.{AreAsked, AreSound, IsRuleOf, IsWellFormed};

use crate::declarations::Question;
use crate::draft::Draft;
use crate::refusal::Stop;
use path_kinds::path::PathKind;
use std::alloc::Global;
use std::marker::Model;
use std::mem;
use trait_rules::{Bound, Clause, Constructor, Listed, Made, Rule, Rules, Shape, Terms, Trait};

/// Rules, types and questions.
#[derive(Drop)]
pub(crate) struct Program {
    rules: Rules,
    terms: Terms,
    questions: Vec<Question>,
}

impl Model for Program {
    ghost use Rattle.trait_texts.specs.WellFormed.{IsTold, Told};

    ghost Value = { Told };

    ghost view = { λ p. record { rules = p.rules; made = p.terms; questions = p.questions.items } };

    ghost invariant = { λ p. IsTold p.rules p.terms p.questions.items };
}

impl Program {
    /// No rules, types and questions.
    pub(crate) fn new(alloc: Global) -> Program {
        Program {
            rules: Rules {
                traits: Vec::new(alloc),
                constructors: Vec::new(alloc),
            },
            terms: Terms::new(alloc),
            questions: Vec::new(alloc),
        }
    }

    /// All of it.
    pub(crate) fn into_parts(self) -> (Rules, Terms, Vec<Question>)
        ensures rules { AreSound result.0 }
        ensures questions { AreAsked (length result.0.traits.items) (length result.1) result.2.items }
    {
        let Program {
            rules,
            terms,
            questions,
        } = self;
        (rules, terms, questions)
    }

    /// One more trait, of which nothing is known yet.
    pub(crate) fn add_trait(&mut self, alloc: Global) -> Result<usize, Stop> {
        let number = self.rules.traits.len();
        self.rules.traits.push(Trait {
            kind: PathKind::Inductive,
            is_auto: false,
            blanket: Vec::new(alloc),
        })?;
        Ok(number)
    }

    /// How the trait asks, and whether it is an auto trait.
    pub(crate) fn set_trait(&mut self, number: usize, kind: PathKind, is_auto: bool) {
        let Some(found) = self.rules.traits.get_mut(number) else {
            return;
        };
        found.kind = kind;
        found.is_auto = is_auto;
    }

    /// One more constructor, without a rule by fields.
    pub(crate) fn add_constructor(&mut self, alloc: Global) -> Result<usize, Stop> {
        let number = self.rules.constructors.len();
        self.rules.constructors.push(Constructor {
            fields: None,
            impls: Vec::new(alloc),
        })?;
        Ok(number)
    }

    /// The rule by fields for types of the shape `head`, which is no parameter.
    pub(crate) fn set_fields(
        &mut self,
        alloc: Global,
        draft: &Draft,
        head: usize,
    ) -> Result<(), Stop> {
        if let Some(constructor) = draft.outermost(head) {
            let rule = draft.copied_rule(alloc, head)?;
            self.put_fields(constructor, rule);
        }
        Ok(())
    }

    fn put_fields(&mut self, constructor: usize, rule: Rule)
        requires { IsRuleOf constructor rule }
    {
        let Some(found) = self.rules.constructors.get_mut(constructor) else {
            return;
        };
        let _ = mem::replace(&mut found.fields, Some(rule));
    }

    /// An impl for types of the shape `head`. A negative one for a parameter alone says nothing.
    pub(crate) fn implement(
        &mut self,
        bound: usize,
        draft: Draft,
        head: usize,
        is_positive: bool,
    ) -> Result<(), Stop> {
        match draft.outermost(head) {
            Some(constructor) if is_positive => {
                let rule = draft.rule(head)?;
                self.list(constructor, bound, Some(rule))
            }
            Some(constructor) => self.list(constructor, bound, None),
            None if is_positive => {
                let rule = draft.rule(head)?;
                self.blanket(bound, rule)
            }
            None => Ok(()),
        }
    }

    /// Types of the shape `head` implement the trait. An auto trait still looks at the fields of other types of their
    /// constructor.
    pub(crate) fn hold(&mut self, bound: usize, draft: Draft, head: usize) -> Result<(), Stop> {
        match draft.outermost(head) {
            Some(constructor) if self.has_fields(bound, constructor) => {
                let rule = draft.rule(head)?;
                self.blanket(bound, rule)
            }
            _ => self.implement(bound, draft, head, true),
        }
    }

    // Whether the trait looks at the fields of types of the constructor, if there is no impl for it.
    fn has_fields(&self, bound: usize, constructor: usize) -> bool {
        match (
            self.rules.traits.get(bound),
            self.rules.constructors.get(constructor),
        ) {
            (Some(asked), Some(known)) => asked.is_auto && known.fields.is_some(),
            _ => false,
        }
    }

    // An impl for the constructor.
    fn list(&mut self, constructor: usize, bound: usize, rule: Option<Rule>) -> Result<(), Stop>
        requires { IfSome rule (IsRuleOf constructor) }
    {
        let Some(found) = self.rules.constructors.get_mut(constructor) else {
            return Ok(());
        };
        found.impls.push(Listed { bound, rule })?;
        Ok(())
    }

    // An impl for any type.
    fn blanket(&mut self, bound: usize, rule: Rule) -> Result<(), Stop>
        requires { IsWellFormed rule }
    {
        let Some(found) = self.rules.traits.get_mut(bound) else {
            return Ok(());
        };
        found.blanket.push(rule)?;
        Ok(())
    }

    /// The types of these shapes, with these types in the places of the parameters.
    pub(crate) fn types_of(
        &mut self,
        alloc: Global,
        shapes: &[Shape],
        arguments: &[usize],
    ) -> Result<Vec<usize>, Stop> {
        let mut types = Vec::with_capacity(alloc, shapes.len())?;
        for (place, shape) in shapes.iter().enumerate() {
            let argument = arguments.get(place).copied();
            let number = self.type_of(*shape, types.as_slice(), argument)?;
            types.push(number)?;
        }
        Ok(types)
    }

    // The type of a shape, by those of the shapes before it. That of a parameter is the argument.
    fn type_of(
        &mut self,
        shape: Shape,
        types: &[usize],
        argument: Option<usize>,
    ) -> Result<usize, Stop> {
        match shape {
            Shape::Parameter => argument.ok_or(Stop::Memory),
            Shape::Constructor(constructor) => self.of_none(constructor),
            Shape::Applied(shape, argument) => {
                let shape = types.get(shape).copied().ok_or(Stop::Memory)?;
                let argument = types.get(argument).copied().ok_or(Stop::Memory)?;
                self.applied(shape, argument)
            }
        }
    }

    // A type with one argument more.
    fn applied(&mut self, number: usize, argument: usize) -> Result<usize, Stop> {
        let number = self.terms.applied(number, argument)?;
        number.ok_or(Stop::Memory)
    }

    /// The type of a constructor without arguments.
    pub(crate) fn of_none(&mut self, constructor: usize) -> Result<usize, Stop> {
        Ok(self.terms.constructor(constructor)?)
    }

    /// A type of a constructor with one argument.
    pub(crate) fn of_one(&mut self, constructor: usize, argument: usize) -> Result<usize, Stop> {
        let number = self.of_none(constructor)?;
        self.applied(number, argument)
    }

    /// How the type of this number is made.
    pub(crate) fn made(&self, number: usize) -> Option<Made> {
        self.terms.get(number)
    }

    /// One more question. Its type and its trait have to be there.
    pub(crate) fn ask(&mut self, question: Question) -> Result<(), Stop> {
        if question.subject >= self.terms.len() || question.bound >= self.rules.traits.len() {
            return Err(Stop::Memory);
        }
        self.questions.push(question)?;
        Ok(())
    }

    /// A question for each clause, with these types for the shapes.
    pub(crate) fn ask_all(&mut self, clauses: &[Clause], types: &[usize]) -> Result<(), Stop> {
        for clause in clauses {
            if let Bound::Trait(bound) = clause.bound {
                let subject = types.get(clause.shape).copied().ok_or(Stop::Memory)?;
                self.ask(Question { subject, bound })?;
            }
        }
        Ok(())
    }
}
