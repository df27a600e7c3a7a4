//! A rule in the making.
ghost use Rattle.std.specs.Prelude.{◌≡◌, ◌<◌, [], ◌∷◌, ◌++◌, length, IfOk, IfSome, OnOk, slice_get};
ghost use Rattle.trait_texts.specs.WellFormed.{Each, HasPartsBefore, IsOutermost, IsWellFormed};

use crate::refusal::Stop;
use std::alloc::Global;
use std::marker::Model;
use trait_rules::{Bound, Clause, Rule, Shape};

/// The shapes and the clauses of a rule. Parameters come first, each once.
#[derive(Drop)]
pub(crate) struct Draft {
    shapes: Vec<Shape>,
    clauses: Vec<Clause>,
}

impl Model for Draft {
    ghost use Rattle.trait_texts.specs.WellFormed.{Drafted, IsDraft};

    ghost Value = { Drafted };

    ghost view = { λ d. record { shapes = d.shapes.items; clauses = d.clauses.items } };

    ghost invariant = { λ d. IsDraft d.shapes.items d.clauses.items };
}

impl Draft {
    pub(crate) fn new(alloc: Global) -> Draft {
        Draft {
            shapes: Vec::new(alloc),
            clauses: Vec::new(alloc),
        }
    }

    /// Leaves all out.
    pub(crate) fn clear(&mut self) {
        self.shapes.clear();
        self.clauses.clear();
    }

    /// So many parameters, and no clause.
    pub(crate) fn with_parameters(alloc: Global, count: usize) -> Result<Draft, Stop> {
        let mut draft = Draft::new(alloc);
        for _ in 0..count {
            draft.parameter()?;
        }
        Ok(draft)
    }

    /// The same shapes, and no clause.
    pub(crate) fn copied(&self, alloc: Global) -> Result<Draft, Stop> {
        Ok(Draft {
            shapes: Vec::from_slice(alloc, self.shapes.as_slice())?,
            clauses: Vec::new(alloc),
        })
    }

    /// The shapes.
    pub(crate) fn shapes(&self) -> &[Shape]
        ensures shapes { result.now ≡ self.now.shapes }
        ensures parts_first { Each HasPartsBefore self.now.shapes }
    {
        self.shapes.as_slice()
    }

    // The shape of this number.
    fn shape(&self, number: usize) -> Option<Shape>
        ensures { result ≡ slice_get self.now.shapes number }
    {
        self.shapes.get(number).copied()
    }

    /// The clauses.
    pub(crate) fn clauses(&self) -> &[Clause]
        ensures { result.now ≡ self.now.clauses }
    {
        self.clauses.as_slice()
    }

    // One more shape.
    fn add(&mut self, shape: Shape) -> Result<usize, Stop>
        requires { HasPartsBefore (length self.old.shapes) shape }
        ensures number { IfOk result (λ number. number ≡ length self.old.shapes) }
        ensures added { OnOk result (self.new.shapes ≡ self.old.shapes ++ shape ∷ []) }
        ensures clauses { self.new.clauses ≡ self.old.clauses }
    {
        let number = self.shapes.len();
        self.shapes.push(shape)?;
        Ok(number)
    }

    /// One more parameter.
    pub(crate) fn parameter(&mut self) -> Result<usize, Stop> {
        self.add(Shape::Parameter)
    }

    /// A constructor without arguments.
    pub(crate) fn constructor(&mut self, constructor: usize) -> Result<usize, Stop> {
        self.add(Shape::Constructor(constructor))
    }

    /// A shape with one argument more. Both have to be there.
    pub(crate) fn applied(&mut self, shape: usize, argument: usize) -> Result<usize, Stop> {
        let number = self.shapes.len();
        if shape >= number || argument >= number {
            return Err(Stop::Memory);
        }
        self.add(Shape::Applied(shape, argument))
    }

    /// A constructor with these arguments.
    pub(crate) fn applied_to(
        &mut self,
        constructor: usize,
        arguments: &[usize],
    ) -> Result<usize, Stop> {
        let mut shape = self.constructor(constructor)?;
        for argument in arguments {
            shape = self.applied(shape, *argument)?;
        }
        Ok(shape)
    }

    /// The shapes of another draft behind these. Returns the one that has this number there.
    pub(crate) fn append(&mut self, other: &Draft, number: usize) -> Result<usize, Stop> {
        let before = self.shapes.len();
        for shape in other.shapes() {
            match shape {
                Shape::Parameter => self.parameter()?,
                Shape::Constructor(constructor) => self.constructor(*constructor)?,
                Shape::Applied(shape, argument) => self.applied(
                    before.saturating_add(*shape),
                    before.saturating_add(*argument),
                )?,
            };
        }
        Ok(before.saturating_add(number))
    }

    /// One more clause. Its shape has to be there.
    pub(crate) fn ask(&mut self, shape: usize, bound: Bound) -> Result<(), Stop> {
        if shape >= self.shapes.len() {
            return Err(Stop::Memory);
        }
        self.clauses.push(Clause { shape, bound })?;
        Ok(())
    }

    /// The outermost constructor of the shape, if it is no parameter.
    pub(crate) fn outermost(&self, shape: usize) -> Option<usize>
        ensures { IfSome result (IsOutermost self.now.shapes shape) }
    {
        let mut at = shape;
        for _ in 0..self.shapes.len() {
            match self.shape(at)? {
                Shape::Parameter => return None,
                Shape::Constructor(constructor) => return Some(constructor),
                Shape::Applied(shape, _) => at = shape,
            }
        }
        None
    }

    /// The first of so many parameters which is no part of another shape, and is not the head.
    pub(crate) fn unused(
        &self,
        alloc: Global,
        count: usize,
        head: usize,
    ) -> Result<Option<usize>, Stop> {
        let mut is_used = vec![in alloc; false; count]?;
        mark(is_used.as_mut_slice(), head);
        for shape in self.shapes.as_slice() {
            if let Shape::Applied(shape, argument) = shape {
                mark(is_used.as_mut_slice(), *shape);
                mark(is_used.as_mut_slice(), *argument);
            }
        }
        Ok(is_used.iter().position(|used| !*used))
    }

    /// The rule for types of the shape `head`, which has to be there, in memory that is no more than it needs.
    pub(crate) fn copied_rule(&self, alloc: Global, head: usize) -> Result<Rule, Stop>
        ensures well_formed { IfOk result (λ rule. IsWellFormed rule) }
        ensures shapes { IfOk result (λ rule. rule.shapes.items ≡ self.now.shapes) }
        ensures head { IfOk result (λ rule. rule.head ≡ head) }
    {
        let draft = Draft {
            shapes: Vec::from_slice(alloc, self.shapes.as_slice())?,
            clauses: Vec::from_slice(alloc, self.clauses.as_slice())?,
        };
        draft.rule(head)
    }

    /// The rule for types of the shape `head`, which has to be there.
    pub(crate) fn rule(self, head: usize) -> Result<Rule, Stop>
        ensures well_formed { IfOk result (λ rule. IsWellFormed rule) }
        ensures shapes { IfOk result (λ rule. rule.shapes.items ≡ self.shapes) }
        ensures head { IfOk result (λ rule. rule.head ≡ head) }
    {
        let Draft { shapes, clauses } = self;
        if head >= shapes.len() {
            return Err(Stop::Memory);
        }
        Ok(Rule {
            shapes,
            head,
            clauses,
        })
    }
}

fn mark(marks: &mut [bool], number: usize) {
    if let Some(mark) = marks.get_mut(number) {
        *mark = true;
    }
}
