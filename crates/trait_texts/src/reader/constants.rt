//! Parameters that are types of their own: those of functions in their bodies, and of impls that are asked about.

use super::{Reader, type_at};
use crate::draft::Draft;
use crate::item::Role;
use crate::lexicon::{Parameter, Word};
use crate::names::Names;
use crate::refusal::{Problem, Stop};
use crate::spelling::Owner;

impl Reader {
    /// What follows is the body of the function, before which its signature is read again.
    pub(super) fn begin_body(&mut self) -> Result<(), Stop> {
        let word = self.item.word;
        self.begin_item(word, Role::Body(Owner::Function(word.name)))
    }

    /// Begins to read the impl of this place in `impls` again, if its trait has supertraits.
    pub(crate) fn begin_definition(&mut self, index: usize) -> Result<bool, Stop> {
        match self.impls.get(index).copied() {
            Some((word, Some(bound))) if !self.lexicon.above(bound).is_empty() => {
                let number = index.saturating_add(1);
                self.begin_item(word, Role::Body(Owner::Impl(number)))?;
                Ok(true)
            }
            _ => Ok(false),
        }
    }

    /// The word names the parameter of the function whose name stands before it.
    pub(super) fn name_constant(&mut self, word: Word) -> Result<(), Stop> {
        let function = self.open.end()?.word;
        self.put_constant(Owner::Function(function.name), function.place, word)
    }

    /// Only a question names the parameter of a function or an impl, whose name or number stands at this place.
    pub(super) fn put_constant(
        &mut self,
        owner: Owner,
        place: usize,
        word: Word,
    ) -> Result<(), Stop> {
        let Role::Question = self.item.role else {
            return Err(Stop::Refused(place, Problem::NoType));
        };
        let constructor = self
            .forms
            .name_constant(self.alloc, &mut self.program, owner, word)?;
        self.put_parameter(Parameter::Constant(constructor))
    }

    /// In the body of a function a parameter is a type of its own, and where an impl is asked about.
    pub(super) fn add_constant(&mut self, owner: Owner, word: Word) -> Result<(), Stop> {
        let constructor = self
            .forms
            .declare_constant(self.alloc, &mut self.program, owner, word.name)?;
        self.item.draft = Draft::new(self.alloc);
        self.item.subject = self.item.draft.constructor(constructor)?;
        self.lexicon
            .set_parameter(word.name, Parameter::Constant(constructor))
    }

    /// Of the parameters that are types of their own each has a size that is not said to have none.
    pub(super) fn relax(&mut self) -> Result<(), Stop> {
        match self.item.draft.outermost(self.item.subject) {
            Some(constructor) if matches!(self.item.role, Role::Body(_)) => {
                self.forms.relax(constructor)
            }
            _ => Ok(()),
        }
    }

    /// Nothing may be assumed that is not about parameters: it would hold elsewhere, too.
    pub(super) fn assume(&mut self, owner: Owner, bounds: Vec<usize>) -> Result<(), Stop> {
        let draft = self.take_draft();
        if bounds.is_empty() {
            return Ok(());
        }
        if self.forms.has_constant(draft.shapes()) {
            return self.forms.hold(draft, self.item.subject, bounds);
        }
        match owner {
            Owner::Function(_) => {
                Err(Stop::Refused(self.item.subject_place, Problem::NoParameter))
            }
            Owner::Impl(_) => Ok(()),
        }
    }

    /// Asks of the type of the impl what stands above the trait. Where-clauses may still name the type.
    pub(super) fn define(&mut self, head: usize) -> Result<(), Stop> {
        let shapes = self.item.draft.shapes();
        let types = self.program.types_of(self.alloc, shapes, &[])?;
        let subject = type_at(types.as_slice(), head)?;
        let above = self.lexicon.above(self.item.bound);
        self.definitions = self.definitions.saturating_add(above.len());
        self.asking.ask(&mut self.program, subject, above)?;
        self.item.head = self.take_draft();
        self.item.own = Some(head);
        Ok(())
    }

    /// The parameters that have a size implement `Sized`, if a trait has that name.
    pub(super) fn hold_sized(&mut self) -> Result<(), Stop> {
        match self.lexicon.bound(Names::sized()) {
            Some(bound) => self.forms.hold_sized(self.alloc, bound),
            None => Ok(()),
        }
    }
}
