//! What a line says is entered into a table of which the names are known.
ghost use Rattle.std.specs.Prelude.{◌≡◌, ◌≤◌, ◌∷◌, [], All, length, Some, IfOk, IfErr, OnOk, map, slice_get};
ghost use Rattle.std.specs.List.{AllZip};
ghost use Rattle.type_texts.specs.Words.{Adds, GrowsLabels, HasShortName, HasShortParts, HasShortWords, HasUndeclared, IsForm, IsNumberOf, IsSameField, labels_of, meaning_of, named, named_in, names_of, parts_in, statement_of};

use crate::line::Line;
use crate::table::TypeTable;
use crate::written::{Written, WrittenField};
use search_context::context::NoMemory;
use std::alloc::{AllocError, AllocFailed, Global};
use type_order::{Field, Form, Pair};

/// Why what a line says was not entered.
#[derive(Clone, Copy)]
pub(crate) enum EntryFault {
    /// A type that it names is not declared.
    Undeclared,
    Memory,
}

impl From<AllocError> for EntryFault {
    ghost use Rattle.type_texts.specs.declared.entering.EntryFault.TheVariants.{Memory};

    ghost from_gives = { λ _ fault. fault ≡ Memory };

    fn from(_error: AllocError) -> EntryFault {
        EntryFault::Memory
    }
}

impl From<NoMemory> for EntryFault {
    ghost use Rattle.type_texts.specs.declared.entering.EntryFault.TheVariants.{Memory};

    ghost from_gives = { λ _ fault. fault ≡ Memory };

    fn from(_error: NoMemory) -> EntryFault {
        EntryFault::Memory
    }
}

impl<T: Drop> From<AllocFailed<T>> for EntryFault {
    ghost use Rattle.type_texts.specs.declared.entering.EntryFault.TheVariants.{Memory};

    ghost from_gives = { λ _ fault. fault ≡ Memory };

    fn from(_error: AllocFailed<T>) -> EntryFault {
        EntryFault::Memory
    }
}

impl TypeTable {
    /// Enters what the line says.
    pub(crate) fn enter(&mut self, alloc: Global, line: &Line<'_>) -> Result<(), EntryFault>
        requires { HasShortWords (statement_of line.now) }
        ensures added { OnOk result (Adds (statement_of line.now) self.old self.new) }
        ensures undeclared { result ≡ Err EntryFault.Undeclared →
            HasUndeclared (names_of self.old) (named_in (statement_of line.now)) }
    {
        match line {
            Line::PassedOver => {}
            Line::Type { name: _, written } => {
                let form = self.form_of(alloc, written)?;
                self.types.declare(form)?;
            }
            Line::Ask { left, right } => {
                let left = self.number_of(left)?;
                let right = self.number_of(right)?;
                self.questions.push(Pair { left, right })?;
            }
        }
        Ok(())
    }

    // The number of the type of this name.
    fn number_of(&self, name: &[u8]) -> Result<usize, EntryFault>
        ensures number { IfOk result (λ number. IsNumberOf (names_of self.now) number name.now) }
        ensures undeclared { IfErr result
            (λ fault. HasUndeclared (names_of self.now) (name.now ∷ [])) }
    {
        match self.names.number(name) {
            Some(number) => Ok(number),
            None => Err(EntryFault::Undeclared),
        }
    }

    // The number of a word, which may be new.
    fn word_of(&mut self, word: &[u8]) -> Result<u32, EntryFault>
        requires { length word.now ≤ 16 }
        ensures number { IfOk result
            (λ number. slice_get (labels_of self.new) number ≡ Some word.now) }
        ensures grows { OnOk result (GrowsLabels self.old self.new) }
        ensures refused { IfErr result (λ fault. fault ≡ EntryFault.Memory) }
    {
        let number = self.words.intern(word)?;
        u32::try_from(number).map_err(|_| EntryFault::Memory)
    }

    // What is written, by the numbers of its parts.
    fn form_of(&mut self, alloc: Global, written: &Written<'_>) -> Result<Form, EntryFault>
        requires { HasShortParts (meaning_of written.now) }
        ensures form { IfOk result (λ form.
            IsForm (names_of self.new) (labels_of self.new) form (meaning_of written.now)) }
        ensures grows { OnOk result (GrowsLabels self.old self.new) }
        ensures undeclared { result ≡ Err EntryFault.Undeclared →
            HasUndeclared (names_of self.old) (parts_in (meaning_of written.now)) }
    {
        Ok(match written {
            Written::Base(word) => Form::Base(self.word_of(word)?),
            Written::Top => Form::Top,
            Written::Bottom => Form::Bottom,
            Written::Function(argument, result) => {
                Form::Function(self.number_of(argument)?, self.number_of(result)?)
            }
            Written::Record(fields) => Form::Record(self.fields_of(alloc, fields.as_slice())?),
            Written::Union(names) => Form::Union(self.numbers_of(alloc, names.as_slice())?),
        })
    }

    fn fields_of(
        &mut self,
        alloc: Global,
        written: &[WrittenField<'_>],
    ) -> Result<Vec<Field>, EntryFault>
        requires { All HasShortName (map named written.now) }
        ensures fields { IfOk result (λ fields. AllZip
            (IsSameField (names_of self.new) (labels_of self.new)) fields.items (map named written.now)) }
        ensures grows { OnOk result (GrowsLabels self.old self.new) }
        ensures undeclared { result ≡ Err EntryFault.Undeclared →
            HasUndeclared (names_of self.old) (map (λ field. field.part) (map named written.now)) }
    {
        let mut fields = Vec::with_capacity(alloc, written.len())?;
        for field in written {
            let part = self.number_of(field.part)?;
            let name = self.word_of(field.name)?;
            fields.push(Field { name, part })?;
        }
        Ok(fields)
    }

    fn numbers_of(&self, alloc: Global, names: &[&[u8]]) -> Result<Vec<usize>, EntryFault>
        ensures numbers { IfOk result (λ numbers. AllZip (IsNumberOf (names_of self.now))
            numbers.items (map (λ name. name.now) names.now)) }
        ensures undeclared { result ≡ Err EntryFault.Undeclared →
            HasUndeclared (names_of self.now) (map (λ name. name.now) names.now) }
    {
        let mut numbers = Vec::with_capacity(alloc, names.len())?;
        for name in names {
            numbers.push(self.number_of(name)?)?;
        }
        Ok(numbers)
    }
}
