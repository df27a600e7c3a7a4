//! Equations, each of which declares a type.
ghost use Rattle.std.specs.Prelude.{◌≡◌, ◌≤◌, ◌∷◌, ◌++◌, [], length, slice_get, IfOk, OnOk, OnErr};
ghost use Rattle.std.specs.Option.{option_copied};
ghost use Rattle.type_order.specs.Parts.{extent_of, parts_of};

use crate::fields::Field;
use search_context::context::NoMemory;
use std::alloc::Global;

/// What a type is. Its parts are told by their numbers.
#[derive(Debug, Drop)]
pub enum Form {
    /// A base type: below itself alone, and told from others by its word.
    Base(u32),
    /// The type above all.
    Top,
    /// The type below all.
    Bottom,
    /// A function from the first type to the second.
    Function(usize, usize),
    /// A record. The order of its fields does not matter; a second field of one name counts for nothing.
    Record(Vec<Field>),
    /// What is of one of these types. Of none it is as the bottom.
    Union(Vec<usize>),
}

impl Form {
    // How many parts it has.
    fn part_count(&self) -> usize
        ensures { result ≡ length (parts_of self.now) }
    {
        match self {
            Form::Function(_, _) => 2,
            Form::Record(fields) => fields.len(),
            Form::Union(alternatives) => alternatives.len(),
            _ => 0,
        }
    }
}

/// How many types there may be, together with their parts. A `usize` then counts all pairs of them, and some more.
const MOST: usize = 4294967294;

/// Types. The number of a type is the place of its equation.
#[derive(Debug, Drop)]
pub struct Types {
    forms: Vec<Form>,
    // How many types there are, together with their parts.
    extent: usize,
    ghost counted: { extent ≡ extent_of forms.items },
    ghost within: { extent ≤ 4294967294 },
}

impl Types {
    ghost use Rattle.type_order.specs.Subtypes.{forms_of};

    /// No types yet. It takes no memory.
    pub fn new(alloc: Global) -> Types
        ensures { forms_of result ≡ [] }
    {
        Types {
            forms: Vec::new(alloc),
            extent: 0,
        }
    }

    /// Declares one more type, and answers its number. Its parts may be types that are declared later, and itself; a
    /// number that is never declared is no type: it is below the top and above the bottom, and that is all. `NoMemory`
    /// leaves the types as they were. There is none, either, for more than 4294967294 types and parts of types.
    pub fn declare(&mut self, form: Form) -> Result<usize, NoMemory>
        ensures number { IfOk result (λ number. number ≡ length (forms_of self.old)) }
        ensures declared { OnOk result (forms_of self.new ≡ forms_of self.old ++ form ∷ []) }
        ensures refused { OnErr result (forms_of self.new ≡ forms_of self.old) }
    {
        let number = self.forms.len();
        let extent = self
            .extent
            .saturating_add(form.part_count())
            .saturating_add(1);
        if extent > MOST {
            return Err(NoMemory);
        }
        self.forms.push(form)?;
        self.extent = extent;
        Ok(number)
    }

    /// How many types there are.
    pub fn count(&self) -> usize
        ensures { result ≡ length (forms_of self.now) }
    {
        self.forms.len()
    }

    /// What the type is, if the number is that of one.
    pub fn form(&self, number: usize) -> Option<&Form>
        ensures { option_copied result ≡ slice_get (forms_of self.now) number }
    {
        self.forms.get(number)
    }
}
