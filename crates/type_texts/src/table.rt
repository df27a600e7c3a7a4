//! What a text declares and asks.
ghost use Rattle.std.specs.Prelude.{◌≡◌, [], length, slice_get};
ghost use Rattle.std.specs.Option.{option_copied};
ghost use Rattle.type_texts.specs.Words.{forms_in, labels_of, names_of, questions_of};

use line_texts::Names;
use std::alloc::Global;
use type_order::{Pair, Types};

/// Types with their names, and the questions of the text. The number of a type is the place of its declaration.
#[derive(Drop)]
pub struct TypeTable {
    pub(crate) names: Names,
    // The words of base types and the names of fields.
    pub(crate) words: Names,
    pub(crate) types: Types,
    pub(crate) questions: Vec<Pair>,
}

impl TypeTable {
    /// A table of these names with no type yet.
    pub(crate) fn new(alloc: Global, names: Names) -> TypeTable
        ensures names { names_of result ≡ names }
        ensures forms { forms_in result ≡ [] }
        ensures questions { questions_of result ≡ [] }
    {
        TypeTable {
            names,
            words: Names::new(alloc),
            types: Types::new(alloc),
            questions: Vec::new(alloc),
        }
    }

    /// The types.
    pub fn types(&self) -> &Types
        ensures { result.now ≡ self.now.types }
    {
        &self.types
    }

    /// How many types are declared.
    pub fn count(&self) -> usize
        ensures { result ≡ length (names_of self.now) }
    {
        self.names.count()
    }

    /// The pair of each question, in the order of the text.
    pub fn questions(&self) -> &[Pair]
        ensures { result.now ≡ questions_of self.now }
    {
        self.questions.as_slice()
    }

    /// The name of the type of this number, if there is one.
    pub fn name(&self, number: usize) -> Option<&[u8]>
        ensures { option_copied result ≡ slice_get (names_of self.now) number }
    {
        self.names.text(number)
    }

    /// The name of the field, or the word of the base type, of this number, if there is one.
    pub fn label(&self, number: u32) -> Option<&[u8]>
        ensures { option_copied result ≡ slice_get (labels_of self.now) number }
    {
        self.words.text(number as usize)
    }
}
