//! What the names of a text mean.

use crate::names::PRIMITIVES;
use crate::refusal::{Problem, Stop, push};
use std::alloc::Global;
use std::marker::Model;

/// A word, by the number of its name and by its place.
#[derive(Clone, Copy)]
pub(crate) struct Word {
    pub(crate) name: usize,
    pub(crate) place: usize,
}

/// What a parameter is.
#[derive(Clone, Copy)]
pub(crate) enum Parameter {
    /// A shape of the item.
    Shape(usize),
    /// A constructor without arguments, in the body of a function.
    Constant(usize),
}

/// What is known of the arguments of the type of a name.
#[derive(Clone, Copy)]
enum Arguments {
    Unknown,
    /// It is used with so many, and not declared yet.
    Used(usize),
    Declared(usize),
}

/// What is known of a trait.
#[derive(Drop)]
struct Heading {
    // The first word that names it.
    word: Word,
    is_declared: bool,
    // Its supertraits.
    above: Vec<usize>,
}

// A word that names a type, and how many arguments that has there.
#[derive(Clone, Copy)]
struct Use {
    word: Word,
    count: usize,
}

/// What the names mean, and where they are used. A list with a place for each name goes no further than to the last one
/// of which something stands there.
#[derive(Drop)]
pub(crate) struct Lexicon {
    arguments: Vec<Arguments>,
    // The constructors of types, once they are used.
    constructors: Vec<Option<usize>>,
    // The types whose names are values, too.
    units: Vec<bool>,
    bounds: Vec<Option<usize>>,
    functions: Vec<Option<usize>>,
    // The item's parameters, and the types of its values.
    parameters: Vec<Option<Parameter>>,
    values: Vec<Option<usize>>,
    traits: Vec<Heading>,
    uses: Vec<Use>,
    // The words for values of types that are declared elsewhere.
    unit_words: Vec<Word>,
    // The names that mean parameters and values of the item.
    locals: Vec<usize>,
}

// Nothing is promised of what is in it.
impl Model for Lexicon {
    ghost Value = { Unit {0} };

    ghost view = { λ _. tt };
}

impl Lexicon {
    /// No name means anything but those of primitive types.
    pub(crate) fn new(alloc: Global) -> Result<Lexicon, Stop> {
        Ok(Lexicon {
            arguments: vec![in alloc; Arguments::Declared(0); PRIMITIVES.len()]?,
            constructors: Vec::new(alloc),
            units: Vec::new(alloc),
            bounds: Vec::new(alloc),
            functions: Vec::new(alloc),
            parameters: Vec::new(alloc),
            values: Vec::new(alloc),
            traits: Vec::new(alloc),
            uses: Vec::new(alloc),
            unit_words: Vec::new(alloc),
            locals: Vec::new(alloc),
        })
    }

    /// The item's parameter of this name.
    pub(crate) fn parameter(&self, name: usize) -> Option<Parameter> {
        known(self.parameters.as_slice(), name, None)
    }

    /// The type of the value of this name.
    pub(crate) fn value(&self, name: usize) -> Option<usize> {
        known(self.values.as_slice(), name, None)
    }

    /// The constructor of the type of this name, once it is used.
    pub(crate) fn constructor(&self, name: usize) -> Option<usize> {
        known(self.constructors.as_slice(), name, None)
    }

    /// The number of the trait of this name.
    pub(crate) fn bound(&self, name: usize) -> Option<usize> {
        known(self.bounds.as_slice(), name, None)
    }

    /// The number of the function of this name.
    pub(crate) fn function(&self, name: usize) -> Option<usize> {
        known(self.functions.as_slice(), name, None)
    }

    /// The name means this parameter until the item ends.
    pub(crate) fn set_parameter(&mut self, name: usize, parameter: Parameter) -> Result<(), Stop> {
        note(&mut self.parameters, name, None, Some(parameter))?;
        push(&mut self.locals, name)
    }

    /// The name means a value of this type until the item ends.
    pub(crate) fn set_value(&mut self, name: usize, number: usize) -> Result<(), Stop> {
        note(&mut self.values, name, None, Some(number))?;
        push(&mut self.locals, name)
    }

    /// No name means a parameter or a value.
    pub(crate) fn forget_locals(&mut self) {
        for _ in 0..u64::MAX {
            let Some(name) = self.locals.pop() else {
                return;
            };
            forget(&mut self.parameters, name);
            forget(&mut self.values, name);
        }
    }

    /// The word declares a type with so many parameters.
    pub(crate) fn declare_type(&mut self, word: Word, count: usize) -> Result<(), Stop> {
        if let Arguments::Declared(_) = self.arguments_of(word.name) {
            return Err(Stop::Refused(word.place, Problem::Twice));
        }
        self.set_arguments(word.name, Arguments::Declared(count))
    }

    /// The word declares the function of this number.
    pub(crate) fn declare_function(&mut self, word: Word, function: usize) -> Result<(), Stop> {
        if self.function(word.name).is_some() {
            return Err(Stop::Refused(word.place, Problem::Twice));
        }
        note(&mut self.functions, word.name, None, Some(function))
    }

    /// The word declares the trait of this number.
    pub(crate) fn declare_trait(&mut self, word: Word, number: usize) -> Result<(), Stop> {
        match self.traits.get_mut(number) {
            Some(heading) if !heading.is_declared => heading.is_declared = true,
            _ => return Err(Stop::Refused(word.place, Problem::Twice)),
        }
        Ok(())
    }

    /// The number of the trait that the word names, which is the next one where it is named for the first time.
    pub(crate) fn trait_number(&mut self, alloc: Global, word: Word) -> Result<usize, Stop> {
        if let Some(number) = self.bound(word.name) {
            return Ok(number);
        }
        let number = self.traits.len();
        let heading = Heading {
            word,
            is_declared: false,
            above: Vec::new(alloc),
        };
        push(&mut self.traits, heading)?;
        note(&mut self.bounds, word.name, None, Some(number))?;
        Ok(number)
    }

    /// How many traits there are.
    pub(crate) fn trait_count(&self) -> usize {
        self.traits.len()
    }

    /// The trait has these supertraits.
    pub(crate) fn set_above(&mut self, number: usize, above: Vec<usize>) {
        if let Some(heading) = self.traits.get_mut(number) {
            heading.above = above;
        }
    }

    /// The supertraits of the trait.
    pub(crate) fn above(&self, number: usize) -> &[usize] {
        match self.traits.get(number) {
            Some(heading) => heading.above.as_slice(),
            None => &[],
        }
    }

    /// The word names a type that has so many arguments there. It may be declared later: of the uses before, one is kept
    /// of those that are alike.
    pub(crate) fn note_use(&mut self, word: Word, count: usize) -> Result<(), Stop> {
        match self.arguments_of(word.name) {
            Arguments::Used(known) | Arguments::Declared(known) if known == count => Ok(()),
            Arguments::Unknown => {
                self.set_arguments(word.name, Arguments::Used(count))?;
                push(&mut self.uses, Use { word, count })
            }
            _ => push(&mut self.uses, Use { word, count }),
        }
    }

    // What is known of the arguments of the type of this name.
    fn arguments_of(&self, name: usize) -> Arguments {
        known(self.arguments.as_slice(), name, Arguments::Unknown)
    }

    fn set_arguments(&mut self, name: usize, arguments: Arguments) -> Result<(), Stop> {
        note(&mut self.arguments, name, Arguments::Unknown, arguments)
    }

    /// The type of this name has this constructor.
    pub(crate) fn set_constructor(&mut self, name: usize, constructor: usize) -> Result<(), Stop> {
        note(&mut self.constructors, name, None, Some(constructor))
    }

    /// The name of the type is its value, too.
    pub(crate) fn set_unit(&mut self, name: usize) -> Result<(), Stop> {
        note(&mut self.units, name, false, true)
    }

    /// The word names the value of the type of this name.
    pub(crate) fn note_unit(&mut self, word: Word) -> Result<(), Stop> {
        push(&mut self.unit_words, word)
    }

    /// Whether all that was named is declared, and types have as many arguments as parameters.
    pub(crate) fn check(&self) -> Result<(), Stop> {
        self.check_types()?;
        self.check_units()?;
        for heading in self.traits.iter() {
            if !heading.is_declared {
                return Err(Stop::Refused(heading.word.place, Problem::UnknownTrait));
            }
        }
        Ok(())
    }

    fn check_units(&self) -> Result<(), Stop> {
        for word in self.unit_words.iter() {
            if !known(self.units.as_slice(), word.name, false) {
                return Err(Stop::Refused(word.place, Problem::UnknownValue));
            }
        }
        Ok(())
    }

    fn check_types(&self) -> Result<(), Stop> {
        for used in self.uses.iter() {
            match self.arguments_of(used.word.name) {
                Arguments::Declared(count) if count == used.count => {}
                Arguments::Declared(count) => {
                    return Err(Stop::Refused(used.word.place, Problem::Arguments(count)));
                }
                _ => return Err(Stop::Refused(used.word.place, Problem::UnknownType)),
            }
        }
        Ok(())
    }

    /// The names of the traits.
    pub(crate) fn trait_names(&self, alloc: Global) -> Result<Vec<usize>, Stop> {
        let mut names = Vec::new(alloc);
        for heading in self.traits.iter() {
            push(&mut names, heading.word.name)?;
        }
        Ok(names)
    }
}

// What is known of the name.
fn known<T: Copy>(list: &[T], name: usize, nothing: T) -> T {
    list.get(name).copied().unwrap_or(nothing)
}

// This is known of the name from now on.
fn note<T: Copy + Drop>(list: &mut Vec<T>, name: usize, nothing: T, value: T) -> Result<(), Stop> {
    for _ in list.len()..name.saturating_add(1) {
        push(list, nothing)?;
    }
    if let Some(known) = list.get_mut(name) {
        *known = value;
    }
    Ok(())
}

// Nothing is known of the name from now on.
fn forget<T: Copy + Drop>(list: &mut Vec<Option<T>>, name: usize) {
    if let Some(known) = list.get_mut(name) {
        *known = None;
    }
}
