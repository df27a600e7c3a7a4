//! Why a text is refused.

use path_kinds::memory::NoMemory;
use std::alloc::{AllocError, AllocFailed, Global};
use std::fmt::Write;

/// What is wrong with a word of a text.
#[derive(Clone, Copy)]
pub enum Problem {
    /// Another word is expected.
    Expected(&'static str),
    NoName,
    NoNumber,
    NoType,
    NoTrait,
    NoItem,
    Attribute,
    Limit,
    OpenComment,
    Twice,
    UnknownType,
    UnknownTrait,
    UnknownFunction,
    /// It takes another number of arguments, which is this one.
    Arguments(usize),
    NoSelf,
    Unconstrained,
    /// A where-clause has to have a parameter in it, where the body of the function has something in it.
    NoParameter,
    UnknownParameter,
    UnknownImplParameter,
    NoValue,
    UnknownValue,
    /// A function is called by the name of a value.
    Value,
    NeverValue,
    /// A value has another type than the function takes.
    OtherType,
    Undetermined,
}

impl Problem {
    // The words for it, before a word or a number that it has.
    fn words(self) -> &'static [u8] {
        match self {
            Problem::Expected(_) => b"this word is expected here: ",
            Problem::NoName => b"a name is expected here",
            Problem::NoNumber => b"a number is expected here",
            Problem::NoType => b"a type is expected here",
            Problem::NoTrait => b"a trait is expected here",
            Problem::NoItem => b"no item and no question begins so",
            Problem::Attribute => b"this attribute is not read",
            Problem::Limit => b"this is no limit",
            Problem::OpenComment => b"the comment has no end",
            Problem::Twice => b"this name is declared twice",
            Problem::UnknownType => b"no type has this name",
            Problem::UnknownTrait => b"no trait has this name",
            Problem::UnknownFunction => b"no function has this name",
            Problem::Arguments(_) => b"the number of its arguments is",
            Problem::NoSelf => b"there is no `Self` here",
            Problem::Unconstrained => b"the parameter has to stand in the type of the impl (E0207)",
            Problem::NoParameter => b"no parameter stands in what the body would assume",
            Problem::UnknownParameter =>
                b"no function with something in its body has this parameter",
            Problem::UnknownImplParameter => b"no impl that is asked about has this parameter",
            Problem::NoValue => b"this value is not read",
            Problem::UnknownValue => b"no value has this name",
            Problem::Value => b"this is a value, and no function",
            Problem::NeverValue => b"a value of the type `!` may be given as one of any type",
            Problem::OtherType => b"the function takes another type there",
            Problem::Undetermined => b"what a parameter stands for is not said",
        }
    }
}

/// A text is refused for the word that stands there. Lines are counted from 1.
#[derive(Clone, Copy)]
pub struct Refusal<'a> {
    /// The name of the file.
    pub file: &'a [u8],
    pub line: usize,
    /// It is empty where the text is at its end.
    pub word: &'a [u8],
    pub problem: Problem,
}

impl<'a> Refusal<'a> {
    /// Writes `FILE:LINE: WORD: what is wrong`, without a newline. The word is `end` where the text is at its end.
    pub fn write(&self, alloc: Global, text: &mut Vec<u8>) -> Result<(), NoMemory> {
        text.extend_from_slice(self.file)?;
        write_number(alloc, text, b":", self.line)?;
        write_behind(text, b": ", self.shown_word())?;
        write_behind(text, b": ", self.problem.words())?;
        match self.problem {
            Problem::Expected(word) => write_behind(text, b"", word.as_bytes()),
            Problem::Arguments(count) => write_number(alloc, text, b" ", count),
            _ => Ok(()),
        }
    }

    fn shown_word(&self) -> &[u8] {
        match self.word {
            [] => b"end",
            word => word,
        }
    }
}

/// Writes a number behind a mark.
pub(crate) fn write_number(
    alloc: Global,
    text: &mut Vec<u8>,
    mark: &[u8],
    number: usize,
) -> Result<(), NoMemory> {
    let mut digits = String::new(alloc);
    write!(digits, "{number}")?;
    write_behind(text, mark, digits.as_bytes())
}

// Writes words behind a mark.
fn write_behind(text: &mut Vec<u8>, mark: &[u8], words: &[u8]) -> Result<(), NoMemory> {
    text.extend_from_slice(mark)?;
    text.extend_from_slice(words)?;
    Ok(())
}

/// Why texts were not read.
#[derive(Clone, Copy)]
pub enum ReadFault<'a> {
    Refused(Refusal<'a>),
    Memory,
}

/// Why the reading stops: there is a problem with the word at this place, or memory is out.
#[derive(Clone, Copy)]
pub(crate) enum Stop {
    Refused(usize, Problem),
    Memory,
}

impl From<AllocError> for Stop {
    fn from(_error: AllocError) -> Stop {
        Stop::Memory
    }
}

impl From<NoMemory> for Stop {
    fn from(_error: NoMemory) -> Stop {
        Stop::Memory
    }
}

impl<T: Drop> From<AllocFailed<T>> for Stop {
    fn from(_error: AllocFailed<T>) -> Stop {
        Stop::Memory
    }
}

/// Adds an element.
pub(crate) fn push<T: Drop>(items: &mut Vec<T>, item: T) -> Result<(), Stop> {
    items.push(item)?;
    Ok(())
}
