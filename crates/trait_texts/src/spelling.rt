//! How types and traits are written.

use crate::refusal::write_number;
use path_kinds::memory::NoMemory;
use std::alloc::Global;
use trait_rules::{Made, Numbered, Terms};

/// What has parameters that are types of their own.
#[derive(Clone, Copy, PartialEq, Eq, Hash, Drop)]
pub(crate) enum Owner {
    /// The function of this name, in its body.
    Function(usize),
    /// The impl of this number, from 1 on, where it is asked about.
    Impl(usize),
}

/// How the types of a constructor are written. Names and numbers stand here by their numbers.
#[derive(Clone, Copy, PartialEq, Eq, Hash, Drop)]
pub(crate) enum Form {
    /// A name, with arguments in angle brackets.
    Path(usize),
    Reference,
    MutableReference,
    ConstantPointer,
    MutablePointer,
    Slice,
    /// An array of this length.
    Array(usize),
    /// Of so many parts.
    Tuple(usize),
    /// `fn` of so many arguments. The last part is the result.
    Function(usize),
    /// `dyn` and this set of traits.
    Dyn(usize),
    /// A parameter that is a type of its own, by its owner and its name.
    Constant(Owner, usize),
}

/// The names of types and traits.
#[derive(Drop)]
pub struct Spelling<'a> {
    /// The names by their numbers.
    pub(crate) names: Vec<&'a [u8]>,
    /// The forms of the constructors.
    pub(crate) forms: Vec<Form>,
    /// Sets of traits: a trait, or a set with one more.
    pub(crate) sets: Numbered<Made>,
    /// The names of the traits.
    pub(crate) traits: Vec<usize>,
}

// What is still to be written.
#[derive(Clone, Copy)]
enum Piece<'a> {
    Text(&'a [u8]),
    Type(usize),
    /// A type behind another one and a comma.
    Next(usize),
    /// A type before which a mark stands: it is in parentheses where it has several bounds.
    Marked(usize),
}

// What is written, and what is still to be written, the last one first.
#[derive(Drop)]
struct Page<'t, 'a> {
    // The parameter of a function or of an impl is written as a question names it.
    is_full: bool,
    text: &'t mut Vec<u8>,
    pieces: Vec<Piece<'a>>,
}

// A type with its arguments, the last of which comes first.
#[derive(Drop)]
struct Spread {
    form: Form,
    arguments: Vec<usize>,
}

impl<'t, 'a> Page<'t, 'a> {
    fn write(&mut self, text: &[u8]) -> Result<(), NoMemory> {
        self.text.extend_from_slice(text)?;
        Ok(())
    }

    fn later(&mut self, piece: Piece<'a>) -> Result<(), NoMemory> {
        self.pieces.push(piece)?;
        Ok(())
    }

    // Writes a text, and behind it types with commas between them, and another text. The types come from the last one on.
    fn lay_out(
        &mut self,
        before: &[u8],
        arguments: &[usize],
        behind: &'a [u8],
    ) -> Result<(), NoMemory> {
        self.write(before)?;
        self.later(Piece::Text(behind))?;
        let Some((first, others)) = arguments.split_last() else {
            return Ok(());
        };
        for argument in others {
            self.later(Piece::Next(*argument))?;
        }
        self.later(Piece::Type(*first))
    }
}

impl<'a> Spelling<'a> {
    /// The name of the trait of this number, if there is one.
    pub fn trait_name(&self, number: usize) -> Option<&'a [u8]> {
        let name = *self.traits.get(number)?;
        self.names.get(name).copied()
    }

    // The name of this number.
    fn name(&self, number: usize) -> &'a [u8] {
        self.names.get(number).copied().unwrap_or(b"")
    }

    /// Writes the type of this number as Rust does: nothing, where there is no such type. Only memory may be wanting: then
    /// some of it may be written.
    pub fn write_type(
        &self,
        alloc: Global,
        text: &mut Vec<u8>,
        terms: &Terms,
        number: usize,
    ) -> Result<(), NoMemory> {
        self.write_named(alloc, text, terms, number, false)
    }

    /// The same as a question may ask it: the parameter `T` of the function `f` is `f::T`, and of the second impl `impl::2::T`.
    pub fn write_full_type(
        &self,
        alloc: Global,
        text: &mut Vec<u8>,
        terms: &Terms,
        number: usize,
    ) -> Result<(), NoMemory> {
        self.write_named(alloc, text, terms, number, true)
    }

    fn write_named(
        &self,
        alloc: Global,
        text: &mut Vec<u8>,
        terms: &Terms,
        number: usize,
        is_full: bool,
    ) -> Result<(), NoMemory> {
        let mut page = Page {
            is_full,
            text,
            pieces: Vec::new(alloc),
        };
        self.begin_type(alloc, &mut page, terms, number)?;
        self.write_pieces(alloc, &mut page, terms)
    }

    // Writes all that is still to be written.
    fn write_pieces(
        &self,
        alloc: Global,
        page: &mut Page<'_, 'a>,
        terms: &Terms,
    ) -> Result<(), NoMemory> {
        for _ in 0..u64::MAX {
            let Some(piece) = page.pieces.pop() else {
                break;
            };
            self.write_piece(alloc, page, terms, piece)?;
        }
        Ok(())
    }

    // Writes what a piece begins with.
    fn write_piece(
        &self,
        alloc: Global,
        page: &mut Page<'_, 'a>,
        terms: &Terms,
        piece: Piece<'a>,
    ) -> Result<(), NoMemory> {
        match piece {
            Piece::Text(text) => page.write(text),
            Piece::Type(number) => self.begin_type(alloc, page, terms, number),
            Piece::Next(number) => {
                page.write(b", ")?;
                self.begin_type(alloc, page, terms, number)
            }
            Piece::Marked(number) => self.begin_marked(alloc, page, terms, number),
        }
    }

    // Begins a type, in parentheses where it has several bounds.
    fn begin_marked(
        &self,
        alloc: Global,
        page: &mut Page<'_, 'a>,
        terms: &Terms,
        number: usize,
    ) -> Result<(), NoMemory> {
        if self.has_several(terms, number) {
            page.write(b"(")?;
            page.later(Piece::Text(b")"))?;
        }
        self.begin_type(alloc, page, terms, number)
    }

    // Whether the type is a `dyn` type of several traits.
    fn has_several(&self, terms: &Terms, number: usize) -> bool {
        match self.form_of(terms, number) {
            Some(Form::Dyn(set)) => matches!(self.sets.get(set), Some(Made::Applied(_, _))),
            _ => false,
        }
    }

    // The form of a type without arguments.
    fn form_of(&self, terms: &Terms, number: usize) -> Option<Form> {
        match terms.get(number) {
            Some(Made::Constructor(constructor)) => self.forms.get(constructor).copied(),
            _ => None,
        }
    }

    // Writes what a type begins with, and puts its parts on the pieces.
    fn begin_type(
        &self,
        alloc: Global,
        page: &mut Page<'_, 'a>,
        terms: &Terms,
        number: usize,
    ) -> Result<(), NoMemory> {
        let Some(spread) = self.spread_of(alloc, terms, number)? else {
            return Ok(());
        };
        let form = spread.form;
        let arguments = spread.arguments.as_slice();
        match form {
            Form::Path(name) => self.begin_path(page, name, arguments),
            Form::Array(length) => self.begin_array(page, length, arguments),
            Form::Function(_) => self.begin_function(page, terms, arguments),
            Form::Dyn(set) => self.write_dyn(alloc, page, set),
            Form::Constant(owner, name) => self.write_constant(alloc, page, owner, name),
            form => begin_marks(page, form, arguments),
        }
    }

    fn begin_path(
        &self,
        page: &mut Page<'_, 'a>,
        name: usize,
        arguments: &[usize],
    ) -> Result<(), NoMemory> {
        page.write(self.name(name))?;
        if arguments.is_empty() {
            return Ok(());
        }
        page.lay_out(b"<", arguments, b">")
    }

    fn write_constant(
        &self,
        alloc: Global,
        page: &mut Page<'_, 'a>,
        owner: Owner,
        name: usize,
    ) -> Result<(), NoMemory> {
        if page.is_full {
            match owner {
                Owner::Function(function) => page.write(self.name(function))?,
                Owner::Impl(number) => write_number(alloc, page.text, b"impl::", number)?,
            }
            page.write(b"::")?;
        }
        page.write(self.name(name))
    }

    fn begin_array(
        &self,
        page: &mut Page<'_, 'a>,
        length: usize,
        arguments: &[usize],
    ) -> Result<(), NoMemory> {
        page.later(Piece::Text(b"]"))?;
        page.later(Piece::Text(self.name(length)))?;
        page.lay_out(b"[", arguments, b"; ")
    }

    // The result comes first. It is left out where it is `()`.
    fn begin_function(
        &self,
        page: &mut Page<'_, 'a>,
        terms: &Terms,
        arguments: &[usize],
    ) -> Result<(), NoMemory> {
        let Some((last, arguments)) = arguments.split_first() else {
            return Ok(());
        };
        if matches!(self.form_of(terms, *last), Some(Form::Tuple(_))) {
            return page.lay_out(b"fn(", arguments, b")");
        }
        page.later(Piece::Marked(*last))?;
        page.lay_out(b"fn(", arguments, b") -> ")
    }

    // The traits, in the order of their names.
    fn write_dyn(
        &self,
        alloc: Global,
        page: &mut Page<'_, 'a>,
        set: usize,
    ) -> Result<(), NoMemory> {
        let mut names = self.names_of(alloc, set)?;
        names.sort_unstable();
        let mut mark = b"dyn ".as_slice();
        for name in names.iter() {
            page.write(mark)?;
            page.write(*name)?;
            mark = b" + ";
        }
        Ok(())
    }

    // The names of the traits of a set.
    fn names_of(&self, alloc: Global, set: usize) -> Result<Vec<&'a [u8]>, NoMemory> {
        let mut names = Vec::new(alloc);
        let mut rest = Some(set);
        for _ in 0..self.sets.len() {
            let (others, number) = match self.sets.get(rest.unwrap_or(usize::MAX)) {
                Some(Made::Applied(others, number)) => (Some(others), number),
                Some(Made::Constructor(number)) => (None, number),
                None => break,
            };
            names.push(self.trait_name(number).unwrap_or(b""))?;
            rest = others;
        }
        Ok(names)
    }

    // The form of the type and its arguments, if there is such a type.
    fn spread_of(
        &self,
        alloc: Global,
        terms: &Terms,
        number: usize,
    ) -> Result<Option<Spread>, NoMemory> {
        let mut arguments = Vec::new(alloc);
        let mut at = number;
        for _ in 0..terms.len() {
            let Some(Made::Applied(applied, argument)) = terms.get(at) else {
                break;
            };
            arguments.push(argument)?;
            at = applied;
        }
        match self.form_of(terms, at) {
            Some(form) => Ok(Some(Spread { form, arguments })),
            None => Ok(None),
        }
    }
}

// Begins a type that is a mark or stands between two.
fn begin_marks(page: &mut Page<'_, '_>, form: Form, arguments: &[usize]) -> Result<(), NoMemory> {
    let (before, behind) = match form {
        Form::Reference => (b"&".as_slice(), b"".as_slice()),
        Form::MutableReference => (b"&mut ".as_slice(), b"".as_slice()),
        Form::ConstantPointer => (b"*const ".as_slice(), b"".as_slice()),
        Form::MutablePointer => (b"*mut ".as_slice(), b"".as_slice()),
        Form::Slice => (b"[".as_slice(), b"]".as_slice()),
        Form::Tuple(1) => (b"(".as_slice(), b",)".as_slice()),
        _ => (b"(".as_slice(), b")".as_slice()),
    };
    match arguments {
        [argument] if behind.is_empty() => {
            page.write(before)?;
            page.later(Piece::Marked(*argument))
        }
        _ => page.lay_out(before, arguments, behind),
    }
}
