//! What is made of the parts of a text.
ghost use Rattle.std.specs.Prelude.{IfOk, length};
ghost use Rattle.trait_texts.specs.WellFormed.{AreAsked, AreSound};

mod constants;

use crate::asking::Asking;
use crate::calls::{Call, Function, Given};
use crate::declarations::{Declarations, Options};
use crate::draft::Draft;
use crate::forms::{Forms, finish_fields};
use crate::item::{Item, Role};
use crate::lexicon::{Lexicon, Parameter, Word};
use crate::names::{NEVER, Names};
use crate::open::{Open, Start};
use crate::program::Program;
use crate::refusal::{Problem, Stop, push};
use crate::spelling::{Form, Owner};
use crate::step::{Doing, Making};
use path_kinds::path::PathKind;
use std::alloc::Global;
use std::mem;
use trait_rules::{Bound, Made, Shape};

/// What is known by the place that is reached.
#[derive(Drop)]
pub(crate) struct Reader {
    alloc: Global,
    pub(crate) options: Options,
    pub(crate) lexicon: Lexicon,
    pub(crate) forms: Forms,
    pub(crate) asking: Asking,
    pub(crate) program: Program,
    open: Open,
    item: Item,
    /// The impls that may be asked about: their first words, and the traits of positive ones.
    pub(crate) impls: Vec<(Word, Option<usize>)>,
    /// The number of the impl whose parameter a question names.
    pub(crate) named_impl: usize,
    // How many questions are about impls.
    definitions: usize,
}

impl Reader {
    /// Nothing is known but what is built in.
    pub(crate) fn new(alloc: Global, options: Options) -> Result<Reader, Stop> {
        let word = Word { name: 0, place: 0 };
        Ok(Reader {
            alloc,
            options,
            lexicon: Lexicon::new(alloc)?,
            forms: Forms::new(alloc),
            asking: Asking::new(alloc),
            program: Program::new(alloc),
            open: Open::new(alloc),
            item: Item::new(alloc, word, Role::Question),
            impls: Vec::new(alloc),
            named_impl: 0,
            definitions: 0,
        })
    }

    /// Makes a part of a type, or of bounds.
    pub(crate) fn make(&mut self, making: Making, word: Word) -> Result<(), Stop> {
        match making {
            Making::Plain => self.put_plain(word),
            Making::Begin => self.open.begin(word),
            Making::EndPath => self.end_path(),
            Making::Constant => self.name_constant(word),
            Making::ImplConstant => {
                self.put_constant(Owner::Impl(self.named_impl), word.place, word)
            }
            Making::EndParentheses => self.open.leave(),
            Making::EndTuple => self.end_tuple(),
            Making::EndFunction => self.end_function(),
            Making::End(form) => self.end_type(form),
            Making::EndArray => self.end_type(Form::Array(word.name)),
            Making::Own => self.make_own(word),
            Making::Dyn => self.make_dyn(word),
            Making::Bound => self.add_bound(word),
        }
    }

    fn end_tuple(&mut self) -> Result<(), Stop> {
        let count = self.open.part_count();
        self.end_type(Form::Tuple(count))
    }

    // The last part is the result.
    fn end_function(&mut self) -> Result<(), Stop> {
        let count = self.open.part_count();
        self.end_type(Form::Function(count.saturating_sub(1)))
    }

    fn make_own(&mut self, word: Word) -> Result<(), Stop> {
        let Some(own) = self.item.own else {
            return Err(Stop::Refused(word.place, Problem::NoSelf));
        };
        let shape = match self.item.role {
            Role::Body(_) => self.item.draft.append(&self.item.head, own)?,
            _ => own,
        };
        self.open.put(shape)
    }

    fn add_bound(&mut self, word: Word) -> Result<(), Stop> {
        let number = self.trait_number(word)?;
        self.open.add_bound(number)
    }

    // The constructor of this form.
    fn constructor(&mut self, form: Form) -> Result<usize, Stop> {
        self.forms.constructor(self.alloc, &mut self.program, form)
    }

    // The type of this form, with the parts of the type that began last.
    fn end_type(&mut self, form: Form) -> Result<(), Stop> {
        let constructor = self.constructor(form)?;
        let start = self.open.end()?;
        self.end_parts(constructor, start.first)
    }

    // The type of the constructor, with the parts from this number on.
    fn end_parts(&mut self, constructor: usize, first: usize) -> Result<(), Stop> {
        let parts = self.open.parts_from(first);
        let shape = self.item.draft.applied_to(constructor, parts)?;
        self.open.drop_parts(first);
        self.open.put(shape)
    }

    // The type that a name has to which no arguments are given.
    fn put_plain(&mut self, word: Word) -> Result<(), Stop> {
        if let Some(parameter) = self.lexicon.parameter(word.name) {
            return self.put_parameter(parameter);
        }
        let constructor = self.named(word, 0)?;
        self.put_parameter(Parameter::Constant(constructor))
    }

    // A parameter takes no arguments.
    fn end_path(&mut self) -> Result<(), Stop> {
        let start = self.open.end()?;
        let count = self.open.parts_from(start.first).len();
        match self.lexicon.parameter(start.word.name) {
            Some(_) if count > 0 => Err(Stop::Refused(start.word.place, Problem::Arguments(0))),
            Some(parameter) => self.put_parameter(parameter),
            None => {
                let constructor = self.named(start.word, count)?;
                self.end_parts(constructor, start.first)
            }
        }
    }

    // The constructor of the type that the word names, which has so many arguments there.
    fn named(&mut self, word: Word, count: usize) -> Result<usize, Stop> {
        self.lexicon.note_use(word, count)?;
        self.path(word.name)
    }

    // The constructor of the type of this name.
    fn path(&mut self, name: usize) -> Result<usize, Stop> {
        if let Some(constructor) = self.lexicon.constructor(name) {
            return Ok(constructor);
        }
        let constructor = self.forms.path(self.alloc, &mut self.program, name)?;
        self.lexicon.set_constructor(name, constructor)?;
        Ok(constructor)
    }

    fn put_parameter(&mut self, parameter: Parameter) -> Result<(), Stop> {
        let shape = match parameter {
            Parameter::Shape(shape) => shape,
            Parameter::Constant(constructor) => self.item.draft.constructor(constructor)?,
        };
        self.open.put(shape)
    }

    fn make_dyn(&mut self, word: Word) -> Result<(), Stop> {
        let traits = self.open.take_bounds(self.alloc);
        if traits.is_empty() {
            return Err(Stop::Refused(behind(word), Problem::NoTrait));
        }
        let constructor = self.forms.object(self.alloc, &mut self.program, traits)?;
        self.put_parameter(Parameter::Constant(constructor))
    }

    // The number of the trait that the word names.
    fn trait_number(&mut self, word: Word) -> Result<usize, Stop> {
        let count = self.lexicon.trait_count();
        let number = self.lexicon.trait_number(self.alloc, word)?;
        if number == count {
            self.program.add_trait(self.alloc)?;
        }
        Ok(number)
    }

    /// Does what follows from words of an item or a question.
    pub(crate) fn act(&mut self, doing: Doing, word: Word) -> Result<(), Stop> {
        match doing {
            Doing::BeginQuestion => self.begin_item(word, Role::Question),
            Doing::BeginItem => self.begin_item(word, Role::Needs),
            Doing::BeginType => self.begin_item(word, Role::Type),
            Doing::BeginBody => self.begin_body(),
            Doing::NameItem => {
                self.item.word = word;
                Ok(())
            }
            Doing::Unit => self.set_unit(),
            Doing::EndType => self.end_type_item(),
            Doing::Trait(is_auto, is_coinductive) => {
                self.declare_trait(word, is_auto, is_coinductive)
            }
            Doing::SetAbove => self.set_above(),
            Doing::Negate => {
                self.item.is_positive = false;
                Ok(())
            }
            Doing::SetTrait => self.set_trait(word),
            Doing::SetHead => self.set_head(),
            Doing::EndImpl => self.end_impl(),
            Doing::Parameter => self.add_parameter(word),
            Doing::Subject => self.set_subject(word),
            Doing::Relax => self.relax(),
            Doing::EndBounds => self.end_bounds(),
            Doing::Field => self.add_field(),
            doing => self.act_in_function(doing, word),
        }
    }

    // The same of words of a function, or of a question.
    fn act_in_function(&mut self, doing: Doing, word: Word) -> Result<(), Stop> {
        match doing {
            Doing::Value => self.add_value(),
            Doing::EndSignature => self.end_signature(),
            Doing::Ask => self.end_question(word),
            Doing::BeginCall => self.begin_call(word),
            Doing::Give => self.give(word),
            Doing::Refer(form) => self.refer(form),
            Doing::EndCall => self.end_call(),
            _ => Ok(()),
        }
    }

    fn set_unit(&mut self) -> Result<(), Stop> {
        if self.item.parameters.is_empty() {
            return self.lexicon.set_unit(self.item.word.name);
        }
        Ok(())
    }

    fn set_above(&mut self) -> Result<(), Stop> {
        let above = self.open.take_bounds(self.alloc);
        self.lexicon.set_above(self.item.bound, above);
        Ok(())
    }

    fn set_trait(&mut self, word: Word) -> Result<(), Stop> {
        self.item.bound = self.trait_number(word)?;
        Ok(())
    }

    fn set_subject(&mut self, word: Word) -> Result<(), Stop> {
        self.item.subject = self.open.take()?;
        self.item.subject_place = word.place;
        Ok(())
    }

    fn add_field(&mut self) -> Result<(), Stop> {
        let shape = self.open.take()?;
        self.item.draft.ask(shape, Bound::Same)
    }

    // The parameters of the item before mean nothing more.
    fn begin_item(&mut self, word: Word, role: Role) -> Result<(), Stop> {
        self.lexicon.forget_locals();
        self.item.begin(word, role);
        Ok(())
    }

    fn add_parameter(&mut self, word: Word) -> Result<(), Stop> {
        if self.lexicon.parameter(word.name).is_some() {
            return Err(Stop::Refused(word.place, Problem::Twice));
        }
        push(&mut self.item.parameters, word)?;
        if let Role::Body(owner) = self.item.role {
            return self.add_constant(owner, word);
        }
        let shape = self.item.draft.parameter()?;
        self.item.subject = shape;
        self.lexicon
            .set_parameter(word.name, Parameter::Shape(shape))
    }

    // What the bounds of a type say is needed or assumed, or it is nothing.
    fn end_bounds(&mut self) -> Result<(), Stop> {
        let bounds = self.open.take_bounds(self.alloc);
        match self.item.role {
            Role::Needs => self.need(bounds.as_slice()),
            Role::Body(owner) => self.assume(owner, bounds),
            _ => Ok(()),
        }
    }

    fn need(&mut self, bounds: &[usize]) -> Result<(), Stop> {
        for bound in bounds {
            self.item
                .draft
                .ask(self.item.subject, Bound::Trait(*bound))?;
        }
        Ok(())
    }

    // The draft of the item, in whose place is an empty one.
    fn take_draft(&mut self) -> Draft {
        mem::replace(&mut self.item.draft, Draft::new(self.alloc))
    }

    fn end_type_item(&mut self) -> Result<(), Stop> {
        let word = self.item.word;
        let count = self.item.parameters.len();
        self.lexicon.declare_type(word, count)?;
        let constructor = self.path(word.name)?;
        let draft = &mut self.item.draft;
        finish_fields(self.alloc, &mut self.program, constructor, count, draft)
    }

    fn declare_trait(
        &mut self,
        word: Word,
        is_auto: bool,
        is_coinductive: bool,
    ) -> Result<(), Stop> {
        let number = self.trait_number(word)?;
        self.lexicon.declare_trait(word, number)?;
        let kind = match (is_coinductive, self.options.as_rustc) {
            (true, _) => PathKind::Coinductive,
            (false, true) => PathKind::Unknown,
            (false, false) => PathKind::Inductive,
        };
        self.program.set_trait(number, kind, is_auto);
        self.item.bound = number;
        Ok(())
    }

    // Each parameter has to stand in the type that the impl is for.
    fn set_head(&mut self) -> Result<(), Stop> {
        let head = self.open.take()?;
        if let Role::Body(_) = self.item.role {
            return self.define(head);
        }
        let count = self.item.parameters.len();
        let unused = self.item.draft.unused(self.alloc, count, head)?;
        self.item.own = Some(head);
        self.item.check_unused(unused)
    }

    fn end_impl(&mut self) -> Result<(), Stop> {
        let head = self.item.own.ok_or(Stop::Memory)?;
        if self.options.definitions {
            let bound = self.item.is_positive.then_some(self.item.bound);
            push(&mut self.impls, (self.item.word, bound))?;
        }
        let draft = self.take_draft();
        self.program
            .implement(self.item.bound, draft, head, self.item.is_positive)
    }

    // A value that a function takes, or one in its body. The type is known where there is no parameter in it.
    fn add_value(&mut self) -> Result<(), Stop> {
        let shape = self.open.take()?;
        let name = self.open.end()?.word;
        match self.item.role {
            Role::Body(_) => self.add_known(name, shape),
            _ => self.add_taken(name, shape),
        }
    }

    // A value in the body of a function.
    fn add_known(&mut self, name: Word, shape: usize) -> Result<(), Stop> {
        let number = self.take_type(shape)?;
        self.lexicon.set_value(name.name, number)
    }

    // A value that a function takes. A keyword stands for no name.
    fn add_taken(&mut self, name: Word, shape: usize) -> Result<(), Stop> {
        push(&mut self.item.values, shape)?;
        if Names::is_keyword(name.name) {
            return Ok(());
        }
        if self.lexicon.value(name.name).is_some() {
            return Err(Stop::Refused(name.place, Problem::Twice));
        }
        self.lexicon.set_value(name.name, shape)
    }

    fn end_signature(&mut self) -> Result<(), Stop> {
        let function = Function {
            arguments: self.item.parameters.len(),
            values: mem::replace(&mut self.item.values, Vec::new(self.alloc)),
            draft: self.take_draft(),
        };
        let number = self.asking.add_function(function)?;
        self.lexicon.declare_function(self.item.word, number)
    }

    // The types of the shapes of the draft, in whose place is an empty one.
    fn take_types(&mut self) -> Result<Vec<usize>, Stop> {
        let shapes = self.item.draft.shapes();
        let types = self.program.types_of(self.alloc, shapes, &[])?;
        self.item.draft.clear();
        Ok(types)
    }

    // The type of this shape of the draft, in whose place is an empty one. Most often there is no other shape.
    fn take_type(&mut self, shape: usize) -> Result<usize, Stop> {
        if let (0, [Shape::Constructor(constructor)]) = (shape, self.item.draft.shapes()) {
            let number = self.program.of_none(*constructor)?;
            self.item.draft.clear();
            return Ok(number);
        }
        let types = self.take_types()?;
        type_at(types.as_slice(), shape)
    }

    fn end_question(&mut self, word: Word) -> Result<(), Stop> {
        let shape = self.open.take()?;
        if self.open.bounds().is_empty() {
            return Err(Stop::Refused(behind(word), Problem::NoTrait));
        }
        let subject = self.take_type(shape)?;
        self.asking
            .ask(&mut self.program, subject, self.open.bounds())?;
        self.open.forget_bounds();
        Ok(())
    }

    fn begin_call(&mut self, word: Word) -> Result<(), Stop> {
        if self.lexicon.value(word.name).is_some() {
            return Err(Stop::Refused(word.place, Problem::Value));
        }
        self.open.begin(word)
    }

    // A value of the type `!` may be taken as one of another type, by rules that are not followed here.
    fn give(&mut self, word: Word) -> Result<(), Stop> {
        let number = match self.lexicon.value(word.name) {
            Some(number) => number,
            None => self.unit_type(word)?,
        };
        let never = self.path(NEVER)?;
        if self.program.made(number) == Some(Made::Constructor(never)) {
            return Err(Stop::Refused(word.place, Problem::NeverValue));
        }
        push(&mut self.item.given, Given { word, number })
    }

    // The type of the value which has its name.
    fn unit_type(&mut self, word: Word) -> Result<usize, Stop> {
        self.lexicon.note_unit(word)?;
        let constructor = self.path(word.name)?;
        self.program.of_none(constructor)
    }

    // The value that was given last is a reference to the one that is named.
    fn refer(&mut self, form: Form) -> Result<(), Stop> {
        let constructor = self.constructor(form)?;
        match self.item.given.last_mut() {
            Some(given) => refer_to(&mut self.program, given, constructor),
            None => Err(Stop::Memory),
        }
    }

    fn end_call(&mut self) -> Result<(), Stop> {
        let start = self.open.end()?;
        let types = self.take_parts(start.first)?;
        let given = mem::replace(&mut self.item.given, Vec::new(self.alloc));
        self.asking.call(Call {
            word: start.word,
            types,
            given,
        })
    }

    // Takes the types from this number on, and the draft in which they are.
    fn take_parts(&mut self, first: usize) -> Result<Vec<usize>, Stop> {
        let types = self.take_types()?;
        let parts = types_at(self.alloc, types.as_slice(), self.open.parts_from(first))?;
        self.open.drop_parts(first);
        Ok(parts)
    }

    /// What can be done once all is read: all that is named has to be declared, and all is asked.
    pub(crate) fn finish(&mut self) -> Result<(), Stop> {
        self.lexicon.check()?;
        self.forms.check(self.alloc)?;
        self.hold_sized()?;
        self.forms
            .hold_facts(self.alloc, &self.lexicon, &mut self.program)?;
        self.asking
            .ask_all(self.alloc, &self.lexicon, &mut self.program)
    }

    /// All that was read, with these names.
    pub(crate) fn told<'a>(
        &mut self,
        names: Vec<&'a [u8]>,
        depth: usize,
    ) -> Result<Declarations<'a>, Stop>
        ensures rules { IfOk result (λ told. AreSound told.rules) }
        ensures questions { IfOk result (λ told.
            AreAsked (length told.rules.traits.items) (length told.terms) told.questions.items) }
    {
        let traits = self.lexicon.trait_names(self.alloc)?;
        let program = mem::replace(&mut self.program, Program::new(self.alloc));
        let (rules, terms, questions) = program.into_parts();
        Ok(Declarations {
            rules,
            terms,
            questions,
            definitions: self.definitions,
            depth,
            spelling: self.forms.spelling(self.alloc, names, traits),
        })
    }
}

// The type of this shape.
fn type_at(types: &[usize], shape: usize) -> Result<usize, Stop> {
    types.get(shape).copied().ok_or(Stop::Memory)
}

// The types of these shapes.
fn types_at(alloc: Global, types: &[usize], shapes: &[usize]) -> Result<Vec<usize>, Stop> {
    let mut found = Vec::new(alloc);
    for shape in shapes {
        push(&mut found, type_at(types, *shape)?)?;
    }
    Ok(found)
}

// The value that is given is a reference to the one that it was, of this constructor.
fn refer_to(program: &mut Program, given: &mut Given, constructor: usize) -> Result<(), Stop> {
    given.number = program.of_one(constructor, given.number)?;
    Ok(())
}

// The place behind a word.
fn behind(word: Word) -> usize {
    word.place.saturating_add(1)
}
