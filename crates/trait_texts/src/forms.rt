//! Constructors, by their forms.

use crate::draft::Draft;
use crate::lexicon::{Lexicon, Word};
use crate::names::PRIMITIVES;
use crate::program::Program;
use crate::refusal::{Problem, Stop, push};
use crate::spelling::{Form, Owner, Spelling};
use std::alloc::Global;
use std::collections::HashMap;
use std::marker::Model;
use std::mem;
use trait_rules::{Bound, Made, Numbered, Shape};

/// The forms of the constructors, and the sets of traits that are in forms.
#[derive(Drop)]
pub(crate) struct Forms {
    /// By the numbers of the constructors.
    pub(crate) forms: Vec<Form>,
    // The numbers of those that are no paths.
    numbers: HashMap<Form, usize>,
    /// A set is a trait, or another set with one trait more.
    pub(crate) sets: Numbered<Made>,
    /// What holds of `dyn` types, and what bodies assume.
    pub(crate) facts: Vec<Fact>,
    // The parameters that are types of their own, by their constructors, and those that questions name, with the place.
    constants: Vec<usize>,
    named: Vec<(usize, usize)>,
    // The constructors of types that may have no size.
    unsized_ones: Vec<usize>,
}

// Nothing is promised of what is in it.
impl Model for Forms {
    ghost Value = { Unit {0} };

    ghost view = { λ _. tt };
}

/// Types that implement traits, whatever impls say: those of the shape `head` of the draft.
#[derive(Drop)]
pub(crate) struct Fact {
    pub(crate) draft: Draft,
    pub(crate) head: usize,
    pub(crate) traits: Vec<usize>,
}

impl Forms {
    /// No forms.
    pub(crate) fn new(alloc: Global) -> Forms {
        Forms {
            forms: Vec::new(alloc),
            numbers: HashMap::new(alloc),
            sets: Numbered::new(alloc),
            facts: Vec::new(alloc),
            constants: Vec::new(alloc),
            named: Vec::new(alloc),
            unsized_ones: Vec::new(alloc),
        }
    }

    /// The constructor of this form, which is no path. With a new one come its rule by fields, if it has one whatever the
    /// text says.
    pub(crate) fn constructor(
        &mut self,
        alloc: Global,
        program: &mut Program,
        form: Form,
    ) -> Result<usize, Stop> {
        let count = self.forms.len();
        let number = *self.numbers.entry(form)?.or_insert(count);
        if number == count {
            self.add(alloc, program, form)?;
        }
        Ok(number)
    }

    /// The constructor of the type of this name, which had none.
    pub(crate) fn path(
        &mut self,
        alloc: Global,
        program: &mut Program,
        name: usize,
    ) -> Result<usize, Stop> {
        let number = self.forms.len();
        self.add(alloc, program, Form::Path(name))?;
        Ok(number)
    }

    // One more constructor.
    fn add(&mut self, alloc: Global, program: &mut Program, form: Form) -> Result<(), Stop> {
        let number = self.forms.len();
        push(&mut self.forms, form)?;
        program.add_constructor(alloc)?;
        match form {
            Form::Dyn(_) | Form::Constant(_, _) => Ok(()),
            Form::Path(name) if name >= PRIMITIVES.len() => Ok(()),
            _ => enter_fields(alloc, program, number, form),
        }
    }

    /// The constructor of `dyn` with these traits, whatever their order.
    pub(crate) fn object(
        &mut self,
        alloc: Global,
        program: &mut Program,
        mut traits: Vec<usize>,
    ) -> Result<usize, Stop> {
        traits.sort_unstable();
        traits.dedup();
        let set = self.set_of(traits.as_slice())?;
        let count = self.forms.len();
        let constructor = self.constructor(alloc, program, Form::Dyn(set))?;
        if constructor == count {
            push_plain(alloc, &mut self.facts, constructor, traits)?;
        }
        Ok(constructor)
    }

    /// Types of the shape `head` implement these traits.
    pub(crate) fn hold(
        &mut self,
        draft: Draft,
        head: usize,
        traits: Vec<usize>,
    ) -> Result<(), Stop> {
        let fact = Fact {
            draft,
            head,
            traits,
        };
        push(&mut self.facts, fact)
    }

    /// The constructor of a parameter that is a type of its own.
    pub(crate) fn declare_constant(
        &mut self,
        alloc: Global,
        program: &mut Program,
        owner: Owner,
        name: usize,
    ) -> Result<usize, Stop> {
        let constructor = self.constructor(alloc, program, Form::Constant(owner, name))?;
        push(&mut self.constants, constructor)?;
        Ok(constructor)
    }

    /// The same where a question names it, whose name stands at this place.
    pub(crate) fn name_constant(
        &mut self,
        alloc: Global,
        program: &mut Program,
        owner: Owner,
        word: Word,
    ) -> Result<usize, Stop> {
        let constructor = self.constructor(alloc, program, Form::Constant(owner, word.name))?;
        push(&mut self.named, (word.place, constructor))?;
        Ok(constructor)
    }

    /// Whether a parameter that is a type of its own stands among these shapes.
    pub(crate) fn has_constant(&self, shapes: &[Shape]) -> bool {
        for shape in shapes {
            if let Shape::Constructor(constructor) = shape
                && let Some(Form::Constant(_, _)) = self.forms.get(*constructor)
            {
                return true;
            }
        }
        false
    }

    /// Types of the constructor may have no size, if it is a parameter.
    pub(crate) fn relax(&mut self, constructor: usize) -> Result<(), Stop> {
        push(&mut self.unsized_ones, constructor)
    }

    /// The parameters that have a size implement this trait.
    pub(crate) fn hold_sized(&mut self, alloc: Global, bound: usize) -> Result<(), Stop> {
        let is_unsized = marks_of(alloc, self.forms.len(), self.unsized_ones.as_slice())?;
        let constants = self.constants.as_slice();
        let is_unsized = is_unsized.as_slice();
        add_sized(alloc, &mut self.facts, constants, is_unsized, bound)
    }

    /// Whether there are all parameters that questions name.
    pub(crate) fn check(&self, alloc: Global) -> Result<(), Stop> {
        let is_declared = marks_of(alloc, self.forms.len(), self.constants.as_slice())?;
        check_named(
            self.forms.as_slice(),
            self.named.as_slice(),
            is_declared.as_slice(),
        )
    }

    /// How types are written, with these names and the names of traits. No forms are left.
    pub(crate) fn spelling<'a>(
        &mut self,
        alloc: Global,
        names: Vec<&'a [u8]>,
        traits: Vec<usize>,
    ) -> Spelling<'a> {
        Spelling {
            names,
            forms: mem::replace(&mut self.forms, Vec::new(alloc)),
            sets: mem::replace(&mut self.sets, Numbered::new(alloc)),
            traits,
        }
    }

    /// Where types implement traits as is assumed, or as a `dyn` type does that names them, they implement those above them.
    pub(crate) fn hold_facts(
        &self,
        alloc: Global,
        lexicon: &Lexicon,
        program: &mut Program,
    ) -> Result<(), Stop> {
        let mut met = vec![in alloc; usize::MAX; lexicon.trait_count()]?;
        for (number, fact) in self.facts.iter().enumerate() {
            let traits = fact.traits.as_slice();
            let all = all_above(alloc, lexicon, &mut met, number, traits)?;
            hold_all(alloc, program, fact, all.as_slice())?;
        }
        Ok(())
    }

    // The number of the set of these traits.
    fn set_of(&mut self, traits: &[usize]) -> Result<usize, Stop> {
        let mut set = None;
        for number in traits {
            let made = match set {
                None => Made::Constructor(*number),
                Some(others) => Made::Applied(others, *number),
            };
            set = Some(self.sets.intern(made)?);
        }
        set.ok_or(Stop::Memory)
    }
}

// Which of so many constructors are among these.
fn marks_of(alloc: Global, count: usize, constructors: &[usize]) -> Result<Vec<bool>, Stop> {
    let mut marks = vec![in alloc; false; count]?;
    for constructor in constructors {
        if let Some(mark) = marks.get_mut(*constructor) {
            *mark = true;
        }
    }
    Ok(marks)
}

// Adds for each of the constructors that is not marked that it implements the trait.
fn add_sized(
    alloc: Global,
    facts: &mut Vec<Fact>,
    constructors: &[usize],
    is_unsized: &[bool],
    bound: usize,
) -> Result<(), Stop> {
    for constructor in constructors {
        if is_unsized.get(*constructor).copied() == Some(false) {
            let traits = Vec::from_slice(alloc, &[bound])?;
            push_plain(alloc, facts, *constructor, traits)?;
        }
    }
    Ok(())
}

// Adds that the type of the constructor, which takes no arguments, implements these traits.
fn push_plain(
    alloc: Global,
    facts: &mut Vec<Fact>,
    constructor: usize,
    traits: Vec<usize>,
) -> Result<(), Stop> {
    let mut draft = Draft::new(alloc);
    let head = draft.constructor(constructor)?;
    let fact = Fact {
        draft,
        head,
        traits,
    };
    push(facts, fact)
}

// Whether all constructors that are named, each with its place, are declared.
fn check_named(forms: &[Form], named: &[(usize, usize)], is_declared: &[bool]) -> Result<(), Stop> {
    for (place, constructor) in named {
        if !is_declared.get(*constructor).copied().unwrap_or(false) {
            let problem = match forms.get(*constructor) {
                Some(Form::Constant(Owner::Impl(_), _)) => Problem::UnknownImplParameter,
                _ => Problem::UnknownParameter,
            };
            return Err(Stop::Refused(*place, problem));
        }
    }
    Ok(())
}

// The rule by fields of a constructor whose name is built in, or which has none.
fn enter_fields(
    alloc: Global,
    program: &mut Program,
    constructor: usize,
    form: Form,
) -> Result<(), Stop> {
    let (arguments, fields) = match form {
        Form::Path(_) | Form::Dyn(_) | Form::Constant(_, _) => (0, 0),
        Form::Tuple(count) => (count, count),
        Form::Function(count) => (count.saturating_add(1), 0),
        _ => (1, 1),
    };
    let mut draft = Draft::with_parameters(alloc, arguments)?;
    for field in 0..fields {
        draft.ask(field, Bound::Same)?;
    }
    finish_fields(alloc, program, constructor, arguments, &mut draft)
}

/// The rule by fields of a constructor with so many arguments, the parameters of the draft. The draft may be used again,
/// once it is cleared.
pub(crate) fn finish_fields(
    alloc: Global,
    program: &mut Program,
    constructor: usize,
    arguments: usize,
    draft: &mut Draft,
) -> Result<(), Stop> {
    let mut head = draft.constructor(constructor)?;
    for argument in 0..arguments {
        head = draft.applied(head, argument)?;
    }
    program.set_fields(alloc, draft, head)
}

// These traits and those above them, each once. `met` has for each trait the number of the last fact for which it was met.
fn all_above(
    alloc: Global,
    lexicon: &Lexicon,
    met: &mut Vec<usize>,
    number: usize,
    traits: &[usize],
) -> Result<Vec<usize>, Stop> {
    let mut found = Vec::new(alloc);
    let mut left = Vec::from_slice(alloc, traits)?;
    for _ in 0..u64::MAX {
        let Some(bound) = left.pop() else {
            break;
        };
        let Some(last) = met.get_mut(bound) else {
            continue;
        };
        if *last != number {
            *last = number;
            push(&mut found, bound)?;
            left.extend_from_slice(lexicon.above(bound))?;
        }
    }
    Ok(found)
}

// The types that the fact is about implement all these traits.
fn hold_all(
    alloc: Global,
    program: &mut Program,
    fact: &Fact,
    traits: &[usize],
) -> Result<(), Stop> {
    for bound in traits {
        let draft = fact.draft.copied(alloc)?;
        program.hold(*bound, draft, fact.head)?;
    }
    Ok(())
}
