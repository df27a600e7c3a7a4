//! What a function takes, and what it is given.

use crate::draft::Draft;
use crate::lexicon::Word;
use crate::program::Program;
use crate::refusal::{Problem, Stop, push};
use std::alloc::Global;
use trait_rules::{Made, Shape};

/// A function: how many types it takes, the shapes of the values that it takes, and what a call of it asks.
#[derive(Drop)]
pub(crate) struct Function {
    pub(crate) arguments: usize,
    pub(crate) values: Vec<usize>,
    pub(crate) draft: Draft,
}

/// A value that is given, by the word that names it and by its type.
#[derive(Clone, Copy)]
pub(crate) struct Given {
    pub(crate) word: Word,
    pub(crate) number: usize,
}

/// A call of the function that the word names, with these types, if any are written, and these values.
#[derive(Drop)]
pub(crate) struct Call {
    pub(crate) word: Word,
    pub(crate) types: Vec<usize>,
    pub(crate) given: Vec<Given>,
}

impl Function {
    /// Asks what a call does with these types and these values, which have to be of just the types that are taken.
    pub(crate) fn ask(
        &self,
        alloc: Global,
        program: &mut Program,
        arguments: &[usize],
        given: &[Given],
    ) -> Result<(), Stop> {
        let types = program.types_of(alloc, self.draft.shapes(), arguments)?;
        takes_all(self.values.as_slice(), given, types.as_slice())?;
        program.ask_all(self.draft.clauses(), types.as_slice())
    }
}

// A shape, and a type that is to be of it.
#[derive(Clone, Copy)]
struct Pair {
    shape: usize,
    number: usize,
}

/// The types that the parameters of the function stand for in the call: those that are written, or those that the values tell.
pub(crate) fn arguments_of(
    alloc: Global,
    program: &Program,
    function: &Function,
    call: &Call,
) -> Result<Vec<usize>, Stop> {
    let place = call.word.place;
    if function.values.len() != call.given.len() {
        return Err(Stop::Refused(place, Problem::Arguments(function.values.len())));
    }
    if call.types.is_empty() {
        return told_arguments(alloc, program, function, call);
    }
    if function.arguments != call.types.len() {
        return Err(Stop::Refused(place, Problem::Arguments(function.arguments)));
    }
    Ok(Vec::from_slice(alloc, call.types.as_slice())?)
}

// The types that the values tell, of which there have to be all.
fn told_arguments(
    alloc: Global,
    program: &Program,
    function: &Function,
    call: &Call,
) -> Result<Vec<usize>, Stop> {
    let mut found = vec![in alloc; None; function.arguments]?;
    let pairs = pairs_of(alloc, function.values.as_slice(), call.given.as_slice())?;
    let shapes = function.draft.shapes();
    find_arguments(program, shapes, pairs, found.as_mut_slice())?;
    all_told(alloc, found.as_slice(), call.word)
}

// The shapes of the values that are taken, each with the type of what is given.
fn pairs_of(alloc: Global, values: &[usize], given: &[Given]) -> Result<Vec<Pair>, Stop> {
    let mut pairs = Vec::new(alloc);
    for (shape, given) in values.iter().zip(given.iter()) {
        push_pair(&mut pairs, *shape, given.number)?;
    }
    Ok(pairs)
}

// What each parameter stands for, all of which has to be known.
fn all_told(alloc: Global, found: &[Option<usize>], word: Word) -> Result<Vec<usize>, Stop> {
    let mut arguments = Vec::new(alloc);
    for argument in found {
        match argument {
            Some(number) => push(&mut arguments, *number)?,
            None => return Err(Stop::Refused(word.place, Problem::Undetermined)),
        }
    }
    Ok(arguments)
}

// Notes for each parameter which type stands there where types are to be of shapes. They may be of others: that is not
// looked at.
fn find_arguments(
    program: &Program,
    shapes: &[Shape],
    pairs: Vec<Pair>,
    found: &mut [Option<usize>],
) -> Result<(), Stop> {
    let mut left = pairs;
    for _ in 0..u64::MAX {
        let Some(Pair { shape, number }) = left.pop() else {
            break;
        };
        match (shapes.get(shape), program.made(number)) {
            (Some(Shape::Parameter), _) => note(found, shape, number),
            (Some(Shape::Applied(shape, argument)), Some(Made::Applied(applied, part))) => {
                push_pair(&mut left, *shape, applied)?;
                push_pair(&mut left, *argument, part)?;
            }
            _ => {}
        }
    }
    Ok(())
}

fn push_pair(pairs: &mut Vec<Pair>, shape: usize, number: usize) -> Result<(), Stop> {
    push(pairs, Pair { shape, number })
}

// Parameters come first among the shapes.
fn note(found: &mut [Option<usize>], parameter: usize, number: usize) {
    if let Some(argument) = found.get_mut(parameter) {
        *argument = Some(number);
    }
}

// Whether the values that are given are of just the types that are taken, by the types of the shapes.
fn takes_all(values: &[usize], given: &[Given], types: &[usize]) -> Result<(), Stop> {
    for (shape, given) in values.iter().zip(given.iter()) {
        if types.get(*shape).copied() != Some(given.number) {
            return Err(Stop::Refused(given.word.place, Problem::OtherType));
        }
    }
    Ok(())
}
