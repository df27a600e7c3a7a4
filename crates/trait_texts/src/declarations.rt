//! What texts declare and ask.
ghost use Rattle.std.specs.Prelude.{IfOk, length};
ghost use Rattle.trait_texts.specs.WellFormed.{AreAsked, AreSound};

use crate::machine::Machine;
use crate::names::Names;
use crate::reader::Reader;
use crate::refusal::{Problem, ReadFault, Refusal, Stop};
use crate::spelling::Spelling;
use crate::token::find_word;
use std::alloc::Global;
use trait_rules::{Rules, Terms};

/// A text, with the name of its file.
#[derive(Clone, Copy)]
pub struct Source<'a> {
    pub name: &'a [u8],
    pub text: &'a [u8],
}

/// How texts are read.
#[derive(Clone, Copy)]
pub struct Options {
    /// A trait that is not coinductive asks by steps of unknown kind, else by inductive ones.
    pub as_rustc: bool,
    /// Impls are asked about: whether their types implement the supertraits of their traits.
    pub definitions: bool,
}

/// Whether the type implements the trait, both by their numbers.
#[derive(Clone, Copy)]
pub struct Question {
    pub subject: usize,
    pub bound: usize,
}

/// What texts say.
#[derive(Drop)]
pub struct Declarations<'a> {
    pub rules: Rules,
    /// The types of the questions, with their parts.
    pub terms: Terms,
    /// The questions of the texts, in their order, and then those about impls.
    pub questions: Vec<Question>,
    /// How many are about impls.
    pub definitions: usize,
    /// The last limit on nested goals that was read, or 128.
    pub depth: usize,
    /// How types and traits are written.
    pub spelling: Spelling<'a>,
}

/// Reads texts one after another, as one program.
pub fn read<'a>(
    alloc: Global,
    sources: &[Source<'a>],
    options: Options,
) -> Result<Declarations<'a>, ReadFault<'a>>
    ensures rules { IfOk result (λ told. AreSound told.rules) }
    ensures questions { IfOk result (λ told.
        AreAsked (length told.rules.traits.items) (length told.terms) told.questions.items) }
{
    match read_sources(alloc, sources, options) {
        Ok(told) => Ok(told),
        Err(Stop::Memory) => Err(ReadFault::Memory),
        Err(Stop::Refused(place, problem)) => {
            Err(ReadFault::Refused(refusal_of(sources, place, problem)))
        }
    }
}

fn read_sources<'a>(
    alloc: Global,
    sources: &[Source<'a>],
    options: Options,
) -> Result<Declarations<'a>, Stop>
    ensures rules { IfOk result (λ told. AreSound told.rules) }
    ensures questions { IfOk result (λ told.
        AreAsked (length told.rules.traits.items) (length told.terms) told.questions.items) }
{
    let names = Names::new(alloc)?;
    let mut reader = Reader::new(alloc, options)?;
    let told = read_named(alloc, &mut reader, sources, names);
    // All its parts at once: a proof that they are let go is long where it is made of one for each.
    drop(reader);
    told
}

// The same where nothing is known but these names.
fn read_named<'a>(
    alloc: Global,
    reader: &mut Reader,
    sources: &[Source<'a>],
    names: Names<'a>,
) -> Result<Declarations<'a>, Stop>
    ensures rules { IfOk result (λ told. AreSound told.rules) }
    ensures questions { IfOk result (λ told.
        AreAsked (length told.rules.traits.items) (length told.terms) told.questions.items) }
{
    let mut machine = Machine::new(alloc, names);
    for source in sources {
        machine.read_text(reader, source.text)?;
    }
    machine.read_definitions(reader)?;
    reader.finish()?;
    let (names, depth) = machine.told();
    reader.told(names, depth)
}

// What is wrong with the word at this place among those of all texts.
fn refusal_of<'a>(sources: &[Source<'a>], place: usize, problem: Problem) -> Refusal<'a> {
    let mut refusal = Refusal {
        file: b"",
        line: 0,
        word: b"",
        problem,
    };
    let mut left = place;
    for source in sources {
        match find_word(source.text, left) {
            Ok((line, word)) => {
                refusal.file = source.name;
                refusal.line = line;
                refusal.word = word;
                break;
            }
            Err(count) => left = left.saturating_sub(count),
        }
    }
    refusal
}
