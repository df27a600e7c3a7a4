//! What is asked once all is read.

use crate::calls::{Call, Function, arguments_of};
use crate::declarations::Question;
use crate::draft::Draft;
use crate::lexicon::{Lexicon, Word};
use crate::program::Program;
use crate::refusal::{Problem, Stop, push};
use std::alloc::Global;
use std::marker::Model;

// A question, or the call of this number.
#[derive(Clone, Copy)]
enum Pending {
    Question(Question),
    Call(usize),
}

/// Functions, and calls with the questions behind the first of them, in the order of the text.
#[derive(Drop)]
pub(crate) struct Asking {
    functions: Vec<Function>,
    calls: Vec<Call>,
    pending: Vec<Pending>,
}

// Nothing is promised of what is in it.
impl Model for Asking {
    ghost Value = { Unit {0} };

    ghost view = { λ _. tt };
}

impl Asking {
    /// No functions, and nothing is asked.
    pub(crate) fn new(alloc: Global) -> Asking {
        Asking {
            functions: Vec::new(alloc),
            calls: Vec::new(alloc),
            pending: Vec::new(alloc),
        }
    }

    /// One more function, whose number is returned.
    pub(crate) fn add_function(&mut self, function: Function) -> Result<usize, Stop> {
        let number = self.functions.len();
        push(&mut self.functions, function)?;
        Ok(number)
    }

    /// Asks all bounds of a type. They are kept only behind a call: else they are asked at once.
    pub(crate) fn ask(
        &mut self,
        program: &mut Program,
        subject: usize,
        bounds: &[usize],
    ) -> Result<(), Stop> {
        for bound in bounds {
            let question = Question {
                subject,
                bound: *bound,
            };
            if self.pending.is_empty() {
                program.ask(question)?;
            } else {
                push(&mut self.pending, Pending::Question(question))?;
            }
        }
        Ok(())
    }

    /// A function is called.
    pub(crate) fn call(&mut self, call: Call) -> Result<(), Stop> {
        let number = self.calls.len();
        push(&mut self.calls, call)?;
        push(&mut self.pending, Pending::Call(number))
    }

    /// Asks all that was kept, in its order.
    pub(crate) fn ask_all(
        &self,
        alloc: Global,
        lexicon: &Lexicon,
        program: &mut Program,
    ) -> Result<(), Stop> {
        for pending in self.pending.iter() {
            match pending {
                Pending::Question(question) => program.ask(*question)?,
                Pending::Call(number) => self.ask_call(alloc, lexicon, program, *number)?,
            }
        }
        Ok(())
    }

    // Asks what the call of this number does.
    fn ask_call(
        &self,
        alloc: Global,
        lexicon: &Lexicon,
        program: &mut Program,
        number: usize,
    ) -> Result<(), Stop> {
        let call = self.calls.get(number).ok_or(Stop::Memory)?;
        let function = self.function(lexicon, call.word)?;
        let arguments = arguments_of(alloc, &*program, function, call)?;
        function.ask(alloc, program, arguments.as_slice(), call.given.as_slice())
    }

    // The function that the word names.
    fn function(&self, lexicon: &Lexicon, word: Word) -> Result<&Function, Stop> {
        let Some(number) = lexicon.function(word.name) else {
            return Err(Stop::Refused(word.place, Problem::UnknownFunction));
        };
        self.functions.get(number).ok_or(Stop::Memory)
    }
}
