//! The machine that reads a text by the steps of its parts.

use crate::bound_grammar::rows_of;
use crate::lexicon::Word;
use crate::names::{NEVER, Names};
use crate::reader::Reader;
use crate::refusal::{Problem, Stop};
use crate::step::{Part, Step, is_word};
use crate::token::{Kind, Token, Words};
use std::alloc::Global;

/// What goals a question may nest if no text says so.
const DEPTH: usize = 128;

/// The most digits that a number has.
const DIGITS: usize = 9;

/// A place in a text.
#[derive(Clone, Copy)]
struct Place<'a> {
    /// The word that stands here.
    token: Token<'a>,
    /// What stands behind it.
    behind: Words<'a>,
    /// How many words are passed, with those of other texts and their ends.
    count: usize,
    /// The name of the one that was passed last.
    name: usize,
}

/// A place in a text, and the steps to take from there.
#[derive(Drop)]
pub(crate) struct Machine<'a> {
    names: Names<'a>,
    at: Place<'a>,
    // The place that was kept.
    mark: Place<'a>,
    // Those behind the words `impl`, if impls may be asked about.
    impls: Vec<Place<'a>>,
    steps: &'static [Step],
    // The steps behind these, the last ones first.
    later: Vec<&'static [Step]>,
    /// The last limit on nested goals that was read.
    depth: usize,
}

impl<'a> Machine<'a> {
    /// The place before the first text. Words get these names, and new ones.
    pub(crate) fn new(alloc: Global, names: Names<'a>) -> Machine<'a> {
        let nowhere = Place {
            token: Token {
                text: b"",
                kind: Kind::End,
                name: NEVER,
            },
            behind: Words::of(b""),
            count: 0,
            name: NEVER,
        };
        Machine {
            names,
            at: nowhere,
            mark: nowhere,
            impls: Vec::new(alloc),
            steps: &[],
            later: Vec::new(alloc),
            depth: DEPTH,
        }
    }

    /// The names, and the limit on nested goals.
    pub(crate) fn told(self) -> (Vec<&'a [u8]>, usize) {
        let Machine {
            names,
            at: _,
            mark: _,
            impls,
            steps: _,
            later,
            depth,
        } = self;
        drop(impls);
        drop(later);
        (names.into_texts(), depth)
    }

    /// Reads a text to its end.
    pub(crate) fn read_text(&mut self, reader: &mut Reader, text: &'a [u8]) -> Result<(), Stop> {
        self.at.behind = Words::of(text);
        self.read_word()?;
        self.read_part(reader, Part::Items)
    }

    /// Reads the impls again that are asked about.
    pub(crate) fn read_definitions(&mut self, reader: &mut Reader) -> Result<(), Stop> {
        for index in 0..self.impls.len() {
            if reader.begin_definition(index)? {
                self.at = self.impls.get(index).copied().unwrap_or(self.at);
                self.read_part(reader, Part::Definition)?;
            }
        }
        Ok(())
    }

    // Reads the part, and all that is to be read behind it.
    fn read_part(&mut self, reader: &mut Reader, part: Part) -> Result<(), Stop> {
        self.choose(part)?;
        for _ in 0..u64::MAX {
            match self.next_step() {
                Some(step) => self.take(reader, step)?,
                None => return Ok(()),
            }
        }
        Err(Stop::Memory)
    }

    // The step to take, which is left out then.
    fn next_step(&mut self) -> Option<&'static Step> {
        for _ in 0..u64::MAX {
            if let Some((step, steps)) = self.steps.split_first() {
                self.steps = steps;
                return Some(step);
            }
            self.steps = self.later.pop()?;
        }
        None
    }

    fn take(&mut self, reader: &mut Reader, step: &Step) -> Result<(), Stop> {
        match *step {
            Step::Pass => self.pass(),
            Step::Word(word) => {
                let is_right = is_word(self.text(), word);
                self.pass_if(is_right, Problem::Expected(word))
            }
            Step::Name => {
                let is_right = matches!(self.at.token.kind, Kind::Name);
                self.pass_if(is_right, Problem::NoName)
            }
            Step::Number => {
                let is_right = matches!(self.at.token.kind, Kind::Number);
                self.pass_if(is_right, Problem::NoNumber)
            }
            Step::ImplNumber => self.read_impl_number(reader),
            Step::Limit => self.read_limit(),
            Step::Keep => self.keep(reader),
            Step::Mark => {
                self.mark = self.at;
                Ok(())
            }
            Step::Back => {
                self.at = self.mark;
                Ok(())
            }
            Step::Go(part) => self.choose(part),
            Step::If(word, _) if !is_word(self.text(), word) => Ok(()),
            Step::If(_, part) => {
                self.pass()?;
                self.choose(part)
            }
            Step::Make(making) => reader.make(making, self.last_word()),
            Step::Do(doing) => reader.act(doing, self.last_word()),
            Step::Refuse(problem) => Err(self.refused(problem)),
        }
    }

    // Passes the word, if it is as it has to be.
    fn pass_if(&mut self, is_right: bool, problem: Problem) -> Result<(), Stop> {
        if !is_right {
            return Err(self.refused(problem));
        }
        self.pass()
    }

    fn pass(&mut self) -> Result<(), Stop> {
        self.at.count = self.at.count.saturating_add(1);
        self.at.name = self.at.token.name;
        self.read_word()
    }

    // The next word stands here from now on.
    fn read_word(&mut self) -> Result<(), Stop> {
        self.at.token = self.at.behind.next_token(&mut self.names)?;
        Ok(())
    }

    // The text of the word that stands here.
    fn text(&self) -> &'a [u8] {
        self.at.token.text
    }

    // The word that was passed last.
    fn last_word(&self) -> Word {
        Word {
            name: self.at.name,
            place: self.at.count.saturating_sub(1),
        }
    }

    // What is wrong with the word.
    fn refused(&self, problem: Problem) -> Stop {
        match self.at.token.kind {
            Kind::OpenComment => Stop::Refused(self.at.count, Problem::OpenComment),
            _ => Stop::Refused(self.at.count, problem),
        }
    }

    // Takes the steps of the part first. Where they begin by passing the word, that is done at once.
    fn choose(&mut self, part: Part) -> Result<(), Stop> {
        let Token { text, kind, .. } = self.at.token;
        for (when, steps) in rows_of(part) {
            if when.fits(text, kind) {
                if !self.steps.is_empty() {
                    self.later.push(self.steps)?;
                }
                self.steps = *steps;
                if let Some((Step::Pass, behind)) = steps.split_first() {
                    self.steps = behind;
                    return self.pass();
                }
                return Ok(());
            }
        }
        Err(self.refused(Problem::NoItem))
    }

    // Keeps the place of an impl, if it may be asked about.
    fn keep(&mut self, reader: &Reader) -> Result<(), Stop> {
        if reader.options.definitions {
            self.impls.push(self.at)?;
        }
        Ok(())
    }

    fn read_impl_number(&mut self, reader: &mut Reader) -> Result<(), Stop> {
        let number = number_of(self.text());
        reader.named_impl = number.unwrap_or(0);
        self.pass_if(number.is_some(), Problem::NoNumber)
    }

    fn read_limit(&mut self) -> Result<(), Stop> {
        let limit = limit_of(self.text());
        self.depth = limit.unwrap_or(DEPTH);
        self.pass_if(limit.is_some(), Problem::Limit)
    }
}

// The number that the digits in quotes say.
fn limit_of(quoted: &[u8]) -> Option<usize> {
    let [b'"', digits @ .., b'"'] = quoted else {
        return None;
    };
    number_of(digits)
}

// The number that the digits say, of which there may be nine.
fn number_of(digits: &[u8]) -> Option<usize> {
    if digits.is_empty() || digits.len() > DIGITS {
        return None;
    }
    let mut number = 0usize;
    for digit in digits {
        if !digit.is_ascii_digit() {
            return None;
        }
        number = number
            .checked_mul(10)?
            .checked_add((*digit - b'0') as usize)?;
    }
    Some(number)
}
