//! What a line says.
ghost use Rattle.std.specs.Prelude.{◌≡◌, ◌∷◌, List, IfOk, OnOk, codes, map};
ghost use Rattle.std.specs.List.{AllZip};
ghost use Rattle.rule_tables.specs.Words.{NamedQuestion, Statement, IsQuestion, Say, Says, IsMalformed, statement_of, statement_with, named, words_left};
ghost use Rattle.rule_tables.specs.declared.reading.question.Question.{Question};

use crate::reading::depth::depth_of;
use crate::reading::question::{Question, question_of};
use line_texts::{Words, is_name};
use search_context::context::NoMemory;
use smallvec::SmallVec;
use std::alloc::{AllocError, AllocFailed, Global};

/// So many questions of a rule take no memory of their own.
pub(super) const FEW: usize = 4;

/// What a line says.
#[derive(Drop)]
pub enum Line<'a> {
    /// Nothing: no word stands on it, or it is a comment.
    PassedOver,
    /// One candidate of a goal.
    Rule {
        is_marked: bool,
        name: &'a [u8],
        questions: SmallVec<Question<'a>, FEW>,
    },
    /// A question of the program.
    Ask {
        depth: usize,
        name: &'a [u8],
    },
}

/// What a line says, but for the questions of its rule, which stand in a list.
#[derive(Clone, Copy)]
pub enum Said<'a> {
    PassedOver,
    Rule { is_marked: bool, name: &'a [u8] },
    Ask { depth: usize, name: &'a [u8] },
}

/// Why a line was not read.
#[derive(Clone, Copy)]
pub enum LineFault {
    Malformed,
    Memory,
}

impl From<AllocError> for LineFault {
    ghost use Rattle.rule_tables.specs.declared.reading.line.LineFault.TheVariants.{Memory};

    ghost from_gives = { λ _ fault. fault ≡ Memory };

    fn from(_error: AllocError) -> LineFault {
        LineFault::Memory
    }
}

impl From<NoMemory> for LineFault {
    ghost use Rattle.rule_tables.specs.declared.reading.line.LineFault.TheVariants.{Memory};

    ghost from_gives = { λ _ fault. fault ≡ Memory };

    fn from(_error: NoMemory) -> LineFault {
        LineFault::Memory
    }
}

impl<T: Drop> From<AllocFailed<T>> for LineFault {
    ghost use Rattle.rule_tables.specs.declared.reading.line.LineFault.TheVariants.{Memory};

    ghost from_gives = { λ _ fault. fault ≡ Memory };

    fn from(_error: AllocFailed<T>) -> LineFault {
        LineFault::Memory
    }
}

/// Reads a line.
pub fn line_of<'a>(alloc: Global, line: &'a [u8]) -> Result<Line<'a>, LineFault>
    ensures ok { IfOk result (λ said. Says line.now (statement_of said)) }
    ensures malformed { result ≡ Err LineFault.Malformed → IsMalformed line.now }
{
    let mut questions = SmallVec::new(alloc);
    match said_by(line, &mut questions)? {
        Said::PassedOver => Ok(Line::PassedOver),
        Said::Rule { is_marked, name } => Ok(Line::Rule {
            is_marked,
            name,
            questions,
        }),
        Said::Ask { depth, name } => Ok(Line::Ask { depth, name }),
    }
}

/// Reads a line. The questions of a rule take the place of those in the list, so that a reader of many lines has one for
/// all.
pub(super) fn said_by<'a>(
    line: &'a [u8],
    questions: &mut SmallVec<Question<'a>, FEW>,
) -> Result<Said<'a>, LineFault>
    ensures ok { IfOk result (λ said. Says line.now (statement_with questions.new.items said)) }
    ensures malformed { result ≡ Err LineFault.Malformed → IsMalformed line.now }
{
    let mut words = Words::new(line);
    match words.next() {
        None => Ok(Said::PassedOver),
        Some([b'#', ..]) => Ok(Said::PassedOver),
        Some(b"rule") => rule_of(words, questions),
        Some(b"ask") => ask_of(words),
        Some(_) => Err(LineFault::Malformed),
    }
}

// The words after `rule`.
fn rule_of<'a>(
    mut words: Words<'a>,
    questions: &mut SmallVec<Question<'a>, FEW>,
) -> Result<Said<'a>, LineFault>
    ensures ok { IfOk result (λ said. Say (codes "rule" ∷ words_left words.entry)
        (statement_with questions.new.items said)) }
    ensures malformed { result ≡ Err LineFault.Malformed → (s : Statement) →
        Say (codes "rule" ∷ words_left words.entry) s → ⊥ }
{
    let Some(head) = words.next() else {
        return Err(LineFault::Malformed);
    };
    let Some(b"=") = words.next() else {
        return Err(LineFault::Malformed);
    };
    let (is_marked, name) = match head {
        [b'~', name @ ..] => (true, name),
        name => (false, name),
    };
    if !is_name(name) {
        return Err(LineFault::Malformed);
    }
    read_questions(words, questions)?;
    Ok(Said::Rule { is_marked, name })
}

fn read_questions<'a>(
    words: Words<'a>,
    questions: &mut SmallVec<Question<'a>, FEW>,
) -> Result<(), LineFault>
    ensures ok { OnOk result
        (AllZip IsQuestion (words_left words.entry) (map named questions.new.items)) }
    ensures malformed { result ≡ Err LineFault.Malformed → (questions : List NamedQuestion) →
        AllZip IsQuestion (words_left words.entry) questions → ⊥ }
{
    questions.clear();
    for word in words {
        let Some(question) = question_of(word) else {
            return Err(LineFault::Malformed);
        };
        questions.push(question)?;
    }
    Ok(())
}

// The words after `ask`.
fn ask_of<'a>(mut words: Words<'a>) -> Result<Said<'a>, LineFault>
    ensures ok { IfOk result (λ said. (questions : List Question) →
        Say (codes "ask" ∷ words_left words.entry) (statement_with questions said)) }
    ensures malformed { result ≡ Err LineFault.Malformed → (s : Statement) →
        Say (codes "ask" ∷ words_left words.entry) s → ⊥ }
{
    let Some(digits) = words.next() else {
        return Err(LineFault::Malformed);
    };
    let Some(name) = words.next() else {
        return Err(LineFault::Malformed);
    };
    let Some(depth) = depth_of(digits) else {
        return Err(LineFault::Malformed);
    };
    if is_name(name) && words.next().is_none() {
        Ok(Said::Ask { depth, name })
    } else {
        Err(LineFault::Malformed)
    }
}
