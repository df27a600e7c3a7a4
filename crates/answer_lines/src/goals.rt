//! The line of a question on a goal.
ghost use Rattle.std.specs.Prelude.{codes, ◌≡◌, ◌++◌, OnOk, Err};
ghost use Rattle.delegate_parts.specs.Outcome.{word_of};
ghost use Rattle.answer_lines.specs.Goals.{check_words, line_told, told_words, words_of_answer};

use crate::faults::fault_word;
use delegate_parts::Outcome;
use search_context::context::Fault;
use std::io;
use std::io::Write;

/// What came of checking an answer's graph.
#[derive(Clone, Copy, PartialEq, Eq)]
pub enum Check {
    /// The answer has no graph, or graphs are not checked.
    None,
    Accepted,
    /// The graph is missing, or it was refused.
    Refused,
}

/// What a question came to.
#[derive(Clone, Copy)]
pub struct Told {
    pub outcome: Outcome,
    /// How many frames the question started.
    pub started: u64,
    pub check: Check,
}

/// Appends the line of a question: `NAME yes 3 checked`, or `NAME fault memory`. Its words go into the list of bytes in few
/// pieces, since there is one for each question. The one error is want of memory.
pub fn write_line<I: Copy>(
    line: &mut Vec<u8>,
    name: &[u8],
    came: Result<Told, Fault<I, Outcome>>,
) -> io::Result<()>
    ensures { OnOk result (line.new.items ≡ line.old.items ++ line_told name.now came) }
{
    line.extend_from_slice(name)?;
    match came {
        Ok(told) => write_told(line, told),
        Err(fault) => write_fault(line, fault),
    }
}

fn write_told(line: &mut Vec<u8>, told: Told) -> io::Result<()>
    ensures { OnOk result (line.new.items ≡ line.old.items ++ told_words told) }
{
    line.extend_from_slice(outcome_words(told.outcome))?;
    let started = told.started;
    write!(line, "{started}")?;
    line.extend_from_slice(end_words(told.check))?;
    Ok(())
}

// The outcome's word, with a space on both sides.
fn outcome_words(outcome: Outcome) -> &'static [u8]
    ensures { result.now ≡ codes " " ++ word_of outcome ++ codes " " }
{
    match outcome {
        Outcome::Yes => b" yes ",
        Outcome::No => b" no ",
        Outcome::Maybe => b" maybe ",
        Outcome::Overflow => b" overflow ",
    }
}

// What the check came to, and the end of the line.
fn end_words(check: Check) -> &'static [u8]
    ensures { result.now ≡ check_words check ++ codes "\n" }
{
    match check {
        Check::None => b"\n",
        Check::Accepted => b" checked\n",
        Check::Refused => b" unchecked\n",
    }
}

fn write_fault<I: Copy>(line: &mut Vec<u8>, fault: Fault<I, Outcome>) -> io::Result<()>
    ensures { OnOk result (line.new.items ≡ line.old.items ++ words_of_answer (Err fault)) }
{
    let word = fault_word(fault);
    writeln!(line, " fault {word}")
}
