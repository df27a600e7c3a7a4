//! The line of a goal under its tree.
ghost use Rattle.std.specs.Prelude.{OnOk};
ghost use Rattle.std.specs.Io.KnownBytes.{Appends};
ghost use Rattle.answer_lines.specs.Trees.{answer_words};

use crate::faults::fault_word;
use delegate_parts::Outcome;
use search_context::context::{Answer, Fault};
use std::io;
use std::io::Write;

/// Writes what follows the goal's name, with so many runs that were started: ` yes 2`, or ` fault memory`, and an empty line.
pub fn write_answer<W: Write, I: Copy>(
    out: &mut W,
    came: Result<Answer<Outcome>, Fault<I, Outcome>>,
    started: u64,
) -> io::Result<()>
    ensures { OnOk result
        (Appends (W.contents out.old) (W.contents out.new) (answer_words came started)) }
{
    match came {
        Ok(answer) => {
            let outcome = answer.result;
            write!(out, " {outcome} {started}\n\n")
        }
        Err(fault) => {
            let word = fault_word(fault);
            write!(out, " fault {word}\n\n")
        }
    }
}
