//! The line of a question on two types.
ghost use Rattle.std.specs.Prelude.{◌≡◌, OnOk, Err};
ghost use Rattle.std.specs.Io.KnownBytes.{Appends};
ghost use Rattle.answer_lines.specs.Types.{answer_word_of, line_told, told_words, words_of_answer};

use crate::faults::fault_word;
use search_context::context::Fault;
use std::io;
use std::io::Write;

/// What a question came to.
#[derive(Drop)]
pub struct Told {
    /// Whether the left type is below the right one.
    pub is_below: bool,
    /// What is written after a `no`, and nothing after a `yes`.
    pub reason: Vec<u8>,
}

/// Writes the line of a question: `NAME < NAME yes`, `NAME < NAME no` with the reason, or `NAME < NAME fault memory`.
pub fn write_line<W: Write, I: Copy, R: Copy>(
    out: &mut W,
    left: &[u8],
    right: &[u8],
    came: Result<Told, Fault<I, R>>,
) -> io::Result<()>
    ensures { OnOk result (Appends (W.contents out.old) (W.contents out.new)
        (line_told left.now right.now came)) }
{
    out.write_all(left)?;
    out.write_all(b" < ")?;
    out.write_all(right)?;
    match came {
        Ok(told) => write_told(out, told),
        Err(fault) => write_fault(out, fault),
    }
}

fn write_told<W: Write>(out: &mut W, told: Told) -> io::Result<()>
    ensures { OnOk result (Appends (W.contents out.old) (W.contents out.new) (told_words told)) }
{
    let Told { is_below, reason } = told;
    let word = answer_word(is_below);
    write!(out, " {word}")?;
    out.write_all(reason.as_slice())?;
    out.write_all(b"\n")
}

fn write_fault<W: Write, I: Copy, R: Copy>(out: &mut W, fault: Fault<I, R>) -> io::Result<()>
    ensures { OnOk result
        (Appends (W.contents out.old) (W.contents out.new) (words_of_answer (Err fault))) }
{
    let word = fault_word(fault);
    writeln!(out, " fault {word}")
}

fn answer_word(is_below: bool) -> &'static str
    ensures { result.now ≡ answer_word_of is_below }
{
    if is_below { "yes" } else { "no" }
}
