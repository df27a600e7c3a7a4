//! Proof trees as text.
ghost use Rattle.std.specs.Prelude.{ℕ, List, OnOk};
ghost use Rattle.std.specs.Io.KnownBytes.{Appends};
ghost use Rattle.proof_trees.specs.Text.{asked_words, deep_indentation, indentation, line_of, part_words, question_words, text_of};

use crate::entry::{Entry, Part};
use path_kinds::path::PathKind;
use std::io;
use std::io::Write;

/// How many levels are indented. A line of a deeper level has its number as well.
const MOST_LEVELS: usize = 20;

/// The indentation of these.
const SPACES: &[u8] = b"                                        ";

/// How goals, results and kinds of steps are written.
pub trait Words<I, R> {
    ghost use Rattle.proof_trees.specs.Below.{PathKind};

    ghost kind_words: { Self → PathKind → List ℕ };

    ghost goal_words: { Self → I → List ℕ };

    ghost result_words: { Self → R → List ℕ };

    /// Writes the kind of a step. Each error is the writer's; then a part may have been written.
    fn write_kind<W: Write>(&self, out: &mut W, kind: PathKind) -> io::Result<()>
        ensures { OnOk result
            (Appends (W.contents out.old) (W.contents out.new) (kind_words self.now kind)) };

    /// Writes a goal.
    fn write_goal<W: Write>(&self, out: &mut W, goal: I) -> io::Result<()>
        ensures { OnOk result
            (Appends (W.contents out.old) (W.contents out.new) (goal_words self.now goal)) };

    /// Writes a result.
    fn write_result<W: Write>(&self, out: &mut W, outcome: R) -> io::Result<()>
        ensures { OnOk result
            (Appends (W.contents out.old) (W.contents out.new) (result_words self.now outcome)) };
}

/// Writes a tree, each entry on a line that is indented by its level: `i:B, run 1` for a run of a goal, which for the root
/// has no kind, `candidate 0`, `candidate 0 is ignored`, `i:B = yes` for a question that was answered, and `= yes` for the
/// result of a run. The end of a candidate has no line. Past 20 levels the indentation stays, and the level stands before
/// the line, as `[21] `, so that the text of a tree grows no faster than the tree.
///
/// Each error is the writer's; then a part of the text may have been written.
pub fn write_entries<I: Copy, R: Copy, N: Words<I, R>, W: Write>(
    out: &mut W,
    words: &N,
    entries: &[Entry<I, R>],
) -> io::Result<()>
    ensures { OnOk result (Appends (W.contents out.old) (W.contents out.new)
        (text_of (record { kind = N.kind_words words.now; goal = N.goal_words words.now; outcome = N.result_words words.now }) entries.now)) }
{
    for entry in entries {
        write_entry(out, words, *entry)?;
    }
    Ok(())
}

fn write_entry<I: Copy, R: Copy, N: Words<I, R>, W: Write>(
    out: &mut W,
    words: &N,
    entry: Entry<I, R>,
) -> io::Result<()>
    ensures { OnOk result (Appends (W.contents out.old) (W.contents out.new)
        (line_of (record { kind = N.kind_words words.now; goal = N.goal_words words.now; outcome = N.result_words words.now }) entry)) }
{
    if let Part::FinishedCandidate(_) = entry.part {
        return Ok(());
    }
    write_indentation(out, entry.level)?;
    write_part(out, words, entry.part)?;
    out.write_all(b"\n")
}

fn write_indentation<W: Write>(out: &mut W, level: usize) -> io::Result<()>
    ensures { OnOk result (Appends (W.contents out.old) (W.contents out.new) (indentation level)) }
{
    if MOST_LEVELS < level {
        write_deep(out, level)
    } else {
        out.write_all(&SPACES[..2 * level])
    }
}

fn write_deep<W: Write>(out: &mut W, level: usize) -> io::Result<()>
    ensures { OnOk result
        (Appends (W.contents out.old) (W.contents out.new) (deep_indentation level)) }
{
    out.write_all(SPACES)?;
    write!(out, "[{level}] ")
}

// What stands on the line of an entry.
fn write_part<I: Copy, R: Copy, N: Words<I, R>, W: Write>(
    out: &mut W,
    words: &N,
    part: Part<I, R>,
) -> io::Result<()>
    ensures { OnOk result (Appends (W.contents out.old) (W.contents out.new)
        (part_words (record { kind = N.kind_words words.now; goal = N.goal_words words.now; outcome = N.result_words words.now }) part)) }
{
    match part {
        Part::Run { kind, goal, number } => {
            write_asked(out, words, kind, goal)?;
            write!(out, ", run {number}")
        }
        Part::Candidate(number) => write!(out, "candidate {number}"),
        Part::FinishedCandidate(_) => Ok(()),
        Part::IgnoredCandidate(number) => write!(out, "candidate {number} is ignored"),
        Part::Question { kind, goal, result } => {
            write_question(out, words, kind, goal)?;
            out.write_all(b" = ")?;
            words.write_result(out, result)
        }
        Part::RunEnd(outcome) => {
            out.write_all(b"= ")?;
            words.write_result(out, outcome)
        }
    }
}

fn write_asked<I: Copy, R: Copy, N: Words<I, R>, W: Write>(
    out: &mut W,
    words: &N,
    kind: Option<PathKind>,
    goal: I,
) -> io::Result<()>
    ensures { OnOk result (Appends (W.contents out.old) (W.contents out.new)
        (asked_words (record { kind = N.kind_words words.now; goal = N.goal_words words.now; outcome = N.result_words words.now }) kind goal)) }
{
    match kind {
        Some(kind) => write_question(out, words, kind, goal),
        None => words.write_goal(out, goal),
    }
}

fn write_question<I: Copy, R: Copy, N: Words<I, R>, W: Write>(
    out: &mut W,
    words: &N,
    kind: PathKind,
    goal: I,
) -> io::Result<()>
    ensures { OnOk result (Appends (W.contents out.old) (W.contents out.new)
        (question_words (record { kind = N.kind_words words.now; goal = N.goal_words words.now; outcome = N.result_words words.now }) kind goal)) }
{
    words.write_kind(out, kind)?;
    out.write_all(b":")?;
    words.write_goal(out, goal)
}
