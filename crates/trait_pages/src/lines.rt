//! The lines that tell what questions came to.
ghost use Rattle.std.specs.Prelude.{◌≡◌, ◌++◌, OnOk};
ghost use Rattle.line_texts.specs.Writing.{Passes};
ghost use Rattle.trait_pages.specs.Lines.{AreAllTold, came_words, cause_words, cycle_words};

use crate::names::Names;
use crate::stop::Stop;
use answer_lines::fault_word;
use delegate_parts::Outcome;
use line_texts::write_bytes;
use search_context::context::Fault;
use search_context::path::PathKind;
use std::alloc::Global;
use std::io;
use std::io::Write;
use watched_runs::Cause;

/// What a question came to.
pub type Came = Result<Outcome, Fault<usize, Outcome>>;

/// A write of its own for each line would take longer than many questions do, so this many bytes wait for each other.
const ENOUGH: usize = 8000;

/// Whether the question was answered neither yes nor no.
pub fn is_maybe(came: Came) -> bool {
    matches!(came, Ok(Outcome::Maybe | Outcome::Overflow))
}

/// Tells what each of these goals came to, on a line of its own. There is a cause for each of those that came to maybe, in their
/// order, as far as one is seen.
pub fn tell_all<W: Write>(
    alloc: Global,
    names: Names<'_, '_>,
    goals: &[usize],
    all: &[Came],
    causes: &[Option<Cause>],
    out: &mut W,
) -> Result<(), Stop>
    ensures told { OnOk result (AreAllTold all.now (W.contents out.old) (W.contents out.new)) }
{
    let mut goals = goals.iter();
    let mut causes = causes.iter();
    let mut name = Vec::new(alloc);
    let mut waiting = Vec::new(alloc);
    for came in all {
        name.clear();
        if let Some(goal) = goals.next() {
            names.write(alloc, &mut name, *goal)?;
        }
        let mut cause = None;
        if is_maybe(*came) {
            cause = causes.next().copied().unwrap_or(None);
        }
        tell(out, &mut waiting, name.as_slice(), *came, cause)?;
    }
    write_bytes(out, waiting.as_slice())?;
    out.flush()?;
    Ok(())
}

// The line waits, until there are enough to be written.
fn tell<W: Write>(
    out: &mut W,
    waiting: &mut Vec<u8>,
    name: &[u8],
    came: Came,
    cause: Option<Cause>,
) -> io::Result<()>
    ensures { OnOk result (Passes (W.contents out.old) (W.contents out.new)
        (waiting.old.items ++ (name.now ++ came_words came cause)) waiting.new.items) }
{
    write_line(waiting, name, came, cause)?;
    if waiting.len() < ENOUGH {
        return Ok(());
    }
    write_bytes(out, waiting.as_slice())?;
    waiting.clear();
    Ok(())
}

// Appends the line of a question.
fn write_line(line: &mut Vec<u8>, name: &[u8], came: Came, cause: Option<Cause>) -> io::Result<()>
    ensures { OnOk result (line.new.items ≡ line.old.items ++ (name.now ++ came_words came cause)) }
{
    line.extend_from_slice(name)?;
    match came {
        Ok(Outcome::Yes) => line.extend_from_slice(b" yes\n")?,
        Ok(Outcome::No) => line.extend_from_slice(b" no\n")?,
        Ok(Outcome::Maybe | Outcome::Overflow) => {
            line.extend_from_slice(b" maybe")?;
            line.extend_from_slice(words_of_cause(cause))?;
        }
        Err(fault) => {
            let word = fault_word(fault);
            writeln!(line, " fault {word}")?;
        }
    }
    Ok(())
}

fn words_of_cause(cause: Option<Cause>) -> &'static [u8]
    ensures { result.now ≡ cause_words cause }
{
    match cause {
        Some(Cause::Depth { .. }) => b" (depth)\n",
        Some(Cause::Runs) => b" (runs)\n",
        Some(Cause::Cycle(kind)) => words_of_cycle(kind),
        Some(Cause::Known) => b" (cycle)\n",
        None => b"\n",
    }
}

// What asks itself by forced ambiguity is a goal whose candidates are not known.
fn words_of_cycle(kind: PathKind) -> &'static [u8]
    ensures { result.now ≡ cycle_words kind }
{
    match kind {
        PathKind::ForcedAmbiguity => b" (goals)\n",
        PathKind::Inductive | PathKind::Coinductive | PathKind::Unknown => b" (cycle)\n",
    }
}
