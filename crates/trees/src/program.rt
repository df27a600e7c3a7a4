//! What the program does: it reads a table, and shows how its questions are answered, in order.
ghost use Rattle.std.specs.Prelude.{◌≡◌, ◌≤◌, ◌<◌, ◌==◌, ◌⊎◌, ℕ, IfOk, IfErr, IfSome, OnErr, OnOk};
ghost use Rattle.std.specs.Io.KnownBytes.{Keeps};
ghost use Rattle.trees.specs.Below.{IsFirstBadLine};
ghost use Rattle.trees.specs.Program.{IsAllShown, IsBrokenOff};

mod shown;

use line_texts::{Flush, read_input};
use program_ends::{Stop, status_told};
use proof_trees::Recording;
use rule_tables::delegate::Table;
use rule_tables::{BadLine, Goal, Outcome, Rules, TableDelegate};
use search_parts::context::{Cx, Delegate};
use shown::show_questions;
use std::alloc::Global;
use std::io::{Read, Write};

/// Reads rules and questions, and writes of each question the tree of how it is answered, then its answer, as
/// `NAME yes 2` with the number of runs of goals that were started, and an empty line. A fault is told as
/// `NAME fault memory`, after what was recorded until then.
///
/// The answer is the exit status: 0 where all questions were answered, and 1 where one met a fault. 2 for a malformed
/// line: then no question is asked. 3 where reading or writing failed, and 4 where there was no memory for the input, the
/// table or a tree's text: then the program ends there. For 2, 3 and 4 the reason stands on the second writer, and a
/// failure to write it changes nothing.
pub(crate) fn run<R: Read + Drop, W: Flush, E: Write + Drop>(
    alloc: Global,
    mut input: R,
    out: &mut W,
    err: E,
) -> u8
    ensures status { result ≤ 4 }

    // All questions of the text were worked out in turn, and their trees are what was written; 0 says that none met a
    // fault.
    ensures told { result ≤ 1 → IsAllShown ⟦<Recording<TableDelegate<'static, 8, 1>> as Delegate>⟧
        ⟦<Table<&'static Rules> as Cx>⟧ ⟦<Goal as PartialEq>⟧.eq ⟦<Outcome as PartialEq>⟧.eq
        (R.remaining input) (W.contents out.old) (W.contents out.new) (result == 0) }
    ensures flushed { result ≤ 1 → W.is_flushed out.new }

    // Where the reader's bytes are known, a malformed line is told only of a text that the grammar does not
    // allow.
    ensures bad_line { result ≡ 2 →
        IfSome (R.remaining input) (λ text. (n : ℕ) × IsFirstBadLine text n) }
    ensures nothing_written { result ≡ 2 → Keeps (W.contents out.old) (W.contents out.new) }

    // What was written before a failure is a beginning of such trees.
    ensures beginning { 2 < result → IsBrokenOff
        ⟦<Recording<TableDelegate<'static, 8, 1>> as Delegate>⟧
        ⟦<Table<&'static Rules> as Cx>⟧ ⟦<Goal as PartialEq>⟧.eq ⟦<Outcome as PartialEq>⟧.eq
        (R.remaining input) (W.contents out.old) (W.contents out.new) }
{
    let came = show_input(alloc, &mut input, out);
    status_told(came, err)
}

// Whether each question was answered without a fault.
fn show_input<R: Read, W: Flush>(
    alloc: Global,
    input: &mut R,
    out: &mut W,
) -> Result<bool, Stop<BadLine>>
    ensures told { IfOk result (IsAllShown ⟦<Recording<TableDelegate<'static, 8, 1>> as Delegate>⟧
        ⟦<Table<&'static Rules> as Cx>⟧ ⟦<Goal as PartialEq>⟧.eq ⟦<Outcome as PartialEq>⟧.eq
        (R.remaining input.old) (W.contents out.old) (W.contents out.new)) }
    ensures flushed { OnOk result (W.is_flushed out.new) }
    ensures bad_line { (n : ℕ) → result ≡ Err (Stop.Text (record { number = n })) →
        IfSome (R.remaining input.old) (λ text. IsFirstBadLine text n) }
    ensures nothing_written { (n : ℕ) → result ≡ Err (Stop.Text (record { number = n })) →
        Keeps (W.contents out.old) (W.contents out.new) }
    ensures beginning { OnErr result (IsBrokenOff
        ⟦<Recording<TableDelegate<'static, 8, 1>> as Delegate>⟧
        ⟦<Table<&'static Rules> as Cx>⟧ ⟦<Goal as PartialEq>⟧.eq ⟦<Outcome as PartialEq>⟧.eq
        (R.remaining input.old) (W.contents out.old) (W.contents out.new)) }
{
    let text = read_input(alloc, input)?;
    let rules = Rules::read(alloc, text.as_slice())?;
    show_questions::<Table<&Rules>, Recording<TableDelegate<'_, 8, 1>>, W>(
        alloc,
        Table { lender: &rules },
        &rules,
        out,
    )
}
