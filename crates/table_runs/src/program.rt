//! What the programs do: they read a table, and answer its questions in order.
ghost use Rattle.std.specs.Prelude.{◌≡◌, ◌≤◌, ◌<◌, ◌==◌, ◌⊎◌, ℕ, IfOk, IfErr, IfSome, OnErr, OnOk};
ghost use Rattle.std.specs.Io.KnownBytes.{Keeps};
ghost use Rattle.table_runs.specs.Below.{IsFirstBadLine};
ghost use Rattle.table_runs.specs.Program.{IsAllTold, IsBrokenOff};

mod parts;
mod questions;
mod shown;

use line_texts::{Flush, read_input};
use program_ends::{Stop, status_told};
use questions::answer_questions;
pub use questions::{Checks, ask, came_fine};
use rule_tables::delegate::Table;
use rule_tables::{BadLine, Goal, Outcome, Rules, TableDelegate};
use search_parts::context::{Cx, Delegate};
pub use shown::ShownNodes;
use std::alloc::Global;
use std::io::{Read, Write};

/// Reads rules and questions and answers each question in order, on a line of its own:
/// `NAME yes 3 checked`, with `no` in place of `yes`, or `NAME maybe 3`, with `overflow` in place of
/// `maybe`. The number is that of the frames that the question started. `checked` says that the graph of
/// the answer was handed out, and that the checker, which knows nothing of the search, accepted it;
/// should it not, the word is `unchecked`. A fault is told as `NAME fault memory`, with `conflict`,
/// `validation` or `protocol`; where memory is out for the check, that is a fault of memory, too.
/// All rules count for every question, and all questions share one cache.
///
/// The answer is the exit status: 0 where all questions were answered, and 1 where one met a
/// fault or was unchecked. 2 for a malformed line: then no question is asked. 3 where reading or
/// writing failed, and 4 where there was no memory for the input, the table or the lines: then the program
/// ends there. For 2, 3 and 4 the reason stands on the second writer, and a failure to write it changes
/// nothing.
pub fn run<R: Read + Drop, W: Write, E: Write + Drop>(
    alloc: Global,
    input: R,
    out: &mut W,
    err: E,
) -> u8
    ensures status { result ≤ 4 }

    // All questions of the text were answered in turn, and their lines are what was written; 0 says that none
    // met a fault and no graph was refused.
    ensures told { result ≤ 1 → IsAllTold ⟦<TableDelegate<'static, 8, 1> as Delegate>⟧
        ⟦<Table<&'static Rules> as Cx>⟧ ⟦<Goal as PartialEq>⟧.eq ⟦<Outcome as PartialEq>⟧.eq Checks.EachGraph
        (R.remaining input) (W.contents out.old) (W.contents out.new) (result == 0) }

    // Where the reader's bytes are known, a malformed line is told only of a text that the grammar does not
    // allow.
    ensures bad_line { result ≡ 2 →
        IfSome (R.remaining input) (λ text. (n : ℕ) × IsFirstBadLine text n) }
    ensures nothing_written { result ≡ 2 → Keeps (W.contents out.old) (W.contents out.new) }

    // What was written before a failure is a beginning of such lines.
    ensures beginning { 2 < result → IsBrokenOff ⟦<TableDelegate<'static, 8, 1> as Delegate>⟧
        ⟦<Table<&'static Rules> as Cx>⟧ ⟦<Goal as PartialEq>⟧.eq ⟦<Outcome as PartialEq>⟧.eq Checks.EachGraph
        (R.remaining input) (W.contents out.old) (W.contents out.new) }
{
    run_with(alloc, Checks::EachGraph, input, out, err)
}

/// The same without checks: nothing follows the number of frames.
pub fn answer<R: Read + Drop, W: Write, E: Write + Drop>(
    alloc: Global,
    input: R,
    out: &mut W,
    err: E,
) -> u8
    ensures status { result ≤ 4 }
    ensures told { result ≤ 1 → IsAllTold ⟦<TableDelegate<'static, 8, 1> as Delegate>⟧
        ⟦<Table<&'static Rules> as Cx>⟧ ⟦<Goal as PartialEq>⟧.eq ⟦<Outcome as PartialEq>⟧.eq Checks.Nothing
        (R.remaining input) (W.contents out.old) (W.contents out.new) (result == 0) }
    ensures bad_line { result ≡ 2 →
        IfSome (R.remaining input) (λ text. (n : ℕ) × IsFirstBadLine text n) }
    ensures nothing_written { result ≡ 2 → Keeps (W.contents out.old) (W.contents out.new) }
    ensures beginning { 2 < result → IsBrokenOff ⟦<TableDelegate<'static, 8, 1> as Delegate>⟧
        ⟦<Table<&'static Rules> as Cx>⟧ ⟦<Goal as PartialEq>⟧.eq ⟦<Outcome as PartialEq>⟧.eq Checks.Nothing
        (R.remaining input) (W.contents out.old) (W.contents out.new) }
{
    run_with(alloc, Checks::Nothing, input, out, err)
}

fn run_with<R: Read + Drop, W: Flush, E: Write + Drop>(
    alloc: Global,
    checks: Checks,
    mut input: R,
    out: &mut W,
    err: E,
) -> u8
    ensures status { result ≤ 4 }
    ensures told { result ≤ 1 → IsAllTold ⟦<TableDelegate<'static, 8, 1> as Delegate>⟧
        ⟦<Table<&'static Rules> as Cx>⟧ ⟦<Goal as PartialEq>⟧.eq ⟦<Outcome as PartialEq>⟧.eq checks
        (R.remaining input) (W.contents out.old) (W.contents out.new) (result == 0) }
    ensures bad_line { result ≡ 2 →
        IfSome (R.remaining input) (λ text. (n : ℕ) × IsFirstBadLine text n) }
    ensures nothing_written { result ≡ 2 → Keeps (W.contents out.old) (W.contents out.new) }
    ensures beginning { 2 < result → IsBrokenOff ⟦<TableDelegate<'static, 8, 1> as Delegate>⟧
        ⟦<Table<&'static Rules> as Cx>⟧ ⟦<Goal as PartialEq>⟧.eq ⟦<Outcome as PartialEq>⟧.eq checks
        (R.remaining input) (W.contents out.old) (W.contents out.new) }
    ensures flushed { result ≤ 1 → W.is_flushed out.new }
{
    let came = answer_input(alloc, checks, &mut input, out);
    status_told(came, err)
}

// Whether each question was answered, and none met a fault.
fn answer_input<R: Read, W: Flush>(
    alloc: Global,
    checks: Checks,
    input: &mut R,
    out: &mut W,
) -> Result<bool, Stop<BadLine>>
    ensures told { IfOk result (IsAllTold ⟦<TableDelegate<'static, 8, 1> as Delegate>⟧
        ⟦<Table<&'static Rules> as Cx>⟧ ⟦<Goal as PartialEq>⟧.eq ⟦<Outcome as PartialEq>⟧.eq checks
        (R.remaining input.old) (W.contents out.old) (W.contents out.new)) }
    ensures flushed { OnOk result (W.is_flushed out.new) }
    ensures bad_line { (n : ℕ) → result ≡ Err (Stop.Text (record { number = n })) →
        IfSome (R.remaining input.old) (λ text. IsFirstBadLine text n) }
    ensures nothing_written { (n : ℕ) → result ≡ Err (Stop.Text (record { number = n })) →
        Keeps (W.contents out.old) (W.contents out.new) }
    ensures beginning { OnErr result (IsBrokenOff ⟦<TableDelegate<'static, 8, 1> as Delegate>⟧
        ⟦<Table<&'static Rules> as Cx>⟧ ⟦<Goal as PartialEq>⟧.eq ⟦<Outcome as PartialEq>⟧.eq checks
        (R.remaining input.old) (W.contents out.old) (W.contents out.new)) }
{
    let text = read_input(alloc, input)?;
    let rules = Rules::read(alloc, text.as_slice())?;
    // The table has all that is wanted of it, and the answers may want the memory.
    drop(text);
    answer_questions::<Table<&Rules>, TableDelegate<'_, 8, 1>, W>(
        alloc,
        Table { lender: &rules },
        &rules,
        checks,
        out,
    )
}
