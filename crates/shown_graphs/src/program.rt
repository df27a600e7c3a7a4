//! What the program does: it shows how the questions of a text are answered.
ghost use Rattle.std.specs.Prelude.{◌≡◌, ◌≤◌, ◌==◌, ℕ, IfSome};
ghost use Rattle.std.specs.Io.KnownBytes.{Keeps};
ghost use Rattle.shown_graphs.specs.Below.{IsFirstBadLine};
ghost use Rattle.graph_pages.specs.Program.{ShowsAnswers};

mod showing;

use graph_pages::{Form, status_told};
use rule_tables::delegate::Table;
use rule_tables::{Rules, TableDelegate};
use search_context::context::{Cx, Delegate};
use showing::show_input;
pub use showing::show_text;
use std::alloc::Global;
use std::io::{Read, Write};
use watched_runs::Progress;

/// Reads rules and questions, as `goals` does, and shows of each question in turn what it came to, with the graph of a yes or
/// no. Each graph is handed out by the search, and shown only if the checker, which knows nothing of the search, accepts it.
///
/// The answer is the exit status: 0 where all questions were answered; 1 where one met a fault, or its graph was refused. 2 for
/// a malformed line: then nothing is shown. 3 where reading or writing failed, and 4 where there was no memory for the input,
/// the table or what is shown: then the program ends there. For 2, 3 and 4 the reason stands on the second writer, and a
/// failure to write it changes nothing.
pub fn explain<R: Read + Drop, W: Write, E: Write + Drop, P: Progress>(
    alloc: Global,
    form: Form,
    input: R,
    out: &mut W,
    err: E,
    progress: P,
) -> u8
    ensures status { result ≤ 4 }

    // All questions of the text were asked in turn, and as data a page with the same rules and their answers is what was
    // written; 0 says that none met a fault and no graph was refused.
    ensures told { result ≤ 1 → ShowsAnswers ⟦<TableDelegate<'static, 8, 1> as Delegate>⟧
        ⟦<Table<&'static Rules> as Cx>⟧ (R.remaining input)
        (W.contents out.old) (W.contents out.new) form (result == 0) }

    // Where the reader's bytes are known, a malformed line is told only of a text that the grammar does not
    // allow.
    ensures bad_line { result ≡ 2 →
        IfSome (R.remaining input) (λ text. (n : ℕ) × IsFirstBadLine text n) }
    ensures nothing_written { result ≡ 2 → Keeps (W.contents out.old) (W.contents out.new) }
{
    explain_within::<8, R, W, E, P>(alloc, form, input, out, err, progress)
}

/// The same where a goal has the greater of 1 and `LIMIT` runs at most; with `explain` it has 8.
pub fn explain_within<const LIMIT: usize, R: Read + Drop, W: Write, E: Write + Drop, P: Progress>(
    alloc: Global,
    form: Form,
    mut input: R,
    out: &mut W,
    err: E,
    progress: P,
) -> u8
    ensures status { result ≤ 4 }
    ensures told { result ≤ 1 → ShowsAnswers ⟦<TableDelegate<'static, LIMIT, 1> as Delegate>⟧
        ⟦<Table<&'static Rules> as Cx>⟧ (R.remaining input)
        (W.contents out.old) (W.contents out.new) form (result == 0) }
    ensures bad_line { result ≡ 2 →
        IfSome (R.remaining input) (λ text. (n : ℕ) × IsFirstBadLine text n) }
    ensures nothing_written { result ≡ 2 → Keeps (W.contents out.old) (W.contents out.new) }
{
    let came = show_input::<LIMIT, R, W, P>(alloc, form, &mut input, out, progress);
    status_told(came, err)
}
