//! The program that checks graphs which are read as data.
ghost use Rattle.std.specs.Prelude.{◌≡◌, ◌≤◌, ◌==◌, IsSomeAnd};
ghost use Rattle.std.specs.Io.KnownBytes.{Keeps};
ghost use Rattle.graph_pages.specs.Program.{IsJudgedPage};
ghost use Rattle.graph_data.specs.Page.{IsPageText};

mod checking;

use crate::stop::status_told;
use checking::check_input;
use rule_tables::delegate::Table;
use rule_tables::{Rules, TableDelegate};
use search_context::context::{Cx, Delegate};
use std::alloc::Global;
use std::io::{Read, Write};
use watched_runs::Progress;

/// Reads graphs as data, as `explain` writes them in the form `Data`, and says of each on a line whether the checker accepts it:
/// `A yes accepted`, `A no refused`, or `A maybe without a graph`.
///
/// The answer is the exit status: 0 where none was refused, and 1 where one was. 2 for data of another form: the place stands
/// on the second writer, and nothing is told. 3 and 4 as for `explain`.
pub fn check<R: Read + Drop, W: Write, E: Write + Drop, P: Progress>(
    alloc: Global,
    mut input: R,
    out: &mut W,
    err: E,
    progress: P,
) -> u8
    ensures status { result ≤ 4 }

    // All claims of the data were judged as is right, and their lines are what was written; 0 says that none was
    // refused.
    ensures told { result ≤ 1 → IsJudgedPage ⟦<TableDelegate<'static, 8, 1> as Delegate>⟧
        ⟦<Table<&'static Rules> as Cx>⟧ (R.remaining input)
        (W.contents out.old) (W.contents out.new) (result == 0) }

    // Where the reader's bytes are known, bad data is told only of a text that is no page of data.
    ensures bad_data { result ≡ 2 → ¬ (IsSomeAnd (R.remaining input) IsPageText) }
    ensures nothing_written { result ≡ 2 → Keeps (W.contents out.old) (W.contents out.new) }
{
    let came = check_input(alloc, &mut input, out, progress);
    status_told(came, err)
}
