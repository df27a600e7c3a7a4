//! What the program does: it reads a table of types, and answers its questions in order.
ghost use Rattle.std.specs.Prelude.{◌≡◌, ◌≤◌, ◌<◌, ◌==◌, IfErr, IfOk, IfSome, OnErr, OnOk};
ghost use Rattle.std.specs.Io.KnownBytes.{Keeps};
ghost use Rattle.type_runs.specs.Program.{IsAllTold, IsBrokenOff, IsRefused, stopped_text};
ghost use Rattle.program_ends.specs.Stop.{status_of};

mod questions;
mod reason;

use line_texts::{Flush, read_input};
use program_ends::{Stop, status_told};
use questions::answer_questions;
use std::alloc::Global;
use std::io::{Read, Write};
use type_order::Types;
use type_texts::{ReadFault, TypeTable};

/// Reads types and questions and answers each question in order, on a line of its own: `NAME < NAME yes`, or `no` with
/// the way to the reason, as `List < Stream no at tail.head: Text is not below Int`. A fault is told as
/// `NAME < NAME fault memory`, with `conflict`, `validation` or `protocol`.
///
/// The answer is the exit status: 0 where all questions were answered, and 1 where one met a fault. 2 where a line is
/// malformed or its names are not in order, as `TypeTable::read` says: then no question is asked. 3 where reading or
/// writing failed, and 4 where there was no memory for the input, the table or the lines: then the program ends there. For
/// 2, 3 and 4 the reason stands on the second writer, and a failure to write it changes nothing.
pub fn run<R: Read + Drop, W: Flush, E: Write + Drop>(
    alloc: Global,
    mut input: R,
    out: &mut W,
    err: E,
) -> u8
    ensures status { result ≤ 4 }

    // All questions of the text were answered as is right, and their lines are what was written; 0 says that none met a
    // fault.
    ensures told { result ≤ 1 → IsAllTold (R.remaining input)
        (W.contents out.old) (W.contents out.new) (result == 0) }
    ensures flushed { result ≤ 1 → W.is_flushed out.new }

    // Where the reader's bytes are known, a text is refused only for a fault that it has.
    ensures refused { result ≡ 2 → IfSome (R.remaining input) IsRefused }
    ensures nothing_written { result ≡ 2 → Keeps (W.contents out.old) (W.contents out.new) }

    // What was written before a failure is a beginning of such lines.
    ensures beginning { 2 < result → IsBrokenOff (R.remaining input)
        (W.contents out.old) (W.contents out.new) }
{
    let came = answer_input(alloc, &mut input, out);
    status_told(came, err)
}

// Whether each question was answered without a fault.
fn answer_input<R: Read, W: Flush>(
    alloc: Global,
    input: &mut R,
    out: &mut W,
) -> Result<bool, Stop<ReadFault>>
    ensures told { IfOk result
        (IsAllTold (R.remaining input.old) (W.contents out.old) (W.contents out.new)) }
    ensures flushed { OnOk result (W.is_flushed out.new) }
    ensures refused { IfErr result
        (λ stop. status_of stop ≡ 2 → IfSome (R.remaining input.old) IsRefused) }
    ensures nothing_written { IfErr result (λ stop. status_of stop ≡ 2 →
        Keeps (W.contents out.old) (W.contents out.new)) }
    ensures beginning { OnErr result (IsBrokenOff (R.remaining input.old)
        (W.contents out.old) (W.contents out.new)) }
{
    let text = read_input(alloc, input)?;
    match TypeTable::read(alloc, text.as_slice()) {
        Ok(table) => answer_questions::<&Types, W>(alloc, table.types(), &table, out),
        Err(fault) => Err(stop_of(fault)),
    }
}

// What a fault of the reading stops.
fn stop_of(fault: ReadFault) -> Stop<ReadFault>
    ensures { result ≡ stopped_text fault }
{
    match fault {
        ReadFault::Memory => Stop::Memory,
        ReadFault::BadLine(_)
        | ReadFault::Twice(_)
        | ReadFault::Undeclared(_)
        | ReadFault::Unguarded(_) => Stop::Text(fault),
    }
}
