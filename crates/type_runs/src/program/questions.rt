//! The questions of a text: each is asked, and told on a line.
ghost use Rattle.std.specs.Prelude.{◌≡◌, ◌⊎◌, ◌++◌, IfErr, IfOk, OnErr, OnOk};
ghost use Rattle.answer_lines.specs.Types.{line_told};
ghost use Rattle.line_texts.specs.Writing.{AppendsBeginning, Passes};
ghost use Rattle.structural_types.specs.Asked.{declared_in};
ghost use Rattle.type_order.specs.Subtypes.{forms_of};
ghost use Rattle.type_runs.specs.Answers.{AreAllTold, AreFirstTold, IsTold};
ghost use Rattle.type_texts.specs.Reasons.{name_of};
ghost use Rattle.type_texts.specs.Table.{forms_in};

use crate::program::reason::reason_of;
use answer_lines::types::{Told, write_line};
use delegate_parts::{Lends, Outcome};
use line_texts::{Flush, write_bytes};
use program_ends::Stop;
use search_parts::context::Fault;
use std::alloc::Global;
use std::io::Write;
use structural_types::Subtyping;
use type_order::{Pair, Types};
use type_texts::{ReadFault, TypeTable};

/// A write of its own for each line would take longer than a question that the cache answers, so this many bytes
/// wait for each other.
const ENOUGH: usize = 8000;

/// Room for these and one short line more.
const ROOM: usize = 8192;

/// Answers each question, and writes its line. The result is whether none met a fault.
pub(super) fn answer_questions<T: Lends<Types>, W: Flush>(
    alloc: Global,
    types: T,
    table: &TypeTable,
    out: &mut W,
) -> Result<bool, Stop<ReadFault>>
    requires same_types { forms_of (T.lent_by types) ≡ forms_in table.now }

    // All questions were asked in order, and their lines written.
    ensures told { IfOk result (AreAllTold table.now (W.contents out.old) (W.contents out.new)) }
    ensures flushed { OnOk result (W.is_flushed out.new) }

    // Else a beginning of the lines of those that were asked.
    ensures beginning { OnErr result
        (AreFirstTold table.now (W.contents out.old) (W.contents out.new)) }
    ensures fault { IfErr result (λ stop. (stop ≡ Stop.InputOrOutput) ⊎ (stop ≡ Stop.Memory)) }
{
    let mut waiting = Vec::with_capacity(alloc, ROOM)?;
    let mut subtyping = Subtyping::<T>::new(alloc, types);
    let mut all_fine = true;
    let questions = table.questions();
    for question in questions {
        let pair = *question;
        let came = ask(alloc, &mut subtyping, table, pair);
        all_fine &= came.is_ok();
        tell(out, &mut waiting, table, pair, came)?;
    }
    write_bytes(out, waiting.as_slice())?;
    out.flush_all()?;
    Ok(all_fine)
}

// Asks whether the left type is below the right one, and seeks the reason if it isn't.
fn ask<T: Lends<Types>>(
    alloc: Global,
    subtyping: &mut Subtyping<T>,
    table: &TypeTable,
    pair: Pair,
) -> Result<Told, Fault<Pair, Outcome>>
    requires of_these { declared_in T.lent_by subtyping.old ≡ forms_in table.now }
    ensures told { IfOk result (IsTold table.now pair) }
    ensures same_types { declared_in T.lent_by subtyping.new
        ≡ declared_in T.lent_by subtyping.old }
{
    if subtyping.is_below(pair.left, pair.right)? {
        return Ok(Told {
            is_below: true,
            reason: Vec::new(alloc),
        });
    }
    let reason = reason_of(alloc, subtyping, table, pair)?;
    Ok(Told {
        is_below: false,
        reason,
    })
}

// The line waits, until there are enough to be written.
fn tell<W: Write>(
    out: &mut W,
    waiting: &mut Vec<u8>,
    table: &TypeTable,
    pair: Pair,
    came: Result<Told, Fault<Pair, Outcome>>,
) -> Result<(), Stop<ReadFault>>
    ensures passed { OnOk result (Passes (W.contents out.old) (W.contents out.new)
        (waiting.old.items ++ line_told (name_of table.now pair.left) (name_of table.now pair.right) came)
        waiting.new.items) }
    ensures beginning { OnErr result (AppendsBeginning (W.contents out.old) (W.contents out.new)
        (waiting.old.items ++ line_told (name_of table.now pair.left) (name_of table.now pair.right) came)) }
    ensures fault { IfErr result (λ stop. (stop ≡ Stop.InputOrOutput) ⊎ (stop ≡ Stop.Memory)) }
{
    let left = table.name(pair.left).unwrap_or(b"");
    let right = table.name(pair.right).unwrap_or(b"");
    write_line(waiting, left, right, came).map_err(|_| Stop::Memory)?;
    if waiting.len() < ENOUGH {
        return Ok(());
    }
    write_bytes(out, waiting.as_slice())?;
    waiting.clear();
    Ok(())
}
