//! The lines of the questions.
ghost use Rattle.std.specs.Prelude.{◌≡◌, is_ok, IfOk, OnOk};
ghost use Rattle.std.specs.List.{list_all};
ghost use Rattle.trait_pages.specs.Lines.{AreAllTold};

use super::Answered;
use crate::causes::causes_of;
use shown_graphs::Cause;
use std::alloc::Global;
use std::io::Write;
use trait_pages::{Stop, is_maybe, tell_all};

/// What is told beside answers where the depth has cut one off.
const HELP: &[u8] = b"where an answer is maybe (depth), a greater recursion_limit may help\n";

/// Answers each question on a line of its own. Whether none met a fault.
pub(crate) fn answer<W: Write, E: Write>(
    alloc: Global,
    answered: &Answered<'_>,
    out: &mut W,
    err: &mut E,
) -> Result<bool, Stop>
    ensures told { OnOk result (AreAllTold answered.now.came.items (W.contents out.old) (W.contents out.new)) }
    ensures fine { IfOk result (λ fine. fine ≡ list_all is_ok answered.now.came.items) }
{
    let causes = causes_of_all(alloc, answered)?;
    tell_all(
        alloc,
        answered.names(false),
        answered.asked.as_slice(),
        answered.came.as_slice(),
        causes.as_slice(),
        out,
    )?;
    let mut causes = causes.iter();
    if causes.any(|cause| matches!(cause, Some(Cause::Depth { .. }))) {
        let _ = err.write_all(HELP);
    }
    Ok(answered.came.iter().all(|came| came.is_ok()))
}

// Why each question that came to maybe did, as far as that is seen.
fn causes_of_all(alloc: Global, answered: &Answered<'_>) -> Result<Vec<Option<Cause>>, Stop> {
    let mut unsure = Vec::new(alloc);
    for (goal, came) in answered.asked.iter().zip(answered.came.iter()) {
        if is_maybe(*came) {
            unsure.push(*goal)?;
        }
    }
    causes_of(
        alloc,
        &answered.goals,
        unsure.as_slice(),
        answered.depth,
        answered.is_all_known,
    )
}
