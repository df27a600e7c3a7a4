//! Sessions go over to rows that changed.
ghost use Rattle.std.specs.Prelude.{◌≡◌, ◌≢◌, ◌⊎◌, IsSome, IsSomeAnd, None};
ghost use Rattle.mirfodwel.specs.Opening.{fault_of};
ghost use Rattle.mirfodwel.specs.Rows.{rows_of};
ghost use Rattle.rule_arrays.specs.Faults.{IsFirstFault, IsTable};
ghost use Rattle.rule_arrays.specs.Table.{table_with};
ghost use Rattle.sessions.specs.Changed.{HasChanged};

use crate::handle::Handle;
use crate::opening::{BadRow, lent_in_order, told};
use crate::status::{BAD_INPUT, DONE, NO_MEMORY, WRONG_STATE};
use rule_arrays::{CandidateRow, GoalRow, QuestionRow};
use std::alloc::Global;

/// Takes the session over to these rows, which stay as they are until it is closed or given others; the rows so far, which have
/// to be there as they were, are let go at the end. What is known of goals that this does not concern is kept: those whose
/// candidates are what they were, as are those of all goals that they can reach. All else is forgotten.
///
/// `WRONG_STATE` where it is not open. `BAD_INPUT` where a row is not in order: `bad_row` is the first. `NO_MEMORY`. After these
/// the session goes on over its rows so far, with all that it knew.
#[unsafe(no_mangle)]
pub extern "C" fn mirfodwel_change(
    alloc: Global,
    handle: &mut Handle,
    goals: &'static [GoalRow],
    candidates: &'static [CandidateRow],
    questions: &'static [QuestionRow],
    bad_row: &mut BadRow,
) -> u8
    ensures status { (result ≡ 0) ⊎ (result ≡ 2) ⊎ (result ≡ 4) ⊎ (result ≡ 6) }
    ensures changed { result ≡ 0 → IsSomeAnd handle.old.address.inside (λ before.
        IsSomeAnd handle.new.address.inside (λ after. HasChanged rows_of ⟦<u32 as PartialEq>⟧.eq
        (table_with goals.now candidates.now questions.now) before.session after.session)) }
    ensures in_order { (result ≡ 0) ⊎ (result ≡ 4) →
        IsTable (table_with goals.now candidates.now questions.now) }
    ensures bad { result ≡ 2 →
        IsFirstFault (table_with goals.now candidates.now questions.now) (fault_of bad_row.new) }
    ensures was_open { result ≢ 6 → IsSome handle.old.address.inside }
    ensures was_closed { result ≡ 6 → handle.old.address.inside ≡ None }
    ensures kept { result ≢ 0 → handle.new.address.inside ≡ handle.old.address.inside }
    ensures kept_row { result ≢ 2 → bad_row.new ≡ bad_row.old }
{
    let Some(mut inside) = handle.take(alloc) else {
        return WRONG_STATE;
    };
    let status = match lent_in_order(goals, candidates, questions) {
        Ok(lent) => match inside.session.change(lent) {
            Ok(()) => DONE,
            Err(_) => NO_MEMORY,
        },
        Err(fault) => {
            *bad_row = told(fault);
            BAD_INPUT
        }
    };
    *handle = Handle::of(inside);
    status
}
