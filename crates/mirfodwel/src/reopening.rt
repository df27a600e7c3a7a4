//! Sessions are opened again, over other rows.
ghost use Rattle.std.specs.Prelude.{◌≡◌, ◌≢◌, ◌⊎◌, IsSome, IsSomeAnd, None};
ghost use Rattle.mirfodwel.specs.Opening.{IsNew, fault_of};
ghost use Rattle.rule_arrays.specs.Faults.{IsFirstFault, IsTable};
ghost use Rattle.rule_arrays.specs.Table.{table_with};

use crate::handle::Handle;
use crate::opening::{BadRow, lent_in_order, told};
use crate::status::{BAD_INPUT, DONE, WRONG_STATE};
use rule_arrays::{CandidateRow, GoalRow, QuestionRow};
use std::alloc::Global;

/// Opens the session again over these rows, which stay as they are until it is closed or opened again; the rows so far are
/// let go. Nothing is known of their goals yet. It is as if the session were closed and opened, but its memory is kept for
/// what comes, as far as that is no more than was needed of late, and none is taken.
///
/// `WRONG_STATE` where it is not open. `BAD_INPUT` where a row is not in order: `bad_row` is the first, and the session goes
/// on over its rows so far, with all that it knew.
#[unsafe(no_mangle)]
pub extern "C" fn mirfodwel_reopen(
    alloc: Global,
    handle: &mut Handle,
    goals: &'static [GoalRow],
    candidates: &'static [CandidateRow],
    questions: &'static [QuestionRow],
    bad_row: &mut BadRow,
) -> u8
    ensures status { (result ≡ 0) ⊎ (result ≡ 2) ⊎ (result ≡ 6) }
    ensures opened { result ≡ 0 → IsSomeAnd handle.new.address.inside
        (IsNew (table_with goals.now candidates.now questions.now)) }
    ensures in_order { result ≡ 0 → IsTable (table_with goals.now candidates.now questions.now) }
    ensures bad { result ≡ 2 →
        IsFirstFault (table_with goals.now candidates.now questions.now) (fault_of bad_row.new) }
    ensures was_open { result ≢ 6 → IsSome handle.old.address.inside }
    ensures was_closed { result ≡ 6 → handle.old.address.inside ≡ None }
    ensures kept { result ≢ 0 → handle.new.address.inside ≡ handle.old.address.inside }
    ensures kept_row { result ≢ 2 → bad_row.new ≡ bad_row.old }
{
    let Some(mut inside) = handle.take(alloc) else {
        return WRONG_STATE;
    };
    let status = match lent_in_order(goals, candidates, questions) {
        Ok(lent) => {
            inside.session.renew(lent);
            DONE
        }
        Err(fault) => {
            *bad_row = told(fault);
            BAD_INPUT
        }
    };
    *handle = Handle::of(inside);
    status
}
