//! Sessions are opened and closed.
ghost use Rattle.std.specs.Prelude.{◌≡◌, ◌≢◌, ◌⊎◌, IfErr, IfOk, IsSome, IsSomeAnd, None, OnOk};
ghost use Rattle.mirfodwel.specs.Opening.{IsNew, fault_of};
ghost use Rattle.mirfodwel.specs.Rows.{rows_of};
ghost use Rattle.rule_arrays.specs.Faults.{IsFirstFault, IsTable};
ghost use Rattle.rule_arrays.specs.Table.{table_with};

use crate::handle::Handle;
use crate::inside::Inside;
use crate::lent::Lent;
use crate::status::{BAD_INPUT, DONE, NO_MEMORY, WRONG_STATE};
use rule_arrays::{Arrays, CandidateRow, GoalRow, QuestionRow, RowFault, first_fault};
use sessions::Session;
use std::alloc::{AllocError, Global};

/// A row that is not in order: 0 for the list of goals, 1 for that of candidates, 2 for that of questions, and its
/// place there.
#[repr(C)]
#[derive(Clone, Copy)]
pub struct BadRow {
    pub list: u8,
    pub place: usize,
}

/// Opens a session over these rows, which stay as they are until it is closed. Nothing is known of their goals yet.
///
/// `WRONG_STATE` where the handle is open. `BAD_INPUT` where a row is not in order: `bad_row` is the first.
/// `NO_MEMORY`. None of these changes the handle.
#[unsafe(no_mangle)]
pub extern "C" fn mirfodwel_open(
    alloc: Global,
    handle: &mut Handle,
    goals: &'static [GoalRow],
    candidates: &'static [CandidateRow],
    questions: &'static [QuestionRow],
    bad_row: &mut BadRow,
) -> u8
    ensures status { (result ≡ 0) ⊎ (result ≡ 2) ⊎ (result ≡ 4) ⊎ (result ≡ 6) }
    ensures opened { result ≡ 0 → IsSomeAnd handle.new.address.inside
        (IsNew (table_with goals.now candidates.now questions.now)) }
    ensures in_order { (result ≡ 0) ⊎ (result ≡ 4) →
        IsTable (table_with goals.now candidates.now questions.now) }
    ensures bad { result ≡ 2 →
        IsFirstFault (table_with goals.now candidates.now questions.now) (fault_of bad_row.new) }
    ensures was_closed { result ≢ 6 → handle.old.address.inside ≡ None }
    ensures was_open { result ≡ 6 → IsSome handle.old.address.inside }
    ensures kept { result ≢ 0 → handle.new.address.inside ≡ handle.old.address.inside }
    ensures kept_row { result ≢ 2 → bad_row.new ≡ bad_row.old }
{
    if handle.is_open {
        return WRONG_STATE;
    }
    let lent = match lent_in_order(goals, candidates, questions) {
        Ok(lent) => lent,
        Err(fault) => {
            *bad_row = told(fault);
            return BAD_INPUT;
        }
    };
    match new_session(alloc, lent) {
        Ok(inside) => {
            *handle = Handle::of(inside);
            DONE
        }
        Err(_) => NO_MEMORY,
    }
}

/// These rows, or the first of them that is not in order.
pub(crate) fn lent_in_order(
    goals: &'static [GoalRow],
    candidates: &'static [CandidateRow],
    questions: &'static [QuestionRow],
) -> Result<Lent, RowFault>
    ensures rows { IfOk result (λ lent.
        rows_of lent ≡ table_with goals.now candidates.now questions.now) }
    ensures in_order { OnOk result (IsTable (table_with goals.now candidates.now questions.now)) }
    ensures bad { IfErr result (λ fault.
        IsFirstFault (table_with goals.now candidates.now questions.now) fault) }
{
    let rows = Arrays {
        goals,
        candidates,
        questions,
    };
    if let Some(fault) = first_fault(rows) {
        return Err(fault);
    }
    Ok(Lent {
        goals,
        candidates,
        questions,
    })
}

pub(crate) fn told(fault: RowFault) -> BadRow
    ensures { fault_of result ≡ fault }
{
    match fault {
        RowFault::Goal(place) => BadRow { list: 0, place },
        RowFault::Candidate(place) => BadRow { list: 1, place },
        RowFault::Question(place) => BadRow { list: 2, place },
    }
}

fn new_session(alloc: Global, lent: Lent) -> Result<Box<Inside>, AllocError>
    ensures { IfOk result (λ inside. IsNew (rows_of lent) inside.value) }
{
    let session = Session::new(alloc, lent);
    let inside = Box::new(alloc, Inside { session })?;
    Ok(inside)
}

/// Closes the session and gives back all its memory. Then the handle is as before it was opened.
///
/// `WRONG_STATE` where it is not open.
#[unsafe(no_mangle)]
pub extern "C" fn mirfodwel_close(alloc: Global, handle: &mut Handle) -> u8
    ensures status { (result ≡ 0) ⊎ (result ≡ 6) }
    ensures closed { handle.new.address.inside ≡ None }
    ensures was_open { result ≡ 0 → IsSome handle.old.address.inside }
    ensures was_closed { result ≡ 6 → handle.old.address.inside ≡ None }
{
    match handle.take(alloc) {
        Some(_inside) => DONE,
        None => WRONG_STATE,
    }
}
