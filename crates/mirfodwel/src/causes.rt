//! Why goals are neither yes nor no.
ghost use Rattle.std.specs.Prelude.{◌≡◌, Err, MatchOption, Ok};
ghost use Rattle.mirfodwel.specs.Causes.{TellsCause, cause_number, cause_of, cut_of, kind_of};
ghost use Rattle.rule_arrays.specs.Rows.{number_of as number_of_kind};
ghost use Rattle.sessions.specs.Causes.{IsToldAnew};

use crate::asking::{fault_number, number_of};
use crate::handle::Handle;
use crate::inside::Inside;
use crate::lent::Lent;
use crate::status::{DONE, FAULT, UNKNOWN, WRONG_STATE};
use candidate_lists::CandidatesContext;
use rule_arrays::RulesIn;
use search_parts::context::{Cx, Delegate};
use search_parts::path::PathKind;
use sessions::{Cause as Noted, Caused, Cut, Fault, Outcome, Reason, WatchedRows};
use std::alloc::Global;

/// What a goal came to, and why that is neither yes nor no.
#[repr(C)]
#[derive(Clone, Copy)]
pub struct Cause {
    /// How many runs of goals were started.
    pub started: u64,
    /// The goal that asked the question at which it was cut off first, where there is one.
    pub by: u32,
    /// The goal that was asked there.
    pub asked: u32,
    /// The step of that question: 0 inductive, 1 unknown, 2 coinductive, 3 forced ambiguity.
    pub step: u8,
    pub has_question: bool,
    /// 0 none, as it is yes or no; 1 that goal had no depth left; 2 it had none, or the asked one its most runs before; 3 the asked
    /// goal had its most runs, or without a question the goal itself; 4 a cycle of unknown kind; 5 one of forced ambiguity; 6 the
    /// candidates of `by` are not known; 7 the asked goal came to maybe before; 8 none was noted.
    pub kind: u8,
    /// 0 yes, 1 no, 2 maybe, 3 overflow.
    pub outcome: u8,
    /// 0 none, 1 memory, 2 conflict, 3 validation, 4 protocol. After a fault nothing else here tells something.
    pub fault: u8,
    /// Whether a goal was cut off, since it had no depth left or its most runs.
    pub limits_met: bool,
}

/// Why the goal of this number is neither yes nor no, if it is neither. It is asked at this depth over a cache of its own, so
/// that nothing is kept. It takes up to a third more instructions than `mirfodwel_ask` in a new session.
///
/// `FAULT` where that met a fault. `WRONG_STATE` where the session is not open, and `UNKNOWN` where there is no such
/// goal: `cause` is not changed.
#[unsafe(no_mangle)]
pub extern "C" fn mirfodwel_cause(
    alloc: Global,
    handle: &mut Handle,
    depth: usize,
    goal: u32,
    cause: &mut Cause,
) -> u8
    ensures told { MatchOption handle.old.address.inside ((result ≡ 6) × (cause.new ≡ cause.old))
        (λ inside. TellsCause (IsToldAnew
        ⟦<WatchedRows<Lent> as Delegate>⟧ ⟦<CandidatesContext<RulesIn<Lent>> as Cx>⟧
        ⟦<u32 as PartialEq>⟧.eq ⟦<Outcome as PartialEq>⟧.eq inside.session.cache.cx depth goal)
        inside goal cause.old cause.new result) }
    ensures same { handle.new.address.inside ≡ handle.old.address.inside }
{
    let Some(inside) = handle.take(alloc) else {
        return WRONG_STATE;
    };
    let status = tell_cause(&inside, depth, goal, cause);
    *handle = Handle::of(inside);
    status
}

fn tell_cause(inside: &Inside, depth: usize, goal: u32, cause: &mut Cause) -> u8
    ensures { TellsCause (IsToldAnew
        ⟦<WatchedRows<Lent> as Delegate>⟧ ⟦<CandidatesContext<RulesIn<Lent>> as Cx>⟧
        ⟦<u32 as PartialEq>⟧.eq ⟦<Outcome as PartialEq>⟧.eq inside.now.session.cache.cx depth goal)
        inside.now goal cause.old cause.new result }
{
    if !inside.has_goal(goal) {
        return UNKNOWN;
    }
    match inside.session.cause(depth, goal) {
        Ok(caused) => {
            *cause = told(caused);
            DONE
        }
        Err(fault) => {
            *cause = failed(fault);
            FAULT
        }
    }
}

fn told(caused: Caused) -> Cause
    ensures { result ≡ cause_of (Ok caused) }
{
    let cut = cut_of(caused.reason);
    Cause {
        started: caused.started,
        by: cut.map_or(0, |cut| cut.by),
        asked: cut.map_or(0, |cut| cut.asked),
        step: cut.map_or(0, |cut| number_of_kind(cut.kind)),
        has_question: cut.is_some(),
        kind: kind_of(caused.reason, caused.is_unknown),
        outcome: number_of(caused.outcome),
        fault: 0,
        limits_met: caused.limits_met,
    }
}

// The question that was cut off, if one is named.
fn cut_of(reason: Option<Reason<u32>>) -> Option<Cut<u32>>
    ensures { result ≡ cut_of reason }
{
    match reason {
        Some(Reason::Cut(cut)) => Some(cut),
        _ => None,
    }
}

// The number of what is told.
fn kind_of(reason: Option<Reason<u32>>, is_unknown: bool) -> u8
    ensures { result ≡ kind_of is_unknown reason }
{
    match reason {
        None => 0,
        Some(Reason::Cut(_)) if is_unknown => 6,
        Some(Reason::Cut(cut)) => cause_number(cut.cause),
        Some(Reason::Runs) => 3,
        Some(Reason::Known) => 7,
        Some(Reason::Unnoted) => 8,
    }
}

fn cause_number(cause: Noted) -> u8
    ensures { result ≡ cause_number cause }
{
    match cause {
        Noted::Depth { or_runs: false } => 1,
        Noted::Depth { or_runs: true } => 2,
        Noted::Runs => 3,
        Noted::Cycle(PathKind::Unknown) => 4,
        Noted::Cycle(PathKind::ForcedAmbiguity) => 5,
        Noted::Cycle(PathKind::Inductive | PathKind::Coinductive) => 7,
        Noted::Known => 7,
    }
}

fn number_of_kind(kind: PathKind) -> u8
    ensures { result ≡ number_of_kind kind }
{
    match kind {
        PathKind::Inductive => 0,
        PathKind::Unknown => 1,
        PathKind::Coinductive => 2,
        PathKind::ForcedAmbiguity => 3,
    }
}

fn failed(fault: Fault<u32, Outcome>) -> Cause
    ensures { result ≡ cause_of (Err fault) }
{
    Cause {
        started: 0,
        by: 0,
        asked: 0,
        step: 0,
        has_question: false,
        kind: 0,
        outcome: number_of(Outcome::Maybe),
        fault: fault_number(fault),
        limits_met: false,
    }
}
