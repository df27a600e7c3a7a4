//! Goals are asked.
ghost use Rattle.std.specs.Prelude.{◌≡◌, ◌≢◌, ◌^◌, MatchOption, None, Some, count_by, filter, length, min};
ghost use Rattle.std.specs.List.{range_with_len};
ghost use Rattle.mirfodwel.specs.Asked.{answer_of, fault_number, number_of, words_of};
ghost use Rattle.mirfodwel.specs.Given.{Asks, Gives, IsRefused, IsRightlyAsked};
ghost use Rattle.mirfodwel.specs.Handed.{IsHandedOut, IsThis};
ghost use Rattle.mirfodwel.specs.Rows.{goals_in, nodes_in, rows_in};
ghost use Rattle.sessions.specs.Below.{is_held};
ghost use Rattle.sessions.specs.Known.{is_wanted};
ghost use Rattle.sessions.specs.Questions.{IsAsked};

use crate::buffers::hand_out;
use crate::handle::Handle;
use crate::inside::Inside;
use crate::lent::Lent;
use crate::status::{DONE, FAULT, NO_MEMORY, UNKNOWN, WRONG_STATE};
use candidate_lists::CandidatesContext;
use rule_arrays::{ArraysDelegate, RulesIn};
use search_parts::context::{Cx, Delegate};
use sessions::{Asked, Fault, Outcome};
use std::alloc::Global;

/// What a question came to.
#[repr(C)]
#[derive(Clone, Copy)]
pub struct Answer {
    /// How many runs of goals were started.
    pub started: u64,
    /// The node of the graph, where there is one.
    pub node: usize,
    /// 0 yes, 1 no, 2 maybe, 3 overflow.
    pub outcome: u8,
    /// 0 none, 1 memory, 2 conflict, 3 validation, 4 protocol. After a fault nothing else here tells something.
    pub fault: u8,
    pub has_graph: bool,
    /// Whether a goal was cut off now, since it had no depth left or its most runs.
    pub limits_met: bool,
}

/// Asks the goal of this number. The depth is how many goals may stand below it on the way to an answer. What is found
/// out is kept for later questions, after a fault, too.
///
/// `FAULT` where the question met a fault. `WRONG_STATE` where the session is not open, and `UNKNOWN` where there is no
/// such goal: nothing is changed.
#[unsafe(no_mangle)]
pub extern "C" fn mirfodwel_ask(
    alloc: Global,
    handle: &mut Handle,
    depth: usize,
    goal: u32,
    answer: &mut Answer,
) -> u8
    ensures { MatchOption handle.old.address.inside
        ((result ≡ 6) × (answer.new ≡ answer.old) × (handle.new.address.inside ≡ None))
        (λ before. (after : _) × (handle.new.address.inside ≡ Some after)
        × Asks (λ before came after. IsRightlyAsked before goal came after
        × IsAsked ⟦<ArraysDelegate<Lent> as Delegate>⟧ ⟦<CandidatesContext<RulesIn<Lent>> as Cx>⟧
        ⟦<u32 as PartialEq>⟧.eq ⟦<Outcome as PartialEq>⟧.eq
        before.session.cache depth goal came after.session.cache)
        goal before after answer.old answer.new result) }
{
    let Some(mut inside) = handle.take(alloc) else {
        return WRONG_STATE;
    };
    let status = ask(&mut inside, depth, goal, answer);
    *handle = Handle::of(inside);
    status
}

fn ask(inside: &mut Inside, depth: usize, goal: u32, answer: &mut Answer) -> u8
    ensures { Asks (λ before came after. IsRightlyAsked before goal came after
        × IsAsked ⟦<ArraysDelegate<Lent> as Delegate>⟧ ⟦<CandidatesContext<RulesIn<Lent>> as Cx>⟧
        ⟦<u32 as PartialEq>⟧.eq ⟦<Outcome as PartialEq>⟧.eq
        before.session.cache depth goal came after.session.cache)
        goal inside.old inside.new answer.old answer.new result }
{
    if !inside.has_goal(goal) {
        return UNKNOWN;
    }
    match inside.session.ask(depth, goal) {
        Ok(asked) => {
            *answer = answered(asked);
            DONE
        }
        Err(fault) => {
            *answer = failed(fault);
            FAULT
        }
    }
}

fn answered(asked: Asked) -> Answer
    ensures { result ≡ answer_of (Ok asked) }
{
    Answer {
        started: asked.started,
        node: asked.node.map_or(0, |node| node.0),
        outcome: number_of(asked.outcome),
        fault: 0,
        has_graph: asked.node.is_some(),
        limits_met: asked.limits_met,
    }
}

pub(crate) fn number_of(outcome: Outcome) -> u8
    ensures { result ≡ number_of outcome }
{
    match outcome {
        Outcome::Yes => 0,
        Outcome::No => 1,
        Outcome::Maybe => 2,
        Outcome::Overflow => 3,
    }
}

fn failed(fault: Fault<u32, Outcome>) -> Answer
    ensures { result ≡ answer_of (Err fault) }
{
    Answer {
        started: 0,
        node: 0,
        outcome: number_of(Outcome::Maybe),
        fault: fault_number(fault),
        has_graph: false,
        limits_met: false,
    }
}

pub(crate) fn fault_number(fault: Fault<u32, Outcome>) -> u8
    ensures { result ≡ fault_number fault }
{
    match fault {
        Fault::Memory => 1,
        Fault::Conflict { .. } => 2,
        Fault::Validation { .. } => 3,
        Fault::Protocol(_) => 4,
    }
}

/// The goals whose candidates are not known and which questions so far came to, in rising order.
///
/// `NO_ROOM`: nothing was written to `out`, and `used` says how many there are. `NO_MEMORY`. `WRONG_STATE` where the
/// session is not open.
#[unsafe(no_mangle)]
pub extern "C" fn mirfodwel_wanted(
    alloc: Global,
    handle: &mut Handle,
    out: &mut [u32],
    used: &mut usize,
) -> u8
    ensures given { MatchOption handle.old.address.inside (IsRefused 6 out.old out.new used.old used.new result)
        (λ inside. Gives (Unit {0}) (λ goals. goals ≡ filter
        (is_wanted (rows_in inside) ⟦<u32 as PartialEq>⟧.eq inside.session.cache.results)
        (range_with_len 0 (min (goals_in inside) (2 ^ 32)))) out.old out.new used.old used.new result) }
    ensures same { handle.new.address.inside ≡ handle.old.address.inside }
{
    let Some(inside) = handle.take(alloc) else {
        return WRONG_STATE;
    };
    let status = give_wanted(&inside, out, used);
    *handle = Handle::of(inside);
    status
}

fn give_wanted(inside: &Inside, out: &mut [u32], used: &mut usize) -> u8
    ensures { Gives (Unit {0}) (λ goals. goals ≡ filter
        (is_wanted (rows_in inside.now) ⟦<u32 as PartialEq>⟧.eq inside.now.session.cache.results)
        (range_with_len 0 (min (goals_in inside.now) (2 ^ 32)))) out.old out.new used.old used.new result }
{
    match inside.session.wanted() {
        Ok(goals) => hand_out(DONE, goals.as_slice(), out, used),
        Err(_) => NO_MEMORY,
    }
}

/// How many nodes of graphs are held.
///
/// `WRONG_STATE` where the session is not open.
#[unsafe(no_mangle)]
pub extern "C" fn mirfodwel_held(alloc: Global, handle: &mut Handle, nodes: &mut usize) -> u8
    ensures held { MatchOption handle.old.address.inside ((result ≡ 6) × (nodes.new ≡ nodes.old))
        (λ inside. (result ≡ 0) × (nodes.new ≡ count_by is_held (nodes_in inside))) }
    ensures same { handle.new.address.inside ≡ handle.old.address.inside }
{
    let Some(inside) = handle.take(alloc) else {
        return WRONG_STATE;
    };
    *nodes = inside.session.held_nodes();
    *handle = Handle::of(inside);
    DONE
}

/// The fault that was met last, in words, and nothing where there was none.
///
/// `NO_ROOM`: nothing was written to `out`, and `used` says how many bytes are wanted. `WRONG_STATE` where the session
/// is not open.
#[unsafe(no_mangle)]
pub extern "C" fn mirfodwel_last_fault(
    alloc: Global,
    handle: &mut Handle,
    out: &mut [u8],
    used: &mut usize,
) -> u8
    ensures told { MatchOption handle.old.address.inside (IsRefused 6 out.old out.new used.old used.new result)
        (λ inside. IsHandedOut (IsThis 0 (words_of inside.session.last_fault)) out.old out.new used.new result) }
    ensures same { handle.new.address.inside ≡ handle.old.address.inside }
{
    let Some(inside) = handle.take(alloc) else {
        return WRONG_STATE;
    };
    let words = words_of(inside.session.last_fault());
    let status = hand_out(DONE, words.as_bytes(), out, used);
    *handle = Handle::of(inside);
    status
}

fn words_of(fault: Option<Fault<u32, Outcome>>) -> &'static str
    ensures { result.now ≡ words_of fault }
{
    match fault {
        None => "",
        Some(Fault::Memory) => "out of memory",
        Some(Fault::Conflict { .. }) => "another result is stored",
        Some(Fault::Validation { .. }) => "validation gave another result",
        Some(Fault::Protocol(_)) => "request out of order",
    }
}
