//! Graphs as words.
ghost use Rattle.std.specs.Prelude.{◌≡◌, ◌<◌, ◌↔◌, IsTrue, MatchOption};
ghost use Rattle.mirfodwel.specs.Given.{AreGraphOf, Gives, IsRefused, Judges, verdict_of};
ghost use Rattle.mirfodwel.specs.Rows.{nodes_in};
ghost use Rattle.sessions.specs.Below.{IsWhole};

use crate::buffers::hand_out;
use crate::handle::Handle;
use crate::inside::Inside;
use crate::status::{DONE, NO_MEMORY, UNKNOWN, WRONG_STATE};
use sessions::{NodeId, Verdict};
use std::alloc::Global;

/// The graph of an answer's node, in words, node by node, the root first: its goal; its outcome, 0 yes, 1 no, 2 maybe,
/// 3 overflow; how many replies its run had, and each, 0 to 3 an answer with this outcome, 4 noted, 5 begin; how many
/// edges it has, and of each the kind, 0 inductive, 1 unknown, 2 coinductive, 3 forced ambiguity, and the place of the
/// node that it leads to.
///
/// `UNKNOWN` where there is no such node, or one is reached that is not finished. `NO_ROOM`: nothing was written to
/// `out`, and `used` says how many words are wanted. `NO_MEMORY`. `WRONG_STATE` where the session is not open.
#[unsafe(no_mangle)]
pub extern "C" fn mirfodwel_graph(
    alloc: Global,
    handle: &mut Handle,
    node: usize,
    out: &mut [u64],
    used: &mut usize,
) -> u8
    ensures given { MatchOption handle.old.address.inside (IsRefused 6 out.old out.new used.old used.new result)
        (λ inside. Gives (IsWhole (nodes_in inside) node) (AreGraphOf inside (record { 0 = node }))
        out.old out.new used.old used.new result) }
    ensures same { handle.new.address.inside ≡ handle.old.address.inside }
{
    let Some(inside) = handle.take(alloc) else {
        return WRONG_STATE;
    };
    let status = give_graph(&inside, NodeId(node), out, used);
    *handle = Handle::of(inside);
    status
}

fn give_graph(inside: &Inside, node: NodeId, out: &mut [u64], used: &mut usize) -> u8
    ensures { Gives (IsWhole (nodes_in inside.now) node.0) (AreGraphOf inside.now node)
        out.old out.new used.old used.new result }
{
    match inside.session.graph_words(node) {
        Ok(Some(words)) => hand_out(DONE, words.as_slice(), out, used),
        Ok(None) => UNKNOWN,
        Err(_) => NO_MEMORY,
    }
}

/// Whether the words are those of a graph that shows that the goal holds, for verdict 0, or that it does not, for
/// verdict 1. They may come from anywhere.
///
/// `UNKNOWN` where there is no such goal or verdict. `NO_MEMORY`. `WRONG_STATE` where the session is not open.
#[unsafe(no_mangle)]
pub extern "C" fn mirfodwel_check_graph(
    alloc: Global,
    handle: &mut Handle,
    goal: u32,
    verdict: u8,
    words: &[u64],
    is_valid: &mut bool,
) -> u8
    ensures judged { MatchOption handle.old.address.inside ((result ≡ 6) × (is_valid.new ≡ is_valid.old))
        (λ inside. Judges inside goal verdict words.now is_valid.old is_valid.new result) }
    ensures same { handle.new.address.inside ≡ handle.old.address.inside }
{
    let Some(inside) = handle.take(alloc) else {
        return WRONG_STATE;
    };
    let status = judge(&inside, goal, verdict, words, is_valid);
    *handle = Handle::of(inside);
    status
}

fn judge(inside: &Inside, goal: u32, verdict: u8, words: &[u64], is_valid: &mut bool) -> u8
    ensures { Judges inside.now goal verdict words.now is_valid.old is_valid.new result }
{
    let Some(verdict) = verdict_of(verdict) else {
        return UNKNOWN;
    };
    if !inside.has_goal(goal) {
        return UNKNOWN;
    }
    match inside.session.check(goal, verdict, words) {
        Ok(came) => {
            *is_valid = came;
            DONE
        }
        Err(_) => NO_MEMORY,
    }
}

fn verdict_of(number: u8) -> Option<Verdict>
    ensures { result ≡ verdict_of number }
{
    match number {
        0 => Some(Verdict::Yes),
        1 => Some(Verdict::No),
        _ => None,
    }
}
