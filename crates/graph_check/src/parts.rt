//! A part of a graph: what it leads to is known to be shown, and is not checked again.
ghost use Rattle.std.specs.Prelude.{◌≡◌, ◌≢◌, ◌≤◌, ◌+◌, IsTrue, IfOk, false, true, length, Ok};
ghost use Rattle.graph_check.specs.Below.{Coinductive, goal_nodes_of, Inductive, IsRunOfSort, Verdict, verdicts};
ghost use Rattle.graph_check.specs.Parts.{AreKnown, AreRunsButKnown, AreShown, AreSorted};
ghost use Rattle.graph_check.specs.Words.{has_sort};

use crate::cycles::cycles_have_kind;
use crate::replay::is_run;
use crate::targets::are_closed;
use path_kinds::path::PathKind;
use search_context::context::{Cx, Delegate, NoMemory, Node, ProofGraph, Verdict};
use std::alloc::Global;

/// Whether the part of a graph shows of each of its goals what the verdict says, if that is shown of its known nodes by
/// graphs of their own. `known` tells of each node whether it is one of these. Their replies are not replayed; the other nodes
/// are tested as `check_graph` tests all. So a graph of which most was checked before takes the time of what is new in it.
///
/// `NoMemory` where a growth was refused or a frame answered it.
pub fn check_part<D: Delegate>(
    alloc: Global,
    cx: D::Cx,
    part: &ProofGraph<D::Cx>,
    known: &[bool],
    sort: Verdict,
    inspect: &mut D::ProofTreeBuilder,
) -> Result<bool, NoMemory>
    requires each { length known.now ≡ length part.now.nodes.items }
    ensures proof { result ≡ Ok true → sort ≡ Verdict.Yes →
        AreKnown (D.Cx.proves cx) Coinductive known.now (goal_nodes_of part.now.nodes.items) →
        AreShown (D.Cx.proves cx) Coinductive (goal_nodes_of part.now.nodes.items) }
    ensures refutation { result ≡ Ok true → sort ≡ Verdict.No →
        AreKnown (D.Cx.refutes cx) Inductive known.now (goal_nodes_of part.now.nodes.items) →
        AreShown (D.Cx.refutes cx) Inductive (goal_nodes_of part.now.nodes.items) }
    ensures sorted { result ≡ Ok true →
        AreSorted (has_sort (verdicts D.Cx.Cx) sort) known.now part.now.nodes.items }
    ensures definite { result ≡ Ok true → sort ≢ Verdict.Neither }
    ensures frames { D.starts inspect.new ≤ D.starts inspect.old + length part.now.nodes.items }
    ensures same_noop { D.noop inspect.new ≡ D.noop inspect.old }
{
    let kind = match sort {
        Verdict::Yes => PathKind::Coinductive,
        Verdict::No => PathKind::Inductive,
        Verdict::Neither => return Ok(false),
    };
    let nodes = part.nodes.as_slice();
    if !are_closed::<D::Cx>(nodes) || !cycles_have_kind(alloc, nodes, kind)? {
        return Ok(false);
    }
    are_runs_but_known::<D>(alloc, cx, nodes, known, sort, inspect)
}

// Whether each node that is not known is a run of its goal, with a result of this sort and the edges that this rests on.
fn are_runs_but_known<D: Delegate>(
    alloc: Global,
    cx: D::Cx,
    nodes: &[Node<<D::Cx as Cx>::Input, <D::Cx as Cx>::Result>],
    known: &[bool],
    sort: Verdict,
    inspect: &mut D::ProofTreeBuilder,
) -> Result<bool, NoMemory>
    requires sort { sort ≢ Verdict.Neither }
    requires each { length known.now ≡ length nodes.now }
    ensures runs { IfOk result (λ all. IsTrue all →
        AreRunsButKnown (has_sort (verdicts D.Cx.Cx) sort) (D.script cx) known.now nodes.now) }
    ensures frames { D.starts inspect.new ≤ D.starts inspect.old + length nodes.now }
    ensures same_noop { D.noop inspect.new ≡ D.noop inspect.old }
{
    for (place, node) in nodes.iter().enumerate() {
        if !is_run_unless::<D>(known[place], alloc, cx, node, sort, inspect)? {
            return Ok(false);
        }
    }
    Ok(true)
}

// Whether the node is a run of its goal, as `is_run` tells, unless it is known.
fn is_run_unless<D: Delegate>(
    is_known: bool,
    alloc: Global,
    cx: D::Cx,
    node: &Node<<D::Cx as Cx>::Input, <D::Cx as Cx>::Result>,
    sort: Verdict,
    inspect: &mut D::ProofTreeBuilder,
) -> Result<bool, NoMemory>
    requires { sort ≢ Verdict.Neither }
    ensures run { IfOk result (λ fine. IsTrue fine → is_known ≡ false →
        IsRunOfSort (has_sort (verdicts D.Cx.Cx) sort) (D.script cx node.now.input) node.now) }
    ensures frames { D.starts inspect.new ≤ D.starts inspect.old + 1 }
    ensures same_noop { D.noop inspect.new ≡ D.noop inspect.old }
{
    if is_known {
        return Ok(true);
    }
    is_run::<D>(alloc, cx, node, sort, inspect)
}
