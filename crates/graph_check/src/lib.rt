//! A checker of graphs that are handed out as data: whether a graph, wherever it comes from, shows that its goal
//! holds, or that it does not hold. It stands on the context and the delegate alone, and knows nothing of how goals
//! are searched.
//!
//! What it decides is one definition, `IsValid` in `specs/Valid.antt` of `search_context`.
//!
//! | File of `specs/` | Has |
//! |---|---|
//! | `Parts` | graphs of which some nodes are known to be shown |
//! | `Replay` | how far a run has come that is replayed |
//! | `Runs` | the runs of the nodes |
//! | `Walks` | closed walks over some kinds of edges |
#![tactic(auto)]

ghost use Rattle.std.specs.Prelude.{◌≡◌, ◌≢◌, ◌≤◌, ◌+◌, ◌↔◌, true, IsTrue, IfOk, Ok, length};
ghost use Rattle.graph_check.specs.Below.{IsProofGraph, IsRefutationGraph, IsValidFor, goal_nodes_of, Verdict, verdicts};
ghost use Rattle.graph_check.specs.Words.{has_sort, AreRunsOfSort};

mod cycles;
mod parts;
mod replay;
mod targets;

use cycles::cycles_have_kind;
pub use parts::check_part;
use path_kinds::path::PathKind;
use replay::is_run;
use search_context::context::{Cx, Delegate, NoMemory, Node, ProofGraph, Verdict};
use std::alloc::Global;
use targets::{are_closed, is_rooted};

/// Whether the graph shows of the goal what the verdict says: that it holds for `Verdict::Yes`, that it does not for
/// `Verdict::No`. Nothing is taken on trust. Each node's replies are replayed on a frame of its goal, and have to lead
/// to its result; its edges have to be the questions that this result rests on; each has to lead to a node of the goal
/// that it asks; and cycles have to be coinductive, or inductive for a no. For `Verdict::Neither` no graph is accepted.
///
/// The time is linear in the nodes, replies and edges, beside that of the frames. The builder is handed to the frames.
///
/// `NoMemory` where a growth was refused or a frame answered it.
pub fn check_graph<D: Delegate>(
    alloc: Global,
    cx: D::Cx,
    graph: &ProofGraph<D::Cx>,
    input: <D::Cx as Cx>::Input,
    sort: Verdict,
    inspect: &mut D::ProofTreeBuilder,
) -> Result<bool, NoMemory>
    ensures exact { IfOk result (λ accepted. IsTrue accepted ↔
        IsValidFor (verdicts D.Cx.Cx) sort (D.script cx) graph.now.nodes.items input) }

    // So what is accepted shows what it should, whatever it came from.
    ensures proof { result ≡ Ok true → sort ≡ Verdict.Yes →
        IsProofGraph (D.Cx.proves cx) (goal_nodes_of graph.now.nodes.items) 0 input }
    ensures refutation { result ≡ Ok true → sort ≡ Verdict.No →
        IsRefutationGraph (D.Cx.refutes cx) (goal_nodes_of graph.now.nodes.items) 0 input }

    ensures frames { D.starts inspect.new ≤ D.starts inspect.old + length graph.now.nodes.items }
    ensures same_noop { D.noop inspect.new ≡ D.noop inspect.old }
{
    let kind = match sort {
        Verdict::Yes => PathKind::Coinductive,
        Verdict::No => PathKind::Inductive,
        Verdict::Neither => return Ok(false),
    };
    let nodes = graph.nodes.as_slice();
    if !is_rooted::<D::Cx>(nodes, input)
        || !are_closed::<D::Cx>(nodes)
        || !cycles_have_kind(alloc, nodes, kind)?
    {
        return Ok(false);
    }
    are_runs::<D>(alloc, cx, nodes, sort, inspect)
}

// Whether each node is a run of its goal, with a result of this sort and the edges that this rests on.
fn are_runs<D: Delegate>(
    alloc: Global,
    cx: D::Cx,
    nodes: &[Node<<D::Cx as Cx>::Input, <D::Cx as Cx>::Result>],
    sort: Verdict,
    inspect: &mut D::ProofTreeBuilder,
) -> Result<bool, NoMemory>
    requires { sort ≢ Verdict.Neither }
    ensures exact { IfOk result (λ all. IsTrue all ↔
        AreRunsOfSort (has_sort (verdicts D.Cx.Cx) sort) (D.script cx) nodes.now) }
    ensures frames { D.starts inspect.new ≤ D.starts inspect.old + length nodes.now }
    ensures same_noop { D.noop inspect.new ≡ D.noop inspect.old }
{
    for node in nodes {
        if !is_run::<D>(alloc, cx, node, sort, inspect)? {
            return Ok(false);
        }
    }
    Ok(true)
}
