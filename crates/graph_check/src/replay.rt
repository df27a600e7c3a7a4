//! One node of a graph: its replies are replayed on a frame of its goal.
ghost use Rattle.std.specs.Prelude.{◌≡◌, ◌≢◌, ◌≤◌, ◌+◌, ◌↔◌, IsTrue, IfOk};
ghost use Rattle.graph_check.specs.Below.{IsRunOfSort, verdicts};
ghost use Rattle.graph_check.specs.Words.{has_sort, is_answer};

mod run_record;

use run_record::{RunRecord, has_edges, is_done};
use search_context::context::{Cx, Delegate, NoMemory, Node, Reply, Verdict};
use std::alloc::Global;

/// Whether the node is a run of its goal, with a result of this sort and the edges that this rests
/// on. The time is linear in the replies and edges, beside that of the frame.
///
/// `NoMemory` where a growth was refused or the frame answered it.
pub(crate) fn is_run<D: Delegate>(
    alloc: Global,
    cx: D::Cx,
    node: &Node<<D::Cx as Cx>::Input, <D::Cx as Cx>::Result>,
    sort: Verdict,
    inspect: &mut D::ProofTreeBuilder,
) -> Result<bool, NoMemory>
    requires { sort ≢ Verdict.Neither }
    ensures exact { IfOk result (λ is_run. IsTrue is_run ↔
        IsRunOfSort (has_sort (verdicts D.Cx.Cx) sort) (D.script cx node.now.input) node.now) }
    ensures frames { D.starts inspect.new ≤ D.starts inspect.old + 1 }
    ensures same_noop { D.noop inspect.new ≡ D.noop inspect.old }
{
    if !is_of_sort(cx, node.result, sort) {
        return Ok(false);
    }
    let mut frame = D::start(cx, node.input, inspect)?;
    let mut run = RunRecord::new(alloc);
    for reply in &node.replies {
        if !run.fits(*reply) {
            return Ok(false);
        }
        run.receive(is_answer_of_sort(cx, *reply, sort))?;
        let request = D::step(&mut frame, *reply, inspect)?;
        if !run.is_in_order(request) {
            return Ok(false);
        }
        run.note_request(request);
    }
    Ok(is_done::<D::Cx>(&run, node.result) && has_edges::<D::Cx>(&run, &node.edges))
}

/// Whether the reply is an answer of this sort.
fn is_answer_of_sort<X: Cx>(cx: X, reply: Reply<X::Result>, sort: Verdict) -> bool
    requires { sort ≢ Verdict.Neither }
    ensures { result ≡ is_answer (has_sort (verdicts X.Cx) sort) reply }
{
    match reply {
        Reply::Answer(outcome) => is_of_sort(cx, outcome, sort),
        Reply::Begin | Reply::Noted => false,
    }
}

/// Whether the result is of this sort.
fn is_of_sort<X: Cx>(cx: X, outcome: X::Result, sort: Verdict) -> bool
    requires { sort ≢ Verdict.Neither }
    ensures { result ≡ has_sort (verdicts X.Cx) sort outcome }
{
    cx.sort(outcome) == sort
}
