//! The node of a run that has ended.
ghost use Rattle.std.specs.Prelude.{◌≡◌, ◌≢◌, ◌↔◌, IsTrue, IfOk, OnOk, Some};
ghost use Rattle.std.specs.Option.{option_map};
ghost use Rattle.graph_nodes.specs.Nodes.{ended_run};
ghost use Rattle.search_rules.specs.Below.{KeepsFinished, IsDefinite, edges_of, open_goal, verdict_of, verdicts, with_run, verdict_shape};
ghost use Rattle.search_rules.specs.Words.{EndsRun, HasResultNode, KeepsBut, LeadToGoals};

use global_cache::GlobalCache;
use lean_runs::lean::{LeanRuns, Replayed};
use run_records::progress::Progress;
use search_context::context::{Cx, Delegate, NoMemory, NodeId, Verdict};
use search_stack::stack::EntryState;

/// The node of a run's definite result. Where the result has the verdict of the provisional one, it is that one's
/// node, and the run's own stays open, as does that of a run that came to no definite result. So the node of
/// a goal is that of the first of its last runs that had the same verdict.
///
/// The node need not have the run as it was: in a long call it may have one that rests on fewer answers.
pub fn result_node<D: Delegate>(
    cache: &mut GlobalCache<D>,
    input: <D::Cx as Cx>::Input,
    state: &EntryState<D::Cx>,
    own_node: NodeId,
    progress: &Progress<<D::Cx as Cx>::Input, <D::Cx as Cx>::Result>,
    outcome: <D::Cx as Cx>::Result,
    lean: &mut LeanRuns<<D::Cx as Cx>::Input, <D::Cx as Cx>::Result>,
) -> Result<Option<NodeId>, NoMemory>
    requires of_goal { open_goal cache.old.nodes own_node.0 ≡ Some input }
    requires ends { IsDefinite (verdicts D.Cx.Cx) outcome →
        EndsRun (verdicts D.Cx.Cx)
        (D.script cache.old.cx) cache.old.nodes own_node progress.now outcome }
    requires placed { IsDefinite (verdicts D.Cx.Cx) outcome →
        LeadToGoals cache.old.nodes progress.now.answers }
    ensures has_node { IfOk result (λ answer.
        HasResultNode (verdicts D.Cx.Cx) cache.old.nodes cache.new.nodes
        state.now.provisional_result own_node state.now.node progress.now outcome answer) }
    ensures same_context { cache.new.cx ≡ cache.old.cx }
    ensures same_results { cache.new.results ≡ cache.old.results }
    ensures kept { KeepsFinished cache.old.nodes cache.new.nodes }
    ensures others { KeepsBut own_node.0 cache.old.nodes cache.new.nodes }
{
    let verdict = cache.cx().sort(outcome);
    if let Verdict::Neither = verdict {
        return Ok(None);
    }
    // The node of the last run will not do: its cycles were answered by the provisional result and lead to that
    // result's node, and with an edge from the last run's node to itself a walk could close over a step of another
    // kind than the cycle was answered for.
    if says_again(cache.cx(), state.provisional_result, verdict) {
        return Ok(state.node);
    }
    let is_in_cycle = state.usages.is_some() || !state.heads.is_empty();
    let run = Replayed {
        cache,
        input,
        own_node,
        told: progress,
        verdict,
        outcome,
    };
    let by = run.record_for_node(lean, is_in_cycle);
    finish_by(cache, own_node, by, verdict, outcome)?;
    Ok(Some(own_node))
}

/// Finishes the node by this record of a run of its goal, which came to the definite result. `NoMemory` leaves the cache
/// as it was.
fn finish_by<D: Delegate>(
    cache: &mut GlobalCache<D>,
    node: NodeId,
    told: &Progress<<D::Cx as Cx>::Input, <D::Cx as Cx>::Result>,
    verdict: Verdict,
    outcome: <D::Cx as Cx>::Result,
) -> Result<(), NoMemory>
    requires ends { EndsRun (verdicts D.Cx.Cx) (D.script cache.old.cx) cache.old.nodes node
        told.now outcome }
    requires placed { LeadToGoals cache.old.nodes told.now.answers }
    requires yes { (verdict ≡ Verdict.Yes) ↔ IsTrue (D.Cx.is_yes outcome) }
    requires no { (verdict ≡ Verdict.No) ↔ IsTrue (D.Cx.is_no outcome) }
    requires definite { verdict ≢ Verdict.Neither }
    ensures ended { OnOk result (cache.new.nodes ≡ with_run cache.old.nodes node.0
        (ended_run told.now.replies (edges_of told.now verdict) outcome)) }
    ensures rest { cache.new ≡ record cache.old { nodes = cache.new.nodes } }
    ensures kept { KeepsFinished cache.old.nodes cache.new.nodes }
    ensures others { KeepsBut node.0 cache.old.nodes cache.new.nodes }
{
    let edges = told.edges(verdict)?;
    let replies = told.replies()?;
    cache.finish_node(node, replies, edges, outcome);
    Ok(())
}

/// Whether the provisional result, if there is one, has this verdict.
fn says_again<X: Cx>(cx: X, provisional_result: Option<X::Result>, verdict: Verdict) -> bool
    ensures { IsTrue result ↔ (option_map (verdict_of (verdicts X.Cx)) provisional_result
        ≡ Some (verdict_shape verdict)) }
{
    match provisional_result {
        Some(earlier) => cx.sort(earlier) == verdict,
        None => false,
    }
}
