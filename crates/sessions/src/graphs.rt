//! Graphs as words: those of answers, and the check of any.
ghost use Rattle.std.specs.Prelude.{◌≡◌, ◌↔◌, ℕ, List, true, IfOk, IfSome, IsSome, IsTrue, None, Ok, Some, slice_get};
ghost use Rattle.std.specs.Option.{IsSomeAnd};
ghost use Rattle.sessions.specs.Below.{GraphNode, HasGraph, IsProofGraph, IsRefutationGraph, IsWhole, Outcome as SpecOutcome, verdicts};
ghost use Rattle.sessions.specs.Shown.{AreValidFor, AreWordsFrom};

use delegate_parts::{Builder, Outcome};
use graph_check::check_graph;
use graph_words::{WordsFault, nodes_of_words, words_of_nodes};
use search_parts::context::{Cx, Delegate, NoMemory, NodeId, ProofGraph, Verdict};
use search_parts::global_cache::GlobalCache;
use std::alloc::Global;

/// The words of the node's graph, if there is such a node and all that it reaches is finished.
pub(crate) fn graph_words<X, D>(
    cache: &GlobalCache<D>,
    node: NodeId,
) -> Result<Option<Vec<u64>>, NoMemory>
where
    X: Cx<Input = u32, Result = Outcome>,
    D: Delegate<Cx = X>,
    // They are those of all that is reached, where all of that is finished.
    ensures words { IfOk result (λ handed. IfSome handed (λ words.
        AreWordsFrom cache.now.nodes node.0 words.items)) }
    ensures whole { IsWhole cache.now.nodes node.0 → IfOk result (λ handed. IsSome handed) }
    ensures not_whole { IfOk result (λ handed. IsSome handed → IsWhole cache.now.nodes node.0) }
    ensures missing { slice_get cache.now.nodes node.0 ≡ None → result ≡ Ok None }

    // Those of a definite result's node are valid.
    ensures valid_yes { (goal : ℕ) (r : SpecOutcome) →
        HasGraph (verdicts X.Cx) cache.now.nodes goal r (Some node) → X.is_yes r ≡ true →
        IfOk result (λ handed. IsSomeAnd handed (λ words.
        AreValidFor (verdicts X.Cx) Verdict.Yes (D.script cache.now.cx) words.items goal)) }
    ensures valid_no { (goal : ℕ) (r : SpecOutcome) →
        HasGraph (verdicts X.Cx) cache.now.nodes goal r (Some node) → X.is_no r ≡ true →
        IfOk result (λ handed. IsSomeAnd handed (λ words.
        AreValidFor (verdicts X.Cx) Verdict.No (D.script cache.now.cx) words.items goal)) }
{
    let Some(graph) = cache.graph_of(node)? else {
        return Ok(None);
    };
    Ok(Some(words_of_nodes(cache.allocator(), graph.nodes.as_slice())?))
}

/// Whether the words are a graph's that shows of the goal what the verdict says.
pub(crate) fn is_shown<X, D>(
    alloc: Global,
    cx: X,
    goal: u32,
    verdict: Verdict,
    words: &[u64],
) -> Result<bool, NoMemory>
where
    X: Cx<Input = u32, Result = Outcome>,
    D: Delegate<Cx = X, ProofTreeBuilder = Builder>,
    ensures exact { IfOk result (λ accepted. IsTrue accepted ↔
        AreValidFor (verdicts X.Cx) verdict (D.script cx) words.now goal) }

    // So what is accepted shows what it should.
    ensures proof { result ≡ Ok true → verdict ≡ Verdict.Yes →
        (nodes : List (GraphNode ℕ)) × IsProofGraph (X.proves cx) nodes 0 goal }
    ensures refutation { result ≡ Ok true → verdict ≡ Verdict.No →
        (nodes : List (GraphNode ℕ)) × IsRefutationGraph (X.refutes cx) nodes 0 goal }
{
    let nodes = match nodes_of_words(alloc, words) {
        Ok(nodes) => nodes,
        Err(WordsFault::NoGraph) => return Ok(false),
        Err(WordsFault::Memory) => return Err(NoMemory),
    };
    // The frames that the check starts are none of the search's.
    let mut builder = Builder::new(true);
    check_graph::<D>(
        alloc,
        cx,
        &ProofGraph { nodes },
        goal,
        verdict,
        &mut builder,
    )
}
