//! The graph of an answer as data, which can be looked at without the cache.
ghost use Rattle.std.specs.Prelude.{◌≡◌, true, MatchOption, IfOk, IsSome, IfSome, slice_get, None, Some, Ok};
ghost use Rattle.std.specs.Option.{IsSomeAnd};
ghost use Rattle.global_cache.specs.Below.{Inductive, Coinductive, IsValid, HasGraph, IsCopyFrom, IsWhole, verdicts};

use crate::GlobalCache;
use graph_nodes::copies::copied_nodes;
use search_context::context::{Delegate, NoMemory, NodeId, ProofGraph};

impl<D: Delegate> GlobalCache<D> {
    /// The graph of a node as data: all runs that are reached from it, itself first and the others in any
    /// order, each once. Their edges lead to places of what is handed out. That of a definite result's node
    /// is a valid graph of its goal, and the cache isn't needed to see that.
    ///
    /// `Ok(None)` where the node isn't in the list, or where one that is reached isn't finished; where it is
    /// the node itself, that takes no memory. `NoMemory` where a growth was refused. The time is linear in
    /// what is copied, but for look-ups in a map, and the native stack is as deep for each graph.
    pub fn graph_of(&self, node: NodeId) -> Result<Option<ProofGraph<D::Cx>>, NoMemory>
        // What is handed out is a copy of all that is reached.
        ensures copied { IfOk result (λ handed. IfSome handed (λ graph.
            IsCopyFrom self.now.nodes node.0 graph.nodes.items)) }

        // It is handed out exactly where all that is reached is finished.
        ensures whole { IsWhole self.now.nodes node.0 → IfOk result (λ handed. IsSome handed) }
        ensures not_whole { IfOk result (λ handed. IsSome handed → IsWhole self.now.nodes node.0) }
        ensures missing { slice_get self.now.nodes node.0 ≡ None → result ≡ Ok None }

        // That of a definite result is valid.
        ensures valid_yes { (goal : D.Cx.Input) (r : D.Cx.Result) →
            HasGraph (verdicts D.Cx.Cx) self.now.nodes goal r (Some node) → D.Cx.is_yes r ≡ true →
            IfOk result (λ handed. IsSomeAnd handed (λ graph.
            IsValid D.Cx.is_yes Coinductive (D.script self.now.cx) graph.nodes.items goal)) }
        ensures valid_no { (goal : D.Cx.Input) (r : D.Cx.Result) →
            HasGraph (verdicts D.Cx.Cx) self.now.nodes goal r (Some node) → D.Cx.is_no r ≡ true →
            IfOk result (λ handed. IsSomeAnd handed (λ graph.
            IsValid D.Cx.is_no Inductive (D.script self.now.cx) graph.nodes.items goal)) }
    {
        if self.node(node).is_none() {
            return Ok(None);
        }
        self.has_runs();
        self.copied_from(node)
    }

    // What is reached from a node, if all of that is finished.
    fn copied_from(&self, root: NodeId) -> Result<Option<ProofGraph<D::Cx>>, NoMemory>
        ensures { IfOk result (λ copy. MatchOption copy
            (IsWhole self.now.nodes root.0 → ⊥)
            (λ graph. IsCopyFrom self.now.nodes root.0 graph.nodes.items)) }
    {
        match copied_nodes(&self.nodes, root) {
            Ok(Some(nodes)) => Ok(Some(ProofGraph { nodes })),
            Ok(None) => Ok(None),
            Err(NoMemory) => Err(NoMemory),
        }
    }
}
