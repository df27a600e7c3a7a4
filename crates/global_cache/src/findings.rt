//! What a cache has found out, without its context: so it can be taken over to one of another type or lifetime.
ghost use Rattle.std.specs.Prelude.{◌≡◌, ◌*◌, Bool, List, [], count_by, length};
ghost use Rattle.search_context.specs.Verdicts.{Verdicts};
ghost use Rattle.search_context.specs.declared.context.Reply.{Reply};
ghost use Rattle.search_context.specs.declared.context.Request.{Request};
ghost use Rattle.global_cache.specs.Below.{is_held, verdicts};
ghost use Rattle.global_cache.specs.Words.{is_among, AreSoundFindings, Findings as Found, KeepsOtherNodes, KeepsOtherResults, KeepsOthers};
ghost use Rattle.graph_nodes.specs.Bytes.{node_bytes};
ghost use Rattle.heap_room.specs.Bytes.{CoversBytes};

use crate::GlobalCache;
use crate::result_store::ResultStore;
use graph_nodes::node_list::NodeList;
use search_context::context::{Cx, Delegate};
use std::alloc::Global;
use std::collections::HashSet;
use std::hash::Hash;
use std::marker::Model;

/// What a cache has found out: its nodes and its stored results. It holds goals, results and tokens alone, so it outlives
/// the context, and what that borrows: a cache over rules that are lent can be taken apart, the rules changed where they
/// stand, and the rest of what was known put under a cache over them again.
#[derive(Drop)]
pub struct Findings<I: Eq + Hash + Copy, R: Eq + Copy, T: Copy> {
    nodes: NodeList<I, R>,
    results: ResultStore<I, R, T>,
}

impl<I: Eq + Hash + Copy, R: Eq + Copy, T: Copy> Model for Findings<I, R, T> {
    ghost use Rattle.global_cache.specs.Findings.{Findings as Found};

    ghost Value = { Found I R T };

    ghost view = { λ f. record { nodes = f.nodes; results = f.results } };
}

impl<I: Eq + Hash + Copy, R: Eq + Copy, T: Copy> Findings<I, R, T> {
    /// Nothing is known, which is sound by any rules. It takes no memory yet.
    pub fn new(alloc: Global) -> Self
        ensures none { result ≡ record { nodes = []; results = [] } }
        ensures sound { (says : Verdicts R) (scripts : I → List (Reply R) → Request I R) →
            AreSoundFindings I.eq says scripts result }
    {
        Findings {
            nodes: NodeList::new(alloc),
            results: ResultStore::new(alloc),
        }
    }

    /// Lets go of what is known of goals that are gone: their results and their nodes. All else stays. It takes no memory.
    pub fn forget(&mut self, gone: &HashSet<I>)
        ensures results { KeepsOtherResults I.eq (is_among I.eq gone.now.keys)
            self.old.results self.new.results }
        ensures nodes { KeepsOtherNodes (is_among I.eq gone.now.keys)
            self.old.nodes self.new.nodes }
    {
        self.nodes.forget(gone);
        self.results.forget(gone);
    }

    /// How many nodes are held: those that were opened, whether their runs have ended or not, and were not let go.
    pub fn held_nodes(&self) -> usize
        ensures { result ≡ count_by is_held self.now.nodes }
    {
        self.nodes.held_count()
    }

    /// How many bytes of the heap the findings hold, as `GlobalCache::held_bytes` says of a cache.
    pub fn held_bytes(&self) -> usize
        ensures nodes { CoversBytes (count_by is_held self.now.nodes * node_bytes I.row R.row) result }
        ensures results { CoversBytes (length self.now.results * 8) result }
    {
        self.nodes
            .held_bytes()
            .saturating_add(self.results.held_bytes())
    }
}

impl<D: Delegate> GlobalCache<D> {
    /// What the cache has found out, without its context.
    pub fn into_findings(
        self,
    ) -> Findings<<D::Cx as Cx>::Input, <D::Cx as Cx>::Result, <D::Cx as Cx>::DepNodeIndex>
        ensures found { result ≡ record { nodes = self.nodes; results = self.results } }
        ensures sound { AreSoundFindings D.Cx.Input.eq (verdicts D.Cx.Cx)
            (D.script self.cx) result }
    {
        Findings {
            nodes: self.nodes,
            results: self.results,
        }
    }

    /// A cache with this context that knows what was found out already, whatever cache did. It takes no memory.
    ///
    /// What was found out has to be sound by the rules of this context. It is by those of the cache that it comes from, and
    /// by rules that changed, once what is gone was forgotten: `findings_stay_sound` says when.
    pub fn over(
        cx: D::Cx,
        findings: Findings<
            <D::Cx as Cx>::Input,
            <D::Cx as Cx>::Result,
            <D::Cx as Cx>::DepNodeIndex,
        >,
    ) -> Self
        requires { AreSoundFindings D.Cx.Input.eq (verdicts D.Cx.Cx) (D.script cx) findings }
        ensures { result ≡ record { cx = cx; nodes = findings.nodes; results = findings.results } }
    {
        GlobalCache {
            cx,
            nodes: findings.nodes,
            results: findings.results,
        }
    }
}

/// What is sound by the rules before is sound by those after, once it forgot the goals that are gone. A goal is gone where
/// its script is another one than it was, and where it may ask a goal that is gone. The rules may be those of contexts
/// of two types, whose goals and results are the same and whose results say the same.
pub fn findings_stay_sound<I: Eq + Hash + Copy, R: Eq + Copy, T: Copy>()
    ensures { (says : Verdicts R) (before after : I → List (Reply R) → Request I R)
        (is_gone : I → Bool) (old new : Found I R T) → KeepsOthers is_gone before after →
        KeepsOtherNodes is_gone old.nodes new.nodes →
        KeepsOtherResults I.eq is_gone old.results new.results →
        AreSoundFindings I.eq says before old → AreSoundFindings I.eq says after new }
{}
