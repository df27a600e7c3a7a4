//! What is known of rules, and what is asked of that.
ghost use Rattle.std.specs.Prelude.{◌≡◌, ◌↔◌, ◌*◌, ◌^◌, ℕ, List, [], Option, true, filter, length, min, IfErr, IfOk, IfSome, IsSome, IsTrue, None, Ok, OnOk, Some, count_by, slice_get};
ghost use Rattle.std.specs.List.{range_with_len};
ghost use Rattle.std.specs.Option.{IsSomeAnd};
ghost use Rattle.heap_room.specs.Bytes.{CoversBytes};
ghost use Rattle.sessions.specs.Below.{GraphNode, HasGraph, IsProofGraph, IsRefutationGraph, IsWhole, KeepsNodes, No, NodeId as SpecNodeId, Outcome as SpecOutcome, Yes, is_held, outcome_verdicts};
ghost use Rattle.sessions.specs.Causes.{HasReason, IsRightOutcome, IsToldAnew};
ghost use Rattle.sessions.specs.Known.{has_result, is_wanted, nodes_of, rules_of};
ghost use Rattle.sessions.specs.Questions.{IsAsked};
ghost use Rattle.sessions.specs.Rules.{IsRightAnswer, is_row_unknown, proves, refutes, scripts_of};
ghost use Rattle.sessions.specs.Shown.{AreValidFor, AreWordsFrom};

mod changing;

use crate::asking::{Asked, ask};
use crate::causes::{Caused, WatchedRows, ask_watched, with_reason};
use crate::graphs::{graph_words, is_shown};
use candidate_lists::{AnyOf, CandidatesContext, ContextOf};
use delegate_parts::Outcome;
use rule_arrays::{ArraysDelegate, GoalRow, LendsArrays, NOT_KNOWN, RulesIn};
use search_graph::graph::SearchGraph;
use search_parts::context::{Cx, Delegate, Fault, NoMemory, NodeId, Verdict};
use search_parts::global_cache::GlobalCache;
use std::alloc::Global;

/// What is known of the goals of the rules that an `L` lends, as `Arrays` does: what one question finds out is used in the
/// next ones. The rows must not change while it is over them.
#[derive(Drop)]
pub struct Session<L: LendsArrays> {
    cache: GlobalCache<ArraysDelegate<L>>,
    // It is renewed for each question.
    graph: SearchGraph<ArraysDelegate<L>>,
    last_fault: Option<Fault<u32, Outcome>>,
}

impl<L: LendsArrays> Session<L> {
    /// A session in which nothing is known yet. It takes no memory.
    pub fn new(alloc: Global, lender: L) -> Session<L>
        ensures same_rules { rules_of L.table_of result ≡ L.table_of lender }
        ensures no_nodes { nodes_of result ≡ [] }
        ensures no_results { result.cache.results ≡ [] }
        ensures no_fault { result.last_fault ≡ None }
    {
        Session {
            cache: GlobalCache::new(alloc, ContextOf(AnyOf(RulesIn { lender }))),
            graph: SearchGraph::new(alloc, 0),
            last_fault: None,
        }
    }

    /// Makes the session as good as a new one over these rows, with the memory of the old one: nothing is known yet. It takes
    /// no memory.
    pub fn renew(&mut self, lender: L)
        ensures same_rules { rules_of L.table_of self.new ≡ L.table_of lender }
        ensures no_nodes { nodes_of self.new ≡ [] }
        ensures no_results { self.new.cache.results ≡ [] }
        ensures no_fault { self.new.last_fault ≡ None }
    {
        self.cache.renew(ContextOf(AnyOf(RulesIn { lender })));
        self.last_fault = None;
    }

    /// What lends its rows.
    pub fn lender(&self) -> L
        ensures { result ≡ self.now.cache.cx.0.0.lender }
    {
        self.cache.cx().0.0.lender
    }

    /// Asks the goal. The depth is how many goals may stand below this one on the way to an answer; as many as there are
    /// suffice. A yes or a no names its node, the root of its graph. A number that is no goal's is answered no.
    ///
    /// `Fault::Memory` where memory is out, and `Fault::Conflict` where a goal came to another result than is stored of it,
    /// which stays. After a fault the session can be used on, and knows what it knew.
    pub fn ask(&mut self, depth: usize, goal: u32) -> Result<Asked, Fault<u32, Outcome>>
        // A yes or a no is right by the rows alone, and has its graph among the nodes.
        ensures right { IfOk result (λ asked. IsRightAnswer (rules_of L.table_of self.old)
            (nodes_of self.new) goal asked.outcome asked.node) }
        ensures graph { IfOk result (λ asked.
            HasGraph outcome_verdicts (nodes_of self.new) goal asked.outcome asked.node) }

        // What else the search promises of the call.
        ensures asked { IsAsked ⟦<ArraysDelegate<L> as Delegate>⟧ ⟦<CandidatesContext<RulesIn<L>> as Cx>⟧
            ⟦<u32 as PartialEq>⟧.eq ⟦<Outcome as PartialEq>⟧.eq
            self.old.cache depth goal result self.new.cache }

        // Nodes stay, and so do the graphs of earlier answers.
        ensures kept { KeepsNodes (nodes_of self.old) (nodes_of self.new) }
        ensures kept_graphs { (other : ℕ) (outcome : SpecOutcome) (node : Option SpecNodeId) →
            HasGraph outcome_verdicts (nodes_of self.old) other outcome node →
            HasGraph outcome_verdicts (nodes_of self.new) other outcome node }
        ensures same_rules { rules_of L.table_of self.new ≡ rules_of L.table_of self.old }
        ensures fault { IfErr result (λ fault. self.new.last_fault ≡ Some fault) }
        ensures no_fault { OnOk result (self.new.last_fault ≡ self.old.last_fault) }
    {
        let came = ask::<CandidatesContext<RulesIn<L>>, ArraysDelegate<L>>(
            &mut self.cache,
            &mut self.graph,
            depth,
            goal,
        );
        if let Err(fault) = came {
            self.last_fault = Some(fault);
        }
        came
    }

    /// Why the goal is neither yes nor no, if it is neither: it is asked at this depth over a cache of its own, and watched. So
    /// nothing is stored. To watch a question takes up to a third more instructions than to ask one of which nothing is known.
    ///
    /// The same faults as of `ask`; they are not remembered.
    pub fn cause(&self, depth: usize, goal: u32) -> Result<Caused, Fault<u32, Outcome>>
        // A yes or a no is right by the rows alone, and of all else there is a reason that fits.
        ensures right { IfOk result (λ caused. IsRightOutcome (rules_of L.table_of self.now) goal caused.outcome) }
        ensures reason { IfOk result (HasReason (rules_of L.table_of self.now)) }

        // What else the search promises of a question where nothing is known.
        ensures told { IsToldAnew ⟦<WatchedRows<L> as Delegate>⟧ ⟦<CandidatesContext<RulesIn<L>> as Cx>⟧
            ⟦<u32 as PartialEq>⟧.eq ⟦<Outcome as PartialEq>⟧.eq
            self.now.cache.cx depth goal result }
    {
        let cx = self.cache.cx();
        let came = ask_watched::<CandidatesContext<RulesIn<L>>, ArraysDelegate<L>>(
            self.cache.allocator(),
            cx,
            depth,
            goal,
        );
        match came {
            Ok(watched) => Ok(with_reason(cx.0.0, watched)),
            Err(fault) => Err(fault),
        }
    }

    /// The words of the node's graph, as the crate `graph_words` says. `Ok(None)` where there is no such node, or not all that
    /// it reaches is finished. The time is linear in the words, but for look-ups in a map.
    ///
    /// `NoMemory` where a growth was refused.
    pub fn graph_words(&self, node: NodeId) -> Result<Option<Vec<u64>>, NoMemory>
        // They are those of all that is reached, where all of that is finished.
        ensures words { IfOk result (λ handed. IfSome handed (λ words.
            AreWordsFrom (nodes_of self.now) node.0 words.items)) }
        ensures whole { IsWhole (nodes_of self.now) node.0 → IfOk result (λ handed. IsSome handed) }
        ensures not_whole { IfOk result (λ handed. IsSome handed →
            IsWhole (nodes_of self.now) node.0) }
        ensures missing { slice_get (nodes_of self.now) node.0 ≡ None → result ≡ Ok None }

        // Those of a yes's node and of a no's are what `check` accepts.
        ensures valid_yes { (goal : ℕ) →
            HasGraph outcome_verdicts (nodes_of self.now) goal Yes (Some node) →
            IfOk result (λ handed. IsSomeAnd handed (λ words. AreValidFor outcome_verdicts Verdict.Yes
            (scripts_of (rules_of L.table_of self.now)) words.items goal)) }
        ensures valid_no { (goal : ℕ) →
            HasGraph outcome_verdicts (nodes_of self.now) goal No (Some node) →
            IfOk result (λ handed. IsSomeAnd handed (λ words. AreValidFor outcome_verdicts Verdict.No
            (scripts_of (rules_of L.table_of self.now)) words.items goal)) }
    {
        graph_words::<CandidatesContext<RulesIn<L>>, ArraysDelegate<L>>(&self.cache, node)
    }

    /// Whether the words are those of a graph that shows of the goal what the verdict says, whatever they come from. For
    /// `Verdict::Neither` none are. The time is linear in the words, beside that of the frames.
    ///
    /// `NoMemory` where a growth was refused.
    pub fn check(&self, goal: u32, verdict: Verdict, words: &[u64]) -> Result<bool, NoMemory>
        ensures exact { IfOk result (λ accepted. IsTrue accepted ↔ AreValidFor outcome_verdicts verdict
            (scripts_of (rules_of L.table_of self.now)) words.now goal) }

        // So what is accepted shows what it should, by the rows alone.
        ensures proof { result ≡ Ok true → verdict ≡ Verdict.Yes → (nodes : List (GraphNode ℕ))
            × IsProofGraph (proves (rules_of L.table_of self.now)) nodes 0 goal }
        ensures refutation { result ≡ Ok true → verdict ≡ Verdict.No → (nodes : List (GraphNode ℕ))
            × IsRefutationGraph (refutes (rules_of L.table_of self.now)) nodes 0 goal }
    {
        is_shown::<CandidatesContext<RulesIn<L>>, ArraysDelegate<L>>(
            self.cache.allocator(),
            self.cache.cx(),
            goal,
            verdict,
            words,
        )
    }

    /// The goals whose candidates are not known and which were worked out, since a question so far came to them, in rising
    /// order: of each a result is stored.
    ///
    /// `NoMemory` where a growth was refused.
    pub fn wanted(&self) -> Result<Vec<u32>, NoMemory>
        ensures { IfOk result (λ wanted. wanted.items ≡ filter
            (is_wanted (rules_of L.table_of self.now) ⟦<u32 as PartialEq>⟧.eq self.now.cache.results)
            (range_with_len 0 (min (length (rules_of L.table_of self.now).goals) (2 ^ 32)))) }
    {
        let lender = self.cache.cx().0.0.lender;
        let mut wanted = Vec::new(self.cache.allocator());
        for (place, row) in lender.goals().iter().enumerate() {
            let Ok(goal) = u32::try_from(place) else {
                return Ok(wanted);
            };
            if is_unknown(*row) && self.has_result(goal) {
                wanted.push(goal)?;
            }
        }
        Ok(wanted)
    }

    // Whether a result is stored of a goal that asks itself alone. One that is cut off has no depth left, and no other one is.
    fn has_result(&self, goal: u32) -> bool
        ensures { result ≡ has_result ⟦<u32 as PartialEq>⟧.eq self.now.cache.results goal }
    {
        self.cache.success_of(goal).is_some() || self.cache.overflow_at(goal, 0).is_some()
    }

    /// How many nodes of graphs are held.
    pub fn held_nodes(&self) -> usize
        ensures { result ≡ count_by is_held (nodes_of self.now) }
    {
        self.cache.held_nodes()
    }

    /// How many bytes of the heap the session holds: what it knows, and the memory that questions have left for the next ones.
    /// `GlobalCache::held_bytes` and `SearchGraph::held_bytes` say what that comes to. The time is linear in the nodes that are
    /// held and the results that are stored.
    pub fn held_bytes(&self) -> usize
        // Each node that is held counts with 72 bytes at least, and each stored result with 8.
        ensures nodes { CoversBytes (count_by is_held (nodes_of self.now) * 72) result }
        ensures results { CoversBytes (length self.now.cache.results * 8) result }
    {
        self.cache
            .held_bytes()
            .saturating_add(self.graph.held_bytes())
    }

    /// The fault that was met last, if any was.
    pub fn last_fault(&self) -> Option<Fault<u32, Outcome>>
        ensures { result ≡ self.now.last_fault }
    {
        self.last_fault
    }
}

// Whether the row's goal is not known.
pub(crate) fn is_unknown(row: GoalRow) -> bool
    ensures { result ≡ is_row_unknown row }
{
    row.count == NOT_KNOWN
}
