//! The search graph. A call has the goals under evaluation in one list and works through them in one loop,
//! so that no depth of goals takes native stack.
ghost use Rattle.std.specs.Prelude.{◌≡◌, ◌≢◌, ◌≤◌, ◌+◌, ℕ, true, false, None, IsTrue, IfOk, IfErr, IfSome, Ok, Err, [], max};
ghost use Rattle.search_graph.specs.Below.{AreDefinite, frames_within, HasGraph, IsCaused, IsDecisive, IsDefinite, IsPlainTo, IsPlainValue, IsProved, IsRefuted, KeepsBuilder, Memory, Protocol, verdicts};
ghost use Rattle.search_graph.specs.Called.{found_in, HasRun};
ghost use Rattle.search_graph.specs.Calls.{KeepsAll};

mod evaluate;
mod list;
mod proof_tree;

use crate::law::{is_sound, keeps_laws};
use cycle_heads::candidates::CandidateHeadUsages;
use evaluate::evaluate;
use global_cache::GlobalCache;
use path_kinds::path::PathKind;
use search_context::context::{Answer, Cx, Delegate, Fault};
pub use search_parts::{context, global_cache, parts, path};
use search_stack::depth::AvailableDepth;
use search_state::drafts::Drafts;
use search_state::evaluation::Evaluation;
use std::alloc::Global;
use std::marker::Model;

/// Evaluates goals. Between its calls no goal is under evaluation. A graph that is asked again takes over the memory of
/// its last call, and keeps no more of that than a few goals need. Ports `SearchGraph`.
pub struct SearchGraph<D: Delegate> {
    root_depth: AvailableDepth,
    limits_met: bool,
    evaluation: Evaluation<D>,
}

/// Written out, so that a proof about a caller sees one step where the graph is dropped, and none of its parts.
impl<D: Delegate> Drop for SearchGraph<D> {
    fn drop(self) {
        let SearchGraph {
            root_depth: _,
            limits_met: _,
            evaluation: _,
        } = self;
    }
}

impl<D: Delegate> Model for SearchGraph<D> {
    ghost use Rattle.search_graph.specs.Graph.{Graph};

    ghost Value = { Graph };

    ghost view = { λ g. record { root_depth = g.root_depth.0; limits_met = g.limits_met } };
}

impl<D: Delegate> SearchGraph<D> {
    /// A graph without goals, which gives the goals that it is asked this depth. It takes no memory yet.
    /// Ports `SearchGraph::new`.
    pub fn new(alloc: Global, root_depth: usize) -> SearchGraph<D>
        ensures { result ≡ record { root_depth = root_depth; limits_met = false } }
    {
        let root_depth = AvailableDepth(root_depth);
        SearchGraph {
            root_depth,
            limits_met: false,
            evaluation: Evaluation::new(alloc, root_depth, false, Drafts::none(alloc)),
        }
    }

    /// Makes the graph as good as a new one of this depth: it gives the goals that it is asked this depth, and no limit is
    /// met. What questions of other depths need is a graph for each, or one that is renewed for each and takes memory
    /// less often.
    pub fn renew(&mut self, root_depth: usize)
        ensures { self.new ≡ record { root_depth = root_depth; limits_met = false } }
    {
        self.root_depth = AvailableDepth(root_depth);
        self.limits_met = false;
    }

    /// How many bytes of the heap the graph holds: the memory that its last calls have left for the next one. What maps hold
    /// is an estimate (`heap_room::map_bytes`).
    pub fn held_bytes(&self) -> usize {
        self.evaluation.room_bytes()
    }

    /// Whether no goal is under evaluation, which is so between calls. Ports `SearchGraph::is_empty`.
    pub fn is_empty(&self) -> bool
        ensures { IsTrue result }
    {
        true
    }

    /// How many goals are under evaluation: none between calls. Ports `SearchGraph::debug_current_depth`.
    pub fn debug_current_depth(&self) -> usize
        ensures { result ≡ 0 }
    {
        0
    }

    /// Whether, since the graph was made or renewed, a goal without depth has asked a question, or a goal had its
    /// most runs and its result wasn't stable. A fault does not reset it.
    pub fn limits_met(&self) -> bool
        ensures { result ≡ self.now.limits_met }
    {
        self.limits_met
    }

    /// The answer to a goal, evaluated over the cache's context. Nothing depends on the kind of the step that asks it. A
    /// definite answer names its node, the root of its graph in the cache's list.
    ///
    /// The results of this goal and of those that it asks are stored in the cache, and used again, unless the
    /// builder records: it has to see each goal being worked out. One that rests on a goal under evaluation is a
    /// provisional entry until that is popped, if the delegate lets such entries be used.
    ///
    /// `Fault::Memory` where a growth was refused or a frame answered `NoMemory`, `Fault::Protocol` where a
    /// frame's request came out of order, `Fault::Conflict` where a goal came to another result than the one
    /// that is stored in the same place, `Fault::Validation` where it did and the delegate has its stored results
    /// validated. Such a goal is worked out once more, its scope is held meanwhile, and its result is compared with
    /// the stored one instead of being stored; where it rests on a goal under evaluation nothing is compared.
    ///
    /// After a fault the graph can be used again, and the cache keeps every result that it had and those that were stored
    /// since. Nodes that nothing leads to are let go then, too; they stay where there is no memory even to look for
    /// them. Ports `SearchGraph::evaluate_goal`.
    pub fn evaluate_goal(
        &mut self,
        cache: &mut GlobalCache<D>,
        input: <D::Cx as Cx>::Input,
        _step_kind_from_parent: PathKind,
        inspect: &mut D::ProofTreeBuilder,
    ) -> Result<Answer<<D::Cx as Cx>::Result>, Fault<<D::Cx as Cx>::Input, <D::Cx as Cx>::Result>>
        // A definite answer has its graph, and the goal has none of the other sort.
        ensures yes { IfOk result (λ answer. D.Cx.is_yes answer.result ≡ true →
            IsProved D.Cx.Cx cache.new input answer.node) }
        ensures no { IfOk result (λ answer. D.Cx.is_no answer.result ≡ true →
            IsRefuted D.Cx.Cx cache.new input answer.node) }
        ensures neither { IfOk result (λ answer. D.Cx.is_yes answer.result ≡ false →
            D.Cx.is_no answer.result ≡ false → answer.node ≡ None) }
        ensures has_graph { IfOk result (λ answer.
            HasGraph (verdicts D.Cx.Cx) cache.new.nodes input answer.result answer.node) }

        // A goal whose questions go no deeper than the root depth, and that is orderly with all goals below it,
        // answers its plain value or that memory is out.
        ensures plain { (n : ℕ) → IsPlainTo (D.script cache.old.cx) n input →
            n ≤ self.old.root_depth →
            IfOk result (λ answer. IsPlainValue (D.script cache.old.cx) n input answer.result) }
        ensures plain_faults { (n : ℕ) → IsPlainTo (D.script cache.old.cx) n input →
            n ≤ self.old.root_depth →
            IfErr result (λ fault. fault ≡ Memory) }

        // Where scripts ask inductively and coinductively alone and decide after decided answers, and each stored
        // result is yes or no, an answer without a limit met is yes or no.
        ensures decisive { IsDecisive (verdicts D.Cx.Cx) (D.script cache.old.cx) →
            AreDefinite (verdicts D.Cx.Cx) D.Cx.Input.eq cache.old.results →
            self.new.limits_met ≡ false →
            IfOk result (λ answer. IsDefinite (verdicts D.Cx.Cx) answer.result) }

        // A goal that a stored result answers takes no memory and starts no frame, unless the builder records or the
        // delegate has the result validated.
        ensures stored { D.noop inspect.old ≡ true → D.scoped cache.old.cx input ≡ false →
            IfSome (found_in D.Cx.Input.eq cache.old input self.old.root_depth) (λ hit.
            (result ≡ Ok (record { result = hit.result; node = hit.node }))
            × (D.starts inspect.new ≡ D.starts inspect.old)
            × (self.new ≡ self.old) × (cache.new ≡ cache.old)) }

        // A fault is want of memory, a request of some goal's script out of order, another result that is stored, or one
        // that a goal in a scope does not come to.
        ensures faults { IfErr result (IsCaused D.Delegate D.Cx.Cx D.Cx.Input.eq cache.new) }

        // The frames that are started are within a bound.
        ensures frames { D.starts inspect.new ≤ D.starts inspect.old + frames_within
            (max 1 D.FIXPOINT_STEP_LIMIT) (D.width cache.old.cx) self.old.root_depth }

        // What the call did, move by move. The laws (`search_graph::law`) say what follows.
        ensures ran { HasRun D.Delegate D.Cx.Cx D.Cx.Input.eq D.Cx.Result.eq (record {
          goal = input;
          noop = D.noop inspect.old;
          looks_up = D.noop inspect.old;
          before = record {
            graph = self.old;
            cache = cache.old;
            starts = D.starts inspect.old;
          };
          result = result;
          after = record {
            graph = self.new;
            cache = cache.new;
            starts = D.starts inspect.new;
          };
        }) }

        // The context stays, and so do stored results or equal ones, finished nodes, and each node's goal.
        ensures same_context { cache.new.cx ≡ cache.old.cx }
        ensures keeps { KeepsAll D.Cx.Input.eq cache.old cache.new }
        ensures builder { KeepsBuilder D.starts D.noop inspect.old inspect.new }
    {
        keeps_laws::<D>();
        is_sound(cache);
        let evaluation = &mut self.evaluation;
        evaluation.begin(self.root_depth, self.limits_met, cache);
        let outcome = evaluate::<D>(evaluation, cache, input, inspect);
        self.limits_met = evaluation.limits_met;
        evaluation.end(cache);
        is_sound(cache);
        outcome
    }

    /// Opens a candidate of the newest goal. A frame asks for that by `Request::EnterCandidate`; between calls
    /// there is no goal.
    ///
    /// `Fault::Protocol(5)` where no goal is under evaluation, which changes nothing. Ports
    /// `SearchGraph::enter_single_candidate`.
    pub fn enter_single_candidate(
        &mut self,
    ) -> Result<(), Fault<<D::Cx as Cx>::Input, <D::Cx as Cx>::Result>>
        ensures no_goal { result ≡ Err (Protocol 5) }
        ensures same { self.new ≡ self.old }
    {
        Err(Fault::Protocol(5)) // no goal could open it
    }

    /// Ends the open candidate of the newest goal, and hands out how often it used each goal on the stack. A
    /// frame asks for that by `Request::FinishCandidate`; between calls there is no goal.
    ///
    /// `Fault::Protocol(5)` where no goal is under evaluation, which changes nothing. Ports
    /// `SearchGraph::finish_single_candidate`.
    pub fn finish_single_candidate(
        &mut self,
    ) -> Result<CandidateHeadUsages, Fault<<D::Cx as Cx>::Input, <D::Cx as Cx>::Result>>
        ensures no_goal { result ≡ Err (Protocol 5) }
        ensures same { self.new ≡ self.old }
    {
        Err(Fault::Protocol(5)) // no goal has opened one
    }

    /// Takes away from the newest goal what a candidate of it used of the goals on the stack. A frame asks for
    /// that by `Request::Ignore`; between calls there is no goal.
    ///
    /// Where nothing is recorded this changes nothing; else `Fault::Protocol(5)` where no goal is under
    /// evaluation. Ports `SearchGraph::ignore_candidate_head_usages`.
    pub fn ignore_candidate_head_usages(
        &mut self,
        usages: CandidateHeadUsages,
    ) -> Result<(), Fault<<D::Cx as Cx>::Input, <D::Cx as Cx>::Result>>
        ensures nothing { usages ≡ [] → result ≡ Ok tt }
        ensures no_goal { usages ≢ [] → result ≡ Err (Protocol 5) }
        ensures same { self.new ≡ self.old }
    {
        if usages.is_empty() {
            return Ok(());
        }
        Err(Fault::Protocol(5)) // no goal counts usages
    }
}
