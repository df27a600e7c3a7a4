//! A goal that is worked out whatever is stored of it, so that a builder sees all of it.
ghost use Rattle.std.specs.Prelude.{◌≡◌, ◌≤◌, ◌+◌, ℕ, true, false, max, [], None, Some, IfOk, IfErr, OnOk};
ghost use Rattle.search_graph.specs.Below.{frames_within, HasGraph, IsCaused, IsPlainTo, IsPlainValue, IsProved, IsRefuted, KeepsBuilder, Memory, verdicts};
ghost use Rattle.search_graph.specs.Called.{HasRun};
ghost use Rattle.search_graph.specs.Calls.{KeepsAll};
ghost use Rattle.search_graph.specs.Words.{Graph};

use super::SearchGraph;
use super::evaluate::work_out;
use crate::law::{is_sound, keeps_laws};
use global_cache::GlobalCache;
use run_records::runs::Fate;
use search_context::context::{Answer, Cx, Delegate, Fault};
use search_stack::depth::AvailableDepth;
use search_state::drafts::Drafts;
use search_state::evaluation::Evaluation;

impl<D: Delegate> SearchGraph<D> {
    /// The answer to a goal that is worked out at once, on a new graph of this depth: no stored result of the goal is
    /// used, and its own is not stored, so that the builder sees what the goal asks. The goals below it are answered
    /// and stored as those of `evaluate_goal`, so a builder that records sees those, too.
    ///
    /// The graph takes its memory from the allocator of the cache. The faults are those of `evaluate_goal`. Ports
    /// `SearchGraph::evaluate_root_goal_for_proof_tree`.
    pub fn evaluate_root_goal_for_proof_tree(
        cache: &mut GlobalCache<D>,
        root_depth: usize,
        input: <D::Cx as Cx>::Input,
        inspect: &mut D::ProofTreeBuilder,
    ) -> Result<Answer<<D::Cx as Cx>::Result>, Fault<<D::Cx as Cx>::Input, <D::Cx as Cx>::Result>>
        // A definite answer has its graph, and the goal has none of the other sort.
        ensures yes { IfOk result (λ answer. D.Cx.is_yes answer.result ≡ true →
            IsProved D.Cx.Cx cache.new input answer.node) }
        ensures no { IfOk result (λ answer. D.Cx.is_no answer.result ≡ true →
            IsRefuted D.Cx.Cx cache.new input answer.node) }
        ensures neither { IfOk result (λ answer. D.Cx.is_yes answer.result ≡ false →
            D.Cx.is_no answer.result ≡ false → answer.node ≡ None) }
        ensures has_graph { IfOk result (λ answer.
            HasGraph (verdicts D.Cx.Cx) cache.new.nodes input answer.result answer.node) }

        // A goal whose questions go no deeper than the root depth, and that is orderly with all goals below it,
        // answers its plain value or that memory is out.
        ensures plain { (n : ℕ) → IsPlainTo (D.script cache.old.cx) n input → n ≤ root_depth →
            IfOk result (λ answer. IsPlainValue (D.script cache.old.cx) n input answer.result) }
        ensures plain_faults { (n : ℕ) → IsPlainTo (D.script cache.old.cx) n input →
            n ≤ root_depth → IfErr result (λ fault. fault ≡ Memory) }

        // A fault is want of memory, a request of some goal's script out of order, another result that is stored, or one
        // that a goal in a scope does not come to.
        ensures faults { IfErr result (IsCaused D.Delegate D.Cx.Cx D.Cx.Input.eq cache.new) }

        // The frames that are started are within a bound.
        ensures frames { D.starts inspect.new ≤ D.starts inspect.old + frames_within
            (max 1 D.FIXPOINT_STEP_LIMIT) (D.width cache.old.cx) root_depth }

        // What the call did, move by move, on a graph that it left so. The laws (`search_graph::law`) say what follows.
        ensures ran { (left : Graph)
            × HasRun D.Delegate D.Cx.Cx D.Cx.Input.eq D.Cx.Result.eq (record {
              goal = input;
              noop = D.noop inspect.old;
              looks_up = false;
              before = record {
                graph = record { root_depth = root_depth; limits_met = false };
                cache = cache.old;
                starts = D.starts inspect.old;
              };
              result = result;
              after = record {
                graph = left;
                cache = cache.new;
                starts = D.starts inspect.new;
              };
            }) }

        // The context stays, and so do stored results or equal ones, finished nodes, and each node's goal.
        ensures keeps { KeepsAll D.Cx.Input.eq cache.old cache.new }
        ensures builder { KeepsBuilder D.starts D.noop inspect.old inspect.new }

        // A builder before which no frame of this goal's call was started has seen the call to where none is open any more.
        ensures seen { D.sees inspect.old input None → OnOk result (D.sees inspect.new input (Some [])) }
    {
        keeps_laws::<D>();
        is_sound(cache);
        let depth = AvailableDepth(root_depth);
        let drafts = Drafts::new(cache.allocator(), cache);
        let mut evaluation = Evaluation::<D>::new(cache.allocator(), depth, false, drafts);
        let fate = Fate::NotStored;
        let answer = work_out::<D>(&mut evaluation, cache, input, fate, None, inspect);
        is_sound(cache);
        answer
    }
}
