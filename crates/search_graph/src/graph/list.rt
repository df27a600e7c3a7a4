//! Queries that are answered one after another over one cache.
ghost use Rattle.std.specs.Prelude.{◌≡◌, ◌≤◌, ◌<◌, ◌+◌, max, length, vec_len, vec_capacity, OnOk, OnErr};
ghost use Rattle.search_graph.specs.Below.{KeepsBuilder};
ghost use Rattle.search_graph.specs.Called.{HasRun};
ghost use Rattle.search_graph.specs.Calls.{KeepsAll};
ghost use Rattle.search_graph.specs.Lists.{AppendsEach, call_for, HaveRun, IsAnsweredQuery};
ghost use Rattle.search_graph.specs.Words.{frames_for, Graph};

use super::SearchGraph;
use global_cache::GlobalCache;
use path_kinds::path::PathKind;
use search_context::context::{Answer, Cx, Delegate, Fault, NoMemory};
use std::alloc::Global;

impl<D: Delegate> SearchGraph<D> {
    /// Answers each query, in order, and appends its answer. A query is a root depth, a goal, and the kind of
    /// the step that asks it, on which nothing depends; it is evaluated on a new graph, over the results of the queries before it. A
    /// fault of one query is its answer, and the next one is evaluated all the same.
    ///
    /// The graphs take their memory from the allocator of `answers`. `NoMemory` where `answers` can't take one
    /// more for each query: then nothing is evaluated, and nothing has changed.
    pub fn evaluate_list(
        cache: &mut GlobalCache<D>,
        queries: &[(usize, <D::Cx as Cx>::Input, PathKind)],
        inspect: &mut D::ProofTreeBuilder,
        answers: &mut Vec<
            Result<
                Answer<<D::Cx as Cx>::Result>,
                Fault<<D::Cx as Cx>::Input, <D::Cx as Cx>::Result>,
            >,
        >,
    ) -> Result<(), NoMemory>
        // There is one answer for each query, right over the cache as it is when the call ends.
        ensures answered { OnOk result (AppendsEach
            (IsAnsweredQuery D.Delegate D.Cx.Cx D.Cx.Input.eq cache.new) queries.now
            answers.old.items answers.new.items) }

        // A refusal comes only where the room for the answers isn't there yet, and changes nothing.
        ensures refused { OnErr result
            ((vec_capacity answers.old < vec_len answers.old + length queries.now)
            × (answers.new.items ≡ answers.old.items) × (cache.new ≡ cache.old)
            × (inspect.new ≡ inspect.old)) }

        // The frames that are started are within the bounds of all queries together.
        ensures frames { D.starts inspect.new ≤ D.starts inspect.old + frames_for
            (max 1 D.FIXPOINT_STEP_LIMIT) (D.width cache.old.cx) queries.now }

        // What each query's call did, one after another. The laws (`search_graph::law`) say what follows.
        ensures ran { OnOk result (HaveRun D.Delegate D.Cx.Cx D.Cx.Input.eq D.Cx.Result.eq
            (D.noop inspect.old) queries.now cache.old cache.new (D.starts inspect.old)
            (D.starts inspect.new) answers.old.items answers.new.items) }

        // The context stays, and so do stored results or equal ones, finished nodes, and each node's goal.
        ensures keeps { KeepsAll D.Cx.Input.eq cache.old cache.new }
        ensures builder { KeepsBuilder D.starts D.noop inspect.old inspect.new }
    {
        answers.reserve(queries.len())?;
        let alloc = *answers.allocator();
        for query in queries {
            let answer = evaluate_query::<D>(alloc, cache, *query, inspect);
            answers.push_reserved(answer);
        }
        Ok(())
    }
}

/// The answer to one query, on a new graph.
fn evaluate_query<D: Delegate>(
    alloc: Global,
    cache: &mut GlobalCache<D>,
    query: (usize, <D::Cx as Cx>::Input, PathKind),
    inspect: &mut D::ProofTreeBuilder,
) -> Result<Answer<<D::Cx as Cx>::Result>, Fault<<D::Cx as Cx>::Input, <D::Cx as Cx>::Result>>
    ensures ran { (left : Graph) × HasRun D.Delegate D.Cx.Cx D.Cx.Input.eq D.Cx.Result.eq
        (call_for (D.noop inspect.old) query cache.old (D.starts inspect.old) result left cache.new
        (D.starts inspect.new)) }
    ensures builder { KeepsBuilder D.starts D.noop inspect.old inspect.new }
{
    let (root_depth, input, step_kind) = query;
    let mut graph = SearchGraph::<D>::new(alloc, root_depth);
    graph.evaluate_goal(cache, input, step_kind, inspect)
}
