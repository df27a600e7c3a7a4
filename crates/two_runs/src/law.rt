//! What a call promises where two runs of each goal are enough: besides what makes a call decide, there is one yes and one no,
//! the delegate lets no provisional entry be used or goals that reach each other ask by one kind of step, a goal may be run
//! twice, none of the goals is in a scope, the builder does not record, and the graphs of the stored results are settled. An
//! empty cache is settled.
ghost use Rattle.std.specs.Prelude.{◌≡◌, false, [], List};
ghost use Rattle.search_graph.specs.Called.{Called, HasRun};
ghost use Rattle.search_graph.specs.Lists.{Listed, ListHasRun};
ghost use Rattle.two_runs.specs.Below.{CacheNode, Store, StoredResult};
ghost use Rattle.two_runs.specs.Enough.{IsDoneInTwoRuns, TakesTwoRuns, TwoRunsAreEnough};
ghost use Rattle.two_runs.specs.Evaluations.{IsSettledStore};

use search_context::context::Delegate;

/// No limit is met, also where the call ends in a fault. The answer decides its goal, and the only fault is want of memory, or a
/// request out of order. Two runs stay enough, whether there is an answer or a fault.
pub fn two_runs<D: Delegate>()
    ensures { (call : Called D.Cx D.Cx.Input D.Cx.Result D.Cx.AmbiguityInfo
        D.Cx.DepNodeIndex) →
        HasRun D.Delegate D.Cx.Cx D.Cx.Input.eq D.Cx.Result.eq call →
        (goals : List D.Cx.Input) →
        TwoRunsAreEnough D.Delegate D.Cx.Cx D.Cx.Input.eq goals call.before.cache
        call.before.graph.root_depth call.goal call.noop →
        call.looks_up ≡ call.noop → call.before.graph.limits_met ≡ false →
        IsDoneInTwoRuns D.Delegate D.Cx.Cx D.Cx.Input.eq goals call }
{}

/// Of a list of calls each answer is yes or no, or its fault is want of memory or a request out of order; and two runs stay
/// enough, whether there were faults or not.
pub fn two_runs_of_all<D: Delegate>()
    ensures { (list : Listed D.Cx D.Cx.Input D.Cx.Result D.Cx.AmbiguityInfo
        D.Cx.DepNodeIndex) →
        ListHasRun D.Delegate D.Cx.Cx D.Cx.Input.eq D.Cx.Result.eq list →
        TakesTwoRuns D.Delegate D.Cx.Cx D.Cx.Input.eq list.noop list.queries list.before
        list.after list.answers }
{}

/// A call whose builder records leaves the stored results settled, whatever its goal is and however it ends.
pub fn recording_leaves_settled<D: Delegate>()
    ensures { (call : Called D.Cx D.Cx.Input D.Cx.Result D.Cx.AmbiguityInfo
        D.Cx.DepNodeIndex) →
        HasRun D.Delegate D.Cx.Cx D.Cx.Input.eq D.Cx.Result.eq call → call.noop ≡ false →
        (goals : List D.Cx.Input) →
        IsSettledStore D.Delegate D.Cx.Cx D.Cx.Input.eq call.before.cache.cx goals
        call.before.cache.nodes call.before.cache.results →
        IsSettledStore D.Delegate D.Cx.Cx D.Cx.Input.eq call.before.cache.cx goals
        call.after.cache.nodes call.after.cache.results }
{}

/// Where nothing is stored, as in a new cache, the stored results are settled, whatever the goals are.
pub fn nothing_is_settled<D: Delegate>()
    ensures { (cx : D.Cx) (nodes : List (CacheNode D.Cx.Input D.Cx.Result))
        (goals : List D.Cx.Input)
        (results : Store D.Cx.Input
        (StoredResult D.Cx.Input D.Cx.Result D.Cx.DepNodeIndex)) →
        results ≡ [] → IsSettledStore D.Delegate D.Cx.Cx D.Cx.Input.eq cx goals nodes results }
{}
