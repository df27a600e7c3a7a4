//! What a call promises where its goal is one of some goals that no question leads out of, the root depth is enough for all of
//! these, and no result of them is stored that met overflow: then no question is refused.
ghost use Rattle.std.specs.Prelude.{◌≡◌, true, false, max, Contains, IfOk, List};
ghost use Rattle.search_graph.specs.Below.{HasCounted, HaveNoOverflowOf, IsEnclosed, IsRemembered};
ghost use Rattle.search_graph.specs.Called.{Called, HasRun};
ghost use Rattle.search_graph.specs.LimitsMet.{limits_met_in};

use search_context::context::Delegate;

/// No such result is stored when the call ends, also after a fault or a limit.
pub fn enclosed<D: Delegate>()
    ensures { (call : Called D.Cx D.Cx.Input D.Cx.Result D.Cx.AmbiguityInfo
        D.Cx.DepNodeIndex) →
        HasRun D.Delegate D.Cx.Cx D.Cx.Input.eq D.Cx.Result.eq call →
        (goals : List D.Cx.Input) →
        IsEnclosed (D.script call.before.cache.cx) goals call.before.graph.root_depth call.goal →
        HaveNoOverflowOf (Contains goals) D.Cx.Input.eq call.before.cache.results →
        HaveNoOverflowOf (Contains goals) D.Cx.Input.eq call.after.cache.results }
{}

/// A limit that is met is that of runs, and costs all runs that one goal may have.
pub fn only_by_runs<D: Delegate>()
    ensures { (call : Called D.Cx D.Cx.Input D.Cx.Result D.Cx.AmbiguityInfo
        D.Cx.DepNodeIndex) →
        HasRun D.Delegate D.Cx.Cx D.Cx.Input.eq D.Cx.Result.eq call →
        (goals : List D.Cx.Input) →
        IsEnclosed (D.script call.before.cache.cx) goals call.before.graph.root_depth call.goal →
        HaveNoOverflowOf (Contains goals) D.Cx.Input.eq call.before.cache.results →
        D.counts ≡ true → call.before.graph.limits_met ≡ false →
        call.after.graph.limits_met ≡ true →
        HasCounted D.last call.before.starts call.after.starts (max 1 D.FIXPOINT_STEP_LIMIT) }
{}

/// The answer is stored, limit or not, unless the builder records or the delegate has the result validated.
pub fn enclosed_remembered<D: Delegate>()
    ensures { (call : Called D.Cx D.Cx.Input D.Cx.Result D.Cx.AmbiguityInfo
        D.Cx.DepNodeIndex) →
        HasRun D.Delegate D.Cx.Cx D.Cx.Input.eq D.Cx.Result.eq call →
        (goals : List D.Cx.Input) →
        IsEnclosed (D.script call.before.cache.cx) goals call.before.graph.root_depth call.goal →
        HaveNoOverflowOf (Contains goals) D.Cx.Input.eq call.before.cache.results →
        call.looks_up ≡ true → D.scoped call.before.cache.cx call.goal ≡ false →
        IfOk call.result (IsRemembered D.Cx.Input.eq call.after.cache.results call.goal
        call.before.graph.root_depth) }
{}

/// No question is refused, so a limit that is met is that of runs.
pub fn none_refused<D: Delegate>()
    ensures { (call : Called D.Cx D.Cx.Input D.Cx.Result D.Cx.AmbiguityInfo
        D.Cx.DepNodeIndex)
        (ran : HasRun D.Delegate D.Cx.Cx D.Cx.Input.eq D.Cx.Result.eq call) →
        (goals : List D.Cx.Input) →
        IsEnclosed (D.script call.before.cache.cx) goals call.before.graph.root_depth call.goal →
        HaveNoOverflowOf (Contains goals) D.Cx.Input.eq call.before.cache.results →
        (limits_met_in ran).refused ≡ false }
{}
