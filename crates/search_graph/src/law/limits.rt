//! What a call promises of limits.
ghost use Rattle.std.specs.Prelude.{◌≡◌, ◌≤◌, ◌||◌, ℕ, true, false, max};
ghost use Rattle.search_graph.specs.Below.{HaveNoOverflow, IsPaid, IsPlainTo};
ghost use Rattle.search_graph.specs.Called.{Called, HasRun};
ghost use Rattle.search_graph.specs.LimitsMet.{limits_met_in};

use search_context::context::Delegate;

/// A goal whose questions go no deeper than the root depth, and that is orderly with all goals below it, meets no limit.
pub fn plain_limits<D: Delegate>()
    ensures { (call : Called D.Cx D.Cx.Input D.Cx.Result D.Cx.AmbiguityInfo
        D.Cx.DepNodeIndex) →
        HasRun D.Delegate D.Cx.Cx D.Cx.Input.eq D.Cx.Result.eq call →
        (n : ℕ) → IsPlainTo (D.script call.before.cache.cx) n call.goal →
        n ≤ call.before.graph.root_depth →
        call.after.graph.limits_met ≡ call.before.graph.limits_met }
{}

/// A limit that was met before stays told.
pub fn limits_stay<D: Delegate>()
    ensures { (call : Called D.Cx D.Cx.Input D.Cx.Result D.Cx.AmbiguityInfo
        D.Cx.DepNodeIndex) →
        HasRun D.Delegate D.Cx.Cx D.Cx.Input.eq D.Cx.Result.eq call →
        call.before.graph.limits_met ≡ true → call.after.graph.limits_met ≡ true }
{}

/// Where starts are counted and no result was stored that met overflow, a limit has its price in frames.
pub fn price<D: Delegate>()
    ensures { (call : Called D.Cx D.Cx.Input D.Cx.Result D.Cx.AmbiguityInfo
        D.Cx.DepNodeIndex) →
        HasRun D.Delegate D.Cx.Cx D.Cx.Input.eq D.Cx.Result.eq call →
        D.counts ≡ true → HaveNoOverflow D.Cx.Input.eq call.before.cache.results →
        call.before.graph.limits_met ≡ false → call.after.graph.limits_met ≡ true →
        IsPaid (max 1 D.FIXPOINT_STEP_LIMIT) call.before.graph.root_depth D.last
        call.before.starts call.after.starts }
{}

/// Until one is met, no result is stored that met overflow.
pub fn no_overflow<D: Delegate>()
    ensures { (call : Called D.Cx D.Cx.Input D.Cx.Result D.Cx.AmbiguityInfo
        D.Cx.DepNodeIndex) →
        HasRun D.Delegate D.Cx.Cx D.Cx.Input.eq D.Cx.Result.eq call →
        D.counts ≡ true → HaveNoOverflow D.Cx.Input.eq call.before.cache.results →
        call.before.graph.limits_met ≡ false → call.after.graph.limits_met ≡ false →
        HaveNoOverflow D.Cx.Input.eq call.after.cache.results }
{}

/// A limit is met exactly where a question is refused, since the goal that asks has no depth left, or a goal has had its most
/// runs and its result isn't stable; or it was met before.
pub fn two_limits<D: Delegate>()
    ensures { (call : Called D.Cx D.Cx.Input D.Cx.Result D.Cx.AmbiguityInfo
        D.Cx.DepNodeIndex)
        (ran : HasRun D.Delegate D.Cx.Cx D.Cx.Input.eq D.Cx.Result.eq call) →
        call.after.graph.limits_met
        ≡ (call.before.graph.limits_met || ((limits_met_in ran).refused || (limits_met_in ran).most_runs)) }
{}
