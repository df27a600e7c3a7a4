//! Whose fault it is that a call fails.
ghost use Rattle.std.specs.Prelude.{IfErr};
ghost use Rattle.search_graph.specs.Called.{Called, HasRun};
ghost use Rattle.search_graph.specs.Faults.{FailsFor, goals_at_end};
ghost use Rattle.search_graph.specs.LimitsMet.{limits_met_in};

use search_context::context::Delegate;

/// Memory is out, or it is the fault of the goal that was newest then, which the call's goal may reach by questions: its script
/// made a request out of order, or it came to another result than is stored. What conflicts with its own stands where that
/// belongs; and it came to a limit's result only if a goal had its most runs in this call.
pub fn whose<D: Delegate>()
    ensures { (call : Called D.Cx D.Cx.Input D.Cx.Result D.Cx.AmbiguityInfo
        D.Cx.DepNodeIndex) →
        (ran : HasRun D.Delegate D.Cx.Cx D.Cx.Input.eq D.Cx.Result.eq call) →
        IfErr call.result (FailsFor D.Delegate D.Cx.Input.eq call.before.cache.cx
        call.after.cache.results (limits_met_in ran).most_runs call.goal (goals_at_end ran)) }
{}
