//! What a list of calls promises.
ghost use Rattle.std.specs.Prelude.{◌≡◌, ◌≤◌, ℕ, false, All};
ghost use Rattle.std.specs.List.{AllZip};
ghost use Rattle.search_graph.specs.Below.{KeepsWhole, StoresWithin};
ghost use Rattle.search_graph.specs.Lists.{HasLimits, Listed, ListHasRun, met_in, WasCalled};

use search_context::context::Delegate;

/// Each query was asked by a call of its own, so all laws of calls hold of it.
pub fn each_is_called<D: Delegate>()
    ensures { (list : Listed D.Cx D.Cx.Input D.Cx.Result D.Cx.AmbiguityInfo
        D.Cx.DepNodeIndex) →
        ListHasRun D.Delegate D.Cx.Cx D.Cx.Input.eq D.Cx.Result.eq list →
        AllZip (WasCalled D.Delegate D.Cx.Cx D.Cx.Input.eq D.Cx.Result.eq list.noop)
        list.queries list.answers }
{}

/// Until one of the graphs has met a limit, a decisive delegate's answers and stored results are yes or no, and no result is
/// stored that met overflow; and a limit has its price in frames. Among goals that no question leads out of, with depth enough
/// for all of them, none is refused.
pub fn limits_of_all<D: Delegate>()
    ensures { (list : Listed D.Cx D.Cx.Input D.Cx.Result D.Cx.AmbiguityInfo
        D.Cx.DepNodeIndex) →
        ListHasRun D.Delegate D.Cx.Cx D.Cx.Input.eq D.Cx.Result.eq list →
        HasLimits D.Delegate D.Cx.Cx D.Cx.Input.eq (met_in list.graphs) list.queries list.before
        list.after list.starts list.later list.answers }
{}

/// Each stored result requires no more than the greatest of the depths, or as much as the one that stood in its place before.
pub fn within_of_all<D: Delegate>()
    ensures { (list : Listed D.Cx D.Cx.Input D.Cx.Result D.Cx.AmbiguityInfo
        D.Cx.DepNodeIndex) →
        ListHasRun D.Delegate D.Cx.Cx D.Cx.Input.eq D.Cx.Result.eq list →
        (depth : ℕ) → All (λ query. query.0 ≤ depth) list.queries →
        StoresWithin D.Cx.Input.eq depth list.before.results list.after.results }
{}

/// A builder that records leaves all stored results as they were.
pub fn recorded_of_all<D: Delegate>()
    ensures { (list : Listed D.Cx D.Cx.Input D.Cx.Result D.Cx.AmbiguityInfo
        D.Cx.DepNodeIndex) →
        ListHasRun D.Delegate D.Cx.Cx D.Cx.Input.eq D.Cx.Result.eq list →
        list.noop ≡ false → list.after.results ≡ list.before.results }
{}

/// Each graph that was there to be handed out stays so.
pub fn kept_whole_of_all<D: Delegate>()
    ensures { (list : Listed D.Cx D.Cx.Input D.Cx.Result D.Cx.AmbiguityInfo
        D.Cx.DepNodeIndex) →
        ListHasRun D.Delegate D.Cx.Cx D.Cx.Input.eq D.Cx.Result.eq list →
        KeepsWhole list.before.nodes list.after.nodes }
{}
