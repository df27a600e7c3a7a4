//! What a call keeps, and what it leaves.
ghost use Rattle.std.specs.Prelude.{◌≡◌, ◌≢◌, ◌⊎◌, length, IfErr, IfOk, IfSome, Some};
ghost use Rattle.search_graph.specs.Below.{IsWhole, KeepsWhole, Memory, verdicts};
ghost use Rattle.search_graph.specs.Called.{Called, HasRun};
ghost use Rattle.search_graph.specs.Left.{ShowsFound, ShowsStored};
ghost use Rattle.search_state.specs.Drafts.{LeavesReached};

use search_context::context::Delegate;

/// The graph of a definite answer is there to be handed out.
pub fn whole<D: Delegate>()
    ensures { (call : Called D.Cx D.Cx.Input D.Cx.Result D.Cx.AmbiguityInfo
        D.Cx.DepNodeIndex) →
        HasRun D.Delegate D.Cx.Cx D.Cx.Input.eq D.Cx.Result.eq call →
        IfOk call.result (λ answer. IfSome answer.node (λ node.
        IsWhole call.after.cache.nodes node.0)) }
{}

/// Each graph that was there to be handed out stays so.
pub fn kept_whole<D: Delegate>()
    ensures { (call : Called D.Cx D.Cx.Input D.Cx.Result D.Cx.AmbiguityInfo
        D.Cx.DepNodeIndex) →
        HasRun D.Delegate D.Cx.Cx D.Cx.Input.eq D.Cx.Result.eq call →
        KeepsWhole call.before.cache.nodes call.after.cache.nodes }
{}

/// Of the nodes that the call wrote those alone are left to which the answer's node leads, or one that shows a result
/// that is stored.
pub fn leaves<D: Delegate>()
    ensures { (call : Called D.Cx D.Cx.Input D.Cx.Result D.Cx.AmbiguityInfo
        D.Cx.DepNodeIndex) →
        HasRun D.Delegate D.Cx.Cx D.Cx.Input.eq D.Cx.Result.eq call →
        IfOk call.result (λ answer. LeavesReached (length call.before.cache.nodes)
        (λ root. (answer.node ≡ Some root) ⊎
        ShowsStored (verdicts D.Cx.Cx) D.Cx.Input.eq call.after.cache root)
        call.after.cache) }
{}

/// After a fault those alone are left to which a node leads that shows a result that is stored, or the one that the fault
/// tells beside a stored one, unless the fault is want of memory.
pub fn leaves_at_fault<D: Delegate>()
    ensures { (call : Called D.Cx D.Cx.Input D.Cx.Result D.Cx.AmbiguityInfo
        D.Cx.DepNodeIndex) →
        HasRun D.Delegate D.Cx.Cx D.Cx.Input.eq D.Cx.Result.eq call →
        IfErr call.result (λ fault. fault ≢ Memory → LeavesReached (length call.before.cache.nodes)
        (λ root. ShowsStored (verdicts D.Cx.Cx) D.Cx.Input.eq call.after.cache root ⊎
        ShowsFound (verdicts D.Cx.Cx) call.after.cache.nodes fault root)
        call.after.cache) }
{}
