//! What a call decides, where scripts ask inductively and coinductively alone and decide after decided answers, each result
//! that is stored is yes or no, and no limit is met.
ghost use Rattle.std.specs.Prelude.{◌≡◌, false, IfErr, IfOk};
ghost use Rattle.search_graph.specs.Below.{AreDefinite, Decides, IsDecisive, IsDefinite, IsMemoryOrOrder, verdicts};
ghost use Rattle.search_graph.specs.Called.{Called, HasRun};
ghost use Rattle.search_rules.specs.Claims.{HasOneOfEach};

use search_context::context::Delegate;

/// Each stored result is yes or no when the call ends, too, also after a fault.
pub fn decisive_results<D: Delegate>()
    ensures { (call : Called D.Cx D.Cx.Input D.Cx.Result D.Cx.AmbiguityInfo
        D.Cx.DepNodeIndex) →
        HasRun D.Delegate D.Cx.Cx D.Cx.Input.eq D.Cx.Result.eq call →
        IsDecisive (verdicts D.Cx.Cx) (D.script call.before.cache.cx) →
        AreDefinite (verdicts D.Cx.Cx) D.Cx.Input.eq call.before.cache.results →
        call.after.graph.limits_met ≡ false →
        AreDefinite (verdicts D.Cx.Cx) D.Cx.Input.eq call.after.cache.results }
{}

/// The answer is yes or no, also that of a goal whose search is recorded.
pub fn definite<D: Delegate>()
    ensures { (call : Called D.Cx D.Cx.Input D.Cx.Result D.Cx.AmbiguityInfo
        D.Cx.DepNodeIndex) →
        HasRun D.Delegate D.Cx.Cx D.Cx.Input.eq D.Cx.Result.eq call →
        IsDecisive (verdicts D.Cx.Cx) (D.script call.before.cache.cx) →
        AreDefinite (verdicts D.Cx.Cx) D.Cx.Input.eq call.before.cache.results →
        call.after.graph.limits_met ≡ false →
        IfOk call.result (λ answer. IsDefinite (verdicts D.Cx.Cx) answer.result) }
{}

/// The answer is yes if the goal has a proof graph at all, and no if it has a refutation graph.
pub fn decides<D: Delegate>()
    ensures { (call : Called D.Cx D.Cx.Input D.Cx.Result D.Cx.AmbiguityInfo
        D.Cx.DepNodeIndex) →
        HasRun D.Delegate D.Cx.Cx D.Cx.Input.eq D.Cx.Result.eq call →
        IsDecisive (verdicts D.Cx.Cx) (D.script call.before.cache.cx) →
        AreDefinite (verdicts D.Cx.Cx) D.Cx.Input.eq call.before.cache.results →
        call.after.graph.limits_met ≡ false →
        IfOk call.result (λ answer. Decides D.Cx.Cx call.before.cache.cx call.goal answer.result) }
{}

/// If there is one yes and one no, no two results differ that are stored in one place: the only fault is want of memory, or a
/// request out of order.
pub fn decisive_faults<D: Delegate>()
    ensures { (call : Called D.Cx D.Cx.Input D.Cx.Result D.Cx.AmbiguityInfo
        D.Cx.DepNodeIndex) →
        HasRun D.Delegate D.Cx.Cx D.Cx.Input.eq D.Cx.Result.eq call →
        IsDecisive (verdicts D.Cx.Cx) (D.script call.before.cache.cx) →
        HasOneOfEach (verdicts D.Cx.Cx) →
        AreDefinite (verdicts D.Cx.Cx) D.Cx.Input.eq call.before.cache.results →
        call.after.graph.limits_met ≡ false →
        IfErr call.result IsMemoryOrOrder }
{}
