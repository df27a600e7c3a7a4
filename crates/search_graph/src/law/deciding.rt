//! What a call decides, where the goals that its own may reach by questions ask inductively and coinductively alone and decide
//! after decided answers, each result that is stored of them is yes or no, and no limit is met. Of other goals nothing is asked.
ghost use Rattle.std.specs.Prelude.{◌≡◌, false, IfErr, IfOk};
ghost use Rattle.search_graph.specs.Below.{Decides, IsDefinite, IsMemoryOrOrder, verdicts};
ghost use Rattle.search_graph.specs.Called.{Called, HasRun};
ghost use Rattle.search_graph.specs.Deciding.{AreDefiniteFrom, DecidesFrom, StoresDefinite};
ghost use Rattle.search_rules.specs.Claims.{HasOneOfEach};

use search_context::context::Delegate;

/// Each result that is stored is yes or no, or was stored in its place before, also after a fault.
pub fn stores<D: Delegate>()
    ensures { (call : Called D.Cx D.Cx.Input D.Cx.Result D.Cx.AmbiguityInfo
        D.Cx.DepNodeIndex) →
        HasRun D.Delegate D.Cx.Cx D.Cx.Input.eq D.Cx.Result.eq call →
        DecidesFrom (verdicts D.Cx.Cx) (D.script call.before.cache.cx) call.goal →
        AreDefiniteFrom (verdicts D.Cx.Cx) (D.script call.before.cache.cx) call.goal D.Cx.Input.eq
        call.before.cache.results →
        call.after.graph.limits_met ≡ false →
        StoresDefinite (verdicts D.Cx.Cx) D.Cx.Input.eq call.before.cache.results
        call.after.cache.results }
{}

/// The answer is yes or no.
pub fn definite<D: Delegate>()
    ensures { (call : Called D.Cx D.Cx.Input D.Cx.Result D.Cx.AmbiguityInfo
        D.Cx.DepNodeIndex) →
        HasRun D.Delegate D.Cx.Cx D.Cx.Input.eq D.Cx.Result.eq call →
        DecidesFrom (verdicts D.Cx.Cx) (D.script call.before.cache.cx) call.goal →
        AreDefiniteFrom (verdicts D.Cx.Cx) (D.script call.before.cache.cx) call.goal D.Cx.Input.eq
        call.before.cache.results →
        call.after.graph.limits_met ≡ false →
        IfOk call.result (λ answer. IsDefinite (verdicts D.Cx.Cx) answer.result) }
{}

/// The answer is yes if the goal has a proof graph at all, and no if it has a refutation graph.
pub fn decides<D: Delegate>()
    ensures { (call : Called D.Cx D.Cx.Input D.Cx.Result D.Cx.AmbiguityInfo
        D.Cx.DepNodeIndex) →
        HasRun D.Delegate D.Cx.Cx D.Cx.Input.eq D.Cx.Result.eq call →
        DecidesFrom (verdicts D.Cx.Cx) (D.script call.before.cache.cx) call.goal →
        AreDefiniteFrom (verdicts D.Cx.Cx) (D.script call.before.cache.cx) call.goal D.Cx.Input.eq
        call.before.cache.results →
        call.after.graph.limits_met ≡ false →
        IfOk call.result (λ answer. Decides D.Cx.Cx call.before.cache.cx call.goal answer.result) }
{}

/// If there is one yes and one no, no two results differ that belong in one place: the only fault is want of memory, or a request
/// out of order.
pub fn faults<D: Delegate>()
    ensures { (call : Called D.Cx D.Cx.Input D.Cx.Result D.Cx.AmbiguityInfo
        D.Cx.DepNodeIndex) →
        HasRun D.Delegate D.Cx.Cx D.Cx.Input.eq D.Cx.Result.eq call →
        DecidesFrom (verdicts D.Cx.Cx) (D.script call.before.cache.cx) call.goal →
        AreDefiniteFrom (verdicts D.Cx.Cx) (D.script call.before.cache.cx) call.goal D.Cx.Input.eq
        call.before.cache.results →
        call.after.graph.limits_met ≡ false →
        HasOneOfEach (verdicts D.Cx.Cx) →
        IfErr call.result IsMemoryOrOrder }
{}
