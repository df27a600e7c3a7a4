//! What a call promises whose goal is not looked for, as the root of a proof tree is not: it is worked out.
ghost use Rattle.std.specs.Prelude.{◌≡◌, true, false, IfOk};
ghost use Rattle.search_graph.specs.Below.{HasCounted};
ghost use Rattle.search_graph.specs.Called.{Called, HasRun};
ghost use Rattle.search_rules.specs.Claims.{ComesTo};

use search_context::context::Delegate;

/// The answer is what the goal's script came to after replies that fit, or the result that stands for its most runs.
pub fn comes<D: Delegate>()
    ensures { (call : Called D.Cx D.Cx.Input D.Cx.Result D.Cx.AmbiguityInfo
        D.Cx.DepNodeIndex) →
        HasRun D.Delegate D.Cx.Cx D.Cx.Input.eq D.Cx.Result.eq call →
        call.looks_up ≡ false →
        IfOk call.result (λ answer. ComesTo (D.script call.before.cache.cx)
        (D.fixpoint_overflow call.before.cache.cx) call.goal answer.result) }
{}

/// Where starts are counted, a frame is started, unless their count has come to its end.
pub fn starts<D: Delegate>()
    ensures { (call : Called D.Cx D.Cx.Input D.Cx.Result D.Cx.AmbiguityInfo
        D.Cx.DepNodeIndex) →
        HasRun D.Delegate D.Cx.Cx D.Cx.Input.eq D.Cx.Result.eq call →
        call.looks_up ≡ false → D.counts ≡ true →
        IfOk call.result (λ answer. HasCounted D.last call.before.starts call.after.starts 1) }
{}
