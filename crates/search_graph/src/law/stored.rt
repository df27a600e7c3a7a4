//! What a call promises of stored results.
ghost use Rattle.std.specs.Prelude.{◌≡◌, true, false, IfOk, IfSome, Ok};
ghost use Rattle.search_graph.specs.Below.{HaveNoOverflow, IsRemembered, Place, stored_at, StoresWithin};
ghost use Rattle.search_graph.specs.Called.{Called, found_in, HasRun};

use search_context::context::Delegate;

/// A goal that a stored result answers takes no memory and starts no frame, unless the builder records or the delegate has the
/// result validated.
pub fn told<D: Delegate>()
    ensures { (call : Called D.Cx D.Cx.Input D.Cx.Result D.Cx.AmbiguityInfo
        D.Cx.DepNodeIndex) →
        HasRun D.Delegate D.Cx.Cx D.Cx.Input.eq D.Cx.Result.eq call →
        call.looks_up ≡ true → D.scoped call.before.cache.cx call.goal ≡ false →
        IfSome (found_in D.Cx.Input.eq call.before.cache call.goal call.before.graph.root_depth)
        (λ hit. (call.result ≡ Ok (record { result = hit.result; node = hit.node }))
        × (call.after.starts ≡ call.before.starts) × (call.after.graph ≡ call.before.graph)
        × (call.after.cache ≡ call.before.cache)) }
{}

/// A goal whose stored result the delegate has validated is worked out again, and an answer is that result.
pub fn validated<D: Delegate>()
    ensures { (call : Called D.Cx D.Cx.Input D.Cx.Result D.Cx.AmbiguityInfo
        D.Cx.DepNodeIndex) →
        HasRun D.Delegate D.Cx.Cx D.Cx.Input.eq D.Cx.Result.eq call →
        call.looks_up ≡ true → D.scoped call.before.cache.cx call.goal ≡ true →
        IfOk call.result (λ answer. IfSome (found_in D.Cx.Input.eq call.before.cache call.goal
        call.before.graph.root_depth) (λ hit. answer.result ≡ hit.result)) }
{}

/// Where starts are counted, no result was stored that met overflow and no limit is met, the answer is stored, so the cache,
/// as it is left, answers the same call, unless the builder records or the delegate has the result validated.
pub fn remembered<D: Delegate>()
    ensures { (call : Called D.Cx D.Cx.Input D.Cx.Result D.Cx.AmbiguityInfo
        D.Cx.DepNodeIndex) →
        HasRun D.Delegate D.Cx.Cx D.Cx.Input.eq D.Cx.Result.eq call →
        call.looks_up ≡ true → D.scoped call.before.cache.cx call.goal ≡ false →
        D.counts ≡ true → HaveNoOverflow D.Cx.Input.eq call.before.cache.results →
        call.before.graph.limits_met ≡ false → call.after.graph.limits_met ≡ false →
        IfOk call.result (IsRemembered D.Cx.Input.eq call.after.cache.results call.goal
        call.before.graph.root_depth) }
{}

/// A builder that records leaves all stored results as they were.
pub fn recorded<D: Delegate>()
    ensures { (call : Called D.Cx D.Cx.Input D.Cx.Result D.Cx.AmbiguityInfo
        D.Cx.DepNodeIndex) →
        HasRun D.Delegate D.Cx.Cx D.Cx.Input.eq D.Cx.Result.eq call →
        call.noop ≡ false → call.after.cache.results ≡ call.before.cache.results }
{}

/// What is stored of a goal that is not looked for, as the root of a proof tree is not, stays as it was.
pub fn spared<D: Delegate>()
    ensures { (call : Called D.Cx D.Cx.Input D.Cx.Result D.Cx.AmbiguityInfo
        D.Cx.DepNodeIndex) →
        HasRun D.Delegate D.Cx.Cx D.Cx.Input.eq D.Cx.Result.eq call →
        call.looks_up ≡ false → (place : Place) →
        stored_at D.Cx.Input.eq call.after.cache.results call.goal place
        ≡ stored_at D.Cx.Input.eq call.before.cache.results call.goal place }
{}

/// No goal requires more than its depth: each stored result requires no more than the root depth, or as much as the one that
/// stood in its place before.
pub fn within<D: Delegate>()
    ensures { (call : Called D.Cx D.Cx.Input D.Cx.Result D.Cx.AmbiguityInfo
        D.Cx.DepNodeIndex) →
        HasRun D.Delegate D.Cx.Cx D.Cx.Input.eq D.Cx.Result.eq call →
        StoresWithin D.Cx.Input.eq call.before.graph.root_depth call.before.cache.results
        call.after.cache.results }
{}
